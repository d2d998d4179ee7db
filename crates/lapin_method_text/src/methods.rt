//! Methods of all classes as text: the name, and then the fields by the table of the class.

ghost use Rattle.std.specs.Prelude.{◌≡◌, ◌∷◌, OnOk};
ghost use Rattle.lapin_tokens.specs.Reading.{Gives};
ghost use Rattle.lapin_tokens.specs.TokenText.{onto};
ghost use Rattle.lapin_method_text.specs.Methods.{method_tokens};
ghost use Rattle.lapin_method_text.specs.MethodReading.{method_at, of_kind};
ghost use Rattle.lapin_method_text.specs.declared.kinds.BasicKind.TheVariants as basic_kind;
ghost use Rattle.lapin_method_text.specs.declared.kinds.MethodKind.TheVariants as kind;

use crate::access::{put_access, read_access};
use crate::basic::{put_basic, read_basic};
use crate::channel::{put_channel, read_channel};
use crate::confirm::{put_confirm, read_confirm};
use crate::connection::{put_connection, read_connection};
use crate::exchange::{put_exchange, read_exchange};
use crate::kinds::{MethodKind, kind_named};
use crate::queue::{put_queue, read_queue};
use crate::tx::{put_tx, read_tx};
use lapin_methods::{BasicMethod, Method};
use lapin_tokens::{ReadError, Tokens, flag, u64_at};
use std::alloc::{AllocError, Global};

/// The method of this name, whose fields are the next tokens.
#[tactic(auto, unfolding(crate::specs::MethodReading::method_at))]
pub fn read_named(alloc: Global, name: &[u8], tokens: &mut Tokens) -> Result<Method, ReadError>
    ensures { Gives result tokens.new (method_at (name.now ∷ tokens.old)) }
{
    match kind_named(name) {
        None => Err(ReadError::Bad),
        Some(MethodKind::Connection(kind)) => Ok(Method::Connection(read_connection(
            alloc, kind, tokens,
        )?)),
        Some(MethodKind::Channel(kind)) => Ok(Method::Channel(read_channel(alloc, kind, tokens)?)),
        Some(MethodKind::Access(kind)) => Ok(Method::Access(read_access(alloc, kind, tokens)?)),
        Some(MethodKind::Exchange(kind)) => Ok(Method::Exchange(read_exchange(
            alloc, kind, tokens,
        )?)),
        Some(MethodKind::Queue(kind)) => Ok(Method::Queue(read_queue(alloc, kind, tokens)?)),
        Some(MethodKind::Basic(kind)) => Ok(Method::Basic(read_basic(alloc, kind, tokens)?)),
        Some(MethodKind::Confirm(kind)) => Ok(Method::Confirm(read_confirm(alloc, kind, tokens)?)),
        Some(MethodKind::Tx(kind)) => Ok(Method::Tx(read_tx(alloc, kind, tokens)?)),
    }
}

// A confirmation, whose fields are the next tokens.
#[tactic(auto, unfolding(crate::specs::MethodReading::basic_at))]
fn read_ack(tokens: &mut Tokens) -> Result<Method, ReadError>
    ensures { Gives result tokens.new (of_kind (kind.Basic basic_kind.Ack) tokens.old) }
{
    let delivery_tag = u64_at(tokens)?;
    let multiple = flag(tokens)?;
    Ok(Method::Basic(BasicMethod::Ack {
        delivery_tag,
        multiple,
    }))
}

/// The method whose name and fields are the next tokens. A confirmation is told apart first, and read without a search.
#[tactic(auto, unfolding(crate::specs::MethodReading::method_at))]
pub fn read_method(alloc: Global, tokens: &mut Tokens) -> Result<Method, ReadError>
    ensures { Gives result tokens.new (method_at tokens.old) }
{
    if tokens.word(b"basic.ack") {
        return read_ack(tokens);
    }
    match tokens.next() {
        None => Err(ReadError::Bad),
        Some(name) => read_named(alloc, name, tokens),
    }
}

/// Adds the method's name and fields, each behind a space. Where memory runs out, the text may end within the method.
pub fn put_method(alloc: Global, out: &mut Vec<u8>, method: &Method) -> Result<(), AllocError>
    ensures { OnOk result (out.new.items ≡ onto out.old.items (method_tokens method.now)) }
{
    match method {
        Method::Connection(method) => put_connection(alloc, out, method),
        Method::Channel(method) => put_channel(alloc, out, method),
        Method::Access(method) => put_access(alloc, out, method),
        Method::Exchange(method) => put_exchange(alloc, out, method),
        Method::Queue(method) => put_queue(alloc, out, method),
        Method::Basic(method) => put_basic(alloc, out, method),
        Method::Confirm(method) => put_confirm(alloc, out, method),
        Method::Tx(method) => put_tx(alloc, out, method),
    }
}
