//! What a caller gives to an opening, and what this side tells of itself by it: the client's properties (AMQP 0-9-1, connection.start-ok).

ghost use Rattle.std.specs.Prelude.{◌≡◌, ◌++◌, ◌∷◌, [], OnOk, IfErr, ⊤};
ghost use Rattle.lapin_fields.specs.Fits.{Refused};
ghost use Rattle.lapin_fields.specs.Reading.{GivesWhole};
ghost use Rattle.lapin_handshake.specs.Callers.{named, AreTellable, client_properties, own_product};
ghost use Rattle.lapin_handshake.specs.Faults.{Untellable};

use crate::fault::Unsaid;
use lapin_fields::{LEVELS, ReadFault, WriteFault, table_of};
use std::alloc::Global;

/// What this side can do.
pub const CAPABILITIES: [u8; 158] =
    *b"\x0ccapabilitiesF\x00\x00\x00\x8c\x1cauthentication_failure_closet\x01\x0abasic.nackt\x01\x12connection.blockedt\x01\x16consumer_cancel_notifyt\x01\x1aexchange_exchange_bindingst\x01\x12publisher_confirmst\x01";

/// The name of this client.
pub const PRODUCT: [u8; 27] = *b"\x07productS\x00\x00\x00\x0elapin channels";

/// Octets that a caller gives: who it is, the virtual host, and further pairs of the client's properties as a table has them.
#[derive(Clone, Copy)]
pub struct Caller<'a> {
    pub user: &'a [u8],
    pub password: &'a [u8],
    pub vhost: &'a [u8],
    pub pairs: &'a [u8],
}

// Whether a pair of that name is among pairs, which are the content of a table.
fn has_pair(alloc: Global, pairs: &[u8], name: &str) -> Result<bool, ReadFault>
    ensures { GivesWhole result (named name.now pairs.now) }
{
    let table = table_of(alloc, pairs, LEVELS)?;
    let found = table.get(name).is_some();
    drop(table);
    Ok(found)
}

/// Whether pairs can be told.
///
/// # Errors
/// `NotPairs` exactly where they aren't the content of a table, or one of them is named `capabilities`; `NoMemory`.
pub fn check_pairs(alloc: Global, pairs: &[u8]) -> Result<(), Unsaid>
    ensures told { OnOk result (AreTellable pairs.now) }
    ensures failed { IfErr result (λ e. Untellable e pairs.now) }
{
    match has_pair(alloc, pairs, "capabilities") {
        Ok(false) => Ok(()),
        Ok(true) | Err(ReadFault::Malformed) => Err(Unsaid::NotPairs),
        Err(ReadFault::NoMemory) => Err(Unsaid::NoMemory),
    }
}

// Adds the name of this client, where the caller's pairs give none.
fn put_product(alloc: Global, out: &mut Vec<u8>, pairs: &[u8]) -> Result<(), WriteFault>
    ensures bytes { OnOk result (out.new.items ≡ out.old.items ++ own_product (named (112 ∷ 114 ∷ 111 ∷ 100 ∷ 117 ∷ 99 ∷ 116 ∷ []) pairs.now)) }
    ensures refused { Refused result ⊤ }
{
    match has_pair(alloc, pairs, "product") {
        Ok(true) => Ok(()),
        Ok(false) | Err(ReadFault::Malformed) => {
            out.extend_from_slice(&PRODUCT)?;
            Ok(())
        }
        Err(ReadFault::NoMemory) => Err(WriteFault::NoMemory),
    }
}

/// Adds what this side tells of itself.
#[tactic(auto, unfolding(crate::specs::Callers::client_properties))]
pub(crate) fn put_client(alloc: Global, out: &mut Vec<u8>, pairs: &[u8]) -> Result<(), WriteFault>
    ensures bytes { OnOk result (out.new.items ≡ out.old.items ++ client_properties pairs.now) }
    ensures refused { Refused result ⊤ }
{
    out.extend_from_slice(&CAPABILITIES)?;
    put_product(alloc, out, pairs)?;
    out.extend_from_slice(pairs)?;
    Ok(())
}
