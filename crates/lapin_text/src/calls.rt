//! Calls as text: the name and the fields of the method that the call queues.
//!
//! A close has its code and its text alone, and a publish is followed by its bytes and its properties. A publish that may be refused
//! has a name that is no method's, and so has the limit of outstanding confirms, which queues none. Which call queues which method
//! stands in `queued`; what calls do stands in the session.

ghost use Rattle.std.specs.Prelude.{◌≡◌};
ghost use Rattle.lapin_types.specs.declared.call.Call.TheVariants as call;
ghost use Rattle.lapin_tokens.specs.Reading.{Gives, fields_at};
ghost use Rattle.lapin_text.specs.CallText.{close_fields, content_fields, publish_fields, limit_fields, publish_of, try_publish_of, call_with as call_with_lem, call_named as call_named_lem, call_at};

use crate::queued::call_of;
use lapin_method_text::{is_publish, read_named};
use lapin_tokens::{ReadError, Tokens, flag, is_word, payload, properties, text, u16_at, u64_at};
use lapin_types::{BasicMethod, BasicPublishOptions, Call, Method, ShortString};
use std::alloc::Global;

fn channel_close(alloc: Global, tokens: &mut Tokens) -> Result<Call, ReadError>
    ensures { Gives result tokens.new (fields_at close_fields (λ v. call.ChannelClose v.0 v.1.0) tokens.old) }
{
    let reply_code = u16_at(tokens)?;
    let reply_text = text(alloc, tokens)?;
    Ok(Call::ChannelClose {
        reply_code,
        reply_text,
    })
}

fn connection_close(alloc: Global, tokens: &mut Tokens) -> Result<Call, ReadError>
    ensures { Gives result tokens.new (fields_at close_fields (λ v. call.ConnectionClose v.0 v.1.0) tokens.old) }
{
    let reply_code = u16_at(tokens)?;
    let reply_text = text(alloc, tokens)?;
    Ok(Call::ConnectionClose {
        reply_code,
        reply_text,
    })
}

// The publish of a method that was read; its bytes and its properties are the next tokens.
fn publish(
    alloc: Global,
    exchange: ShortString,
    routing_key: ShortString,
    options: BasicPublishOptions,
    tokens: &mut Tokens,
) -> Result<Call, ReadError>
    ensures { Gives result tokens.new (fields_at content_fields (λ v. call.BasicPublish exchange routing_key options v.0 v.1.0) tokens.old) }
{
    let payload = payload(alloc, tokens)?;
    let properties = properties(alloc, tokens)?;
    Ok(Call::BasicPublish {
        exchange,
        routing_key,
        options,
        payload,
        properties,
    })
}

// The publish whose fields, bytes and properties are the next tokens. It is read in a row, so that neither a method is made nor the
// properties are moved again.
fn plain_publish(alloc: Global, tokens: &mut Tokens) -> Result<Call, ReadError>
    ensures { Gives result tokens.new (fields_at publish_fields publish_of tokens.old) }
{
    let exchange = text(alloc, tokens)?;
    let routing_key = text(alloc, tokens)?;
    let mandatory = flag(tokens)?;
    let immediate = flag(tokens)?;
    let payload = payload(alloc, tokens)?;
    let properties = properties(alloc, tokens)?;
    Ok(Call::BasicPublish {
        exchange,
        routing_key,
        options: BasicPublishOptions {
            mandatory,
            immediate,
        },
        payload,
        properties,
    })
}

// The same, of a publish that may be refused.
fn try_publish(alloc: Global, tokens: &mut Tokens) -> Result<Call, ReadError>
    ensures { Gives result tokens.new (fields_at publish_fields try_publish_of tokens.old) }
{
    let exchange = text(alloc, tokens)?;
    let routing_key = text(alloc, tokens)?;
    let mandatory = flag(tokens)?;
    let immediate = flag(tokens)?;
    let payload = payload(alloc, tokens)?;
    let properties = properties(alloc, tokens)?;
    Ok(Call::TryBasicPublish {
        exchange,
        routing_key,
        options: BasicPublishOptions {
            mandatory,
            immediate,
        },
        payload,
        properties,
    })
}

fn confirm_limit(tokens: &mut Tokens) -> Result<Call, ReadError>
    ensures { Gives result tokens.new (fields_at limit_fields (λ v. call.ConfirmLimit v.0) tokens.old) }
{
    let limit = u64_at(tokens)?;
    Ok(Call::ConfirmLimit { limit })
}

// The call of a method that was read; what follows a publish is read too.
fn call_with(alloc: Global, method: Method, tokens: &mut Tokens) -> Result<Call, ReadError>
    ensures { Gives result tokens.new (call_with_lem method tokens.old) }
{
    match method {
        Method::Basic(
            BasicMethod::Publish {
                exchange,
                routing_key,
                mandatory,
                immediate,
            },
        ) => {
            let options = BasicPublishOptions {
                mandatory,
                immediate,
            };
            publish(alloc, exchange, routing_key, options, tokens)
        }
        method => match call_of(method) {
            Some(call) => Ok(call),
            None => Err(ReadError::Bad),
        },
    }
}

// The call of this name, whose arguments are the next tokens.
#[tactic(auto, using(crate::proofs::CallLaws::publish_named), unfolding(crate::specs::CallText::call_named))]
fn call_named(alloc: Global, name: &[u8], tokens: &mut Tokens) -> Result<Call, ReadError>
    ensures { Gives result tokens.new (call_named_lem name.now tokens.old) }
{
    if is_publish(name) {
        plain_publish(alloc, tokens)
    } else if is_word(name, b"channel.close") {
        channel_close(alloc, tokens)
    } else if is_word(name, b"connection.close") {
        connection_close(alloc, tokens)
    } else if is_word(name, b"basic.try-publish") {
        try_publish(alloc, tokens)
    } else if is_word(name, b"confirm.limit") {
        confirm_limit(tokens)
    } else {
        match read_named(alloc, name, tokens) {
            Ok(method) => call_with(alloc, method, tokens),
            Err(error) => Err(error),
        }
    }
}

/// The call whose name and arguments are the next tokens. A publish, which most calls are, is told apart first.
#[tactic(auto, using(crate::proofs::CallLaws::publish_said), unfolding(crate::specs::CallText::call_at))]
pub fn read_call(alloc: Global, tokens: &mut Tokens) -> Result<Call, ReadError>
    ensures { Gives result tokens.new (call_at tokens.old) }
{
    if tokens.word(b"basic.publish") {
        return plain_publish(alloc, tokens);
    }
    match tokens.next() {
        None => Err(ReadError::Bad),
        Some(name) => call_named(alloc, name, tokens),
    }
}
