//! Calls of the application and of ackers: `call C NAME ARGS` and `acker N CALL`.
ghost use Rattle.std.specs.Prelude.{◌≡◌, ◌++◌, ◌∷◌, [], false, Some, Err, IfOk, IsOk, OnOk, OnErr};
ghost use Rattle.lapin_types.specs.declared.call.Call.TheVariants.{BasicPublish};
ghost use Rattle.lapin_types.specs.declared.event.Event.TheVariants as event;
ghost use Rattle.lapin_scalars.specs.declared.fault.ReadError.TheVariants.{Bad};
ghost use Rattle.lapin_rules.specs.Calls.{asked, publishes};
ghost use Rattle.lapin_machine.specs.Numbers.{HasNumbersFor, CallCause};
ghost use Rattle.lapin_machine.specs.Told.{TicketTold};
ghost use Rattle.lapin_machine.specs.World.{next, told_by};
ghost use Rattle.lapin_tokens.specs.Reading.{fields_at};
ghost use Rattle.lapin_text.specs.CallText.{publish_fields, publish_of, call_at};
ghost use Rattle.lapin_text.specs.LineReading.{whole, event_of_word};
ghost use Rattle.lapin_text.specs.declared.words.Word.TheVariants as word;
ghost use Rattle.lapin_lines.specs.Lines.{IsMet, IsTaken, call_event};

use crate::steps::{last, print_step, put_refusal};
use lapin_machine::{Session, Ticket};
use lapin_text::{put_published, put_ticket, read_acker_call, read_call};
use lapin_tokens::{
    ReadError, Tokens, flag, payload, properties, text as short_text, u16_at, u64_at,
};
use lapin_types::{
    AckerCall, BasicProperties, BasicPublishOptions, Call, Error, Event, NoMemory, Payload,
    ShortString,
};
use std::alloc::Global;

// Takes a line that began with `call`.
#[inline(never)]
pub(crate) fn take_call(
    alloc: Global,
    session: &mut Session,
    tokens: &mut Tokens,
    text: &mut Vec<u8>,
) -> Result<bool, NoMemory>
    requires { HasNumbersFor 1 session.old }
    ensures { IfOk result (IsTaken (whole (event_of_word word.Call tokens.old)) session.old session.new text.old.items text.new.items) }
{
    let channel = match u16_at(tokens) {
        Ok(channel) => channel,
        Err(ReadError::Bad) => return Ok(false),
        Err(ReadError::Memory) => return Err(NoMemory),
    };
    if !tokens.word(b"basic.publish") {
        return take_other(alloc, session, channel, tokens, text);
    }
    match take_publish(alloc, session, channel, tokens, text) {
        Ok(taken) => Ok(taken),
        Err(ReadError::Bad) => Ok(false),
        Err(ReadError::Memory) => Err(NoMemory),
    }
}

// Takes a publish, which most calls are. Its fields go to the session as they were read, so that no call is made of them and taken
// apart again.
#[inline(always)]
fn take_publish(
    alloc: Global,
    session: &mut Session,
    channel: u16,
    tokens: &mut Tokens,
    text: &mut Vec<u8>,
) -> Result<bool, ReadError>
    requires { HasNumbersFor 1 session.old }
    ensures taken { IfOk result (IsTaken (whole (call_event channel (fields_at publish_fields publish_of tokens.old))) session.old session.new text.old.items text.new.items) }
    ensures bad { result ≡ Err Bad → IsTaken (whole (call_event channel (fields_at publish_fields publish_of tokens.old))) session.old session.new text.old.items text.new.items false }
{
    let exchange = short_text(alloc, tokens)?;
    let routing_key = short_text(alloc, tokens)?;
    let mandatory = flag(tokens)?;
    let immediate = flag(tokens)?;
    let payload = payload(alloc, tokens)?;
    let properties = properties(alloc, tokens)?;
    if tokens.next().is_some() {
        return Ok(false);
    }
    let options = BasicPublishOptions {
        mandatory,
        immediate,
    };
    print_publish(
        alloc,
        session,
        channel,
        exchange,
        routing_key,
        options,
        payload,
        properties,
        text,
    )?;
    Ok(true)
}

// Takes any other call.
#[inline(never)]
fn take_other(
    alloc: Global,
    session: &mut Session,
    channel: u16,
    tokens: &mut Tokens,
    text: &mut Vec<u8>,
) -> Result<bool, NoMemory>
    requires { HasNumbersFor 1 session.old }
    ensures { IfOk result (IsTaken (whole (call_event channel (call_at tokens.old))) session.old session.new text.old.items text.new.items) }
{
    match read_call(alloc, tokens) {
        Ok(call) => call_last(alloc, session, channel, call, tokens, text),
        Err(ReadError::Bad) => Ok(false),
        Err(ReadError::Memory) => Err(NoMemory),
    }
}

// Makes a call, where it is the last of its line.
#[inline(always)]
fn call_last(
    alloc: Global,
    session: &mut Session,
    channel: u16,
    call: Call,
    tokens: &mut Tokens,
    text: &mut Vec<u8>,
) -> Result<bool, NoMemory>
    requires { HasNumbersFor 1 session.old }
    ensures { IfOk result (IsTaken (whole (Some (event.Call channel call, tokens.old))) session.old session.new text.old.items text.new.items) }
{
    match tokens.next() {
        Some(_) => {
            drop(call);
            Ok(false)
        }
        None => {
            print_call(alloc, session, channel, call, text)?;
            Ok(true)
        }
    }
}

// Makes a call, and appends the line of its answer.
#[inline(never)]
fn print_call(
    alloc: Global,
    session: &mut Session,
    channel: u16,
    call: Call,
    text: &mut Vec<u8>,
) -> Result<(), NoMemory>
    requires { HasNumbersFor 1 session.old }
    ensures { OnOk result (IsMet (event.Call channel call) session.old session.new text.old.items text.new.items) }
{
    match call {
        publish @ (Call::BasicPublish { .. } | Call::TryBasicPublish { .. }) => {
            print_step(alloc, session, Event::Call(channel, publish), text)
        }
        other => print_ticket(alloc, session, channel, other, text),
    }
}

// Makes a call that publishes nothing, and appends the line of the ticket, or of the refusal.
fn print_ticket(
    alloc: Global,
    session: &mut Session,
    channel: u16,
    call: Call,
    text: &mut Vec<u8>,
) -> Result<(), NoMemory>
    requires numbers { HasNumbersFor 1 session.old }
    requires plain { publishes (asked call) ≡ false }
    ensures { OnOk result (IsMet (event.Call channel call) session.old session.new text.old.items text.new.items) }
{
    match make_call(alloc, session, channel, call) {
        Ok(ticket) => {
            put_ticket(text, ticket.number)?;
            text.push(b'\n')?;
            Ok(())
        }
        Err(Error::NumbersUsedUp) => unreachable!(),
        Err(error) => put_refusal(alloc, text, error),
    }
}

// Makes a call that publishes nothing. An opening and a close of a channel, which come often, are not looked up among all calls.
#[inline(always)]
fn make_call(
    alloc: Global,
    session: &mut Session,
    channel: u16,
    call: Call,
) -> Result<Ticket, Error>
    requires { publishes (asked call) ≡ false }
    ensures told { TicketTold result (told_by session.old (event.Call channel call)) }
    ensures ok { OnOk result (session.new ≡ next session.old (event.Call channel call)) }
    ensures err { OnErr result (session.new ≡ session.old) }
    ensures cause { CallCause result channel call session.old.wire }
{
    match call {
        Call::OpenChannel => session.open_channel(alloc, channel),
        Call::ChannelClose {
            reply_code,
            reply_text,
        } => session.channel_close(alloc, channel, reply_code, reply_text),
        other => session.call(alloc, channel, other),
    }
}

// Publishes, and appends the line of the ticket and the confirm, or of the refusal.
#[inline(always)]
fn print_publish(
    alloc: Global,
    session: &mut Session,
    channel: u16,
    exchange: ShortString,
    routing_key: ShortString,
    options: BasicPublishOptions,
    payload: Payload,
    properties: BasicProperties,
    text: &mut Vec<u8>,
) -> Result<(), NoMemory>
    requires { HasNumbersFor 1 session.old }
    ensures { OnOk result (IsMet (event.Call channel (BasicPublish exchange routing_key options payload properties)) session.old session.new text.old.items text.new.items) }
{
    match session.basic_publish(
        alloc,
        channel,
        exchange,
        routing_key,
        options,
        payload,
        properties,
    ) {
        Ok(published) => {
            put_published(text, published.ticket.number, published.confirm.number)?;
            text.push(b'\n')?;
            Ok(())
        }
        Err(Error::NumbersUsedUp) => unreachable!(),
        Err(error) => put_refusal(alloc, text, error),
    }
}

// Takes a line that began with `acker`.
#[inline(never)]
pub(crate) fn take_acker(
    alloc: Global,
    session: &mut Session,
    tokens: &mut Tokens,
    text: &mut Vec<u8>,
) -> Result<bool, NoMemory>
    requires { HasNumbersFor 1 session.old }
    ensures { IfOk result (IsTaken (whole (event_of_word word.Acker tokens.old)) session.old session.new text.old.items text.new.items) }
{
    let number = match u64_at(tokens) {
        Ok(number) => number,
        Err(ReadError::Bad) => return Ok(false),
        Err(ReadError::Memory) => return Err(NoMemory),
    };
    let call = read_acker_call(tokens);
    match last(tokens, call)? {
        Some(call) => {
            print_acker(alloc, session, number, call, text)?;
            Ok(true)
        }
        None => Ok(false),
    }
}

// Calls an acker, and appends the line of its answer.
fn print_acker(
    alloc: Global,
    session: &mut Session,
    number: u64,
    call: AckerCall,
    text: &mut Vec<u8>,
) -> Result<(), NoMemory>
    requires { HasNumbersFor 1 session.old }
    ensures { OnOk result (IsMet (event.Acker number call) session.old session.new text.old.items text.new.items) }
{
    match session.acker_call(alloc, number, call) {
        Ok(Some(ticket)) => {
            put_ticket(text, ticket.number)?;
            text.push(b'\n')?;
            Ok(())
        }
        Ok(None) => {
            text.extend_from_slice(b"no\n")?;
            Ok(())
        }
        Err(Error::NumbersUsedUp) => unreachable!(),
        Err(error) => put_refusal(alloc, text, error),
    }
}
