//! The types: what their readers tell, what a copy is, and what is the same as what.
use crate::texts::{channel, payload, returned, short, unused};
use lapin_types::{
    AMQPError, AMQPErrorKind, AMQPHardError, AMQPSoftError, AMQPValue, Acker, BasicProperties,
    Delivery, ExchangeKind, FieldArray, Queue, ReturnedList,
};
use std::alloc::Global;
use std::test::Fail;

fn mock(alloc: Global) -> Result<Delivery, Fail> {
    let exchange = short(alloc, "x")?;
    let routing_key = short(alloc, "q")?;
    let payload = payload(alloc, "hi")?;
    Ok(Delivery::mock(7, exchange, routing_key, true, payload))
}

// A mock has no properties, and an unused acker of channel 0 without a number.
#[test]
fn a_mock_is_unused(rt: HostRuntime) -> Result<(), Fail> {
    let delivery = mock(rt.alloc())?;
    assert!(rt; delivery.acker.same(&unused(0, 7, 0)));
    assert_eq!(rt; delivery.delivery_tag, 7);
    assert!(rt; delivery.redelivered);
    assert_eq!(rt; delivery.exchange.as_str(), "x");
    assert_eq!(rt; delivery.routing_key.as_str(), "q");
    assert_eq!(rt; delivery.payload.as_bytes(), b"hi".as_slice());
    assert!(rt; delivery.properties.same(&BasicProperties::default()));
    Ok(())
}

fn acker(channel_id: u16, delivery_tag: u64, number: u64, used: bool) -> Acker {
    Acker {
        channel_id,
        delivery_tag,
        number,
        used,
    }
}

// An acker is `==` to one of the same channel and delivery tag, and the same as one that is equal also in number and use.
#[test]
fn ackers_are_compared_in_two_ways(rt: HostRuntime) {
    let first = acker(1, 7, 2, false);
    assert!(rt; first == acker(1, 7, 2, false));
    assert!(rt; first == acker(1, 7, 3, false));
    assert!(rt; first == acker(1, 7, 2, true));
    assert!(rt; first != acker(1, 8, 2, false));
    assert!(rt; first != acker(2, 7, 2, false));
    assert!(rt; first.same(&acker(1, 7, 2, false)));
    assert!(rt; !first.same(&acker(1, 7, 3, false)));
    assert!(rt; !first.same(&acker(1, 7, 2, true)));
    assert!(rt; !first.same(&acker(1, 8, 2, false)));
    assert!(rt; !first.same(&acker(2, 7, 2, false)));
}

// The codes of the standard's soft and hard errors, and of RabbitMQ's NO_ROUTE, with the names of the errors; and some that have none.
const CODES: &str = "\
311 CONTENTTOOLARGE
312 NOROUTE
313 NOCONSUMERS
403 ACCESSREFUSED
404 NOTFOUND
405 RESOURCELOCKED
406 PRECONDITIONFAILED
320 CONNECTIONFORCED
402 INVALIDPATH
501 FRAMEERROR
502 SYNTAXERROR
503 COMMANDINVALID
504 CHANNELERROR
505 UNEXPECTEDFRAME
506 RESOURCEERROR
530 NOTALLOWED
540 NOTIMPLEMENTED
541 INTERNALERROR
0 none
200 none
310 none
314 none
401 none
507 none
542 none";

#[test]
fn a_returned_message_names_its_error(rt: HostRuntime) -> Result<(), Fail> {
    for line in CODES.lines() {
        assert!(rt; is_as_told(rt.alloc(), line)?, "at {line}");
    }
    Ok(())
}

// Whether a message that came back with the code of a line names the error of that line, or none.
fn is_as_told(alloc: Global, line: &str) -> Result<bool, Fail> {
    let (code, name) = line.split_once(' ').ok_or("a name is missing")?;
    let code = channel(code)?;
    match kind_named(name) {
        Some(kind) => names(alloc, code, kind),
        None => Ok(name == "none" && is_unnamed(alloc, code)?),
    }
}

fn kind_named(name: &str) -> Option<AMQPErrorKind> {
    match soft_named(name) {
        Some(error) => Some(AMQPErrorKind::Soft(error)),
        None => match hard_named(name) {
            Some(error) => Some(AMQPErrorKind::Hard(error)),
            None => None,
        },
    }
}

fn soft_named(name: &str) -> Option<AMQPSoftError> {
    match name {
        "CONTENTTOOLARGE" => Some(AMQPSoftError::CONTENTTOOLARGE),
        "NOROUTE" => Some(AMQPSoftError::NOROUTE),
        "NOCONSUMERS" => Some(AMQPSoftError::NOCONSUMERS),
        "ACCESSREFUSED" => Some(AMQPSoftError::ACCESSREFUSED),
        "NOTFOUND" => Some(AMQPSoftError::NOTFOUND),
        "RESOURCELOCKED" => Some(AMQPSoftError::RESOURCELOCKED),
        "PRECONDITIONFAILED" => Some(AMQPSoftError::PRECONDITIONFAILED),
        _ => None,
    }
}

fn hard_named(name: &str) -> Option<AMQPHardError> {
    match name {
        "CONNECTIONFORCED" => Some(AMQPHardError::CONNECTIONFORCED),
        "INVALIDPATH" => Some(AMQPHardError::INVALIDPATH),
        "FRAMEERROR" => Some(AMQPHardError::FRAMEERROR),
        "SYNTAXERROR" => Some(AMQPHardError::SYNTAXERROR),
        "COMMANDINVALID" => Some(AMQPHardError::COMMANDINVALID),
        "CHANNELERROR" => Some(AMQPHardError::CHANNELERROR),
        "UNEXPECTEDFRAME" => Some(AMQPHardError::UNEXPECTEDFRAME),
        "RESOURCEERROR" => Some(AMQPHardError::RESOURCEERROR),
        "NOTALLOWED" => Some(AMQPHardError::NOTALLOWED),
        "NOTIMPLEMENTED" => Some(AMQPHardError::NOTIMPLEMENTED),
        "INTERNALERROR" => Some(AMQPHardError::INTERNALERROR),
        _ => None,
    }
}

// Whether a message that came back with a code names this kind, with the broker's text, and so does a copy of its error.
fn names(alloc: Global, code: u16, kind: AMQPErrorKind) -> Result<bool, Fail> {
    match error_of(alloc, code)? {
        Some(error) => is_kept(alloc, &error, kind),
        None => Ok(false),
    }
}

fn is_unnamed(alloc: Global, code: u16) -> Result<bool, Fail> {
    match error_of(alloc, code)? {
        Some(_) => Ok(false),
        None => Ok(true),
    }
}

fn error_of(alloc: Global, code: u16) -> Result<Option<AMQPError>, Fail> {
    let message = returned(alloc, unused(0, 0, 0), code, "gone")?;
    Ok(message.error(alloc)?)
}

fn is_kept(alloc: Global, error: &AMQPError, kind: AMQPErrorKind) -> Result<bool, Fail> {
    let copy = error.try_clone(alloc)?;
    Ok(*copy.kind() == kind && copy.message.as_str() == "gone")
}

fn is_named(kind: &ExchangeKind, name: &str) -> bool {
    kind.kind() == name
}

#[test]
fn kinds_of_exchanges_have_names(rt: HostRuntime) {
    assert!(rt; is_named(&ExchangeKind::Direct, "direct"));
    assert!(rt; is_named(&ExchangeKind::Fanout, "fanout"));
    assert!(rt; is_named(&ExchangeKind::Headers, "headers"));
    assert!(rt; is_named(&ExchangeKind::Topic, "topic"));
    assert!(rt; is_named(&ExchangeKind::default(), "direct"));
}

#[test]
fn another_kind_has_its_own_name(rt: HostRuntime) -> Result<(), Fail> {
    let custom = ExchangeKind::Custom(short(rt.alloc(), "x-delayed")?);
    assert!(rt; is_named(&custom, "x-delayed"));
    Ok(())
}

#[test]
fn a_queue_tells_its_counts(rt: HostRuntime) -> Result<(), Fail> {
    let queue = Queue::new(short(rt.alloc(), "q")?, 5, 1);
    assert_eq!(rt; queue.name().as_str(), "q");
    assert_eq!(rt; queue.message_count(), 5);
    assert_eq!(rt; queue.consumer_count(), 1);
    Ok(())
}

fn both(alloc: Global) -> Result<ReturnedList, Fail> {
    let mut messages = Vec::new(alloc);
    messages.push(returned(alloc, unused(0, 0, 0), 312, "a")?)?;
    messages.push(returned(alloc, unused(0, 0, 0), 313, "b")?)?;
    Ok(ReturnedList::new(messages))
}

fn code_at(list: &ReturnedList, place: usize) -> u16 {
    match list.at(place) {
        Some(message) => message.reply_code,
        None => 0,
    }
}

#[test]
fn a_list_has_its_messages_in_order(rt: HostRuntime) -> Result<(), Fail> {
    let list = both(rt.alloc())?;
    assert_eq!(rt; list.len(), 2);
    assert_eq!(rt; code_at(&list, 0), 312);
    assert_eq!(rt; code_at(&list, 1), 313);
    assert_eq!(rt; code_at(&list, 2), 0);
    Ok(())
}

fn three(alloc: Global) -> Result<FieldArray, Fail> {
    let mut array = FieldArray::new(alloc);
    array.push(alloc, AMQPValue::LongInt(-1))?;
    array.push(alloc, AMQPValue::Void)?;
    array.push(alloc, AMQPValue::Boolean(true))?;
    Ok(array)
}

#[test]
fn an_array_has_its_values_in_order(rt: HostRuntime) -> Result<(), Fail> {
    let array = three(rt.alloc())?;
    assert_eq!(rt; array.len(), 3);
    assert!(rt; matches!(array.at(0), Some(AMQPValue::LongInt(-1))));
    assert!(rt; matches!(array.at(1), Some(AMQPValue::Void)));
    assert!(rt; matches!(array.at(2), Some(AMQPValue::Boolean(true))));
    assert!(rt; array.at(3).is_none());
    Ok(())
}
