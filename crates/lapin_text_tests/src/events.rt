//! Events: which one a line says, where several have a number alone, and the calls of ackers and of consumers.
use lapin_text::read_event;
use lapin_types::{
    AckerCall, BasicAckOptions, BasicCancelOptions, BasicGetOptions, BasicNackOptions,
    BasicProperties, BasicPublishOptions, BasicRejectOptions, Call, Event, NoMemory, Payload,
    ShortString,
};
use std::alloc::Global;
use std::test::Fail;

#[test]
fn a_line_says_its_event(rt: HostRuntime) -> Result<(), Fail> {
    let alloc = rt.alloc();
    assert!(rt; says(alloc, "ticket 1", Event::PollTicket(1))?);
    assert!(rt; says(alloc, "confirm 1", Event::PollConfirm(1))?);
    assert!(rt; says(alloc, "consumer 1", Event::PollConsumer(1))?);
    assert!(rt; says(alloc, "wait 1", Event::PollWait(1))?);
    assert!(rt; says(alloc, "aside-ticket 1", Event::AsideTicket(1))?);
    assert!(rt; says(alloc, "aside-confirm 1", Event::AsideConfirm(1))?);
    assert!(rt; says(alloc, "delegate 1", Event::Delegate(1))?);
    assert!(rt; says(alloc, "drop 1", Event::DropConsumer(1))?);
    assert!(rt; says(alloc, "job", Event::NextJob)?);
    assert!(rt; says(alloc, "state 1", Event::State(1))?);
    Ok(())
}

// Marks that differ show which of them is which.
#[test]
fn a_line_says_its_call_of_an_acker(rt: HostRuntime) -> Result<(), Fail> {
    let alloc = rt.alloc();
    let ack = AckerCall::Ack(BasicAckOptions { multiple: true });
    let nack = AckerCall::Nack(BasicNackOptions {
        multiple: true,
        requeue: false,
    });
    let reject = AckerCall::Reject(BasicRejectOptions { requeue: true });
    assert!(rt; says(alloc, "acker 1 ack 1", Event::Acker(1, ack))?);
    assert!(rt; says(alloc, "acker 1 nack 1 0", Event::Acker(1, nack))?);
    assert!(rt; says(alloc, "acker 1 reject 1", Event::Acker(1, reject))?);
    Ok(())
}

#[test]
fn a_line_says_its_get(rt: HostRuntime) -> Result<(), Fail> {
    let alloc = rt.alloc();
    let queue = ShortString::literal(alloc, "q")?;
    let options = BasicGetOptions { no_ack: true };
    let get = Event::Call(1, Call::BasicGet { queue, options });
    assert!(rt; says(alloc, "call 1 basic.get x71 1", get)?);
    Ok(())
}

#[test]
fn a_line_says_its_cancel(rt: HostRuntime) -> Result<(), Fail> {
    let alloc = rt.alloc();
    let consumer_tag = ShortString::literal(alloc, "t")?;
    let options = BasicCancelOptions { nowait: true };
    let cancel = Event::Call(
        1,
        Call::BasicCancel {
            consumer_tag,
            options,
        },
    );
    assert!(rt; says(alloc, "call 1 basic.cancel x74 1", cancel)?);
    Ok(())
}

#[test]
fn a_line_says_its_limit(rt: HostRuntime) -> Result<(), Fail> {
    let alloc = rt.alloc();
    let limit = Event::Call(2, Call::ConfirmLimit { limit: 70000 });
    assert!(rt; says(alloc, "call 2 confirm.limit 70000", limit)?);
    Ok(())
}

// Texts and marks that differ show which of them is which. A publish that can't be refused is another call.
#[test]
fn a_line_says_its_publish_that_may_be_refused(rt: HostRuntime) -> Result<(), Fail> {
    let alloc = rt.alloc();
    let publish = publish_that_may_be_refused(alloc)?;
    assert!(rt;
        says(
            alloc,
            "call 1 basic.try-publish x65 x6b 1 0 x6869 []",
            publish
        )?
    );
    let publish = publish_that_may_be_refused(alloc)?;
    assert!(rt; !says(alloc, "call 1 basic.publish x65 x6b 1 0 x6869 []", publish)?);
    Ok(())
}

fn publish_that_may_be_refused(alloc: Global) -> Result<Event, Fail> {
    let call = Call::TryBasicPublish {
        exchange: ShortString::literal(alloc, "e")?,
        routing_key: ShortString::literal(alloc, "k")?,
        options: BasicPublishOptions {
            mandatory: true,
            immediate: false,
        },
        payload: Payload::new(alloc, b"hi")?,
        properties: BasicProperties::default(),
    };
    Ok(Event::Call(1, call))
}

// Whether a line says this event.
fn says(alloc: Global, line: &str, event: Event) -> Result<bool, NoMemory> {
    match read_event(alloc, line.as_bytes()) {
        Ok(Some(read)) => Ok(read.same(&event)),
        Ok(None) => Ok(false),
        Err(error) => Err(error),
    }
}
