//! Ackers, verdicts and delegates: what may be used once, which call a verdict asks for, and whose delegate is whose.
use crate::script::{Part, Words, runs};
use crate::texts::{bit, channel, digits, number, refused, said, unread};
use lapin_acker::{
    BoxedDelegate, ConsumerDelegate, Delegates, FnDelegate, Handler, Switches, Verdict,
};
use lapin_types::{
    AckerCall, BasicAckOptions, BasicNackOptions, BasicRejectOptions, DeliveryResult, Error,
};
use std::alloc::Global;
use std::test::Fail;

impl Part for Switches {
    fn answer(&mut self, alloc: Global, call: &Words) -> Result<String, Fail> {
        match call.name {
            "add" => add(self, alloc, call),
            "reserve" => reserve(self, alloc),
            "end" => end(self, alloc, channel(call.first)?),
            "count" => digits(alloc, self.count()),
            _ => of_number(self, alloc, call.name, number(call.first)?),
        }
    }
}

fn add(switches: &mut Switches, alloc: Global, call: &Words) -> Result<String, Fail> {
    let channel = channel(call.first)?;
    let opening = number(call.second)?;
    match switches.add(alloc, channel, opening, number(call.third)?) {
        Ok(number) => digits(alloc, number),
        Err(error) => refused(alloc, error),
    }
}

fn reserve(switches: &mut Switches, alloc: Global) -> Result<String, Fail> {
    switches.reserve(alloc)?;
    said(alloc, "done")
}

fn end(switches: &mut Switches, alloc: Global, channel: u16) -> Result<String, Fail> {
    switches.end(channel);
    said(alloc, "done")
}

fn of_number(
    switches: &mut Switches,
    alloc: Global,
    name: &str,
    number: u64,
) -> Result<String, Fail> {
    match name {
        "spend" => tag(alloc, switches.spend(number)),
        "peek" => tag(alloc, switches.peek(number)),
        "usable" => bit(alloc, switches.usable(number)),
        "ended" => bit(alloc, switches.ended(number)),
        "void" => {
            switches.void(number);
            said(alloc, "done")
        }
        _ => unread(alloc),
    }
}

// A channel and a delivery tag.
fn tag(alloc: Global, given: Option<(u16, u64)>) -> Result<String, Fail> {
    match given {
        Some((channel, tag)) => Ok(format!(in alloc; "{channel} {tag}")?),
        None => said(alloc, "none"),
    }
}

// An acker is used once, not when it was voided, and not once the opening of its channel ended.
const SWITCHES: &str = "\
    peek 1 -> none
    usable 0 -> no
    ended 1 -> no
    add 1 1 5 -> 1
    reserve -> done
    add 1 1 6 -> 2
    add 2 2 5 -> 3
    add 1 1 7 -> 4
    count -> 4
    peek 1 -> 1 5
    peek 1 -> 1 5
    spend 1 -> 1 5
    spend 1 -> none
    usable 1 -> no
    ended 1 -> no
    usable 2 -> yes
    void 2 -> done
    peek 2 -> none
    spend 2 -> none
    ended 2 -> no
    void 9 -> done
    end 1 -> done
    ended 1 -> yes
    ended 2 -> yes
    ended 4 -> yes
    usable 4 -> no
    spend 4 -> none
    ended 3 -> no
    ended 5 -> no
    ended 0 -> no
    spend 3 -> 2 5
    add 1 3 1 -> 5
    usable 5 -> yes
    ended 4 -> yes
    spend 5 -> 1 1
    end 1 -> done
    ended 5 -> yes
    count -> 5";

#[test]
fn ackers_are_used_once(rt: HostRuntime) -> Result<(), Fail> {
    runs(&rt, rt.alloc(), Switches::new(rt.alloc())?, SWITCHES)
}

// The call of a verdict is of that delivery alone.
#[test]
fn a_verdict_asks_for_its_call(rt: HostRuntime) {
    let ack = BasicAckOptions { multiple: false };
    let nack = BasicNackOptions {
        multiple: false,
        requeue: true,
    };
    let reject = BasicRejectOptions { requeue: false };
    let given_back = Verdict::Nack { requeue: true };
    let refused = Verdict::Reject { requeue: false };
    assert!(rt; Verdict::Ack.call() == Some(AckerCall::Ack(ack)));
    assert!(rt; given_back.call() == Some(AckerCall::Nack(nack)));
    assert!(rt; refused.call() == Some(AckerCall::Reject(reject)));
    assert!(rt; Verdict::Nothing.call().is_none());
}

// A delegate that has one verdict on all that it is handed.
#[derive(Drop)]
struct Judge {
    verdict: Verdict,
}

impl ConsumerDelegate for Judge {
    ghost may = { λ _ _ _. Unit {0} };

    fn on_new_delivery(&self, _delivery: &DeliveryResult) -> Verdict {
        self.verdict
    }
}

fn appoint(delegates: &mut Delegates, alloc: Global, verdict: Verdict) -> Result<(), Fail> {
    let delegate: BoxedDelegate = Box::new(alloc, Judge { verdict })?;
    delegates.add(alloc, 1, delegate)?;
    Ok(())
}

// What the delegate of a consumer says of an end.
fn judged(delegates: &Delegates, consumer: u64) -> Option<Verdict> {
    match delegates.get(consumer) {
        Some(delegate) => Some(delegate.on_new_delivery(&Ok(None))),
        None => None,
    }
}

// A consumer has the delegate that was added last.
#[test]
fn a_consumer_has_its_delegate(rt: HostRuntime) -> Result<(), Fail> {
    let mut delegates = Delegates::new(rt.alloc());
    assert!(rt; judged(&delegates, 1).is_none());
    appoint(&mut delegates, rt.alloc(), Verdict::Ack)?;
    appoint(&mut delegates, rt.alloc(), Verdict::Nack { requeue: true })?;
    assert!(rt; judged(&delegates, 1) == Some(Verdict::Nack { requeue: true }));
    assert!(rt; judged(&delegates, 2).is_none());
    Ok(())
}

fn refuses(given: &DeliveryResult) -> Verdict {
    match given {
        Err(_) => Verdict::Reject { requeue: false },
        Ok(_) => Verdict::Nothing,
    }
}

// A function that answers for a delegate is asked each time.
#[test]
fn a_function_is_a_delegate(rt: HostRuntime) -> Result<(), Fail> {
    let handler: Handler = Box::new(rt.alloc(), |given: &DeliveryResult| refuses(given))?;
    let delegate = FnDelegate::new(handler);
    let error = Error::ConnectionLost;
    assert!(rt; delegate.on_new_delivery(&Err(error)) == Verdict::Reject { requeue: false });
    assert!(rt; delegate.on_new_delivery(&Ok(None)) == Verdict::Nothing);
    delegate.drop_prefetched_messages();
    Ok(())
}
