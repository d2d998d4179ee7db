//! What is handed to consumers, by the session's own calls; and what the readers of a session's parts tell on the way.

use crate::driver::{failure_in, first_failure};
use lapin_session::Session;
use lapin_types::{ReplyKind, ShortString};
use std::test::Fail;

const CONSUMERS: &str = "# A delivery is an item, and its acker is used once.
= opened
call 1 basic.consume x71 x74 0 0 0 1 {} -> ticket 2
next 1 -> frame method 1 basic.consume x71 x74 0 0 0 1 {}
recv method 1 basic.deliver x74 1 0 x x71 -> received
recv header 1 60 5 [] -> received
consumer 1 -> pending
recv body 1 x68656c6c6f -> received
consumer 1 -> item 1 x x71 0 [] x68656c6c6f 1
consumer 1 -> pending
acker 1 ack 0 -> ticket 3
acker 1 nack 0 1 -> no
acker 2 ack 0 -> no
next 1 -> frame method 1 basic.ack 1 0
ticket 3 -> answer yes

# What is queued becomes jobs with a delegate, and so does what comes. A consumer with a delegate isn't canceled as it is let go.
= opened
call 1 basic.consume x71 x74 0 0 0 1 {} -> ticket 2
next 1 -> frame method 1 basic.consume x71 x74 0 0 0 1 {}
recv method 1 basic.deliver x74 1 0 x x71 -> received
recv header 1 60 0 [] -> received
job -> nojob
delegate 1 -> delegated
job -> job 1 item 1 x x71 0 [] x 1
recv method 1 basic.deliver x74 2 0 x x71 -> received
recv header 1 60 0 [] -> received
consumer 1 -> pending
job -> job 1 item 2 x x71 0 [] x 2
job -> nojob
drop 1 -> dropped 0
acker 2 reject 1 -> ticket 3
next 1 -> frame method 1 basic.reject 2 1

# One without a delegate is canceled as it is let go, once, and gets its end.
= opened
call 1 basic.consume x71 x74 0 0 0 1 {} -> ticket 2
next 1 -> frame method 1 basic.consume x71 x74 0 0 0 1 {}
drop 1 -> dropped 1
drop 1 -> dropped 0
next 1 -> frame method 1 basic.cancel x74 0
recv method 1 basic.cancel-ok x74 -> received
consumer 1 -> end
drop 1 -> dropped 0

# The acker of a closing channel is refused, and used up by it.
= opened
call 1 basic.consume x71 x74 0 0 0 1 {} -> ticket 2
next 1 -> frame method 1 basic.consume x71 x74 0 0 0 1 {}
recv method 1 basic.deliver x74 1 0 x x71 -> received
recv header 1 60 0 [] -> received
call 1 channel.close 200 x -> ticket 3
acker 1 nack 0 0 -> refused InvalidChannelState closing
acker 1 nack 0 0 -> no

# Numbers that were never given.
delegate 1 -> refused UnknownTicket
drop 1 -> refused UnknownTicket
consumer 1 -> refused UnknownTicket
acker 1 ack 0 -> no
job -> nojob";

#[test]
fn consumers_are_served_by_their_own_calls(rt: HostRuntime) -> Result<(), Fail> {
    let found = first_failure(rt.alloc(), CONSUMERS)?;
    assert_eq!(rt; found, None);
    Ok(())
}

const BEGUN: &str = "= opened
call 1 confirm.select 1 -> ticket 2
next 1 -> frame method 1 confirm.select 1
call 1 queue.declare x71 0 0 0 0 0 {} -> ticket 3
call 1 basic.consume x71 x74 0 0 0 1 {} -> ticket 4
call 1 basic.publish x x71 0 0 x68656c6c6f [] -> publish 5 1
next 1 -> frame method 1 queue.declare x71 0 0 0 0 0 {}
next 1 -> frame method 1 basic.consume x71 x74 0 0 0 1 {}
next 1 -> frame method 1 basic.publish x x71 0 0
recv method 1 basic.deliver x74 7 0 x x71 -> received
recv header 1 60 0 [] -> received
recv method 1 basic.deliver x74 8 0 x x71 -> received
recv header 1 60 5 [] -> received
recv body 1 x6865 -> received";

fn is_text(text: Option<&ShortString>, wanted: &str) -> bool {
    match text {
        Some(text) => text.as_str() == wanted,
        None => false,
    }
}

fn awaits(session: &Session, kind: ReplyKind) -> bool {
    session.replies().first(1, kind).is_some()
}

fn counts_are_left(session: &Session) -> bool {
    session.outbox().has_pending()
        && session.confirms().current(1) == 1
        && session.confirms().pending(1) == 1
}

fn contents_are_left(session: &Session) -> bool {
    session.contents().awaits(1) == Some(3)
        && session.contents().front(1).is_some()
        && session.contents().front(2).is_none()
}

fn a_consumer_is_left(session: &Session) -> bool {
    session.consumers().find(1, "t") == Some(1)
        && session.consumers().registered(1)
        && session.consumers().channel(1) == Some(1)
        && is_text(session.consumers().tag(1), "t")
        && is_text(session.consumers().queue(1), "q")
}

fn an_acker_is_left(session: &Session) -> bool {
    session.switches().usable(1)
        && !session.switches().ended(1)
        && session.switches().peek(1) == Some((1, 7))
        && !session.switches().usable(2)
}

fn nothing_is_left(session: &Session) -> bool {
    !session.outbox().has_pending()
        && session.contents().front(1).is_none()
        && !session.consumers().registered(1)
        && session.switches().ended(1)
        && !session.switches().usable(1)
}

// A publish has begun, a request waits, a delivery is queued, and of a second one three bytes are still to come.
#[test]
fn the_parts_hold_what_the_history_left(rt: HostRuntime) -> Result<(), Fail> {
    let alloc = rt.alloc();
    let mut session = Session::new(alloc, 4096)?;
    let found = failure_in(alloc, &mut session, BEGUN)?;
    assert_eq!(rt; found, None);
    assert!(rt; counts_are_left(&session));
    assert!(rt; awaits(&session, ReplyKind::QueueDeclareOk));
    assert!(rt; !awaits(&session, ReplyKind::BasicConsumeOk));
    assert!(rt; contents_are_left(&session));
    assert!(rt; a_consumer_is_left(&session));
    assert!(rt; an_acker_is_left(&session));
    session.lost(alloc)?;
    assert!(rt; !awaits(&session, ReplyKind::QueueDeclareOk));
    assert!(rt; nothing_is_left(&session));
    Ok(())
}
