//! A message of no session, as tests of a consumer make one: its acker answers yes to the first call, and no from then on.

use lapin_session::{Acked, AckerCalls, Session};
use lapin_types::{
    Acker, BasicAckOptions, BasicNackOptions, Delivery, Error, Payload, ShortString,
};
use std::alloc::Global;
use std::test::Fail;

fn mock(alloc: Global, delivery_tag: u64) -> Result<Delivery, Fail> {
    let exchange = ShortString::empty(alloc)?;
    let routing_key = ShortString::literal(alloc, "mail")?;
    let payload = Payload::new(alloc, b"hi")?;
    Ok(Delivery::mock(delivery_tag, exchange, routing_key, false, payload))
}

fn told(acked: Acked) -> &'static str {
    match acked {
        Acked::Ticket(_) => "ticket",
        Acked::Yes => "yes",
        Acked::No => "no",
    }
}

fn ack(acker: &mut Acker, alloc: Global, session: &mut Session) -> Result<&'static str, Error> {
    let acked = acker.ack(alloc, session, BasicAckOptions::default())?;
    Ok(told(acked))
}

fn nack(acker: &mut Acker, alloc: Global, session: &mut Session) -> Result<&'static str, Error> {
    let acked = acker.nack(alloc, session, BasicNackOptions::default())?;
    Ok(told(acked))
}

#[test]
fn a_mock_is_acknowledged_once(rt: HostRuntime) -> Result<(), Fail> {
    let alloc = rt.alloc();
    let mut session = Session::new(alloc, 4096)?;
    let mut delivery = mock(alloc, 1)?;
    assert_eq!(rt; delivery.delivery_tag, 1);
    assert!(rt; delivery.acker.usable(&session));
    assert_eq!(rt; ack(&mut delivery.acker, alloc, &mut session)?, "yes");
    assert_eq!(rt; nack(&mut delivery.acker, alloc, &mut session)?, "no");
    assert!(rt; !delivery.acker.usable(&session));
    assert!(rt; !delivery.acker.poisoned(&session));
    Ok(())
}
