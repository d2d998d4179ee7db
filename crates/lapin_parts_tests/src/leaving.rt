//! What leaves, and a publish that waits: a copy of each is the same.
use crate::texts::short;
use lapin_types::{
    BasicProperties, BasicPublishOptions, ChannelMethod, Frame, Left, Method, NoMemory, Payload,
    Publish,
};
use std::alloc::Global;
use std::test::Fail;

fn publish(alloc: Global, confirm: u64) -> Result<Publish, Fail> {
    let exchange = short(alloc, "x")?;
    let routing_key = short(alloc, "q")?;
    let payload = Payload::new(alloc, b"hi")?;
    Ok(Publish {
        confirm,
        ticket: 7,
        channel: 3,
        exchange,
        routing_key,
        options: BasicPublishOptions::default(),
        payload,
        properties: BasicProperties::default(),
    })
}

fn is_copied(publish: &Publish, alloc: Global) -> Result<bool, NoMemory> {
    Ok(publish.try_clone(alloc)?.same(publish))
}

fn left(ticket: u64) -> Left {
    Left {
        frame: Frame::Method(3, Method::Channel(ChannelMethod::Open)),
        ticket: Some(ticket),
        publish: None,
        first: true,
        last: true,
        again: false,
    }
}

fn is_left_copied(left: &Left, alloc: Global) -> Result<bool, NoMemory> {
    Ok(left.try_clone(alloc)?.same(left))
}

#[test]
fn a_copy_of_a_publish_is_the_same(rt: HostRuntime) -> Result<(), Fail> {
    let publish = publish(rt.alloc(), 1)?;
    let copied = is_copied(&publish, rt.alloc());
    drop(publish);
    assert!(rt; copied?);
    Ok(())
}

#[test]
fn a_copy_of_what_left_is_the_same(rt: HostRuntime) -> Result<(), Fail> {
    let left = left(7);
    let copied = is_left_copied(&left, rt.alloc());
    drop(left);
    assert!(rt; copied?);
    Ok(())
}
