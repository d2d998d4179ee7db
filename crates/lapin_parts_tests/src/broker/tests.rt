//! The scripts: every frame that breaks a broker, and what the readers tell on the way through whole conversations.

use crate::broker::script::first_failure;
use lapin_broker::Broker;
use lapin_types::NoMemory;
use std::alloc::Global;

// So large that a body has at most 4 bytes.
const FRAME_MAX: u32 = 12;

// What was read and sent before a frame, by the name that a row has for it.
fn begun(name: &str) -> Option<&'static str> {
    match name {
        "new" => Some(""),
        "asked" => Some(ASKED),
        "open" => Some(OPEN),
        "reading" => Some(READING),
        "left" => Some(LEFT),
        "leaving" => Some(LEAVING),
        "stopped" => Some(STOPPED),
        "closed" => Some(CLOSED),
        "crossed" => Some(CROSSED),
        _ => None,
    }
}

const ASKED: &str = "read method 1 channel.open\n";

const OPEN: &str = "\
    read method 1 channel.open
    send method 1 channel.open-ok";

const READING: &str = "\
    read method 1 channel.open
    send method 1 channel.open-ok
    read method 1 basic.publish x x71 0 0";

const LEFT: &str = "\
    read method 1 channel.open
    send method 1 channel.open-ok
    read method 1 basic.publish x x71 0 0
    read header 1 60 6 []";

const LEAVING: &str = "\
    read method 1 channel.open
    send method 1 channel.open-ok
    read method 1 channel.close 200 x 0 0";

const STOPPED: &str = "\
    read method 1 channel.open
    send method 1 channel.close 404 x 0 0
    read method 1 channel.close-ok";

const CLOSED: &str = "read method 0 connection.close 200 x 0 0\n";

const CROSSED: &str = "\
    send method 0 connection.close 320 x 0 0
    read method 0 connection.close 200 x 0 0
    read method 0 connection.close-ok
    state leaving";

// What was read and sent before, and a frame that breaks the broker then.
const BREAKING: &str = "\
# connection.close while the connection is Leaving
closed | read method 0 connection.close 200 x 0 0
crossed | read method 0 connection.close 200 x 0 0
# connection.close-ok for no close of the broker
new | read method 0 connection.close-ok
closed | read method 0 connection.close-ok
crossed | read method 0 connection.close-ok
# any other frame while the connection is Leaving
closed | read method 1 channel.open
crossed | read body 1 x61
# within a content: no header of class 60, or not on its channel
reading | read header 1 50 6 []
reading | read header 2 60 6 []
reading | read body 1 x61
reading | read method 1 channel.close 200 x 0 0
reading | read method 2 channel.open
# within a content: no body of 1 byte to the greatest, or more than is left
left | read body 1 x
left | read body 1 x6162636465
left | read body 2 x61
left | read header 1 60 6 []
left | read method 1 basic.publish x x71 0 0
# a channel that is Free, and channel 0
new | read method 1 queue.declare x71 0 0 0 0 0 {}
new | read method 1 channel.close-ok
new | read header 1 60 0 []
new | read method 0 channel.open
new | read method 0 tx.select
# a channel that is Asked
asked | read method 1 channel.open
asked | read method 1 channel.close 200 x 0 0
# a channel that is Leaving
leaving | read method 1 basic.ack 1 0
leaving | read method 1 channel.close-ok
# any other frame on a channel that is Open
open | read method 1 channel.open
open | read method 1 channel.close-ok
open | read method 1 channel.open-ok
open | read method 1 basic.deliver x74 1 0 x x71
open | read method 1 connection.close 200 x 0 0
open | read header 1 60 0 []
open | read body 1 x61
# a channel that was Stopping is Free once its close was answered
stopped | read method 1 channel.close-ok";

#[test]
fn broken_table(rt: HostRuntime) -> Result<(), NoMemory> {
    for row in BREAKING.lines() {
        if !row.starts_with('#') {
            assert!(rt; is_broken(rt.alloc(), row)?, "at {row}");
        }
    }
    Ok(())
}

// Whether a new broker that a row begins with is broken by its frame.
fn is_broken(alloc: Global, row: &str) -> Result<bool, NoMemory> {
    let Some((name, frame)) = row.split_once(" | ") else {
        return Ok(false);
    };
    let Some(begun) = begun(name) else {
        return Ok(false);
    };
    let mut broker = Broker::new(alloc, FRAME_MAX)?;
    let breaks = breaks(alloc, &mut broker, begun, frame);
    drop(broker);
    breaks
}

// Whether a broker is broken by a frame and not by what came before it, and a loss changes nothing then.
fn breaks(alloc: Global, broker: &mut Broker, begun: &str, frame: &str) -> Result<bool, NoMemory> {
    let begins = first_failure(alloc, broker, begun)?.is_none() && !broker.broken();
    let breaks = first_failure(alloc, broker, frame)?.is_none() && broker.broken();
    let stays = first_failure(alloc, broker, "lose\nstate broken")?.is_none();
    Ok(begins && breaks && stays)
}

// Publishes are numbered from the first select on, and settled singly and up to a number.
const CONFIRMS: &str = "\
    channel 1 free
    read method 1 channel.open
    channel 1 asked
    never method 1 tx.select-ok
    send method 1 channel.open-ok
    channel 1 open
    read method 1 basic.publish x x71 0 0
    reading 1
    read header 1 60 0 []
    idle
    numbered 1 0
    never method 1 basic.ack 0 1
    read method 1 confirm.select 0
    read method 1 confirm.select 1
    waiting 1 1
    read method 1 basic.publish x x71 0 0
    read header 1 60 6 []
    read body 1 x61626364
    numbered 1 0
    read body 1 x6566
    numbered 1 1
    read method 1 basic.publish x x71 0 0
    read header 1 60 0 []
    read method 1 basic.publish x x71 0 0
    read header 1 60 0 []
    read method 1 basic.publish x x71 0 0
    read header 1 60 0 []
    numbered 1 4
    send method 1 basic.nack 3 0 0
    never method 1 basic.ack 3 0
    never method 1 basic.ack 5 0
    never method 1 basic.ack 5 1
    never method 1 basic.ack 0 1
    settled 1 1 0
    send method 1 basic.ack 2 1
    settled 1 1 1
    settled 1 2 1
    settled 1 3 1
    settled 1 4 0
    settled 1 5 0
    settled 1 0 0
    send method 1 basic.ack 2 1
    plain method 1 confirm.select-ok
    waiting 1 0
    plain method 1 basic.ack 4 0
    silent";

// Requests are answered in order, and a content is delivered to a tag as long as it may be.
const CONSUMERS: &str = "\
    read method 1 channel.open
    plain method 1 channel.open-ok
    read method 1 basic.consume x71 x74 0 0 0 0 {}
    read method 1 basic.consume x71 x 0 0 0 0 {}
    read method 1 basic.consume x71 x75 0 0 0 1 {}
    read method 1 basic.get x71 0
    waiting 1 3
    delivers 1 u 1
    delivers 1 t 0
    never method 1 basic.get-empty
    never method 1 basic.consume-ok x75
    never method 1 basic.deliver x74 1 0 x x71
    send method 1 basic.consume-ok x74
    delivers 1 t 1
    plain method 1 basic.consume-ok x616d712e67656e
    delivers 1 amq.gen 1
    send method 1 basic.get-ok 9 0 x x71 4
    waiting 1 0
    sending 1 1
    silent
    never body 1 x61
    never header 1 50 1 []
    send header 1 60 1 []
    never body 1 x
    never body 1 x6162
    never method 1 basic.deliver x74 1 0 x x71
    send body 1 x61
    sending 1 0
    send method 1 basic.deliver x74 1 0 x x71
    send header 1 60 0 []
    sending 1 0
    send method 1 basic.cancel x74 0
    delivers 1 t 0
    never method 1 basic.cancel x74 0
    read method 1 basic.cancel-ok x74
    read method 1 basic.cancel x75 0
    never method 1 basic.cancel-ok x74
    plain method 1 basic.cancel-ok x75
    delivers 1 u 0
    read method 1 queue.declare x 0 0 0 0 0 {}
    plain method 1 queue.declare-ok x616d712e67656e 0 0
    read method 1 channel.flow 0
    read method 1 channel.close 200 x 0 0
    channel 1 leaving
    never method 1 channel.close-ok
    never method 1 channel.close 200 x 0 0
    plain method 1 channel.flow-ok 0
    plain method 1 channel.close-ok
    channel 1 free
    delivers 1 amq.gen 0";

// Closes of both sides cross, of a channel and of the connection.
const CLOSES: &str = "\
    read method 1 channel.open
    send method 1 channel.open-ok
    read method 1 tx.select
    read method 1 basic.publish x x71 0 0
    send method 1 channel.close 404 x 0 0
    channel 1 stopping
    idle
    waiting 1 0
    owes 1 0
    never method 1 channel.close-ok
    read header 1 60 6 []
    read method 1 channel.close 200 x 0 0
    owes 1 1
    read method 1 channel.close-ok
    channel 1 stopping
    plain method 1 channel.close-ok
    channel 1 free
    read method 2 channel.open
    send method 2 channel.open-ok
    send method 2 basic.return 312 x x x71
    send method 0 connection.close 320 x 0 0
    state stopped
    owes 0 0
    never header 2 60 0 []
    silent
    read method 7 tx.select
    read method 0 connection.close 200 x 0 0
    owes 0 1
    state stopped
    read method 0 connection.close-ok
    state leaving
    never method 0 connection.close 320 x 0 0
    plain method 0 connection.close-ok
    state done
    read method 0 connection.close 200 x 0 0
    silent
    lose
    state done";

// Three publishes, each driven to its ack by the plain broker alone, on the lowest channel first.
const PLAIN: &str = "\
    read method 2 channel.open
    read method 1 channel.open
    plain method 1 channel.open-ok
    plain method 2 channel.open-ok
    read method 1 confirm.select 0
    plain method 1 confirm.select-ok
    read method 1 basic.publish x x71 0 0
    silent
    read header 1 60 3 []
    silent
    read body 1 x616263
    read method 1 basic.publish x x71 0 0
    read header 1 60 0 []
    plain method 1 basic.ack 1 0
    read method 1 basic.publish x x71 0 0
    plain method 1 basic.ack 2 0
    read header 1 60 1 []
    read body 1 x61
    plain method 1 basic.ack 3 0
    silent
    numbered 1 3
    settled 1 1 1
    settled 1 2 1
    settled 1 3 1";

#[test]
fn readers_tell_the_state(rt: HostRuntime) -> Result<(), NoMemory> {
    let alloc = rt.alloc();
    for script in [CONFIRMS, CONSUMERS, CLOSES, PLAIN] {
        let mut broker = Broker::new(alloc, FRAME_MAX)?;
        let failure = first_failure(alloc, &mut broker, script)?;
        assert!(rt; failure.is_none(), "at {failure:?}");
    }
    Ok(())
}
