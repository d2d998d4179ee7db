//! Methods have the numbers of AMQP 0-9-1, and of RabbitMQ's extensions, and a copy of each frame is the same as it.
use crate::alike::{Alike, is_alike};
use lapin_text::read_frame;
use lapin_types::{Frame, NoMemory};
use std::alloc::Global;
use std::test::Fail;

// A method's class and its number in the class.
const METHODS: &str = "\
method 1 connection.close 200 x 0 0 -> 10.50
method 1 connection.close-ok -> 10.51
method 1 channel.open -> 20.10
method 1 channel.open-ok -> 20.11
method 1 channel.flow 0 -> 20.20
method 1 channel.flow-ok 0 -> 20.21
method 1 channel.close 200 x 0 0 -> 20.40
method 1 channel.close-ok -> 20.41
method 1 access.request x62 0 0 0 0 0 -> 30.10
method 1 access.request-ok -> 30.11
method 1 exchange.declare x62 x63 0 0 0 0 0 {} -> 40.10
method 1 exchange.declare-ok -> 40.11
method 1 exchange.delete x62 0 0 -> 40.20
method 1 exchange.delete-ok -> 40.21
method 1 exchange.bind x62 x63 x64 0 {} -> 40.30
method 1 exchange.bind-ok -> 40.31
method 1 exchange.unbind x62 x63 x64 0 {} -> 40.40
method 1 exchange.unbind-ok -> 40.51
method 1 queue.declare x62 0 0 0 0 0 {} -> 50.10
method 1 queue.declare-ok x62 0 0 -> 50.11
method 1 queue.bind x62 x63 x64 0 {} -> 50.20
method 1 queue.bind-ok -> 50.21
method 1 queue.purge x62 0 -> 50.30
method 1 queue.purge-ok 0 -> 50.31
method 1 queue.delete x62 0 0 0 -> 50.40
method 1 queue.delete-ok 0 -> 50.41
method 1 queue.unbind x62 x63 x64 {} -> 50.50
method 1 queue.unbind-ok -> 50.51
method 1 basic.qos 1 0 -> 60.10
method 1 basic.qos-ok -> 60.11
method 1 basic.consume x62 x63 0 0 0 0 {} -> 60.20
method 1 basic.consume-ok x63 -> 60.21
method 1 basic.cancel x63 0 -> 60.30
method 1 basic.cancel-ok x63 -> 60.31
method 1 basic.publish x62 x63 0 0 -> 60.40
method 1 basic.return 312 x62 x63 x64 -> 60.50
method 1 basic.deliver x62 1 0 x63 x64 -> 60.60
method 1 basic.get x62 0 -> 60.70
method 1 basic.get-ok 1 0 x62 x63 0 -> 60.71
method 1 basic.get-empty -> 60.72
method 1 basic.ack 1 0 -> 60.80
method 1 basic.reject 1 0 -> 60.90
method 1 basic.recover-async 0 -> 60.100
method 1 basic.recover 0 -> 60.110
method 1 basic.recover-ok -> 60.111
method 1 basic.nack 1 0 0 -> 60.120
method 1 confirm.select 0 -> 85.10
method 1 confirm.select-ok -> 85.11
method 1 tx.select -> 90.10
method 1 tx.select-ok -> 90.11
method 1 tx.commit -> 90.20
method 1 tx.commit-ok -> 90.21
method 1 tx.rollback -> 90.30
method 1 tx.rollback-ok -> 90.31
";

impl Alike for Frame {
    fn made(alloc: Global, words: &str) -> Result<Frame, Fail> {
        match read_frame(alloc, words.as_bytes()) {
            Ok(Some(frame)) => Ok(frame),
            Ok(None) => Err(Fail::from("no frame")),
            Err(error) => Err(Fail::from(error)),
        }
    }

    fn copied(&self, alloc: Global) -> Result<Frame, NoMemory> {
        self.try_clone(alloc)
    }

    fn is_same(&self, other: &Frame) -> bool {
        self.same(other)
    }
}

impl Numbered for Frame {
    fn numbers(&self) -> (u16, u16) {
        match self {
            Frame::Method(_, method) => (method.class_id(), method.method_id()),
            _ => (0, 0),
        }
    }
}

// What has a class and a number in it.
trait Numbered: Alike {
    fn numbers(&self) -> (u16, u16);
}

fn told<T: Numbered>(alloc: Global, words: &str) -> Result<String, Fail> {
    let made = T::made(alloc, words)?;
    let (class, method) = made.numbers();
    Ok(format!(in alloc; "{class}.{method}")?)
}

#[test]
fn methods_have_their_numbers(rt: HostRuntime) -> Result<(), Fail> {
    for line in METHODS.lines() {
        let (frame, wanted) = line.split_once(" -> ").ok_or("a number is missing")?;
        let told = told::<Frame>(rt.alloc(), frame)?;
        assert_eq!(rt; told.as_str(), wanted, "at {line}");
        assert!(rt; is_alike::<Frame>(rt.alloc(), frame, frame)?, "at {line}");
    }
    Ok(())
}
