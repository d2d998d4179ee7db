//! A declared queue, as the broker names it. What a declare records stands in the crates above.

ghost use Rattle.std.specs.Prelude.{◌≡◌, IfOk};
ghost use Rattle.std.specs.Bool.{Decides};

use lapin_values::{NoMemory, ShortString};
use std::alloc::Global;

/// A declared queue with the counts of that moment (AMQP 0-9-1, `queue.declare-ok`).
#[derive(Debug)]
pub struct Queue {
    name: ShortString,
    message_count: u32,
    consumer_count: u32,
}

impl Drop for Queue {
    fn drop(self) {
        let Queue {
            name: _,
            message_count: _,
            consumer_count: _,
        } = self;
    }
}

impl Queue {
    /// A queue of this name, with so many ready messages and consumers.
    pub fn new(name: ShortString, message_count: u32, consumer_count: u32) -> Queue
        ensures { result ≡ record { name = name; message_count = message_count; consumer_count = consumer_count } }
    {
        Queue {
            name,
            message_count,
            consumer_count,
        }
    }

    /// The queue's name.
    pub fn name(&self) -> &ShortString
        ensures { result.now ≡ self.now.name }
    {
        &self.name
    }

    /// How many messages were ready.
    pub fn message_count(&self) -> u32
        ensures { result ≡ self.now.message_count }
    {
        self.message_count
    }

    /// How many consumers the queue had.
    pub fn consumer_count(&self) -> u32
        ensures { result ≡ self.now.consumer_count }
    {
        self.consumer_count
    }

    /// An equal queue, in memory of its own.
    pub fn try_clone(&self, alloc: Global) -> Result<Queue, NoMemory>
        ensures { IfOk result (λ copy. copy ≡ self.now) }
    {
        Ok(Queue {
            name: self.name.try_clone(alloc)?,
            message_count: self.message_count,
            consumer_count: self.consumer_count,
        })
    }

    /// Whether two queues are equal in every field.
    pub fn same(&self, other: &Queue) -> bool
        ensures { Decides result (self.now ≡ other.now) }
    {
        self.name == other.name
            && self.message_count == other.message_count
            && self.consumer_count == other.consumer_count
    }
}
