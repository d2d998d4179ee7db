//! What is submitted, and how far it came.

ghost use Rattle.std.specs.Prelude.{◌≡◌, IfOk, None};
ghost use Rattle.lapin_resend.specs.Messages.{publish_of, waits as waits_lem};
ghost use Rattle.lapin_resend.specs.Follows.{standing, polled_report};

use lapin_joint::Reported;
use lapin_types::{
    BasicProperties, BasicPublishOptions, Call, Confirmation, NoMemory, Payload, Record,
    ShortString,
};
use std::alloc::Global;

/// A message to be stored by a broker.
#[derive(Debug, Drop)]
pub struct Message {
    /// The exchange to publish to, empty for the default one.
    pub exchange: ShortString,
    /// The routing key.
    pub routing_key: ShortString,
    /// The bytes of the message.
    pub payload: Payload,
}

impl Message {
    /// The call that publishes it, with default options and no properties.
    pub(crate) fn publish(&self, alloc: Global) -> Result<Call, NoMemory>
        ensures { IfOk result (λ call. call ≡ publish_of self.now) }
    {
        Ok(Call::BasicPublish {
            exchange: self.exchange.try_clone(alloc)?,
            routing_key: self.routing_key.try_clone(alloc)?,
            options: BasicPublishOptions::default(),
            payload: self.payload.try_clone(alloc)?,
            properties: BasicProperties::default(),
        })
    }
}

/// A message that was submitted, and wasn't stored before the present step.
#[derive(Drop)]
pub(crate) struct Submitted {
    // Its place among all messages, from 0.
    pub(crate) place: usize,
    pub(crate) message: Message,
    // Whether an ack of it was polled in the present step.
    pub(crate) stored: bool,
    // The number of its outstanding publish, if it has one.
    pub(crate) outstanding: Option<u64>,
}

impl Submitted {
    /// Whether it is to be published: it isn't stored and has no outstanding publish.
    pub(crate) fn waits(&self) -> bool
        ensures { result ≡ waits_lem (standing self.now) }
    {
        !self.stored && self.outstanding.is_none()
    }

    /// Its outstanding publish is forgotten, if it has one.
    pub(crate) fn forget(&mut self)
        ensures { self.new ≡ record self.old { outstanding = None } }
    {
        self.outstanding = None;
    }

    /// Takes what a poll of its publish reported: an ack stores it, a nack or an error leaves it waiting.
    pub(crate) fn poll(&mut self, report: &Reported)
        ensures came { standing self.new ≡ polled_report report.now (standing self.old) }
        ensures place { self.new.place ≡ self.old.place }
    {
        if let Reported::Client(Record::Confirmed(outcome)) = report {
            self.outstanding = None;
            if let Ok(Confirmation::Ack(_)) = outcome {
                self.stored = true;
            }
        }
    }
}
