//! Replies of calls by their tickets, and what a consumer was handed.
ghost use Rattle.std.specs.Prelude.{◌≡◌, [], false, Some};
ghost use Rattle.lapin_client.specs.Answers.{Shown, answer_of};
ghost use Rattle.lapin_client.specs.Parcels.{is_whole};
ghost use Rattle.lapin_types.specs.declared.answer.Answer.TheVariants as answer;
ghost use Rattle.lapin_client.specs.Clients.{IsSound, SameBytes};
ghost use Rattle.lapin_client.specs.Counts.{PollCounts, ShowCounts};
ghost use Rattle.lapin_client.specs.Replies.{Delivered, IsAnswered, Replied, blank as blank_lem, fields_of, flow_number as flow_number_lem, numbered as numbered_lem};

use crate::answers::Handed;
use crate::client::Client;
use crate::message::Message;
use crate::parcel::{Parcel, put_delivery};
use crate::status::Status;
use lapin_types::{Answer, BasicGetMessage, Delivery, Poll, Queue};
use std::alloc::Global;

/// The fields of a reply; those that its kind has not are 0.
#[derive(Clone, Copy, Debug, PartialEq, Eq)]
#[repr(C)]
pub struct Fields {
    /// The number of a channel, a confirm or a consumer, a count, or whether the broker goes on.
    pub number: u64,
    /// What it says: the place that it has in `Answer`, from 0, where a get without a message stands behind one with it.
    pub kind: u32,
    /// How many messages a queue has, or still has.
    pub messages: u32,
    /// How many consumers a queue has.
    pub consumers: u32,
    /// A message.
    pub message: Message,
}

impl Client {
    /// The reply of a call, given once. The name of a queue, the tag of a consumer, and a message's exchange, routing key, list of properties
    /// and body, one behind the other, are the answer.
    ///
    /// # Errors
    /// `Pending` where there is none yet. `Refused` where the call failed, or its reply was given, will not be asked for any more or was never
    /// owed. `NoMemory` of a message alone whose properties were given by values: it is lost, and the client ends. `Ended`.
    pub fn reply(&mut self, alloc: Global, ticket: u64) -> Result<Fields, Status>
        requires { IsSound self.old }
        ensures sound { IsSound self.new }
        ensures told { Replied result ticket self.old self.new }
        ensures count { PollCounts result self.old self.new }
    {
        if self.left == 0 {
            return Err(Status::Ended);
        }
        self.left -= 1;
        match self.session.poll_ticket(ticket) {
            Ok(Poll::Pending) => Err(Status::Pending),
            Ok(Poll::Ready(Ok(answer))) => self.answered(alloc, answer),
            Ok(Poll::Ready(Err(error))) => {
                self.keep(error);
                Err(Status::Refused)
            }
            Err(error) => {
                self.keep(error);
                Err(Status::Refused)
            }
        }
    }

    // The fields of an answer.
    fn answered(&mut self, alloc: Global, answer: Answer) -> Result<Fields, Status>
        requires { IsSound self.old }
        ensures sound { IsSound self.new }
        ensures told { IsAnswered result answer self.old self.new }
        ensures count { ShowCounts result self.old self.new }
    {
        match answer {
            Answer::Done => Ok(self.plain(blank(0))),
            Answer::Channel(channel) => Ok(self.plain(numbered(1, channel as u64))),
            Answer::Confirm(number) => Ok(self.plain(numbered(2, number))),
            Answer::Consumer(number) => {
                self.handed = Handed::Consumer(number);
                Ok(numbered(3, number))
            }
            Answer::Got(Some(message)) => self.got(alloc, message),
            Answer::Got(None) => Ok(self.plain(blank(5))),
            Answer::Queue(queue) => {
                let fields = queue_fields(&queue);
                self.handed = Handed::Queue(queue);
                Ok(fields)
            }
            Answer::Count(count) => Ok(self.plain(numbered(7, count as u64))),
            Answer::Flow(active) => Ok(self.plain(numbered(8, flow_number(active)))),
            Answer::Yes => Ok(self.plain(blank(9))),
        }
    }

    // Fields without octets: there is no answer.
    fn plain(&mut self, fields: Fields) -> Fields
        requires { IsSound self.old }
        ensures sound { IsSound self.new }
        ensures value { result ≡ fields }
        ensures answer { answer_of self.new ≡ [] }
        ensures refused { self.new.refused ≡ self.old.refused }
        ensures session { self.new.session ≡ self.old.session }
        ensures count { self.new.left ≡ self.old.left }
        ensures same { SameBytes self.old self.new }
    {
        self.handed = Handed::Nothing;
        self.answer.clear();
        fields
    }

    // The message of a get.
    fn got(&mut self, alloc: Global, message: BasicGetMessage) -> Result<Fields, Status>
        requires { IsSound self.old }
        ensures sound { IsSound self.new }
        ensures told { IsAnswered result (answer.Got (Some message)) self.old self.new }
        ensures count { ShowCounts result self.old self.new }
    {
        let BasicGetMessage {
            delivery,
            message_count,
        } = message;
        match self.show(alloc, delivery) {
            Ok(message) => Ok(Fields {
                messages: message_count,
                message,
                ..blank(4)
            }),
            Err(status) => Err(status),
        }
    }

    /// What a consumer was handed next. Its exchange, its routing key, its list of properties and its body are the answer, one behind the
    /// other.
    ///
    /// # Errors
    /// `Pending` where there is nothing yet, `Gone` at the end of the consumer, `Refused` where an error ended its channel or there is no such
    /// consumer. `NoMemory` of a message alone whose properties were given by values: it is lost, and the client ends. `Ended`.
    pub fn delivery(&mut self, alloc: Global, consumer: u64) -> Result<Message, Status>
        requires { IsSound self.old }
        ensures sound { IsSound self.new }
        ensures told { Delivered result consumer self.old self.new }
        ensures count { PollCounts result self.old self.new }
    {
        if self.left == 0 {
            return Err(Status::Ended);
        }
        self.left -= 1;
        match self.session.poll_next(consumer) {
            Ok(Poll::Pending) => Err(Status::Pending),
            Ok(Poll::Ready(Ok(None))) => Err(Status::Gone),
            Ok(Poll::Ready(Ok(Some(delivery)))) => self.show(alloc, delivery),
            Ok(Poll::Ready(Err(error))) => {
                self.keep(error);
                Err(Status::Refused)
            }
            Err(error) => {
                self.keep(error);
                Err(Status::Refused)
            }
        }
    }

    // A message is the answer: from where it lies, or, where its properties were given by values, written.
    fn show(&mut self, alloc: Global, delivery: Delivery) -> Result<Message, Status>
        requires { IsSound self.old }
        ensures sound { IsSound self.new }
        ensures told { Shown result delivery self.old self.new }
        ensures count { ShowCounts result self.old self.new }
    {
        match Parcel::new(delivery) {
            Ok(parcel) => {
                let message = parcel.message();
                self.handed = Handed::Message(parcel);
                Ok(message)
            }
            Err(delivery) => self.write_out(alloc, delivery),
        }
    }

    // The octets of a message are the answer.
    fn write_out(&mut self, alloc: Global, delivery: Delivery) -> Result<Message, Status>
        requires sound { IsSound self.old }
        requires values { is_whole delivery ≡ false }
        ensures sound { IsSound self.new }
        ensures told { Shown result delivery self.old self.new }
        ensures count { ShowCounts result self.old self.new }
    {
        self.handed = Handed::Nothing;
        self.answer.clear();
        let shown = put_delivery(alloc, &mut self.answer, &delivery);
        drop(delivery);
        match shown {
            Some(message) => Ok(message),
            None => {
                self.left = 0;
                Err(Status::NoMemory)
            }
        }
    }
}

// A reply of a kind that has no fields.
fn blank(kind: u32) -> Fields
    ensures { result ≡ blank_lem kind }
{
    Fields {
        number: 0,
        kind,
        messages: 0,
        consumers: 0,
        message: Message {
            delivery_tag: 0,
            acker: 0,
            exchange: 0,
            routing_key: 0,
            properties: 0,
            body: 0,
            redelivered: false,
        },
    }
}

// One that has a number.
fn numbered(kind: u32, number: u64) -> Fields
    ensures { result ≡ numbered_lem kind number }
{
    Fields {
        number,
        ..blank(kind)
    }
}

// Whether the broker goes on, by number.
fn flow_number(active: bool) -> u64
    ensures { result ≡ flow_number_lem active }
{
    if active { 1 } else { 0 }
}

// That of a declared queue.
fn queue_fields(queue: &Queue) -> Fields
    ensures { result ≡ fields_of (answer.Queue queue.now) }
{
    Fields {
        messages: queue.message_count(),
        consumers: queue.consumer_count(),
        ..blank(6)
    }
}
