//! Messages that came back: with the outcome of their publish, or, where no outcome has them, from the wait for all of a channel.
ghost use Rattle.std.specs.Prelude.{◌≡◌, IfSome, option_map, slice_get};
ghost use Rattle.lapin_client.specs.Clients.{IsSound, SameBytes};
ghost use Rattle.lapin_client.specs.Counts.{PollCounts, UnclaimedCounts};
ghost use Rattle.lapin_client.specs.Returns.{ReturnTold, ConfirmShown, ConfirmTold, HandsBack, UnclaimedTold, came_back_in, returned_bytes, returned_of};

use crate::answers::Handed;
use crate::client::Client;
use crate::message::Message;
use crate::parcel::{put_bytes, put_delivery};
use crate::status::Status;
use lapin_types::{BasicReturnMessage, Confirmation, Error, Poll};
use std::alloc::Global;

/// A message that came back: why, its numbers, and how many octets of the answer the broker's text has, behind those of the message.
#[derive(Clone, Copy, Debug, PartialEq, Eq)]
#[repr(C)]
pub struct Returned {
    /// The reply code.
    pub code: u16,
    /// The octets of the reply text.
    pub text: usize,
    /// The message. It has no acker.
    pub message: Message,
}

impl Client {
    /// The outcome of a publish, given once: 1 an ack, 2 a nack, 3 none was asked for, 4 an error, which is kept. Where its message came back
    /// with it, `return_at` tells that.
    ///
    /// # Errors
    /// `Pending` where there is none yet. `Refused` where it was given, will not be asked for any more or was never owed. `Ended`.
    pub fn confirmed(&mut self, confirm: u64) -> Result<u64, Status>
        requires { IsSound self.old }
        ensures sound { IsSound self.new }
        ensures told { ConfirmTold result confirm self.old self.new }
        ensures count { PollCounts result self.old self.new }
    {
        if self.left == 0 {
            return Err(Status::Ended);
        }
        self.left -= 1;
        match self.session.poll_confirm(confirm) {
            Ok(Poll::Pending) => Err(Status::Pending),
            Ok(Poll::Ready(outcome)) => Ok(self.show_outcome(outcome)),
            Err(error) => {
                self.keep(error);
                Err(Status::Refused)
            }
        }
    }

    // The number of an outcome. What came back with it is held; an error is kept.
    fn show_outcome(&mut self, outcome: Result<Confirmation, Error>) -> u64
        requires { IsSound self.old }
        ensures sound { IsSound self.new }
        ensures told { ConfirmShown result outcome self.old self.new }
        ensures session { self.new.session ≡ self.old.session }
        ensures count { self.new.left ≡ self.old.left }
        ensures same { SameBytes self.old self.new }
    {
        match outcome {
            Ok(Confirmation::Ack(message)) => {
                self.hand_back(message);
                1
            }
            Ok(Confirmation::Nack(message)) => {
                self.hand_back(message);
                2
            }
            Ok(Confirmation::NotRequested) => {
                self.hand_back(None);
                3
            }
            Err(error) => {
                self.keep(error);
                4
            }
        }
    }

    // A message that came back is held, if there is one.
    fn hand_back(&mut self, message: Option<BasicReturnMessage>)
        requires { IsSound self.old }
        ensures sound { IsSound self.new }
        ensures told { HandsBack message self.new }
        ensures refused { self.new.refused ≡ self.old.refused }
        ensures session { self.new.session ≡ self.old.session }
        ensures count { self.new.left ≡ self.old.left }
        ensures same { SameBytes self.old self.new }
    {
        self.answer.clear();
        self.handed = match message {
            Some(message) => Handed::CameBack(message),
            None => Handed::Nothing,
        };
    }

    /// Once each publish of a channel has its outcome: how many messages came back that no outcome has, each told once. `return_at` tells them.
    ///
    /// # Errors
    /// `Pending` where a publish has no outcome yet. `NoMemory`, `Ended`: nothing was done.
    pub fn unclaimed(&mut self, alloc: Global, channel: u16) -> Result<u64, Status>
        requires { IsSound self.old }
        ensures sound { IsSound self.new }
        ensures told { UnclaimedTold result channel self.old self.new }
        ensures count { UnclaimedCounts result self.old self.new }
    {
        if self.left == 0 {
            return Err(Status::Ended);
        }
        match self.session.wait_for_confirms(alloc, channel) {
            Ok(Poll::Pending) => {
                self.left -= 1;
                Err(Status::Pending)
            }
            Ok(Poll::Ready(messages)) => {
                self.left -= 1;
                self.answer.clear();
                let count = messages.len() as u64;
                self.handed = Handed::AllCameBack(messages);
                Ok(count)
            }
            Err(_) => Err(Status::NoMemory),
        }
    }

    /// A message that came back, by its place from 0 among those that the last `confirmed` or `unclaimed` told. Its exchange, its routing key, its list
    /// of properties, its body and the broker's text are the answer, one behind the other. The messages stay until a call has another answer.
    ///
    /// # Errors
    /// `Pending` where there is none at the place. `NoMemory`: nothing was done.
    pub fn return_at(&mut self, alloc: Global, place: usize) -> Result<Returned, Status>
        requires { IsSound self.old }
        ensures sound { IsSound self.new }
        ensures told { ReturnTold result place self.old self.new }
    {
        let Some(message) = self.handed.returned(place) else {
            return Err(Status::Pending);
        };
        match written(alloc, message) {
            Some((returned, octets)) => {
                self.answer = octets;
                Ok(returned)
            }
            None => Err(Status::NoMemory),
        }
    }
}

impl Handed {
    // The message at a place among those that came back.
    fn returned(&self, place: usize) -> Option<&BasicReturnMessage>
        ensures { option_map (λ message. message.now) result ≡ slice_get (came_back_in self.now) place }
    {
        match self {
            Handed::CameBack(message) => { if place == 0 { Some(message) } else { None } }
            Handed::AllCameBack(messages) => messages.at(place),
            Handed::Nothing | Handed::Message(_) | Handed::Queue(_) | Handed::Consumer(_) => None,
        }
    }
}

// The numbers and the octets of a message that came back, in memory of their own.
fn written(alloc: Global, message: &BasicReturnMessage) -> Option<(Returned, Vec<u8>)>
    ensures { IfSome result (λ it. (it.0 ≡ returned_of message.now) × (it.1.items ≡ returned_bytes message.now)) }
{
    let mut octets = Vec::new(alloc);
    let numbers = put_delivery(alloc, &mut octets, &message.delivery)?;
    put_bytes(&mut octets, message.reply_text.as_str().as_bytes())?;
    Some((
        Returned {
            code: message.reply_code,
            text: message.reply_text.as_str().len(),
            message: numbers,
        },
        octets,
    ))
}
