//! A publish and its outcome, and the fate of a message.
ghost use Rattle.std.specs.Prelude.{◌≡◌, ◌<◌, ◌≤◌, length, MatchResult};
ghost use Rattle.lapin_client.specs.Calls.{Published, PublishedBy, OutcomeTold, Settled, Forgotten, IsListed, IsSendable, IsText, NoText, OutcomeShown, forget_fault as forget_fault_lem, fate_call};
ghost use Rattle.lapin_client.specs.Counts.{OneWhereDone, OutcomeCounts, PublishCounts, SettleCounts, Uses};
ghost use Rattle.lapin_client.specs.Clients.{IsSound, SameBytes, SameTold};
ghost use Rattle.lapin_machine.specs.World.{next};
ghost use Rattle.lapin_types.specs.declared.call.Call.TheVariants as call;
ghost use Rattle.lapin_types.specs.declared.event.Event.TheVariants as event;

use crate::client::Client;
use crate::receiving::refuses;
use crate::status::Status;
use lapin_frames::carrying;
use lapin_types::{
    AckerCall, BasicAckOptions, BasicNackOptions, BasicProperties, BasicPublishOptions,
    BasicRejectOptions, Error, Outcome, Payload, ShortString,
};
use std::alloc::Global;

/// The fate of a message.
#[derive(Clone, Copy, Debug, PartialEq, Eq)]
pub enum Fate {
    Ack,
    Nack,
    Reject,
}

// A short text of bytes.
fn short(alloc: Global, bytes: &[u8]) -> Result<ShortString, Status>
    ensures { MatchResult result (λ text. (text ≡ bytes.now) × IsText bytes.now) (λ s. NoText s bytes.now) }
{
    match std::str::from_utf8(bytes) {
        Ok(text) => short_of(alloc, text),
        Err(_) => Err(Status::NotInGrammar),
    }
}

// The same of a text.
fn short_of(alloc: Global, text: &str) -> Result<ShortString, Status>
    ensures { MatchResult result (λ short. (short ≡ text.now) × (length text.now ≤ 255)) (λ s. NoText s text.now) }
{
    if text.len() > 255 {
        return Err(Status::NotInGrammar);
    }
    match ShortString::literal(alloc, text) {
        Ok(short) => Ok(short),
        Err(_) => Err(Status::NoMemory),
    }
}

impl Client {
    /// Publishes. The properties are a list as a content header has it: its flags, two octets or more, and what they say is there. The number
    /// of the confirm.
    ///
    /// # Errors
    /// `NotInGrammar` exactly where the exchange or the routing key is no short text or the list has fewer than two octets, `TooLong` exactly
    /// where the header's frame would have more octets than a frame may have, `Refused`, `Ended`, `NoMemory`. Nothing was published.
    pub fn publish(
        &mut self,
        alloc: Global,
        channel: u16,
        exchange: &[u8],
        routing_key: &[u8],
        options: BasicPublishOptions,
        payload: &[u8],
        properties: &[u8],
    ) -> Result<u64, Status>
        requires { IsSound self.old }
        ensures sound { IsSound self.new }
        ensures told { Published result channel exchange.now routing_key.now options payload.now properties.now self.old self.new }
        ensures count { PublishCounts result self.old self.new }
    {
        if self.left < 2 {
            return Err(Status::Ended);
        }
        if properties.len() < 2 {
            return Err(Status::NotInGrammar);
        }
        if properties.len() > self.frame_max as usize - 20 {
            return Err(Status::TooLong);
        }
        match short(alloc, exchange) {
            Ok(exchange) => self.publish_to(
                alloc,
                channel,
                exchange,
                routing_key,
                options,
                payload,
                properties,
            ),
            Err(status) => Err(status),
        }
    }

    // Publishes to an exchange that was read.
    fn publish_to(
        &mut self,
        alloc: Global,
        channel: u16,
        exchange: ShortString,
        routing_key: &[u8],
        options: BasicPublishOptions,
        payload: &[u8],
        properties: &[u8],
    ) -> Result<u64, Status>
        requires sound { IsSound self.old }
        requires enough { 1 < self.old.left }
        requires text { IsText exchange }
        requires list { IsListed properties.now self.old.frame_max }
        ensures sound { IsSound self.new }
        ensures told { Published result channel exchange routing_key.now options payload.now properties.now self.old self.new }
        ensures count { PublishCounts result self.old self.new }
    {
        match short(alloc, routing_key) {
            Ok(routing_key) => self.publish_octets(
                alloc,
                channel,
                exchange,
                routing_key,
                options,
                payload,
                properties,
            ),
            Err(status) => {
                drop(exchange);
                Err(status)
            }
        }
    }

    // Publishes to an exchange and by a key that were read.
    fn publish_octets(
        &mut self,
        alloc: Global,
        channel: u16,
        exchange: ShortString,
        routing_key: ShortString,
        options: BasicPublishOptions,
        payload: &[u8],
        properties: &[u8],
    ) -> Result<u64, Status>
        requires sound { IsSound self.old }
        requires enough { 1 < self.old.left }
        requires fits { IsSendable exchange routing_key properties.now self.old.frame_max }
        ensures sound { IsSound self.new }
        ensures told { Published result channel exchange routing_key options payload.now properties.now self.old self.new }
        ensures count { PublishCounts result self.old self.new }
    {
        let Ok(properties) = carrying(alloc, properties) else {
            return Err(Status::NoMemory);
        };
        let Ok(payload) = Payload::new(alloc, payload) else {
            return Err(Status::NoMemory);
        };
        self.publish_values(
            alloc,
            channel,
            exchange,
            routing_key,
            options,
            payload,
            properties,
        )
    }

    // Publishes what was read.
    fn publish_values(
        &mut self,
        alloc: Global,
        channel: u16,
        exchange: ShortString,
        routing_key: ShortString,
        options: BasicPublishOptions,
        payload: Payload,
        properties: BasicProperties,
    ) -> Result<u64, Status>
        requires sound { IsSound self.old }
        requires enough { 1 < self.old.left }
        ensures sound { IsSound self.new }
        ensures told { PublishedBy result (event.Call channel (call.BasicPublish exchange routing_key options payload properties)) self.old self.new }
        ensures count { PublishCounts result self.old self.new }
    {
        match self.session.basic_publish(
            alloc,
            channel,
            exchange,
            routing_key,
            options,
            payload,
            properties,
        ) {
            Ok(published) => {
                self.left -= 1;
                self.aside_ticket(published.ticket.number);
                Ok(published.confirm.number)
            }
            Err(error) => Err(self.refuse(error)),
        }
    }

    // A ticket will not be asked for.
    fn aside_ticket(&mut self, number: u64)
        requires sound { IsSound self.old }
        requires some { 0 < self.old.left }
        ensures sound { IsSound self.new }
        ensures session { self.new.session ≡ next self.old.session (event.AsideTicket number) }
        ensures count { Uses 1 self.old self.new }
        ensures told { SameTold self.old self.new }
        ensures same { SameBytes self.old self.new }
    {
        self.left -= 1;
        let _ = self.session.set_aside_ticket(number);
    }

    /// The outcome of a publish that didn't come back: 1 an ack, 2 a nack, 3 none was asked for, 4 an error, which is kept; 0 where there is
    /// none yet, or where its message came back, so that `confirmed` tells more.
    pub fn outcome(&mut self, confirm: u64) -> u32
        requires { IsSound self.old }
        ensures sound { IsSound self.new }
        ensures told { OutcomeTold result confirm self.old self.new }
        ensures count { OutcomeCounts result self.old self.new }
    {
        if self.left == 0 {
            return 0;
        }
        match self.session.poll_bare_confirm(confirm) {
            Some(outcome) => {
                self.left -= 1;
                self.tell(outcome)
            }
            None => 0,
        }
    }

    // The number of an outcome. An error is kept.
    fn tell(&mut self, outcome: Outcome) -> u32
        requires { IsSound self.old }
        ensures sound { IsSound self.new }
        ensures told { OutcomeShown result outcome self.old self.new }
        ensures session { self.new.session ≡ self.old.session }
        ensures count { self.new.left ≡ self.old.left }
        ensures same { SameBytes self.old self.new }
    {
        match outcome {
            Outcome::Ack => 1,
            Outcome::Nack => 2,
            Outcome::NotRequested => 3,
            Outcome::Failed(error) => {
                self.keep(error);
                4
            }
        }
    }

    /// Settles a message by its acker. Done: the call is queued, and the acker used up. `Gone`: the acker isn't usable, and nothing is sent.
    /// `Refused`: its channel's state refuses the call, which uses the acker up. `NoMemory`, `Ended`: nothing was done.
    pub fn settle(
        &mut self,
        alloc: Global,
        acker: u64,
        fate: Fate,
        multiple: bool,
        requeue: bool,
    ) -> Status
        requires { IsSound self.old }
        ensures sound { IsSound self.new }
        ensures told { Settled result acker (fate_call fate multiple requeue) self.old self.new }
        ensures count { SettleCounts result self.old self.new }
    {
        if self.left < 2 {
            return Status::Ended;
        }
        self.settle_by(alloc, acker, call_of(fate, multiple, requeue))
    }

    // Settles a message by a call of its acker.
    fn settle_by(&mut self, alloc: Global, acker: u64, call: AckerCall) -> Status
        requires sound { IsSound self.old }
        requires enough { 1 < self.old.left }
        ensures sound { IsSound self.new }
        ensures told { Settled result acker call self.old self.new }
        ensures count { SettleCounts result self.old self.new }
    {
        match self.session.acker_call(alloc, acker, call) {
            Ok(Some(ticket)) => {
                self.left -= 1;
                self.aside_ticket(ticket.number);
                Status::Done
            }
            Ok(None) => Status::Gone,
            Err(error) => {
                if refuses(error) {
                    self.left -= 1;
                    self.keep(error);
                    return Status::Refused;
                }
                self.refuse(error)
            }
        }
    }

    /// The confirm will not be asked for any more. `Gone`: its outcome was given, or never will be. `NoMemory`, `Ended`: nothing was done.
    pub fn forget(&mut self, alloc: Global, confirm: u64) -> Status
        requires { IsSound self.old }
        ensures sound { IsSound self.new }
        ensures told { Forgotten result confirm self.old self.new }
        ensures count { OneWhereDone result self.old self.new }
    {
        if self.left == 0 {
            return Status::Ended;
        }
        match self.session.set_aside(alloc, confirm) {
            Ok(()) => {
                self.left -= 1;
                Status::Done
            }
            Err(error) => forget_fault(error),
        }
    }
}

// Why a confirm was not set aside.
fn forget_fault(error: Error) -> Status
    ensures { result ≡ forget_fault_lem error }
{
    match error {
        Error::NoMemory => Status::NoMemory,
        _ => Status::Gone,
    }
}

// The call of an acker by which a message has its fate.
fn call_of(fate: Fate, multiple: bool, requeue: bool) -> AckerCall
    ensures { result ≡ fate_call fate multiple requeue }
{
    match fate {
        Fate::Ack => AckerCall::Ack(BasicAckOptions { multiple }),
        Fate::Nack => AckerCall::Nack(BasicNackOptions { multiple, requeue }),
        Fate::Reject => AckerCall::Reject(BasicRejectOptions { requeue }),
    }
}
