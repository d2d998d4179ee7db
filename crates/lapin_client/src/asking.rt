//! Calls by the octets of their methods.
ghost use Rattle.std.specs.Prelude.{◌≡◌, ◌<◌, false};
ghost use Rattle.lapin_client.specs.Asking.{Called, CalledBy, CalledOf, Limited, Unasked, call_or_close as call_or_close_lem, channel_or_close as channel_or_close_lem, connection_or_close as connection_or_close_lem, where_bare as where_bare_lem};
ghost use Rattle.lapin_client.specs.Clients.{IsSound};
ghost use Rattle.lapin_client.specs.Counts.{CallCounts, OneWhereDone};
ghost use Rattle.lapin_rules.specs.Calls.{asked, publishes};
ghost use Rattle.lapin_types.specs.declared.event.Event.TheVariants as event;

use crate::client::Client;
use crate::status::Status;
use lapin_frames::{ReadFault, method_in};
use lapin_text::call_of;
use lapin_types::{Call, ChannelMethod, ConnectionMethod, Method};
use std::alloc::Global;

impl Client {
    /// Makes the call whose method octets are, from its class on. The number of its ticket.
    ///
    /// # Errors
    /// `TooLong` exactly where its frame would have more octets than a frame may have, `NotInGrammar` exactly where the octets are no method or
    /// one that is no call, `Refused`, `Ended`, `NoMemory`. Nothing was done.
    pub fn call(&mut self, alloc: Global, channel: u16, octets: &[u8]) -> Result<u64, Status>
        requires { IsSound self.old }
        ensures sound { IsSound self.new }
        ensures told { Called result channel octets.now self.old self.new }
        ensures count { CallCounts result self.old self.new }
    {
        if self.left == 0 {
            return Err(Status::Ended);
        }
        if octets.len() > self.frame_max as usize - 8 {
            return Err(Status::TooLong);
        }
        match method_in(alloc, octets) {
            Ok(method) => self.call_method(alloc, channel, method),
            Err(ReadFault::Malformed) => Err(Status::NotInGrammar),
            Err(ReadFault::NoMemory) => Err(Status::NoMemory),
        }
    }

    // Makes the call of a method.
    fn call_method(&mut self, alloc: Global, channel: u16, method: Method) -> Result<u64, Status>
        requires sound { IsSound self.old }
        requires some { 0 < self.old.left }
        ensures sound { IsSound self.new }
        ensures told { CalledOf result channel (call_or_close_lem method) self.old self.new }
        ensures count { CallCounts result self.old self.new }
    {
        match call_or_close(method) {
            Some(call) => self.call_by(alloc, channel, call),
            None => Err(Status::NotInGrammar),
        }
    }

    /// From now on no more publishes of a channel than that are outstanding; 0 stands for no limit. The number of its ticket.
    ///
    /// # Errors
    /// `Refused`, `Ended`, `NoMemory`. Nothing was done.
    pub fn limit(&mut self, alloc: Global, channel: u16, limit: u64) -> Result<u64, Status>
        requires { IsSound self.old }
        ensures sound { IsSound self.new }
        ensures told { Limited result channel limit self.old self.new }
        ensures count { CallCounts result self.old self.new }
    {
        if self.left == 0 {
            return Err(Status::Ended);
        }
        self.call_by(alloc, channel, Call::ConfirmLimit { limit })
    }

    // Makes a call that publishes nothing.
    fn call_by(&mut self, alloc: Global, channel: u16, call: Call) -> Result<u64, Status>
        requires sound { IsSound self.old }
        requires some { 0 < self.old.left }
        requires plain { publishes (asked call) ≡ false }
        ensures sound { IsSound self.new }
        ensures told { CalledBy result (event.Call channel call) self.old self.new }
        ensures count { CallCounts result self.old self.new }
    {
        match self.session.call(alloc, channel, call) {
            Ok(ticket) => {
                self.left -= 1;
                Ok(ticket.number)
            }
            Err(error) => Err(self.refuse(error)),
        }
    }

    /// The reply of a call will not be asked for any more. `Gone`: it was given, will not be asked for any more or was never owed, and nothing
    /// changes. `Ended`: nothing was done.
    pub fn forget_call(&mut self, ticket: u64) -> Status
        requires { IsSound self.old }
        ensures sound { IsSound self.new }
        ensures told { Unasked result ticket self.old self.new }
        ensures count { OneWhereDone result self.old self.new }
    {
        if self.left == 0 {
            return Status::Ended;
        }
        match self.session.set_aside_ticket(ticket) {
            Ok(()) => {
                self.left -= 1;
                Status::Done
            }
            Err(error) => {
                let _ = error;
                Status::Gone
            }
        }
    }
}

// The call of a method, if it is one.
fn call_or_close(method: Method) -> Option<Call>
    ensures { result ≡ call_or_close_lem method }
{
    match method {
        Method::Channel(method) => channel_or_close(method),
        Method::Connection(method) => connection_or_close(method),
        other => call_of(other),
    }
}

fn channel_or_close(method: ChannelMethod) -> Option<Call>
    ensures { result ≡ channel_or_close_lem method }
{
    match method {
        ChannelMethod::Close {
            reply_code,
            reply_text,
            class_id,
            method_id,
        } => where_bare(
            class_id,
            method_id,
            Call::ChannelClose {
                reply_code,
                reply_text,
            },
        ),
        other => call_of(Method::Channel(other)),
    }
}

fn connection_or_close(method: ConnectionMethod) -> Option<Call>
    ensures { result ≡ connection_or_close_lem method }
{
    match method {
        ConnectionMethod::Close {
            reply_code,
            reply_text,
            class_id,
            method_id,
        } => where_bare(
            class_id,
            method_id,
            Call::ConnectionClose {
                reply_code,
                reply_text,
            },
        ),
        _ => None,
    }
}

// A close, where it names no method that failed.
fn where_bare(class_id: u16, method_id: u16, close: Call) -> Option<Call>
    ensures { result ≡ where_bare_lem class_id method_id close }
{
    if class_id == 0 && method_id == 0 {
        Some(close)
    } else {
        drop(close);
        None
    }
}
