//! The open requests of each channel, oldest first.
//!
//! A call that awaits a reply opens a request of the reply's kind on its channel, and a reply takes the oldest request of
//! its kind there, whether or not the request's frame has left (AMQP 0-9-1: a channel answers in the order of the requests).
//! What a reply then does to tickets and channels is the session's.

ghost use Rattle.std.specs.Prelude.{◌≡◌, ◌+◌, ◌<◌, ◌≤◌, [], None, IsOk, IfOk, IfNone, OnOk, OnErr, OnSome, slice_get};
ghost use Rattle.std.specs.Option.{option_copied};
ghost use Rattle.lapin_tables.specs.ByChannel.{at_channel};
ghost use Rattle.lapin_rules.specs.Requests.{first_request, with_request, without_request};
ghost use Rattle.lapin_outbox.specs.Open.{requests_at, without_oldest, spare_on, KeepsRoom, KeepsOtherRoom};

use crate::requests::Requests;
use lapin_tables::ByChannel;
use lapin_types::{NoMemory, ReplyKind, Request};
use std::alloc::Global;
use std::collections::HashMap;
use std::marker::Model;

/// The open requests of all channels. A contract sees the list of the channels that ever had one, each with its requests,
/// and by channel for how many more there is room.
pub struct Replies {
    channels: ByChannel<Requests>,
    // By channel that has no entry yet: an empty queue, with room for its first request.
    aside: HashMap<u16, Requests>,
}

impl Drop for Replies {
    fn drop(self) {
        let Replies {
            channels: _,
            aside: _,
        } = self;
    }
}

impl Model for Replies {
    ghost use Rattle.std.specs.Prelude.{nat_eq};
    ghost use Rattle.std.specs.HashMap.{get, hash_map_len};
    ghost use Rattle.lapin_outbox.specs.Open.{OpenRequests, seen, AreAside};
    ghost use Rattle.lapin_outbox.specs.Codes.{requests_code};

    ghost Value = { OpenRequests };

    ghost coded = { requests_code };

    ghost view = { λ r. seen r.channels.entries r.aside.entries };

    ghost invariant = { λ r. AreAside (get nat_eq r.aside) (hash_map_len r.aside) r.channels };
}

impl Replies {
    /// No request is open on any channel. It takes no memory yet, so it does not fail.
    pub fn new(alloc: Global) -> Result<Replies, NoMemory>
        ensures made { IfOk result (λ replies. replies.what ≡ []) }
        ensures succeeds { IsOk result }
    {
        Ok(Replies {
            channels: ByChannel::new(alloc),
            aside: HashMap::new(alloc),
        })
    }

    /// Opens a request on a channel, behind its other requests. Where there is no memory the open requests stay.
    pub fn expect(&mut self, alloc: Global, channel: u16, request: Request) -> Result<(), NoMemory>
        ensures ok { OnOk result (self.new.what ≡ with_request channel request self.old.what) }
        ensures err { OnErr result (self.new.what ≡ self.old.what) }

        // In the room that `reserve` made for the channel it does not fail, and it uses up no more than one place of the
        // channel, and none of another.
        ensures room { 0 < spare_on channel self.old → IsOk result }
        ensures used { spare_on channel self.old ≤ spare_on channel self.new + 1 }
        ensures others { KeepsOtherRoom channel self.old self.new }
    {
        if self.reserve(alloc, channel).is_err() {
            drop(request);
            return Err(NoMemory);
        }
        self.open(channel, request);
        Ok(())
    }

    /// Makes room for the next `expect` on a channel. The open requests stay, and so does the room that was made for other
    /// channels. The room lasts until an `expect` on the channel uses it.
    pub fn reserve(&mut self, alloc: Global, channel: u16) -> Result<(), NoMemory>
        ensures room { OnOk result (0 < spare_on channel self.new) }
        ensures same { self.new.what ≡ self.old.what }
        ensures kept { KeepsRoom self.old self.new }
        ensures succeeds { 0 < spare_on channel self.old → IsOk result }
    {
        match self.channels.get_mut(channel) {
            Some(requests) => requests.reserve(),
            None => self.reserve_first(alloc, channel),
        }
    }

    /// Takes the oldest request of a kind on a channel; None exactly where there is none, and nothing changes then. The
    /// others keep their order.
    pub fn take_first(&mut self, channel: u16, kind: ReplyKind) -> Option<Request>
        ensures taken { result ≡ first_request kind (requests_at channel self.old.what) }
        ensures ok { OnSome result (self.new.what ≡ without_request channel kind self.old.what) }
        ensures none { IfNone result (self.new.what ≡ self.old.what) }
        ensures kept { KeepsRoom self.old self.new }
    {
        self.channels.get_mut(channel)?.take_first(kind)
    }

    /// The request that `take_first` would take.
    pub fn first(&self, channel: u16, kind: ReplyKind) -> Option<&Request>
        ensures { option_copied result ≡ first_request kind (requests_at channel self.now.what) }
    {
        self.channels.get(channel)?.first(kind)
    }

    /// Takes the oldest request of a channel, of whatever kind; None exactly where there is none, and nothing changes then.
    pub fn drain(&mut self, channel: u16) -> Option<Request>
        ensures taken { result ≡ slice_get (requests_at channel self.old.what) 0 }
        ensures ok { OnSome result (self.new.what ≡ without_oldest channel self.old.what) }
        ensures none { IfNone result (self.new.what ≡ self.old.what) }
        ensures kept { KeepsRoom self.old self.new }
    {
        self.channels.get_mut(channel)?.take_oldest()
    }

    // Makes room for the first request of a channel: a queue is set aside, and so is a place in the table, beside those of the
    // other channels whose first request is to come.
    fn reserve_first(&mut self, alloc: Global, channel: u16) -> Result<(), NoMemory>
        requires { at_channel channel self.old.what ≡ None }
        ensures room { OnOk result (0 < spare_on channel self.new) }
        ensures same { self.new.what ≡ self.old.what }
        ensures kept { KeepsRoom self.old self.new }
        ensures succeeds { 0 < spare_on channel self.old → IsOk result }
    {
        if self.aside.contains_key(&channel) {
            return Ok(());
        }
        let mut requests = Requests::new(alloc);
        requests.reserve()?;
        self.channels.reserve_beside(channel, self.aside.len())?;
        self.aside.reserve(1)?;
        let _ = self.aside.insert(channel, requests);
        Ok(())
    }

    // Opens a request in the room that was made for its channel.
    fn open(&mut self, channel: u16, request: Request)
        requires { 0 < spare_on channel self.old }
        ensures what { self.new.what ≡ with_request channel request self.old.what }
        ensures used { spare_on channel self.old ≤ spare_on channel self.new + 1 }
        ensures others { KeepsOtherRoom channel self.old self.new }
    {
        match self.channels.get_mut(channel) {
            Some(requests) => requests.push_reserved(request),
            None => self.open_first(channel, request),
        }
    }

    // Opens the first request of a channel in the room that was made.
    fn open_first(&mut self, channel: u16, request: Request)
        requires absent { at_channel channel self.old.what ≡ None }
        requires room { 0 < spare_on channel self.old }
        ensures what { self.new.what ≡ with_request channel request self.old.what }
        ensures used { spare_on channel self.old ≤ spare_on channel self.new + 1 }
        ensures others { KeepsOtherRoom channel self.old self.new }
    {
        let mut requests = self.aside.remove(&channel).unwrap();
        requests.push_reserved(request);
        self.channels.insert_reserved(channel, requests);
    }
}
