//! The open requests of one channel, oldest first.
//!
//! A broker answers a channel's requests in their order, so the one that a reply takes mostly is the oldest of all. The table of all
//! channels, and which request a reply takes where, live in `replies`, which alone calls this file.

ghost use Rattle.std.specs.Prelude.{◌≡◌, ◌+◌, ◌<◌, ◌≤◌, ◌++◌, ◌∷◌, [], IsOk, OnOk, IfNone, drop, slice_get};
ghost use Rattle.std.specs.List.{position};
ghost use Rattle.std.specs.Option.{option_copied};
ghost use Rattle.lapin_rules.specs.Words.{without_first};
ghost use Rattle.lapin_rules.specs.Requests.{is_kind, first_request};

use lapin_types::{NoMemory, ReplyKind, Request};
use std::alloc::Global;
use std::collections::VecDeque;
use std::marker::Model;

/// The open requests of a channel. A contract sees their list, and for how many more there is room.
#[derive(Drop)]
pub(crate) struct Requests {
    requests: VecDeque<Request>,
}

impl Model for Requests {
    ghost use Rattle.std.specs.Prelude.{◌-◌};
    ghost use Rattle.std.specs.VecDeque.{deque_len, deque_capacity};
    ghost use Rattle.lapin_outbox.specs.Open.{OpenOnChannel};
    ghost use Rattle.lapin_outbox.specs.Codes.{open_code};

    ghost Value = { OpenOnChannel };

    ghost coded = { open_code };

    ghost view = { λ r. record { open_requests = r.requests.items; spare = deque_capacity r.requests - deque_len r.requests } };
}

impl Requests {
    /// No request. It takes no memory yet.
    pub(crate) fn new(alloc: Global) -> Requests
        ensures { result.open_requests ≡ [] }
    {
        Requests {
            requests: VecDeque::new(alloc),
        }
    }

    /// Makes room for the next request. The requests stay. The first room is for one alone, since most channels never have two.
    pub(crate) fn reserve(&mut self) -> Result<(), NoMemory>
        ensures room { OnOk result (0 < self.new.spare) }
        ensures same { self.new.open_requests ≡ self.old.open_requests }
        ensures kept { self.old.spare ≤ self.new.spare }
        ensures succeeds { 0 < self.old.spare → IsOk result }
    {
        if self.requests.capacity() == 0 {
            self.requests.reserve_exact(1)?;
        }
        self.requests.reserve(1)?;
        Ok(())
    }

    /// Adds a request behind the others, in the room that was made.
    pub(crate) fn push_reserved(&mut self, request: Request)
        requires { 0 < self.old.spare }
        ensures others { self.new.open_requests ≡ self.old.open_requests ++ request ∷ [] }
        ensures used { self.old.spare ≤ self.new.spare + 1 }
    {
        self.requests.push_back_reserved(request);
    }

    /// The oldest request of a kind.
    pub(crate) fn first(&self, kind: ReplyKind) -> Option<&Request>
        ensures { option_copied result ≡ first_request kind self.now.open_requests }
    {
        let place = self.place_of(kind)?;
        self.requests.get(place)
    }

    /// Takes out the oldest request of a kind. The others keep their order.
    pub(crate) fn take_first(&mut self, kind: ReplyKind) -> Option<Request>
        ensures taken { result ≡ first_request kind self.old.open_requests }
        ensures others { self.new.open_requests ≡ without_first (is_kind kind) self.old.open_requests }
        ensures none { IfNone result (self.new.open_requests ≡ self.old.open_requests) }
        ensures kept { self.old.spare ≤ self.new.spare }
    {
        let place = self.place_of(kind)?;
        self.requests.remove(place)
    }

    /// Takes out the oldest request.
    pub(crate) fn take_oldest(&mut self) -> Option<Request>
        ensures taken { result ≡ slice_get self.old.open_requests 0 }
        ensures others { self.new.open_requests ≡ drop 1 self.old.open_requests }
        ensures none { IfNone result (self.new.open_requests ≡ self.old.open_requests) }
        ensures kept { self.old.spare ≤ self.new.spare }
    {
        self.requests.pop_front()
    }

    // The place of the oldest request of a kind.
    fn place_of(&self, kind: ReplyKind) -> Option<usize>
        ensures { result ≡ position (is_kind kind) self.now.open_requests }
    {
        self.requests
            .iter()
            .position(|request| request.reply.kind() == kind)
    }
}
