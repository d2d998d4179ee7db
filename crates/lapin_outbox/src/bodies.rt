//! A payload that leaves body by body.
//!
//! Each body is cut as it leaves, so that a payload is held once. What stands before and between the bodies is not known
//! here: `begun` calls this file.

ghost use Rattle.std.specs.Prelude.{◌≡◌, ◌<◌, IfOk, OnOk, OnErr, slice_get, drop};
ghost use Rattle.lapin_rules.specs.Frames.{cut, is_empty};

use lapin_types::{NoMemory, Payload};
use std::alloc::Global;
use std::marker::Model;

/// The bodies of a payload that have not left, each of at most `room` bytes. A contract sees their list.
#[derive(Drop)]
pub(crate) struct Bodies {
    // The most bytes of a body.
    room: usize,
    // The whole payload, until its last body leaves.
    payload: Option<Payload>,
    // How many bytes of it have left.
    sent: usize,
}

impl Model for Bodies {
    ghost use Rattle.std.specs.Prelude.{List, ℕ, ◌<◌};
    ghost use Rattle.lapin_outbox.specs.Bodies.{pieces_left, IsWithin};

    ghost Value = { List (List ℕ) };

    ghost view = { λ b. pieces_left b.room b.sent b.payload };

    ghost invariant = { λ b. (0 < b.room) × IsWithin b.sent b.payload };
}

impl Bodies {
    /// The bodies of a payload, none of which has left.
    pub(crate) fn new(payload: Payload, room: usize) -> Bodies
        requires { 0 < room }
        ensures { result ≡ cut room payload }
    {
        Bodies {
            room,
            payload: Some(payload),
            sent: 0,
        }
    }

    /// Whether all bodies have left.
    pub(crate) fn is_empty(&self) -> bool
        ensures { result ≡ is_empty self.now }
    {
        match &self.payload {
            Some(payload) => payload.as_bytes().len() <= self.sent,
            None => true,
        }
    }

    /// Takes out the first body; None where all have left. A payload that is one body is handed out as it stands, without a
    /// copy. Where there is no memory nothing is taken.
    pub(crate) fn next(&mut self, alloc: Global) -> Result<Option<Payload>, NoMemory>
        ensures told { IfOk result (λ body. body ≡ slice_get self.old 0) }
        ensures ok { OnOk result (self.new ≡ drop 1 self.old) }
        ensures err { OnErr result (self.new ≡ self.old) }
    {
        let Some(payload) = &self.payload else {
            return Ok(None);
        };
        let (_, unsent) = payload.as_bytes().split_at(self.sent);
        if unsent.is_empty() {
            return Ok(None);
        }
        if unsent.len() > self.room {
            let body = Payload::new(alloc, &unsent[..self.room])?;
            self.sent += self.room;
            return Ok(Some(body));
        }
        if self.sent == 0 {
            return Ok(self.payload.take());
        }
        let body = Payload::new(alloc, unsent)?;
        drop(self.payload.take());
        Ok(Some(body))
    }
}
