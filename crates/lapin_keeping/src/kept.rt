//! A message that is kept, and how far it came.

ghost use Rattle.std.specs.Prelude.{◌≡◌, Some};
ghost use Rattle.std.specs.Bool.{Decides};
ghost use Rattle.lapin_keeping.specs.Fates.{waits as waits_lem, tried as tried_lem, acked as acked_lem, of_outcome, of_error, of_blame, returned as returned_lem, published as published_lem, forgotten, begun_anew};
ghost use Rattle.lapin_keeping.specs.Returns.{may_come_back as may_come_back_lem, IsOf};

use crate::fate::{Fate, blame};
use crate::message::Placed;
use lapin_types::{Delivery, Error, Outcome};

/// A message that was handed over and isn't settled yet, or was settled in the present turn.
#[derive(Drop)]
pub struct Kept {
    /// Its number among all messages, from 1.
    pub number: u64,
    /// The message.
    pub message: Placed,
    /// What became of it in the present turn.
    pub fate: Option<Fate>,
    /// The confirm of its outstanding publish, if it has one.
    pub outstanding: Option<u64>,
    /// How often the broker may still fail it; 0 for ever.
    pub left: u32,
    /// Whether the broker failed its last publish, by a nack, a return, or a close where it was published alone: it then waits until it may be
    /// tried again.
    pub failed: bool,
    /// Whether it was outstanding as the broker closed: then it is published alone.
    pub suspect: bool,
    /// Whether its outstanding publish came back.
    pub came_back: bool,
}

impl Kept {
    /// Whether it is to be published: it isn't settled and has no outstanding publish.
    pub fn waits(&self) -> bool
        ensures { result ≡ waits_lem self.now }
    {
        self.fate.is_none() && self.outstanding.is_none()
    }

    /// Its publish is outstanding from now on.
    pub fn published(&mut self, confirm: u64)
        ensures { self.new ≡ published_lem confirm self.old }
    {
        self.outstanding = Some(confirm);
        self.came_back = false;
        self.failed = false;
    }

    /// Nothing is known of its publish, if it has one: it waits.
    pub fn forget(&mut self)
        ensures { self.new ≡ forgotten self.old }
    {
        self.outstanding = None;
    }

    /// Its session has ended, and nothing more will be known of its publish: it waits, also where an ack was polled and not settled yet, since
    /// a message may have come back that was not polled. Any other fate stays.
    pub fn begin_anew(&mut self)
        ensures { self.new ≡ begun_anew self.old }
    {
        self.outstanding = None;
        match self.fate {
            Some(Fate::Stored) => self.fate = None,
            Some(_) => {}
            None => {}
        }
    }

    /// Takes the outcome of its publish.
    pub fn met(&mut self, outcome: Outcome)
        ensures { self.new ≡ of_outcome outcome self.old }
    {
        match outcome {
            Outcome::Ack => self.acked(),
            Outcome::Nack => self.tried(Fate::Refused),
            Outcome::NotRequested => self.forget(),
            Outcome::Failed(error) => self.broken(&error),
        }
    }

    /// Whether its publish may come back: it is outstanding, or was acked in the present turn, and did not come back yet.
    pub fn may_come_back(&self) -> bool
        ensures { result ≡ may_come_back_lem self.now }
    {
        (self.outstanding.is_some() || matches!(self.fate, Some(Fate::Stored))) && !self.came_back
    }

    /// Whether a message that came back may be its publish: that may come back, and is like it.
    pub fn is_of(&self, delivery: &Delivery, exact: bool) -> bool
        ensures { Decides result (IsOf exact delivery.now self.now) }
    {
        self.may_come_back() && self.message.is_like(delivery, exact)
    }

    /// Its publish came back: an ack of it, before or behind, doesn't store it.
    pub fn returned(&mut self)
        ensures { self.new ≡ returned_lem self.old }
    {
        match self.fate {
            Some(Fate::Stored) => {
                self.fate = None;
                self.tried(Fate::Returned);
            }
            Some(_) => {}
            None => self.came_back = true,
        }
    }

    /// Its opening ended before there was an outcome. Where the broker closed it, this message may be why: it is published alone from then on,
    /// and where it was alone already, it is.
    pub fn broken(&mut self, error: &Error)
        ensures { self.new ≡ of_error error.now self.old }
    {
        match blame(error) {
            Some(code) => self.closed_by(code),
            None => self.forget(),
        }
    }

    // The broker closed while its publish was outstanding.
    fn closed_by(&mut self, code: u16)
        ensures { self.new ≡ of_blame (Some code) self.old }
    {
        if self.suspect {
            self.tried(Fate::Closed(code));
        } else {
            self.outstanding = None;
            self.suspect = true;
        }
    }

    // A broker answered for its publish.
    fn acked(&mut self)
        ensures { self.new ≡ acked_lem self.old }
    {
        if self.came_back {
            self.tried(Fate::Returned);
        } else {
            self.outstanding = None;
            self.fate = Some(Fate::Stored);
        }
    }

    // The broker failed it. Where that was once too often, this is its fate.
    fn tried(&mut self, fate: Fate)
        ensures { self.new ≡ tried_lem fate self.old }
    {
        self.outstanding = None;
        self.failed = true;
        if self.left == 1 {
            self.fate = Some(fate);
        }
        self.left = self.left.saturating_sub(1);
    }
}
