//! What a turn may do, and how much room it has left.
ghost use Rattle.std.specs.Prelude.{◌≡◌, ◌<◌, false};
ghost use Rattle.lapin_publisher.specs.Publishes.{room_taken};

use lapin_keeping::Kept;

/// What a turn may do.
#[derive(Clone, Copy, Debug, PartialEq, Eq)]
pub struct Turn {
    /// The channel that messages are published on. Nothing else is done on it.
    pub channel: u16,
    /// How many publishes may be outstanding.
    pub window: u32,
    /// Whether messages that the broker failed are tried again.
    pub retry: bool,
}

/// How many more publishes may be outstanding, and whether any is.
#[derive(Clone, Copy)]
pub(crate) struct Room {
    pub left: u32,
    pub taken: bool,
}

impl Room {
    /// The room of a turn in which no publish is outstanding yet.
    pub fn of(turn: Turn) -> Room
        ensures { result ≡ record { left = turn.window; taken = false } }
    {
        Room {
            left: turn.window,
            taken: false,
        }
    }

    /// A message is outstanding: it takes a place, and one that has to be alone all of them.
    pub fn take(&mut self, kept: &Kept)
        requires { 0 < self.old.left }
        ensures { self.new ≡ room_taken kept.now self.old }
    {
        self.taken = true;
        self.left = if kept.suspect { 0 } else { self.left - 1 };
    }
}
