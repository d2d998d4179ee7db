//! Which cells and origins have marks, so that they stand in blocks of bits once they are old.
//!
//! A cell has one where its outcome is there and is no error, an origin where its channel is that of its block. So of a publish whose
//! outcome nobody asks for some bits stay, and the channel once for 64 of them.

ghost use Rattle.lapin_confirm.specs.Marks.{cell_told, cell_mark, origin_told, origin_mark};

use crate::cell::Cell;
use crate::origin::Origin;
use lapin_tables::Marked;
use lapin_types::Outcome;

impl Marked for Cell {
    ghost told_by = { cell_told };

    ghost mark_of = { cell_mark };

    fn alike(self) -> u16 {
        0
    }

    fn mark(self, alike: u16) -> u8 {
        match self {
            Cell::Resolved(Outcome::Ack) => 1,
            Cell::Resolved(Outcome::Nack) => 2,
            Cell::Resolved(Outcome::NotRequested) => 3,
            _ => 0,
        }
    }

    fn told(alike: u16, mark: u8) -> Option<Self> {
        if mark == 1 {
            return Some(Cell::Resolved(Outcome::Ack));
        }
        if mark == 2 {
            return Some(Cell::Resolved(Outcome::Nack));
        }
        if mark == 3 {
            return Some(Cell::Resolved(Outcome::NotRequested));
        }
        None
    }
}

impl Marked for Origin {
    ghost told_by = { origin_told };

    ghost mark_of = { origin_mark };

    fn alike(self) -> u16 {
        self.channel
    }

    fn mark(self, alike: u16) -> u8 {
        if self.channel != alike {
            return 0;
        }
        if self.aside { 2 } else { 1 }
    }

    fn told(alike: u16, mark: u8) -> Option<Self> {
        if mark == 1 {
            return Some(Origin {
                channel: alike,
                aside: false,
            });
        }
        if mark == 2 {
            return Some(Origin {
                channel: alike,
                aside: true,
            });
        }
        None
    }
}
