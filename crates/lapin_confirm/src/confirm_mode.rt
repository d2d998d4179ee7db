//! The confirm mode of a channel: its tags, and which publishes wait for a settlement.
//!
//! The tags stand in a window from the least pending one to the last taken. Room for the tag of every publish that is
//! queued is made as the publish is added, so that a tag is taken without memory.

ghost use Rattle.std.specs.Prelude.{◌≡◌, ◌≤◌, false, IfOk, IsOk, if◌then◌else◌};
ghost use Rattle.lapin_confirm.specs.Ties.{IsFresh};

use lapin_tables::Numbered;
use std::alloc::{AllocError, Global};

/// What is kept of a channel's opening.
#[derive(Drop)]
pub struct ConfirmMode {
    /// Whether a `confirm.select` frame of the opening has left.
    pub selected: bool,
    /// Whether the live opening accepted a `confirm.select` call.
    pub asked: bool,
    /// The limit of pending tags of the live opening, 0 for none.
    pub limit: u64,
    /// By tag: the confirm number of the publish that took it, until it is settled.
    pub tags: Numbered<u64>,
    /// How many publishes of the channel were accepted and have not left.
    pub queued: usize,
    /// How many tags wait for a settlement.
    pub pending: usize,
}

impl ConfirmMode {
    /// The confirm mode of a new opening: not selected, no tag taken.
    pub fn new(alloc: Global) -> Self
        ensures { IsFresh result }
    {
        ConfirmMode {
            selected: false,
            asked: false,
            limit: 0,
            tags: Numbered::new(alloc),
            queued: 0,
            pending: 0,
        }
    }

    /// The same, with room for the tag of a publish where that is promised.
    pub fn with_room(alloc: Global, promised: bool) -> Result<Self, AllocError>
        ensures made { IfOk result (λ mode. IsFresh mode × ((if promised then 1 else 0) ≤ mode.tags.spare)) }
        ensures succeeds { promised ≡ false → IsOk result }
    {
        let mut mode = ConfirmMode::new(alloc);
        if promised {
            mode.tags.reserve(1)?;
        }
        Ok(mode)
    }
}
