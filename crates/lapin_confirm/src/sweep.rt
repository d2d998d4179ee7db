//! A drain's walk over the confirms that stand aside: those that are resolved by now leave, with their messages.
//!
//! All room is made before the walk, so that it is done whole.

ghost use Rattle.std.specs.Prelude.{◌≡◌, ℕ, ◌+◌, ◌<◌, ◌≤◌, ◌++◌, [], List, length, IfOk};
ghost use Rattle.std.specs.Vec.{vec_len, vec_capacity};
ghost use Rattle.std.specs.VecDeque.{deque_len, deque_capacity};
ghost use Rattle.lapin_tables.specs.Numbered.{under};
ghost use Rattle.lapin_confirm.specs.PublishStates.{is_resolved};
ghost use Rattle.lapin_confirm.specs.declared.confirm_mode.ConfirmMode.{ConfirmMode as AConfirmMode};
ghost use Rattle.lapin_confirm.specs.Drain.{remaining, less_one};
ghost use Rattle.lapin_confirm.specs.Ties.{AllTied};
ghost use Rattle.lapin_confirm.specs.Sweeps.{IsReady, SweptOne, SweptAll};

use crate::cell::Cell;
use crate::lists::taken_from;
use crate::origin::Origin;
use lapin_tables::Packed;
use lapin_types::BasicReturnMessage;
use std::alloc::{AllocError, Global};
use std::collections::VecDeque;

/// What a walk has come to.
#[derive(Drop)]
pub struct Sweep {
    /// The confirms that go on to stand aside.
    pub left: VecDeque<u64>,
    /// Those that are over, of which nothing is kept.
    pub over: VecDeque<u64>,
    /// The messages that are given.
    pub given: Vec<BasicReturnMessage>,
}

impl Sweep {
    /// Nothing is done yet, and there is room for so many messages and so many confirms.
    pub fn with_room(alloc: Global, messages: usize, confirms: usize) -> Result<Sweep, AllocError>
        ensures { IfOk result (IsReady messages confirms) }
    {
        let mut left = VecDeque::new(alloc);
        left.reserve(confirms)?;
        let mut over = VecDeque::new(alloc);
        over.reserve(confirms)?;
        let mut given = Vec::new(alloc);
        given.reserve(messages)?;
        Ok(Sweep { left, over, given })
    }
}

/// Whether the outcome of a confirm is there.
pub fn is_over(cells: &Packed<Cell>, number: u64) -> bool
    ensures { result ≡ is_resolved (under number cells.now.slots) }
{
    matches!(cells.get(number), Some(Cell::Resolved(_)))
}

/// One confirm that stands aside.
pub fn sweep_one(
    number: u64,
    cells: &Packed<Cell>,
    attached: &mut VecDeque<(u64, BasicReturnMessage)>,
    sweep: &mut Sweep,
)
    requires left { deque_len sweep.old.left < deque_capacity sweep.old.left }
    requires over { deque_len sweep.old.over < deque_capacity sweep.old.over }
    requires given { vec_len sweep.old.given < vec_capacity sweep.old.given }
    ensures swept { SweptOne number cells.now.slots attached.old.items attached.new.items sweep.old sweep.new }
    ensures left { (deque_len sweep.new.left ≤ deque_len sweep.old.left + 1) × (deque_capacity sweep.new.left ≡ deque_capacity sweep.old.left) }
    ensures over { (deque_len sweep.new.over ≤ deque_len sweep.old.over + 1) × (deque_capacity sweep.new.over ≡ deque_capacity sweep.old.over) }
    ensures given { (vec_len sweep.new.given ≤ vec_len sweep.old.given + 1) × (vec_capacity sweep.new.given ≡ vec_capacity sweep.old.given) }
    ensures room { (deque_len attached.new ≤ deque_len attached.old) × (deque_capacity attached.new ≡ deque_capacity attached.old) }
{
    if !is_over(cells, number) {
        sweep.left.push_back_reserved(number);
        return;
    }
    sweep.over.push_back_reserved(number);
    if let Some(message) = taken_from(attached, number) {
        sweep.given.push_reserved(message);
    }
}

/// All confirms that stand aside, in the order of setting aside.
pub fn sweep_all(
    aside: &mut VecDeque<u64>,
    cells: &Packed<Cell>,
    attached: &mut VecDeque<(u64, BasicReturnMessage)>,
    sweep: &mut Sweep,
)
    requires left { deque_len sweep.old.left + deque_len aside.old ≤ deque_capacity sweep.old.left }
    requires over { deque_len sweep.old.over + deque_len aside.old ≤ deque_capacity sweep.old.over }
    requires given { vec_len sweep.old.given + deque_len aside.old ≤ vec_capacity sweep.old.given }
    ensures swept { SweptAll aside.old.items cells.now.slots attached.old.items attached.new.items sweep.old sweep.new }
    ensures room { (deque_len attached.new ≤ deque_len attached.old) × (deque_capacity attached.new ≡ deque_capacity attached.old) }
{
    while let Some(number) = aside.pop_front() {
        sweep_one(number, cells, attached, sweep);
    }
}

/// All messages of a list, in order.
pub fn pour(from: &mut VecDeque<BasicReturnMessage>, into: &mut Vec<BasicReturnMessage>)
    requires { vec_len into.old + deque_len from.old ≤ vec_capacity into.old }
    ensures into { into.new.items ≡ into.old.items ++ from.old.items }
    ensures from { from.new.items ≡ [] }
    ensures len { vec_len into.new ≡ vec_len into.old + deque_len from.old }
    ensures capacity { vec_capacity into.new ≡ vec_capacity into.old }
    ensures room { (deque_len from.new ≡ 0) × (deque_capacity from.new ≡ deque_capacity from.old) }
{
    while let Some(message) = from.pop_front() {
        into.push_reserved(message);
    }
}

/// Of a confirm nothing is kept any more, if it is resolved.
pub fn leave_one(cells: &mut Packed<Cell>, origins: &mut Packed<Origin>, number: u64)
    ensures remains { remaining cells.new.slots origins.new.slots ≡ less_one number (remaining cells.old.slots origins.old.slots) }
    ensures tied { (es : List (ℕ × AConfirmMode)) → AllTied es cells.old.slots → AllTied es cells.new.slots }
    ensures counts { (length cells.new.slots ≡ length cells.old.slots) × (length origins.new.slots ≡ length origins.old.slots) }
    ensures spare { (cells.old.spare ≤ cells.new.spare) × (origins.old.spare ≤ origins.new.spare) }
{
    if !is_over(cells, number) {
        return;
    }
    let _ = cells.take(number);
    let _ = origins.take(number);
}
