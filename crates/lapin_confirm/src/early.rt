//! Early messages: those that came back on channels that had no opening yet (AMQP 0-9-1, `basic.return`). They are unconfirmed.
//!
//! A broker sends none, since nothing was published there. They stand in one queue for all channels: what is kept of a channel that
//! had an opening is elsewhere.

ghost use Rattle.std.specs.Prelude.{◌≡◌, ◌+◌, ◌<◌, ◌≤◌, ◌∷◌, ◌++◌, [], false, OnOk, OnErr, IsOk, IfOk};
ghost use Rattle.std.specs.Vec.{vec_len, vec_capacity};
ghost use Rattle.std.specs.VecDeque.{deque_len, deque_capacity};
ghost use Rattle.lapin_tables.specs.ByChannel.{at_channel, on_channel};
ghost use Rattle.lapin_confirm.specs.WithRoom.{spare_in};
ghost use Rattle.lapin_confirm.specs.ConfirmState.{messages_on, messages_off};
ghost use Rattle.lapin_confirm.specs.Ties.{promised, deque_spare};
ghost use Rattle.lapin_confirm.specs.Turns.{turned, turn};

use crate::lists::let_go;
use crate::rooms::{give_up, is_promised};
use lapin_tables::ByChannel;
use lapin_types::BasicReturnMessage;
use std::alloc::{AllocError, Global};
use std::collections::VecDeque;

/// A message of a channel joins, in the room that is promised to the channel or in room beside what is promised. Where there is no
/// memory it is gone, and nothing else changes.
pub fn join_early(
    channel: u16,
    rooms: &mut ByChannel<bool>,
    early: &mut VecDeque<(u16, BasicReturnMessage)>,
    message: BasicReturnMessage,
) -> Result<(), AllocError>
    requires { promised rooms.old.entries ≤ deque_spare early.old }
    ensures ok { OnOk result (early.new.items ≡ early.old.items ++ (channel, message) ∷ []) }
    ensures used { OnOk result (rooms.new.entries ≡ on_channel channel (λ _. false) rooms.old.entries) }
    ensures err { OnErr result (early.new.items ≡ early.old.items) }
    ensures unused { OnErr result (rooms.new.entries ≡ rooms.old.entries) }
    ensures room { promised rooms.new.entries ≤ deque_spare early.new }
    ensures succeeds { 0 < spare_in (at_channel channel rooms.old.entries) → IsOk result }
{
    if let Err(error) = have_room(channel, rooms, early) {
        let_go(message);
        return Err(error);
    }
    give_up(rooms, channel);
    early.push_back_reserved((channel, message));
    Ok(())
}

// There is room for one more message of the channel, beside what is promised to the others.
fn have_room(
    channel: u16,
    rooms: &ByChannel<bool>,
    early: &mut VecDeque<(u16, BasicReturnMessage)>,
) -> Result<(), AllocError>
    requires { promised rooms.now.entries ≤ deque_spare early.old }
    ensures same { early.new.items ≡ early.old.items }
    ensures room { OnOk result (promised rooms.now.entries < deque_spare early.new + spare_in (at_channel channel rooms.now.entries)) }
    ensures kept { promised rooms.now.entries ≤ deque_spare early.new }
    ensures succeeds { 0 < spare_in (at_channel channel rooms.now.entries) → IsOk result }
{
    if is_promised(rooms, channel) {
        return Ok(());
    }
    early.reserve(rooms.entries().len() + 1)
}

/// Gives the messages of a channel, in order of arrival; those of the others stay in theirs. Where there is no memory nothing changes.
pub fn take_early(
    alloc: Global,
    channel: u16,
    early: &mut VecDeque<(u16, BasicReturnMessage)>,
) -> Result<Vec<BasicReturnMessage>, AllocError>
    ensures given { IfOk result (λ given. given.items ≡ messages_on channel early.old.items) }
    ensures ok { OnOk result (early.new.items ≡ messages_off channel early.old.items) }
    ensures err { OnErr result (early.new.items ≡ early.old.items) }
    ensures room { deque_spare early.old ≤ deque_spare early.new }
{
    let mut given = Vec::new(alloc);
    given.reserve(early.len())?;
    let mut left = early.len();
    while left > 0 {
        turn_one(channel, early, &mut given);
        left -= 1;
    }
    Ok(given)
}

// The first message is given where it is of the channel; else it goes to the back.
fn turn_one(
    channel: u16,
    early: &mut VecDeque<(u16, BasicReturnMessage)>,
    given: &mut Vec<BasicReturnMessage>,
)
    requires { vec_len given.old < vec_capacity given.old }
    ensures turned { turned given.new.items early.new.items ≡ turn channel given.old.items early.old.items }
    ensures given { (vec_len given.new ≤ vec_len given.old + 1) × (vec_capacity given.new ≡ vec_capacity given.old) }
    ensures room { (deque_len early.new ≤ deque_len early.old) × (deque_capacity early.new ≡ deque_capacity early.old) }
{
    let Some((of, message)) = early.pop_front() else {
        return;
    };
    if of == channel {
        given.push_reserved(message);
    } else {
        early.push_back_reserved((of, message));
    }
}

/// Lets messages go.
pub fn let_go_all(_messages: Vec<BasicReturnMessage>) {}
