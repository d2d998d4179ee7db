//! The confirms of all channels: the public calls.
//!
//! Each call does one thing that may happen to a publish, and says what the publish states is then. What runs over the tags of a
//! channel stands in `settling`; results, set-asides and drains stand in `results` and `draining`.

ghost use Rattle.std.specs.Prelude.{◌≡◌, ◌≢◌, ℕ, ◌+◌, ◌≤◌, ◌<◌, ◌^◌, ◌↔◌, ◌⊎◌, true, false, Ok, Err, Some, OnOk, OnErr, IsOk, IfOk, IfErr, IsSome, length, if◌then◌else◌};
ghost use Rattle.std.specs.List.{list_any};
ghost use Rattle.lapin_tables.specs.ByChannel.{at_channel};
ghost use Rattle.lapin_tables.specs.Numbered.{under, first_kept};
ghost use Rattle.lapin_rules.specs.ConfirmMarks as mark;
ghost use Rattle.lapin_rules.specs.ConfirmReadings.{kind_outcome};
ghost use Rattle.lapin_confirm.specs.ConfirmState.{empty_confirm_state};
ghost use Rattle.lapin_confirm.specs.Machine.{after_mark, rejected};
ghost use Rattle.lapin_confirm.specs.PublishStates.{single_of, multiple_of, tag_for, is_open_on, is_queued, is_pending, pending_count, queued_count, last_on, selected_on, asked_on, limit_on, full_on, span_on, span_from};
ghost use Rattle.lapin_confirm.specs.WithRoom.{spare_on, KeepsRoom};

use crate::attaching::{attach_on, attach_one};
use crate::cell::Cell;
use crate::confirm_mode::ConfirmMode;
use crate::early::join_early;
use crate::full_set::{show, show_limited};
use crate::openings::{make_place, put_confirm_mode, renew_returned_messages};
use crate::origin::Origin;
use crate::returned::Returned;
use crate::rooms::{give_up, is_promised, make_room, promise, use_room};
use crate::settling::{end_opening, enqueue, leave, reject, settle_tag, settle_through};
use lapin_full::ChannelSet;
use lapin_rules::SettleKind;
use lapin_tables::{ByChannel, Numbered, Packed};
use lapin_types::{BasicReturnMessage, Confirmation, Error, NoMemory, Outcome};
use std::alloc::Global;
use std::collections::VecDeque;
use std::marker::Model;

/// The outcome of every confirm number, and the confirm mode and the returned messages of every channel. Contracts see a `ConfirmState`, and the room beside it.
pub struct Confirms {
    pub(crate) confirm_modes: ByChannel<ConfirmMode>,
    // The channels that are full, by their confirm modes.
    pub(crate) full: ChannelSet,
    pub(crate) cells: Packed<Cell>,
    pub(crate) origins: Packed<Origin>,
    pub(crate) returned_by_channel: ByChannel<Returned>,
    pub(crate) early: VecDeque<(u16, BasicReturnMessage)>,
    pub(crate) rooms: ByChannel<bool>,
}

impl Drop for Confirms {
    fn drop(self) {
        let Confirms {
            confirm_modes: _,
            full: _,
            cells: _,
            origins: _,
            returned_by_channel: _,
            early: _,
            rooms: _,
        } = self;
    }
}

impl Model for Confirms {
    ghost use Rattle.lapin_confirm.specs.WithRoom.{WithRoom};
    ghost use Rattle.std.specs.Coded.{codes};
    ghost use Rattle.lapin_types.specs.contracts.message.BasicReturnMessage as message;

    ghost Value = { WithRoom };

    ghost coded = { Prim.hlevel (codes, message.the_row.coded) };

    ghost use Rattle.lapin_confirm.specs.Ties.{confirm_mode_states, returned_by_channel_of, AllKept, deque_spare};

    ghost view = { λ a. record {
      what = record { publish_states = record { confirm_modes = confirm_mode_states a.confirm_modes.entries; cells = a.cells.slots }; returned_by_channel = returned_by_channel_of a.returned_by_channel.entries; early = a.early.items; origins = a.origins.slots };
      spare = a.rooms.entries;
    } };

    ghost invariant = { λ a. AllKept a.rooms.entries a.confirm_modes.entries a.returned_by_channel.entries (deque_spare a.early) a.cells a.origins a.full };
}

impl Confirms {
    /// No opening and no publish. It takes no memory yet, so it does not fail.
    pub fn new(alloc: Global) -> Result<Confirms, NoMemory>
        ensures made { IfOk result (λ made. made.what ≡ empty_confirm_state) }
        ensures succeeds { IsOk result }
    {
        Ok(Confirms {
            confirm_modes: ByChannel::new(alloc),
            full: ChannelSet::new(alloc),
            cells: Packed::new(alloc),
            origins: Packed::new(alloc),
            returned_by_channel: ByChannel::new(alloc),
            early: VecDeque::new(alloc),
            rooms: ByChannel::new(alloc),
        })
    }

    /// Makes room for the next `add` or `arrived` on a channel, which then does not answer `NoMemory`. The room lasts until it
    /// is used, whatever else is called before.
    pub fn reserve(&mut self, _alloc: Global, channel: u16) -> Result<(), NoMemory>
        ensures room { OnOk result (0 < spare_on channel self.new) }
        ensures same { self.new.what ≡ self.old.what }
        ensures spare { KeepsRoom self.old self.new }
        ensures succeeds { 0 < spare_on channel self.old → IsOk result }
    {
        if is_promised(&self.rooms, channel) {
            return Ok(());
        }
        if let Err(_) = make_room(
            channel,
            &mut self.rooms,
            &mut self.cells,
            &mut self.origins,
            &mut self.confirm_modes,
            &mut self.returned_by_channel,
            &mut self.early,
        ) {
            return Err(NoMemory);
        }
        promise(&mut self.rooms, channel);
        Ok(())
    }

    /// A new opening of a channel begins: it is not selected, and no tag is taken; no message waits, is kept or is unconfirmed.
    /// Of confirms that were set aside nothing is kept any more. Nothing of an earlier opening may be open. Only the first one of a
    /// channel takes memory, and one for which there is room.
    pub fn begin(&mut self, alloc: Global, channel: u16) -> Result<(), NoMemory>
        requires { list_any (is_open_on channel) self.old.what.publish_states.cells ≡ false }
        ensures ok { OnOk result (self.new.what ≡ after_mark self.old.what (mark.Begun channel)) }
        ensures err { OnErr result (self.new.what ≡ self.old.what) }
        ensures spare { self.new.spare ≡ self.old.spare }
        ensures succeeds { IsSome (at_channel channel self.old.what.publish_states.confirm_modes) → IsSome (at_channel channel self.old.what.returned_by_channel) → spare_on channel self.old ≡ 0 → IsOk result }
    {
        let promised = is_promised(&self.rooms, channel);
        let mode = ConfirmMode::with_room(alloc, promised)?;
        make_place(&mut self.confirm_modes, &mut self.full, channel)?;
        renew_returned_messages(
            &mut self.returned_by_channel,
            &mut self.cells,
            &mut self.origins,
            &mut self.early,
            alloc,
            channel,
            promised,
        )?;
        put_confirm_mode(&mut self.confirm_modes, channel, mode);
        self.full.remove(channel);
        Ok(())
    }

    /// Adds a publish of a channel that has an opening, and answers its confirm number. Room for its tag is made too.
    ///
    /// `NumbersUsedUp` comes exactly where the number would pass the greatest `u64`.
    pub fn add(&mut self, _alloc: Global, channel: u16) -> Result<u64, Error>
        requires { IsSome (at_channel channel self.old.what.publish_states.confirm_modes) }
        ensures number { IfOk result (λ n. n ≡ length self.old.what.publish_states.cells + 1) }
        ensures ok { OnOk result (self.new.what ≡ after_mark self.old.what (mark.Added channel)) }
        ensures err { OnErr result (self.new.what ≡ self.old.what) }
        ensures spare { (c : ℕ) → c ≢ channel → spare_on c self.old ≤ spare_on c self.new }
        ensures used { spare_on channel self.old ≤ spare_on channel self.new + 1 }
        ensures unused { OnErr result (self.new.spare ≡ self.old.spare) }
        ensures cause { IfErr result (λ e. (e ≡ Error.NumbersUsedUp) ⊎ (e ≡ Error.NoMemory)) }
        ensures used_up { (result ≡ Err Error.NumbersUsedUp) ↔ (length self.old.what.publish_states.cells + 1 ≡ 2 ^ 64) }
        ensures succeeds { 0 < spare_on channel self.old → length self.old.what.publish_states.cells + 1 < 2 ^ 64 → IsOk result }
    {
        if self.cells.next_number().is_none() {
            return Err(Error::NumbersUsedUp);
        }
        let Some(mode) = self.confirm_modes.get_mut(channel) else {
            unreachable!()
        };
        if let Err(_) = use_room(
            channel,
            &mut self.rooms,
            &mut self.cells,
            &mut self.origins,
            mode,
        ) {
            return Err(Error::NoMemory);
        }
        self.origins.push_reserved(Origin {
            channel,
            aside: false,
        });
        Ok(enqueue(channel, mode, &mut self.cells))
    }

    /// A `confirm.select` frame of a channel leaves: the opening is selected from now on.
    pub fn select_left(&mut self, channel: u16)
        ensures what { self.new.what ≡ after_mark self.old.what (mark.SelectLeft channel) }
        ensures spare { self.new.spare ≡ self.old.spare }
    {
        let Some(mode) = self.confirm_modes.get_mut(channel) else {
            return;
        };
        mode.selected = true;
        show(&mut self.full, channel, mode);
    }

    /// A `confirm.select` call is accepted on a channel with a live opening.
    pub fn select_called(&mut self, channel: u16)
        ensures what { self.new.what ≡ after_mark self.old.what (mark.SelectCalled channel) }
        ensures spare { self.new.spare ≡ self.old.spare }
    {
        let Some(mode) = self.confirm_modes.get_mut(channel) else {
            return;
        };
        mode.asked = true;
    }

    /// Sets the limit of pending tags of a channel with a live opening, 0 for none.
    pub fn set_limit(&mut self, channel: u16, limit: u64)
        ensures what { self.new.what ≡ after_mark self.old.what (mark.LimitSet channel limit) }
        ensures spare { self.new.spare ≡ self.old.spare }
    {
        let Some(mode) = self.confirm_modes.get_mut(channel) else {
            return;
        };
        mode.limit = limit;
        show(&mut self.full, channel, mode);
    }

    /// The method frame of a publish leaves. Answers the tag that it takes: none where the opening isn't selected, and it is
    /// then resolved as not requested.
    pub fn register(&mut self, number: u64) -> Option<u64>
        requires { is_queued (under number self.old.what.publish_states.cells) ≡ true }
        ensures tag { (c : ℕ) → under number self.old.what.publish_states.cells ≡ Some (Cell.Queued c) → result ≡ tag_for (at_channel c self.old.what.publish_states.confirm_modes) }
        ensures left { (c : ℕ) → under number self.old.what.publish_states.cells ≡ Some (Cell.Queued c) → self.new.what ≡ after_mark self.old.what (mark.Left c number) }
        ensures spare { self.new.spare ≡ self.old.spare }
    {
        let channel = queued_channel(&self.cells, number);
        let Some(mode) = self.confirm_modes.get_mut(channel) else {
            unreachable!()
        };
        let tag = leave(channel, mode, &mut self.cells, number);
        show_limited(&mut self.full, channel, mode);
        tag
    }

    /// The broker settles one tag of a channel (AMQP 0-9-1, basic.ack; RabbitMQ, basic.nack). Its confirm takes the oldest returned
    /// message that waits, if one does.
    ///
    /// `PreconditionFailed` with the tag and the last one taken comes exactly where the tag isn't pending, and nothing changes.
    pub fn settle_one(&mut self, channel: u16, kind: SettleKind, tag: u64) -> Result<(), Error>
        ensures answer { result ≡ (if is_pending channel tag self.old.what.publish_states then Ok tt else Err (Error.PreconditionFailed tag (last_on channel self.old.what.publish_states))) }
        ensures ok { OnOk result (self.new.what ≡ after_mark self.old.what (mark.Settled channel (single_of kind tag))) }
        ensures err { OnErr result (self.new.what ≡ self.old.what) }
        ensures spare { self.new.spare ≡ self.old.spare }
    {
        let Some(mode) = self.confirm_modes.get_mut(channel) else {
            return Err(Error::PreconditionFailed { tag, current: 0 });
        };
        let current = mode.tags.count();
        attach_one(&mut self.returned_by_channel, channel, &mode.tags, tag);
        if !settle_tag(channel, mode, &mut self.cells, tag, outcome_of(kind)) {
            return Err(Error::PreconditionFailed { tag, current });
        }
        show_limited(&mut self.full, channel, mode);
        Ok(())
    }

    /// The broker settles every pending tag of a channel up to one, in rising order. Each of their confirms takes the oldest
    /// returned message that then waits, if one does.
    pub fn settle_up_to(&mut self, channel: u16, kind: SettleKind, tag: u64)
        requires { 0 < tag }
        ensures what { self.new.what ≡ after_mark self.old.what (mark.Settled channel (multiple_of kind tag)) }
        ensures spare { self.new.spare ≡ self.old.spare }
    {
        let Some(mode) = self.confirm_modes.get_mut(channel) else {
            return;
        };
        let limit = lesser(tag, mode.tags.count());
        attach_on(&mut self.returned_by_channel, channel, &mode.tags, limit);
        settle_through(channel, mode, &mut self.cells, limit, outcome_of(kind));
        show_limited(&mut self.full, channel, mode);
    }

    /// The broker settles every pending tag of a channel, in rising order: a multiple settlement with tag 0. Messages are
    /// taken as by `settle_up_to`.
    pub fn settle_all(&mut self, channel: u16, kind: SettleKind)
        ensures what { self.new.what ≡ after_mark self.old.what (mark.Settled channel (multiple_of kind 0)) }
        ensures spare { self.new.spare ≡ self.old.spare }
    {
        let Some(mode) = self.confirm_modes.get_mut(channel) else {
            return;
        };
        let last = mode.tags.count();
        attach_on(&mut self.returned_by_channel, channel, &mode.tags, last);
        settle_through(channel, mode, &mut self.cells, last, outcome_of(kind));
        show_limited(&mut self.full, channel, mode);
    }

    /// A publish whose method frame has not left is resolved with an error.
    pub fn reject(&mut self, number: u64, error: Error)
        requires { is_queued (under number self.old.what.publish_states.cells) ≡ true }
        ensures what { self.new.what ≡ rejected number error self.old.what }
        ensures spare { self.new.spare ≡ self.old.spare }
    {
        let channel = queued_channel(&self.cells, number);
        let Some(mode) = self.confirm_modes.get_mut(channel) else {
            unreachable!()
        };
        reject(channel, mode, &mut self.cells, number, error);
    }

    /// The opening of a channel ends: all of it that is unresolved is resolved with the error.
    ///
    /// It costs what it resolves where the publishes that have not left were rejected before. Else it also walks the numbers
    /// from the last one down to the oldest of those publishes.
    pub fn end(&mut self, channel: u16, error: Error)
        ensures what { self.new.what ≡ after_mark self.old.what (mark.Ended channel error) }
        ensures spare { self.new.spare ≡ self.old.spare }
    {
        let Some(mode) = self.confirm_modes.get_mut(channel) else {
            return;
        };
        end_opening(channel, mode, &mut self.cells, error);
        show(&mut self.full, channel, mode);
    }

    /// The last tag that was taken on a channel, 0 where none was.
    pub fn current(&self, channel: u16) -> u64
        ensures { result ≡ last_on channel self.now.what.publish_states }
    {
        match self.confirm_modes.get(channel) {
            Some(mode) => mode.tags.count(),
            None => 0,
        }
    }

    /// How many tags are pending on a channel.
    pub fn pending(&self, channel: u16) -> usize
        ensures { result ≡ pending_count channel self.now.what.publish_states }
    {
        match self.confirm_modes.get(channel) {
            Some(mode) => mode.pending,
            None => 0,
        }
    }

    /// A returned message of a channel came whole: it waits for a settlement where the opening is selected, else it is unconfirmed,
    /// also on a channel that had no opening. It is moved, not copied, and is gone where there is no memory.
    pub fn arrived(
        &mut self,
        _alloc: Global,
        channel: u16,
        message: BasicReturnMessage,
    ) -> Result<(), NoMemory>
        ensures ok { OnOk result (self.new.what ≡ after_mark self.old.what (mark.Arrived channel message)) }
        ensures err { OnErr result (self.new.what ≡ self.old.what) }
        ensures spare { (c : ℕ) → c ≢ channel → spare_on c self.old ≤ spare_on c self.new }
        ensures used { spare_on channel self.old ≤ spare_on channel self.new + 1 }
        ensures succeeds { 0 < spare_on channel self.old → IsOk result }
    {
        let selected = self.selected(channel);
        let Some(returned_messages) = self.returned_by_channel.get_mut(channel) else {
            join_early(channel, &mut self.rooms, &mut self.early, message)?;
            return Ok(());
        };
        if let Err(_) = returned_messages.receive(selected, message) {
            return Err(NoMemory);
        }
        give_up(&mut self.rooms, channel);
        Ok(())
    }

    /// How many publishes of a channel were accepted and have not left.
    pub fn queued(&self, channel: u16) -> usize
        ensures { result ≡ queued_count channel self.now.what.publish_states }
    {
        match self.confirm_modes.get(channel) {
            Some(mode) => mode.queued,
            None => 0,
        }
    }

    /// Whether the live opening of a channel accepted a `confirm.select` call.
    pub fn asked(&self, channel: u16) -> bool
        ensures { result ≡ asked_on channel self.now.what.publish_states }
    {
        match self.confirm_modes.get(channel) {
            Some(mode) => mode.asked,
            None => false,
        }
    }

    /// The limit of pending tags of a channel's live opening, 0 where there is none.
    pub fn limit(&self, channel: u16) -> u64
        ensures { result ≡ limit_on channel self.now.what.publish_states }
    {
        match self.confirm_modes.get(channel) {
            Some(mode) => mode.limit,
            None => 0,
        }
    }

    /// Whether a channel is full: its live opening is selected, and its pending tags are at least as many as its limit, which
    /// is above 0.
    pub fn full(&self, channel: u16) -> bool
        ensures { result ≡ full_on channel self.now.what.publish_states }
    {
        self.full.contains(channel)
    }

    /// The last tag taken of a channel less its least pending one, plus 1; 0 exactly where no tag is pending.
    pub fn span(&self, channel: u16) -> u64
        ensures { result ≡ span_on channel self.now.what.publish_states }
    {
        match self.confirm_modes.get(channel) {
            Some(mode) => span_of(&mode.tags),
            None => 0,
        }
    }

    /// Whether the opening of a channel is selected.
    pub fn selected(&self, channel: u16) -> bool
        ensures { result ≡ selected_on channel self.now.what.publish_states }
    {
        match self.confirm_modes.get(channel) {
            Some(mode) => mode.selected,
            None => false,
        }
    }
}

// The channel of a publish that was accepted and has not left.
#[inline(always)]
fn queued_channel(cells: &Packed<Cell>, number: u64) -> u16
    requires { is_queued (under number cells.now.slots) ≡ true }
    ensures queued { under number cells.now.slots ≡ Some (Cell.Queued result) }
    ensures fits { length cells.now.slots < 2 ^ 64 }
{
    match cells.get(number) {
        Some(Cell::Queued(channel)) => channel,
        _ => unreachable!(),
    }
}

fn lesser(tag: u64, last: u64) -> u64
    ensures most { (result ≤ tag) × (result ≤ last) }
    ensures tag { result < last → result ≡ tag }
{
    if tag < last { tag } else { last }
}

fn span_of(tags: &Numbered<u64>) -> u64
    ensures { result ≡ span_from (length tags.now.slots) (first_kept tags.now.slots) }
{
    match tags.first_number() {
        Some(least) => tags.count() - least + 1,
        None => 0,
    }
}

fn outcome_of(kind: SettleKind) -> Outcome
    ensures { result ≡ kind_outcome kind }
{
    match kind {
        SettleKind::Ack => Outcome::Ack,
        SettleKind::Nack => Outcome::Nack,
    }
}
