//! The outbox: in which order frames leave.
//!
//! A frame that was given back goes first; then the three lists that `queues` keeps. Poison stands here too: what a push answers
//! while the outbox or its channel is poisoned. The session calls the outbox, and no other part does. Why a frame is given back,
//! and why something is poisoned, is not known here.

ghost use Rattle.std.specs.Prelude.{◌≡◌, ℕ, true, false, ◌+◌, ◌<◌, ◌≤◌, [], Some, None, IsOk, IsSome, IfOk, OnOk, OnErr, slice_get, is_some, if◌then◌else◌};
ghost use Rattle.lapin_rules.specs.Words.{with_channel};
ghost use Rattle.lapin_rules.specs.Drops.{is_rest_of, frame_channel as frame_channel_lem};
ghost use Rattle.lapin_rules.specs.Flow.{unless_full};
ghost use Rattle.lapin_tables.specs.ByChannel.{on_channel};
ghost use Rattle.lapin_outbox.specs.Outgoing.{empty};
ghost use Rattle.lapin_outbox.specs.Poison.{error_at, poison_on, push_told, method_pushed, publish_pushed, with_poison, channel_poisoned, channel_cleared};
ghost use Rattle.lapin_outbox.specs.Returned.{with_returned, is_retried, is_pending, again as again_lem, given, is_named, popped, after_pop, is_returned_on, returned_off, channel_entries, outbox_entries, after_drop_unbegun, after_drop_channel, after_drop};
ghost use Rattle.lapin_outbox.specs.Drops.{AreOn, unbegun_of};

use crate::dropped::Dropped;
use crate::named::Named;
use crate::queues::Queues;
use lapin_full::FullChannels;
use lapin_tables::ByChannel;
use lapin_types::{Error, Frame, Left, Method, NoMemory, Publish};
use std::alloc::Global;
use std::marker::Model;

/// What became of a method or a publish that was pushed.
#[derive(Clone, Copy, Debug, PartialEq, Eq, Drop)]
pub enum Pushed {
    /// It stands at the back of its list.
    Queued,
    /// The channel or the outbox is poisoned with this error, the channel's first. Nothing was queued.
    Poisoned(Error),
}

/// The frames that wait to leave. A contract sees what the outbox holds, and for how many more entries there is room.
pub struct Outbox {
    frame_max: u32,
    queues: Queues,
    // The frame that was given back, until it is handed out again.
    returned: Option<Left>,
    poison: Option<Error>,
    // By channel that ever was poisoned.
    errors: ByChannel<Option<Error>>,
}

impl Drop for Outbox {
    fn drop(self) {
        let Outbox {
            frame_max: _,
            queues: _,
            returned: _,
            poison: _,
            errors: _,
        } = self;
    }
}

impl Model for Outbox {
    ghost use Rattle.std.specs.Prelude.{◌≤◌};
    ghost use Rattle.lapin_outbox.specs.Outgoing.{Outgoing};
    ghost use Rattle.lapin_outbox.specs.Codes.{outgoing_code};

    ghost Value = { Outgoing };

    ghost coded = { outgoing_code };

    ghost view = { λ o. record {
      what = record {
        frame_max = o.frame_max;
        lists = o.queues.lists;
        returned = o.returned;
        poison = o.poison;
        errors = o.errors.entries;
      };
      spare = o.queues.spare;
    } };

    ghost invariant = { λ o. 4096 ≤ o.frame_max };
}

impl Outbox {
    /// An empty outbox for frames of at most `frame_max` bytes (AMQP 0-9-1, section 4.2.3: at least 4096). It takes no memory
    /// yet, so it does not fail.
    pub fn new(alloc: Global, frame_max: u32) -> Result<Outbox, NoMemory>
        requires { 4096 ≤ frame_max }
        ensures made { IfOk result (λ outbox. outbox.what ≡ empty frame_max) }
        ensures succeeds { IsOk result }
    {
        Ok(Outbox {
            frame_max,
            queues: Queues::new(alloc),
            returned: None,
            poison: None,
            errors: ByChannel::new(alloc),
        })
    }

    // ---- pushes

    /// Queues a method of a channel behind all methods, with the ticket of its call, if it has one. Where the channel or the
    /// outbox is poisoned nothing is queued, and the answer is the channel's error, else the outbox's. Where there is no memory
    /// nothing is queued either.
    pub fn push_method(
        &mut self,
        _alloc: Global,
        channel: u16,
        method: Method,
        ticket: Option<u64>,
    ) -> Result<Pushed, NoMemory>
        ensures told { IfOk result (λ pushed. pushed ≡ push_told (poison_on channel self.old.what)) }
        ensures ok { OnOk result (self.new.what ≡ method_pushed (record { channel = channel; method = method; ticket = ticket }) self.old.what) }
        ensures err { OnErr result (self.new.what ≡ self.old.what) }
        ensures poisoned { IsSome (poison_on channel self.old.what) → IsOk result }

        // In the room that `reserve` made it does not fail, and it uses up no more than one place.
        ensures room { 0 < self.old.spare → IsOk result }
        ensures used { self.old.spare ≤ self.new.spare + 1 }
    {
        if let Some(error) = self.poisoned(channel) {
            drop(method);
            return Ok(Pushed::Poisoned(error));
        }
        self.queues.reserve()?;
        self.queues.push_method_reserved(channel, method, ticket);
        Ok(Pushed::Queued)
    }

    /// Does what `push_method` does, in the room that was made. It takes no memory.
    pub fn push_method_reserved(
        &mut self,
        channel: u16,
        method: Method,
        ticket: Option<u64>,
    ) -> Pushed
        requires { 0 < self.old.spare }
        ensures told { result ≡ push_told (poison_on channel self.old.what) }
        ensures what { self.new.what ≡ method_pushed (record { channel = channel; method = method; ticket = ticket }) self.old.what }
        ensures used { self.old.spare ≤ self.new.spare + 1 }
    {
        if let Some(error) = self.poisoned(channel) {
            drop(method);
            return Pushed::Poisoned(error);
        }
        self.queues.push_method_reserved(channel, method, ticket);
        Pushed::Queued
    }

    /// Queues a publish behind all publishes. Where its channel or the outbox is poisoned nothing is queued, and the answer is
    /// the channel's error, else the outbox's. Where there is no memory nothing is queued either.
    pub fn push_publish(&mut self, _alloc: Global, publish: Publish) -> Result<Pushed, NoMemory>
        ensures told { IfOk result (λ pushed. pushed ≡ push_told (poison_on publish.channel self.old.what)) }
        ensures ok { OnOk result (self.new.what ≡ publish_pushed publish self.old.what) }
        ensures err { OnErr result (self.new.what ≡ self.old.what) }
        ensures poisoned { IsSome (poison_on publish.channel self.old.what) → IsOk result }

        // In the room that `reserve` made it does not fail, and it uses up no more than one place.
        ensures room { 0 < self.old.spare → IsOk result }
        ensures used { self.old.spare ≤ self.new.spare + 1 }
    {
        if let Some(error) = self.poisoned(publish.channel) {
            drop(publish);
            return Ok(Pushed::Poisoned(error));
        }
        self.queues.reserve()?;
        self.queues.push_publish_reserved(publish);
        Ok(Pushed::Queued)
    }

    /// Does what `push_publish` does, in the room that was made. It takes no memory.
    pub fn push_publish_reserved(&mut self, publish: Publish) -> Pushed
        requires { 0 < self.old.spare }
        ensures told { result ≡ push_told (poison_on publish.channel self.old.what) }
        ensures what { self.new.what ≡ publish_pushed publish self.old.what }
        ensures used { self.old.spare ≤ self.new.spare + 1 }
    {
        if let Some(error) = self.poisoned(publish.channel) {
            drop(publish);
            return Pushed::Poisoned(error);
        }
        self.queues.push_publish_reserved(publish);
        Pushed::Queued
    }

    /// Makes room for the next push of a method or of a publish. Nothing else changes. The room lasts until a push uses it.
    pub fn reserve(&mut self, _alloc: Global) -> Result<(), NoMemory>
        ensures room { OnOk result (0 < self.new.spare) }
        ensures same { self.new.what ≡ self.old.what }
        ensures kept { self.old.spare ≤ self.new.spare }
        ensures succeeds { 0 < self.old.spare → IsOk result }
    {
        self.queues.reserve()
    }

    // ---- frames that leave

    /// Whether anything waits: a frame that was given back, or an entry of the three lists.
    pub fn has_pending(&self) -> bool
        ensures { result ≡ is_pending self.now.what }
    {
        self.retrying() || self.queues.has_entries()
    }

    /// Whether a publish of a channel has begun and some of its frames have not left.
    pub fn is_amid(&self, channel: u16) -> bool
        ensures { result ≡ is_rest_of channel self.now.what.lists.rest }
    {
        self.queues.is_amid(channel)
    }

    /// Hands out the frame that was given back, marked so; else the first of what follows the begun publish, else the first
    /// method, else, where `flow` is true, the method frame of the first publish whose channel isn't among the full ones, whose
    /// header and bodies follow; else none. Where there is no memory all stays.
    pub fn pop(&mut self, alloc: Global, flow: bool, full: &[u16]) -> Result<Option<Left>, NoMemory>
        ensures told { IfOk result (λ left. left ≡ popped (unless_full flow (is_named full.now)) self.old.what) }
        ensures ok { OnOk result (self.new.what ≡ after_pop (unless_full flow (is_named full.now)) self.old.what) }
        ensures err { OnErr result (self.new.what ≡ self.old.what) }
        ensures room { self.old.spare ≤ self.new.spare }
    {
        self.pop_unless(alloc, flow, &Named { channels: full })
    }

    /// Does what `pop` does, for whoever tells which channels are full.
    pub fn pop_unless<F: FullChannels>(
        &mut self,
        alloc: Global,
        flow: bool,
        full: &F,
    ) -> Result<Option<Left>, NoMemory>
        ensures told { IfOk result (λ left. left ≡ popped (unless_full flow (F.full full.now)) self.old.what) }
        ensures ok { OnOk result (self.new.what ≡ after_pop (unless_full flow (F.full full.now)) self.old.what) }
        ensures err { OnErr result (self.new.what ≡ self.old.what) }
        ensures room { self.old.spare ≤ self.new.spare }
    {
        if self.retrying() {
            return Ok(self.take_returned());
        }
        self.queues.pop(alloc, self.frame_max, flow, full)
    }

    /// Whether `pop_unless` would hand out a frame. All stays, also where there is no memory to pass over a publish.
    pub fn has_next_unless<F: FullChannels>(
        &mut self,
        flow: bool,
        full: &F,
    ) -> Result<bool, NoMemory>
        ensures told { IfOk result (λ has. has ≡ is_some (popped (unless_full flow (F.full full.now)) self.old.what)) }
        ensures same { self.new.what ≡ self.old.what }
        ensures room { self.old.spare ≤ self.new.spare }
    {
        if self.retrying() {
            return Ok(true);
        }
        self.queues.has_next(flow, full)
    }

    // Takes out the frame that was given back, marked as handed out once more. It stands apart, so that a request that finds none
    // moves no empty place.
    #[inline(never)]
    fn take_returned(&mut self) -> Option<Left>
        ensures told { result ≡ given self.old.what.returned None }
        ensures what { self.new.what ≡ with_returned None self.old.what }
        ensures room { self.new.spare ≡ self.old.spare }
    {
        match self.returned.take() {
            Some(left) => Some(retried(left)),
            None => None,
        }
    }

    /// Gives a frame back: the next `pop` hands it out once more, unless a drop takes it out before. It counts as left already,
    /// so the three lists stay. A caller gives back only the frame that it was handed last, and not after its channel's entries
    /// were dropped.
    pub fn retry(&mut self, left: Left)
        requires { is_retried self.old.what.returned ≡ false }
        ensures what { self.new.what ≡ with_returned (Some left) self.old.what }
        ensures room { self.new.spare ≡ self.old.spare }
    {
        self.returned = Some(left);
    }

    /// Whether a frame is given back that `pop` has not handed out again and no drop has taken out.
    pub fn retrying(&self) -> bool
        ensures { result ≡ is_retried self.now.what.returned }
    {
        self.returned.is_some()
    }

    // ---- drops

    /// Takes out the frame that was given back, where it is of this channel. Nothing is told of it, since its entry has left.
    pub fn let_go(&mut self, channel: u16)
        ensures what { self.new.what ≡ with_returned (returned_off channel self.old.what.returned) self.old.what }
        ensures room { self.new.spare ≡ self.old.spare }
    {
        drop(take_on(&mut self.returned, channel));
    }

    /// Takes out the frame that was given back, of whatever channel. Nothing is told of it, since its entry has left.
    pub fn let_go_all(&mut self)
        ensures what { self.new.what ≡ with_returned None self.old.what }
        ensures room { self.new.spare ≡ self.old.spare }
    {
        drop(self.returned.take());
    }

    /// Takes out the first publish of a channel that has not begun; `None` exactly where there is none.
    pub fn drop_unbegun(&mut self, channel: u16) -> Option<Dropped>
        ensures told { result ≡ slice_get (unbegun_of channel self.old.what.lists) 0 }
        ensures what { self.new.what ≡ after_drop_unbegun channel self.old.what }
        ensures room { self.old.spare ≤ self.new.spare }
    {
        self.queues.drop_unbegun(channel)
    }

    /// Takes out the first entry of a channel: the frame that was given back, else the begun publish whole, else a method, else
    /// a publish; `None` exactly where there is none.
    pub fn drop_channel(&mut self, channel: u16) -> Option<Dropped>
        ensures told { result ≡ slice_get (channel_entries channel self.old.what) 0 }
        ensures what { self.new.what ≡ after_drop_channel channel self.old.what }
        ensures room { self.old.spare ≤ self.new.spare }
    {
        match take_on(&mut self.returned, channel) {
            Some(left) => Some(dropped_left(left)),
            None => self.queues.drop_channel(channel),
        }
    }

    /// Takes out the first entry over all channels: the frame that was given back, else the begun publish whole, else a method,
    /// else a publish; `None` exactly where nothing waits.
    pub fn drop_all(&mut self) -> Option<Dropped>
        ensures told { result ≡ slice_get (outbox_entries self.old.what) 0 }
        ensures pending { is_some result ≡ is_pending self.old.what }
        ensures what { self.new.what ≡ after_drop self.old.what }
        ensures room { self.old.spare ≤ self.new.spare }
    {
        match self.returned.take() {
            Some(left) => Some(dropped_left(left)),
            None => self.queues.drop_all(),
        }
    }

    // ---- poison

    /// Poisons the outbox: from now on a push on a channel without poison of its own answers this error.
    pub fn poison(&mut self, error: Error)
        ensures what { self.new.what ≡ with_poison (Some error) self.old.what }
        ensures room { self.new.spare ≡ self.old.spare }
    {
        self.poison = Some(error);
    }

    /// Takes the outbox's poison away. Poison of channels stays.
    pub fn drop_poison(&mut self)
        ensures what { self.new.what ≡ with_poison None self.old.what }
        ensures room { self.new.spare ≡ self.old.spare }
    {
        self.poison = None;
    }

    /// Poisons a channel: from now on a push on it answers this error. Where there is no memory nothing changes.
    pub fn poison_channel(
        &mut self,
        _alloc: Global,
        channel: u16,
        error: Error,
    ) -> Result<(), NoMemory>
        ensures ok { OnOk result (self.new.what ≡ channel_poisoned channel error self.old.what) }
        ensures err { OnErr result (self.new.what ≡ self.old.what) }
        ensures room { self.new.spare ≡ self.old.spare }
    {
        set_error(&mut self.errors, channel, error)
    }

    /// Takes a channel's poison away, if it has one. The outbox's stays.
    pub fn drop_channel_poison(&mut self, channel: u16)
        ensures what { self.new.what ≡ channel_cleared channel self.old.what }
        ensures room { self.new.spare ≡ self.old.spare }
    {
        clear_error(&mut self.errors, channel);
    }

    /// The error that a push on this channel meets: the channel's, else the outbox's; `None` where neither is poisoned.
    pub fn poisoned(&self, channel: u16) -> Option<Error>
        ensures { result ≡ poison_on channel self.now.what }
    {
        self.error_of(channel).or(self.poison)
    }

    // The poison of a channel alone.
    fn error_of(&self, channel: u16) -> Option<Error>
        ensures { result ≡ error_at channel self.now.what.errors }
    {
        match self.errors.get(channel) {
            Some(error) => *error,
            None => None,
        }
    }

    /// A law, and nothing runs: all that waits of the begun publish is on one channel, so a drop of that channel leaves no
    /// frame of it.
    pub fn begun_publish_is_on_one_channel(&self)
        ensures { (c : ℕ) → is_rest_of c self.now.what.lists.rest ≡ true → AreOn c self.now.what.lists.rest }
    {
        self.queues.begun_publish_is_on_one_channel();
    }
}

// A frame as it is handed out once more.
fn retried(left: Left) -> Left
    ensures { result ≡ again_lem left }
{
    Left {
        frame: left.frame,
        ticket: left.ticket,
        publish: left.publish,
        first: left.first,
        last: left.last,
        again: true,
    }
}

// Takes out the frame that was given back, where it is of this channel.
fn take_on(returned: &mut Option<Left>, channel: u16) -> Option<Left>
    ensures told { result ≡ (if is_returned_on channel returned.old then returned.old else None) }
    ensures stays { returned.new ≡ returned_off channel returned.old }
{
    match returned {
        Some(left) if frame_channel(&left.frame) == channel => returned.take(),
        _ => None,
    }
}

// What a drop tells of a frame that was given back.
fn dropped_left(left: Left) -> Dropped
    ensures { result ≡ record { ticket = left.ticket; publish = left.publish } }
{
    Dropped {
        ticket: left.ticket,
        publish: left.publish,
    }
}

fn frame_channel(frame: &Frame) -> u16
    ensures { result ≡ frame_channel_lem frame.now }
{
    match frame {
        Frame::Method(channel, _) | Frame::Header(channel, _) | Frame::Body(channel, _) => *channel,
    }
}

// A channel is poisoned.
fn set_error(
    errors: &mut ByChannel<Option<Error>>,
    channel: u16,
    error: Error,
) -> Result<(), NoMemory>
    ensures ok { OnOk result (errors.new.entries ≡ with_channel channel (Some error) errors.old.entries) }
    ensures err { OnErr result (errors.new.entries ≡ errors.old.entries) }
{
    if let Some(place) = errors.get_mut(channel) {
        *place = Some(error);
        return Ok(());
    }
    errors.insert(channel, Some(error))?;
    Ok(())
}

// A channel is poisoned no more.
fn clear_error(errors: &mut ByChannel<Option<Error>>, channel: u16)
    ensures { errors.new.entries ≡ on_channel channel (λ _. None) errors.old.entries }
{
    if let Some(place) = errors.get_mut(channel) {
        *place = None;
    }
}
