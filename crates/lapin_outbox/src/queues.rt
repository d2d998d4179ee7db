//! The three lists of frames that wait.
//!
//! What follows the method of the begun publish, methods in order of queueing, and publishes that have not begun in order of
//! call over all channels. A frame request takes from the first of them that has anything; a publish begins only where the flow
//! of content is on and its channel isn't full, and those of full channels are passed over. A drop takes out what will not leave,
//! an entry at a time. Neither a frame that was given back nor poison is known here: the outbox, which alone calls this file,
//! looks at them first.

ghost use Rattle.std.specs.Prelude.{◌≡◌, ℕ, true, ◌+◌, ◌<◌, ◌≤◌, [], IsOk, IfOk, OnOk, OnErr, slice_get, drop, is_some, if◌then◌else◌};
ghost use Rattle.std.specs.List.{find};
ghost use Rattle.std.specs.Option.{option_map};
ghost use Rattle.lapin_rules.specs.Frames.{left_method, left_publish};
ghost use Rattle.lapin_rules.specs.Leaving.{handed_of, left_lists, may_begin, begun_rest};
ghost use Rattle.lapin_rules.specs.Words.{without_first};
ghost use Rattle.lapin_rules.specs.Flow.{unless_full};
ghost use Rattle.lapin_outbox.specs.Outgoing.{with_method, with_publish, has_entries as has_entries_lem};
ghost use Rattle.lapin_rules.specs.Drops.{no_lists, is_rest_of};
ghost use Rattle.lapin_outbox.specs.Entries.{rest_in};
ghost use Rattle.lapin_outbox.specs.Drops.{AreOn, told_rest, told_rest_of, told_publish, unbegun_of, without_unbegun, entries_of, without_entry_of, all_entries, without_entry};

use crate::begun::Begun;
use crate::channel_queue::{ChannelQueue, Keyed};
use crate::dropped::Dropped;
use lapin_full::FullChannels;
use lapin_types::{Frame, Left, Method, NoMemory, Publish};
use std::alloc::Global;
use std::marker::Model;

// A method that waits, with its ticket, if it has one.
#[derive(Drop)]
struct Waiting {
    channel: u16,
    method: Method,
    ticket: Option<u64>,
}

impl Waiting {
    ghost use Rattle.lapin_rules.specs.Frames.{left_method};
    ghost use Rattle.lapin_outbox.specs.Entries.{entry_of};
    ghost use Rattle.lapin_outbox.specs.Drops.{told_method};

    // As it leaves: the first and the last frame of its entry.
    fn leave(self) -> Left
        ensures { result ≡ left_method (entry_of self) }
    {
        let Waiting {
            channel,
            method,
            ticket,
        } = self;
        Left {
            frame: Frame::Method(channel, method),
            ticket,
            publish: None,
            first: true,
            last: true,
            again: false,
        }
    }

    // What a drop tells of it.
    fn dropped(self) -> Dropped
        ensures { result ≡ told_method (entry_of self) }
    {
        Dropped {
            ticket: self.ticket,
            publish: None,
        }
    }
}

impl Keyed for Waiting {
    ghost key_of = { λ w. w.channel };

    fn key(&self) -> u16 {
        self.channel
    }
}

impl Keyed for Publish {
    ghost key_of = { λ p. p.channel };

    fn key(&self) -> u16 {
        self.channel
    }
}

/// The three lists. A contract sees them, and for how many more entries there is room.
#[derive(Drop)]
pub(crate) struct Queues {
    begun: Option<Begun>,
    methods: ChannelQueue<Waiting>,
    publishes: ChannelQueue<Publish>,
}

impl Model for Queues {
    ghost use Rattle.std.specs.Prelude.{map, min};
    ghost use Rattle.lapin_outbox.specs.Outgoing.{InQueues};
    ghost use Rattle.lapin_outbox.specs.Codes.{queues_code};

    ghost Value = { InQueues };

    ghost coded = { queues_code };

    ghost use Rattle.lapin_outbox.specs.Entries.{entry_of, rest_in};

    ghost view = { λ q. record {
      lists = record { rest = rest_in q.begun; methods = map entry_of q.methods.entries; publishes = q.publishes.entries };
      spare = min q.methods.spare q.publishes.spare;
    } };
}

impl Queues {
    ghost use Rattle.lapin_rules.specs.Frames.{is_empty};

    /// Nothing waits. It takes no memory yet.
    pub(crate) fn new(alloc: Global) -> Queues
        ensures { result.lists ≡ no_lists }
    {
        Queues {
            begun: None,
            methods: ChannelQueue::new(alloc),
            publishes: ChannelQueue::new(alloc),
        }
    }

    /// Adds a method of a channel behind all methods, with the ticket of its call, if it has one, in the room that was made.
    pub(crate) fn push_method_reserved(&mut self, channel: u16, method: Method, ticket: Option<u64>)
        requires { 0 < self.old.spare }
        ensures lists { self.new.lists ≡ with_method (record { channel = channel; method = method; ticket = ticket }) self.old.lists }
        ensures used { self.old.spare ≤ self.new.spare + 1 }
    {
        self.methods.push_reserved(Waiting {
            channel,
            method,
            ticket,
        });
    }

    /// Adds a publish behind all publishes, in the room that was made.
    pub(crate) fn push_publish_reserved(&mut self, publish: Publish)
        requires { 0 < self.old.spare }
        ensures lists { self.new.lists ≡ with_publish publish self.old.lists }
        ensures used { self.old.spare ≤ self.new.spare + 1 }
    {
        self.publishes.push_reserved(publish);
    }

    /// Makes room for the next push. The lists stay.
    pub(crate) fn reserve(&mut self) -> Result<(), NoMemory>
        ensures room { OnOk result (0 < self.new.spare) }
        ensures same { self.new.lists ≡ self.old.lists }
        ensures kept { self.old.spare ≤ self.new.spare }
        ensures succeeds { 0 < self.old.spare → IsOk result }
    {
        self.methods.reserve()?;
        self.publishes.reserve()
    }

    /// Whether anything waits.
    pub(crate) fn has_entries(&self) -> bool
        ensures { result ≡ has_entries_lem self.now.lists }
    {
        !self.rest_is_empty() || !self.methods.is_empty() || !self.publishes.is_empty()
    }

    /// Hands out the next frame: the first of what follows the begun publish, else the first method, else, where `flow` is
    /// true, the method frame of the first publish whose channel isn't full, whose header and bodies follow; else none. Where
    /// there is no memory the lists stay. What is handed out is given on as it comes: a value so wide costs much where it is
    /// taken apart and put together again.
    pub(crate) fn pop<F: FullChannels>(
        &mut self,
        alloc: Global,
        frame_max: u32,
        flow: bool,
        full: &F,
    ) -> Result<Option<Left>, NoMemory>
        requires { 8 < frame_max }
        ensures told { IfOk result (λ left. left ≡ handed_of (unless_full flow (F.full full.now)) self.old.lists.rest self.old.lists.methods self.old.lists.publishes) }
        ensures ok { OnOk result (self.new.lists ≡ left_lists frame_max (unless_full flow (F.full full.now)) self.old.lists) }
        ensures err { OnErr result (self.new.lists ≡ self.old.lists) }
        ensures room { self.old.spare ≤ self.new.spare }
    {
        match &mut self.begun {
            Some(begun) if !begun.is_empty() => return begun.next(alloc),
            _ => {}
        }
        if !self.methods.is_empty() {
            return Ok(self.pop_method());
        }
        begin_publish(&mut self.publishes, &mut self.begun, frame_max, flow, full)
    }

    /// Whether `pop` would hand out a frame. The lists stay, also where there is no memory to pass over a publish.
    pub(crate) fn has_next<F: FullChannels>(
        &mut self,
        flow: bool,
        full: &F,
    ) -> Result<bool, NoMemory>
        ensures told { IfOk result (λ has. has ≡ is_some (handed_of (unless_full flow (F.full full.now)) self.old.lists.rest self.old.lists.methods self.old.lists.publishes)) }
        ensures same { self.new.lists ≡ self.old.lists }
        ensures room { self.old.spare ≤ self.new.spare }
    {
        if !self.rest_is_empty() || !self.methods.is_empty() {
            return Ok(true);
        }
        may_one_begin(&mut self.publishes, flow, full)
    }

    /// Takes out the first publish of a channel that has not begun; `None` exactly where there is none.
    pub(crate) fn drop_unbegun(&mut self, channel: u16) -> Option<Dropped>
        ensures told { result ≡ slice_get (unbegun_of channel self.old.lists) 0 }
        ensures lists { self.new.lists ≡ without_unbegun channel self.old.lists }
        ensures room { self.old.spare ≤ self.new.spare }
    {
        let unbegun = self.publishes.pop_of(channel)?;
        Some(dropped_publish(unbegun))
    }

    /// Takes out the first entry of a channel: the begun publish whole, else a method, else a publish; `None` exactly where
    /// there is none.
    pub(crate) fn drop_channel(&mut self, channel: u16) -> Option<Dropped>
        ensures told { result ≡ slice_get (entries_of channel self.old.lists) 0 }
        ensures lists { self.new.lists ≡ without_entry_of channel self.old.lists }
        ensures room { self.old.spare ≤ self.new.spare }
    {
        if let Some(dropped) = drop_begun_of(&mut self.begun, channel) {
            return Some(dropped);
        }
        if let Some(waiting) = self.methods.pop_of(channel) {
            return Some(waiting.dropped());
        }
        let publish = self.publishes.pop_of(channel)?;
        Some(dropped_publish(publish))
    }

    /// Takes out the first entry over all channels: the begun publish whole, else a method, else a publish; `None` exactly
    /// where nothing waits.
    pub(crate) fn drop_all(&mut self) -> Option<Dropped>
        ensures told { result ≡ slice_get (all_entries self.old.lists) 0 }
        ensures pending { is_some result ≡ has_entries_lem self.old.lists }
        ensures lists { self.new.lists ≡ without_entry self.old.lists }
        ensures room { self.old.spare ≤ self.new.spare }
    {
        if let Some(dropped) = drop_begun(&mut self.begun) {
            return Some(dropped);
        }
        if let Some(method) = self.methods.pop() {
            return Some(method.dropped());
        }
        let publish = self.publishes.pop()?;
        Some(dropped_publish(publish))
    }

    /// Whether a publish of a channel has begun and some of its frames have not left.
    pub(crate) fn is_amid(&self, channel: u16) -> bool
        ensures { result ≡ is_rest_of channel self.now.lists.rest }
    {
        match &self.begun {
            Some(begun) => begun.is_of(channel),
            None => false,
        }
    }

    /// A law, and nothing runs: all that waits of the begun publish is on one channel.
    pub(crate) fn begun_publish_is_on_one_channel(&self)
        ensures { (c : ℕ) → is_rest_of c self.now.lists.rest ≡ true → AreOn c self.now.lists.rest }
    {
        if let Some(begun) = &self.begun {
            begun.frames_are_on_one_channel();
        }
    }

    // Takes out the first method.
    #[inline(never)]
    fn pop_method(&mut self) -> Option<Left>
        ensures told { result ≡ option_map left_method (slice_get self.old.lists.methods 0) }
        ensures lists { self.new.lists ≡ record { rest = self.old.lists.rest; methods = drop 1 self.old.lists.methods; publishes = self.old.lists.publishes } }
        ensures room { self.old.spare ≤ self.new.spare }
    {
        let waiting = self.methods.pop()?;
        Some(waiting.leave())
    }

    // Whether the begun publish has left whole, or there is none.
    fn rest_is_empty(&self) -> bool
        ensures { result ≡ is_empty self.now.lists.rest }
    {
        match &self.begun {
            Some(begun) => begun.is_empty(),
            None => true,
        }
    }
}

// The first publish that may begin begins: its method leaves, and its other frames become what follows the begun publish.
#[inline(never)]
fn begin_publish<F: FullChannels>(
    publishes: &mut ChannelQueue<Publish>,
    begun: &mut Option<Begun>,
    frame_max: u32,
    flow: bool,
    full: &F,
) -> Result<Option<Left>, NoMemory>
    requires room { 8 < frame_max }
    requires rest { rest_in begun.old ≡ [] }
    ensures told { IfOk result (λ left. left ≡ option_map left_publish (find (may_begin (unless_full flow (F.full full.now))) publishes.old.entries)) }
    ensures rest { OnOk result (rest_in begun.new ≡ begun_rest frame_max (find (may_begin (unless_full flow (F.full full.now))) publishes.old.entries)) }
    ensures others { OnOk result (publishes.new.entries ≡ without_first (may_begin (unless_full flow (F.full full.now))) publishes.old.entries) }
    ensures err { OnErr result (publishes.new.entries ≡ publishes.old.entries) }
    ensures same { OnErr result (rest_in begun.new ≡ rest_in begun.old) }
    ensures kept { publishes.old.spare ≤ publishes.new.spare }
{
    let Some(publish) = next_publish(publishes, flow, full)? else {
        return Ok(None);
    };
    let (left, rest) = Begun::new(publish, frame_max);
    drop(begun.replace(rest));
    Ok(Some(left))
}

// Takes out the first publish that may begin: the first whose channel isn't full, where the flow is on.
fn next_publish<F: FullChannels>(
    publishes: &mut ChannelQueue<Publish>,
    flow: bool,
    full: &F,
) -> Result<Option<Publish>, NoMemory>
    ensures taken { IfOk result (λ publish. publish ≡ find (may_begin (unless_full flow (F.full full.now))) publishes.old.entries) }
    ensures others { OnOk result (publishes.new.entries ≡ without_first (may_begin (unless_full flow (F.full full.now))) publishes.old.entries) }
    ensures err { OnErr result (publishes.new.entries ≡ publishes.old.entries) }
    ensures kept { publishes.old.spare ≤ publishes.new.spare }
{
    if flow {
        publishes.pop_unless(full)
    } else {
        Ok(None)
    }
}

// Whether a publish may begin.
fn may_one_begin<F: FullChannels>(
    publishes: &mut ChannelQueue<Publish>,
    flow: bool,
    full: &F,
) -> Result<bool, NoMemory>
    ensures told { IfOk result (λ may. may ≡ is_some (find (may_begin (unless_full flow (F.full full.now))) publishes.old.entries)) }
    ensures same { publishes.new.entries ≡ publishes.old.entries }
    ensures kept { publishes.old.spare ≤ publishes.new.spare }
{
    if flow {
        publishes.has_unless(full)
    } else {
        Ok(false)
    }
}

// Takes out what follows the begun publish, whole.
fn drop_begun(begun: &mut Option<Begun>) -> Option<Dropped>
    ensures told { result ≡ slice_get (told_rest (rest_in begun.old)) 0 }
    ensures left { rest_in begun.new ≡ [] }
{
    begun.take()?.dropped()
}

// Takes out what follows the begun publish, whole, where it is of this channel.
fn drop_begun_of(begun: &mut Option<Begun>, channel: u16) -> Option<Dropped>
    ensures told { result ≡ slice_get (told_rest_of channel (rest_in begun.old)) 0 }
    ensures left { rest_in begun.new ≡ (if is_rest_of channel (rest_in begun.old) then [] else rest_in begun.old) }
{
    match begun {
        Some(publish) if publish.is_of(channel) => drop_begun(begun),
        _ => None,
    }
}

fn dropped_publish(publish: Publish) -> Dropped
    ensures { result ≡ told_publish publish }
{
    Dropped {
        ticket: Some(publish.ticket),
        publish: Some(publish.confirm),
    }
}
