//! The registered consumers of one channel: their places as they rise, and the place of each under its tag.
//!
//! The tags are hashed: one is found, joins and leaves in the same time, however many consumers the channel has. A place outlives its
//! consumer's registration: the places of those that left are dropped together, once they are more than the others or all are walked.

ghost use Rattle.std.specs.Prelude.{◌≡◌, OnOk, [], Some, ◌≢◌, ℕ, string_bytes};
ghost use Rattle.lapin_tables.specs.ByChannel.{at_channel};
ghost use Rattle.lapin_consumer.specs.Indexed.{tagged_in, HasLineRoom, HasJoined, HasLeft, NamesSame, NamesNobody, Lists, Indexed};
ghost use Rattle.lapin_consumer.specs.Subscriptions.{is_on};
ghost use Rattle.lapin_consumer.specs.Words.{places_at};

use crate::hall::Hall;
use lapin_tables::ByChannel;
use std::alloc::{AllocError, Global};
use std::collections::HashMap;
use std::marker::Model;

/// The places of a channel's registered consumers, twice. Contracts see them, and the room beside them.
#[derive(Drop)]
pub(crate) struct Line {
    // Rising, with some of consumers that left.
    places: Vec<usize>,
    // Each under its consumer's tag.
    tags: HashMap<String, usize>,
}

impl Model for Line {
    ghost use Rattle.std.specs.Prelude.{◌-◌, vec_len, vec_capacity};
    ghost use Rattle.std.specs.HashMap.{spare};
    ghost use Rattle.lapin_consumer.specs.Indexed.{Line, by_text};

    ghost Value = { Line };

    ghost view = { λ a. record {
      places = a.places.items;
      tags = by_text a.tags.entries;
      place_spare = vec_capacity a.places - vec_len a.places;
      tag_spare = spare a.tags;
    } };
}

impl Line {
    pub(crate) fn new(alloc: Global) -> Line
        ensures places { result.places ≡ [] }
        ensures tags { result.tags ≡ [] }
    {
        Line {
            places: Vec::new(alloc),
            tags: HashMap::new(alloc),
        }
    }

    /// The places, rising.
    pub(crate) fn as_slice(&self) -> &[usize]
        ensures { result.now ≡ self.now.places }
    {
        self.places.as_slice()
    }

    /// The place under a tag.
    pub(crate) fn find(&self, tag: &str) -> Option<usize>
        ensures { result ≡ tagged_in tag.now (Some self.now) }
    {
        self.tags.get(tag).copied()
    }

    /// Makes room for one more. The places stay, also where there is no memory.
    pub(crate) fn reserve(&mut self) -> Result<(), AllocError>
        ensures room { OnOk result (HasLineRoom (Some self.new)) }
        ensures same { NamesSame (Some self.old) (Some self.new) }
    {
        self.places.reserve(1)?;
        self.tags.reserve(1)
    }

    /// Takes out a tag. The place that was under it is dropped later.
    fn leave(&mut self, tag: &str)
        ensures { HasLeft tag.now (Some self.old) (Some self.new) }
    {
        let _ = self.tags.remove(tag);
    }

    /// Adds a place above the others, under a tag, also where another one was under it.
    fn join(&mut self, place: usize, tag: String)
        requires { HasLineRoom (Some self.old) }
        ensures { HasJoined place (string_bytes tag) (Some self.old) (Some self.new) }
    {
        self.places.push_reserved(place);
        let _ = self.tags.insert(tag, place);
    }

    /// Drops the places of the channel's consumers that left.
    pub(crate) fn sweep(&mut self, channel: u16, hall: &Hall)
        requires { Lists channel hall.now.subscriptions.consumers self.old.places }
        ensures places { self.new.places ≡ places_at (λ _ x. is_on channel x) hall.now.subscriptions.consumers }
        ensures tags { self.new.tags ≡ self.old.tags }
    {
        self.places.retain(|place| hall.is_on(channel, *place));
    }

    /// Drops the places of the channel's consumers that left, once they are more than the others. So a leaving costs the same however
    /// many stay.
    fn thin(&mut self, channel: u16, hall: &Hall)
        requires { Lists channel hall.now.subscriptions.consumers self.old.places }
        ensures places { Lists channel hall.now.subscriptions.consumers self.new.places }
        ensures tags { self.new.tags ≡ self.old.tags }
    {
        if self.places.len() / 2 > self.tags.len() {
            self.sweep(channel, hall);
        }
    }

    pub(crate) fn clear(&mut self)
        ensures { NamesNobody (Some self.new) }
    {
        self.places.clear();
        self.tags.clear();
    }
}

/// Makes room for one more registered consumer of a channel. The places stay, also where there is no memory.
pub(crate) fn make_line_room(
    lines: &mut ByChannel<Line>,
    alloc: Global,
    channel: u16,
) -> Result<(), AllocError>
    ensures same { (c : ℕ) → NamesSame (at_channel c lines.old.entries) (at_channel c lines.new.entries) }
    ensures room { OnOk result (HasLineRoom (at_channel channel lines.new.entries)) }
{
    let Some(line) = lines.get_mut(channel) else {
        let mut line = Line::new(alloc);
        line.reserve()?;
        lines.insert(channel, line)?;
        return Ok(());
    };
    line.reserve()
}

/// A consumer joins its channel's line under its tag, above the others.
pub(crate) fn join(lines: &mut ByChannel<Line>, channel: u16, place: usize, tag: String)
    requires { HasLineRoom (at_channel channel lines.old.entries) }
    ensures here { HasJoined place (string_bytes tag) (at_channel channel lines.old.entries) (at_channel channel lines.new.entries) }
    ensures others { (c : ℕ) → channel ≢ c → at_channel c lines.new.entries ≡ at_channel c lines.old.entries }
{
    let Some(line) = lines.get_mut(channel) else {
        unreachable!()
    };
    line.join(place, tag);
}

/// The consumer under a tag leaves its channel's line.
pub(crate) fn leave(lines: &mut ByChannel<Line>, channel: u16, tag: &str)
    ensures here { HasLeft tag.now (at_channel channel lines.old.entries) (at_channel channel lines.new.entries) }
    ensures others { (c : ℕ) → channel ≢ c → at_channel c lines.new.entries ≡ at_channel c lines.old.entries }
{
    let Some(line) = lines.get_mut(channel) else {
        return;
    };
    line.leave(tag);
}

/// Drops the places of a channel's consumers that left, once they are more than the others.
pub(crate) fn thin(lines: &mut ByChannel<Line>, channel: u16, hall: &Hall)
    requires { Indexed lines.old.entries hall.now.subscriptions.consumers }
    ensures { Indexed lines.new.entries hall.now.subscriptions.consumers }
{
    let Some(line) = lines.get_mut(channel) else {
        return;
    };
    line.thin(channel, hall);
}

/// No consumer of a channel is listed any more.
pub(crate) fn clear(lines: &mut ByChannel<Line>, channel: u16)
    ensures here { NamesNobody (at_channel channel lines.new.entries) }
    ensures others { (c : ℕ) → channel ≢ c → at_channel c lines.new.entries ≡ at_channel c lines.old.entries }
{
    let Some(line) = lines.get_mut(channel) else {
        return;
    };
    line.clear();
}
