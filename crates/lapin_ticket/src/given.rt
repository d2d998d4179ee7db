//! The numbers of the tickets that were given on each channel, the oldest first: what a close or an end of the channel looks at.
//!
//! Nothing of the tickets themselves lives here. A number is let go once its ticket, and each older one of its channel, is no
//! longer open; when that is so, `ends` finds.

ghost use Rattle.std.specs.Prelude.{◌≡◌, ℕ, ◌==◌, ◌<◌, ◌≤◌, ◌++◌, ◌∷◌, [], None, Some, OnOk, drop, length, slice_get, if◌then◌else◌};
ghost use Rattle.lapin_ticket.specs.Given.{numbers_on};

use lapin_tables::ByChannel;
use lapin_types::NoMemory;
use std::alloc::Global;
use std::collections::VecDeque;
use std::marker::Model;

/// The numbers of one channel. A contract sees their list, and for how many more there is room.
#[derive(Drop)]
pub(crate) struct Numbers {
    queue: VecDeque<u64>,
}

impl Model for Numbers {
    ghost use Rattle.std.specs.Prelude.{◌-◌};
    ghost use Rattle.std.specs.VecDeque.{deque_len, deque_capacity};
    ghost use Rattle.lapin_ticket.specs.Given.{GivenOnChannel, on_channel_code};

    ghost Value = { GivenOnChannel };

    ghost coded = { on_channel_code };

    ghost view = { λ n. record { numbers = n.queue.items; spare = deque_capacity n.queue - deque_len n.queue } };
}

impl Numbers {
    fn new(alloc: Global) -> Numbers
        ensures { result.numbers ≡ [] }
    {
        Numbers {
            queue: VecDeque::new(alloc),
        }
    }

    // Makes room for one more. The first room is for one alone, since a channel mostly has no more at once.
    fn reserve(&mut self) -> Result<(), NoMemory>
        ensures room { OnOk result (0 < self.new.spare) }
        ensures same { self.new.numbers ≡ self.old.numbers }
        ensures spared { self.old.spare ≤ self.new.spare }
    {
        if self.queue.capacity() == 0 {
            self.queue.reserve_exact(1)?;
        }
        self.queue.reserve(1)?;
        Ok(())
    }

    fn push_reserved(&mut self, number: u64)
        requires { 0 < self.old.spare }
        ensures { self.new.numbers ≡ self.old.numbers ++ number ∷ [] }
    {
        self.queue.push_back_reserved(number);
    }

    fn drop_first(&mut self)
        ensures numbers { self.new.numbers ≡ drop 1 self.old.numbers }
        ensures spared { self.old.spare ≤ self.new.spare }
    {
        let _ = self.queue.pop_front();
    }

    fn at(&self, place: usize) -> Option<u64>
        ensures { result ≡ slice_get self.now.numbers place }
    {
        self.queue.get(place).copied()
    }

    fn count(&self) -> usize
        ensures { result ≡ length self.now.numbers }
    {
        self.queue.len()
    }
}

/// The numbers of all channels. A contract sees each channel that ever had one with its numbers, and the channel for whose
/// next number there is room.
#[derive(Drop)]
pub(crate) struct Given {
    channels: ByChannel<Numbers>,
    ready: Option<u16>,
}

impl Model for Given {
    ghost use Rattle.lapin_ticket.specs.Given.{GivenNumbers, given_code, IsReady};

    ghost Value = { GivenNumbers };

    ghost coded = { given_code };

    ghost view = { λ g. record { channels = g.channels.entries; ready = g.ready } };

    ghost invariant = { λ g. IsReady g.ready g.channels.entries };
}

impl Given {
    pub(crate) fn new(alloc: Global) -> Given
        ensures { result ≡ record { channels = []; ready = None } }
    {
        Given {
            channels: ByChannel::new(alloc),
            ready: None,
        }
    }

    /// Makes room for the next number of a channel. The numbers stay.
    pub(crate) fn reserve(&mut self, alloc: Global, channel: u16) -> Result<(), NoMemory>
        ensures ok { OnOk result (self.new.ready ≡ Some channel) }
        ensures same { (c : ℕ) → numbers_on c self.new.channels ≡ numbers_on c self.old.channels }
    {
        self.ready = None;
        if let Some(numbers) = self.channels.get_mut(channel) {
            numbers.reserve()?;
            self.ready = Some(channel);
            return Ok(());
        }
        let mut numbers = Numbers::new(alloc);
        numbers.reserve()?;
        self.channels.insert(channel, numbers)?;
        self.ready = Some(channel);
        Ok(())
    }

    /// Adds a number behind the others of its channel, in the room that was made.
    pub(crate) fn push(&mut self, channel: u16, number: u64)
        requires { self.old.ready ≡ Some channel }
        ensures numbers { (c : ℕ) → numbers_on c self.new.channels ≡ (if channel == c then numbers_on c self.old.channels ++ number ∷ [] else numbers_on c self.old.channels) }
        ensures ready { self.new.ready ≡ None }
    {
        self.ready = None;
        let Some(numbers) = self.channels.get_mut(channel) else {
            return;
        };
        numbers.push_reserved(number);
    }

    /// Lets the first number of a channel go.
    pub(crate) fn drop_first(&mut self, channel: u16)
        ensures numbers { (c : ℕ) → numbers_on c self.new.channels ≡ (if channel == c then drop 1 (numbers_on c self.old.channels) else numbers_on c self.old.channels) }
        ensures ready { self.new.ready ≡ self.old.ready }
    {
        let Some(numbers) = self.channels.get_mut(channel) else {
            return;
        };
        numbers.drop_first();
    }

    /// The number of a channel at a place, counted from 0.
    pub(crate) fn at(&self, channel: u16, place: usize) -> Option<u64>
        ensures { result ≡ slice_get (numbers_on channel self.now.channels) place }
    {
        self.channels.get(channel)?.at(place)
    }

    /// How many numbers a channel has.
    pub(crate) fn count(&self, channel: u16) -> usize
        ensures { result ≡ length (numbers_on channel self.now.channels) }
    {
        match self.channels.get(channel) {
            Some(numbers) => numbers.count(),
            None => 0,
        }
    }
}
