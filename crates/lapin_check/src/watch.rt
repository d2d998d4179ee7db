//! A broker that follows a transcript, frame by frame, with the account of what it numbered.

ghost use Rattle.std.specs.Prelude.{◌≡◌, ◌≢◌, ◌<◌, ◌+◌, ◌++◌, [], ◌∷◌, ℕ, suc, true, false, length, nat_lt, if◌then◌else◌, IfOk, OnOk, IfSome, IfNone, Option, Some, None};
ghost use Rattle.lapin_broker.specs.Reads.{read as read_lem};
ghost use Rattle.lapin_broker.specs.Sends.{may, send as send_lem};
ghost use Rattle.lapin_broker.specs.States.{is_broken};
ghost use Rattle.lapin_broker.specs.Frames.{channel_of as channel_of_lem};
ghost use Rattle.lapin_check.specs.declared.seen.Seen.TheVariants as seen;
ghost use Rattle.lapin_check.specs.Openings.{opens as opens_lem};
ghost use Rattle.lapin_check.specs.Account.{numbered as numbered_lem};
ghost use Rattle.lapin_check.specs.Marks.{count_at, with_count, counted_by, account_after, new_watch, IsAfter};
ghost use Rattle.lapin_check.specs.Pointing.{IsKept, AreFound, AreSettledBy, places_of, emptied, joined_by};
ghost use Rattle.lapin_check.specs.Finding.{fits, fault};

use crate::account::Counted;
use crate::breaking::break_rule;
use crate::finding::Finding;
use crate::refusing::send_rule;
use crate::seen::{Seen, Settlement, settlement_of};
use crate::unsettled::{Unsettled, add, begin, settle};
use lapin_broker::frames::{channel_of, client_frame};
use lapin_broker::{Broker, BrokerState, PeerState};
use lapin_tables::ByChannel;
use lapin_types::{Frame, NoMemory};
use std::alloc::Global;
use std::marker::Model;

/// A broker, how many `channel.open` of each channel it read, and where the publishes of each one's present opening stand in the account.
pub(crate) struct Watch {
    broker: Broker,
    opens: ByChannel<u64>,
    unsettled: Unsettled,
}

impl Drop for Watch {
    fn drop(self) {
        let Watch {
            broker: _,
            opens: _,
            unsettled: _,
        } = self;
    }
}

impl Model for Watch {
    ghost use Rattle.lapin_check.specs.Marks.{Watch};

    ghost Value = { Watch };

    ghost view = { λ a. record { broker = a.broker; opens = a.opens.entries; unsettled = a.unsettled.entries } };
}

impl Watch {
    /// A new broker, which read nothing.
    pub(crate) fn new(alloc: Global, frame_max: u32) -> Result<Watch, NoMemory>
        ensures { IfOk result (λ made. made ≡ new_watch frame_max) }
    {
        Ok(Watch {
            broker: Broker::new(alloc, frame_max)?,
            opens: ByChannel::new(alloc),
            unsettled: ByChannel::new(alloc),
        })
    }

    /// Takes what is seen at a place: the broker reads or sends it, and the account goes on. What is wrong with it, if anything is;
    /// the account then stays.
    ///
    /// # Errors
    /// `NoMemory` alone. The watch is then of no use.
    pub(crate) fn take(
        &mut self,
        alloc: Global,
        seen: &Seen,
        place: u64,
        account: &mut Vec<Counted>,
    ) -> Result<Option<Finding>, NoMemory>
        requires { (p : ℕ) × (place ≡ suc p) × IsKept p self.old account.old.items }
        ensures fine { IfOk result (λ o. IfNone o (fits self.old.broker seen.now ≡ true)) }
        ensures after { IfOk result (λ o. IfNone o (IsAfter seen.now self.old self.new)) }
        ensures account { IfOk result (λ o. IfNone o (account.new.items ≡ account_after place seen.now self.old account.old.items)) }
        ensures kept { IfOk result (λ o. IfNone o (IsKept place self.new account.new.items)) }
        ensures wrong { IfOk result (λ o. IfSome o (λ f. (fits self.old.broker seen.now ≡ false) × (f ≡ fault place self.old.broker seen.now))) }
        ensures same { IfOk result (λ o. IfSome o (λ f. account.new.items ≡ account.old.items)) }
    {
        match seen {
            Seen::Up(frame) => self.read(alloc, frame, place, account),
            Seen::Down(frame) => self.send(alloc, frame, place, account),
        }
    }

    // The broker reads a frame. A publish that it numbers joins the account.
    fn read(
        &mut self,
        alloc: Global,
        frame: &Frame,
        place: u64,
        account: &mut Vec<Counted>,
    ) -> Result<Option<Finding>, NoMemory>
        requires { (p : ℕ) × (place ≡ suc p) × IsKept p self.old account.old.items }
        ensures fine { IfOk result (λ o. IfNone o (is_broken (read_lem self.old.broker frame.now).connection ≡ false)) }
        ensures after { IfOk result (λ o. IfNone o (IsAfter (seen.Up frame.now) self.old self.new)) }
        ensures account { IfOk result (λ o. IfNone o (account.new.items ≡ account_after place (seen.Up frame.now) self.old account.old.items)) }
        ensures kept { IfOk result (λ o. IfNone o (IsKept place self.new account.new.items)) }
        ensures wrong { IfOk result (λ o. IfSome o (λ f. (is_broken (read_lem self.old.broker frame.now).connection ≡ true) × (f ≡ fault place self.old.broker (seen.Up frame.now)))) }
        ensures same { IfOk result (λ o. IfSome o (λ f. account.new.items ≡ account.old.items)) }
    {
        let channel = channel_of(frame);
        let opens = self.opens(frame, channel);
        let rule = break_rule(&self.broker, frame);
        let before = self.broker.numbered(channel);
        self.broker.read(alloc, frame)?;
        if self.broker.broken() {
            return Ok(Some(Finding::Broken { place, rule }));
        }
        self.open_by(alloc, opens, channel, place)?;
        self.number_by(alloc, before, channel, place, account)?;
        Ok(None)
    }

    // Whether a frame on a channel opens it.
    fn opens(&self, frame: &Frame, channel: u16) -> bool
        requires { channel ≡ channel_of_lem frame.now }
        ensures { result ≡ opens_lem self.now.broker frame.now }
    {
        client_frame(frame).is_open()
            && matches!(self.broker.state(), BrokerState::Up)
            && matches!(self.broker.channel_state(channel), PeerState::Free)
    }

    // How many opens of a channel were read.
    fn opened(&self, channel: u16) -> u64
        ensures { result ≡ count_at channel self.now.opens }
    {
        match self.opens.get(channel) {
            Some(count) => *count,
            None => 0,
        }
    }

    // Where the channel was opened, that is counted, and nothing is kept of its opening before.
    fn open_by(
        &mut self,
        alloc: Global,
        opens: bool,
        channel: u16,
        place: u64,
    ) -> Result<(), NoMemory>
        requires { count_at channel self.old.opens < place }
        ensures broker { OnOk result (self.new.broker ≡ self.old.broker) }
        ensures opens { OnOk result (self.new.opens ≡ (if opens then with_count channel self.old.opens else self.old.opens)) }
        ensures here { OnOk result (places_of channel self.new.unsettled ≡ emptied opens (places_of channel self.old.unsettled)) }
        ensures others { OnOk result ((d : ℕ) → d ≢ channel → places_of d self.new.unsettled ≡ places_of d self.old.unsettled) }
    {
        if opens {
            begin(alloc, &mut self.unsettled, channel);
            self.count(channel, place)
        } else {
            Ok(())
        }
    }

    // An open of a channel was read, at a place behind the others.
    fn count(&mut self, channel: u16, place: u64) -> Result<(), NoMemory>
        requires { count_at channel self.old.opens < place }
        ensures broker { OnOk result (self.new.broker ≡ self.old.broker) }
        ensures opens { OnOk result (self.new.opens ≡ with_count channel self.old.opens) }
        ensures same { OnOk result (self.new.unsettled ≡ self.old.unsettled) }
    {
        if let Some(count) = self.opens.get_mut(channel) {
            *count += 1;
            return Ok(());
        }
        self.opens.insert(channel, 1)?;
        Ok(())
    }

    // Where the broker has numbered more publishes of the channel than these, the last one joins the account.
    fn number_by(
        &mut self,
        alloc: Global,
        before: u64,
        channel: u16,
        place: u64,
        account: &mut Vec<Counted>,
    ) -> Result<(), NoMemory>
        requires { length (places_of channel self.old.unsettled) < place }
        ensures broker { OnOk result (self.new.broker ≡ self.old.broker) }
        ensures opens { OnOk result (self.new.opens ≡ self.old.opens) }
        ensures account { OnOk result (account.new.items ≡ (if nat_lt before (numbered_lem channel self.old.broker) then account.old.items ++ counted_by place channel self.old.broker self.old.opens ∷ [] else account.old.items)) }
        ensures here { OnOk result (places_of channel self.new.unsettled ≡ joined_by (nat_lt before (numbered_lem channel self.old.broker)) (length account.old.items) (places_of channel self.old.unsettled)) }
        ensures others { OnOk result ((d : ℕ) → d ≢ channel → places_of d self.new.unsettled ≡ places_of d self.old.unsettled) }
    {
        let number = self.broker.numbered(channel);
        if before < number {
            add(alloc, &mut self.unsettled, channel, account.len())?;
            account.push(Counted {
                channel,
                opening: self.opened(channel),
                number,
                place,
                settled: None,
            })?;
            Ok(())
        } else {
            Ok(())
        }
    }

    // The broker sends a frame, where it may. A settlement settles what it covers.
    fn send(
        &mut self,
        alloc: Global,
        frame: &Frame,
        place: u64,
        account: &mut Vec<Counted>,
    ) -> Result<Option<Finding>, NoMemory>
        requires { (p : ℕ) × (place ≡ suc p) × IsKept p self.old account.old.items }
        ensures fine { IfOk result (λ o. IfNone o (may self.old.broker frame.now ≡ true)) }
        ensures after { IfOk result (λ o. IfNone o (IsAfter (seen.Down frame.now) self.old self.new)) }
        ensures account { IfOk result (λ o. IfNone o (account.new.items ≡ account_after place (seen.Down frame.now) self.old account.old.items)) }
        ensures kept { IfOk result (λ o. IfNone o (IsKept place self.new account.new.items)) }
        ensures wrong { IfOk result (λ o. IfSome o (λ f. (may self.old.broker frame.now ≡ false) × (f ≡ fault place self.old.broker (seen.Down frame.now)))) }
        ensures same { IfOk result (λ o. IfSome o (λ f. account.new.items ≡ account.old.items)) }
    {
        if !self.broker.may_send(frame) {
            let rule = send_rule(&self.broker, frame);
            return Ok(Some(Finding::NotAllowed { place, rule }));
        }
        self.broker.send(alloc, frame)?;
        self.settle_by(settlement_of(frame), place, account);
        Ok(None)
    }

    // What a settlement covers is settled, if one was sent.
    fn settle_by(&mut self, settlement: Option<Settlement>, place: u64, account: &mut Vec<Counted>)
        requires { AreFound settlement self.old account.old.items }
        ensures broker { self.new.broker ≡ self.old.broker }
        ensures opens { self.new.opens ≡ self.old.opens }
        ensures settled { AreSettledBy settlement place self.old self.new account.old.items account.new.items }
    {
        if let Some(settlement) = settlement {
            let opening = self.opened(settlement.channel);
            settle(&mut self.unsettled, settlement, opening, place, account);
        }
    }
}
