//! How the publisher tends channel 1 of the present session: it polls its outstanding publishes, opens the channel, selects confirms,
//! and publishes what waits, each where the state allows it.

ghost use Rattle.std.specs.Prelude.{◌≡◌, ◌+◌, ◌<◌, ◌≤◌, ◌^◌, true, false, IfOk, OnOk, length, map};
ghost use Rattle.lapin_types.specs.declared.event.Event.TheVariants as event_;
ghost use Rattle.lapin_joint.specs.Joint.{is_lawful};
ghost use Rattle.lapin_resend.specs.Publisher.{poll_one as poll_one_lem, publish_one as publish_one_lem};
ghost use Rattle.lapin_resend.specs.Messages.{waits};
ghost use Rattle.lapin_rules.specs.Wire.{state_of, is_open as is_open_lem, is_closed as is_closed_lem};
ghost use Rattle.lapin_resend.specs.Publisher.{after_polls, after_opening, after_selecting, after_publishing, tended};
ghost use Rattle.lapin_resend.specs.Tending.{GoesTo};
ghost use Rattle.lapin_resend.specs.Follows.{standing, place as place_lem, confirm_report, Tells, Meets, MeetEach};

use crate::message::Submitted;
use lapin_joint::{Joined, Reported, Step};
use lapin_types::{Call, ChannelState, ConfirmSelectOptions, Event, NoMemory, Record};
use std::alloc::Global;

/// The channel that messages are published on.
const CHANNEL: u16 = 1;

/// A joined run, and the messages that weren't stored before the present step, in rising number. So a step walks over those alone.
#[derive(Drop)]
pub(crate) struct Publisher {
    pub(crate) joined: Joined,
    pub(crate) messages: Vec<Submitted>,
    // Whether the present opening had a call of `confirm.select`.
    pub(crate) selects: bool,
}

impl Publisher {
    /// Tends the channel.
    pub(crate) fn tend(&mut self, alloc: Global) -> Result<(), NoMemory>
        requires { self.old.joined.steps + (length self.old.messages.items + length self.old.messages.items + 2) < 2 ^ 64 }
        ensures goes { OnOk result (GoesTo tended self.old self.new) }
        ensures steps { OnOk result (self.new.joined.steps ≤ self.old.joined.steps + (length self.old.messages.items + length self.old.messages.items + 2)) }
        ensures len { OnOk result (length self.new.messages.items ≡ length self.old.messages.items) }
        ensures places { OnOk result (map place_lem self.new.messages.items ≡ map place_lem self.old.messages.items) }
    {
        self.poll(alloc)?;
        self.open(alloc)?;
        self.select(alloc)?;
        self.publish(alloc)
    }

    // Polls what is outstanding.
    fn poll(&mut self, alloc: Global) -> Result<(), NoMemory>
        requires { self.old.joined.steps + length self.old.messages.items < 2 ^ 64 }
        ensures goes { OnOk result (GoesTo after_polls self.old self.new) }
        ensures steps { OnOk result (self.new.joined.steps ≤ self.old.joined.steps + length self.old.messages.items) }
        ensures len { OnOk result (length self.new.messages.items ≡ length self.old.messages.items) }
        ensures places { OnOk result (map place_lem self.new.messages.items ≡ map place_lem self.old.messages.items) }
    {
        poll_all(alloc, &mut self.joined, &mut self.messages)
    }

    // Publishes what waits, where the channel is open.
    fn publish(&mut self, alloc: Global) -> Result<(), NoMemory>
        requires { self.old.joined.steps + length self.old.messages.items < 2 ^ 64 }
        ensures goes { OnOk result (GoesTo after_publishing self.old self.new) }
        ensures steps { OnOk result (self.new.joined.steps ≤ self.old.joined.steps + length self.old.messages.items) }
        ensures len { OnOk result (length self.new.messages.items ≡ length self.old.messages.items) }
        ensures places { OnOk result (map place_lem self.new.messages.items ≡ map place_lem self.old.messages.items) }
    {
        if self.is_open() {
            publish_all(alloc, &mut self.joined, &mut self.messages)
        } else {
            Ok(())
        }
    }

    // Whether the channel is open. While the connection isn't open it is down.
    fn is_open(&self) -> bool
        ensures { result ≡ is_open_lem (state_of 1 self.now.joined.joint.session.wire) }
    {
        matches!(
            self.joined.session().channel_state(CHANNEL),
            ChannelState::Open
        )
    }

    // Whether the channel is closed. While the connection isn't open it is down.
    fn is_closed(&self) -> bool
        ensures { result ≡ is_closed_lem (state_of 1 self.now.joined.joint.session.wire) }
    {
        matches!(
            self.joined.session().channel_state(CHANNEL),
            ChannelState::Closed
        )
    }

    // Opens the channel where it is closed.
    fn open(&mut self, alloc: Global) -> Result<(), NoMemory>
        requires { self.old.joined.steps + 1 < 2 ^ 64 }
        ensures goes { OnOk result (GoesTo after_opening self.old self.new) }
        ensures steps { OnOk result (self.new.joined.steps ≤ self.old.joined.steps + 1) }
        ensures len { OnOk result (self.new.messages ≡ self.old.messages) }
    {
        if self.is_closed() {
            self.selects = false;
            drop(call(alloc, &mut self.joined, Call::OpenChannel)?);
        }
        Ok(())
    }

    // Selects confirms, without wait, where the channel is open and its opening had no such call.
    fn select(&mut self, alloc: Global) -> Result<(), NoMemory>
        requires { self.old.joined.steps + 1 < 2 ^ 64 }
        ensures goes { OnOk result (GoesTo after_selecting self.old self.new) }
        ensures steps { OnOk result (self.new.joined.steps ≤ self.old.joined.steps + 1) }
        ensures len { OnOk result (self.new.messages ≡ self.old.messages) }
    {
        if !self.selects && self.is_open() {
            self.selects = true;
            let options = ConfirmSelectOptions { nowait: true };
            drop(call(alloc, &mut self.joined, Call::ConfirmSelect { options })?);
        }
        Ok(())
    }
}

// An event of the client.
fn event(alloc: Global, joined: &mut Joined, event: Event) -> Result<Reported, NoMemory>
    requires steps { joined.old.steps + 1 < 2 ^ 64 }
    requires lawful { is_lawful event ≡ true }
    ensures told { IfOk result (λ r. Tells event joined.old joined.new r) }
    ensures steps { OnOk result (joined.new.steps ≡ joined.old.steps + 1) }
    ensures running { OnOk result (joined.new.stopped ≡ false) }
{
    match joined.step(alloc, Step::Client(event)) {
        Ok(report) => Ok(report),
        Err(_) => Err(NoMemory),
    }
}

// A call on the channel.
fn call(alloc: Global, joined: &mut Joined, call: Call) -> Result<Reported, NoMemory>
    requires { joined.old.steps + 1 < 2 ^ 64 }
    ensures told { IfOk result (λ r. Tells (event_.Call 1 call) joined.old joined.new r) }
    ensures steps { OnOk result (joined.new.steps ≡ joined.old.steps + 1) }
    ensures running { OnOk result (joined.new.stopped ≡ false) }
{
    event(alloc, joined, Event::Call(CHANNEL, call))
}

// Polls the confirm of each message that has an outstanding publish, in rising number.
fn poll_all(
    alloc: Global,
    joined: &mut Joined,
    messages: &mut Vec<Submitted>,
) -> Result<(), NoMemory>
    requires { joined.old.steps + length messages.old.items < 2 ^ 64 }
    ensures met { OnOk result (MeetEach poll_one_lem joined.old joined.new messages.old.items messages.new.items) }
    ensures steps { OnOk result (joined.new.steps ≤ joined.old.steps + length messages.old.items) }
    ensures running { OnOk result (joined.old.stopped ≡ false → joined.new.stopped ≡ false) }
    ensures len { OnOk result (length messages.new.items ≡ length messages.old.items) }
    ensures places { OnOk result (map place_lem messages.new.items ≡ map place_lem messages.old.items) }
{
    for submitted in messages.iter_mut() {
        poll_one(alloc, joined, submitted)?;
    }
    Ok(())
}

fn poll_one(alloc: Global, joined: &mut Joined, submitted: &mut Submitted) -> Result<(), NoMemory>
    requires { joined.old.steps + 1 < 2 ^ 64 }
    ensures met { OnOk result (Meets poll_one_lem joined.old joined.new submitted.old submitted.new) }
    ensures place { submitted.new.place ≡ submitted.old.place }
    ensures steps { OnOk result (joined.new.steps ≤ joined.old.steps + 1) }
    ensures running { OnOk result (joined.old.stopped ≡ false → joined.new.stopped ≡ false) }
{
    let Some(confirm) = submitted.outstanding else {
        return Ok(());
    };
    let report = event(alloc, joined, Event::PollConfirm(confirm))?;
    submitted.poll(&report);
    drop(report);
    Ok(())
}

// Publishes each message that waits, in rising number.
fn publish_all(
    alloc: Global,
    joined: &mut Joined,
    messages: &mut Vec<Submitted>,
) -> Result<(), NoMemory>
    requires { joined.old.steps + length messages.old.items < 2 ^ 64 }
    ensures met { OnOk result (MeetEach publish_one_lem joined.old joined.new messages.old.items messages.new.items) }
    ensures steps { OnOk result (joined.new.steps ≤ joined.old.steps + length messages.old.items) }
    ensures running { OnOk result (joined.old.stopped ≡ false → joined.new.stopped ≡ false) }
    ensures len { OnOk result (length messages.new.items ≡ length messages.old.items) }
    ensures places { OnOk result (map place_lem messages.new.items ≡ map place_lem messages.old.items) }
{
    for submitted in messages.iter_mut() {
        publish_waiting(alloc, joined, submitted)?;
    }
    Ok(())
}

fn publish_waiting(
    alloc: Global,
    joined: &mut Joined,
    submitted: &mut Submitted,
) -> Result<(), NoMemory>
    requires { joined.old.steps + 1 < 2 ^ 64 }
    ensures met { OnOk result (Meets publish_one_lem joined.old joined.new submitted.old submitted.new) }
    ensures place { submitted.new.place ≡ submitted.old.place }
    ensures steps { OnOk result (joined.new.steps ≤ joined.old.steps + 1) }
    ensures running { OnOk result (joined.old.stopped ≡ false → joined.new.stopped ≡ false) }
{
    if submitted.waits() {
        publish_one(alloc, joined, submitted)
    } else {
        Ok(())
    }
}

fn publish_one(
    alloc: Global,
    joined: &mut Joined,
    submitted: &mut Submitted,
) -> Result<(), NoMemory>
    requires steps { joined.old.steps + 1 < 2 ^ 64 }
    requires waits { waits (standing submitted.old) ≡ true }
    ensures met { OnOk result (Meets publish_one_lem joined.old joined.new submitted.old submitted.new) }
    ensures place { submitted.new.place ≡ submitted.old.place }
    ensures steps { OnOk result (joined.new.steps ≤ joined.old.steps + 1) }
    ensures running { OnOk result (joined.new.stopped ≡ false) }
{
    let publish = submitted.message.publish(alloc)?;
    let report = call(alloc, joined, publish)?;
    submitted.outstanding = confirm_in(&report);
    drop(report);
    Ok(())
}

// The number of the publish that was accepted.
fn confirm_in(report: &Reported) -> Option<u64>
    ensures { result ≡ confirm_report report.now }
{
    match report {
        Reported::Client(Record::Publish { ticket: _, confirm }) => Some(*confirm),
        _ => None,
    }
}
