//! Closes of this side, and the loss.
//!
//! A close is refused by state, then for want of numbers; then all room is made; then what the close rejects or ends is
//! resolved, and the close is queued. What is dropped and resolved stands in `lapin_outstanding`.

ghost use Rattle.std.specs.Prelude.{◌≡◌, ◌≤◌, ◌++◌, ◌∷◌, [], true, IfOk, OnOk, OnErr, length};
ghost use Rattle.std.specs.List.{fold};
ghost use Rattle.lapin_tables.specs.ByChannel.{at_channel};
ghost use Rattle.lapin_types.specs.declared.event.Event.TheVariants.{Call as CallEvent, Lost as LostEvent};
ghost use Rattle.lapin_types.specs.declared.call.Call.TheVariants.{ChannelClose, ConnectionClose};
ghost use Rattle.lapin_rules.specs.Words.{is_some, with_channel};
ghost use Rattle.lapin_rules.specs.Phases.{phase_in, is_lost as is_lost_lem};
ghost use Rattle.lapin_rules.specs.Moves.{after};
ghost use Rattle.lapin_rules.specs.ChannelClose.{failed_at_close as failed_at_close_lem};
ghost use Rattle.lapin_rules.specs.Drops.{without_publishes_of};
ghost use Rattle.lapin_outbox.specs.Outgoing.{with_lists};
ghost use Rattle.lapin_rules.specs.Ends.{ends, deliveries_ends, cancels_on, live_channels};
ghost use Rattle.lapin_delivery.specs.WithRoom.{what};
ghost use Rattle.lapin_delivery.specs.Deliveries.{after_mark as after_deliveries_mark};
ghost use Rattle.lapin_consumer.specs.WithRoom.{HasEnds};
ghost use Rattle.lapin_outstanding.specs.Live.{live_at};
ghost use Rattle.lapin_rules.specs.TicketReadings as mark;
ghost use Rattle.lapin_confirm.specs.Machine as confirm_state;
ghost use Rattle.lapin_rules.specs.ConfirmMarks as confirm_mark;
ghost use Rattle.lapin_ticket.specs.Slots as answers;
ghost use Rattle.lapin_outstanding.specs.Queued.{AreQueued};
ghost use Rattle.lapin_outstanding.specs.Ended.{emptied_outbox};
ghost use Rattle.lapin_machine.specs.World.{told_by, next};
ghost use Rattle.lapin_machine.specs.Told.{TicketTold};
ghost use Rattle.lapin_machine.specs.Numbers.{HasCause, CallCause};

use crate::channel::Ticket;
use crate::session::Session;
use lapin_confirm::Confirms;
use lapin_content::Contents;
use lapin_delivery::Deliveries;
use lapin_outbox::Replies;
use lapin_outstanding::{Outstanding, is_base, is_open};
use lapin_phases::Phases;
use lapin_rules::{ChannelMove, Closer, ConnectionMove, ConnectionPhase, failed_at_close};
use lapin_types::{
    ChannelMethod, ChannelState, ConnectionMethod, Error, Method, NoMemory, Record, Reply,
    ShortString,
};
use std::alloc::Global;

impl Session {
    /// Closes a channel (AMQP 0-9-1, `channel.close`), as `Channel::channel_close`.
    pub fn channel_close(
        &mut self,
        alloc: Global,
        channel: u16,
        reply_code: u16,
        reply_text: ShortString,
    ) -> Result<Ticket, Error>
        ensures told { TicketTold result (told_by self.old (CallEvent channel (ChannelClose reply_code reply_text))) }
        ensures ok { OnOk result (self.new ≡ next self.old (CallEvent channel (ChannelClose reply_code reply_text))) }
        ensures err { OnErr result (self.new ≡ self.old) }
        ensures cause { CallCause result channel (ChannelClose reply_code reply_text) self.old.wire }
    {
        let state = self.channel_state(channel);
        if !is_open(state) {
            return Err(Error::InvalidChannelState(state));
        }
        if self.outstanding.tickets.next_number().is_none() {
            return Err(Error::NumbersUsedUp);
        }
        self.outstanding.reserve(alloc, channel)?;
        begin_close(
            &mut self.phases,
            &mut self.outstanding,
            &mut self.confirms,
            channel,
            Closer::Application,
        );
        self.deliveries.ask_close(channel);
        let method = Method::Channel(ChannelMethod::Close {
            reply_code,
            reply_text,
            class_id: 0,
            method_id: 0,
        });
        let number = self
            .outstanding
            .queue_awaiting(alloc, channel, method, Reply::ChannelCloseOk);
        Ok(Ticket { number })
    }

    /// Closes the connection (AMQP 0-9-1, `connection.close`), with a reply code and a reply text. Every opening ends, nothing
    /// that waits leaves any more, and every open ticket fails. The ticket of this call is done at the broker's
    /// `connection.close-ok`.
    ///
    /// # Errors
    /// `InvalidChannelState` where the connection is not open, `NumbersUsedUp` where the next ticket would pass the greatest
    /// `u64`, `NoMemory`. Nothing changes then.
    pub fn connection_close(
        &mut self,
        alloc: Global,
        reply_code: u16,
        reply_text: ShortString,
    ) -> Result<Ticket, Error>
        ensures told { TicketTold result (told_by self.old (CallEvent 0 (ConnectionClose reply_code reply_text))) }
        ensures ok { OnOk result (self.new ≡ next self.old (CallEvent 0 (ConnectionClose reply_code reply_text))) }
        ensures err { OnErr result (self.new ≡ self.old) }
        ensures cause { CallCause result 0 (ConnectionClose reply_code reply_text) self.old.wire }
    {
        self.close_connection(alloc, 0, reply_code, reply_text)
    }

    // The same as an event names it, with a channel: that of the connection is the only one on which it is allowed.
    pub(crate) fn close_connection(
        &mut self,
        alloc: Global,
        channel: u16,
        reply_code: u16,
        reply_text: ShortString,
    ) -> Result<Ticket, Error>
        ensures told { TicketTold result (told_by self.old (CallEvent channel (ConnectionClose reply_code reply_text))) }
        ensures ok { OnOk result (self.new ≡ next self.old (CallEvent channel (ConnectionClose reply_code reply_text))) }
        ensures err { OnErr result (self.new ≡ self.old) }
        ensures cause { CallCause result channel (ConnectionClose reply_code reply_text) self.old.wire }
    {
        let state = self.channel_state(channel);
        if !is_base(state) {
            return Err(Error::InvalidChannelState(state));
        }
        if self.outstanding.tickets.next_number().is_none() {
            return Err(Error::NumbersUsedUp);
        }
        let mut replies = Replies::new(alloc)?;
        replies.reserve(alloc, channel)?;
        self.outstanding.reserve(alloc, channel)?;
        self.deliveries.reserve_ends(alloc)?;
        let to = self.link.after(ConnectionMove::CloseBegun);
        let error = Error::InvalidChannelState(ChannelState::Down);
        go_down(
            alloc,
            &mut self.link,
            &mut self.phases,
            &mut self.outstanding,
            &mut self.confirms,
            &mut self.contents,
            &mut self.deliveries,
            replies,
            to,
            error,
        );
        let method = Method::Connection(ConnectionMethod::Close {
            reply_code,
            reply_text,
            class_id: 0,
            method_id: 0,
        });
        let number = self
            .outstanding
            .queue_awaiting(alloc, channel, method, Reply::ConnectionCloseOk);
        Ok(Ticket { number })
    }

    /// The connection is gone without a close: nothing leaves any more, and all that is unresolved fails with
    /// `ConnectionLost`. A second loss changes nothing.
    ///
    /// # Errors
    /// `NoMemory` alone. Nothing changes then.
    pub fn lost(&mut self, alloc: Global) -> Result<(), NoMemory>
        ensures ok { OnOk result (self.new ≡ next self.old LostEvent) }
        ensures err { OnErr result (self.new ≡ self.old) }
    {
        if is_lost(self.link) {
            return Ok(());
        }
        let replies = Replies::new(alloc)?;
        self.deliveries.reserve_ends(alloc)?;
        let to = self.link.after(ConnectionMove::Lost);
        go_down(
            alloc,
            &mut self.link,
            &mut self.phases,
            &mut self.outstanding,
            &mut self.confirms,
            &mut self.contents,
            &mut self.deliveries,
            replies,
            to,
            Error::ConnectionLost,
        );
        Ok(())
    }

    pub(crate) fn step_lost(&mut self, alloc: Global) -> Result<Record, Error>
        ensures told { IfOk result (λ r. r ≡ told_by self.old LostEvent) }
        ensures ok { OnOk result (self.new ≡ next self.old LostEvent) }
        ensures err { OnErr result (self.new ≡ self.old) }
        ensures cause { HasCause result LostEvent self.old.wire }
    {
        match self.lost(alloc) {
            Ok(()) => Ok(Record::Lost),
            Err(NoMemory) => Err(Error::NoMemory),
        }
    }
}

fn is_lost(link: ConnectionPhase) -> bool
    ensures { result ≡ is_lost_lem link }
{
    matches!(link, ConnectionPhase::Lost)
}

// This side closes a channel: publishes that have not begun are rejected.
pub(crate) fn begin_close(
    phases: &mut Phases,
    outstanding: &mut Outstanding,
    confirms: &mut Confirms,
    channel: u16,
    closer: Closer,
)
    requires present { is_some (at_channel channel phases.old.entries) ≡ true }
    requires queued { AreQueued confirms.old.what.publish_states.cells outstanding.old.outbox.what.lists.publishes }
    ensures phases { phases.new.entries ≡ with_channel channel (after (phase_in (at_channel channel phases.old.entries)) (ChannelMove.CloseBegun closer)) phases.old.entries }
    ensures outbox { outstanding.new.outbox.what ≡ with_lists (without_publishes_of channel outstanding.old.outbox.what.lists) outstanding.old.outbox.what }
    ensures slots { outstanding.new.tickets.slots ≡ answers.after_mark outstanding.old.tickets.slots (mark.ClosedHere channel (failed_at_close_lem closer)) }
    ensures confirms { confirms.new.what ≡ confirm_state.after_mark confirms.old.what (confirm_mark.ClosedHere channel (failed_at_close_lem closer)) }
    ensures queued { AreQueued confirms.new.what.publish_states.cells outstanding.new.outbox.what.lists.publishes }
    ensures requests { outstanding.new.replies ≡ outstanding.old.replies }
    ensures room { (outstanding.old.outbox.spare ≤ outstanding.new.outbox.spare) × (outstanding.new.tickets.ready ≡ outstanding.old.tickets.ready) }
    ensures counts { (length outstanding.new.tickets.slots ≡ length outstanding.old.tickets.slots) × (length confirms.new.what.publish_states.cells ≡ length confirms.old.what.publish_states.cells) }
{
    outstanding.reject_unbegun(confirms, channel, failed_at_close(closer));
    phases.go(channel, ChannelMove::CloseBegun(closer));
}

// The connection leaves the open state, or is lost: every live opening ends and no channel stands open, nothing waits any more,
// every open ticket fails but the cancels, no content is expected, and every consumer gets the error and its end, in the room that
// was made.
pub(crate) fn go_down(
    alloc: Global,
    link: &mut ConnectionPhase,
    phases: &mut Phases,
    outstanding: &mut Outstanding,
    confirms: &mut Confirms,
    contents: &mut Contents,
    deliveries: &mut Deliveries,
    replies: Replies,
    to: ConnectionPhase,
    error: Error,
)
    requires queued { AreQueued confirms.old.what.publish_states.cells outstanding.old.outbox.what.lists.publishes }
    requires ends { HasEnds deliveries.old.consumers }
    ensures link { link.new ≡ to }
    ensures phases { phases.new.entries ≡ [] }
    ensures outbox { outstanding.new.outbox.what ≡ emptied_outbox outstanding.old.outbox.what }
    ensures slots { outstanding.new.tickets.slots ≡ fold answers.after_mark outstanding.old.tickets.slots (cancels_on (live_channels phases.old.entries) outstanding.old.replies.what ++ mark.AllFailed error ∷ []) }
    ensures confirms { confirms.new.what ≡ fold confirm_state.after_mark confirms.old.what (ends error (live_channels phases.old.entries)) }
    ensures contents { contents.new ≡ [] }
    ensures deliveries { what deliveries.new ≡ fold after_deliveries_mark (what deliveries.old) (deliveries_ends error (live_channels phases.old.entries)) }
    ensures requests { outstanding.new.replies ≡ replies }
    ensures room { (outstanding.old.outbox.spare ≤ outstanding.new.outbox.spare) × (outstanding.new.tickets.ready ≡ outstanding.old.tickets.ready) }
    ensures counts { (length outstanding.new.tickets.slots ≡ length outstanding.old.tickets.slots) × (length confirms.new.what.publish_states.cells ≡ length confirms.old.what.publish_states.cells) }
{
    end_consumers(alloc, deliveries, phases, error);
    outstanding.end_all(confirms, phases, replies, error);
    phases.clear();
    contents.drop_all();
    *link = to;
}

// The consumers of every live opening get the error and their end, in rising number of its channel.
fn end_consumers(alloc: Global, deliveries: &mut Deliveries, phases: &Phases, error: Error)
    requires { HasEnds deliveries.old.consumers }
    ensures { what deliveries.new ≡ fold after_deliveries_mark (what deliveries.old) (deliveries_ends error (live_channels phases.now.entries)) }
{
    let reach = phases.reach();
    let mut number = 0;
    while number < reach {
        end_consumers_at(alloc, deliveries, phases, number, error);
        number += 1;
    }
}

// The consumers of the opening of this channel, if it has a live one.
fn end_consumers_at(
    alloc: Global,
    deliveries: &mut Deliveries,
    phases: &Phases,
    number: usize,
    error: Error,
)
    requires { HasEnds deliveries.old.consumers }
    ensures ended { what deliveries.new ≡ fold after_deliveries_mark (what deliveries.old) (deliveries_ends error (live_at number phases.now.entries)) }
    ensures room { HasEnds deliveries.new.consumers }
{
    let Some(channel) = phases.live_at(number) else {
        return;
    };
    deliveries.end(alloc, channel, Some(error));
}
