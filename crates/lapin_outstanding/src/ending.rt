//! Ends: what a close of this side rejects, what an end of an opening drops and fails, and what the connection's end does.
//!
//! Each is done whole, in the room that was made before, and takes no memory. The session calls these once it knows that a
//! close or an end has come.

ghost use Rattle.std.specs.Prelude.{◌≡◌, ◌≤◌, ◌++◌, ◌∷◌, [], false, None};
ghost use Rattle.std.specs.List.{fold};
ghost use Rattle.lapin_tables.specs.ByChannel.{on_channel};
ghost use Rattle.lapin_rules.specs.Requests.{no_requests};
ghost use Rattle.lapin_rules.specs.Drops.{no_lists, without_publishes_of, without_channel};
ghost use Rattle.lapin_outbox.specs.Outgoing.{with_lists};
ghost use Rattle.lapin_outbox.specs.Returned.{is_returned_on};
ghost use Rattle.lapin_outbox.specs.Open.{KeepsRoom};
ghost use Rattle.lapin_rules.specs.Ends.{ends, live_channels, cancels_in, cancels_at, cancels_on};
ghost use Rattle.lapin_rules.specs.TicketReadings as mark;
ghost use Rattle.lapin_ticket.specs.Slots as answers;
ghost use Rattle.lapin_rules.specs.ConfirmMarks as confirm;
ghost use Rattle.lapin_confirm.specs.Machine as confirm_state;
ghost use Rattle.lapin_outstanding.specs.Live.{live_at};
ghost use Rattle.lapin_outstanding.specs.Ended.{ended_outbox, emptied_outbox, same_but_lists, KeepsOtherRequests};
ghost use Rattle.lapin_outstanding.specs.Queued.{AreQueued, MayReject, rejected_told};

use crate::outstanding::Outstanding;
use lapin_confirm::Confirms;
use lapin_outbox::Replies;
use lapin_phases::Phases;
use lapin_rules::is_kind;
use lapin_types::{Error, ReplyKind, Request};

impl Outstanding {
    /// A close of this side: the publishes of a channel that have not begun are taken out, and their tickets and confirms fail
    /// with the error.
    pub fn reject_unbegun(&mut self, confirms: &mut Confirms, channel: u16, error: Error)
        requires queued { AreQueued confirms.old.what.publish_states.cells self.old.outbox.what.lists.publishes }
        ensures outbox { self.new.outbox.what ≡ with_lists (without_publishes_of channel self.old.outbox.what.lists) self.old.outbox.what }
        ensures slots { self.new.tickets.slots ≡ answers.after_mark self.old.tickets.slots (mark.ClosedHere channel error) }
        ensures confirms { confirms.new.what ≡ confirm_state.after_mark confirms.old.what (confirm.ClosedHere channel error) }
        ensures queued { AreQueued confirms.new.what.publish_states.cells self.new.outbox.what.lists.publishes }
        ensures requests { self.new.replies ≡ self.old.replies }
        ensures room { (self.old.outbox.spare ≤ self.new.outbox.spare) × (self.new.tickets.ready ≡ self.old.tickets.ready) }
    {
        self.take_unbegun(confirms, channel, error);
        self.tickets.close(channel, error);
    }

    /// An opening ends: nothing of its channel waits any more and none of its requests is open. A `basic.cancel` that was open is
    /// done. The other open tickets, but for one that is kept, and the confirms that are unresolved fail with the error.
    pub fn end_opening(
        &mut self,
        confirms: &mut Confirms,
        channel: u16,
        spared: Option<u64>,
        error: Error,
    )
        requires queued { AreQueued confirms.old.what.publish_states.cells self.old.outbox.what.lists.publishes }
        ensures outbox { self.new.outbox.what ≡ ended_outbox channel self.old.outbox.what }
        ensures requests { self.new.replies.what ≡ on_channel channel no_requests self.old.replies.what }
        ensures slots { self.new.tickets.slots ≡ fold answers.after_mark self.old.tickets.slots (cancels_at channel self.old.replies.what ++ mark.OpeningFailed channel spared error ∷ []) }
        ensures confirms { confirms.new.what ≡ confirm_state.after_mark confirms.old.what (confirm.Ended channel error) }
        ensures queued { AreQueued confirms.new.what.publish_states.cells self.new.outbox.what.lists.publishes }
        ensures room { (self.old.outbox.spare ≤ self.new.outbox.spare) × KeepsRoom self.old.replies self.new.replies × (self.new.tickets.ready ≡ self.old.tickets.ready) }
    {
        self.end_publishes(confirms, channel, error);
        self.drop_entries(channel);
        self.end_requests(channel);
        self.tickets.end(channel, spared, error);
    }

    /// The connection leaves the open state, or is lost: every live opening ends, in rising number of its channel, and nothing
    /// waits any more. A `basic.cancel` that was open on one is done, and every other open ticket fails with the error. `replies`
    /// is what is open from now on.
    pub fn end_all(
        &mut self,
        confirms: &mut Confirms,
        phases: &Phases,
        replies: Replies,
        error: Error,
    )
        requires queued { AreQueued confirms.old.what.publish_states.cells self.old.outbox.what.lists.publishes }
        ensures outbox { self.new.outbox.what ≡ emptied_outbox self.old.outbox.what }
        ensures requests { self.new.replies ≡ replies }
        ensures slots { self.new.tickets.slots ≡ fold answers.after_mark self.old.tickets.slots (cancels_on (live_channels phases.now.entries) self.old.replies.what ++ mark.AllFailed error ∷ []) }
        ensures confirms { confirms.new.what ≡ fold confirm_state.after_mark confirms.old.what (ends error (live_channels phases.now.entries)) }
        ensures room { (self.old.outbox.spare ≤ self.new.outbox.spare) × (self.new.tickets.ready ≡ self.old.tickets.ready) }
    {
        self.end_live(confirms, phases, error);
        self.drop_waiting();
        self.tickets.fail_all(error);
        self.replies = replies;
    }

    // The publishes of a channel that have not begun are taken out, and their confirms rejected. What a close of this side
    // makes of the confirms that are left is what it makes of all of them.
    fn take_unbegun(&mut self, confirms: &mut Confirms, channel: u16, error: Error)
        requires queued { AreQueued confirms.old.what.publish_states.cells self.old.outbox.what.lists.publishes }
        ensures outbox { self.new.outbox.what ≡ with_lists (without_publishes_of channel self.old.outbox.what.lists) self.old.outbox.what }
        ensures confirms { confirm_state.after_mark confirms.new.what (confirm.ClosedHere channel error) ≡ confirm_state.after_mark confirms.old.what (confirm.ClosedHere channel error) }
        ensures queued { AreQueued confirms.new.what.publish_states.cells self.new.outbox.what.lists.publishes }
        ensures requests { self.new.replies ≡ self.old.replies }
        ensures tickets { self.new.tickets ≡ self.old.tickets }
        ensures room { self.old.outbox.spare ≤ self.new.outbox.spare }
    {
        while let Some(dropped) = self.outbox.drop_unbegun(channel) {
            reject(confirms, dropped.publish, error);
        }
    }

    // The publishes of a channel end with its opening: those that have not begun are taken out, so that the end of the confirms
    // costs no more than it resolves.
    fn end_publishes(&mut self, confirms: &mut Confirms, channel: u16, error: Error)
        requires queued { AreQueued confirms.old.what.publish_states.cells self.old.outbox.what.lists.publishes }
        ensures outbox { self.new.outbox.what ≡ with_lists (without_publishes_of channel self.old.outbox.what.lists) self.old.outbox.what }
        ensures confirms { confirms.new.what ≡ confirm_state.after_mark confirms.old.what (confirm.Ended channel error) }
        ensures queued { AreQueued confirms.new.what.publish_states.cells self.new.outbox.what.lists.publishes }
        ensures requests { self.new.replies ≡ self.old.replies }
        ensures tickets { self.new.tickets ≡ self.old.tickets }
        ensures room { self.old.outbox.spare ≤ self.new.outbox.spare }
    {
        self.take_unbegun(confirms, channel, error);
        confirms.end(channel, error);
    }

    // Takes out every entry of a channel. A frame that was given back is let go first, and nothing is told of it: it has left.
    fn drop_entries(&mut self, channel: u16)
        ensures outbox { self.new.outbox.what ≡ ended_outbox channel self.old.outbox.what }
        ensures requests { self.new.replies ≡ self.old.replies }
        ensures tickets { self.new.tickets ≡ self.old.tickets }
        ensures room { self.old.outbox.spare ≤ self.new.outbox.spare }
    {
        self.outbox.let_go(channel);
        self.drop_waiting_on(channel);
    }

    // Takes out every entry of a channel that waits in the three lists.
    fn drop_waiting_on(&mut self, channel: u16)
        requires { is_returned_on channel self.old.outbox.what.returned ≡ false }
        ensures outbox { self.new.outbox.what ≡ with_lists (without_channel channel self.old.outbox.what.lists) self.old.outbox.what }
        ensures requests { self.new.replies ≡ self.old.replies }
        ensures tickets { self.new.tickets ≡ self.old.tickets }
        ensures room { self.old.outbox.spare ≤ self.new.outbox.spare }
    {
        while let Some(dropped) = self.outbox.drop_channel(channel) {
            drop(dropped);
        }
    }

    // Takes out every request of a channel. A `basic.cancel` among them is done.
    fn end_requests(&mut self, channel: u16)
        ensures requests { self.new.replies.what ≡ on_channel channel no_requests self.old.replies.what }
        ensures slots { self.new.tickets.slots ≡ fold answers.after_mark self.old.tickets.slots (cancels_at channel self.old.replies.what) }
        ensures outbox { self.new.outbox ≡ self.old.outbox }
        ensures room { KeepsRoom self.old.replies self.new.replies × (self.new.tickets.ready ≡ self.old.tickets.ready) }
    {
        while let Some(request) = self.replies.drain(channel) {
            self.end_request(request);
        }
    }

    // A request ends with the opening of its channel: a `basic.cancel` is done, since its consumer is gone.
    fn end_request(&mut self, request: Request)
        ensures slots { self.new.tickets.slots ≡ fold answers.after_mark self.old.tickets.slots (cancels_in (request ∷ [])) }
        ensures outbox { self.new.outbox ≡ self.old.outbox }
        ensures requests { self.new.replies ≡ self.old.replies }
        ensures room { self.new.tickets.ready ≡ self.old.tickets.ready }
    {
        if is_kind(ReplyKind::BasicCancelOk, &request) {
            self.done(request.ticket);
        }
    }

    // The publishes and the requests of every live opening end, in rising number of its channel. What else waits stays, for
    // `end_all`.
    fn end_live(&mut self, confirms: &mut Confirms, phases: &Phases, error: Error)
        requires queued { AreQueued confirms.old.what.publish_states.cells self.old.outbox.what.lists.publishes }
        ensures confirms { confirms.new.what ≡ fold confirm_state.after_mark confirms.old.what (ends error (live_channels phases.now.entries)) }
        ensures slots { self.new.tickets.slots ≡ fold answers.after_mark self.old.tickets.slots (cancels_on (live_channels phases.now.entries) self.old.replies.what) }
        ensures rest { same_but_lists self.new.outbox.what ≡ same_but_lists self.old.outbox.what }
        ensures room { (self.old.outbox.spare ≤ self.new.outbox.spare) × (self.new.tickets.ready ≡ self.old.tickets.ready) }
    {
        let reach = phases.reach();
        let mut number = 0;
        while number < reach {
            self.end_live_at(confirms, phases, number, error);
            number += 1;
        }
    }

    // The publishes and the requests of the opening of this channel end, if it has a live one.
    fn end_live_at(&mut self, confirms: &mut Confirms, phases: &Phases, number: usize, error: Error)
        requires queued { AreQueued confirms.old.what.publish_states.cells self.old.outbox.what.lists.publishes }
        ensures confirms { confirms.new.what ≡ fold confirm_state.after_mark confirms.old.what (ends error (live_at number phases.now.entries)) }
        ensures slots { self.new.tickets.slots ≡ fold answers.after_mark self.old.tickets.slots (cancels_on (live_at number phases.now.entries) self.old.replies.what) }
        ensures queued { AreQueued confirms.new.what.publish_states.cells self.new.outbox.what.lists.publishes }
        ensures others { KeepsOtherRequests number self.old.replies.what self.new.replies.what }
        ensures rest { same_but_lists self.new.outbox.what ≡ same_but_lists self.old.outbox.what }
        ensures room { (self.old.outbox.spare ≤ self.new.outbox.spare) × (self.new.tickets.ready ≡ self.old.tickets.ready) }
    {
        let Some(channel) = phases.live_at(number) else {
            return;
        };
        self.end_publishes(confirms, channel, error);
        self.end_requests(channel);
    }

    /// Takes out all that waits, and a frame that was given back. Its tickets stay open.
    pub fn drop_waiting(&mut self)
        ensures outbox { self.new.outbox.what ≡ emptied_outbox self.old.outbox.what }
        ensures replies { self.new.replies ≡ self.old.replies }
        ensures tickets { self.new.tickets ≡ self.old.tickets }
        ensures room { self.old.outbox.spare ≤ self.new.outbox.spare }
    {
        self.outbox.let_go_all();
        self.drop_lists();
    }

    // Takes out all that waits in the three lists.
    fn drop_lists(&mut self)
        requires { self.old.outbox.what.returned ≡ None }
        ensures outbox { self.new.outbox.what ≡ with_lists no_lists self.old.outbox.what }
        ensures replies { self.new.replies ≡ self.old.replies }
        ensures tickets { self.new.tickets ≡ self.old.tickets }
        ensures room { self.old.outbox.spare ≤ self.new.outbox.spare }
    {
        while self.outbox.drop_all().is_some() {}
    }
}

// Rejects the publish that a drop told of, if it told of one.
fn reject(confirms: &mut Confirms, publish: Option<u64>, error: Error)
    requires { MayReject publish confirms.old.what.publish_states.cells }
    ensures { confirms.new.what ≡ rejected_told error publish confirms.old.what }
{
    if let Some(number) = publish {
        confirms.reject(number, error);
    }
}
