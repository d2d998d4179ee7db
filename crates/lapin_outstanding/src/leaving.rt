//! A frame leaves: what that does to confirms, tickets, channels and the connection, beside each other.
//!
//! Which frame leaves is the outbox's to say, and when one is asked for the session's.

ghost use Rattle.std.specs.Prelude.{◌≡◌, Some};
ghost use Rattle.std.specs.List.{fold};
ghost use Rattle.lapin_rules.specs.ConnectionClose.{link_sent};
ghost use Rattle.lapin_rules.specs.ChannelClose.{phases_sent};
ghost use Rattle.lapin_rules.specs.Handing.{left_marks, left_tickets, frame_marks};
ghost use Rattle.lapin_ticket.specs.Slots as answers;
ghost use Rattle.lapin_confirm.specs.Machine as confirm_state;
ghost use Rattle.lapin_outstanding.specs.Queued.{CanRegister};

use crate::outstanding::Outstanding;
use crate::states::{link_left, phases_left};
use lapin_confirm::Confirms;
use lapin_phases::Phases;
use lapin_rules::ConnectionPhase;
use lapin_types::{ConfirmMethod, Frame, Left, Method};

/// A frame leaves: the first `confirm.select` of an opening selects, the method frame of a publish takes a tag, tickets are answered
/// by their last frame, and a close is known to have left.
#[inline(never)]
pub fn leaves(
    confirms: &mut Confirms,
    outstanding: &mut Outstanding,
    link: &mut ConnectionPhase,
    phases: &mut Phases,
    left: &Left,
)
    requires { CanRegister left.now confirms.old.what.publish_states.cells }
    ensures confirms { confirms.new.what ≡ fold confirm_state.after_mark confirms.old.what (left_marks (Some left.now)) }
    ensures slots { outstanding.new.tickets.slots ≡ fold answers.after_mark outstanding.old.tickets.slots (left_tickets (Some left.now)) }
    ensures outbox { outstanding.new.outbox ≡ outstanding.old.outbox }
    ensures replies { outstanding.new.replies ≡ outstanding.old.replies }
    ensures link { link.new ≡ link_sent left.now.frame link.old }
    ensures phases { phases.new.entries ≡ phases_sent left.now.frame phases.old.entries }
{
    confirms_left(confirms, left);
    outstanding.leave(left);
    link_left(link, &left.frame);
    phases_left(phases, &left.frame);
}

// A frame leaves: the first `confirm.select` selects, the method frame of a publish takes a tag.
fn confirms_left(confirms: &mut Confirms, left: &Left)
    requires { CanRegister left.now confirms.old.what.publish_states.cells }
    ensures { confirms.new.what ≡ fold confirm_state.after_mark confirms.old.what (left_marks (Some left.now)) }
{
    match (left.publish, left.first) {
        (None, _) => select_left(confirms, &left.frame),
        (Some(number), true) => {
            let _tag = confirms.register(number);
        }
        (Some(_), false) => {}
    }
}

fn select_left(confirms: &mut Confirms, frame: &Frame)
    ensures { confirms.new.what ≡ fold confirm_state.after_mark confirms.old.what (frame_marks frame.now) }
{
    if let Frame::Method(channel, Method::Confirm(ConfirmMethod::Select { .. })) = frame {
        confirms.select_left(*channel);
    }
}
