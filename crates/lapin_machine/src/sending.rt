//! Frames that leave: what a frame request hands out, and what leaving does to confirms, tickets and closes.

ghost use Rattle.std.specs.Prelude.{◌≡◌, ◌&&◌, ℕ, true, false, Option, Some, None, IfOk, OnOk, OnErr, is_some};
ghost use Rattle.lapin_types.specs.declared.event.Event.TheVariants as event;
ghost use Rattle.lapin_rules.specs.Handing.{handed, handed_out};
ghost use Rattle.lapin_rules.specs.Flow.{is_flowing, unless_full};
ghost use Rattle.lapin_rules.specs.Handing.{frame_record as frame_record_lem};
ghost use Rattle.lapin_ticket.specs.Slots as answers;
ghost use Rattle.lapin_rules.specs.Phases.{is_lost};
ghost use Rattle.lapin_rules.specs.History.{History};
ghost use Rattle.lapin_outbox.specs.Returned.{is_retried, given};
ghost use Rattle.lapin_machine.specs.Stands.{Stands};
ghost use Rattle.lapin_machine.specs.World.{told_by, next, next_anew, full_in, handing, with_returned};
ghost use Rattle.lapin_machine.specs.Numbers.{HasCause, OnlyMemory};

use crate::session::Session;
use lapin_outstanding::leaves;
use lapin_types::{Error, Left, NoMemory, Record};
use std::alloc::Global;

impl Session {
    /// Hands out the next frame: the one that was given back, marked as handed out again; else the first of what follows the
    /// begun publish, else the first method, else, where `flow` is true and no open channel is paused, the method frame of the first
    /// publish whose channel is not full. None exactly where none of these is there. A publish whose method frame leaves after its channel's first `confirm.select` takes the
    /// next delivery tag (RabbitMQ, publisher confirms).
    ///
    /// # Errors
    /// `NoMemory` alone. Nothing changes then.
    pub fn next_frame(&mut self, alloc: Global, flow: bool) -> Result<Option<Left>, Error>
        ensures told { IfOk result (λ left. left ≡ given self.old.returned (handed flow (full_in self.old.confirm_state) self.old.wire)) }
        ensures ok { OnOk result (self.new ≡ next self.old (event.Next flow)) }
        ensures err { OnErr result (self.new ≡ self.old) }
        ensures cause { OnlyMemory result }
    {
        Ok(self.hand_frame(alloc, flow)?)
    }

    /// Does what `next_frame` does, for whoever needs no other error beside this one: a frame is wide, and so it is given on as it
    /// comes. Where there is no memory nothing changes.
    pub fn hand_frame(&mut self, alloc: Global, flow: bool) -> Result<Option<Left>, NoMemory>
        ensures told { IfOk result (λ left. left ≡ given self.old.returned (handed flow (full_in self.old.confirm_state) self.old.wire)) }
        ensures ok { OnOk result (self.new ≡ next self.old (event.Next flow)) }
        ensures err { OnErr result (self.new ≡ self.old) }
    {
        if self.retrying() {
            return self.hand_again(alloc);
        }
        self.hand_next(alloc, flow)
    }

    /// Whether `next_frame` would hand out a frame, so that whoever writes to a socket is woken for nothing else. Nothing changes.
    ///
    /// # Errors
    /// `NoMemory` alone, to pass over the publishes of a full channel.
    pub fn has_next(&mut self, flow: bool) -> Result<bool, NoMemory>
        ensures told { IfOk result (λ has. has ≡ is_some (given self.old.returned (handed flow (full_in self.old.confirm_state) self.old.wire))) }
        ensures same { self.new ≡ self.old }
    {
        let content_flows = self.flows(flow);
        self.outstanding
            .outbox
            .has_next_unless(content_flows, &self.confirms)
    }

    /// Gives the frame back that was handed out last: the next frame request hands it out once more. It counts as left, so no
    /// tag is taken again and no ticket answered again; until then every other call answers as if it was not given back. Where
    /// the opening of its channel ends before, or all that waits is dropped, the frame is gone. A caller gives back only the
    /// frame that it was handed last, and not after the opening of its channel ended. It takes no memory.
    pub fn retry(&mut self, left: Left)
        requires retrying { is_retried self.old.returned ≡ false }
        requires lost { is_lost self.old.wire.link ≡ false }
        ensures returned { self.new ≡ with_returned (Some left) self.old }

        // The session stands for what it stood for.
        ensures stands { (frame_max : ℕ) (h : History) → Stands frame_max h self.old → Stands frame_max h self.new }
    {
        self.outstanding.outbox.retry(left);
    }

    /// Whether a frame is given back that no frame request has handed out again and no end has taken away.
    pub fn retrying(&self) -> bool
        ensures { result ≡ is_retried self.now.returned }
    {
        self.outstanding.outbox.retrying()
    }

    // Hands out the frame that was given back once more. It has left before, so nothing goes by it.
    #[inline(never)]
    fn hand_again(&mut self, alloc: Global) -> Result<Option<Left>, NoMemory>
        requires { is_retried self.old.returned ≡ true }
        ensures told { IfOk result (λ left. left ≡ given self.old.returned None) }
        ensures ok { OnOk result (self.new ≡ with_returned None self.old) }
        ensures err { OnErr result (self.new ≡ self.old) }
    {
        self.outstanding.outbox.pop(alloc, false, &[])
    }

    // Hands out the next frame, where none was given back.
    fn hand_next(&mut self, alloc: Global, flow: bool) -> Result<Option<Left>, NoMemory>
        requires { is_retried self.old.returned ≡ false }
        ensures told { IfOk result (λ left. left ≡ handed flow (full_in self.old.confirm_state) self.old.wire) }
        ensures ok { OnOk result (self.new ≡ next_anew self.old (event.Next flow)) }
        ensures err { OnErr result (self.new ≡ self.old) }
    {
        let flowing = self.flows(flow);
        self.hand_out(alloc, flowing)
    }

    // Whether content flows: the request says so, and no open channel is paused.
    fn flows(&self, flow: bool) -> bool
        ensures { result ≡ is_flowing flow self.now.wire }
    {
        flow && !self.phases.is_any_paused()
    }

    // Hands out the next frame, where none was given back and it is known whether content flows. The frame is looked at where it
    // stands and given on as the outbox handed it out: a value so wide costs much where it is taken apart.
    fn hand_out(&mut self, alloc: Global, flowing: bool) -> Result<Option<Left>, NoMemory>
        requires { is_retried self.old.returned ≡ false }
        ensures told { IfOk result (λ left. left ≡ handed_out (unless_full flowing (full_in self.old.confirm_state)) self.old.wire) }
        ensures ok { OnOk result (self.new ≡ handing (unless_full flowing (full_in self.old.confirm_state)) self.old) }
        ensures err { OnErr result (self.new ≡ self.old) }
    {
        let given = self
            .outstanding
            .outbox
            .pop_unless(alloc, flowing, &self.confirms);
        if let Ok(handed) = &given {
            if let Some(left) = handed {
                leaves(
                    &mut self.confirms,
                    &mut self.outstanding,
                    &mut self.link,
                    &mut self.phases,
                    left,
                );
            }
        }
        given
    }

    pub(crate) fn step_next(&mut self, alloc: Global, flow: bool) -> Result<Record, Error>
        ensures told { IfOk result (λ r. r ≡ told_by self.old (event.Next flow)) }
        ensures ok { OnOk result (self.new ≡ next self.old (event.Next flow)) }
        ensures err { OnErr result (self.new ≡ self.old) }
        ensures cause { HasCause result (event.Next flow) self.old.wire }
    {
        Ok(frame_record(self.next_frame(alloc, flow)?))
    }
}

fn frame_record(left: Option<Left>) -> Record
    ensures { result ≡ frame_record_lem left }
{
    match left {
        Some(left) => Record::Frame(left.frame),
        None => Record::NoFrame,
    }
}
