//! What a reply means, over every joined run.

ghost use Rattle.std.specs.Prelude.{◌≤◌, ℕ, List};
ghost use Rattle.lapin_joint.specs.declared.step.Step.{Step as AStep};
ghost use Rattle.lapin_answers.specs.Told.{AnswersAreTheirOwn};
ghost use Rattle.lapin_answers.specs.Truth.{RepliesAnswerCalls, GetsCarryContents, OpensAreAnswered, ClosesAreAnswered, EndIsAnswered, DeliveriesResolve, UnwaitedAreNotReplied, AwaitedAreDelivered, ClosesAreByCloseOk, EndIsByCloseOk};

/// In every joined run: where the reply that is delivered resolves ticket n, the call of that ticket was made on the reply's channel, the
/// broker had read that very call's method, with that ticket, in the channel's last opening, and after that it sent this reply as the
/// answer to it: as many replies were sent before as requests were read before it. What it sent behind it is what is still on the way.
pub fn a_reply_answers_that_very_call()
    ensures { (frame_max : ℕ) → 4096 ≤ frame_max → (steps : List AStep) → RepliesAnswerCalls frame_max steps }
{}

/// In every joined run: where a delivery resolves the ticket of a get with a message, the broker had answered that very get by get-ok in
/// the channel's last opening, and the message is the content that it sent after that answer: what began it, its header's properties and
/// its bodies joined.
pub fn a_get_carries_what_was_sent_after_its_answer()
    ensures { (frame_max : ℕ) → 4096 ≤ frame_max → (steps : List AStep) → GetsCarryContents frame_max steps }
{}

/// In every joined run: where the open-ok that is delivered resolves ticket n with an answer, the call of that ticket was a `channel.open`
/// of the open-ok's channel, the broker had read that very call's frame, with that ticket, and read no other `channel.open` of the channel
/// since; and this open-ok is the first that it sent on the channel after it. An opening that the broker ends by a close in place of
/// open-ok has none.
pub fn an_open_ok_is_for_that_very_open()
    ensures { (frame_max : ℕ) → 4096 ≤ frame_max → (steps : List AStep) → OpensAreAnswered frame_max steps }
{}

/// In every joined run: where the close-ok that is delivered resolves ticket n with an answer, the call of that ticket was a close of the
/// close-ok's channel, the broker had read that very call's close, with that ticket, and after that it sent this close-ok for it: as many
/// close-oks were sent on the channel before as closes were read before that one, also where the two closes crossed. Or n is the ticket of
/// a `basic.cancel`, which the end of the opening resolves.
pub fn a_close_ok_is_for_that_very_close()
    ensures { (frame_max : ℕ) → 4096 ≤ frame_max → (steps : List AStep) → ClosesAreAnswered frame_max steps }
{}

/// In every joined run: where the connection's close-ok that is delivered resolves ticket n with an answer, the call of that ticket was a
/// close of the connection, the broker had read that very call's close, with that ticket, and after that it sent this close-ok, also where
/// the two closes crossed.
pub fn a_close_ok_of_the_connection_is_for_that_very_close()
    ensures { (frame_max : ℕ) → 4096 ≤ frame_max → (steps : List AStep) → EndIsAnswered frame_max steps }
{}

/// In every joined run: where a delivered frame of the broker resolves a ticket with an answer, one of these holds. The frame is a reply,
/// and the ticket that of a call on its channel which awaits one. The answer is a message, and the ticket that of such a call. The frame is
/// open-ok or close-ok, and the ticket that of an open or of a close of its channel; or it is the connection's close-ok, and the ticket
/// that of a close of the connection. Or the frame is no reply, and the ticket that of a `basic.cancel` that was open: this one is done.
pub fn what_a_frame_resolves_awaits_it()
    ensures { (frame_max : ℕ) → 4096 ≤ frame_max → (steps : List AStep) → DeliveriesResolve frame_max steps }
{}

/// In every joined run: no delivered frame of the broker resolves with an answer the ticket of a call without wait, nor that of a publish, of
/// an acknowledgement, of a limit or of an acker's call.
pub fn no_reply_resolves_a_call_without_wait()
    ensures { (frame_max : ℕ) → 4096 ≤ frame_max → (steps : List AStep) → UnwaitedAreNotReplied frame_max steps }
{}

/// In every joined run: a step that is no delivery resolves the ticket of a call that awaits a reply with an answer only where the ticket is
/// that of a `basic.cancel` that was open before the step, and the answer is that it is done.
pub fn what_no_frame_resolves_is_a_cancel()
    ensures { (frame_max : ℕ) → 4096 ≤ frame_max → (steps : List AStep) → AwaitedAreDelivered frame_max steps }
{}

/// In every joined run: where a step resolves the ticket of a close with an answer, it is the delivery of the broker's close-ok for that very
/// close, of a channel (`channel`) or of the connection (`connection`).
pub fn a_close_is_answered_by_its_close_ok()
    ensures channel { (frame_max : ℕ) → 4096 ≤ frame_max → (steps : List AStep) → ClosesAreByCloseOk frame_max steps }
    ensures connection { (frame_max : ℕ) → 4096 ≤ frame_max → (steps : List AStep) → EndIsByCloseOk frame_max steps }
{}

/// In every joined run: a ticket got each answer that it has by one step. Where the call awaits a reply, the step delivered a frame of the broker:
/// its reply to that very call, and the answer is what the reply says; the frame by which the content became whole that it sent after its
/// answer to that very get; or its open-ok or close-ok for that very open or close. Or the call is a `basic.cancel` that was open, whose opening
/// the step ended: it is done.
pub fn an_answer_is_the_reply_to_its_call()
    ensures { (frame_max : ℕ) → 4096 ≤ frame_max → (steps : List AStep) → AnswersAreTheirOwn frame_max steps }
{}
