//! The summary of a run's reports, one after another: how many publishes were accepted, how many frames left with how many bytes in
//! their bodies, and how many confirms gave an ack.

ghost use Rattle.std.specs.Prelude.{◌≡◌, ℕ, Ok, Option, suc};
ghost use Rattle.std.specs.Option.{option_copied};
ghost use Rattle.lapin_types.specs.declared.confirmation.Confirmation.TheVariants as confirmation;
ghost use Rattle.lapin_types.specs.declared.message.BasicReturnMessage.{BasicReturnMessage as AMessage};
ghost use Rattle.lapin_types.specs.declared.record.Record.TheVariants as record_;
ghost use Rattle.lapin_confirm.specs.Answers.{result_of};
ghost use Rattle.lapin_machine.specs.Told.{confirm_record};
ghost use Rattle.lapin_joint.specs.Joint.{handed_record};
ghost use Rattle.lapin_joint.specs.declared.step.Reported.TheVariants as reported;
ghost use Rattle.lapin_generate.specs.Summed.{nothing, with_report, body_length};
ghost use Rattle.lapin_generate.specs.Tally.{HasRoom};

use lapin_types::{Confirmation, Error, Frame, Outcome, Poll};

/// What a run came to.
#[derive(Clone, Copy, Debug, PartialEq, Eq)]
pub struct Summary {
    /// The accepted publishes.
    pub publishes: u64,
    /// The frames that the client handed out.
    pub frames: u64,
    /// The bytes of the bodies among them.
    pub bytes: u128,
    /// The confirms that gave an ack.
    pub acks: u64,
}

/// The summary of no report.
pub(crate) fn none() -> Summary
    ensures { result ≡ nothing }
{
    Summary {
        publishes: 0,
        frames: 0,
        bytes: 0,
        acks: 0,
    }
}

/// The summary with an accepted publish more, whatever its numbers are.
pub(crate) fn with_publish(summary: Summary) -> Summary
    requires { HasRoom 1 summary }
    ensures sum { (ticket number : ℕ) → result ≡ with_report summary (reported.Client (record_.Publish ticket number)) }
    ensures room { (n : ℕ) → HasRoom (suc n) summary → HasRoom n result }
{
    Summary {
        publishes: summary.publishes + 1,
        ..summary
    }
}

/// The summary with a frame request more, which handed this frame out, or none.
pub(crate) fn with_request(summary: Summary, handed: Option<&Frame>) -> Summary
    requires { HasRoom 1 summary }
    ensures sum { result ≡ with_report summary (reported.Client (handed_record (option_copied handed.entry))) }
    ensures room { (n : ℕ) → HasRoom (suc n) summary → HasRoom n result }
{
    match handed {
        Some(frame) => with_frame(summary, frame),
        None => summary,
    }
}

// The summary with a frame more.
fn with_frame(summary: Summary, frame: &Frame) -> Summary
    requires { HasRoom 1 summary }
    ensures sum { result ≡ with_report summary (reported.Client (record_.Frame frame.now)) }
    ensures room { (n : ℕ) → HasRoom (suc n) summary → HasRoom n result }
{
    Summary {
        frames: summary.frames + 1,
        bytes: summary.bytes + u128::from(bytes_in(frame)),
        ..summary
    }
}

// The bytes of a body, if the frame is one.
fn bytes_in(frame: &Frame) -> u64
    ensures { result ≡ body_length (reported.Client (record_.Frame frame.now)) }
{
    match frame {
        Frame::Body(_, payload) => payload.as_bytes().len() as u64,
        _ => 0,
    }
}

/// The summary with a confirm's outcome more, which no message came back with.
pub(crate) fn with_outcome(summary: Summary, outcome: Outcome) -> Summary
    requires { HasRoom 1 summary }
    ensures sum { result ≡ with_report summary (reported.Client (record_.Confirmed (result_of outcome))) }
    ensures room { (n : ℕ) → HasRoom (suc n) summary → HasRoom n result }
{
    match outcome {
        Outcome::Ack => with_ack(summary),
        _ => summary,
    }
}

/// The summary with the poll of a confirm more.
pub(crate) fn with_poll(
    summary: Summary,
    polled: &Result<Poll<Result<Confirmation, Error>>, Error>,
) -> Summary
    requires { HasRoom 1 summary }
    ensures sum { result ≡ with_report summary (reported.Client (confirm_record polled.now)) }
    ensures room { (n : ℕ) → HasRoom (suc n) summary → HasRoom n result }
{
    match polled {
        Ok(poll) => match poll {
            Poll::Ready(confirmed) => with_confirmed(summary, confirmed),
            Poll::Pending => summary,
        },
        Err(_) => summary,
    }
}

// The summary with what a confirm gave more.
fn with_confirmed(summary: Summary, confirmed: &Result<Confirmation, Error>) -> Summary
    requires { HasRoom 1 summary }
    ensures sum { result ≡ with_report summary (reported.Client (record_.Confirmed confirmed.now)) }
    ensures room { (n : ℕ) → HasRoom (suc n) summary → HasRoom n result }
{
    match confirmed {
        Ok(confirmation) => match confirmation {
            Confirmation::Ack(_) => with_ack(summary),
            _ => summary,
        },
        Err(_) => summary,
    }
}

// The summary with an ack more, whatever message came back with it.
fn with_ack(summary: Summary) -> Summary
    requires { HasRoom 1 summary }
    ensures sum { (message : Option AMessage) → result ≡ with_report summary (reported.Client (record_.Confirmed (Ok (confirmation.Ack message)))) }
    ensures room { (n : ℕ) → HasRoom (suc n) summary → HasRoom n result }
{
    Summary {
        acks: summary.acks + 1,
        ..summary
    }
}
