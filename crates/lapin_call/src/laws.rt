//! Laws of calls over queues, on functions that do nothing: the first two of every list of items that the consumer of the replies gives, the
//! next two of whole runs, the last of a server's calls in a row.

ghost use Rattle.std.specs.Prelude.{◌≡◌, ◌+◌, ◌++◌, ◌∷◌, [], ℕ, List, Some, Ok};
ghost use Rattle.std.specs.Fn.{FnReturnsAt};
ghost use Rattle.lapin_machine.specs.Way.{by_history};
ghost use Rattle.lapin_call.specs.declared.step.CallStep.{CallStep as AStep};
ghost use Rattle.lapin_call.specs.declared.step.CallStep.TheVariants as step;
ghost use Rattle.lapin_call.specs.declared.step.CallReport.TheVariants as reported;
ghost use Rattle.lapin_call.specs.declared.fates.Fate.{Fate as AFate};
ghost use Rattle.lapin_call.specs.declared.fates.Fate.TheVariants as fate;
ghost use Rattle.lapin_call.specs.declared.fates.Tally.{Tally as ATally};
ghost use Rattle.lapin_call.specs.Fates.{fate_at};
ghost use Rattle.lapin_call.specs.Calls.{report, calls, calls_to};
ghost use Rattle.lapin_call.specs.Outcome.{Item, outcome, after_items, counted_items, sum_of, deliveries};
ghost use Rattle.lapin_call.specs.declared.server.Server.{Server as AServer};
ghost use Rattle.lapin_call.specs.Turns.{Turn, AreTurns, kept_tags, all_handed, all_done};
ghost use Rattle.lapin_call.specs.Heard.{heard_in, counted_in, WaitedAtTakes, HasFirstReply};

use lapin_types::{NoMemory, Payload};

/// A call that waits is answered by the first delivery with its id, or ended by the first error, whichever comes first: strangers,
/// repeats and the order of other replies change nothing of it.
pub fn the_first_reply_answers()
    ensures { (n : ℕ) (items : List Item) (fates : List AFate) → fate_at n fates ≡ Some fate.Waiting → fate_at n (after_items items fates) ≡ Some (outcome n items) }
{}

/// Each delivery is counted once: as an answer, a repeat or a stranger.
pub fn a_delivery_is_counted_once()
    ensures { (items : List Item) (fates : List AFate) (t : ATally) → sum_of (counted_items items fates t) ≡ sum_of t + deliveries items }
{}

/// A call's reply is the payload of the first delivery with its id that a Collect of the run polled after the call was asked: behind any
/// steps, once the call was asked, and behind any further ones at which each take of it was told that it waits.
pub fn the_first_reply_of_a_run_answers()
    ensures { (frame_max : ℕ) (queue exchange key payload : List ℕ) (before later : List AStep) (n : ℕ)
        → report (by_history frame_max) (step.Ask exchange key payload) (calls_to frame_max queue before) ≡ reported.Asked n
        → WaitedAtTakes frame_max n later (calls_to frame_max queue (before ++ step.Ask exchange key payload ∷ []))
        → HasFirstReply frame_max queue before (step.Ask exchange key payload) later n }
{}

/// The reports of a run count each delivery once that its Collects polled.
pub fn a_run_counts_each_delivery_once()
    ensures { (frame_max : ℕ) (queue : List ℕ) (steps : List AStep) → counted_in (calls frame_max queue steps) ≡ deliveries (heard_in (calls_to frame_max queue steps).session) }
{}

/// Over any calls of a server in a row with one way to answer: it is done with the requests that the consumer hands it in their order, each
/// once, the void ones too; and one that it was handed and is not done with is the one that it keeps.
pub fn a_server_is_done_with_each_request_once<F: Fn(&[u8]) -> Result<Payload, NoMemory>>(
    answer: &F,
)
    ensures { (s t : AServer) (turns : List Turn) → AreTurns (λ bytes payload. FnReturnsAt F.Fn answer.now bytes (Ok payload)) s turns t → kept_tags s.held ++ all_handed turns ≡ all_done turns ++ kept_tags t.held }
{
    let _ = answer;
}
