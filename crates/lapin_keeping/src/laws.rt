//! What becomes of messages that are kept, each law the contract of a function that does nothing.

ghost use Rattle.std.specs.Prelude.{◌≡◌, ℕ, true, false, Some, None, List, map};
ghost use Rattle.std.specs.List.Sorted.{IsPermutation};
ghost use Rattle.lapin_types.specs.declared.message.BasicReturnMessage.{BasicReturnMessage as AReturnMessage};
ghost use Rattle.lapin_types.specs.declared.outcome.Outcome.{Outcome as AnOutcome};
ghost use Rattle.lapin_types.specs.declared.outcome.Outcome.TheVariants as outcome;
ghost use Rattle.lapin_types.specs.Types.error;
ghost use Rattle.lapin_keeping.specs.declared.fate.Fate.{Fate as AFate};
ghost use Rattle.lapin_keeping.specs.declared.fate.Fate.TheVariants as fate;
ghost use Rattle.lapin_keeping.specs.declared.kept.Kept.{Kept as AKept};
ghost use Rattle.lapin_keeping.specs.Accounts.{Account, new_account, number_of, Reaches, from_one, all_numbers, RiseWithin, IsSameMessage};
ghost use Rattle.lapin_keeping.specs.Fates.{of_outcome, of_error, of_blame, forgotten, returned as returned_lem, published as published_lem, begun_anew};
ghost use Rattle.lapin_keeping.specs.Returns.{AreNoted};

/// An ack alone stores a message, and one whose publish came back isn't stored by it.
#[tactic(auto, using(crate::proofs::FateLaws::an_ack_stores))]
pub fn an_ack_alone_stores()
    ensures { (o : AnOutcome) (k : AKept) → k.fate ≡ None → (of_outcome o k).fate ≡ Some fate.Stored → (o ≡ outcome.Ack) × (k.came_back ≡ false) }
{}

/// A message that came back isn't stored by the ack of its publish that was polled before, in the same turn.
#[tactic(auto, using(crate::proofs::NumberLaws::back_is_not_stored))]
pub fn what_came_back_is_not_stored()
    ensures { (k : AKept) → (returned_lem k).fate ≡ Some fate.Stored → ⊥ }
{}

/// A message is given up only at its last try.
#[tactic(auto, using(crate::proofs::FateLaws::last_try))]
pub fn a_message_is_given_up_at_its_last_try()
    ensures { (o : AnOutcome) (k : AKept) (f : AFate) → k.fate ≡ None → (of_outcome o k).fate ≡ Some f → (f ≡ fate.Stored → ⊥) → k.left ≡ 1 }
{}

/// At its last try it is given up: by a nack as refused, by an ack as returned where it came back, by the broker's close where it was alone.
#[tactic(auto, using(crate::proofs::NumberLaws::refused_at_last, crate::proofs::NumberLaws::returned_at_last, crate::proofs::NumberLaws::closed_at_last))]
pub fn the_last_try_is_the_last()
    ensures refused { (k : AKept) → k.left ≡ 1 → (of_outcome outcome.Nack k).fate ≡ Some fate.Refused }
    ensures closed { (code : ℕ) (k : AKept) → k.left ≡ 1 → k.suspect ≡ true → (of_blame (Some code) k).fate ≡ Some (fate.Closed code) }
    ensures returned { (k : AKept) → k.left ≡ 1 → k.came_back ≡ true → (of_outcome outcome.Ack k).fate ≡ Some fate.Returned }
{}

/// A loss is no failure of a message, nor is the close of a broker that is shut down: it waits, and has as many tries as before. Nor is a close
/// where others were outstanding beside it: it goes alone from then on.
#[tactic(auto, using(crate::proofs::NumberLaws::not_alone))]
pub fn a_loss_is_no_failure()
    ensures among { (code : ℕ) (k : AKept) → k.suspect ≡ false → of_blame (Some code) k ≡ record k { outstanding = None; suspect = true } }
    ensures lost { (k : AKept) → of_error error.ConnectionLost k ≡ forgotten k }
    ensures forced { (k : AKept) → of_error (error.ProtocolError 320) k ≡ forgotten k }
{}

/// What becomes known of messages, and a publish, leave each its number and the message itself.
#[tactic(auto, using(crate::proofs::NumberLaws::same_by_outcome, crate::proofs::NumberLaws::same_by_return, crate::proofs::NumberLaws::same_anew, crate::proofs::NumberLaws::same_by_returns))]
pub fn a_message_keeps_its_number()
    ensures polled { (o : AnOutcome) (k : AKept) → IsSameMessage k (of_outcome o k) }
    ensures returned { (k : AKept) → IsSameMessage k (returned_lem k) }
    ensures published { (confirm : ℕ) (k : AKept) → IsSameMessage k (published_lem confirm k) }
    ensures anew { (ks : List AKept) → map number_of (map begun_anew ks) ≡ map number_of ks }
    ensures noted { (rs : List AReturnMessage) (old new : List AKept) → AreNoted rs old new → map number_of new ≡ map number_of old }
{}

/// Nothing is lost or told twice: after any steps the numbers of what is kept and of what was told are those from 1 to how many were handed over, each once.
#[tactic(auto, using(crate::proofs::AccountLaws::each_once))]
pub fn each_message_is_kept_or_told_once()
    ensures { (n : ℕ) (a : Account) → Reaches n new_account a → IsPermutation (from_one a.handed) (all_numbers a) }
{}

/// What is kept stays in rising number.
#[tactic(auto, using(crate::proofs::AccountLaws::in_order))]
pub fn what_is_kept_stays_in_order()
    ensures { (n : ℕ) (a : Account) → Reaches n new_account a → RiseWithin 0 a.handed (map number_of a.kept) }
{}
