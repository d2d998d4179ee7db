//! Laws of tickets in the words of the history, each on a function with an empty body.

ghost use Rattle.std.specs.Prelude.{◌≡◌, ℕ, true, List, [], ◌∷◌, ◌++◌, Some, Result};
ghost use Rattle.lapin_types.specs.declared.Error.{Error as AnError};
ghost use Rattle.lapin_types.specs.declared.answer.Answer.{Answer as AnAnswer};
ghost use Rattle.lapin_rules.specs.TicketReadings.{TicketMark, answer_of, is_collected, closes};
ghost use Rattle.lapin_ticket.specs.Follows.{WasGiven};

/// A ticket is answered once: its answer never changes. And it is given once: from the moment it was given, or the ticket was set
/// aside, nothing gives it again.
pub fn a_ticket_is_answered_once()
    ensures stays { (n : ℕ) (ms : List TicketMark) (m : TicketMark) (a : Result AnAnswer AnError) → WasGiven n ms → answer_of n ms ≡ Some a → answer_of n (ms ++ m ∷ []) ≡ Some a }
    ensures closes { (n : ℕ) (ms : List TicketMark) (m : TicketMark) → WasGiven n ms → closes n m ≡ true → is_collected n (ms ++ m ∷ []) ≡ true }
    ensures stays_closed { (n : ℕ) (ms : List TicketMark) (m : TicketMark) → WasGiven n ms → is_collected n ms ≡ true → is_collected n (ms ++ m ∷ []) ≡ true }
{}
