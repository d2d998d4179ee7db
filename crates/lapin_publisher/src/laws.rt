//! What holds of a publisher over any calls of it and of its sessions, each law the contract of a function that does nothing.

ghost use Rattle.std.specs.Prelude.{◌≡◌, ◌++◌, ℕ, Bool, true, map};
ghost use Rattle.std.specs.List.Sorted.{IsPermutation};
ghost use Rattle.lapin_rules.specs.Wire.{state_of, is_open as is_open_lem};
ghost use Rattle.lapin_machine.specs.World.{World as AWorld};
ghost use Rattle.lapin_keeping.specs.declared.keeping.Keeping.{Keeping as AKeeping};
ghost use Rattle.lapin_keeping.specs.Accounts.{number_of, number_told, from_one, RiseWithin};
ghost use Rattle.lapin_publisher.specs.Courses.{Course, IsNew, Follows, all_told};
ghost use Rattle.lapin_publisher.specs.declared.turn.Turn.{Turn as ATurn};
ghost use Rattle.lapin_publisher.specs.Due.{AreOut};
ghost use Rattle.lapin_publisher.specs.Shares.{NoneShare};
ghost use Rattle.lapin_publisher.specs.Turns.{IsTurn};

/// Nothing is lost or told twice: after any calls, with any sessions one after the other, the numbers of what is kept and of what was told, or is
/// to be told, are those from 1 to how many were handed over, each once.
#[tactic(auto, using(crate::proofs::AccountCourse::kept_or_told))]
pub fn each_message_is_kept_or_told_once()
    ensures { (n : ℕ) (p q : Course) → IsNew p → Follows n p q → IsPermutation (from_one q.keeping.handed) (map number_of q.keeping.kept.items ++ map number_told (all_told q)) }
{}

/// What is kept stays in rising number over any calls.
#[tactic(auto, using(crate::proofs::AccountCourse::kept_in_order))]
pub fn what_is_kept_stays_in_order()
    ensures { (n : ℕ) (p q : Course) → IsNew p → Follows n p q → RiseWithin 0 q.keeping.handed (map number_of q.keeping.kept.items) }
{}

/// No two messages share an outstanding publish, over any calls: each publish takes a number that is greater than all before it, and what goes to
/// another session has none.
#[tactic(auto, using(crate::proofs::ApartCourse::none_share))]
pub fn no_two_messages_share_a_confirm()
    ensures { (n : ℕ) (p q : Course) → IsNew p → Follows n p q → NoneShare q.keeping.kept.items }
{}

/// What is due is out: after a turn behind which the channel is open and was asked for confirms, going through the messages in order, each is
/// outstanding, or was failed by the broker and may not be tried again in this turn; until as many are outstanding as may be, or one is met that
/// has to be alone while another is outstanding.
pub fn what_is_due_is_out()
    ensures { (t : ATurn) (w v : AWorld) (old new : AKeeping) (s u : Bool) → IsTurn t w v old new s u → u ≡ true → is_open_lem (state_of t.channel v.wire) ≡ true → AreOut t new.kept.items }
{}
