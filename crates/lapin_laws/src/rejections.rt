//! A publish that is rejected alone, as no event of a session does it.

ghost use Rattle.std.specs.Prelude.{◌≡◌, ℕ, List, [], ◌∷◌, ◌++◌, Some, Ok, Err};
ghost use Rattle.lapin_types.specs.declared.Error.{Error as AnError};
ghost use Rattle.lapin_rules.specs.ConfirmMarks.{ConfirmMark as AMark};
ghost use Rattle.lapin_rules.specs.ConfirmMarks as mark;
ghost use Rattle.lapin_confirm.specs.ConfirmState.{ConfirmState as AState};
ghost use Rattle.lapin_confirm.specs.Machine.{after_mark, rejected};
ghost use Rattle.lapin_confirm.specs.Aside.{taken_answer, kept_by};
ghost use Rattle.lapin_confirm.specs.Follows.{Follows};
ghost use Rattle.lapin_laws.specs.Rejections.{IsUnasked, IsOther};

/// What comes after a lone `reject` of `Confirms`: whatever it is, all else goes on as the history without the rejection says, and the
/// publish has its error, which the next poll of its confirm gives. This holds until its result is given or it is set aside; after that
/// all is as without the rejection: of a result that was given nothing is kept, and to set it aside is to set aside a resolved confirm.
pub fn a_rejection_lasts()
    ensures next { (ms : List AMark) (p : AState) (m : AMark) (n : ℕ) (e : AnError) → Follows ms p → IsUnasked n ms → IsOther n m → after_mark (rejected n e p) m ≡ rejected n e (after_mark p m) }
    ensures still { (ms : List AMark) (m : AMark) (n : ℕ) → IsUnasked n ms → IsOther n m → IsUnasked n (ms ++ m ∷ []) }
    ensures told { (ms : List AMark) (p : AState) (n : ℕ) (e : AnError) → Follows ms p → IsUnasked n ms → taken_answer n (rejected n e p) ≡ Ok (Some (Err e)) }
    ensures given { (p : AState) (n : ℕ) (e : AnError) → after_mark (rejected n e p) (mark.Taken n) ≡ after_mark p (mark.Taken n) }
    ensures aside { (ms : List AMark) (p : AState) (n : ℕ) (e : AnError) → Follows ms p → IsUnasked n ms → after_mark (rejected n e p) (mark.SetAside n) ≡ kept_by n p }
{}
