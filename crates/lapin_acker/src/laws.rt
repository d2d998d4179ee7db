//! Laws of ackers, each on a function with an empty body: what they say holds of every history.

ghost use Rattle.std.specs.Prelude.{◌≡◌, ℕ, ◌≤◌, true, false, List, [], ◌∷◌, ◌++◌};
ghost use Rattle.lapin_acker.specs.declared.switch.Switch.{Switch as ASwitch};
ghost use Rattle.lapin_acker.specs.Marks.{AckerMark as AMark};
ghost use Rattle.lapin_acker.specs.Marks as mark;
ghost use Rattle.lapin_acker.specs.Switches.{switch_at, is_usable, after_mark, names};
ghost use Rattle.lapin_acker.specs.Readings.{Follows, ackers, given};

/// No acker is what the history without a mark says.
pub fn nothing_follows()
    ensures { Follows [] [] }
{}

/// Ackers that are what the marks of a history say are so for one more mark, whichever comes.
pub fn machine_follows()
    ensures { (ms : List AMark) (ss : List ASwitch) (m : AMark) → Follows ms ss → Follows (ms ++ m ∷ []) (after_mark ss m) }
{}

/// An acker is used once: after a call on it was made, it is never usable again, whatever comes, by whichever of its clones.
pub fn used_once()
    ensures spent { (n : ℕ) (ms later : List AMark) → n ≤ given ms → is_usable (switch_at n (ackers (ms ++ mark.Spent n ∷ later))) ≡ false }
    ensures void { (n : ℕ) (ks : List ℕ) (ms later : List AMark) → n ≤ given ms → names ks n ≡ true → is_usable (switch_at n (ackers (ms ++ mark.Voided ks ∷ later))) ≡ false }
{}
