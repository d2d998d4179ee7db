//! Laws of histories, each on a function with an empty body.

ghost use Rattle.std.specs.Prelude.{◌≡◌, ℕ, List, length};
ghost use Rattle.lapin_locked.specs.declared.entry.Entry.{Entry as AnEntry};
ghost use Rattle.lapin_shared.specs.Grown.{Seen, AreFresh, AreApart};
ghost use Rattle.lapin_locked.specs.Lawful.{IsLawful};
ghost use Rattle.lapin_shared.specs.Own.{AreBack, AreOwn, logged};
ghost use Rattle.lapin_shared.specs.Ackers.{UsesOnce};

/// A history in which the logs of callers stand that are numbered from 1, and which has as many entries as they have together, is
/// an interleaving of the logs: each caller's entries in it are the events of its log, in order.
pub fn interleaves()
    ensures { (h : List AnEntry) (cs : List Seen) → AreBack h 1 cs → length h ≡ logged cs → AreOwn h cs }
{}

/// In a lawful history at most one call of the acker of a number is answered otherwise than no, whoever made it.
pub fn ackers_are_used_once()
    ensures { (frame_max : ℕ) (h : List AnEntry) → IsLawful frame_max h → UsesOnce h }
{}

/// The callers that a new client gives, numbered one behind the other, have each a number of its own. A step changes no number, so they keep
/// them, and a pool may take them all.
pub fn fresh_callers_are_apart()
    ensures { (n : ℕ) (cs : List Seen) → AreFresh n cs → AreApart cs }
{}
