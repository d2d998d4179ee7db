//! Laws of the text, each the contract of a function that does nothing.

ghost use Rattle.std.specs.Prelude.{◌≡◌, ℕ, List, Option, None, Some};
ghost use Rattle.std.specs.List.{AllByRecursion};
ghost use Rattle.lapin_types.specs.declared.event.Event.{Event as AnEvent};
ghost use Rattle.lapin_types.specs.Types.{Frame as AFrame};
ghost use Rattle.lapin_text.specs.Frames.{frame_text, FrameFits};
ghost use Rattle.lapin_text.specs.Events.{line_of, HasLine};
ghost use Rattle.lapin_text.specs.Input.{lines_of, input_of, IsMax, AreParsed};

/// No two frames that have a text have one text.
pub fn one_text()
    ensures { (a b : AFrame) → FrameFits a → FrameFits b → frame_text a ≡ frame_text b → a ≡ b }
{}

/// No two events that have a line have one line.
pub fn one_line()
    ensures { (a b : AnEvent) → HasLine a → HasLine b → line_of a ≡ line_of b → a ≡ b }
{}

/// Parsing the text of a frame size and of events that have lines gives that frame size and those events.
pub fn parsed_as_printed()
    ensures { (m : ℕ) (es : List AnEvent) (max : Option ℕ) (got : List AnEvent) (bad : Option ℕ) → IsMax m → AllByRecursion HasLine es → AreParsed (lines_of (input_of line_of m es)) max got bad → (max ≡ Some m) × (got ≡ es) × (bad ≡ None) }
{}

/// What an input says is one thing: the same lines give the same frame size, events and bad line.
pub fn one_reading()
    ensures { (ls : List (List ℕ)) (max other_max : Option ℕ) (es other : List AnEvent) (bad other_bad : Option ℕ) → AreParsed ls max es bad → AreParsed ls other_max other other_bad → (max ≡ other_max) × (es ≡ other) × (bad ≡ other_bad) }
{}
