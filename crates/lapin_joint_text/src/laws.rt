//! Laws of the text of steps, on functions that do nothing.

ghost use Rattle.std.specs.Prelude.{◌≡◌, ℕ, List, Option, Some, None};
ghost use Rattle.std.specs.List.{AllByRecursion};
ghost use Rattle.lapin_joint.specs.declared.step.Step.{Step as AStep};
ghost use Rattle.lapin_text.specs.Input.{lines_of, input_of, IsMax, LinesSay};
ghost use Rattle.lapin_joint_text.specs.Steps.{step_line, HasLine};

/// No two steps have one line.
pub fn one_step_line()
    ensures { (a b : AStep) → HasLine a → HasLine b → step_line a ≡ step_line b → a ≡ b }
{}

/// Steps that were printed, behind a first line, are parsed as they were.
pub fn steps_parsed_as_printed()
    ensures { (m : ℕ) (steps : List AStep) (max : Option ℕ) (parsed : List AStep) (bad : Option ℕ) → IsMax m → AllByRecursion HasLine steps → LinesSay step_line HasLine (lines_of (input_of step_line m steps)) max parsed bad → (max ≡ Some m) × (parsed ≡ steps) × (bad ≡ None) }
{}
