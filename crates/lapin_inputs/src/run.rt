//! What the commands have in common that go line by line: a run that begins with the size of a frame, and takes a line at a time. What
//! the lines of each say, and what its steps print, stands in the file of the command.
ghost use Rattle.std.specs.Prelude.{◌≡◌, ◌≤◌, ◌<◌, ◌^◌, ◌++◌, ◌∷◌, [], ℕ, suc, List, Option, Some, None, true, false, IfOk};
ghost use Rattle.lapin_text.specs.Input.{lines_of, max_line, IsMax};
ghost use Rattle.lapin_inputs.specs.Printing.{Adds, NoFirst, bad_line_text};

use lapin_types::NoMemory;
use std::alloc::Global;

/// A command whose input drives a run: its first line says how large a frame may be, and each other line is a step. Nobody makes a
/// value of such a type: it says which command is meant.
pub trait Run {
    /// The run.
    type State: Drop;

    /// What it may be begun with, beside the size of a frame: the word behind that of its command, empty where there is none.
    ghost admits: { List ℕ → Type 0 };

    /// What is printed for such a word and an input: the text, where this line is the first bad one, if there is any.
    ghost prints: { List ℕ → List ℕ → Option ℕ → List ℕ → Type 0 };

    /// What became of a run since it began, as far as later lines depend on it.
    ghost Past: { Type 0 };

    /// The run stands where this leads.
    ghost stands: { Past → Self.State → Type 0 };

    /// What is printed by a run that goes on from there, for lines the first of which has this number, without the line that names
    /// the bad one.
    ghost goes_on: { Past → ℕ → List (List ℕ) → Option ℕ → List ℕ → Type 0 };

    /// It can take so many lines more.
    ghost takes: { ℕ → Self.State → Type 0 };

    /// A new run, where a frame has at most so many bytes. It can take 2,147,483,648 lines.
    ///
    /// # Errors
    /// `NoMemory` alone.
    fn begin(alloc: Global, argument: &str, frame_max: u32) -> Result<Self::State, NoMemory>
        requires frame_max { 4096 ≤ frame_max }
        requires argument { admits argument.now }
        ensures prints { IfOk result (λ run. (past : Past) × stands past run × ((input : List ℕ) (lines : List (List ℕ)) (bad : Option ℕ) (text : List ℕ) → IsMax frame_max → lines_of input ≡ max_line frame_max ∷ lines → goes_on past 2 lines bad text → prints argument.now input bad (text ++ bad_line_text bad))) }
        ensures takes { IfOk result (λ run. (n : ℕ) → n ≤ 2 ^ 31 → takes n run) };

    /// Takes a line, and appends what its step prints. Whether it is in the format: if it isn't, nothing is done.
    ///
    /// # Errors
    /// `NoMemory` alone. The text may then end within the line, and the run is of no use.
    fn take_line(
        alloc: Global,
        run: &mut Self::State,
        line: &[u8],
        text: &mut Vec<u8>,
    ) -> Result<bool, NoMemory>
        requires { (n : ℕ) × takes (suc n) run.old }
        ensures good { IfOk result (λ good. good ≡ true → (past : Past) → stands past run.old → (now : Past) × stands now run.new × Adds (goes_on past) (goes_on now) line.now text.old.items text.new.items) }
        ensures takes { IfOk result (λ good. good ≡ true → (n : ℕ) → takes (suc n) run.old → takes n run.new) }
        ensures bad { IfOk result (λ good. good ≡ false → (past : Past) (n : ℕ) (lines : List (List ℕ)) → stands past run.old → goes_on past n (line.now ∷ lines) (Some n) []) }
        ensures same { IfOk result (λ good. good ≡ false → text.new.items ≡ text.old.items) };

    /// Where no line is left, nothing more is printed.
    ghost ends: { (past : Past) (n : ℕ) → goes_on past n [] None [] };

    /// Whatever the lines are, something is printed for them.
    ghost goes: { (past : Past) (n : ℕ) (lines : List (List ℕ)) → (bad : Option ℕ) × (text : List ℕ) × goes_on past n lines bad text };

    /// An input that is printed whole has no bad line.
    ghost one: { (argument input text other : List ℕ) (line : ℕ) → prints argument input None text → prints argument input (Some line) other → ⊥ };

    /// Without a first line, that line is the bad one, and nothing is run.
    ghost first: { (argument input : List ℕ) → NoFirst (lines_of input) → prints argument input (Some 1) (bad_line_text (Some 1)) };
}
