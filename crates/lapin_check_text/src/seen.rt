//! The lines of what is seen: `up FRAME` and `down FRAME`.

ghost use Rattle.std.specs.Prelude.{◌≡◌, ◌≢◌, ◌++◌, ℕ, List, codes, IfOk, IfSome, IfNone, MatchOption};
ghost use Rattle.lapin_check_text.specs.Seen.{IsLineOf, NoLine};

use lapin_check::Seen;
use lapin_text::read_frame;
use lapin_types::NoMemory;
use std::alloc::Global;

/// What is seen by the line, without a line end, or `None` where nothing that has a line has this one.
///
/// # Errors
/// `NoMemory`.
pub fn read_seen(alloc: Global, line: &[u8]) -> Result<Option<Seen>, NoMemory>
    ensures found { IfOk result (λ o. IfSome o (λ x. IsLineOf line.now x)) }
    ensures none { IfOk result (λ o. IfNone o (NoLine line.now)) }
{
    match behind_word(b"up ", line) {
        Some(rest) => read_up(alloc, line, rest),
        None => read_other(alloc, line),
    }
}

// What stands behind the word that the line begins with.
fn behind_word<'a>(word: &[u8], line: &'a [u8]) -> Option<&'a [u8]>
    ensures { MatchOption result ((rest : List ℕ) → line.now ≢ word.now ++ rest) (λ rest. line.now ≡ word.now ++ rest.now) }
{
    line.strip_prefix(word)
}

// A frame up, behind its word.
fn read_up(alloc: Global, line: &[u8], rest: &[u8]) -> Result<Option<Seen>, NoMemory>
    requires { line.now ≡ codes "up " ++ rest.now }
    ensures found { IfOk result (λ o. IfSome o (λ x. IsLineOf line.now x)) }
    ensures none { IfOk result (λ o. IfNone o (NoLine line.now)) }
{
    match read_frame(alloc, rest)? {
        Some(frame) => Ok(Some(Seen::Up(frame))),
        None => Ok(None),
    }
}

// Any other line.
#[tactic(auto, using(crate::proofs::SeenLaws::other_none))]
fn read_other(alloc: Global, line: &[u8]) -> Result<Option<Seen>, NoMemory>
    requires { (rest : List ℕ) → line.now ≢ codes "up " ++ rest }
    ensures found { IfOk result (λ o. IfSome o (λ x. IsLineOf line.now x)) }
    ensures none { IfOk result (λ o. IfNone o (NoLine line.now)) }
{
    match behind_word(b"down ", line) {
        Some(rest) => read_down(alloc, line, rest),
        None => Ok(None),
    }
}

// A frame down, behind its word.
fn read_down(alloc: Global, line: &[u8], rest: &[u8]) -> Result<Option<Seen>, NoMemory>
    requires { line.now ≡ codes "down " ++ rest.now }
    ensures found { IfOk result (λ o. IfSome o (λ x. IsLineOf line.now x)) }
    ensures none { IfOk result (λ o. IfNone o (NoLine line.now)) }
{
    match read_frame(alloc, rest)? {
        Some(frame) => Ok(Some(Seen::Down(frame))),
        None => Ok(None),
    }
}
