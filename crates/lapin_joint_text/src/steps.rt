//! The lines of steps: `client EVENT`, `read`, `send FRAME`, `deliver` and `lose`.

ghost use Rattle.std.specs.Prelude.{◌≡◌, ◌≢◌, ◌++◌, ℕ, List, codes, IfOk, IfSome, IfNone, MatchOption};
ghost use Rattle.lapin_joint.specs.declared.step.Step.TheVariants as step;
ghost use Rattle.lapin_joint_text.specs.Steps.{IsLineOf, NoLine, IsBare, NoBare};

use lapin_joint::Step;
use lapin_text::{read_event, read_frame};
use lapin_types::{Frame, NoMemory};
use std::alloc::Global;

/// The step whose line the bytes are, without a line end, or `None` where no step that has a line has this one.
///
/// # Errors
/// `NoMemory`.
pub fn read_step(alloc: Global, line: &[u8]) -> Result<Option<Step>, NoMemory>
    ensures found { IfOk result (λ o. IfSome o (λ s. IsLineOf line.now s)) }
    ensures none { IfOk result (λ o. IfNone o (NoLine line.now)) }
{
    match client_event(line) {
        Some(rest) => client_step(alloc, line, rest),
        None => other_step(alloc, line),
    }
}

/// What stands behind `client `, where the line begins so: the line of an event of the client, if the line is in the grammar.
pub fn client_event(line: &[u8]) -> Option<&[u8]>
    ensures { MatchOption result ((rest : List ℕ) → line.now ≢ codes "client " ++ rest) (λ rest. line.now ≡ codes "client " ++ rest.now) }
{
    behind_word(b"client ", line)
}

/// What stands behind `send `, where the line begins so: the text of a frame of the broker, if the line is in the grammar.
pub fn sent_frame(line: &[u8]) -> Option<&[u8]>
    ensures { MatchOption result ((rest : List ℕ) → line.now ≢ codes "send " ++ rest) (λ rest. line.now ≡ codes "send " ++ rest.now) }
{
    behind_word(b"send ", line)
}

// What stands behind the word that the line begins with.
fn behind_word<'a>(word: &[u8], line: &'a [u8]) -> Option<&'a [u8]>
    ensures { MatchOption result ((rest : List ℕ) → line.now ≢ word.now ++ rest) (λ rest. line.now ≡ word.now ++ rest.now) }
{
    line.strip_prefix(word)
}

// An event of the client, behind its word.
fn client_step(alloc: Global, line: &[u8], rest: &[u8]) -> Result<Option<Step>, NoMemory>
    requires { line.now ≡ codes "client " ++ rest.now }
    ensures found { IfOk result (λ o. IfSome o (λ s. IsLineOf line.now s)) }
    ensures none { IfOk result (λ o. IfNone o (NoLine line.now)) }
{
    match read_event(alloc, rest)? {
        Some(event) => Ok(Some(Step::Client(event))),
        None => Ok(None),
    }
}

// Any other step.
fn other_step(alloc: Global, line: &[u8]) -> Result<Option<Step>, NoMemory>
    requires { (rest : List ℕ) → line.now ≢ codes "client " ++ rest }
    ensures found { IfOk result (λ o. IfSome o (λ s. IsLineOf line.now s)) }
    ensures none { IfOk result (λ o. IfNone o (NoLine line.now)) }
{
    match sent_frame(line) {
        Some(rest) => send_step(alloc, line, rest),
        None => Ok(bare_step(line)),
    }
}

// A frame of the broker, behind its word.
fn send_step(alloc: Global, line: &[u8], rest: &[u8]) -> Result<Option<Step>, NoMemory>
    requires { line.now ≡ codes "send " ++ rest.now }
    ensures found { IfOk result (λ o. IfSome o (λ s. IsLineOf line.now s)) }
    ensures none { IfOk result (λ o. IfNone o (NoLine line.now)) }
{
    match read_sent(alloc, line, rest)? {
        Some(frame) => Ok(Some(Step::Send(frame))),
        None => Ok(None),
    }
}

/// The frame of a line that begins with `send `, where the line is that of a step with a frame; `rest` is what `sent_frame` gave.
///
/// # Errors
/// `NoMemory`.
pub fn read_sent(alloc: Global, line: &[u8], rest: &[u8]) -> Result<Option<Frame>, NoMemory>
    requires { line.now ≡ codes "send " ++ rest.now }
    ensures found { IfOk result (λ o. IfSome o (λ frame. IsLineOf line.now (step.Send frame))) }
    ensures none { IfOk result (λ o. IfNone o (NoLine line.now)) }
{
    read_frame(alloc, rest)
}

// A step that is a word alone.
fn bare_step(line: &[u8]) -> Option<Step>
    ensures some { IfSome result (λ s. IsBare line.now s) }
    ensures none { IfNone result (NoBare line.now) }
{
    if line == b"read".as_slice() {
        Some(Step::Read)
    } else if line == b"deliver".as_slice() {
        Some(Step::Deliver)
    } else if line == b"lose".as_slice() {
        Some(Step::Lose)
    } else {
        None
    }
}
