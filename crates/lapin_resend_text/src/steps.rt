//! The lines of steps: `submit STR STR BYTES`, `next`, `read`, `send FRAME`, `deliver`, `lose` and `status N`.

ghost use Rattle.std.specs.Prelude.{◌≡◌, ◌≢◌, ◌++◌, ℕ, List, codes, IfOk, IfSome, IfNone, MatchOption};
ghost use Rattle.lapin_resend_text.specs.Steps.{IsLineOf, NoLine, IsBare, NoBare};

use crate::messages::read_message;
use lapin_resend::ResendStep;
use lapin_text::{read_frame, read_num};
use lapin_types::NoMemory;
use std::alloc::Global;

/// The step whose line the bytes are, without a line end, or `None` where no step that has a line has this one.
///
/// # Errors
/// `NoMemory`.
pub fn read_resend_step(alloc: Global, line: &[u8]) -> Result<Option<ResendStep>, NoMemory>
    ensures found { IfOk result (λ o. IfSome o (λ s. IsLineOf line.now s)) }
    ensures none { IfOk result (λ o. IfNone o (NoLine line.now)) }
{
    match behind_word(b"submit ", line) {
        Some(rest) => submit_step(alloc, line, rest),
        None => other_step(alloc, line),
    }
}

// What stands behind the word that the line begins with.
fn behind_word<'a>(word: &[u8], line: &'a [u8]) -> Option<&'a [u8]>
    ensures { MatchOption result ((rest : List ℕ) → line.now ≢ word.now ++ rest) (λ rest. line.now ≡ word.now ++ rest.now) }
{
    line.strip_prefix(word)
}

// A message, behind its word.
fn submit_step(alloc: Global, line: &[u8], rest: &[u8]) -> Result<Option<ResendStep>, NoMemory>
    requires { line.now ≡ codes "submit " ++ rest.now }
    ensures found { IfOk result (λ o. IfSome o (λ s. IsLineOf line.now s)) }
    ensures none { IfOk result (λ o. IfNone o (NoLine line.now)) }
{
    match read_message(alloc, rest)? {
        Some(message) => Ok(Some(ResendStep::Submit(message))),
        None => Ok(None),
    }
}

// Any other step.
fn other_step(alloc: Global, line: &[u8]) -> Result<Option<ResendStep>, NoMemory>
    requires { (rest : List ℕ) → line.now ≢ codes "submit " ++ rest }
    ensures found { IfOk result (λ o. IfSome o (λ s. IsLineOf line.now s)) }
    ensures none { IfOk result (λ o. IfNone o (NoLine line.now)) }
{
    match behind_word(b"send ", line) {
        Some(rest) => send_step(alloc, line, rest),
        None => Ok(short_step(line)),
    }
}

// A frame of the broker, behind its word.
fn send_step(alloc: Global, line: &[u8], rest: &[u8]) -> Result<Option<ResendStep>, NoMemory>
    requires { line.now ≡ codes "send " ++ rest.now }
    ensures found { IfOk result (λ o. IfSome o (λ s. IsLineOf line.now s)) }
    ensures none { IfOk result (λ o. IfNone o (NoLine line.now)) }
{
    match read_frame(alloc, rest)? {
        Some(frame) => Ok(Some(ResendStep::Send(frame))),
        None => Ok(None),
    }
}

// A question, or a step that is a word alone.
fn short_step(line: &[u8]) -> Option<ResendStep>
    requires submit { (rest : List ℕ) → line.now ≢ codes "submit " ++ rest }
    requires send { (rest : List ℕ) → line.now ≢ codes "send " ++ rest }
    ensures found { IfSome result (λ s. IsLineOf line.now s) }
    ensures none { IfNone result (NoLine line.now) }
{
    match behind_word(b"status ", line) {
        Some(rest) => status_step(line, rest),
        None => bare_step(line),
    }
}

// A number, behind its word.
fn status_step(line: &[u8], rest: &[u8]) -> Option<ResendStep>
    requires { line.now ≡ codes "status " ++ rest.now }
    ensures found { IfSome result (λ s. IsLineOf line.now s) }
    ensures none { IfNone result (NoLine line.now) }
{
    match read_num(rest) {
        Some(number) => Some(ResendStep::Status(number)),
        None => None,
    }
}

// A step that is a word alone.
fn bare_step(line: &[u8]) -> Option<ResendStep>
    ensures some { IfSome result (λ s. IsBare line.now s) }
    ensures none { IfNone result (NoBare line.now) }
{
    if line == b"next".as_slice() {
        Some(ResendStep::Next)
    } else if line == b"read".as_slice() {
        Some(ResendStep::Read)
    } else if line == b"deliver".as_slice() {
        Some(ResendStep::Deliver)
    } else if line == b"lose".as_slice() {
        Some(ResendStep::Lose)
    } else {
        None
    }
}
