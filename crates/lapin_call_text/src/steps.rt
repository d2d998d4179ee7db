//! The lines of steps: `next BOOL`, `recv FRAME` and `lost`, as of events, and `ask STR STR BYTES`, `collect` and `take N`.

ghost use Rattle.std.specs.Prelude.{◌≡◌, ◌≢◌, ◌++◌, ℕ, List, codes, IfOk, IfSome, IfNone, MatchOption};
ghost use Rattle.lapin_tokens.specs.Reading.{GivesValue};
ghost use Rattle.lapin_call_text.specs.Steps.{IsLineOf, NoLine};
ghost use Rattle.lapin_call_text.specs.Reading.{asked_in, step_of_event};

use lapin_call::CallStep;
use lapin_text::{read_event, read_num};
use lapin_tokens::{ReadError, Tokens, payload, text};
use lapin_types::{Event, NoMemory};
use std::alloc::Global;

/// The step whose line the bytes are, without a line end, or `None` where no step that has a line has this one.
///
/// # Errors
/// `NoMemory`.
pub fn read_step(alloc: Global, line: &[u8]) -> Result<Option<CallStep>, NoMemory>
    ensures found { IfOk result (λ o. IfSome o (λ s. IsLineOf line.now s)) }
    ensures none { IfOk result (λ o. IfNone o (NoLine line.now)) }
{
    match behind_word(b"ask ", line) {
        Some(rest) => ask_step(alloc, line, rest),
        None => other_step(alloc, line),
    }
}

// What stands behind the word that the line begins with.
fn behind_word<'a>(word: &[u8], line: &'a [u8]) -> Option<&'a [u8]>
    ensures { MatchOption result ((rest : List ℕ) → line.now ≢ word.now ++ rest) (λ rest. line.now ≡ word.now ++ rest.now) }
{
    line.strip_prefix(word)
}

// A request, behind its word.
fn ask_step(alloc: Global, line: &[u8], rest: &[u8]) -> Result<Option<CallStep>, NoMemory>
    requires { line.now ≡ codes "ask " ++ rest.now }
    ensures found { IfOk result (λ o. IfSome o (λ s. IsLineOf line.now s)) }
    ensures none { IfOk result (λ o. IfNone o (NoLine line.now)) }
{
    match read_asked(alloc, rest) {
        Ok(step) => Ok(Some(step)),
        Err(ReadError::Bad) => Ok(None),
        Err(ReadError::Memory) => Err(NoMemory),
    }
}

// An exchange, a routing key and a payload. Nothing may follow.
#[tactic(auto, unfolding(crate::specs::Reading::asked_in))]
fn read_asked(alloc: Global, rest: &[u8]) -> Result<CallStep, ReadError>
    ensures { GivesValue (λ s. s) result (asked_in rest.now) }
{
    let mut tokens = Tokens::new(rest);
    let exchange = text(alloc, &mut tokens)?;
    let routing_key = text(alloc, &mut tokens)?;
    let payload = payload(alloc, &mut tokens)?;
    match tokens.next() {
        Some(_) => Err(ReadError::Bad),
        None => Ok(CallStep::Ask {
            exchange,
            routing_key,
            payload,
        }),
    }
}

// Any other step.
fn other_step(alloc: Global, line: &[u8]) -> Result<Option<CallStep>, NoMemory>
    requires { (rest : List ℕ) → line.now ≢ codes "ask " ++ rest }
    ensures found { IfOk result (λ o. IfSome o (λ s. IsLineOf line.now s)) }
    ensures none { IfOk result (λ o. IfNone o (NoLine line.now)) }
{
    match behind_word(b"take ", line) {
        Some(rest) => Ok(take_step(line, rest)),
        None => bare_step(alloc, line),
    }
}

// The number of a call, behind its word.
fn take_step(line: &[u8], rest: &[u8]) -> Option<CallStep>
    requires { line.now ≡ codes "take " ++ rest.now }
    ensures found { IfSome result (λ s. IsLineOf line.now s) }
    ensures none { IfNone result (NoLine line.now) }
{
    match read_num(rest) {
        Some(number) => Some(CallStep::Take(number)),
        None => None,
    }
}

// A word alone, or the line of an event.
fn bare_step(alloc: Global, line: &[u8]) -> Result<Option<CallStep>, NoMemory>
    requires ask { (rest : List ℕ) → line.now ≢ codes "ask " ++ rest }
    requires take { (rest : List ℕ) → line.now ≢ codes "take " ++ rest }
    ensures found { IfOk result (λ o. IfSome o (λ s. IsLineOf line.now s)) }
    ensures none { IfOk result (λ o. IfNone o (NoLine line.now)) }
{
    if line == b"collect".as_slice() {
        return Ok(Some(CallStep::Collect));
    }
    match read_event(alloc, line)? {
        Some(event) => Ok(step_of(event)),
        None => Ok(None),
    }
}

// The step that an event is, if it is one.
fn step_of(event: Event) -> Option<CallStep>
    ensures { result ≡ step_of_event event }
{
    match event {
        Event::Next(flow) => Some(CallStep::Next(flow)),
        Event::Receive(frame) => Some(CallStep::Receive(frame)),
        Event::Lost => Some(CallStep::Lost),
        event => {
            drop(event);
            None
        }
    }
}
