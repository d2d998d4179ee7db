//! The words of the command line, read by hand.
ghost use Rattle.std.specs.Prelude.{◌≡◌, ◌≢◌, ◌∷◌, [], codes, IfOk, IfSome, IfNone, OnErr};
ghost use Rattle.lapin_commands.specs.declared.words.Command.TheVariants as command;
ghost use Rattle.lapin_commands.specs.Words.{Say, SayNothing, IsCommand, bytes_of};

use lapin_text::read_num;
use lapin_types::{NoMemory, ShortString};
use std::alloc::Global;

/// What the program is to do.
#[derive(Debug, Drop)]
pub enum Command {
    /// `session`: runs the events of an input in a session.
    Session,
    /// `joined`: makes the steps of an input in a session that is joined to a free broker.
    Joined,
    /// `check`: checks the transcript of an input.
    Check,
    /// `resend`: makes the steps of an input with a publisher that sends again after a loss.
    Resend,
    /// `call QUEUE`: makes the steps of an input in a session whose requests are answered over the queue, which has 1 to 255 bytes.
    Call(ShortString),
    /// `generate N`: makes the steps of as many publishes in a joined run, from 1 to 10,000.
    Generate(u64),
}

/// The most publishes that are generated.
const MOST_PUBLISHES: u64 = 10_000;

/// The command that the words are, if they are one's.
///
/// # Errors
/// `NoMemory`, where they are `call QUEUE`.
pub fn read_words(alloc: Global, words: &[String]) -> Result<Option<Command>, NoMemory>
    ensures some { IfOk result (λ o. IfSome o (λ c. Say (bytes_of words.now) c)) }
    ensures none { IfOk result (λ o. IfNone o (SayNothing (bytes_of words.now))) }
    ensures err { OnErr result (SayNothing (bytes_of words.now) → ⊥) }
{
    match words {
        [word] => Ok(lone(word.as_str().as_bytes())),
        [word, argument] => pair(alloc, word.as_str(), argument.as_str()),
        _ => Ok(None),
    }
}

// The command of a word and what stands behind it.
fn pair(alloc: Global, word: &str, argument: &str) -> Result<Option<Command>, NoMemory>
    ensures some { IfOk result (λ o. IfSome o (λ c. Say (word.now ∷ argument.now ∷ []) c)) }
    ensures none { IfOk result (λ o. IfNone o (SayNothing (word.now ∷ argument.now ∷ []))) }
    ensures err { OnErr result (SayNothing (word.now ∷ argument.now ∷ []) → ⊥) }
{
    if word == "call" {
        return called(alloc, argument);
    }
    Ok(numbered(word.as_bytes(), argument.as_bytes()))
}

// The command `call` with this queue.
#[tactic(auto, using(crate::proofs::Commands::no_call, crate::proofs::Commands::some_call))]
fn called(alloc: Global, queue: &str) -> Result<Option<Command>, NoMemory>
    ensures some { IfOk result (λ o. IfSome o (λ c. Say (codes "call" ∷ queue.now ∷ []) c)) }
    ensures none { IfOk result (λ o. IfNone o (SayNothing (codes "call" ∷ queue.now ∷ []))) }
    ensures err { OnErr result (SayNothing (codes "call" ∷ queue.now ∷ []) → ⊥) }
{
    if queue.is_empty() {
        return Ok(None);
    }
    if queue.len() > 255 {
        return Ok(None);
    }
    match ShortString::literal(alloc, queue) {
        Ok(queue) => Ok(Some(Command::Call(queue))),
        Err(NoMemory) => Err(NoMemory),
    }
}

// The command of one word.
fn lone(word: &[u8]) -> Option<Command>
    ensures some { IfSome result (λ c. Say (word.now ∷ []) c) }
    ensures none { IfNone result (SayNothing (word.now ∷ [])) }
{
    if word == b"session".as_slice() {
        Some(Command::Session)
    } else if word == b"joined".as_slice() {
        Some(Command::Joined)
    } else if word == b"check".as_slice() {
        Some(Command::Check)
    } else if word == b"resend".as_slice() {
        Some(Command::Resend)
    } else {
        None
    }
}

// The command of a word and a number, where it isn't `call`.
#[tactic(auto, using(crate::proofs::Commands::no_generate, crate::proofs::Commands::no_number))]
fn numbered(word: &[u8], number: &[u8]) -> Option<Command>
    requires { word.now ≢ codes "call" }
    ensures some { IfSome result (λ c. Say (word.now ∷ number.now ∷ []) c) }
    ensures none { IfNone result (SayNothing (word.now ∷ number.now ∷ [])) }
{
    if word != b"generate".as_slice() {
        return None;
    }
    match read_num(number) {
        Some(publishes) => generated(publishes),
        None => None,
    }
}

// The command of so many publishes, from 1 to 10,000.
fn generated(publishes: u64) -> Option<Command>
    ensures some { IfSome result (λ c. (c ≡ command.Generate publishes) × IsCommand c) }
    ensures none { IfNone result (IsCommand (command.Generate publishes) → ⊥) }
{
    if publishes < 1 || MOST_PUBLISHES < publishes {
        return None;
    }
    Some(Command::Generate(publishes))
}
