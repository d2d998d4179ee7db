//! The words of the command line, read by hand.
ghost use Rattle.std.specs.Prelude.{◌≡◌, ℕ, IfNone, IfSome};
ghost use Rattle.lapin_shared_commands.specs.Words.{AreShared, AreCounted, IsCount};

use lapin_text::read_num;

/// The number of callers, where the words are `shared N`.
pub fn shared_callers(words: &[String]) -> Option<usize>
    ensures some { IfSome result (λ n. AreShared words.now n) }
    ensures none { IfNone result ((n : ℕ) → AreShared words.now n → ⊥) }
{
    counted("shared", words)
}

/// The number from 1 to 64 that stands alone behind this word.
pub fn counted(command: &str, words: &[String]) -> Option<usize>
    ensures some { IfSome result (λ n. AreCounted command.now words.now n) }
    ensures none { IfNone result ((n : ℕ) → AreCounted command.now words.now n → ⊥) }
{
    match words {
        [word, number] if word.as_str() == command => count_of(number.as_bytes()),
        _ => None,
    }
}

/// The number from 1 to 64 that this text says.
#[tactic(auto, using(crate::proofs::Counts::no_number, crate::proofs::Counts::another_number))]
fn count_of(piece: &[u8]) -> Option<usize>
    ensures some { IfSome result (λ n. IsCount piece.now n) }
    ensures none { IfNone result ((n : ℕ) → IsCount piece.now n → ⊥) }
{
    match read_num(piece) {
        Some(callers) if 1 <= callers && callers <= 64 => Some(callers as usize),
        _ => None,
    }
}
