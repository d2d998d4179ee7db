//! The mark in front of a value: an x before digits of bytes, a minus before a number below 0.

ghost use Rattle.std.specs.Prelude.{◌≡◌, ◌∷◌, ℕ, List, IfSome, IfNone};

/// What stands behind the mark that the bytes begin with.
pub fn behind(mark: u8, bytes: &[u8]) -> Option<&[u8]>
    ensures some { IfSome result (λ rest. bytes.now ≡ mark ∷ rest.now) }
    ensures none { IfNone result ((rest : List ℕ) → bytes.now ≡ mark ∷ rest → ⊥) }
{
    match bytes {
        [first, rest @ ..] if *first == mark => Some(rest),
        _ => None,
    }
}
