//! What a source of bytes is: the trait alone. Its implementations live in `memory`, `sure` and `standard`,
//! and code above is generic over it.
ghost use Rattle.std.specs.Prelude.{◌≡◌, ℕ, List, Option, OnErr, MatchResult};
ghost use Rattle.std.specs.Io.{ReadsAtMost};
ghost use Rattle.std.specs.Io.KnownBytes.{ReadConsumes};
ghost use Rattle.lapin_io.specs.Numbers.{counted, Rose, NeverFalls};

/// The source failed in this call. Nothing was given, and its number of faults rose.
#[derive(Clone, Copy, Debug, PartialEq, Eq)]
pub struct Failed;

/// Bytes that come in, in pieces of any length.
pub trait Source {
    /// The bytes left, where the source tells them.
    ghost left: { Self → Option (List ℕ) };

    /// How many bytes it has given, up to the greatest u64.
    ghost given: { Self → ℕ };

    /// How often it has failed, up to the greatest u64.
    ghost faults: { Self → ℕ };

    /// Puts bytes at the front of `into` and answers how many, at most its length. Past them nothing is said of `into`.
    /// The answer 0 for a slice that isn't empty is the end of the input.
    fn read(&mut self, into: &mut [u8]) -> Result<usize, Failed>
        ensures within { ReadsAtMost result into.new }

        // They were the first of those left and are no longer left. At 0 for a slice with room none is left.
        // A failed read takes none.
        ensures bytes { ReadConsumes (left self.old) (left self.new) result into.new }

        ensures counted { MatchResult result
            (λ n. given self.new ≡ counted (given self.old) n)
            (λ _. given self.new ≡ given self.old) }
        ensures given { NeverFalls (given self.old) (given self.new) }
        ensures faults { NeverFalls (faults self.old) (faults self.new) }
        ensures failed { OnErr result (Rose (faults self.old) (faults self.new)) };
}
