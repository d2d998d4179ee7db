//! What a sink of bytes is: the trait and its error alone. Its implementations live in `memory`, `sure` and
//! `standard`, and code above is generic over it.
ghost use Rattle.std.specs.Prelude.{◌≡◌, ◌<◌, ◌⊎◌, ℕ, List, Option, length, IfOk, IsErrOf};
ghost use Rattle.std.specs.Io.{WritesAtMost};
ghost use Rattle.std.specs.Io.KnownBytes.{WriteAppends};
ghost use Rattle.lapin_io.specs.Numbers.{Rose, Stayed, NeverFalls};

/// Why a sink took nothing of a piece.
#[derive(Clone, Copy, Debug, PartialEq, Eq)]
pub enum SinkError {
    /// The sink failed in this call, and its number of faults rose.
    Failed,
    /// There was no memory for the piece.
    NoMemory,
}

/// Bytes that go out, in pieces of any length.
pub trait Sink {
    /// The bytes written so far, where the sink tells them.
    ghost written: { Self → Option (List ℕ) };

    /// How often it has failed, up to the greatest u64.
    ghost faults: { Self → ℕ };

    /// Writes the front of `bytes` and answers how many of them, at most all.
    /// The answer 0 for a piece that isn't empty is a fault of the sink. At an error nothing of the piece is written. A call that
    /// took bytes, or that had none to take, has counted no fault.
    fn write(&mut self, bytes: &[u8]) -> Result<usize, SinkError>
        ensures within { WritesAtMost result bytes.now }
        ensures bytes { WriteAppends (written self.old) (written self.new) result bytes.now }
        ensures faults { NeverFalls (faults self.old) (faults self.new) }
        ensures failed { IsErrOf result SinkError.Failed → Rose (faults self.old) (faults self.new) }
        ensures stuck { result ≡ Ok 0 → 0 < length bytes.now → Rose (faults self.old) (faults self.new) }
        ensures sound { IfOk result (λ n. (length bytes.now ≡ 0) ⊎ (0 < n) → Stayed (faults self.old) (faults self.new)) };
}
