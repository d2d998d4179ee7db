//! A source and a sink in memory that never fail: over them a program meets no fault at all.
ghost use Rattle.std.specs.Prelude.{Some, ◌≡◌, ◌<◌, ◌⊎◌, [], length, min, IfOk, IsOk, OnErr, IsErrOf, MatchResult};
ghost use Rattle.std.specs.Io.{ReadsAtMost, WritesAtMost};
ghost use Rattle.std.specs.Io.KnownBytes.{ReadConsumes, WriteAppends};
ghost use Rattle.lapin_io.specs.Numbers.{counted, Rose, Stayed, NeverFalls};

use crate::memory::copy_front;
use crate::{Failed, Sink, SinkError, Source};
use std::alloc::Global;
use std::marker::Model;

/// Bytes in memory, given as many at a time as there is room for.
#[derive(Drop)]
pub struct SureSource {
    bytes: Vec<u8>,
    position: usize,
}

impl Model for SureSource {
    ghost use Rattle.std.specs.Prelude.{◌≤◌, drop, length};
    ghost use Rattle.lapin_io.specs.Memory.{Rest};

    ghost Value = { Rest };

    ghost view = { λ source. record {
      left = drop source.position source.bytes.items;
      given = source.position;
    } };

    ghost invariant = { λ source. source.position ≤ length source.bytes.items };
}

impl SureSource {
    /// Gives these bytes.
    pub fn new(bytes: Vec<u8>) -> SureSource
        ensures left { result.left ≡ bytes.items }
        ensures given { result.given ≡ 0 }
    {
        SureSource { bytes, position: 0 }
    }
}

impl Source for SureSource {
    ghost left = { λ source. Some source.left };

    ghost given = { λ source. source.given };

    ghost faults = { λ _. 0 };

    fn read(&mut self, into: &mut [u8]) -> Result<usize, Failed>
        ensures within { ReadsAtMost result into.new }
        ensures bytes { ReadConsumes (Some self.old.left) (Some self.new.left) result into.new }
        ensures given { NeverFalls self.old.given self.new.given }
        ensures counted { MatchResult result
            (λ n. self.new.given ≡ counted self.old.given n)
            (λ _. self.new.given ≡ self.old.given) }
        ensures faults { NeverFalls 0 0 }
        ensures failed { OnErr result (Rose 0 0) }

        // It never fails, and gives as many bytes as may be.
        ensures ok { IsOk result }
        ensures most { IfOk result (λ n. n ≡ min (length self.old.left) (length into.old)) }
    {
        let rest = &self.bytes[self.position..];
        let count = copy_front(rest, rest.len(), into);
        self.position += count;
        Ok(count)
    }
}

/// Bytes written to memory, each piece whole.
#[derive(Drop)]
pub struct SureSink {
    bytes: Vec<u8>,
}

impl Model for SureSink {
    ghost use Rattle.std.specs.Prelude.{ℕ, List};

    ghost Value = { List ℕ };

    ghost view = { λ sink. sink.bytes.items };
}

impl SureSink {
    /// Nothing is written yet.
    pub fn new(alloc: Global) -> SureSink
        ensures { result ≡ [] }
    {
        SureSink {
            bytes: Vec::new(alloc),
        }
    }

    /// The bytes written so far.
    pub fn bytes(&self) -> &[u8]
        ensures { result.now ≡ self.now }
    {
        self.bytes.as_slice()
    }
}

impl Sink for SureSink {
    ghost written = { λ sink. Some sink };

    ghost faults = { λ _. 0 };

    fn write(&mut self, bytes: &[u8]) -> Result<usize, SinkError>
        ensures within { WritesAtMost result bytes.now }
        ensures bytes { WriteAppends (Some self.old) (Some self.new) result bytes.now }
        ensures faults { NeverFalls 0 0 }
        ensures failed { IsErrOf result SinkError.Failed → Rose 0 0 }
        ensures stuck { result ≡ Ok 0 → 0 < length bytes.now → Rose 0 0 }
        ensures sound { IfOk result (λ n. (length bytes.now ≡ 0) ⊎ (0 < n) → Stayed 0 0) }

        // It takes the whole piece, unless memory runs out.
        ensures whole { IfOk result (λ n. n ≡ length bytes.now) }
        ensures sure { IsErrOf result SinkError.Failed → ⊥ }
    {
        match self.bytes.extend_from_slice(bytes) {
            Ok(()) => Ok(bytes.len()),
            Err(_) => Err(SinkError::NoMemory),
        }
    }
}
