//! A source and a sink in memory that pass their bytes in pieces and fail at the calls that they are told: for tests
//! of the code above, which is to stand whatever the pieces and the faults.
ghost use Rattle.std.specs.Prelude.{Some, ◌≡◌, ◌≤◌, ◌<◌, ◌↔◌, ◌⊎◌, [], length, take, min, true, is_err, IfOk, OnErr, IsErrOf, MatchResult};
ghost use Rattle.std.specs.Io.{ReadsAtMost, WritesAtMost};
ghost use Rattle.std.specs.Io.KnownBytes.{ReadConsumes, WriteAppends};
ghost use Rattle.lapin_io.specs.Calls.{no_calls, fails_next, after_call};
ghost use Rattle.lapin_io.specs.Numbers.{counted, Rose, Stayed, NeverFalls};

use crate::calls::Calls;
use crate::{Failed, Sink, SinkError, Source};
use std::alloc::Global;
use std::marker::Model;

/// Bytes in memory, given in pieces.
#[derive(Drop)]
pub struct MemorySource {
    bytes: Vec<u8>,
    position: usize,
    most: usize,
    calls: Calls,
}

impl Model for MemorySource {
    ghost use Rattle.std.specs.Prelude.{◌≤◌, ◌<◌, drop, length};
    ghost use Rattle.lapin_io.specs.Memory.{Supply};

    ghost Value = { Supply };

    ghost view = { λ source. record {
      left = drop source.position source.bytes.items;
      given = source.position;
      most = source.most;
      calls = source.calls;
    } };

    ghost invariant = { λ source. (source.position ≤ length source.bytes.items) × (0 < source.most) };
}

impl MemorySource {
    /// Gives these bytes, at most `most` in a call. The calls whose numbers stand in `failing` fail, the first being 1.
    pub fn new(bytes: Vec<u8>, most: usize, failing: Vec<u64>) -> MemorySource
        requires { 1 ≤ most }
        ensures left { result.left ≡ bytes.items }
        ensures given { result.given ≡ 0 }
        ensures most { result.most ≡ most }
        ensures calls { result.calls ≡ no_calls failing.items }
    {
        MemorySource {
            bytes,
            position: 0,
            most,
            calls: Calls::new(failing),
        }
    }
}

/// Copies the front of `bytes` to the front of `into`, as many as there is room for and at most `most`.
pub(crate) fn copy_front(bytes: &[u8], most: usize, into: &mut [u8]) -> usize
    ensures count { result ≡ min most (min (length bytes.now) (length into.old)) }
    ensures front { take result into.new ≡ take result bytes.now }
{
    let count = most.min(bytes.len().min(into.len()));
    into[..count].copy_from_slice(&bytes[..count]);
    count
}

impl Source for MemorySource {
    ghost left = { λ source. Some source.left };

    ghost given = { λ source. source.given };

    ghost faults = { λ source. source.calls.faults };

    fn read(&mut self, into: &mut [u8]) -> Result<usize, Failed>
        ensures within { ReadsAtMost result into.new }
        ensures bytes { ReadConsumes (Some self.old.left) (Some self.new.left) result into.new }
        ensures given { NeverFalls self.old.given self.new.given }
        ensures counted { MatchResult result
            (λ n. self.new.given ≡ counted self.old.given n)
            (λ _. self.new.given ≡ self.old.given) }
        ensures faults { NeverFalls self.old.calls.faults self.new.calls.faults }
        ensures failed { OnErr result (Rose self.old.calls.faults self.new.calls.faults) }

        // It fails at the calls that it was told to, and else gives as many bytes as may be.
        ensures fails { is_err result ≡ fails_next self.old.calls }
        ensures most { IfOk result (λ n. n ≡ min self.old.most (min (length self.old.left) (length into.old))) }
        ensures calls { self.new.calls ≡ after_call self.old.calls }
        ensures same { self.new.most ≡ self.old.most }
    {
        if self.calls.begin() {
            return Err(Failed);
        }
        let count = copy_front(&self.bytes[self.position..], self.most, into);
        self.position += count;
        Ok(count)
    }
}

/// Bytes written to memory, taken in pieces.
#[derive(Drop)]
pub struct MemorySink {
    bytes: Vec<u8>,
    most: usize,
    calls: Calls,
}

impl Model for MemorySink {
    ghost use Rattle.lapin_io.specs.Memory.{Store};

    ghost Value = { Store };

    ghost view = { λ sink. record { written = sink.bytes.items; most = sink.most; calls = sink.calls } };
}

impl MemorySink {
    /// Takes at most `most` bytes in a call; where that is 0, each piece that isn't empty is a fault. The calls whose
    /// numbers stand in `failing` fail, the first being 1.
    pub fn new(alloc: Global, most: usize, failing: Vec<u64>) -> MemorySink
        ensures written { result.written ≡ [] }
        ensures most { result.most ≡ most }
        ensures calls { result.calls ≡ no_calls failing.items }
    {
        MemorySink {
            bytes: Vec::new(alloc),
            most,
            calls: Calls::new(failing),
        }
    }

    /// The bytes written so far.
    pub fn bytes(&self) -> &[u8]
        ensures { result.now ≡ self.now.written }
    {
        self.bytes.as_slice()
    }
}

impl Sink for MemorySink {
    ghost written = { λ sink. Some sink.written };

    ghost faults = { λ sink. sink.calls.faults };

    fn write(&mut self, bytes: &[u8]) -> Result<usize, SinkError>
        ensures within { WritesAtMost result bytes.now }
        ensures bytes { WriteAppends (Some self.old.written) (Some self.new.written) result bytes.now }
        ensures faults { NeverFalls self.old.calls.faults self.new.calls.faults }
        ensures failed { IsErrOf result SinkError.Failed → Rose self.old.calls.faults self.new.calls.faults }
        ensures stuck { result ≡ Ok 0 → 0 < length bytes.now → Rose self.old.calls.faults self.new.calls.faults }
        ensures sound { IfOk result (λ n. (length bytes.now ≡ 0) ⊎ (0 < n) → Stayed self.old.calls.faults self.new.calls.faults) }

        // It fails at the calls that it was told to, and else takes as many bytes as may be.
        ensures fails { IsErrOf result SinkError.Failed ↔ (fails_next self.old.calls ≡ true) }
        ensures most { IfOk result (λ n. n ≡ min self.old.most (length bytes.now)) }
        ensures calls { 0 < self.old.most → self.new.calls ≡ after_call self.old.calls }
        ensures made { self.new.calls.made ≡ counted self.old.calls.made 1 }
        ensures failing { self.new.calls.failing ≡ self.old.calls.failing }
        ensures same { self.new.most ≡ self.old.most }
    {
        if self.calls.begin() {
            return Err(SinkError::Failed);
        }
        let count = self.most.min(bytes.len());
        if count == 0 && !bytes.is_empty() {
            self.calls.count_fault();
            return Ok(0);
        }
        match self.bytes.extend_from_slice(&bytes[..count]) {
            Ok(()) => Ok(count),
            Err(_) => Err(SinkError::NoMemory),
        }
    }
}
