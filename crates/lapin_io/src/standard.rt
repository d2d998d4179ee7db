//! The process's own standard input and output as a source and a sink, with their faults counted. They tell nothing of
//! the bytes, which no proof can see. Only `main` makes them.
ghost use Rattle.std.specs.Prelude.{None, ◌≡◌};
ghost use Rattle.lapin_io.specs.Numbers.{counted};

use crate::{Failed, Sink, SinkError, Source};
use std::io::{Read, Stdin, Stdout, Write};
use std::marker::Model;

/// Standard input.
#[derive(Drop)]
pub struct StdSource {
    input: Stdin,
    given: u64,
    faults: u64,
}

impl Model for StdSource {
    ghost use Rattle.std.specs.Prelude.{◌<◌, ◌^◌};
    ghost use Rattle.lapin_io.specs.Standard.{InputCounts};

    ghost Value = { InputCounts };

    ghost view = { λ source. record { given = source.given; faults = source.faults } };

    ghost invariant = { λ source. (source.given < 2 ^ 64) × (source.faults < 2 ^ 64) };
}

impl StdSource {
    /// Reads from standard input, of which nothing has been given yet.
    pub fn new(input: Stdin) -> StdSource
        ensures given { result.given ≡ 0 }
        ensures faults { result.faults ≡ 0 }
    {
        StdSource {
            input,
            given: 0,
            faults: 0,
        }
    }
}

impl Source for StdSource {
    ghost left = { λ _. None };

    ghost given = { λ source. source.given };

    ghost faults = { λ source. source.faults };

    fn read(&mut self, into: &mut [u8]) -> Result<usize, Failed> {
        match self.input.read(into) {
            Ok(count) => {
                self.given = self.given.saturating_add(count as u64);
                Ok(count)
            }
            Err(_) => {
                self.faults = self.faults.saturating_add(1);
                Err(Failed)
            }
        }
    }
}

/// Standard output.
#[derive(Drop)]
pub struct StdSink {
    output: Stdout,
    faults: u64,
}

impl Model for StdSink {
    ghost use Rattle.std.specs.Prelude.{◌<◌, ◌^◌};
    ghost use Rattle.lapin_io.specs.Standard.{OutputCounts};

    ghost Value = { OutputCounts };

    ghost view = { λ sink. record { faults = sink.faults } };

    ghost invariant = { λ sink. sink.faults < 2 ^ 64 };
}

impl StdSink {
    /// Writes to standard output, which has not failed yet.
    pub fn new(output: Stdout) -> StdSink
        ensures { result.faults ≡ 0 }
    {
        StdSink { output, faults: 0 }
    }

    // Counts one more fault.
    fn count_fault(&mut self)
        ensures { self.new.faults ≡ counted self.old.faults 1 }
    {
        self.faults = self.faults.saturating_add(1);
    }
}

impl Sink for StdSink {
    ghost written = { λ _. None };

    ghost faults = { λ sink. sink.faults };

    fn write(&mut self, bytes: &[u8]) -> Result<usize, SinkError> {
        match self.output.write(bytes) {
            Ok(count) => {
                if count == 0 && !bytes.is_empty() {
                    self.count_fault();
                }
                Ok(count)
            }
            Err(_) => {
                self.count_fault();
                Err(SinkError::Failed)
            }
        }
    }
}
