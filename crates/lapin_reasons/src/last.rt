//! A sink that remembers the end of what it took, so that what a text ends with can be told once the program has ended.
ghost use Rattle.std.specs.Prelude.{◌≡◌};

use lapin_io::{Sink, SinkError};
use std::alloc::Global;
use std::marker::Model;

/// So many bytes are remembered at least, where so many were taken; the lines of a finding and of a bad line are shorter.
const KEPT: usize = 128;

/// As many are held before the first of them are let go.
const HELD: usize = 1_024;

/// A sink, with the last bytes that it took, as far as there was memory for them.
#[derive(Drop)]
pub struct Last<K> {
    sink: K,
    alloc: Global,
    bytes: Vec<u8>,
}

impl<K> Model for Last<K> {
    ghost Value = { K };

    ghost view = { λ last. last.sink };
}

impl<K> Last<K> {
    /// The sink, which took nothing yet.
    pub fn new(alloc: Global, sink: K) -> Last<K>
        ensures { result ≡ sink }
    {
        Last {
            sink,
            alloc,
            bytes: Vec::new(alloc),
        }
    }

    /// The last bytes that it took.
    pub fn bytes(&self) -> &[u8] {
        self.bytes.as_slice()
    }

    // Remembers the last of what it took. Behind a piece for which there was no memory nothing before it is remembered.
    fn keep(&mut self, taken: &[u8])
        ensures { self.new ≡ self.old }
    {
        let end = last_of(taken);
        if end.len() == KEPT {
            self.bytes.clear();
        } else if HELD < self.bytes.len() {
            let mut bytes = Vec::new(self.alloc);
            let _ = bytes.extend_from_slice(last_of(&self.bytes));
            self.bytes = bytes;
        }
        if self.bytes.extend_from_slice(end).is_err() {
            self.bytes.clear();
        }
    }
}

// The last of the bytes, as many as are remembered.
fn last_of(bytes: &[u8]) -> &[u8] {
    bytes.get(bytes.len().saturating_sub(KEPT)..).unwrap_or(b"")
}

impl<K: Sink> Sink for Last<K> {
    ghost written = { λ last. K.written last };

    ghost faults = { λ last. K.faults last };

    fn write(&mut self, bytes: &[u8]) -> Result<usize, SinkError> {
        match self.sink.write(bytes) {
            Ok(count) => {
                self.keep(&bytes[..count]);
                Ok(count)
            }
            Err(error) => Err(error),
        }
    }
}
