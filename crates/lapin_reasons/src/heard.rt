//! A source that remembers what it gave, so that a bad line can be shown once the program has ended.
ghost use Rattle.std.specs.Prelude.{◌≡◌};

use lapin_io::{Failed, Source};
use std::alloc::Global;
use std::marker::Model;

/// How many bytes are remembered at most, so that a long input isn't held twice.
const KEPT: usize = 1_048_576;

/// A source, with the first bytes that it gave, as far as there was memory for them.
#[derive(Drop)]
pub struct Heard<S> {
    source: S,
    bytes: Vec<u8>,
    // Whether it gave more than these.
    is_cut: bool,
}

impl<S> Model for Heard<S> {
    ghost Value = { S };

    ghost view = { λ heard. heard.source };
}

impl<S> Heard<S> {
    /// The source, of which nothing was heard yet.
    pub fn new(alloc: Global, source: S) -> Heard<S>
        ensures { result ≡ source }
    {
        Heard {
            source,
            bytes: Vec::new(alloc),
            is_cut: false,
        }
    }

    /// What it gave so far; of a long input the first lines that are remembered whole.
    pub fn bytes(&self) -> &[u8] {
        let bytes = self.bytes.as_slice();
        if !self.is_cut {
            return bytes;
        }
        match bytes.iter().rposition(|byte| *byte == b'\n') {
            Some(place) => &bytes[..place],
            None => &[],
        }
    }

    // Remembers what it gave, where there is room and memory for all of it; behind a gap nothing more is remembered.
    fn keep(&mut self, given: &[u8])
        ensures { self.new ≡ self.old }
    {
        let room = KEPT.saturating_sub(self.bytes.len());
        if self.is_cut || room < given.len() || self.bytes.extend_from_slice(given).is_err() {
            self.is_cut = true;
        }
    }
}

impl<S: Source> Source for Heard<S> {
    ghost left = { λ heard. S.left heard };

    ghost given = { λ heard. S.given heard };

    ghost faults = { λ heard. S.faults heard };

    fn read(&mut self, into: &mut [u8]) -> Result<usize, Failed> {
        match self.source.read(into) {
            Ok(count) => {
                self.keep(&into[..count]);
                Ok(count)
            }
            Err(Failed) => Err(Failed),
        }
    }
}
