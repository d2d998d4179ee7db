//! The bytes that came and were not read yet. A contract sees them as a list.
ghost use Rattle.std.specs.Prelude.{◌≡◌, ◌++◌, drop, OnOk, OnErr, []};

use std::alloc::{AllocError, Global};
use std::marker::Model;

/// The bytes that came and were not read yet.
pub struct Inlet {
    bytes: Vec<u8>,
    read: usize,
}

impl Drop for Inlet {
    fn drop(self) {
        let Inlet { bytes: _, read: _ } = self;
    }
}

impl Model for Inlet {
    ghost use Rattle.std.specs.Prelude.{◌≤◌, length, drop, List, ℕ};

    ghost Value = { List ℕ };

    ghost view = { λ a. drop a.read a.bytes.items };

    ghost invariant = { λ a. a.read ≤ length a.bytes.items };
}

impl Inlet {
    /// Nothing came.
    pub fn new(alloc: Global) -> Inlet
        ensures { result ≡ [] }
    {
        Inlet {
            bytes: Vec::new(alloc),
            read: 0,
        }
    }

    /// What came and was not read.
    pub fn rest(&self) -> &[u8]
        ensures { result.now ≡ self.now }
    {
        &self.bytes[self.read..]
    }

    /// More came. The room of what was read is given up, once it is more than what wasn't: so a byte is moved once, however often less is
    /// read than came.
    pub fn add(&mut self, bytes: &[u8]) -> Result<(), AllocError>
        ensures ok { OnOk result (self.new ≡ self.old ++ bytes.now) }
        ensures err { OnErr result (self.new ≡ self.old) }
    {
        if self.read > self.bytes.len() - self.read {
            self.forget();
        }
        self.bytes.extend_from_slice(bytes)
    }

    /// So many bytes were read.
    pub fn pass(&mut self, count: usize)
        ensures { self.new ≡ drop count self.old }
    {
        if count < self.bytes.len() - self.read {
            self.read += count;
        } else {
            self.read = self.bytes.len();
        }
    }

    // The bytes that were read are let go.
    fn forget(&mut self)
        ensures { self.new ≡ self.old }
    {
        self.bytes.drain(..self.read);
        self.read = 0;
    }
}
