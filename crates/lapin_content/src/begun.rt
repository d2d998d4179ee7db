//! A content whose header came.
//!
//! The bodies are appended to one buffer, which grows as they come: what a header announces reserves nothing. Which content a
//! body belongs to stands in `queue`.

ghost use Rattle.std.specs.Prelude.{◌≡◌, ◌≤◌, [], OnOk, OnErr, length};
ghost use Rattle.lapin_content.specs.Contents.{grown, lacks_only};

use lapin_types::{BasicProperties, NoMemory, Payload};
use std::alloc::Global;
use std::marker::Model;

/// A content whose header came: how many bytes it still lacks, and the bodies so far, joined.
#[derive(Drop)]
pub(crate) struct Begun {
    properties: BasicProperties,
    left: u64,
    bytes: Vec<u8>,
}

impl Model for Begun {
    ghost use Rattle.lapin_content.specs.Contents.{Begun};
    ghost use Rattle.lapin_content.specs.Codes.{begun_code};

    ghost Value = { Begun };

    ghost coded = { begun_code };

    ghost view = { λ a. record { properties = a.properties; left = a.left; bytes = a.bytes.items } };
}

impl Begun {
    /// No body came yet. It takes no memory.
    pub(crate) fn new(alloc: Global, properties: BasicProperties, size: u64) -> Begun
        ensures { result ≡ record { properties = properties; left = size; bytes = [] } }
    {
        Begun {
            properties,
            left: size,
            bytes: Vec::new(alloc),
        }
    }

    /// How many bytes it still lacks.
    pub(crate) fn left(&self) -> u64
        ensures { result ≡ self.now.left }
    {
        self.left
    }

    /// Whether these bytes alone are the content.
    pub(crate) fn lacks_only(&self, bytes: &[u8]) -> bool
        ensures { result ≡ lacks_only bytes.now self.now }
    {
        self.bytes.is_empty() && self.left == bytes.len() as u64
    }

    /// Appends a body. The earlier bytes are moved only where the buffer has to grow.
    pub(crate) fn append(&mut self, body: &Payload) -> Result<(), NoMemory>
        requires { length body.now ≤ self.old.left }
        ensures ok { OnOk result (self.new ≡ grown body.now self.old) }
        ensures err { OnErr result (self.new ≡ self.old) }
    {
        let bytes = body.as_bytes();
        self.bytes.extend_from_slice(bytes)?;
        self.left -= bytes.len() as u64;
        Ok(())
    }

    /// Its properties, and the bodies joined: the buffer itself.
    pub(crate) fn into_parts(self) -> (BasicProperties, Payload)
        ensures properties { result.0 ≡ self.properties }
        ensures payload { result.1 ≡ self.bytes }
    {
        (self.properties, Payload::from_bytes(self.bytes))
    }

    /// Its properties.
    pub(crate) fn into_properties(self) -> BasicProperties
        ensures { result ≡ self.properties }
    {
        self.properties
    }
}
