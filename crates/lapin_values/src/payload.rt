//! The bytes of a message's body, whole or in the pieces that body frames carry (AMQP 0-9-1, section 4.2.6.2).
//! Nothing here knows of frames.

ghost use Rattle.std.specs.Prelude.{◌≡◌, IfOk, nat_eq};
ghost use Rattle.std.specs.Cmp.Lexicographic.{pointwise, nat_list_eq_equiv};
ghost use Rattle.std.specs.Cmp.{partial_equiv_from_equiv};

use crate::memory::NoMemory;
use std::alloc::Global;
use std::marker::Model;

/// The bytes of a message's body, a piece of one, or a field value that is a byte array. A contract sees
/// them as a list.
pub struct Payload {
    bytes: Vec<u8>,
}

impl Drop for Payload {
    fn drop(self) {
        let Payload { bytes: _ } = self;
    }
}

impl Model for Payload {
    ghost use Rattle.std.specs.Prelude.{ℕ, List};

    ghost Value = { List ℕ };

    ghost view = { λ s. s.bytes.items };
}

impl Payload {
    /// A copy of the bytes.
    ///
    /// # Errors
    ///
    /// `NoMemory`.
    pub fn new(alloc: Global, bytes: &[u8]) -> Result<Payload, NoMemory>
        ensures { IfOk result (λ payload. payload ≡ bytes.now) }
    {
        Ok(Payload {
            bytes: Vec::from_slice(alloc, bytes)?,
        })
    }

    /// These very bytes. It takes no memory.
    pub fn from_bytes(bytes: Vec<u8>) -> Payload
        ensures { result ≡ bytes.items }
    {
        Payload { bytes }
    }

    /// The bytes.
    pub fn as_bytes(&self) -> &[u8]
        ensures { result.now ≡ self.now }
    {
        self.bytes.as_slice()
    }

    /// A payload equal to this one.
    ///
    /// # Errors
    ///
    /// `NoMemory`.
    pub fn try_clone(&self, alloc: Global) -> Result<Payload, NoMemory>
        ensures { IfOk result (λ copy. copy ≡ self.now) }
    {
        Payload::new(alloc, self.as_bytes())
    }
}

impl PartialEq for Payload {
    ghost eq = { pointwise nat_eq };

    ghost laws = { partial_equiv_from_equiv nat_list_eq_equiv };

    fn eq(&self, other: &Payload) -> bool {
        self.as_bytes() == other.as_bytes()
    }
}
