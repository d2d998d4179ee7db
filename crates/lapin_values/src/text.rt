//! Short texts and long strings, the two kinds of string of the protocol (AMQP 0-9-1, section 4.2.5.3).
//! Their limits are kept here, so that no crate above has to test a length again.

ghost use Rattle.std.specs.Prelude.{◌≡◌, ◌<◌, ◌≤◌, ◌↔◌, [], length, Some, IfOk, IsErrOf, nat_eq, box_value};
ghost use Rattle.lapin_values.specs.Stored.{kept};
ghost use Rattle.std.proofs.Common.{rules};
ghost use Rattle.std.specs.Cmp.Lexicographic.{pointwise, slice_cmp, nat_list_eq_equiv, nat_list_cmp_total, texts_po, texts_ties};
ghost use Rattle.std.specs.Ordering.{nat_cmp};
ghost use Rattle.std.specs.Cmp.{partial_equiv_from_equiv};
ghost use Rattle.std.specs.Str.{IsUtf8};

use crate::kept::Stored;
use crate::memory::NoMemory;
use crate::properties::texts::{Link, Place};
use std::alloc::{AllocError, AllocFailed, Global};
use std::cmp::Ordering;
use std::marker::Model;
use thiserror::Error;

/// Why a text could not be made a [`ShortString`].
#[derive(Clone, Copy, Debug, PartialEq, Eq, Error)]
pub enum ShortStringError {
    /// The text has `length` bytes, which are more than 255.
    #[error("a short string has at most 255 bytes, and this text has {length}")]
    TooLong { length: usize },
    /// The allocator had no memory left for the copy.
    #[error("out of memory")]
    NoMemory,
}

impl From<AllocError> for ShortStringError {
    ghost use Rattle.std.specs.Prelude.{◌≡◌};
    ghost use Rattle.lapin_values.specs.declared.text.ShortStringError.TheVariants.{NoMemory};

    ghost from_gives = { λ _ error. error ≡ NoMemory };

    fn from(_error: AllocError) -> ShortStringError {
        ShortStringError::NoMemory
    }
}

impl<T: Drop> From<AllocFailed<T>> for ShortStringError {
    ghost use Rattle.std.specs.Prelude.{◌≡◌};
    ghost use Rattle.lapin_values.specs.declared.text.ShortStringError.TheVariants.{NoMemory};

    ghost from_gives = { λ _ error. error ≡ NoMemory };

    fn from(_failed: AllocFailed<T>) -> ShortStringError {
        ShortStringError::NoMemory
    }
}

/// A text of at most 255 bytes in UTF-8 (AMQP 0-9-1, section 4.2.5.3, "short strings"): a name, a key or
/// a tag. A contract sees it as the list of its bytes.
///
/// It is one pointer wide, since it is handed on by value. What it points to has room for its place among the texts of a message's
/// properties, so that to set one takes no memory.
pub struct ShortString {
    link: Box<Link>,
}

impl Drop for ShortString {
    fn drop(self) {
        let ShortString { link: _ } = self;
    }
}

impl Model for ShortString {
    ghost use Rattle.std.specs.Prelude.{ℕ, List, box_value, length, ◌≤◌};
    ghost use Rattle.lapin_values.specs.Stored.{kept};

    ghost Value = { List ℕ };

    ghost view = { λ s. kept (box_value s.link).text };

    ghost invariant = { λ s. length (kept (box_value s.link).text) ≤ 255 };
}

impl ShortString {
    /// A copy of the text.
    ///
    /// # Errors
    ///
    /// `TooLong`, with the number of bytes, exactly where the text has more than 255; `NoMemory`.
    pub fn new(alloc: Global, text: &str) -> Result<ShortString, ShortStringError>
        ensures ok { IfOk result (λ short. short ≡ text.now) }
        ensures too_long { (n : _) → IsErrOf result (ShortStringError.TooLong n) ↔ ((255 < length text.now) × (n ≡ length text.now)) }
    {
        if text.len() > 255 {
            return Err(ShortStringError::TooLong { length: text.len() });
        }
        let text = Stored::new(alloc, text)?;
        Ok(ShortString {
            link: Box::new(alloc, Link::alone(text))?,
        })
    }

    /// A copy of a text that is known to have at most 255 bytes, as a literal.
    ///
    /// # Errors
    ///
    /// `NoMemory` alone.
    pub fn literal(alloc: Global, text: &str) -> Result<ShortString, NoMemory>
        requires { length text.now ≤ 255 }
        ensures { IfOk result (λ short. short ≡ text.now) }
    {
        let text = Stored::new(alloc, text)?;
        Ok(ShortString {
            link: Box::new(alloc, Link::alone(text))?,
        })
    }

    /// The empty text: the name of the default exchange (AMQP 0-9-1, section 3.1.3.1), of a queue that the broker names, and of a
    /// consumer tag that it makes up.
    ///
    /// # Errors
    ///
    /// `NoMemory` alone.
    pub fn empty(alloc: Global) -> Result<ShortString, NoMemory>
        ensures { IfOk result (λ short. short ≡ []) }
    {
        ShortString::literal(alloc, "")
    }

    /// The text. It has at most 255 bytes, and they are UTF-8.
    pub fn as_str(&self) -> &str
        ensures value { result.now ≡ self.now }
        ensures short { length self.now ≤ 255 }
        ensures utf8 { IsUtf8 self.now }
    {
        self.link.text.as_str()
    }

    /// A text equal to this one.
    ///
    /// # Errors
    ///
    /// `NoMemory`.
    pub fn try_clone(&self, alloc: Global) -> Result<ShortString, NoMemory>
        ensures { IfOk result (λ copy. copy ≡ self.now) }
    {
        let text = self.link.text.try_clone(alloc)?;
        Ok(ShortString {
            link: Box::new(alloc, Link::alone(text))?,
        })
    }

    /// This short string as it lies in memory, to be chained.
    pub(crate) fn into_place(self) -> Place
        ensures text { kept (box_value result.link).text ≡ self }
        ensures short { length self ≤ 255 }
    {
        let ShortString { link } = self;
        Place { link }
    }
}

/// The short string that lies at a place. A short string lies in memory as a place does, and only what contracts see of the two
/// differs.
pub(crate) fn at(place: &Place) -> &ShortString
    requires { length (kept (box_value place.now.link).text) ≤ 255 }
    ensures { result.now ≡ kept (box_value place.now.link).text }
{
    unsafe { &*(place as *const Place as *const ShortString) }
}

impl PartialEq for ShortString {
    ghost eq = { pointwise nat_eq };

    ghost laws = { partial_equiv_from_equiv nat_list_eq_equiv };

    fn eq(&self, other: &ShortString) -> bool {
        self.as_str() == other.as_str()
    }
}

impl Eq for ShortString {
    ghost laws = { nat_list_eq_equiv };
}

/// Texts are in the order of their bytes, as the names of a table are.
impl PartialOrd for ShortString {
    ghost partial_cmp = { λ x y. Some (slice_cmp nat_cmp x y) };

    ghost laws = { texts_po };

    fn partial_cmp(&self, other: &ShortString) -> Option<Ordering> {
        Some(self.cmp(other))
    }
}

impl Ord for ShortString {
    ghost cmp = { slice_cmp nat_cmp };

    ghost total = { nat_list_cmp_total };

    ghost matches_partial_cmp = { Prim.search rules };

    ghost matches_eq = { texts_ties };

    fn cmp(&self, other: &ShortString) -> Ordering {
        self.as_str().cmp(other.as_str())
    }
}

/// A clone takes its memory from where the text has its own.
impl Clone for ShortString {
    ghost use Rattle.std.specs.Prelude.{◌≡◌};

    ghost is_clone = { λ text copy. copy ≡ text };

    fn clone(&self) -> Result<ShortString, AllocError> {
        let alloc = *Box::allocator(&self.link);
        let text = self.link.text.try_clone(alloc)?;
        Ok(ShortString {
            link: Box::new(alloc, Link::alone(text))?,
        })
    }
}

/// The bytes of a string value (AMQP 0-9-1, section 4.2.5.3, "long strings"), which need not be text.
/// A contract sees it as the list of its bytes.
pub struct LongString {
    bytes: Vec<u8>,
}

impl Drop for LongString {
    fn drop(self) {
        let LongString { bytes: _ } = self;
    }
}

impl Model for LongString {
    ghost use Rattle.std.specs.Prelude.{ℕ, List};

    ghost Value = { List ℕ };

    ghost view = { λ s. s.bytes.items };
}

impl LongString {
    /// A copy of the bytes.
    ///
    /// # Errors
    ///
    /// `NoMemory`.
    pub fn new(alloc: Global, bytes: &[u8]) -> Result<LongString, NoMemory>
        ensures { IfOk result (λ long. long ≡ bytes.now) }
    {
        Ok(LongString {
            bytes: Vec::from_slice(alloc, bytes)?,
        })
    }

    /// These very bytes. It takes no memory.
    pub fn from_bytes(bytes: Vec<u8>) -> LongString
        ensures { result ≡ bytes.items }
    {
        LongString { bytes }
    }

    /// The bytes.
    pub fn as_bytes(&self) -> &[u8]
        ensures { result.now ≡ self.now }
    {
        self.bytes.as_slice()
    }

    /// A string equal to this one.
    ///
    /// # Errors
    ///
    /// `NoMemory`.
    pub fn try_clone(&self, alloc: Global) -> Result<LongString, NoMemory>
        ensures { IfOk result (λ copy. copy ≡ self.now) }
    {
        LongString::new(alloc, self.as_bytes())
    }
}

impl PartialEq for LongString {
    ghost eq = { pointwise nat_eq };

    ghost laws = { partial_equiv_from_equiv nat_list_eq_equiv };

    fn eq(&self, other: &LongString) -> bool {
        self.as_bytes() == other.as_bytes()
    }
}
