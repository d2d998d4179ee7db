//! How a short string keeps its text: in place where the text is short, so that it takes no memory beside the link that it stands in.

ghost use Rattle.std.specs.Prelude.{◌≡◌, ◌≤◌, length, IfOk};
ghost use Rattle.std.specs.Str.{IsUtf8};
ghost use Rattle.lapin_values.specs.Stored.{kept};

use arrayvec::ArrayString;
use std::alloc::{AllocError, Global};

/// The bytes that stand in place: exchanges, queues, keys and tags mostly have no more.
const IN_PLACE: usize = 16;

/// A text, in place where it has at most 16 bytes.
#[derive(Drop)]
pub(crate) enum Stored {
    Short(ArrayString<16>),
    Long(String),
}

impl Stored {
    /// A copy of the text. It takes memory where the text has more bytes than stand in place.
    #[inline(always)]
    pub(crate) fn new(alloc: Global, text: &str) -> Result<Stored, AllocError>
        ensures { IfOk result (λ it. kept it ≡ text.now) }
    {
        if text.len() > IN_PLACE {
            return Ok(Stored::Long(String::from_str(alloc, text)?));
        }
        Ok(Stored::Short(in_place(text)))
    }

    /// The text.
    #[inline(always)]
    pub(crate) fn as_str(&self) -> &str
        ensures value { result.now ≡ kept self.now }
        ensures utf8 { IsUtf8 (kept self.now) }
    {
        match self {
            Stored::Short(text) => text.as_str(),
            Stored::Long(text) => text.as_str(),
        }
    }

    /// A text equal to this one.
    #[inline(always)]
    pub(crate) fn try_clone(&self, alloc: Global) -> Result<Stored, AllocError>
        ensures { IfOk result (λ it. kept it ≡ kept self.now) }
    {
        match self {
            Stored::Short(text) => Ok(Stored::Short(*text)),
            Stored::Long(text) => Ok(Stored::Long(String::from_str(alloc, text.as_str())?)),
        }
    }
}

#[inline(always)]
fn in_place(text: &str) -> ArrayString<16>
    requires { length text.now ≤ 16 }
    ensures { result.bytes ≡ text.now }
{
    let mut short = ArrayString::new();
    short.push_str(text);
    short
}
