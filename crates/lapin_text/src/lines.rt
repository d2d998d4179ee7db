//! The lines of an input, one after the other.
//!
//! A line ends at a line feed; a last piece without a line feed that isn't empty is a line too. Nothing is copied here.

ghost use Rattle.std.specs.Prelude.{◌≡◌, ◌==◌, ◌∷◌, ◌<◌, ℕ, List, [], length, IfNone, IfSome, position};
ghost use Rattle.lapin_text.specs.Input.{lines_of};

use memchr::memchr;
use std::marker::Model;

fn first_feed(bytes: &[u8]) -> Option<usize>
    ensures { result ≡ position (λ b. b == 10) bytes.now }
{
    memchr(b'\n', bytes)
}

/// The line before the first line feed, and what stands after that line feed.
fn cut(bytes: &[u8]) -> Option<(&[u8], &[u8])>
    ensures none { IfNone result (0 < length bytes.now → lines_of bytes.now ≡ bytes.now ∷ []) }
    ensures some { IfSome result (λ x. lines_of bytes.now ≡ x.0.now ∷ lines_of x.1.now) }
{
    match first_feed(bytes) {
        Some(place) => Some((&bytes[..place], &bytes[place + 1..])),
        None => None,
    }
}

/// The lines that are still to be read.
#[derive(Drop)]
pub struct Lines<'a> {
    rest: &'a [u8],
}

impl<'a> Model for Lines<'a> {
    ghost Value = { List (List ℕ) };

    ghost view = { λ t. lines_of t.rest.now };
}

impl<'a> Lines<'a> {
    /// The lines of the bytes.
    pub fn new(bytes: &'a [u8]) -> Self
        ensures { result ≡ lines_of bytes.now }
    {
        Lines { rest: bytes }
    }

    /// The lines from here on, once more.
    pub fn again(&self) -> Lines<'a>
        ensures { result ≡ self.now }
    {
        Lines { rest: self.rest }
    }

    /// The next line, without its line end.
    #[tactic(auto, using(crate::proofs::InputLaws::lines_empty, crate::proofs::InputLaws::lines_nil))]
    pub fn next(&mut self) -> Option<&'a [u8]>
        ensures none { IfNone result (self.old ≡ []) }
        ensures some { IfSome result (λ t. self.old ≡ t.now ∷ self.new) }
    {
        let rest = self.rest;
        if rest.is_empty() {
            return None;
        }
        match cut(rest) {
            None => {
                self.rest = &[];
                Some(rest)
            }
            Some((line, after)) => {
                self.rest = after;
                Some(line)
            }
        }
    }
}
