//! A walk through the bytes of one token: marks, letters and single values.
//!
//! Only the readers of tables and properties walk here; the pieces of a line are cut elsewhere.

ghost use Rattle.std.specs.Prelude.{◌≡◌, ◌==◌, ◌∷◌, ◌++◌, ℕ, List, [], length, position, IfSome, IfNone, IsTrue};
ghost use Rattle.lapin_tokens.specs.Cursor.{after_mark, after_text, word_of, after_word, is_separator, GivesRest, Moved, Ends};
ghost use Rattle.lapin_tokens.specs.ValueReading.{next_letter};

use crate::letters::{Letter, letter_named};
use lapin_scalars::{ReadError, behind};
use std::marker::Model;

fn first_separator(bytes: &[u8]) -> Option<usize>
    ensures { result ≡ position is_separator bytes.now }
{
    bytes
        .iter()
        .position(|b| *b == b',' || *b == b'=' || *b == b']' || *b == b'}')
}

fn split_word(bytes: &[u8]) -> (&[u8], &[u8])
    ensures word { result.0.now ≡ word_of bytes.now }
    ensures rest { result.1.now ≡ after_word bytes.now }
{
    match first_separator(bytes) {
        Some(place) => (&bytes[..place], &bytes[place..]),
        None => (bytes, &[]),
    }
}

fn behind_text<'a>(text: &[u8], bytes: &'a [u8]) -> Option<&'a [u8]>
    ensures some { IfSome result (λ rest. after_text text.now bytes.now ≡ Some rest.now) }
    ensures none { IfNone result (after_text text.now bytes.now ≡ None) }
{
    bytes.strip_prefix(text)
}

// What stands behind the mark, the name and an equals sign.
fn behind_name<'a>(mark: u8, name: &[u8], bytes: &'a [u8]) -> Option<&'a [u8]>
    ensures some { IfSome result (λ rest. after_text (mark ∷ name.now ++ 61 ∷ []) bytes.now ≡ Some rest.now) }
    ensures none { IfNone result (after_text (mark ∷ name.now ++ 61 ∷ []) bytes.now ≡ None) }
{
    match behind(mark, bytes) {
        Some(named) => match behind_text(name, named) {
            Some(rest) => behind(b'=', rest),
            None => None,
        },
        None => None,
    }
}

/// The bytes of a token that are still to be read. A contract sees them as a list.
#[derive(Drop)]
pub struct Cursor<'a> {
    rest: &'a [u8],
}

impl<'a> Model for Cursor<'a> {
    ghost Value = { List ℕ };

    ghost view = { λ t. t.rest.now };
}

impl<'a> Cursor<'a> {
    /// At the first of the bytes.
    pub fn new(bytes: &'a [u8]) -> Self
        ensures { result ≡ bytes.now }
    {
        Cursor { rest: bytes }
    }

    /// How many bytes are left.
    pub fn len(&self) -> usize
        ensures { result ≡ length self.now }
    {
        self.rest.len()
    }

    /// Whether the next byte is the mark. Then it is passed.
    pub fn skip(&mut self, mark: u8) -> bool
        ensures { Moved result self.old self.new (after_mark mark self.old) }
    {
        match self.rest {
            [first, rest @ ..] if *first == mark => {
                self.rest = rest;
                true
            }
            _ => false,
        }
    }

    /// Passes the mark, which has to be the next byte.
    pub fn expect(&mut self, mark: u8) -> Result<(), ReadError>
        ensures { GivesRest result self.new (after_mark mark self.old) }
    {
        if self.skip(mark) {
            Ok(())
        } else {
            Err(ReadError::Bad)
        }
    }

    /// The kind of value that the next byte is the letter of. The letter is passed.
    pub fn letter(&mut self) -> Option<Letter>
        ensures some { IfSome result (λ l. next_letter self.old ≡ Some (l, self.new)) }
        ensures none { IfNone result (next_letter self.old ≡ None) }
    {
        match self.rest {
            [first, rest @ ..] => {
                let letter = letter_named(*first);
                self.rest = rest;
                letter
            }
            [] => None,
        }
    }

    /// The bytes up to the next comma, equals sign or closing bracket. They are passed.
    pub fn word(&mut self) -> &'a [u8]
        ensures word { result.now ≡ word_of self.old }
        ensures rest { self.new ≡ after_word self.old }
    {
        let (word, rest) = split_word(self.rest);
        self.rest = rest;
        word
    }

    /// Whether the mark, the name and an equals sign stand next. Then they are passed.
    pub fn skip_name(&mut self, mark: u8, name: &[u8]) -> bool
        ensures { Moved result self.old self.new (after_text (mark ∷ name.now ++ 61 ∷ []) self.old) }
    {
        match behind_name(mark, name, self.rest) {
            Some(rest) => {
                self.rest = rest;
                true
            }
            None => false,
        }
    }

    /// Nothing may be left.
    pub fn finish(&self) -> Result<(), ReadError>
        ensures { Ends result self.now }
    {
        match self.rest {
            [] => Ok(()),
            _ => Err(ReadError::Bad),
        }
    }
}
