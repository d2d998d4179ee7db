//! The pieces of a line, between single spaces. A doubled space has an empty piece in between.

ghost use Rattle.std.specs.Prelude.{◌≡◌, ◌==◌, ◌∷◌, ◌<◌, ◌^◌, ℕ, List, [], true, false, IfNone, IfSome, decimal, length, position, slice_index, take, if◌then◌else◌};
ghost use Rattle.std.specs.List.{slice_split};
ghost use Rattle.std.specs.Str.{bytes_eq};
ghost use Rattle.lapin_tokens.specs.Fields.{token};
ghost use Rattle.lapin_tokens.specs.Reading.{has_no_space};
ghost use Rattle.lapin_tokens.specs.Fields.Field.{flag as flag_field};

use crate::digits::{begins_plainly, digits_ahead};
use memchr::memchr;
use std::marker::Model;

/// Most pieces are shorter. So far a loop finds a space sooner than a search of many bytes at once.
const NEAR: usize = 16;

/// Whether a piece is the word. Words are short: a loop compares them sooner than a comparison of many bytes at once.
pub fn is_word(piece: &[u8], word: &[u8]) -> bool
    ensures { result ≡ bytes_eq piece.now word.now }
{
    if piece.len() != word.len() {
        return false;
    }
    let mut place = 0;
    while place < piece.len() {
        if piece[place] != word[place] {
            return false;
        }
        place += 1;
    }
    true
}

// Whether a line begins with the word and a space behind it.
#[inline(always)]
fn begins_with(line: &[u8], word: &[u8]) -> bool
    ensures within { result ≡ true → length word.now < length line.now }
    ensures word { result ≡ true → take (length word.now) line.now ≡ word.now }
    ensures space { result ≡ true → slice_index line.now (length word.now) ≡ 32 }
{
    let count = word.len();
    if line.len() <= count || line[count] != b' ' {
        return false;
    }
    let mut place = 0;
    while place < count {
        if line[place] != word[place] {
            return false;
        }
        place += 1;
    }
    true
}

fn first_space(line: &[u8]) -> Option<usize>
    ensures { result ≡ position (λ b. b == 32) line.now }
{
    let mut place = 0;
    while place < NEAR && place < line.len() {
        if line[place] == b' ' {
            return Some(place);
        }
        place += 1;
    }
    if place == line.len() {
        return None;
    }
    match memchr(b' ', &line[place..]) {
        Some(more) => Some(place + more),
        None => None,
    }
}

/// The piece before the first space, and what stands after that space.
fn cut(line: &[u8]) -> Option<(&[u8], &[u8])>
    ensures none { IfNone result (slice_split (λ b. b == 32) line.now ≡ line.now ∷ []) }
    ensures some { IfSome result (λ x. slice_split (λ b. b == 32) line.now ≡ x.0.now ∷ slice_split (λ b. b == 32) x.1.now) }
{
    match first_space(line) {
        Some(place) => Some((&line[..place], &line[place + 1..])),
        None => None,
    }
}

/// The pieces of a line that are still to be read. A contract sees them as a list.
#[derive(Drop)]
pub struct Tokens<'a> {
    rest: &'a [u8],
    more: bool,
}

impl<'a> Model for Tokens<'a> {
    ghost Value = { List (List ℕ) };

    ghost view = { λ t. if t.more then slice_split (λ b. b == 32) t.rest.now else [] };
}

impl<'a> Tokens<'a> {
    /// All pieces of a line.
    pub fn new(line: &'a [u8]) -> Self
        ensures { result ≡ slice_split (λ b. b == 32) line.now }
    {
        Tokens {
            rest: line,
            more: true,
        }
    }

    /// The pieces that are still to be read, once more.
    #[inline(always)]
    pub fn again(&self) -> Tokens<'a>
        ensures { result ≡ self.now }
    {
        Tokens {
            rest: self.rest,
            more: self.more,
        }
    }

    /// Reads the next piece where it is this word and another piece follows. Whether it did; else nothing is read. A word that the caller
    /// knows costs a comparison for each of its bytes, and the piece isn't cut first.
    #[inline(always)]
    pub fn word(&mut self, word: &[u8]) -> bool
        requires { has_no_space word.now ≡ true }
        ensures read { result ≡ true → self.old ≡ word.now ∷ self.new }
        ensures same { result ≡ false → self.new ≡ self.old }
    {
        if !self.more {
            return false;
        }
        let line = self.rest;
        if !begins_with(line, word) {
            return false;
        }
        self.rest = &line[word.len() + 1..];
        true
    }

    /// The number that the next piece says, where it is a decimal of at most 19 digits: the piece is then read. `None` where it
    /// isn't, and nothing is read then.
    #[inline(always)]
    pub fn number(&mut self) -> Option<u64>
        ensures some { IfSome result (λ n. (self.old ≡ decimal n ∷ self.new) × (n < 2 ^ 64)) }
        ensures none { IfNone result (self.new ≡ self.old) }
    {
        if !self.more {
            return None;
        }
        let line = self.rest;
        let (number, place) = digits_ahead(line);
        if !begins_plainly(line, place) {
            return None;
        }
        if place == line.len() {
            self.more = false;
            return Some(number);
        }
        if line[place] != b' ' {
            return None;
        }
        self.rest = &line[place + 1..];
        Some(number)
    }

    /// The flag that the next piece says: the piece is then read. `None` where it says none, and nothing is read then.
    #[inline(always)]
    pub fn flag(&mut self) -> Option<bool>
        ensures some { IfSome result (λ flag. self.old ≡ token flag_field flag ∷ self.new) }
        ensures none { IfNone result (self.new ≡ self.old) }
    {
        if !self.more {
            return None;
        }
        let line = self.rest;
        if line.is_empty() || (line[0] != b'0' && line[0] != b'1') {
            return None;
        }
        let flag = line[0] == b'1';
        if line.len() == 1 {
            self.more = false;
            return Some(flag);
        }
        if line[1] != b' ' {
            return None;
        }
        self.rest = &line[2..];
        Some(flag)
    }

    /// The next piece, which is then read; `None` where all were read.
    pub fn next(&mut self) -> Option<&'a [u8]>
        ensures none { IfNone result (self.old ≡ []) }
        ensures some { IfSome result (λ t. self.old ≡ t.now ∷ self.new) }
    {
        if !self.more {
            return None;
        }
        let rest = self.rest;
        match cut(rest) {
            None => {
                self.more = false;
                Some(rest)
            }
            Some((piece, after)) => {
                self.rest = after;
                Some(piece)
            }
        }
    }
}
