//! A walk through the tokens of a line: each is asked for by what it should be, and the first that is something else is told.

use lapin_tokens::{
    ReadError, Tokens, flag, payload, properties, table, text, u16_at, u32_at, u64_at,
};
use std::alloc::Global;

/// What may stand at a place.
#[derive(Clone, Copy, Debug, PartialEq, Eq)]
pub(crate) enum Wanted {
    /// A field of this kind: `text`, `bytes`, `table`, `props`, `flag`, `short`, `long`, `wide` or `max`.
    Field(&'static str),
    /// One of these words.
    Words(&'static str),
    /// A method's name.
    Method,
    /// The name of a method that a caller may call.
    Call,
    /// Nothing: the line should end before.
    End,
}

/// The first token of a line that is not what is wanted at its place.
#[derive(Clone, Copy, Debug)]
pub(crate) struct Stumble<'a> {
    /// The token's place in the line, from 1.
    pub place: u64,
    /// The token, or `None` where the line has ended.
    pub found: Option<&'a [u8]>,
    /// What the field is called, or nothing where it is none.
    pub field: &'static str,
    /// What is wanted.
    pub wanted: Wanted,
    /// The words that lead a line of this kind, where its own fields don't begin it, or nothing.
    pub lead: &'static str,
    /// How the rest begins.
    pub head: &'static str,
    /// The name of the method that the line is about, or nothing.
    pub name: &'a [u8],
    /// The fields behind it, as the tables have them.
    pub row: &'static str,
}

/// The tokens of a line that are still to be looked at.
#[derive(Drop)]
pub(crate) struct Walk<'a> {
    tokens: Tokens<'a>,
    place: u64,
    lead: &'static str,
    head: &'static str,
    name: &'a [u8],
    row: &'static str,
}

impl<'a> Walk<'a> {
    /// At the first token of a line.
    pub(crate) fn new(line: &'a [u8]) -> Self {
        Walk {
            tokens: Tokens::new(line),
            place: 0,
            lead: "",
            head: "",
            name: b"",
            row: "",
        }
    }

    /// The line is led by these words, and what is looked at from here on stands behind them.
    pub(crate) fn is_led_by(&mut self, lead: &'static str) {
        self.lead = lead;
    }

    /// What leads the line, or nothing.
    pub(crate) fn lead(&self) -> &'static str {
        self.lead
    }

    /// The line is one of those that begin so, with these fields behind.
    pub(crate) fn is_a(&mut self, head: &'static str, row: &'static str) {
        self.head = head;
        self.row = row;
    }

    /// The line is about this method, with these fields behind its name.
    pub(crate) fn names(&mut self, name: &'a [u8], row: &'static str) {
        self.name = name;
        self.row = row;
    }

    /// The next token.
    pub(crate) fn next(&mut self) -> Option<&'a [u8]> {
        self.place = self.place.saturating_add(1);
        self.tokens.next()
    }

    /// That a token which was found is not what is wanted.
    pub(crate) fn stumble(
        &self,
        found: Option<&'a [u8]>,
        field: &'static str,
        wanted: Wanted,
    ) -> Stumble<'a> {
        Stumble {
            place: self.place,
            found,
            field,
            wanted,
            lead: self.lead,
            head: self.head,
            name: self.name,
            row: self.row,
        }
    }

    /// The next tokens should be fields of these names and kinds.
    pub(crate) fn fields(&mut self, alloc: Global, row: &'static str) -> Option<Stumble<'a>> {
        for spec in row.split(' ') {
            if let Some((field, kind)) = spec.split_once(':') {
                let found = self.next();
                if !is_of_kind(alloc, kind, found) {
                    return Some(self.stumble(found, field, Wanted::Field(kind)));
                }
            }
        }
        None
    }

    /// The line should end here.
    pub(crate) fn end(&mut self) -> Option<Stumble<'a>> {
        match self.next() {
            Some(found) => Some(self.stumble(Some(found), "", Wanted::End)),
            None => None,
        }
    }
}

// Whether a token is a value of the kind, as its reader says. Where there is no memory to read it, nothing is said against it.
fn is_of_kind(alloc: Global, kind: &str, found: Option<&[u8]>) -> bool {
    let Some(piece) = found else {
        return false;
    };
    let mut token = Tokens::new(piece);
    match kind {
        "flag" => is_read(flag(&mut token)),
        "short" => is_read(u16_at(&mut token)),
        "long" => is_read(u32_at(&mut token)),
        "wide" => is_read(u64_at(&mut token)),
        "max" => match u32_at(&mut token) {
            Ok(number) => 4096 <= number,
            Err(_) => false,
        },
        "text" => is_read(text(alloc, &mut token)),
        "bytes" => is_read(payload(alloc, &mut token)),
        "table" => is_read(table(alloc, &mut token)),
        _ => is_read(properties(alloc, &mut token)),
    }
}

fn is_read<T: Drop>(value: Result<T, ReadError>) -> bool {
    let read = !matches!(value, Err(ReadError::Bad));
    drop(value);
    read
}
