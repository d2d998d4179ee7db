//! A token to be written: what a writer of lines gives for each piece.

use lapin_values::{BasicProperties, FieldTable, ShortString};

/// A token to be written.
#[derive(Clone, Copy)]
pub enum Token<'a> {
    /// A word of the grammar, as it is.
    Word(&'a [u8]),
    /// A short text.
    Text(&'a ShortString),
    /// Bytes.
    Hex(&'a [u8]),
    /// A number in decimal.
    Number(u64),
    /// A flag.
    Flag(bool),
    /// A table of arguments.
    Table(&'a FieldTable),
    /// The properties of a message.
    Properties(&'a BasicProperties),
}
