//! Tokens at the end of a line, each behind a space.

ghost use Rattle.std.specs.Prelude.{◌≡◌, ◌++◌, ◌∷◌, OnOk, map};
ghost use Rattle.lapin_tokens.specs.Fields.{token as token_of, wide_number};
ghost use Rattle.lapin_tokens.specs.Fields.Field.{text as text_field, bytes as bytes_field, table as table_field, props as props_field, flag as flag_field};
ghost use Rattle.lapin_tokens.specs.TokenText.{text_of, onto};

use crate::property_writing::put_properties as put_properties_text;
use crate::token::Token;
use crate::value_writing::put_table as put_table_text;
use lapin_scalars::{put_hex, put_number};
use lapin_values::{BasicProperties, FieldTable, ShortString};
use std::alloc::{AllocError, Global};

/// Adds a word behind a space. A line of few tokens is written sooner so than from a list of them.
#[inline(always)]
pub fn put_word(out: &mut Vec<u8>, word: &[u8]) -> Result<(), AllocError>
    ensures { OnOk result (out.new.items ≡ out.old.items ++ 32 ∷ word.now) }
{
    out.push(b' ')?;
    out.extend_from_slice(word)
}

/// Adds a number behind a space.
pub fn put_count(out: &mut Vec<u8>, number: u64) -> Result<(), AllocError>
    ensures { OnOk result (out.new.items ≡ out.old.items ++ 32 ∷ token_of wide_number number) }
{
    out.push(b' ')?;
    put_number(out, number)
}

/// Adds a short text behind a space.
pub fn put_text(alloc: Global, out: &mut Vec<u8>, text: &ShortString) -> Result<(), AllocError>
    ensures { OnOk result (out.new.items ≡ out.old.items ++ 32 ∷ token_of text_field text.now) }
{
    out.push(b' ')?;
    put_hex(alloc, out, text.as_str().as_bytes())
}

/// Adds bytes behind a space, as those of a message's body.
pub fn put_bytes(alloc: Global, out: &mut Vec<u8>, bytes: &[u8]) -> Result<(), AllocError>
    ensures { OnOk result (out.new.items ≡ out.old.items ++ 32 ∷ token_of bytes_field bytes.now) }
{
    out.push(b' ')?;
    put_hex(alloc, out, bytes)
}

/// Adds a flag behind a space. Room for the two bytes is asked for once.
pub fn put_flag(out: &mut Vec<u8>, flag: bool) -> Result<(), AllocError>
    ensures { OnOk result (out.new.items ≡ out.old.items ++ 32 ∷ token_of flag_field flag) }
{
    out.reserve(2)?;
    out.push_reserved(b' ');
    out.push_reserved(if flag { b'1' } else { b'0' });
    Ok(())
}

/// Adds a table of arguments behind a space. Where memory runs out, the text may end within it.
pub fn put_table(alloc: Global, out: &mut Vec<u8>, table: &FieldTable) -> Result<(), AllocError>
    ensures { OnOk result (out.new.items ≡ out.old.items ++ 32 ∷ token_of table_field table.now) }
{
    out.push(b' ')?;
    put_table_text(alloc, out, table)
}

/// Adds the properties of a message behind a space. Where memory runs out, the text may end within them.
pub fn put_properties(
    alloc: Global,
    out: &mut Vec<u8>,
    properties: &BasicProperties,
) -> Result<(), AllocError>
    ensures { OnOk result (out.new.items ≡ out.old.items ++ 32 ∷ token_of props_field properties.now) }
{
    out.push(b' ')?;
    put_properties_text(alloc, out, properties)
}

fn put_token(alloc: Global, out: &mut Vec<u8>, token: &Token) -> Result<(), AllocError>
    ensures { OnOk result (out.new.items ≡ out.old.items ++ 32 ∷ text_of token.now) }
{
    match token {
        Token::Word(word) => put_word(out, word),
        Token::Text(text) => put_text(alloc, out, text),
        Token::Hex(bytes) => put_bytes(alloc, out, bytes),
        Token::Number(number) => put_count(out, *number),
        Token::Flag(flag) => put_flag(out, *flag),
        Token::Table(table) => put_table(alloc, out, table),
        Token::Properties(properties) => put_properties(alloc, out, properties),
    }
}

/// Adds each of the tokens behind a space. Where memory runs out, the text may end within them: build a line
/// apart, and add it when it is whole.
pub fn put_tokens(alloc: Global, out: &mut Vec<u8>, tokens: &[Token]) -> Result<(), AllocError>
    ensures { OnOk result (out.new.items ≡ onto out.old.items (map text_of tokens.now)) }
{
    for token in tokens {
        put_token(alloc, out, token)?;
    }
    Ok(())
}
