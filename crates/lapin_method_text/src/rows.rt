//! The rows of a class's table, as code: reading the fields of a method, and writing its name and its fields.
//!
//! A row is a method's variant, its name and its fields with their kinds: `text`, `table`, `flag`, or a number of 16 bits
//! (`short`), 32 (`long`) or 64 (`wide`).

/// The next token, as a value of the kind.
macro_rules! value_at {
    (text, $alloc:ident, $tokens:ident) => { text($alloc, $tokens)? };
    (table, $alloc:ident, $tokens:ident) => { table($alloc, $tokens)? };
    (flag, $alloc:ident, $tokens:ident) => { flag($tokens)? };
    (short, $alloc:ident, $tokens:ident) => { u16_at($tokens)? };
    (long, $alloc:ident, $tokens:ident) => { u32_at($tokens)? };
    (wide, $alloc:ident, $tokens:ident) => { u64_at($tokens)? };
}

/// The value of the kind, as a token at the end of the text.
macro_rules! put_field {
    (text, $alloc:ident, $out:ident, $value:ident) => { put_text($alloc, $out, $value)? };
    (table, $alloc:ident, $out:ident, $value:ident) => { put_table($alloc, $out, $value)? };
    (flag, $alloc:ident, $out:ident, $value:ident) => { put_flag($out, *$value)? };
    (wide, $alloc:ident, $out:ident, $value:ident) => { put_count($out, *$value)? };
    ($kind:ident, $alloc:ident, $out:ident, $value:ident) => { put_count($out, u64::from(*$value))? };
}

/// A method of the kind, from the next tokens.
macro_rules! read_row {
    ($kind:ident, $alloc:ident, $tokens:ident; $kinds:ident, $methods:ident;
        $($name:ident $text:literal { $($field:ident: $of:ident),* },)*) => {
        match $kind {
            $($kinds::$name => {
                $(let $field = value_at!($of, $alloc, $tokens);)*
                Ok($methods::$name { $($field),* })
            })*
        }
    };
}

/// The name and the fields of the method, at the end of the text: a call a token, sooner than from a list of them.
macro_rules! put_row {
    ($method:ident, $alloc:ident, $out:ident; $kinds:ident, $methods:ident;
        $($name:ident $text:literal { $($field:ident: $of:ident),* },)*) => {
        match $method {
            $($methods::$name { $($field),* } => {
                put_word($out, $text)?;
                $(put_field!($of, $alloc, $out, $field);)*
                Ok(())
            })*
        }
    };
}

pub(crate) use put_field;
pub(crate) use put_row;
pub(crate) use read_row;
pub(crate) use value_at;
