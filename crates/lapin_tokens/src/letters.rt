//! The letter in front of a field value, which says its kind. The letters are this project's own.

ghost use Rattle.std.specs.Prelude.{◌≡◌};
ghost use Rattle.lapin_tokens.specs.Letters.{letter_byte, letter_at};

/// The kinds of field values.
#[derive(Clone, Copy, Debug, PartialEq, Eq)]
pub enum Letter {
    Boolean,
    ShortShortInt,
    ShortShortUInt,
    ShortInt,
    ShortUInt,
    LongInt,
    LongUInt,
    LongLongInt,
    Timestamp,
    LongString,
    ByteArray,
    FieldArray,
    FieldTable,
    Void,
}

/// Every kind once.
pub const LETTERS: [Letter; 14] = [
    Letter::Boolean,
    Letter::ShortShortInt,
    Letter::ShortShortUInt,
    Letter::ShortInt,
    Letter::ShortUInt,
    Letter::LongInt,
    Letter::LongUInt,
    Letter::LongLongInt,
    Letter::Timestamp,
    Letter::LongString,
    Letter::ByteArray,
    Letter::FieldArray,
    Letter::FieldTable,
    Letter::Void,
];

/// The letter of a kind.
pub fn byte_of(letter: Letter) -> u8
    ensures { result ≡ letter_byte letter }
{
    match letter {
        Letter::Boolean => b't',
        Letter::ShortShortInt => b'b',
        Letter::ShortShortUInt => b'B',
        Letter::ShortInt => b's',
        Letter::ShortUInt => b'u',
        Letter::LongInt => b'I',
        Letter::LongUInt => b'i',
        Letter::LongLongInt => b'l',
        Letter::Timestamp => b'T',
        Letter::LongString => b'S',
        Letter::ByteArray => b'y',
        Letter::FieldArray => b'A',
        Letter::FieldTable => b'F',
        Letter::Void => b'V',
    }
}

/// The kind that a byte is the letter of.
#[tactic(auto, unfolding(crate::specs::Letters::letter_at))]
pub fn letter_named(byte: u8) -> Option<Letter>
    ensures { result ≡ letter_at byte }
{
    LETTERS
        .iter()
        .copied()
        .find(|letter| byte_of(*letter) == byte)
}
