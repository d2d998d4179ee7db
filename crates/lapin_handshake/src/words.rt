//! The words of a list that a broker gives, as of its mechanisms and its locales: single spaces part them (AMQP 0-9-1, connection.start).

ghost use Rattle.std.specs.Prelude.{◌≡◌, position};
ghost use Rattle.std.specs.List.{before_first};
ghost use Rattle.lapin_handshake.specs.Words.{lists as lists_lem, is_space, is_locale as is_locale_lem, locale_of};

/// Whether a list has the word.
pub(crate) fn lists(list: &[u8], word: &[u8]) -> bool
    ensures { result ≡ lists_lem list.now word.now }
{
    list.split(|b| *b == b' ').any(|w| w == word)
}

fn first_space(list: &[u8]) -> Option<usize>
    ensures { result ≡ position is_space list.now }
{
    list.iter().position(|b| *b == b' ')
}

fn first_word(list: &[u8]) -> &[u8]
    ensures { result.now ≡ before_first is_space list.now }
{
    match first_space(list) {
        Some(place) => &list[..place],
        None => list,
    }
}

// Whether a word can be said as a locale.
fn is_locale(word: &[u8]) -> bool
    ensures { result ≡ is_locale_lem word.now }
{
    !word.is_empty() && word.len() < 256
}

/// The locale that is said to a broker with such a list: `en_US` where it has it, and else the first of the list.
pub(crate) fn locale(list: &[u8]) -> &[u8]
    ensures { result.now ≡ locale_of list.now }
{
    if lists(list, b"en_US") {
        return b"en_US";
    }
    let first = first_word(list);
    if is_locale(first) { first } else { b"en_US" }
}
