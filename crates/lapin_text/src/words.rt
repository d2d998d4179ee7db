//! The words that begin a frame, an event or the call of an acker.
//!
//! Here stands which word is whose text, and which one a line or a frame begins with. What follows a word is read in `frames`, `events` and
//! `ackers`.

ghost use Rattle.std.specs.Prelude.{◌≡◌, ◌∷◌, IfNone, IfSome};
ghost use Rattle.lapin_tokens.specs.Reading.{◌>>=◌ as and_then};
ghost use Rattle.lapin_text.specs.LineReading.{word_at, word_text, frame_of_word, frame_at, event_of_word, event_at};

use lapin_tokens::{Tokens, is_word};

/// The words that begin a frame, an event or the call of an acker.
#[derive(Clone, Copy, Debug, PartialEq, Eq)]
pub enum Word {
    Method,
    Header,
    Body,
    Call,
    Next,
    Recv,
    Ticket,
    Confirm,
    Consumer,
    Wait,
    AsideTicket,
    AsideConfirm,
    Acker,
    Delegate,
    Drop,
    Job,
    State,
    Lost,
    Ack,
    Nack,
    Reject,
}

/// Each word once.
pub const WORDS: [Word; 21] = [
    Word::Method,
    Word::Header,
    Word::Body,
    Word::Call,
    Word::Next,
    Word::Recv,
    Word::Ticket,
    Word::Confirm,
    Word::Consumer,
    Word::Wait,
    Word::AsideTicket,
    Word::AsideConfirm,
    Word::Acker,
    Word::Delegate,
    Word::Drop,
    Word::Job,
    Word::State,
    Word::Lost,
    Word::Ack,
    Word::Nack,
    Word::Reject,
];

fn text_of_word(word: Word) -> &'static [u8]
    ensures { result.now ≡ word_text word }
{
    match word {
        Word::Method => b"method",
        Word::Header => b"header",
        Word::Body => b"body",
        Word::Call => b"call",
        Word::Next => b"next",
        Word::Recv => b"recv",
        Word::Ticket => b"ticket",
        Word::Confirm => b"confirm",
        Word::Consumer => b"consumer",
        Word::Wait => b"wait",
        Word::AsideTicket => b"aside-ticket",
        Word::AsideConfirm => b"aside-confirm",
        Word::Acker => b"acker",
        Word::Delegate => b"delegate",
        Word::Drop => b"drop",
        Word::Job => b"job",
        Word::State => b"state",
        Word::Lost => b"lost",
        Word::Ack => b"ack",
        Word::Nack => b"nack",
        Word::Reject => b"reject",
    }
}

// The word of which the bytes are the text, by a search through all words.
#[tactic(auto, unfolding(crate::specs::LineReading::word_at))]
fn word_found(piece: &[u8]) -> Option<Word>
    ensures { result ≡ word_at piece.now }
{
    WORDS
        .iter()
        .copied()
        .find(|word| is_word(text_of_word(*word), piece))
}

/// The word of which the bytes are the text. That of most calls of an acker is told apart before a search.
#[tactic(auto, unfolding(crate::specs::LineReading::word_at))]
pub fn word_named(piece: &[u8]) -> Option<Word>
    ensures { result ≡ word_at piece.now }
{
    match piece {
        b"ack" => Some(Word::Ack),
        _ => word_found(piece),
    }
}

// The word that an event mostly begins with and of which the next piece is the text, where another piece follows; else nothing is read.
#[inline(always)]
fn event_word(tokens: &mut Tokens) -> Option<Word>
    ensures some { IfSome result (λ w. tokens.old ≡ word_text w ∷ tokens.new) }
    ensures none { IfNone result (tokens.new ≡ tokens.old) }
{
    if tokens.word(b"next") {
        Some(Word::Next)
    } else if tokens.word(b"recv") {
        Some(Word::Recv)
    } else if tokens.word(b"call") {
        Some(Word::Call)
    } else if tokens.word(b"confirm") {
        Some(Word::Confirm)
    } else if tokens.word(b"ticket") {
        Some(Word::Ticket)
    } else if tokens.word(b"consumer") {
        Some(Word::Consumer)
    } else if tokens.word(b"acker") {
        Some(Word::Acker)
    } else {
        None
    }
}

// The same of a word that a frame begins with.
#[inline(always)]
fn frame_word(tokens: &mut Tokens) -> Option<Word>
    ensures some { IfSome result (λ w. tokens.old ≡ word_text w ∷ tokens.new) }
    ensures none { IfNone result (tokens.new ≡ tokens.old) }
{
    if tokens.word(b"method") {
        Some(Word::Method)
    } else if tokens.word(b"header") {
        Some(Word::Header)
    } else if tokens.word(b"body") {
        Some(Word::Body)
    } else {
        None
    }
}

/// The word of which the next piece is the text, or `None` where it is no word's or all were read. An event, and a frame, is this word and
/// what follows it. The words that most lines begin with are told apart before a search.
#[inline(always)]
#[tactic(auto, using(crate::proofs::LineLaws::event_said, crate::proofs::LineLaws::frame_said))]
pub fn first_word(tokens: &mut Tokens) -> Option<Word>
    ensures event { event_at tokens.old ≡ and_then result (λ w. event_of_word w tokens.new) }
    ensures frame { frame_at tokens.old ≡ and_then result (λ w. frame_of_word w tokens.new) }
{
    match event_word(tokens) {
        Some(word) => Some(word),
        None => other_word(tokens),
    }
}

/// The same, where the words of frames are told apart before a search.
#[inline(always)]
#[tactic(auto, using(crate::proofs::LineLaws::frame_said))]
pub fn first_frame_word(tokens: &mut Tokens) -> Option<Word>
    ensures { frame_at tokens.old ≡ and_then result (λ w. frame_of_word w tokens.new) }
{
    match frame_word(tokens) {
        Some(word) => Some(word),
        None => other_word(tokens),
    }
}

// The same, by a search through all words.
#[inline(never)]
#[tactic(auto, unfolding(crate::specs::LineReading::event_at, crate::specs::LineReading::frame_at))]
fn other_word(tokens: &mut Tokens) -> Option<Word>
    ensures event { event_at tokens.old ≡ and_then result (λ w. event_of_word w tokens.new) }
    ensures frame { frame_at tokens.old ≡ and_then result (λ w. frame_of_word w tokens.new) }
{
    match tokens.next() {
        None => None,
        Some(piece) => word_named(piece),
    }
}
