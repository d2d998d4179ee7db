//! The text of what working callers leave: the history, and then the cards.
ghost use Rattle.std.specs.Prelude.{◌≡◌, ◌++◌, IfOk, OnOk, string_bytes};
ghost use Rattle.lapin_pool_commands.specs.Printed.{card_line, cards_text, count_line, run_text, sent_text as sent_text_lem, verdict_text};

use lapin_acker::Verdict;
use lapin_inputs::put_bad_line;
use lapin_pool::{Card, PoolEnd, Sent};
use lapin_shared_commands::put_history;
use lapin_types::NoMemory;
use std::alloc::Global;

/// What is printed: history and cards, where something was run, and then the line that names the first bad line of the input.
pub fn print_end(
    alloc: Global,
    end: &Option<PoolEnd>,
    bad: Option<u64>,
) -> Result<Vec<u8>, NoMemory>
    ensures { IfOk result (λ text. text.items ≡ run_text end.now bad) }
{
    let mut text = Vec::new(alloc);
    if let Some(end) = end {
        put_history(alloc, &mut text, &end.history)?;
        put_cards(alloc, &mut text, end.cards.as_slice())?;
    }
    put_bad_line(alloc, &mut text, bad)?;
    Ok(text)
}

// Appends the number of cards, and the line of each.
fn put_cards(alloc: Global, text: &mut Vec<u8>, cards: &[Card]) -> Result<(), NoMemory>
    ensures { OnOk result (text.new.items ≡ text.old.items ++ cards_text cards.now) }
{
    put_count(alloc, text, cards.len())?;
    for k in 0..cards.len() {
        put_card(alloc, text, &cards[k])?;
    }
    Ok(())
}

// Appends the line that says how many cards there are.
fn put_count(alloc: Global, text: &mut Vec<u8>, count: usize) -> Result<(), NoMemory>
    ensures { OnOk result (text.new.items ≡ text.old.items ++ count_line count) }
{
    let line = format!(in alloc; "cards {count}\n")?;
    text.extend_from_slice(line.as_bytes())?;
    Ok(())
}

// Appends the line of a card.
fn put_card(alloc: Global, text: &mut Vec<u8>, card: &Card) -> Result<(), NoMemory>
    ensures { OnOk result (text.new.items ≡ text.old.items ++ card_line card.now) }
{
    let caller = card.caller;
    let place = card.place;
    let acker = card.acker;
    let verdict = name_of(card.verdict);
    let sent = sent_text(alloc, card.sent)?;
    let line = format!(in alloc; "card {caller} {place} {acker} {verdict} {sent}\n")?;
    text.extend_from_slice(line.as_bytes())?;
    Ok(())
}

// Where a verdict was placed, or a dash.
fn sent_text(alloc: Global, sent: Sent) -> Result<String, NoMemory>
    ensures { IfOk result (λ text. string_bytes text ≡ sent_text_lem sent) }
{
    match sent {
        Sent::Placed(place) => Ok(format!(in alloc; "{place}")?),
        _ => Ok(String::from_str(alloc, "-")?),
    }
}

// The name of a verdict, or a dash for none.
fn name_of(verdict: Option<Verdict>) -> &'static str
    ensures { result.now ≡ verdict_text verdict }
{
    match verdict {
        Some(Verdict::Ack) => "ack",
        Some(Verdict::Nack { requeue: false }) => "nack",
        Some(Verdict::Nack { requeue: true }) => "requeue",
        Some(Verdict::Reject { requeue: false }) => "reject",
        Some(Verdict::Reject { requeue: true }) => "reject-requeue",
        Some(Verdict::Nothing) => "nothing",
        None => "-",
    }
}
