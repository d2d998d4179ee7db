//! The driver of the scripts. A script is lines, each of which either moves a broker or says what holds of it; the lines of one
//! kind are `WORD FRAME`, with a frame as the text of a session has it, those of the other a word and what a reader tells.
//!
//! | Line | Holds where |
//! |---|---|
//! | `read FRAME` | it is read |
//! | `send FRAME`, `never FRAME` | it may be sent, and is; it may not be sent |
//! | `plain FRAME`, `silent` | the plain broker gives that frame, which is sent; it gives none |
//! | `lose` | the connection is lost |
//! | `state S`, `channel C S` | the connection, or a channel, is in that state |
//! | `owes C B`, `sending C B`, `reading C`, `idle` | the readers of those names tell that; no content is being read |
//! | `waiting C N`, `numbered C N`, `settled C N B`, `delivers C TAG B` | the readers of those names tell that |

use lapin_broker::{Broker, BrokerState, PeerState, PlainBroker};
use lapin_text::read_frame;
use lapin_types::{Frame, NoMemory};
use std::alloc::Global;

/// The first line of a script that doesn't hold, if any, on a broker that has run those before it.
pub fn first_failure<'a>(
    alloc: Global,
    broker: &mut Broker,
    script: &'a str,
) -> Result<Option<&'a str>, NoMemory> {
    for line in script.lines() {
        if !holds(alloc, broker, line.trim())? {
            return Ok(Some(line));
        }
    }
    Ok(None)
}

// Runs a line, and tells whether it holds.
fn holds(alloc: Global, broker: &mut Broker, line: &str) -> Result<bool, NoMemory> {
    match line.split_once(' ') {
        Some((word, rest)) => {
            if is_of_frame(word) {
                frame_holds(alloc, broker, word, rest)
            } else {
                Ok(reader_holds(broker, word, rest))
            }
        }
        None => word_holds(alloc, broker, line),
    }
}

fn is_of_frame(word: &str) -> bool {
    matches!(word, "read" | "send" | "never" | "plain")
}

fn word_holds(alloc: Global, broker: &mut Broker, word: &str) -> Result<bool, NoMemory> {
    match word {
        "" => Ok(true),
        "idle" => Ok(broker.reading().is_none()),
        "silent" => is_silent(alloc, broker),
        "lose" => {
            broker.lose();
            Ok(true)
        }
        _ => Ok(false),
    }
}

fn is_silent(alloc: Global, broker: &Broker) -> Result<bool, NoMemory> {
    let given = PlainBroker::next(alloc, broker)?;
    let silent = given.is_none();
    drop(given);
    Ok(silent)
}

fn frame_holds(
    alloc: Global,
    broker: &mut Broker,
    word: &str,
    text: &str,
) -> Result<bool, NoMemory> {
    match read_frame(alloc, text.as_bytes()) {
        Ok(Some(frame)) => {
            let answer = moves(alloc, broker, word, &frame);
            drop(frame);
            answer
        }
        Ok(None) => Ok(false),
        Err(error) => Err(error),
    }
}

fn moves(alloc: Global, broker: &mut Broker, word: &str, frame: &Frame) -> Result<bool, NoMemory> {
    match word {
        "read" => {
            broker.read(alloc, frame)?;
            Ok(true)
        }
        "never" => Ok(!broker.may_send(frame)),
        "send" => sends(alloc, broker, frame),
        _ => Ok(gives(alloc, broker, frame)? && sends(alloc, broker, frame)?),
    }
}

fn sends(alloc: Global, broker: &mut Broker, frame: &Frame) -> Result<bool, NoMemory> {
    if !broker.may_send(frame) {
        return Ok(false);
    }
    broker.send(alloc, frame)?;
    Ok(true)
}

// Whether the plain broker gives that frame.
fn gives(alloc: Global, broker: &Broker, frame: &Frame) -> Result<bool, NoMemory> {
    let given = PlainBroker::next(alloc, broker)?;
    let same = match &given {
        Some(given) => given.same(frame),
        None => false,
    };
    drop(given);
    Ok(same)
}

fn reader_holds(broker: &Broker, word: &str, rest: &str) -> bool {
    let mut words = rest.split(' ');
    let first = words.next().unwrap_or("");
    let second = words.next().unwrap_or("");
    let third = words.next().unwrap_or("");
    if word == "state" {
        return state_name(broker.state()) == first;
    }
    let Ok(channel) = first.parse::<u16>() else {
        return false;
    };
    match word {
        "reading" => broker.reading() == Some(channel),
        "channel" => peer_name(broker.channel_state(channel)) == second,
        "owes" => bit(broker.owes(channel)) == second,
        "sending" => bit(broker.sending(channel)) == second,
        "waiting" => second.parse() == Ok(broker.waiting(channel)),
        "numbered" => second.parse() == Ok(broker.numbered(channel)),
        "settled" => is_settled(broker, channel, second) == third,
        "delivers" => bit(broker.delivers(channel, second)) == third,
        _ => false,
    }
}

fn is_settled(broker: &Broker, channel: u16, number: &str) -> &'static str {
    match number.parse() {
        Ok(number) => bit(broker.settled(channel, number)),
        Err(_) => "",
    }
}

fn bit(is: bool) -> &'static str {
    if is { "1" } else { "0" }
}

fn state_name(state: BrokerState) -> &'static str {
    match state {
        BrokerState::Up => "up",
        BrokerState::Leaving => "leaving",
        BrokerState::Stopped => "stopped",
        BrokerState::Done => "done",
        BrokerState::Broken => "broken",
    }
}

fn peer_name(state: PeerState) -> &'static str {
    match state {
        PeerState::Free => "free",
        PeerState::Asked => "asked",
        PeerState::Open => "open",
        PeerState::Leaving => "leaving",
        PeerState::Stopping => "stopping",
    }
}
