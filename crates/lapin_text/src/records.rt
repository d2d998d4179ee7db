//! Records as tokens.
//!
//! A record is an arm here and a row in the definitions, and the answers that most events have are functions of their own, for those who
//! have the answer and no record. Whole lines and texts of records are written in `printing`.
//! Where memory runs out, the text may end within the record.

ghost use Rattle.std.specs.Prelude.{◌≡◌, ◌+◌, ◌++◌, ◌∷◌, [], drop, OnOk};
ghost use Rattle.std.specs.List.{flat_map};
ghost use Rattle.lapin_types.specs.declared.answer.Answer.TheVariants as answer;
ghost use Rattle.lapin_types.specs.declared.record.Record.TheVariants as told;
ghost use Rattle.lapin_tokens.specs.Fields.{token, wide_number};
ghost use Rattle.lapin_tokens.specs.TokenText.{onto};
ghost use Rattle.lapin_text.specs.Frames.{frame_tokens};
ghost use Rattle.lapin_text.specs.Records.{connection_name, state_name, error_tokens, delivery_tokens, message_tokens, held_tokens, returned_tokens, got_tokens, answer_tokens, confirmation_tokens, item_word, carried_tokens, job_tokens, record_tokens, line_onto};

use crate::frames::put_frame;
use lapin_tokens::{
    Token, put_bytes, put_count, put_flag, put_properties, put_text, put_tokens, put_word,
};
use lapin_types::{
    Answer, BasicGetMessage, BasicReturnMessage, ChannelState, Confirmation, ConnectionState,
    Delivery, DeliveryResult, Error, Frame, Job, JobKind, Queue, Record, ReturnedList,
};
use std::alloc::{AllocError, Global};

fn name_of_connection(state: ConnectionState) -> &'static [u8]
    ensures { result.now ≡ connection_name state }
{
    match state {
        ConnectionState::Open => b"open",
        ConnectionState::Closing => b"closing",
        ConnectionState::Closed => b"closed",
        ConnectionState::Lost => b"lost",
    }
}

/// The name of a channel's state.
pub fn name_of_state(state: ChannelState) -> &'static [u8]
    ensures { result.now ≡ state_name state }
{
    match state {
        ChannelState::Closed => b"closed",
        ChannelState::Opening => b"opening",
        ChannelState::Open => b"open",
        ChannelState::Closing => b"closing",
        ChannelState::Crossed => b"crossed",
        ChannelState::Base => b"base",
        ChannelState::Down => b"down",
    }
}

fn put_pair(
    alloc: Global,
    out: &mut Vec<u8>,
    name: &[u8],
    first: u64,
    second: u64,
) -> Result<(), AllocError>
    ensures { OnOk result (out.new.items ≡ onto out.old.items (name.now ∷ token wide_number first ∷ token wide_number second ∷ [])) }
{
    put_word(out, name)?;
    put_count(out, first)?;
    put_count(out, second)
}

// A word and a number.
fn put_number(out: &mut Vec<u8>, name: &[u8], number: u64) -> Result<(), AllocError>
    ensures { OnOk result (out.new.items ≡ onto out.old.items (name.now ∷ token wide_number number ∷ [])) }
{
    put_word(out, name)?;
    put_count(out, number)
}

fn put_error(alloc: Global, out: &mut Vec<u8>, error: Error) -> Result<(), AllocError>
    ensures { OnOk result (out.new.items ≡ onto out.old.items (error_tokens error)) }
{
    match error {
        Error::NoMemory => put_tokens(alloc, out, &[Token::Word(b"NoMemory")]),
        Error::NumbersUsedUp => put_tokens(alloc, out, &[Token::Word(b"NumbersUsedUp")]),
        Error::InvalidChannelState(state) => put_tokens(
            alloc,
            out,
            &[
                Token::Word(b"InvalidChannelState"),
                Token::Word(name_of_state(state)),
            ],
        ),
        Error::ProtocolError(code) => put_tokens(
            alloc,
            out,
            &[
                Token::Word(b"ProtocolError"),
                Token::Number(u64::from(code)),
            ],
        ),
        Error::ConnectionLost => put_tokens(alloc, out, &[Token::Word(b"ConnectionLost")]),
        Error::UnexpectedFrame { class, method } => put_pair(
            alloc,
            out,
            b"UnexpectedFrame",
            u64::from(class),
            u64::from(method),
        ),
        Error::PreconditionFailed { tag, current } => {
            put_pair(alloc, out, b"PreconditionFailed", tag, current)
        }
        Error::AlreadyTaken => put_tokens(alloc, out, &[Token::Word(b"AlreadyTaken")]),
        Error::UnknownTicket => put_tokens(alloc, out, &[Token::Word(b"UnknownTicket")]),
        Error::ConfirmsOutstanding { limit } => put_number(out, b"ConfirmsOutstanding", limit),
    }
}

fn put_delivery(alloc: Global, out: &mut Vec<u8>, delivery: &Delivery) -> Result<(), AllocError>
    ensures { OnOk result (out.new.items ≡ onto out.old.items (delivery_tokens delivery.now)) }
{
    put_count(out, delivery.delivery_tag)?;
    put_text(alloc, out, &delivery.exchange)?;
    put_text(alloc, out, &delivery.routing_key)?;
    put_flag(out, delivery.redelivered)?;
    put_properties(alloc, out, &delivery.properties)?;
    put_bytes(alloc, out, delivery.payload.as_bytes())?;
    put_count(out, delivery.acker.number)
}

fn put_message(
    alloc: Global,
    out: &mut Vec<u8>,
    message: &BasicReturnMessage,
) -> Result<(), AllocError>
    ensures { OnOk result (out.new.items ≡ onto out.old.items (message_tokens message.now)) }
{
    put_delivery(alloc, out, &message.delivery)?;
    put_tokens(
        alloc,
        out,
        &[
            Token::Number(u64::from(message.reply_code)),
            Token::Text(&message.reply_text),
        ],
    )
}

fn put_held(
    alloc: Global,
    out: &mut Vec<u8>,
    message: &Option<BasicReturnMessage>,
) -> Result<(), AllocError>
    ensures { OnOk result (out.new.items ≡ onto out.old.items (held_tokens message.now)) }
{
    match message {
        Some(message) => put_message(alloc, out, message),
        None => put_word(out, b"-"),
    }
}

// The message at a place; what is then left to be written stands behind that place.
#[tactic(auto, using(crate::proofs::Printed::onto_past))]
fn put_message_at(
    alloc: Global,
    out: &mut Vec<u8>,
    messages: &ReturnedList,
    place: usize,
) -> Result<(), AllocError>
    ensures { OnOk result (onto out.new.items (flat_map message_tokens (drop (place + 1) messages.now)) ≡ onto out.old.items (flat_map message_tokens (drop place messages.now))) }
{
    match messages.at(place) {
        Some(message) => put_message(alloc, out, message),
        None => Ok(()),
    }
}

// The messages in their order, without their number.
fn put_messages(alloc: Global, out: &mut Vec<u8>, messages: &ReturnedList) -> Result<(), AllocError>
    ensures { OnOk result (out.new.items ≡ onto out.old.items (flat_map message_tokens messages.now)) }
{
    for place in 0..messages.len() {
        put_message_at(alloc, out, messages, place)?;
    }
    Ok(())
}

fn put_returned(alloc: Global, out: &mut Vec<u8>, messages: &ReturnedList) -> Result<(), AllocError>
    ensures { OnOk result (out.new.items ≡ onto out.old.items (returned_tokens messages.now)) }
{
    put_count(out, messages.len() as u64)?;
    put_messages(alloc, out, messages)
}

fn put_got(
    alloc: Global,
    out: &mut Vec<u8>,
    message: &Option<BasicGetMessage>,
) -> Result<(), AllocError>
    ensures { OnOk result (out.new.items ≡ onto out.old.items (got_tokens message.now)) }
{
    match message {
        Some(message) => {
            put_delivery(alloc, out, &message.delivery)?;
            put_tokens(
                alloc,
                out,
                &[Token::Number(u64::from(message.message_count))],
            )
        }
        None => put_tokens(alloc, out, &[Token::Word(b"-")]),
    }
}

fn put_queue(alloc: Global, out: &mut Vec<u8>, queue: &Queue) -> Result<(), AllocError>
    ensures { OnOk result (out.new.items ≡ onto out.old.items (answer_tokens (answer.Queue queue.now))) }
{
    put_tokens(
        alloc,
        out,
        &[
            Token::Word(b"queue"),
            Token::Text(queue.name()),
            Token::Number(u64::from(queue.message_count())),
            Token::Number(u64::from(queue.consumer_count())),
        ],
    )
}

fn put_answer(alloc: Global, out: &mut Vec<u8>, answer: &Answer) -> Result<(), AllocError>
    ensures { OnOk result (out.new.items ≡ onto out.old.items (answer_tokens answer.now)) }
{
    match answer {
        Answer::Done => put_tokens(alloc, out, &[Token::Word(b"done")]),
        Answer::Channel(channel) => put_tokens(
            alloc,
            out,
            &[Token::Word(b"channel"), Token::Number(u64::from(*channel))],
        ),
        Answer::Confirm(number) => put_number(out, b"confirm", *number),
        Answer::Consumer(number) => put_tokens(
            alloc,
            out,
            &[Token::Word(b"consumer"), Token::Number(*number)],
        ),
        Answer::Got(message) => {
            put_tokens(alloc, out, &[Token::Word(b"got")])?;
            put_got(alloc, out, message)
        }
        Answer::Queue(queue) => put_queue(alloc, out, queue),
        Answer::Count(count) => put_tokens(
            alloc,
            out,
            &[Token::Word(b"count"), Token::Number(u64::from(*count))],
        ),
        Answer::Flow(active) => {
            put_tokens(alloc, out, &[Token::Word(b"flow"), Token::Flag(*active)])
        }
        Answer::Yes => put_tokens(alloc, out, &[Token::Word(b"yes")]),
    }
}

fn put_confirmation(
    alloc: Global,
    out: &mut Vec<u8>,
    confirmation: &Confirmation,
) -> Result<(), AllocError>
    ensures { OnOk result (out.new.items ≡ onto out.old.items (confirmation_tokens confirmation.now)) }
{
    match confirmation {
        Confirmation::Ack(message) => {
            put_word(out, b"ack")?;
            put_held(alloc, out, message)
        }
        Confirmation::Nack(message) => {
            put_word(out, b"nack")?;
            put_held(alloc, out, message)
        }
        Confirmation::NotRequested => put_tokens(alloc, out, &[Token::Word(b"notrequested")]),
    }
}

fn word_of_item(given: &DeliveryResult) -> &'static [u8]
    ensures { result.now ≡ item_word given.now }
{
    match given {
        Ok(Some(_)) => b"item",
        Ok(None) => b"end",
        Err(_) => b"failed",
    }
}

// What an item carries behind its word.
fn put_carried(alloc: Global, out: &mut Vec<u8>, given: &DeliveryResult) -> Result<(), AllocError>
    ensures { OnOk result (out.new.items ≡ onto out.old.items (carried_tokens given.now)) }
{
    match given {
        Ok(Some(delivery)) => put_delivery(alloc, out, delivery),
        Ok(None) => Ok(()),
        Err(error) => put_error(alloc, out, *error),
    }
}

fn put_job(alloc: Global, out: &mut Vec<u8>, job: &Job) -> Result<(), AllocError>
    ensures { OnOk result (out.new.items ≡ onto out.old.items (job_tokens job.now)) }
{
    put_count(out, job.consumer)?;
    match &job.kind {
        JobKind::Deliver(given) => {
            put_word(out, word_of_item(given))?;
            put_carried(alloc, out, given)
        }
        JobKind::Discard => put_word(out, b"discard"),
    }
}

/// Adds a line of a word and an error: `WORD ERROR`, without a line end.
pub fn put_error_line(
    alloc: Global,
    out: &mut Vec<u8>,
    word: &[u8],
    error: Error,
) -> Result<(), AllocError>
    ensures { OnOk result (out.new.items ≡ onto (out.old.items ++ word.now) (error_tokens error)) }
{
    out.extend_from_slice(word)?;
    put_error(alloc, out, error)
}

fn put_states(
    alloc: Global,
    out: &mut Vec<u8>,
    connection: ConnectionState,
    channel: ChannelState,
) -> Result<(), AllocError>
    ensures { OnOk result (out.new.items ≡ onto out.old.items (connection_name connection ∷ state_name channel ∷ [])) }
{
    put_tokens(
        alloc,
        out,
        &[
            Token::Word(name_of_connection(connection)),
            Token::Word(name_of_state(channel)),
        ],
    )
}

/// Adds the line of a ticket: `ticket N`, without a line end.
pub fn put_ticket(out: &mut Vec<u8>, number: u64) -> Result<(), AllocError>
    ensures { OnOk result (out.new.items ≡ line_onto out.old.items (record_tokens (told.Ticket number))) }
{
    out.extend_from_slice(b"ticket")?;
    put_count(out, number)
}

/// Adds the line of a publish's ticket and confirm: `publish N N`, without a line end.
pub fn put_published(out: &mut Vec<u8>, ticket: u64, confirm: u64) -> Result<(), AllocError>
    ensures { OnOk result (out.new.items ≡ line_onto out.old.items (record_tokens (told.Publish ticket confirm))) }
{
    out.extend_from_slice(b"publish")?;
    put_count(out, ticket)?;
    put_count(out, confirm)
}

/// Adds the line of a refusal: `refused ERROR`, without a line end.
pub fn put_refused(alloc: Global, out: &mut Vec<u8>, error: Error) -> Result<(), AllocError>
    ensures { OnOk result (out.new.items ≡ line_onto out.old.items (record_tokens (told.Refused error))) }
{
    put_error_line(alloc, out, b"refused", error)
}

/// Adds the line of a frame that is handed out: `frame FRAME`, without a line end.
pub fn put_handed(alloc: Global, out: &mut Vec<u8>, frame: &Frame) -> Result<(), AllocError>
    ensures { OnOk result (out.new.items ≡ line_onto out.old.items (record_tokens (told.Frame frame.now))) }
{
    out.extend_from_slice(b"frame")?;
    put_frame(alloc, out, frame)
}

/// Adds the line of a call's outcome: `answer ANSWER` or `error ERROR`, without a line end.
pub fn put_answered(
    alloc: Global,
    out: &mut Vec<u8>,
    answer: &Result<Answer, Error>,
) -> Result<(), AllocError>
    ensures { OnOk result (out.new.items ≡ line_onto out.old.items (record_tokens (told.Answer answer.now))) }
{
    match answer {
        Ok(answer) => {
            out.extend_from_slice(b"answer")?;
            put_answer(alloc, out, answer)
        }
        Err(error) => put_error_line(alloc, out, b"error", *error),
    }
}

/// Adds the line of a publish's outcome: `confirmed CONFIRMATION` or `error ERROR`, without a line end.
pub fn put_confirmed(
    alloc: Global,
    out: &mut Vec<u8>,
    outcome: &Result<Confirmation, Error>,
) -> Result<(), AllocError>
    ensures { OnOk result (out.new.items ≡ line_onto out.old.items (record_tokens (told.Confirmed outcome.now))) }
{
    match outcome {
        Ok(confirmation) => {
            out.extend_from_slice(b"confirmed")?;
            put_confirmation(alloc, out, confirmation)
        }
        Err(error) => put_error_line(alloc, out, b"error", *error),
    }
}

/// Adds the line of a consumer's item: `item DELIVERY`, `end` or `failed ERROR`, without a line end.
pub fn put_item(alloc: Global, out: &mut Vec<u8>, given: &DeliveryResult) -> Result<(), AllocError>
    ensures { OnOk result (out.new.items ≡ line_onto out.old.items (record_tokens (told.Item given.now))) }
{
    out.extend_from_slice(word_of_item(given))?;
    put_carried(alloc, out, given)
}

/// Adds the record's line, without a line end.
pub fn put_record(alloc: Global, out: &mut Vec<u8>, record: &Record) -> Result<(), AllocError>
    ensures { OnOk result (out.new.items ≡ line_onto out.old.items (record_tokens «record».now)) }
{
    match record {
        Record::Ticket(number) => put_ticket(out, *number),
        Record::Publish { ticket, confirm } => put_published(out, *ticket, *confirm),
        Record::Refused(error) => put_refused(alloc, out, *error),
        Record::Frame(frame) => put_handed(alloc, out, frame),
        Record::NoFrame => out.extend_from_slice(b"noframe"),
        Record::Received => out.extend_from_slice(b"received"),
        Record::Passed => out.extend_from_slice(b"passed"),
        Record::Pending => out.extend_from_slice(b"pending"),
        Record::Answer(answer) => put_answered(alloc, out, answer),
        Record::Confirmed(outcome) => put_confirmed(alloc, out, outcome),
        Record::Item(given) => put_item(alloc, out, given),
        Record::Returned(messages) => {
            out.extend_from_slice(b"returned")?;
            put_returned(alloc, out, messages)
        }
        Record::Aside => out.extend_from_slice(b"aside"),
        Record::No => out.extend_from_slice(b"no"),
        Record::Delegated => out.extend_from_slice(b"delegated"),
        Record::Dropped(cancels) => {
            out.extend_from_slice(b"dropped")?;
            put_tokens(alloc, out, &[Token::Flag(*cancels)])
        }
        Record::Job(job) => {
            out.extend_from_slice(b"job")?;
            put_job(alloc, out, job)
        }
        Record::NoJob => out.extend_from_slice(b"nojob"),
        Record::State(connection, channel) => {
            out.extend_from_slice(b"state")?;
            put_states(alloc, out, *connection, *channel)
        }
        Record::Lost => out.extend_from_slice(b"lost"),
    }
}
