//! The steps of calls over queues, and what each reports.

use lapin_types::{ChannelState, Error, Frame, Payload, Record, ShortString};

/// A step of calls over queues. What steps come in which order is free.
#[derive(Debug, Drop)]
pub enum CallStep {
    /// A frame is asked for, with the flow.
    Next(bool),
    /// A frame of the broker comes in.
    Receive(Frame),
    /// The connection was lost.
    Lost,
    /// A request is published: a call that waits for its reply.
    Ask {
        exchange: ShortString,
        routing_key: ShortString,
        payload: Payload,
    },
    /// The replies that came are collected.
    Collect,
    /// The result of a call is asked for, by the call's number.
    Take(u64),
}

/// What a step reports.
#[derive(Debug, Drop)]
pub enum CallReport {
    /// The record of the session's event.
    Session(Record),
    /// The number of the call whose request was published. Calls are numbered from 1.
    Asked(u64),
    /// Nothing was published: channel 1 is in this state, and not open.
    NotOpen(ChannelState),
    /// So many deliveries answered a call that waited, were one more reply to a call that is answered, or neither.
    Collected {
        answers: u64,
        repeats: u64,
        strangers: u64,
    },
    /// The call waits.
    Waiting,
    /// The call's reply, which is given once.
    Reply(Payload),
    /// The error that ended the call, which is given once.
    Ended(Error),
    /// The call's result was given before.
    Taken,
    /// No call has this number.
    Unknown,
}
