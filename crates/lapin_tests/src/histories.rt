//! Runs the tables of histories.
use crate::driver::{shows, shows_all};
use crate::{
    ackers, asides, broker_close, calls, channel_close, confirms, connection_close, consumer_ends,
    consumers, content_ends, content_faults, contents, crossed, deliveries, discards, examples,
    flow, full_channels, gets, letting_go, limits, loss, methods_table, open_cancels, returned,
    session_close, tutorials, unexpected, waits,
};
use std::alloc::{AllocError, Global};
use std::test::Fail;

#[test]
fn histories_have_their_records(rt: HostRuntime) -> Result<(), Fail> {
    for table in [
        examples::HISTORIES,
        examples::TOPOLOGY,
        tutorials::HISTORIES,
        methods_table::HISTORIES,
        calls::HISTORIES,
        flow::HISTORIES,
        confirms::HISTORIES,
        limits::HISTORIES,
        full_channels::HISTORIES,
        channel_close::HISTORIES,
        broker_close::HISTORIES,
        crossed::HISTORIES,
        session_close::HISTORIES,
        connection_close::HISTORIES,
        unexpected::HISTORIES,
        loss::HISTORIES,
        gets::HISTORIES,
        contents::HISTORIES,
        content_faults::HISTORIES,
        content_ends::HISTORIES,
        returned::HISTORIES,
        asides::HISTORIES,
        waits::HISTORIES,
        consumers::HISTORIES,
        deliveries::HISTORIES,
        letting_go::HISTORIES,
        discards::HISTORIES,
        ackers::HISTORIES,
        consumer_ends::HISTORIES,
        open_cancels::HISTORIES,
    ] {
        shows_all(&rt, "session", table)?;
    }
    Ok(())
}

// A frame that no rule hears is refused with its class and method; so says the close, which is the one frame left.
fn refused(alloc: Global, begun: &str, line: &str) -> Result<String, AllocError> {
    let mut history = String::new(alloc);
    if let Some((frame, numbers)) = line.split_once(" -> ") {
        for piece in [
            begun,
            "\nrecv ",
            frame,
            " -> refused UnexpectedFrame ",
            numbers,
            "\nstate 1 -> state closing down\nnext 0 -> frame method 0 connection.close 505 ",
            "x554e45585045435445445f4652414d45 ",
            numbers,
            "\nnext 1 -> noframe",
        ] {
            history.push_str(piece)?;
        }
    }
    Ok(history)
}

#[test]
fn a_frame_that_no_rule_hears_is_named_in_the_close(rt: HostRuntime) -> Result<(), Fail> {
    for (begun, frames) in [
        ("= opened", unexpected::OPEN),
        ("call 1 channel.open -> ticket 1", unexpected::OPENING),
    ] {
        for line in frames.split('\n') {
            let history = refused(rt.alloc(), begun, line)?;
            shows(&rt, "session", history.as_str())?;
        }
    }
    Ok(())
}
