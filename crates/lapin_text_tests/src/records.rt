//! Lists of records and of events: what is printed, and where parsing stops.
use lapin_text::{parse_events, print_records};
use lapin_types::{ChannelState, ConnectionState, Error, NoMemory, Record};
use std::alloc::Global;
use std::test::Fail;

// Each state of the connection and of a channel has its word.
#[test]
fn records_are_printed_a_line_each(rt: HostRuntime) -> Result<(), Fail> {
    let records = [
        Record::Ticket(1),
        Record::Refused(Error::ConfirmsOutstanding { limit: 1 }),
        Record::Refused(Error::ConfirmsOutstanding {
            limit: 18446744073709551615,
        }),
        Record::NoFrame,
        Record::State(ConnectionState::Open, ChannelState::Base),
        Record::State(ConnectionState::Closing, ChannelState::Down),
        Record::State(ConnectionState::Closed, ChannelState::Opening),
        Record::State(ConnectionState::Lost, ChannelState::Crossed),
        Record::State(ConnectionState::Open, ChannelState::Closed),
        Record::State(ConnectionState::Open, ChannelState::Open),
        Record::State(ConnectionState::Open, ChannelState::Closing),
        Record::Lost,
    ];
    let printed = print_records(rt.alloc(), &records)?;
    let wanted = b"ticket 1\nrefused ConfirmsOutstanding 1\n\
        refused ConfirmsOutstanding 18446744073709551615\nnoframe\nstate open base\nstate closing down\nstate closed opening\n\
        state lost crossed\nstate open closed\nstate open open\nstate open closing\nlost\n";
    assert_eq!(rt; printed.as_slice(), wanted.as_slice());
    Ok(())
}

// The greatest frame size, the number of events before the first bad line, and that line.
#[test]
fn parsing_tells_the_first_bad_line(rt: HostRuntime) -> Result<(), Fail> {
    for (input, frame_max, events, bad) in [
        ("", None, 0, Some(1)),
        ("frame_max 4095\n", None, 0, Some(1)),
        ("frame_max 4096\nnext 1", Some(4096), 1, None),
        ("frame_max 4096\nnext 1\n\nnext 1\n", Some(4096), 1, Some(3)),
        ("frame_max 4096\nnext 1\r\n", Some(4096), 0, Some(2)),
        ("frame_max 4096\nnext  1\n", Some(4096), 0, Some(2)),
        ("frame_max 4096\nticket 01\n", Some(4096), 0, Some(2)),
    ] {
        assert!(rt;
            is_parsed(rt.alloc(), input, frame_max, events, bad)?,
            "at {input:?}"
        );
    }
    Ok(())
}

fn is_parsed(
    alloc: Global,
    input: &str,
    frame_max: Option<u32>,
    events: usize,
    bad: Option<u64>,
) -> Result<bool, NoMemory> {
    let parsed = parse_events(alloc, input.as_bytes())?;
    Ok(parsed.frame_max == frame_max && parsed.events.len() == events && parsed.bad == bad)
}
