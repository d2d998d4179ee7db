//! The program over sources and sinks that give and take in pieces, and fail, at each call; its limit; the standard streams.
use crate::driver::{is_as, words_of};
use lapin_io::{MemorySink, MemorySource, Sink, Source, StdSink, StdSource, SureSink, SureSource};
use lapin_program::{Status, run_in_memory, run_program};
use std::alloc::{AllocError, Global};
use std::test::Fail;

// A publish and its confirm.
const INPUT: &[u8] = b"frame_max 4096
call 1 channel.open
next 1
recv method 1 channel.open-ok
call 1 confirm.select 0
next 1
recv method 1 confirm.select-ok
call 1 basic.publish x x68656c6c6f 0 0 x48656c6c6f20776f726c6421 []
next 1
next 1
next 1
recv method 1 basic.ack 1 0
ticket 3
confirm 1
";

const OUTPUT: &[u8] = b"ticket 1
frame method 1 channel.open
received
ticket 2
frame method 1 confirm.select 0
received
publish 3 1
frame method 1 basic.publish x x68656c6c6f 0 0
frame header 1 60 12 []
frame body 1 x48656c6c6f20776f726c6421
received
answer confirm 1
confirmed ack -
";

// An input of this length, none of whose lines is in the format.
fn input_of(alloc: Global, length: usize) -> Result<Vec<u8>, AllocError> {
    vec![in alloc; b'x'; length]
}

// 271 bytes in pieces of 8, and the end, are 35 reads. Nothing is written where one of them fails.
#[test]
fn faults_table_of_failing_reads(rt: HostRuntime) -> Result<(), Fail> {
    let alloc = rt.alloc();
    let words = words_of(alloc, "session")?;
    for done in 0..36 {
        let call = done + 1;
        let mut source = MemorySource::new(INPUT.to_vec(alloc)?, 8, vec![in alloc; call]?);
        let mut sink = SureSink::new(alloc);
        let status = run_program(alloc, &words, &mut source, &mut sink);
        let (wanted, output) = if call <= 35 {
            (Status::ReadFault, b"".as_slice())
        } else {
            (Status::Fine, OUTPUT)
        };
        assert!(rt;
            is_as(status, wanted, sink.bytes(), output),
            "at call {call}"
        );
    }
    Ok(())
}

// 260 bytes in pieces of 8 are 33 writes. What the writes before it took is left where one of them fails.
#[test]
fn faults_table_of_failing_writes(rt: HostRuntime) -> Result<(), Fail> {
    let alloc = rt.alloc();
    let words = words_of(alloc, "session")?;
    for done in 0..34 {
        let call = done + 1;
        let mut source = SureSource::new(INPUT.to_vec(alloc)?);
        let mut sink = MemorySink::new(alloc, 8, vec![in alloc; call]?);
        let status = run_program(alloc, &words, &mut source, &mut sink);
        let wanted = if call <= 33 {
            Status::WriteFault
        } else {
            Status::Fine
        };
        let taken = done * 8;
        let output = OUTPUT.get(..taken as usize).unwrap_or(OUTPUT);
        assert!(rt;
            is_as(status, wanted, sink.bytes(), output),
            "at call {call}"
        );
    }
    Ok(())
}

// A bad line behind an event: 28 bytes in pieces of 8 are 4 writes. Where one of them fails the status is the sink's.
#[test]
fn faults_table_of_a_bad_line(rt: HostRuntime) -> Result<(), Fail> {
    let alloc = rt.alloc();
    let words = words_of(alloc, "session")?;
    let text = b"state open closed\nbadline 3\n".as_slice();
    for done in 0..5 {
        let call = done + 1;
        let mut source = SureSource::new(b"frame_max 4096\nstate 1\nnxt 1\n".to_vec(alloc)?);
        let mut sink = MemorySink::new(alloc, 8, vec![in alloc; call]?);
        let status = run_program(alloc, &words, &mut source, &mut sink);
        let wanted = if call <= 4 {
            Status::WriteFault
        } else {
            Status::BadLine
        };
        let taken = done * 8;
        let output = text.get(..taken as usize).unwrap_or(text);
        assert!(rt;
            is_as(status, wanted, sink.bytes(), output),
            "at call {call}"
        );
    }
    Ok(())
}

// In pieces of one byte or more the output is the same. A sink that takes nothing is a fault, also behind a bad line.
#[test]
fn faults_table_of_pieces(rt: HostRuntime) -> Result<(), Fail> {
    let alloc = rt.alloc();
    let words = words_of(alloc, "session")?;
    for (input, most, room, wanted, output) in [
        (INPUT, 1, 1, Status::Fine, OUTPUT),
        (INPUT, 2, 64, Status::Fine, OUTPUT),
        (INPUT, 64, 2, Status::Fine, OUTPUT),
        (INPUT, 64, 0, Status::WriteFault, b"".as_slice()),
        (
            b"frame_max 4095\n".as_slice(),
            64,
            0,
            Status::WriteFault,
            b"".as_slice(),
        ),
    ] {
        let mut source = MemorySource::new(input.to_vec(alloc)?, most, Vec::new(alloc));
        let mut sink = MemorySink::new(alloc, room, Vec::new(alloc));
        let status = run_program(alloc, &words, &mut source, &mut sink);
        assert!(rt;
            is_as(status, wanted, sink.bytes(), output),
            "at {most}, {room}"
        );
    }
    Ok(())
}

// 15 bytes of the first line, 30 before the digits, 3 behind them, and two digits for each of 8,388,584 bytes are 2^24. No line feed
// ends the second line. With one byte of payload more it is past the limit.
#[test]
fn an_input_of_exactly_the_limit_is_run(rt: HostRuntime) -> Result<(), Fail> {
    let alloc = rt.alloc();
    let words = words_of(alloc, "session")?;
    for (payload, whole, wanted, output) in [
        (
            8_388_584,
            16_777_216,
            Status::Fine,
            b"refused InvalidChannelState closed\n".as_slice(),
        ),
        (8_388_585, 16_777_218, Status::InputTooLong, b"".as_slice()),
    ] {
        let mut input = b"frame_max 4096\ncall 1 basic.publish x x 0 0 x".to_vec(alloc)?;
        input.extend_from_slice(&vec![in alloc; b'0'; 2 * payload]?)?;
        input.extend_from_slice(b" []")?;
        assert_eq!(rt; input.len(), whole);
        let (status, sink) = run_in_memory(alloc, &words, input);
        assert!(rt; is_as(status, wanted, sink.bytes(), output));
    }
    Ok(())
}

// What comes behind the first byte past the limit is not asked for: 4,162 reads of at most 4,032 bytes give it, and the call that would
// fail is not made. Without that byte one more finds the end, and the lines are looked at.
#[test]
fn an_input_past_the_limit_is_not_run(rt: HostRuntime) -> Result<(), Fail> {
    let alloc = rt.alloc();
    let words = words_of(alloc, "session")?;
    for (length, failing, wanted, output) in [
        (
            16_777_216,
            4_164,
            Status::BadLine,
            b"badline 1\n".as_slice(),
        ),
        (16_777_217, 4_163, Status::InputTooLong, b"".as_slice()),
        (16_777_300, 4_163, Status::InputTooLong, b"".as_slice()),
    ] {
        let input = input_of(alloc, length)?;
        let mut source = MemorySource::new(input, 1 << 20, vec![in alloc; failing]?);
        let mut sink = SureSink::new(alloc);
        let status = run_program(alloc, &words, &mut source, &mut sink);
        assert!(rt; is_as(status, wanted, sink.bytes(), output), "at {length}");
    }
    Ok(())
}

// A test is run without input.
#[test]
fn standard_input_is_read(rt: HostRuntime) {
    let mut source = StdSource::new(rt.stdin());
    let mut room = [0u8; 4];
    assert_eq!(rt; source.read(&mut room), Ok(0));
}

#[test]
fn standard_output_is_written(rt: HostRuntime) {
    let mut sink = StdSink::new(rt.stdout());
    assert_eq!(rt; sink.write(b"out\n"), Ok(4));
}
