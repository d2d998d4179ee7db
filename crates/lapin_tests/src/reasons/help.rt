//! The examples of the help, and what is said of findings of `check`.

use crate::driver::{program, put, unescaped, words_of};
use lapin_program::Status;
use lapin_reasons::{help_asked, help_beside, where_found};
use std::alloc::{AllocError, Global};
use std::process::Abort;
use std::test::Fail;

// The lines of a text, each indented as the help has them.
fn indented(alloc: Global, text: &[u8]) -> Result<Vec<u8>, AllocError> {
    let mut out = Vec::new(alloc);
    let mut begins = true;
    for byte in text.iter() {
        if begins {
            out.extend_from_slice(b"    ")?;
        }
        out.push(*byte)?;
        begins = *byte == b'\n';
    }
    Ok(out)
}

// Runs the example of a help, and compares what it writes with what the help says.
fn shows_its_example(rt: &(impl Abort + AllocGlobal), help: &str) -> Result<(), AllocError> {
    let (input, rest) = match help.split_once("    printf '") {
        Some((_, rest)) => rest.split_once("' | ./lapin ").unwrap_or(("", "")),
        None => ("", help.split_once("\n    ./lapin ").unwrap_or(("", "")).1),
    };
    let (line, rest) = rest.split_once("\n\n").unwrap_or(("", ""));
    let (told, _) = rest.split_once("\n\n").unwrap_or(("", ""));
    let input = unescaped(rt.alloc(), input)?;
    let (status, sink) = program(rt.alloc(), line, input.as_str())?;
    let mut wanted = String::new(rt.alloc());
    put(&mut wanted, told)?;
    assert_eq!(rt; status, Status::Fine, "at {line}");
    assert_eq!(rt;
        indented(rt.alloc(), sink.bytes())?.as_slice(),
        wanted.as_bytes(),
        "at {line}"
    );
    Ok(())
}

#[test]
fn each_example_of_the_help_is_true(rt: HostRuntime) -> Result<(), Fail> {
    for line in [
        "session --help",
        "--help joined",
        "check --help",
        "resend --help",
        "--help call",
        "generate --help",
    ] {
        match help_asked(&words_of(rt.alloc(), line)?) {
            Some(help) => shows_its_example(&rt, help)?,
            None => assert!(rt; false, "no help for {line}"),
        }
    }
    Ok(())
}

// What asks for help, and what doesn't: words that are a command's own are that command.
#[test]
fn help_is_given_where_it_is_asked_for(rt: HostRuntime) -> Result<(), Fail> {
    for line in ["--help", "shared --help", "pool --help", "--help pool"] {
        assert!(rt;
            help_asked(&words_of(rt.alloc(), line)?).is_some(),
            "at {line}"
        );
    }
    for line in [
        "session",
        "call --help",
        "help",
        "session now --help",
        "sesion --help",
        "--help --help",
    ] {
        assert!(rt;
            help_asked(&words_of(rt.alloc(), line)?).is_none(),
            "at {line}"
        );
    }
    assert!(rt; help_beside(&words_of(rt.alloc(), "call --help")?).is_some());
    assert!(rt; help_beside(&words_of(rt.alloc(), "call replies")?).is_none());
    Ok(())
}

/// Transcripts, a blank line apart, and in the next line what is told of them, if anything.
const FINDINGS: &str = r"frame_max 4096\nup method 1 channel.open\ndown method 1 channel.open-ok\n

frame_max 4096\nup method 1 channel.open\ndown method 1 channel.open-ok\nup method 1 basic.publish x x71 0 0\nup method 1 basic.get x71 1\n
lapin: line 5: `up method 1 basic.get x71 1`: the broker takes this for a fault of the client: on this channel the next header or body of a publish is due

frame_max 4096\nup method 1 channel.open\ndown method 1 basic.ack 1 0\n
lapin: line 3: `down method 1 basic.ack 1 0`: the broker may not send this: the channel's state does not allow it

frame_max 4096\nup method 1 queue.purge x71 0\nsent\n
lapin: line 2: `up method 1 queue.purge x71 0`: the broker takes this for a fault of the client: the channel is not open

frame_max 4096\nup method 1 channel.open\nsent\n
lapin: what is found fine are the frames before the bad line alone

sent\n
";

fn is_told(rt: &(impl Abort + AllocGlobal), case: &str) -> Result<(), AllocError> {
    let (input, told) = case.split_once('\n').unwrap_or((case, ""));
    let input = unescaped(rt.alloc(), input)?;
    let (status, sink) = program(rt.alloc(), "check", input.as_str())?;
    let words = words_of(rt.alloc(), "check")?;
    let mut wanted = String::new(rt.alloc());
    if !told.is_empty() {
        put(&mut wanted, told)?;
    }
    match where_found(rt.alloc(), &words, status, input.as_bytes(), sink.bytes()) {
        Ok(found) => assert_eq!(rt; found.as_slice(), wanted.as_bytes(), "at {case}"),
        Err(_) => return Err(AllocError),
    }
    Ok(())
}

#[test]
fn findings_are_told_at_their_lines(rt: HostRuntime) -> Result<(), Fail> {
    for case in FINDINGS.split("\n\n") {
        is_told(&rt, case)?;
    }
    Ok(())
}
