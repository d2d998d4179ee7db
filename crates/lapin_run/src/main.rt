//! The program: it makes the real source and sink, hands them with its words to a top call, and ends with the status's code. What it
//! does is stated in `lapin_program`, by `run_shared`, where the first word is `shared`, by `run_pool_program`, where it is `pool`, else
//! by `run_program`. Where the words ask for help, `lapin_reasons` has it, and no top call is made; what is said on standard error is
//! made there too. Here stands only what touches the process.
#![tactic(auto)]

use lapin_io::{StdSink, StdSource};
use lapin_program::{Status, run_pool_program, run_program, run_shared};
use lapin_reasons::{Heard, Last, give_help, help_asked, help_beside, where_found, why};
use lapin_shared::OpenGate;
use lapin_types::NoMemory;
use std::alloc::Global;
use std::env;
use std::io::{ErrorKind, Stderr, Stdin, Stdout, Write};
use std::mem::forget;
use std::process::ExitCode;
use std::sync::Wait;
use std::thread::Threads;

// The words behind the program's name. Where one is not UTF-8, they are no command.
fn given_words(rt: &HostRuntime) -> Result<Vec<String>, Status> {
    match env::args(rt) {
        Ok(args) => match args.skip(1).collect(rt.alloc()) {
            Ok(words) => Ok(words),
            Err(_) => Err(Status::NoMemory),
        },
        Err(error) if error.kind() == ErrorKind::OutOfMemory => Err(Status::NoMemory),
        Err(_) => Err(Status::BadWords),
    }
}

// The first word, and an empty one where there is none.
fn first_word(words: &[String]) -> &str {
    match words {
        [word, ..] => word.as_str(),
        [] => "",
    }
}

// The process's own streams.
#[derive(Clone, Copy)]
struct Streams {
    input: Stdin,
    output: Stdout,
    errors: Stderr,
}

// Says this on standard error. Where there was no memory for it, or standard error takes nothing, the status still tells.
fn tell(streams: Streams, text: Result<Vec<u8>, NoMemory>) {
    let mut errors = streams.errors;
    if let Ok(text) = text {
        let _ = errors.write_all(&text);
    }
}

// Does what the words say. What a run kept ends with the process, and is not let go entry by entry.
fn run<R: Threads + Wait + Sync>(
    rt: &R,
    alloc: Global,
    words: &[String],
    source: &mut Heard<StdSource>,
    sink: &mut Last<StdSink>,
) -> Status {
    match first_word(words) {
        "shared" => {
            let mut kept = None;
            let status = run_shared(rt, alloc, words, &OpenGate, source, sink, &mut kept);
            forget(kept);
            status
        }
        "pool" => {
            let mut kept = None;
            let status = run_pool_program(rt, alloc, words, &OpenGate, source, sink, &mut kept);
            forget(kept);
            status
        }
        _ => run_program(alloc, words, source, sink),
    }
}

// Does what the words say, and says on standard error what there is to say of it.
fn run_words<R: Threads + Wait + Sync>(
    rt: &R,
    alloc: Global,
    words: &[String],
    streams: Streams,
) -> Status {
    let mut source = Heard::new(alloc, StdSource::new(streams.input));
    let mut sink = Last::new(alloc, StdSink::new(streams.output));
    let status = run(rt, alloc, words, &mut source, &mut sink);
    tell(streams, why(alloc, words, status, source.bytes()));
    tell(
        streams,
        where_found(alloc, words, status, source.bytes(), sink.bytes()),
    );
    status
}

// Gives the help that the words ask for, or does what they say.
fn answer<R: Threads + Wait + Sync>(
    rt: &R,
    alloc: Global,
    words: &[String],
    streams: Streams,
) -> Status {
    if let Some(help) = help_asked(words) {
        let status = give_help(help, &mut StdSink::new(streams.output));
        tell(streams, why(alloc, words, status, &[]));
        return status;
    }
    if let Some(help) = help_beside(words) {
        let mut errors = streams.errors;
        let _ = errors.write_all(help.as_bytes());
    }
    run_words(rt, alloc, words, streams)
}

fn main(rt: HostRuntime) -> ExitCode {
    let streams = Streams {
        input: rt.stdin(),
        output: rt.stdout(),
        errors: rt.stderr(),
    };
    let status = match given_words(&rt) {
        Ok(words) => answer(&rt, rt.alloc(), &words, streams),
        Err(status) => {
            tell(streams, why(rt.alloc(), &[], status, &[]));
            status
        }
    };
    ExitCode::from(status.code())
}
