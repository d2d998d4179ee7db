//! A client whose first caller opened a channel and consumes on it, and the input of the command that does the same. The other modules
//! call it.

ghost use Rattle.std.specs.Prelude.{◌≡◌, ◌<◌, length, map};
ghost use Rattle.lapin_shared.specs.Grown.{number_of};

use crate::driver::words_of;
use crate::stepping::make_events;
use lapin_acker::Verdict;
use lapin_inputs::Status;
use lapin_io::{SureSink, SureSource};
use lapin_pool::{Duty, PoolEnd};
use lapin_program::run_pool_program;
use lapin_shared::{Caller, Crew, Gate};
use lapin_types::Delivery;
use std::alloc::Global;
use std::process::Abort;
use std::sync::Wait;
use std::test::Fail;
use std::thread::Threads;

/// A channel that is open, and a consumer of it under the tag `t`, whose deliveries are jobs. These are five steps behind the first line.
pub const CONSUMING: &str = "frame_max 4096\n\
call 1 channel.open\nnext 1\nrecv method 1 channel.open-ok\n\
call 1 basic.consume x71 x74 0 0 0 1 {}\ndelegate 1\n";

/// A delivery to that consumer, of the byte `a`.
pub const DELIVERED: &str = "recv method 1 basic.deliver x74 1 0 x x71\n\
recv header 1 60 1 []\nrecv body 1 x61\n";

/// Acknowledges each delivery.
pub struct Acks;

impl Duty for Acks {
    ghost use Rattle.std.specs.Prelude.{◌≡◌};
    ghost use Rattle.lapin_acker.specs.declared.verdict.Verdict.TheVariants as verdict;

    ghost may = { λ _ delivery v. v ≡ verdict.Ack };

    fn judge(&self, delivery: &Delivery) -> Verdict {
        let _ = delivery;
        Verdict::Ack
    }
}

/// That beginning, and so many deliveries.
pub fn with_deliveries(alloc: Global, deliveries: u64) -> Result<String, Fail> {
    let mut text = String::from_str(alloc, CONSUMING)?;
    for _ in 0..deliveries {
        text.push_str(DELIVERED)?;
    }
    Ok(text)
}

/// The first caller makes the events of an input.
pub fn make_first<L: Crew, R: Wait + Abort>(
    rt: &R,
    alloc: Global,
    callers: &mut Vec<Caller<L>>,
    input: &str,
) -> Result<(), Fail>
    requires { 0 < length callers.old.items }
    ensures { map number_of callers.new.items ≡ map number_of callers.old.items }
{
    make_events(rt, alloc, &mut callers[0], input)
}

/// Runs the words `pool N` of a line on an input, compares the status, and answers the text and what was kept.
pub fn pool<G: Gate, R: Threads + Wait + Abort + Sync>(
    rt: &R,
    alloc: Global,
    gate: &G,
    line: &str,
    input: &str,
) -> Result<(Vec<u8>, PoolEnd), Fail> {
    let words = words_of(alloc, line)?;
    let mut source = SureSource::new(input.as_bytes().to_vec(alloc)?);
    let mut sink = SureSink::new(alloc);
    let mut kept = None;
    let status = run_pool_program(rt, alloc, &words, gate, &mut source, &mut sink, &mut kept);
    assert_eq!(rt; status, Status::Fine);
    let text = sink.bytes().to_vec(alloc)?;
    match kept {
        Some(end) => Ok((text, end)),
        None => Err(Fail::from("nothing is kept")),
    }
}
