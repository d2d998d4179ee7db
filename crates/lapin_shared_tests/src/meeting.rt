//! Two callers meet at a gate: each has a thread of its own.

use crate::driver::shared;
use crate::gates::TURNS;
use lapin_inputs::Status;
use lapin_shared::Gate;
use std::sync::atomic::{AtomicU64, Ordering};
use std::test::Fail;

/// Keeps one event before its turn until another one was made.
#[derive(Drop)]
struct Meeting {
    kept: u64,
    other: u64,
    made: AtomicU64,
    met: AtomicU64,
}

impl Gate for Meeting {
    fn before(&self, caller: u64, place: u64) {
        let _ = caller;
        if place != self.kept {
            return;
        }
        for _ in 0..TURNS {
            if self.made.load(Ordering::SeqCst) > 0 {
                self.met.store(1, Ordering::SeqCst);
                return;
            }
        }
    }

    fn after(&self, caller: u64, place: u64) {
        let _ = caller;
        if place == self.other {
            self.made.store(1, Ordering::SeqCst);
        }
    }
}

#[test]
fn two_callers_make_their_events_in_either_order(rt: HostRuntime) -> Result<(), Fail> {
    for (kept, other, want) in [
        (1, 2, "2 state open closed\n1 state open closed\n"),
        (2, 1, "1 state open closed\n2 state open closed\n"),
    ] {
        let gate = Meeting {
            kept,
            other,
            made: AtomicU64::new(0),
            met: AtomicU64::new(0),
        };
        let history = shared(
            &rt,
            rt.alloc(),
            &gate,
            "shared 2",
            "frame_max 4096\nstate 1\nstate 1\n",
            Status::Fine,
            want,
        )?;
        assert!(&rt; history.is_some());
        assert_eq!(&rt; gate.met.load(Ordering::SeqCst), 1);
    }
    Ok(())
}
