//! A gate at which two working callers meet. The other modules call it.

use lapin_shared::Gate;
use std::sync::atomic::{AtomicU64, Ordering};

/// The most looks of a wait.
pub const TURNS: u64 = 1_000_000_000;

/// Keeps the first job before it is judged until another one was treated.
#[derive(Drop)]
pub struct Meeting {
    came: AtomicU64,
    left: AtomicU64,
    /// Whether another job was treated while the first one waited.
    pub met: AtomicU64,
}

impl Meeting {
    /// Nobody came yet.
    pub fn new() -> Meeting {
        Meeting {
            came: AtomicU64::new(0),
            left: AtomicU64::new(0),
            met: AtomicU64::new(0),
        }
    }
}

impl Gate for Meeting {
    fn before(&self, caller: u64, place: u64) {
        let _ = (caller, place);
        if self.came.fetch_add(1, Ordering::SeqCst) != 0 {
            return;
        }
        for _ in 0..TURNS {
            if self.left.load(Ordering::SeqCst) > 0 {
                self.met.store(1, Ordering::SeqCst);
                return;
            }
        }
    }

    fn after(&self, caller: u64, place: u64) {
        let _ = (caller, place);
        self.left.fetch_add(1, Ordering::SeqCst);
    }
}
