//! A step as it is stored: in the history with its caller, and in a log with its place.

use lapin_types::{Event, Record};

/// An entry of the history: a step of a caller, with its record.
pub struct Entry {
    /// The number of the caller.
    pub caller: u64,
    /// What it asked of the session.
    pub event: Event,
    /// What the session answered.
    pub answer: Record,
}

impl Drop for Entry {
    fn drop(self) {
        let Entry {
            caller: _,
            event: _,
            answer: _,
        } = self;
    }
}

/// An entry of a log: what a caller knows of one of its steps.
pub struct Told {
    /// Where the step stands in the history, from 1.
    pub place: u64,
    /// What it asked of the session.
    pub event: Event,
    /// What the session answered. `None` where there was no memory for the copy; the record then stands in the history alone.
    pub answer: Option<Record>,
}

impl Drop for Told {
    fn drop(self) {
        let Told {
            place: _,
            event: _,
            answer: _,
        } = self;
    }
}
