//! Calls round the turns of callers, outside the lock: who runs callers on threads tells a gate of each turn.

/// Calls around a turn: `before` it begins and `after` it ended, outside the lock. A test can keep a caller waiting there.
pub trait Gate: Sync {
    /// Called before the turn of this caller that the place names.
    fn before(&self, caller: u64, place: u64);

    /// Called once that turn was made.
    fn after(&self, caller: u64, place: u64);
}

/// A gate that does nothing.
pub struct OpenGate;

impl Gate for OpenGate {
    fn before(&self, caller: u64, place: u64) {
        let _ = (caller, place);
    }

    fn after(&self, caller: u64, place: u64) {
        let _ = (caller, place);
    }
}
