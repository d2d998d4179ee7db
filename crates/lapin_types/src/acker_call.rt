//! The calls of an acker, as data. What they do stands in the crates above.

use lapin_methods::{BasicAckOptions, BasicNackOptions, BasicRejectOptions};

/// A call of an acker. The delivery is the one that the acker names.
#[derive(Clone, Copy, Debug, PartialEq, Eq)]
pub enum AckerCall {
    /// Acknowledges it (`basic.ack`).
    Ack(BasicAckOptions),
    /// Gives it back (RabbitMQ, `basic.nack`).
    Nack(BasicNackOptions),
    /// Gives it back (`basic.reject`).
    Reject(BasicRejectOptions),
}
