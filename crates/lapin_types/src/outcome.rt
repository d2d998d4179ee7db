//! How a confirm ended. The rules stand in the crates above.

use lapin_methods::Error;

/// How a confirm ended.
#[derive(Clone, Copy, Debug, PartialEq, Eq)]
pub enum Outcome {
    /// Its method frame left before the opening's first `confirm.select`.
    NotRequested,
    Ack,
    Nack,
    /// The opening ended, or this side closed it before the method frame left.
    Failed(Error),
}
