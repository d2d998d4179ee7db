//! What a delegate answers to a delivery, and the acker's call that this asks for.

ghost use Rattle.std.specs.Prelude.{◌≡◌};
ghost use Rattle.lapin_acker.specs.Verdicts.{call_of};

use lapin_types::AckerCall;
use lapin_types::options::{BasicAckOptions, BasicNackOptions, BasicRejectOptions};

/// What becomes of a delivery: it is acknowledged, given back, refused, or left as it is.
#[derive(Clone, Copy, Debug, PartialEq, Eq)]
pub enum Verdict {
    /// `basic.ack` of this delivery alone.
    Ack,
    /// `basic.nack` of this delivery alone.
    Nack {
        /// Whether the broker may deliver it again.
        requeue: bool,
    },
    /// `basic.reject`.
    Reject {
        /// Whether the broker may deliver it again.
        requeue: bool,
    },
    /// No call: whoever has the acker may use it later.
    Nothing,
}

impl Verdict {
    /// The acker's call of the verdict, of this delivery alone; None for `Nothing`.
    pub fn call(self) -> Option<AckerCall>
        ensures { result ≡ call_of self }
    {
        match self {
            Verdict::Ack => Some(AckerCall::Ack(BasicAckOptions { multiple: false })),
            Verdict::Nack { requeue } => Some(AckerCall::Nack(BasicNackOptions {
                multiple: false,
                requeue,
            })),
            Verdict::Reject { requeue } => {
                Some(AckerCall::Reject(BasicRejectOptions { requeue }))
            }
            Verdict::Nothing => None,
        }
    }
}
