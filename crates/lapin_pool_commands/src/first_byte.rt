//! The duty of the command: a delivery is judged by the first byte of its payload.

use lapin_acker::Verdict;
use lapin_pool::Duty;
use lapin_types::Delivery;

/// `a` is an ack, `n` a nack with requeue, `r` a reject without; anything else, and no byte at all, is nothing.
pub struct FirstByte;

impl Duty for FirstByte {
    ghost use Rattle.std.specs.Prelude.{◌≡◌};
    ghost use Rattle.lapin_pool_commands.specs.Verdicts.{verdict_on};

    ghost may = { λ _ delivery verdict. verdict ≡ verdict_on delivery.payload };

    fn judge(&self, delivery: &Delivery) -> Verdict {
        match delivery.payload.as_bytes() {
            [b'a', ..] => Verdict::Ack,
            [b'n', ..] => Verdict::Nack { requeue: true },
            [b'r', ..] => Verdict::Reject { requeue: false },
            _ => Verdict::Nothing,
        }
    }
}
