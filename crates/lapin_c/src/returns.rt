//! The exports of outcomes with what came back.

ghost use Rattle.std.specs.Prelude.{◌≡◌};
ghost use Rattle.lapin_client.specs.Counts.{PollCounts, UnclaimedCounts};
ghost use Rattle.lapin_client.specs.Returns.{ReturnTold, ConfirmTold, UnclaimedTold};
ghost use Rattle.lapin_c.specs.Behind.{Behind, Gave};

use crate::calls::number_of;
use crate::handle::{Handle, put, take};
use lapin_client::{Returned, Status};
use std::alloc::Global;

/// The outcome of a publish: 1 an ack, 2 a nack, 3 none was asked for, 4 an error, which `lapin_why` says. It is written where it was done; what
/// came back with it `lapin_return_at` tells.
#[unsafe(no_mangle)]
pub extern "C" fn lapin_confirmed(
    alloc: Global,
    handle: &mut Handle,
    confirm: u64,
    outcome: &mut u64,
) -> u32
    ensures { Behind (λ c d. Gave result outcome.old outcome.new (λ r. ConfirmTold r confirm c d × PollCounts r c d)) ((result ≡ 7) × (outcome.new ≡ outcome.old)) handle.old.pointer.held handle.new.pointer.held }
{
    match take(alloc, handle) {
        Some(mut client) => {
            let done = client.confirmed(confirm);
            put(handle, client);
            number_of(done, outcome)
        }
        None => Status::Closed.code(),
    }
}

/// Once each publish of a channel has its outcome, how many messages came back that no outcome has is written; `lapin_return_at` tells them.
#[unsafe(no_mangle)]
pub extern "C" fn lapin_unclaimed(
    alloc: Global,
    handle: &mut Handle,
    channel: u16,
    count: &mut u64,
) -> u32
    ensures { Behind (λ c d. Gave result count.old count.new (λ r. UnclaimedTold r channel c d × UnclaimedCounts r c d)) ((result ≡ 7) × (count.new ≡ count.old)) handle.old.pointer.held handle.new.pointer.held }
{
    match take(alloc, handle) {
        Some(mut client) => {
            let done = client.unclaimed(alloc, channel);
            put(handle, client);
            number_of(done, count)
        }
        None => Status::Closed.code(),
    }
}

/// A message that came back, by its place among those that were told of last: its numbers and lengths are written, and its exchange, its
/// routing key, its list of properties, its body and the broker's text are the answer, one behind the other.
#[unsafe(no_mangle)]
pub extern "C" fn lapin_return_at(
    alloc: Global,
    handle: &mut Handle,
    place: usize,
    message: &mut Returned,
) -> u32
    ensures { Behind (λ c d. Gave result message.old message.new (λ r. ReturnTold r place c d)) ((result ≡ 7) × (message.new ≡ message.old)) handle.old.pointer.held handle.new.pointer.held }
{
    match take(alloc, handle) {
        Some(mut client) => {
            let told = client.return_at(alloc, place);
            put(handle, client);
            match told {
                Ok(found) => {
                    *message = found;
                    Status::Done.code()
                }
                Err(status) => status.code(),
            }
        }
        None => Status::Closed.code(),
    }
}
