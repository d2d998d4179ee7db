//! The exports by which one is found among many that has something to be told.

ghost use Rattle.std.specs.Prelude.{◌≡◌};
ghost use Rattle.lapin_c.specs.Behind.{Placed, Ready};
ghost use Rattle.lapin_types.specs.declared.event.Event.TheVariants as event;

use crate::handle::{Handle, put, take};
use lapin_client::Status;
use std::alloc::Global;

/// The first place from this one on, among consumers by their numbers, at which one has something that `lapin_delivery` would give. It is written where
/// there is one.
#[unsafe(no_mangle)]
pub extern "C" fn lapin_ready_consumer(
    alloc: Global,
    handle: &mut Handle,
    consumers: &[u64],
    from: usize,
    place: &mut usize,
) -> u32
    ensures told { Ready result (λ n. event.PollConsumer n) from consumers.now place.old place.new handle.old.pointer.held }
    ensures same { handle.new.pointer.held ≡ handle.old.pointer.held }
{
    match take(alloc, handle) {
        Some(client) => {
            let found = client.ready_consumer(consumers, from);
            put(handle, client);
            place_of(found, place)
        }
        None => Status::Closed.code(),
    }
}

/// The same of calls by their tickets, and of `lapin_reply`.
#[unsafe(no_mangle)]
pub extern "C" fn lapin_ready_reply(
    alloc: Global,
    handle: &mut Handle,
    tickets: &[u64],
    from: usize,
    place: &mut usize,
) -> u32
    ensures told { Ready result (λ n. event.PollTicket n) from tickets.now place.old place.new handle.old.pointer.held }
    ensures same { handle.new.pointer.held ≡ handle.old.pointer.held }
{
    match take(alloc, handle) {
        Some(client) => {
            let found = client.ready_reply(tickets, from);
            put(handle, client);
            place_of(found, place)
        }
        None => Status::Closed.code(),
    }
}

// The place that was found is written; else it is as it was. The number of the status.
fn place_of(found: Option<usize>, place: &mut usize) -> u32
    ensures { Placed result found place.old place.new }
{
    match found {
        Some(found) => {
            *place = found;
            Status::Done.code()
        }
        None => Status::Pending.code(),
    }
}
