//! The exports of calls and of their replies, and of the loss of the connection.

ghost use Rattle.std.specs.Prelude.{◌≡◌};
ghost use Rattle.lapin_client.specs.Asking.{Called, Limited, Unasked};
ghost use Rattle.lapin_client.specs.Counts.{CallCounts, OneWhereDone, PollCounts};
ghost use Rattle.lapin_client.specs.Replies.{Replied};
ghost use Rattle.lapin_client.specs.States.{IsLost};
ghost use Rattle.lapin_c.specs.Behind.{Behind, Coded, Gave, IsNumbered};

use crate::handle::{Handle, put, take};
use lapin_client::{Fields, Status};
use std::alloc::Global;

/// Makes the call whose method these bytes are. The number of its ticket is written where it was done.
#[unsafe(no_mangle)]
pub extern "C" fn lapin_call(
    alloc: Global,
    handle: &mut Handle,
    channel: u16,
    method: &[u8],
    ticket: &mut u64,
) -> u32
    ensures { Behind (λ c d. Gave result ticket.old ticket.new (λ r. Called r channel method.now c d × CallCounts r c d)) ((result ≡ 7) × (ticket.new ≡ ticket.old)) handle.old.pointer.held handle.new.pointer.held }
{
    match take(alloc, handle) {
        Some(mut client) => {
            let done = client.call(alloc, channel, method);
            put(handle, client);
            number_of(done, ticket)
        }
        None => Status::Closed.code(),
    }
}

/// From now on no more publishes of a channel than that are outstanding. The number of its ticket is written where it was done.
#[unsafe(no_mangle)]
pub extern "C" fn lapin_limit(
    alloc: Global,
    handle: &mut Handle,
    channel: u16,
    limit: u64,
    ticket: &mut u64,
) -> u32
    ensures { Behind (λ c d. Gave result ticket.old ticket.new (λ r. Limited r channel limit c d × CallCounts r c d)) ((result ≡ 7) × (ticket.new ≡ ticket.old)) handle.old.pointer.held handle.new.pointer.held }
{
    match take(alloc, handle) {
        Some(mut client) => {
            let done = client.limit(alloc, channel, limit);
            put(handle, client);
            number_of(done, ticket)
        }
        None => Status::Closed.code(),
    }
}

/// The reply of a call: its fields are written, and its octets are the answer.
#[unsafe(no_mangle)]
pub extern "C" fn lapin_reply(
    alloc: Global,
    handle: &mut Handle,
    ticket: u64,
    fields: &mut Fields,
) -> u32
    ensures { Behind (λ c d. Gave result fields.old fields.new (λ r. Replied r ticket c d × PollCounts r c d)) ((result ≡ 7) × (fields.new ≡ fields.old)) handle.old.pointer.held handle.new.pointer.held }
{
    match take(alloc, handle) {
        Some(mut client) => {
            let replied = client.reply(alloc, ticket);
            put(handle, client);
            match replied {
                Ok(found) => {
                    *fields = found;
                    Status::Done.code()
                }
                Err(status) => status.code(),
            }
        }
        None => Status::Closed.code(),
    }
}

/// The reply of a call will not be asked for any more.
#[unsafe(no_mangle)]
pub extern "C" fn lapin_forget_call(alloc: Global, handle: &mut Handle, ticket: u64) -> u32
    ensures { Behind (λ c d. Coded result (λ s. Unasked s ticket c d × OneWhereDone s c d)) (result ≡ 7) handle.old.pointer.held handle.new.pointer.held }
{
    match take(alloc, handle) {
        Some(mut client) => {
            let status = client.forget_call(ticket);
            put(handle, client);
            status.code()
        }
        None => Status::Closed.code(),
    }
}

/// The connection is gone: nothing leaves any more, and all that is open fails.
#[unsafe(no_mangle)]
pub extern "C" fn lapin_lost(alloc: Global, handle: &mut Handle) -> u32
    ensures { Behind (λ c d. Coded result (λ s. IsLost s c d × OneWhereDone s c d)) (result ≡ 7) handle.old.pointer.held handle.new.pointer.held }
{
    match take(alloc, handle) {
        Some(mut client) => {
            let status = client.lost(alloc);
            put(handle, client);
            status.code()
        }
        None => Status::Closed.code(),
    }
}

// The number of what was done is written; else the place is as it was. The number of the status.
pub(crate) fn number_of(done: Result<u64, Status>, place: &mut u64) -> u32
    ensures { IsNumbered done result place.old place.new }
{
    match done {
        Ok(number) => {
            *place = number;
            Status::Done.code()
        }
        Err(status) => status.code(),
    }
}
