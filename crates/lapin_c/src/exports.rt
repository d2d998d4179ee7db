//! The exports of a session: each takes the client out of its handle, makes one call of it, and puts it back.

ghost use Rattle.std.specs.Prelude.{◌≡◌, false, length, None};
ghost use Rattle.lapin_client.specs.Calls.{Published, OutcomeTold, Settled, Forgotten, fate_call};
ghost use Rattle.lapin_client.specs.Replies.{Delivered};
ghost use Rattle.lapin_client.specs.declared.calls.Fate.TheVariants as fates;
ghost use Rattle.lapin_client.specs.Closes.{TellsClose};
ghost use Rattle.lapin_client.specs.Counts.{OneWhereDone, OutcomeCounts, PollCounts, PublishCounts, SettleCounts};
ghost use Rattle.lapin_client.specs.Receiving.{Receives};
ghost use Rattle.lapin_client.specs.Sending.{Sends};
ghost use Rattle.lapin_client.specs.Answers.{answer_of};
ghost use Rattle.lapin_client.specs.Parcels.{Read};
ghost use Rattle.lapin_c.specs.Behind.{Behind, Coded, Gave, Opened, Stands, Taken, Why, blocked_of, octets_of};

use crate::calls::number_of;
use crate::handle::{Handle, put, take};
use lapin_client::{Client, CloseReason, Fate, Message, Refusal, States, Status, copy_out};
use lapin_types::BasicPublishOptions;
use std::alloc::Global;

/// Puts a client of a new session into a handle. Where there is a client in it already, that one is given up.
#[unsafe(no_mangle)]
pub extern "C" fn lapin_open(alloc: Global, handle: &mut Handle, frame_max: u32) -> u32
    ensures { Opened result frame_max handle.new.pointer.held }
{
    drop(take(alloc, handle));
    if frame_max < 4096 {
        return Status::NotInGrammar.code();
    }
    let Ok(client) = Client::new(alloc, frame_max) else {
        return Status::NoMemory.code();
    };
    match Box::new(alloc, client) {
        Ok(client) => {
            put(handle, client);
            Status::Done.code()
        }
        Err(_) => Status::NoMemory.code(),
    }
}

/// Ends the client, and closes the handle.
#[unsafe(no_mangle)]
pub extern "C" fn lapin_close(alloc: Global, handle: &mut Handle)
    ensures { handle.new.pointer.held ≡ None }
{
    drop(take(alloc, handle));
}

/// The number of bytes of the answer.
#[unsafe(no_mangle)]
pub extern "C" fn lapin_answer_length(alloc: Global, handle: &mut Handle) -> usize
    ensures length { result ≡ length (octets_of (λ c. answer_of c) handle.old.pointer.held) }
    ensures same { handle.new.pointer.held ≡ handle.old.pointer.held }
{
    match take(alloc, handle) {
        Some(client) => {
            let length = client.answer_length();
            put(handle, client);
            length
        }
        None => 0,
    }
}

/// The answer, where there is room for all of it. How many bytes were written.
#[unsafe(no_mangle)]
pub extern "C" fn lapin_answer(alloc: Global, handle: &mut Handle, out: &mut [u8]) -> usize
    ensures read { Read result (octets_of (λ c. answer_of c) handle.old.pointer.held) out.old out.new }
    ensures same { handle.new.pointer.held ≡ handle.old.pointer.held }
{
    match take(alloc, handle) {
        Some(client) => {
            let written = client.copy_answer(out);
            put(handle, client);
            written
        }
        None => 0,
    }
}

/// Publishes. The properties are a list as a content header has it. The number of its confirm is written where it was done.
#[unsafe(no_mangle)]
pub extern "C" fn lapin_publish(
    alloc: Global,
    handle: &mut Handle,
    channel: u16,
    exchange: &[u8],
    routing_key: &[u8],
    mandatory: bool,
    immediate: bool,
    payload: &[u8],
    properties: &[u8],
    confirm: &mut u64,
) -> u32
    ensures { Behind (λ c d. Gave result confirm.old confirm.new (λ r. Published r channel exchange.now routing_key.now (record { mandatory = mandatory; immediate = immediate }) payload.now properties.now c d × PublishCounts r c d)) ((result ≡ 7) × (confirm.new ≡ confirm.old)) handle.old.pointer.held handle.new.pointer.held }
{
    match take(alloc, handle) {
        Some(mut client) => {
            let options = BasicPublishOptions {
                mandatory,
                immediate,
            };
            let done = client.publish(
                alloc,
                channel,
                exchange,
                routing_key,
                options,
                payload,
                properties,
            );
            put(handle, client);
            number_of(done, confirm)
        }
        None => Status::Closed.code(),
    }
}

/// The outcome of a publish that didn't come back: 1 an ack, 2 a nack, 3 none was asked for, 4 an error, which `lapin_why` says; 0 where there is
/// none yet, or where its message came back, so that `lapin_confirmed` tells more.
#[unsafe(no_mangle)]
pub extern "C" fn lapin_outcome(alloc: Global, handle: &mut Handle, confirm: u64) -> u32
    ensures { Behind (λ c d. OutcomeTold result confirm c d × OutcomeCounts result c d) (result ≡ 0) handle.old.pointer.held handle.new.pointer.held }
{
    match take(alloc, handle) {
        Some(mut client) => {
            let outcome = client.outcome(confirm);
            put(handle, client);
            outcome
        }
        None => 0,
    }
}

/// The confirm will not be asked for any more.
#[unsafe(no_mangle)]
pub extern "C" fn lapin_forget(alloc: Global, handle: &mut Handle, confirm: u64) -> u32
    ensures { Behind (λ c d. Coded result (λ s. Forgotten s confirm c d × OneWhereDone s c d)) (result ≡ 7) handle.old.pointer.held handle.new.pointer.held }
{
    match take(alloc, handle) {
        Some(mut client) => {
            let status = client.forget(alloc, confirm);
            put(handle, client);
            status.code()
        }
        None => Status::Closed.code(),
    }
}

/// What a consumer was handed next: its numbers and lengths are written, and its exchange, its routing key, its list of properties and its body
/// are the answer, one behind the other.
#[unsafe(no_mangle)]
pub extern "C" fn lapin_delivery(
    alloc: Global,
    handle: &mut Handle,
    consumer: u64,
    message: &mut Message,
) -> u32
    ensures { Behind (λ c d. Gave result message.old message.new (λ r. Delivered r consumer c d × PollCounts r c d)) ((result ≡ 7) × (message.new ≡ message.old)) handle.old.pointer.held handle.new.pointer.held }
{
    match take(alloc, handle) {
        Some(mut client) => {
            let handed = client.delivery(alloc, consumer);
            put(handle, client);
            match handed {
                Ok(found) => {
                    *message = found;
                    Status::Done.code()
                }
                Err(status) => status.code(),
            }
        }
        None => Status::Closed.code(),
    }
}

// Settles a message by its acker.
fn settle(
    alloc: Global,
    handle: &mut Handle,
    acker: u64,
    fate: Fate,
    multiple: bool,
    requeue: bool,
) -> u32
    ensures { Behind (λ c d. Coded result (λ s. Settled s acker (fate_call fate multiple requeue) c d × SettleCounts s c d)) (result ≡ 7) handle.old.pointer.held handle.new.pointer.held }
{
    match take(alloc, handle) {
        Some(mut client) => {
            let status = client.settle(alloc, acker, fate, multiple, requeue);
            put(handle, client);
            status.code()
        }
        None => Status::Closed.code(),
    }
}

/// Acknowledges a message by its acker; with `multiple` all up to it on its channel.
#[unsafe(no_mangle)]
pub extern "C" fn lapin_ack(alloc: Global, handle: &mut Handle, acker: u64, multiple: bool) -> u32
    ensures { Behind (λ c d. Coded result (λ s. Settled s acker (fate_call fates.Ack multiple false) c d × SettleCounts s c d)) (result ≡ 7) handle.old.pointer.held handle.new.pointer.held }
{
    settle(alloc, handle, acker, Fate::Ack, multiple, false)
}

/// Gives a message back by its acker; with `multiple` all up to it on its channel, with `requeue` into its queue.
#[unsafe(no_mangle)]
pub extern "C" fn lapin_nack(
    alloc: Global,
    handle: &mut Handle,
    acker: u64,
    multiple: bool,
    requeue: bool,
) -> u32
    ensures { Behind (λ c d. Coded result (λ s. Settled s acker (fate_call fates.Nack multiple requeue) c d × SettleCounts s c d)) (result ≡ 7) handle.old.pointer.held handle.new.pointer.held }
{
    settle(alloc, handle, acker, Fate::Nack, multiple, requeue)
}

/// Gives a message back by its acker; with `requeue` into its queue.
#[unsafe(no_mangle)]
pub extern "C" fn lapin_reject(alloc: Global, handle: &mut Handle, acker: u64, requeue: bool) -> u32
    ensures { Behind (λ c d. Coded result (λ s. Settled s acker (fate_call fates.Reject false requeue) c d × SettleCounts s c d)) (result ≡ 7) handle.old.pointer.held handle.new.pointer.held }
{
    settle(alloc, handle, acker, Fate::Reject, false, requeue)
}

/// Why the session refused something last, or the last error that a reply, an outcome or a delivery was.
#[unsafe(no_mangle)]
pub extern "C" fn lapin_why(alloc: Global, handle: &mut Handle, refusal: &mut Refusal) -> u32
    ensures told { Why result refusal.old refusal.new handle.old.pointer.held }
    ensures same { handle.new.pointer.held ≡ handle.old.pointer.held }
{
    match take(alloc, handle) {
        Some(client) => {
            let told = client.why();
            put(handle, client);
            match told {
                Some(found) => {
                    *refusal = found;
                    Status::Done.code()
                }
                None => Status::Pending.code(),
            }
        }
        None => Status::Closed.code(),
    }
}

/// The states of the connection and of a channel.
#[unsafe(no_mangle)]
pub extern "C" fn lapin_state(
    alloc: Global,
    handle: &mut Handle,
    channel: u16,
    states: &mut States,
) -> u32
    ensures told { Stands result channel states.old states.new handle.old.pointer.held }
    ensures same { handle.new.pointer.held ≡ handle.old.pointer.held }
{
    match take(alloc, handle) {
        Some(client) => {
            *states = client.states(channel);
            put(handle, client);
            Status::Done.code()
        }
        None => Status::Closed.code(),
    }
}

/// The frames that may leave, as bytes: until there is none, or until there are so many bytes; and then what is left of a begun publish,
/// and the methods that wait.
#[unsafe(no_mangle)]
pub extern "C" fn lapin_send(alloc: Global, handle: &mut Handle, flow: bool, enough: usize) -> u32
    ensures { Behind (λ c d. Coded result (λ s. Sends s flow enough c d)) (result ≡ 7) handle.old.pointer.held handle.new.pointer.held }
{
    match take(alloc, handle) {
        Some(mut client) => {
            let status = client.send(alloc, flow, enough);
            put(handle, client);
            status.code()
        }
        None => Status::Closed.code(),
    }
}

/// The number of bytes that are to be sent.
#[unsafe(no_mangle)]
pub extern "C" fn lapin_leaving_length(alloc: Global, handle: &mut Handle) -> usize
    ensures length { result ≡ length (octets_of (λ c. c.leaving.items) handle.old.pointer.held) }
    ensures same { handle.new.pointer.held ≡ handle.old.pointer.held }
{
    match take(alloc, handle) {
        Some(client) => {
            let length = client.leaving.len();
            put(handle, client);
            length
        }
        None => 0,
    }
}

/// The bytes that are to be sent, where there is room for all of them; they are then the caller's. How many were written.
#[unsafe(no_mangle)]
pub extern "C" fn lapin_leaving(alloc: Global, handle: &mut Handle, out: &mut [u8]) -> usize
    ensures read { Read result (octets_of (λ c. c.leaving.items) handle.old.pointer.held) out.old out.new }
    ensures left { Behind (λ c d. Taken result c d) (result ≡ 0) handle.old.pointer.held handle.new.pointer.held }
{
    match take(alloc, handle) {
        Some(mut client) => {
            let written = copy_out(out, &client.leaving);
            if written == 0 {
                put(handle, client);
                return 0;
            }
            client.sent();
            put(handle, client);
            written
        }
        None => 0,
    }
}

/// Takes bytes of the broker, in whatever pieces they come. Where it refused a frame, or bytes are none, what came behind it is handed on by
/// the next call.
#[unsafe(no_mangle)]
pub extern "C" fn lapin_receive(alloc: Global, handle: &mut Handle, bytes: &[u8]) -> u32
    ensures { Behind (λ c d. Coded result (λ s. Receives s bytes.now c d)) (result ≡ 7) handle.old.pointer.held handle.new.pointer.held }
{
    match take(alloc, handle) {
        Some(mut client) => {
            let status = client.receive(alloc, bytes);
            put(handle, client);
            status.code()
        }
        None => Status::Closed.code(),
    }
}

/// Whether the broker said last that it takes no messages.
#[unsafe(no_mangle)]
pub extern "C" fn lapin_is_blocked(alloc: Global, handle: &mut Handle) -> bool
    ensures told { result ≡ blocked_of handle.old.pointer.held }
    ensures same { handle.new.pointer.held ≡ handle.old.pointer.held }
{
    match take(alloc, handle) {
        Some(client) => {
            let blocked = client.blocked;
            put(handle, client);
            blocked
        }
        None => false,
    }
}

/// What the broker said as it last closed a channel, or the connection (channel 0): its numbers are written, and its text is the answer.
#[unsafe(no_mangle)]
pub extern "C" fn lapin_last_close(
    alloc: Global,
    handle: &mut Handle,
    channel: u16,
    reason: &mut CloseReason,
) -> u32
    ensures { Behind (λ c d. Gave result reason.old reason.new (λ r. TellsClose r channel c d)) ((result ≡ 7) × (reason.new ≡ reason.old)) handle.old.pointer.held handle.new.pointer.held }
{
    match take(alloc, handle) {
        Some(mut client) => {
            let told = client.last_close(channel);
            put(handle, client);
            match told {
                Ok(found) => {
                    *reason = found;
                    Status::Done.code()
                }
                Err(status) => status.code(),
            }
        }
        None => Status::Closed.code(),
    }
}
