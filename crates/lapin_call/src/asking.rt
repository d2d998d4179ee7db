//! The calls that a caller makes of its session: the open of channel 1, the consume of the replies, and the publish of a request.

ghost use Rattle.std.specs.Prelude.{◌≡◌, decimal, true, IfOk, OnOk};
ghost use Rattle.lapin_types.specs.declared.event.Event.TheVariants as event;
ghost use Rattle.lapin_types.specs.declared.call.Call.TheVariants as call;
ghost use Rattle.lapin_rules.specs.Wire.{state_of, is_closed};
ghost use Rattle.lapin_machine.specs.Numbers.{HasNumbersFor};
ghost use Rattle.lapin_machine.specs.World.{next};
ghost use Rattle.lapin_call.specs.Calls.{consuming, requesting, request_properties, is_ready as is_ready_lem};

use itoa::Buffer;
use lapin_machine::Session;
use lapin_types::{
    BasicConsumeOptions, BasicProperties, BasicPublishOptions, Call, ChannelState, Error,
    FieldTable, NoMemory, Payload, ShortString,
};
use std::alloc::Global;

/// The channel of the requests and of the replies.
const CHANNEL: u16 = 1;

/// Whether channel 1 is open.
pub(crate) fn is_ready(session: &Session) -> bool
    ensures { result ≡ is_ready_lem session.now.wire }
{
    matches!(session.channel_state(CHANNEL), ChannelState::Open)
}

/// Asks for channel 1, which is closed.
pub(crate) fn open(alloc: Global, session: &mut Session) -> Result<(), NoMemory>
    requires closed { is_closed (state_of 1 session.old.wire) ≡ true }
    requires numbers { HasNumbersFor 1 session.old }
    ensures { OnOk result (session.new ≡ next session.old (event.Call 1 call.OpenChannel)) }
{
    match session.open_channel(alloc, CHANNEL) {
        Ok(_) => Ok(()),
        Err(Error::NoMemory) => Err(NoMemory),
        Err(_) => unreachable!(),
    }
}

/// Consumes from the queue of the replies, under its own name as tag. Channel 1 is open.
pub(crate) fn consume(
    alloc: Global,
    session: &mut Session,
    queue: &ShortString,
) -> Result<(), NoMemory>
    requires ready { is_ready_lem session.old.wire ≡ true }
    requires numbers { HasNumbersFor 1 session.old }
    ensures { OnOk result (session.new ≡ next session.old (consuming queue.now)) }
{
    let options = BasicConsumeOptions {
        no_local: false,
        no_ack: true,
        exclusive: false,
        nowait: true,
    };
    let tag = queue.try_clone(alloc)?;
    let queue = queue.try_clone(alloc)?;
    let call = Call::BasicConsume {
        queue,
        consumer_tag: tag,
        options,
        arguments: FieldTable::new(alloc),
    };
    match session.call(alloc, CHANNEL, call) {
        Ok(_) => Ok(()),
        Err(Error::NoMemory) => Err(NoMemory),
        Err(_) => unreachable!(),
    }
}

/// Publishes a request under its number, with the queue to which its reply goes. Channel 1 is open.
pub(crate) fn request(
    alloc: Global,
    session: &mut Session,
    number: u64,
    queue: &ShortString,
    exchange: ShortString,
    routing_key: ShortString,
    payload: Payload,
) -> Result<(), NoMemory>
    requires ready { is_ready_lem session.old.wire ≡ true }
    requires numbers { HasNumbersFor 1 session.old }
    ensures { OnOk result (session.new ≡ next session.old (requesting number queue.now exchange routing_key payload)) }
{
    let options = BasicPublishOptions {
        mandatory: false,
        immediate: false,
    };
    let properties = properties_of(alloc, number, queue)?;
    match session.basic_publish(
        alloc,
        CHANNEL,
        exchange,
        routing_key,
        options,
        payload,
        properties,
    ) {
        Ok(_) => Ok(()),
        Err(Error::NoMemory) => Err(NoMemory),
        Err(_) => unreachable!(),
    }
}

// The properties of a request.
fn properties_of(
    alloc: Global,
    number: u64,
    queue: &ShortString,
) -> Result<BasicProperties, NoMemory>
    ensures { IfOk result (λ properties. properties ≡ request_properties number queue.now) }
{
    let id = decimal_of(alloc, number)?;
    let address = queue.try_clone(alloc)?;
    Ok(
        BasicProperties::default()
            .with_correlation_id(id)
            .with_reply_to(address),
    )
}

// A number in decimal.
fn decimal_of(alloc: Global, number: u64) -> Result<ShortString, NoMemory>
    ensures { IfOk result (λ text. text ≡ decimal number) }
{
    let mut buffer = Buffer::new();
    ShortString::literal(alloc, buffer.format(number))
}
