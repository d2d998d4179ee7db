//! A whole content: the room that it needs, and what it does to tickets, consumers and confirms.
//!
//! Which frame makes a content whole stands in `receiving_contents`, what becomes of a returned message in `lapin_confirm`, of a
//! delivery in `lapin_consumer`.

ghost use Rattle.std.specs.Prelude.{◌≡◌, true, Some, IfOk, OnOk, is_some};
ghost use Rattle.std.specs.List.{fold};
ghost use Rattle.lapin_rules.specs.Content.{whole_by, next_acker, start_deliveries, whole_deliveries, whole_marks, whole_tickets, delivered_message, returned_message};
ghost use Rattle.lapin_content.specs.declared.start.Start.TheVariants.{Deliver as DeliverStart};
ghost use Rattle.lapin_delivery.specs.WithRoom.{what};
ghost use Rattle.lapin_delivery.specs.Deliveries.{after_mark as after_deliveries_mark};
ghost use Rattle.lapin_content.specs.declared.start.Start.{Start as AStart};
ghost use Rattle.lapin_content.specs.Channels.{expected_on};
ghost use Rattle.lapin_confirm.specs.Machine as confirm_state;
ghost use Rattle.lapin_ticket.specs.Slots as answers;
ghost use Rattle.lapin_machine.specs.Whole.{is_awaited, ended_by, Fits, FitsAt, FitsFront, MakesRoom, MakesRoomAt};

use lapin_confirm::Confirms;
use lapin_content::{Contents, Start, Whole};
use lapin_delivery::Deliveries;
use lapin_outstanding::Outstanding;
use lapin_rules::ContentPart;
use lapin_ticket::Place;
use lapin_types::{
    Acker, Answer, BasicGetMessage, BasicProperties, BasicReturnMessage, Delivery, Error, Payload,
    ShortString,
};
use std::alloc::Global;

// Makes room for what a content does that is whole with this header or body, if one is.
pub(crate) fn make_room(
    alloc: Global,
    contents: &Contents,
    confirms: &mut Confirms,
    deliveries: &mut Deliveries,
    channel: u16,
    part: &ContentPart,
) -> Result<Option<Place>, Error>
    requires { is_awaited part.now (expected_on channel contents.now) ≡ true }
    ensures same { (confirms.new.what ≡ confirms.old.what) × (what deliveries.new ≡ what deliveries.old) }
    ensures room { IfOk result (λ place. FitsFront (ended_by part.now (expected_on channel contents.now)) channel deliveries.new confirms.new place) }
    ensures cause { MakesRoom result (ended_by part.now (expected_on channel contents.now)) (what deliveries.old) }
{
    if !is_last(contents, channel, part) {
        return Ok(None);
    }
    match contents.front(channel) {
        Some(start) => make_room_for(alloc, start, confirms, deliveries, channel),
        None => Ok(None),
    }
}

// Whether the content at the front is whole with a header or a body: the header tells of no byte, or the body is all that it lacks.
fn is_last(contents: &Contents, channel: u16, part: &ContentPart) -> bool
    requires { is_awaited part.now (expected_on channel contents.now) ≡ true }
    ensures { result ≡ is_some (whole_by part.now (expected_on channel contents.now)) }
{
    match part {
        ContentPart::Header(header) => header.body_size == 0,
        ContentPart::Body(payload) => match contents.awaits(channel) {
            Some(left) => left == payload.as_bytes().len() as u64,
            None => false,
        },
        _ => false,
    }
}

// The message of a get takes an acker and a place for the answer, a delivery an acker and a place with its consumer, a returned
// message a place with the confirms.
fn make_room_for(
    alloc: Global,
    start: &Start,
    confirms: &mut Confirms,
    deliveries: &mut Deliveries,
    channel: u16,
) -> Result<Option<Place>, Error>
    ensures same { (confirms.new.what ≡ confirms.old.what) × (what deliveries.new ≡ what deliveries.old) }
    ensures room { IfOk result (λ place. Fits start.now channel deliveries.new confirms.new place) }
    ensures cause { MakesRoom result (Some start.now) (what deliveries.old) }
{
    match start {
        Start::Get { .. } => {
            deliveries.reserve_acker(alloc)?;
            Ok(Some(Place::new(alloc)?))
        }
        Start::Return { .. } => {
            confirms.reserve(alloc, channel)?;
            Ok(None)
        }
        Start::Deliver { consumer, .. } => {
            make_room_at(alloc, *consumer, deliveries)?;
            Ok(None)
        }
    }
}

// The delivery of a consumer that is registered takes an acker and a place; another is dropped.
fn make_room_at(
    alloc: Global,
    consumer: Option<u64>,
    deliveries: &mut Deliveries,
) -> Result<(), Error>
    ensures same { what deliveries.new ≡ what deliveries.old }
    ensures room { OnOk result (FitsAt consumer deliveries.new) }
    ensures cause { MakesRoomAt result consumer (what deliveries.old) }
{
    let Some(number) = consumer else {
        return Ok(());
    };
    if !deliveries.is_registered(number) {
        return Ok(());
    }
    deliveries.reserve_delivery(alloc, number)
}

// A content is whole: the message of a get answers the get's ticket, a delivery goes to its consumer, a returned message to the
// confirms.
pub(crate) fn complete(
    alloc: Global,
    outstanding: &mut Outstanding,
    confirms: &mut Confirms,
    deliveries: &mut Deliveries,
    channel: u16,
    whole: Whole,
    place: Option<Place>,
)
    requires { Fits whole.start channel deliveries.old confirms.old place }
    ensures confirms { confirms.new.what ≡ fold confirm_state.after_mark confirms.old.what (whole_marks channel (Some whole)) }
    ensures slots { outstanding.new.tickets.slots ≡ fold answers.after_mark outstanding.old.tickets.slots (whole_tickets channel (next_acker (what deliveries.old)) (Some whole)) }
    ensures deliveries { what deliveries.new ≡ fold after_deliveries_mark (what deliveries.old) (whole_deliveries channel (what deliveries.old) (Some whole)) }
    ensures outbox { outstanding.new.outbox ≡ outstanding.old.outbox }
    ensures replies { outstanding.new.replies ≡ outstanding.old.replies }
{
    let Whole {
        start,
        properties,
        payload,
    } = whole;
    match start {
        Start::Get {
            ticket,
            delivery_tag,
            exchange,
            routing_key,
            redelivered,
            message_count,
        } => {
            let number = deliveries.got(alloc, channel, delivery_tag);
            let delivery = delivered(
                channel,
                number,
                delivery_tag,
                exchange,
                routing_key,
                redelivered,
                properties,
                payload,
            );
            let message = BasicGetMessage {
                delivery,
                message_count,
            };
            outstanding.resolve(ticket, Answer::Got(Some(message)), place.unwrap());
        }
        Start::Return {
            reply_code,
            reply_text,
            exchange,
            routing_key,
        } => {
            let message = returned(
                reply_code,
                reply_text,
                exchange,
                routing_key,
                properties,
                payload,
            );
            confirms.arrived(alloc, channel, message).unwrap();
        }
        Start::Deliver {
            consumer,
            delivery_tag,
            exchange,
            routing_key,
            redelivered,
        } => arrive(
            alloc,
            deliveries,
            channel,
            consumer,
            delivery_tag,
            exchange,
            routing_key,
            redelivered,
            properties,
            payload,
        ),
    }
}

// A delivery is whole: it goes to its consumer, if that is registered still, else it is dropped.
fn arrive(
    alloc: Global,
    deliveries: &mut Deliveries,
    channel: u16,
    consumer: Option<u64>,
    delivery_tag: u64,
    exchange: ShortString,
    routing_key: ShortString,
    redelivered: bool,
    properties: BasicProperties,
    payload: Payload,
)
    requires { FitsAt consumer deliveries.old }
    ensures { (start : AStart) → what deliveries.new ≡ fold after_deliveries_mark (what deliveries.old) (start_deliveries channel (what deliveries.old) (DeliverStart consumer delivery_tag exchange routing_key redelivered) (record { start = start; properties = properties; payload = payload })) }
{
    match consumer {
        Some(number) if deliveries.is_registered(number) => {
            let acker = deliveries.next_acker();
            let delivery = delivered(
                channel,
                acker,
                delivery_tag,
                exchange,
                routing_key,
                redelivered,
                properties,
                payload,
            );
            deliveries.deliver(alloc, number, delivery);
        }
        _ => let_go(exchange, routing_key, properties, payload),
    }
}

// A message that came on a channel, with its acker.
fn delivered(
    channel: u16,
    number: u64,
    delivery_tag: u64,
    exchange: ShortString,
    routing_key: ShortString,
    redelivered: bool,
    properties: BasicProperties,
    payload: Payload,
) -> Delivery
    ensures { (start : AStart) → result ≡ delivered_message channel number delivery_tag exchange routing_key redelivered (record { start = start; properties = properties; payload = payload }) }
{
    Delivery {
        delivery_tag,
        exchange,
        routing_key,
        redelivered,
        properties,
        payload,
        acker: Acker {
            channel_id: channel,
            delivery_tag,
            number,
            used: false,
        },
    }
}

// A returned message: it has no tag, and nothing acknowledges it.
fn returned(
    reply_code: u16,
    reply_text: ShortString,
    exchange: ShortString,
    routing_key: ShortString,
    properties: BasicProperties,
    payload: Payload,
) -> BasicReturnMessage
    ensures { (start : AStart) → result ≡ returned_message reply_code reply_text exchange routing_key (record { start = start; properties = properties; payload = payload }) }
{
    let delivery = Delivery {
        delivery_tag: 0,
        exchange,
        routing_key,
        redelivered: false,
        properties,
        payload,
        acker: Acker {
            channel_id: 0,
            delivery_tag: 0,
            number: 0,
            used: true,
        },
    };
    BasicReturnMessage {
        delivery,
        reply_code,
        reply_text,
    }
}

// Drops a message, in one place.
fn let_go(
    _exchange: ShortString,
    _routing_key: ShortString,
    _properties: BasicProperties,
    _payload: Payload,
) {}
