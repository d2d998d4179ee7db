//! A call that a line names, made by the channel's own method.

use lapin_session::{Channel, Published, Session, Ticket};
use lapin_types::{Call, Error, Record};
use std::alloc::Global;

/// Makes the call by the method of the channel, or of the session, that it is about, and tells its record.
pub fn called(
    alloc: Global,
    session: &mut Session,
    channel: u16,
    call: Call,
) -> Result<Record, Error> {
    match call {
        Call::OpenChannel => ticket(session.open_channel(alloc, channel)),
        Call::ConnectionClose {
            reply_code,
            reply_text,
        } => ticket(session.connection_close(alloc, reply_code, reply_text)),
        Call::BasicPublish {
            exchange,
            routing_key,
            options,
            payload,
            properties,
        } => publish(Channel { id: channel }.basic_publish(
            alloc,
            session,
            exchange,
            routing_key,
            options,
            payload.as_bytes(),
            properties,
        )),
        Call::TryBasicPublish {
            exchange,
            routing_key,
            options,
            payload,
            properties,
        } => publish(Channel { id: channel }.try_basic_publish(
            alloc,
            session,
            exchange,
            routing_key,
            options,
            payload.as_bytes(),
            properties,
        )),
        call => ticket(of_channel(alloc, session, &Channel { id: channel }, call)),
    }
}

// Makes a call of which a channel answers a ticket.
fn of_channel(
    alloc: Global,
    session: &mut Session,
    channel: &Channel,
    call: Call,
) -> Result<Ticket, Error> {
    match call {
        Call::ChannelClose {
            reply_code,
            reply_text,
        } => channel.channel_close(alloc, session, reply_code, reply_text),
        Call::ChannelFlow { options } => channel.channel_flow(alloc, session, options),
        Call::AccessRequest { realm, options } => {
            channel.access_request(alloc, session, realm, options)
        }
        Call::ConfirmSelect { options } => channel.confirm_select(alloc, session, options),
        Call::ConfirmLimit { limit } => channel.confirm_limit(alloc, session, limit),
        Call::TxSelect => channel.tx_select(alloc, session),
        Call::TxCommit => channel.tx_commit(alloc, session),
        Call::TxRollback => channel.tx_rollback(alloc, session),
        Call::BasicQos {
            prefetch_count,
            options,
        } => channel.basic_qos(alloc, session, prefetch_count, options),
        Call::BasicConsume {
            queue,
            consumer_tag,
            options,
            arguments,
        } => channel.basic_consume(alloc, session, queue, consumer_tag, options, arguments),
        Call::BasicCancel {
            consumer_tag,
            options,
        } => channel.basic_cancel(alloc, session, consumer_tag, options),
        Call::BasicGet { queue, options } => channel.basic_get(alloc, session, queue, options),
        Call::BasicAck {
            delivery_tag,
            options,
        } => channel.basic_ack(alloc, session, delivery_tag, options),
        Call::BasicNack {
            delivery_tag,
            options,
        } => channel.basic_nack(alloc, session, delivery_tag, options),
        Call::BasicReject {
            delivery_tag,
            options,
        } => channel.basic_reject(alloc, session, delivery_tag, options),
        Call::BasicRecoverAsync { options } => {
            channel.basic_recover_async(alloc, session, options)
        }
        Call::BasicRecover { options } => channel.basic_recover(alloc, session, options),
        call => of_names(alloc, session, channel, call),
    }
}

// Makes a call of queues or exchanges.
fn of_names(
    alloc: Global,
    session: &mut Session,
    channel: &Channel,
    call: Call,
) -> Result<Ticket, Error> {
    match call {
        Call::ExchangeDeclare {
            exchange,
            kind,
            options,
            arguments,
        } => channel.exchange_declare(alloc, session, exchange, kind, options, arguments),
        Call::ExchangeDelete { exchange, options } => {
            channel.exchange_delete(alloc, session, exchange, options)
        }
        Call::ExchangeBind {
            destination,
            source,
            routing_key,
            options,
            arguments,
        } => channel.exchange_bind(
            alloc,
            session,
            destination,
            source,
            routing_key,
            options,
            arguments,
        ),
        Call::ExchangeUnbind {
            destination,
            source,
            routing_key,
            options,
            arguments,
        } => channel.exchange_unbind(
            alloc,
            session,
            destination,
            source,
            routing_key,
            options,
            arguments,
        ),
        Call::QueueDeclare {
            queue,
            options,
            arguments,
        } => channel.queue_declare(alloc, session, queue, options, arguments),
        Call::QueueBind {
            queue,
            exchange,
            routing_key,
            options,
            arguments,
        } => channel.queue_bind(
            alloc,
            session,
            queue,
            exchange,
            routing_key,
            options,
            arguments,
        ),
        Call::QueuePurge { queue, options } => channel.queue_purge(alloc, session, queue, options),
        Call::QueueDelete { queue, options } => {
            channel.queue_delete(alloc, session, queue, options)
        }
        Call::QueueUnbind {
            queue,
            exchange,
            routing_key,
            arguments,
        } => channel.queue_unbind(alloc, session, queue, exchange, routing_key, arguments),
        call => {
            drop(call);
            Err(Error::UnknownTicket)
        }
    }
}

fn ticket(answer: Result<Ticket, Error>) -> Result<Record, Error> {
    match answer {
        Ok(ticket) => Ok(Record::Ticket(ticket.number)),
        Err(error) => refused(error),
    }
}

fn publish(answer: Result<Published, Error>) -> Result<Record, Error> {
    match answer {
        Ok(published) => Ok(Record::Publish {
            ticket: published.ticket.number,
            confirm: published.confirm.number,
        }),
        Err(error) => refused(error),
    }
}

/// The record of a refusal; want of memory and of numbers have none.
pub fn refused(error: Error) -> Result<Record, Error> {
    match error {
        Error::NoMemory => Err(Error::NoMemory),
        Error::NumbersUsedUp => Err(Error::NumbersUsedUp),
        error => Ok(Record::Refused(error)),
    }
}
