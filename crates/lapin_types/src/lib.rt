//! The types of lapin channels: calls, events, answers, records and messages, and all types of the two crates below.
//!
//! This is the one name under which crates above list types. Here stand data, equality and copies; rules
//! stand in the crates above.
#![tactic(auto)]

pub mod acker;
pub mod acker_call;
pub mod answer;
pub mod call;
pub mod confirmation;
pub mod event;
pub mod exchange_kind;
pub mod job;
pub mod laws;
pub mod leaving;
pub mod message;
pub mod outcome;
pub mod poll;
pub mod queue;
pub mod record;
pub mod reply_code;
pub mod request;
pub mod returned;
pub mod run_error;

pub use acker::Acker;
pub use acker_call::AckerCall;
pub use answer::Answer;
pub use call::Call;
pub use confirmation::Confirmation;
pub use event::Event;
pub use exchange_kind::ExchangeKind;
pub use job::{Job, JobKind};
pub use lapin_methods::{
    AccessMethod, AccessRequestOptions, BasicAckOptions, BasicCancelOptions, BasicConsumeOptions,
    BasicDeliverOptions, BasicGetOkOptions, BasicGetOptions, BasicMethod, BasicNackOptions,
    BasicPublishOptions, BasicQosOptions, BasicRecoverAsyncOptions, BasicRecoverOptions,
    BasicRejectOptions, ChannelFlowOkOptions, ChannelFlowOptions, ChannelMethod, ChannelState,
    ConfirmMethod, ConfirmSelectOptions, ConnectionMethod, ConnectionState, ContentHeader, Error,
    ExchangeBindOptions, ExchangeDeclareOptions, ExchangeDeleteOptions, ExchangeMethod,
    ExchangeUnbindOptions, Frame, Method, QueueBindOptions, QueueDeclareOptions,
    QueueDeleteOptions, QueueMethod, QueuePurgeOptions, TxMethod, options,
};
pub use lapin_values::{
    AMQPValue, BasicProperties, FieldArray, FieldTable, LongString, NoMemory, Payload, ShortString,
    ShortStringError,
};
pub use leaving::{Left, Publish};
pub use message::{
    BasicGetMessage, BasicReturnMessage, Delivery, DeliveryResult, copied_result, same_result,
};
pub use outcome::Outcome;
pub use poll::Poll;
pub use queue::Queue;
pub use record::Record;
pub use reply_code::{AMQPError, AMQPErrorKind, AMQPHardError, AMQPSoftError};
pub use request::{Reply, ReplyKind, Request};
pub use returned::ReturnedList;
pub use run_error::RunError;
