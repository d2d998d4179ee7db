//! Methods, content headers and frames of AMQP 0-9-1 as plain data, with their options, the states of a
//! session and its errors.
//!
//! Here stand data and their numbers alone; calls, events and rules stand in the crates above.
#![tactic(auto)]

pub mod access;
pub mod basic;
pub mod channel;
pub mod confirm;
pub mod connection;
pub mod error;
pub mod exchange;
pub mod frame;
pub mod method;
pub mod options;
pub mod queue;
mod shown;
pub mod states;
pub mod tx;

pub use access::AccessMethod;
pub use basic::BasicMethod;
pub use channel::ChannelMethod;
pub use confirm::ConfirmMethod;
pub use connection::ConnectionMethod;
pub use error::Error;
pub use exchange::ExchangeMethod;
pub use frame::{ContentHeader, Frame};
pub use method::Method;
pub use options::{
    AccessRequestOptions, BasicAckOptions, BasicCancelOptions, BasicConsumeOptions,
    BasicDeliverOptions, BasicGetOkOptions, BasicGetOptions, BasicNackOptions, BasicPublishOptions,
    BasicQosOptions, BasicRecoverAsyncOptions, BasicRecoverOptions, BasicRejectOptions,
    ChannelFlowOkOptions, ChannelFlowOptions, ConfirmSelectOptions, ExchangeBindOptions,
    ExchangeDeclareOptions, ExchangeDeleteOptions, ExchangeUnbindOptions, QueueBindOptions,
    QueueDeclareOptions, QueueDeleteOptions, QueuePurgeOptions,
};
pub use queue::QueueMethod;
pub use states::{ChannelState, ConnectionState};
pub use tx::TxMethod;
