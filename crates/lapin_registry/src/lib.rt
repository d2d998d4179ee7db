//! The registry: which exchanges, queues and bindings a channel declared.
//!
//! Here lives what the completed declares, binds, unbinds and deletes of a channel add up to. When one is completed stands in the
//! crates above; what the broker holds beside it, nobody here knows.
#![tactic(auto)]

mod bindings;
mod by_name;
mod completed;
mod exchanges;
pub mod laws;
mod queues;
mod registry;
mod topologies;

pub use bindings::{BindingDefinition, Bindings};
pub use exchanges::{ExchangeDefinition, Exchanges};
pub use queues::{QueueDefinition, Queues};
pub use registry::{ChannelDefinition, Registry};
pub use topologies::Topologies;
