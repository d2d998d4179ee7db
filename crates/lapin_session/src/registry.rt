//! What a channel declared and bound, as `Session::topology` gives it. The types stand in `lapin_registry`; here they have their name
//! for callers.

pub use lapin_registry::{
    BindingDefinition, Bindings, ChannelDefinition, ExchangeDefinition, Exchanges, QueueDefinition,
    Queues, Registry,
};
