//! The text of methods: a method's name, as `basic.publish`, and its fields in their order, read and written exactly.
//!
//! Here stand the tables of methods, one a class. Frames, events and records stand in the crate above, which is the only caller.
#![tactic(auto)]

pub mod access;
pub mod basic;
pub mod channel;
pub mod confirm;
pub mod connection;
pub mod exchange;
pub mod kinds;
pub mod methods;
pub mod queue;
pub mod rows;
pub mod tx;

pub use kinds::is_publish;
pub use methods::{put_method, read_method, read_named};
