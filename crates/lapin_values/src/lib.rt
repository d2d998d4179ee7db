//! The values that methods, contents and records carry: short texts, bytes, field values, tables and properties.
#![tactic(auto)]

mod kept;
pub mod memory;
pub mod payload;
pub mod properties;
mod shown;
pub mod text;
pub mod value;

pub use memory::NoMemory;
pub use payload::Payload;
pub use properties::BasicProperties;
pub use text::{LongString, ShortString, ShortStringError};
pub use value::gathered::GatheredTable;
pub use value::{AMQPValue, FieldArray, FieldTable};
