//! The tokens of a line as text: single values, tables and properties, read and written exactly.
//!
//! A line is cut into its pieces at single spaces; each piece is the token of one field. The crate above knows
//! which fields a line has; nothing here knows of methods, events or records.
#![tactic(auto)]

pub mod cursor;
mod digits;
pub mod fields;
pub mod leaves;
pub mod letters;
pub mod names;
pub mod pieces;
pub mod property_reading;
pub mod property_writing;
pub mod token;
pub mod tokens;
pub mod value_writing;
pub mod values;

pub use fields::{
    flag, payload, properties, properties_of, table, table_of, text, u16_at, u32_at, u64_at,
};
pub use lapin_scalars::{ReadError, read_bytes, read_num, read_short};
pub use pieces::{
    put_bytes, put_count, put_flag, put_properties, put_table, put_text, put_tokens, put_word,
};
pub use token::Token;
pub use tokens::{Tokens, is_word};
