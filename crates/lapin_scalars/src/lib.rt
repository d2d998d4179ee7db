//! Single values as text: numbers, flags, bytes and short texts, read and written exactly.
//!
//! Each reader takes the bytes of one value, no more, and answers the value whose text they are, or that there is none.
//! The crates above cut lines and tables into such bytes; nothing here knows of separators.
#![tactic(auto)]

pub mod bytes;
pub mod fault;
pub mod flags;
mod hexadecimal;
pub mod marks;
pub mod numbers;
pub mod signed;
pub mod writing;

pub use bytes::{bytes_of, pairs_of, read_bytes, read_short, short_of};
pub use fault::ReadError;
pub use flags::flag_of;
pub use marks::behind;
pub use numbers::{read_num, u8_of, u16_of, u32_of, u64_of};
pub use signed::{i8_of, i16_of, i32_of, i64_of};
pub use writing::{put_flag, put_hex, put_number, put_pairs, put_signed};
