//! The publisher that sends again.

mod examples;
mod inputs;
mod runs;
mod whole;
