//! Scripts of the free broker: what it reads, what it may send, what its readers tell, and which frames break it.
//!
//! They stand apart from the broker itself, as tables that one driver runs.

mod script;
mod tests;
