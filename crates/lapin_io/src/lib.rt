//! Where a program reads its bytes and where it writes them: two traits with written meanings, in memory for tests
//! and proofs, and over the standard streams for `main`. No rule of any protocol lives here, and nothing is buffered.
#![tactic(auto)]

mod calls;
mod memory;
mod sink;
mod source;
mod standard;
mod sure;

pub use memory::{MemorySink, MemorySource};
pub use sink::{Sink, SinkError};
pub use source::{Failed, Source};
pub use standard::{StdSink, StdSource};
pub use sure::{SureSink, SureSource};
