//! Calls over queues: runs of a caller, and histories of a server.

mod examples;
mod programs;
mod runs;
mod serving;
mod whole;
