//! Joined runs, and generated ones; runs in which the plain broker alone sends; and output in pieces.

mod examples;
mod pieces;
mod plain;
mod programs;
mod runs;
mod transcript;
mod whole;
