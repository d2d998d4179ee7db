//! The checker of transcripts. Behind an arrow stand the lines that are printed for a transcript.

mod driver;
mod examples;
mod inputs;
mod rules;
