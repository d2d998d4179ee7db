//! The tests of the text and of the values below it, and of the bytes of frames: tables of pieces with what is read of them, which one
//! driver a kind runs.
//!
//! Whole lines and their records stand in the tests of the program; here stand the parts of a line, at the edges of the
//! grammar, and what the values do that no clause says. Nothing here is called by the program.
#![tactic(auto)]

#[cfg(test)]
mod consumers;
#[cfg(test)]
mod driver;
#[cfg(test)]
mod events;
#[cfg(test)]
mod frames;
#[cfg(test)]
mod pieces;
#[cfg(test)]
mod records;
#[cfg(test)]
mod values;
