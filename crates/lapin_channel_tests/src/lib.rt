//! The tests of the surface for callers: every method of a channel by its frame, its refusal and its answer; the public calls of a
//! session in the place of its one door; whole runs by `run_session`; what a caller's loop is made of; and a script in which any growth
//! may find no memory.
//!
//! A table is a text: its histories stand a blank line apart, each with a line an event and, behind an arrow, the record that the rules
//! give it. Expected values come from the rules, never from a run.
#![tactic(auto)]

#[cfg(test)]
mod answers;
#[cfg(test)]
mod calling;
#[cfg(test)]
mod driver;
#[cfg(test)]
mod driving;
#[cfg(test)]
mod methods;
#[cfg(test)]
mod parts;
#[cfg(test)]
mod script;
#[cfg(test)]
mod surface;
#[cfg(test)]
mod watching;
#[cfg(test)]
mod whole;
