//! The tests of the program: histories and runs as tables of texts, which one driver a kind runs over the program's top call.
//!
//! A table is a text: its histories stand a blank line apart, each with a line an event and, behind an arrow, the record
//! that the rules give it. Expected values come from the rules, never from a run. Each kind of test is one loop over its
//! tables, since a test is proved like any function. Nothing here is called by the program.
#![tactic(auto)]

#[cfg(test)]
mod ackers;
#[cfg(test)]
mod any_frame;
#[cfg(test)]
mod any_loss;
#[cfg(test)]
mod asides;
#[cfg(test)]
mod begun;
#[cfg(test)]
mod bodies;
#[cfg(test)]
mod broker_close;
#[cfg(test)]
mod calls;
#[cfg(test)]
mod channel_close;
#[cfg(test)]
mod command;
#[cfg(test)]
mod confirms;
#[cfg(test)]
mod connection_close;
#[cfg(test)]
mod consumer_ends;
#[cfg(test)]
mod consumers;
#[cfg(test)]
mod content_ends;
#[cfg(test)]
mod content_faults;
#[cfg(test)]
mod contents;
#[cfg(test)]
mod crossed;
#[cfg(test)]
mod deliveries;
#[cfg(test)]
mod discards;
#[cfg(test)]
mod driver;
#[cfg(test)]
mod examples;
#[cfg(test)]
mod faults;
#[cfg(test)]
mod flow;
#[cfg(test)]
mod full_channels;
#[cfg(test)]
mod gets;
#[cfg(test)]
mod histories;
#[cfg(test)]
mod letting_go;
#[cfg(test)]
mod limits;
#[cfg(test)]
mod lines;
#[cfg(test)]
mod loss;
#[cfg(test)]
mod methods_table;
#[cfg(test)]
mod open_cancels;
#[cfg(test)]
mod reasons;
#[cfg(test)]
mod returned;
#[cfg(test)]
mod session_close;
#[cfg(test)]
mod tutorials;
#[cfg(test)]
mod unexpected;
#[cfg(test)]
mod waits;
#[cfg(test)]
mod words;
