//! The tests of the parts that a session works with, of its types, and of the free broker: scripts of calls with their answers, a file a
//! part.
//!
//! A script is a text: a line is a call, an arrow, and what the rules say that the call answers. Whole histories stand in the tests
//! of the program; here a part stands alone. Nothing here is called by the program.
#![tactic(auto)]

#[cfg(test)]
mod ackers;
#[cfg(test)]
mod alike;
#[cfg(test)]
mod broker;
#[cfg(test)]
mod confirm_scripts;
#[cfg(test)]
mod confirms;
#[cfg(test)]
mod consumers;
#[cfg(test)]
mod contents;
#[cfg(test)]
mod events;
#[cfg(test)]
mod leaving;
#[cfg(test)]
mod methods;
#[cfg(test)]
mod outbox;
#[cfg(test)]
mod properties;
#[cfg(test)]
mod records;
#[cfg(test)]
mod registry;
#[cfg(test)]
mod replies;
#[cfg(test)]
mod script;
#[cfg(test)]
mod texts;
#[cfg(test)]
mod types;
