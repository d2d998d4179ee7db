//! The tests of the commands `shared N` and `pool N`, of callers on threads of their own, and of the callers in `lapin_uses`.
//!
//! Expected values come from the rules, never from a run. What two threads do in which order is settled by a gate, or doesn't matter.
#![tactic(auto)]

#[cfg(test)]
mod callers;
#[cfg(test)]
mod command;
#[cfg(test)]
mod driver;
#[cfg(test)]
mod faults;
#[cfg(test)]
mod gates;
#[cfg(test)]
mod meeting;
#[cfg(test)]
mod pool;
#[cfg(test)]
mod stepping;
#[cfg(test)]
mod table;
#[cfg(test)]
mod uses;
#[cfg(test)]
mod work;
#[cfg(test)]
mod workers;
