//! A script of each kind of event, whose every growth may be refused: after each want of memory the session gives the same states and
//! has the same ready as before the step, and the step then gives its record all the same.
//!
//! By itself the test makes the script with ample memory. `bench/refused_memory.py` runs it once for each growth, which is refused.

mod lines;
mod script_all;
mod seen;
