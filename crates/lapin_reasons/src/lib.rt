//! What the program says beside its text: why it ended, at which token a line that is not in the format stumbled and what was wanted
//! there, which line a finding of `check` is about, and the help.
//!
//! Nothing that the program promises stands here: its text on standard output, its status and the number of the bad line are stated by
//! the top calls. These words are for people; they are shown by tests alone. Clauses say that they disturb nothing: a source and a sink
//! stay what they are, and help is given only where words ask for it. Which method has which fields is made from the tables of methods
//! (`rows`), and whether a token is one of its kind is asked of the readers of tokens themselves.
#![tactic(auto)]

mod ending;
mod finding;
mod heard;
mod help;
mod last;
mod lines;
mod parts;
mod rows;
mod stumble;
mod telling;
mod walk;

pub use ending::why;
pub use finding::where_found;
pub use heard::Heard;
pub use help::{give_help, help_asked, help_beside};
pub use last::Last;
