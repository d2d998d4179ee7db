//! A publisher that sends again after a loss, over joined runs of a session and a free broker.
//!
//! A message that was submitted is published until a broker has confirmed it by an ack; then it is stored. After each step the
//! publisher tends its channel: it asks for what became of its publishes, and opens, selects and publishes what its state allows.
//! That a message is taken only once is promised by nobody. What a joined run does stands in `lapin_joint`, text in the crates above.
#![tactic(auto)]

mod laws;
mod message;
mod publisher;
mod run;
mod sender;
mod step;
mod stepping;

pub use laws::{none_share, stored_stays, waiting_is_outstanding};
pub use message::Message;
pub use run::run_resend;
pub use sender::Resend;
pub use step::{ResendReport, ResendStep};
