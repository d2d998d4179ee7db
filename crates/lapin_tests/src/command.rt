//! Tests of the commands beside `session`: joined runs, publishers that send again, calls over queues, and transcripts that are
//! checked. Tables go through the program's top call; beside them stand runs in which the plain broker alone sends, output in pieces,
//! and histories of a server of calls, which another driver runs.

mod calls;
mod check;
mod joined;
mod resend;
