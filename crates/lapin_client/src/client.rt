//! The client: a session, the last answer and the last refusal, the bytes that leave and those that came, the broker's last closes, and how
//! many further steps it takes.
ghost use Rattle.std.specs.Prelude.{◌≤◌, false, IfOk};
ghost use Rattle.lapin_client.specs.Clients.{IsSound, IsNew, IsSent};

use crate::answers::Handed;
use crate::closes::Close;
use crate::inlet::Inlet;
use lapin_machine::Session;
use lapin_tables::ByChannel;
use lapin_types::{Error, Left, NoMemory};
use std::alloc::Global;

/// A session with the bytes of its connection.
#[derive(Drop)]
pub struct Client {
    /// The session.
    pub session: Session,
    /// The bytes of the last answer that was written.
    pub answer: Vec<u8>,
    /// What was handed out, and is told from where it lies.
    pub handed: Handed,
    /// The last error that was told.
    pub refused: Option<Error>,
    /// The bytes that are to be sent.
    pub leaving: Vec<u8>,
    /// The frame that is to be sent behind them, where there was no memory for its bytes.
    pub unsent: Option<Left>,
    /// Room in which a frame is made.
    pub room: Vec<u8>,
    /// The bytes that came and were not read yet.
    pub came: Inlet,
    /// How many further steps the client takes.
    pub left: u64,
    /// The longest frame.
    pub frame_max: u32,
    /// Whether the broker said that it takes no messages.
    pub blocked: bool,
    /// The broker's last close of each channel, and of the connection as channel 0.
    pub closes: ByChannel<Close>,
}

impl Client {
    /// A client of a new session.
    ///
    /// # Errors
    /// `NoMemory` alone.
    pub fn new(alloc: Global, frame_max: u32) -> Result<Client, NoMemory>
        requires { 4096 ≤ frame_max }
        ensures sound { IfOk result (λ client. IsSound client) }
        ensures value { IfOk result (λ client. IsNew frame_max client) }
    {
        let session = Session::new(alloc, frame_max)?;
        Ok(Client {
            session,
            answer: Vec::new(alloc),
            handed: Handed::Nothing,
            refused: None,
            leaving: Vec::new(alloc),
            unsent: None,
            room: Vec::new(alloc),
            came: Inlet::new(alloc),
            left: u64::MAX >> 1,
            frame_max,
            blocked: false,
            closes: ByChannel::new(alloc),
        })
    }

    /// The bytes that were to be sent are the caller's.
    pub fn sent(&mut self)
        requires { IsSound self.old }
        ensures sound { IsSound self.new }
        ensures value { IsSent self.old self.new }
    {
        self.leaving.clear();
    }
}
