//! The callers that `lapin_uses` has to be read and copied, and a mock's acker: short histories of a session, each worked by hand.

mod given_back;
mod mock;
mod sockets;
mod topology;
mod turns;

use lapin_session::Session;
use lapin_types::{Error, Frame, ShortString};
use std::alloc::Global;

/// The channel of most of the histories.
const CHANNEL: u16 = 3;

fn short(alloc: Global, text: &str) -> Result<ShortString, Error> {
    match ShortString::new(alloc, text) {
        Ok(short) => Ok(short),
        Err(_) => Err(Error::NoMemory),
    }
}

fn receive(session: &mut Session, alloc: Global, frame: Frame) -> Result<(), Error> {
    let _heard = session.receive(alloc, frame)?;
    Ok(())
}
