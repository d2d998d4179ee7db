//! What becomes of a message.

ghost use Rattle.std.specs.Prelude.{◌≡◌};
ghost use Rattle.lapin_keeping.specs.Fates.{blame as blame_lem};

use lapin_types::Error;

/// What became of a message, for good.
#[derive(Clone, Copy, Debug, PartialEq, Eq)]
pub enum Fate {
    /// A broker answered for a publish of it by an ack, and it did not come back.
    Stored,
    /// It was tried as often as it may be, the last time a broker refused it by a nack.
    Refused,
    /// The same, the last time it came back, since no queue wanted it.
    Returned,
    /// The same, the last time the broker closed its channel or the connection with this reply code.
    Closed(u16),
}

/// The reply code by which a broker closes that is being shut down: no message is why.
pub(crate) const FORCED: u16 = 320;

/// The reply code by which an error of a publish may be the message's own doing. A loss is nobody's.
pub(crate) fn blame(error: &Error) -> Option<u16>
    ensures { result ≡ blame_lem error.now }
{
    match error {
        Error::ProtocolError(code) => { if *code == FORCED { None } else { Some(*code) } }
        _ => None,
    }
}
