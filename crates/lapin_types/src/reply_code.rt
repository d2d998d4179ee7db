//! The reply codes of AMQP 0-9-1 and their kinds. Which code ends what stands in the crates above.

ghost use Rattle.std.specs.Prelude.{◌≡◌, IfOk};
ghost use Rattle.std.specs.Bool.{Decides};
ghost use Rattle.lapin_types.specs.ReplyCodes.{soft_error, hard_error, error_kind};

use lapin_values::{NoMemory, ShortString};
use std::alloc::Global;

/// A reply code that closes at most a channel (AMQP 0-9-1, section 1.2, "Soft errors").
#[derive(Clone, Copy, Debug, PartialEq, Eq)]
pub enum AMQPSoftError {
    /// 311: a content that is too large.
    CONTENTTOOLARGE,
    /// 312, which RabbitMQ adds: a returned message that had no queue to go to.
    NOROUTE,
    /// 313: a returned message that no consumer could take at once.
    NOCONSUMERS,
    /// 403.
    ACCESSREFUSED,
    /// 404.
    NOTFOUND,
    /// 405.
    RESOURCELOCKED,
    /// 406.
    PRECONDITIONFAILED,
}

/// A reply code that closes the connection (AMQP 0-9-1, section 1.2, "Hard errors").
#[derive(Clone, Copy, Debug, PartialEq, Eq)]
pub enum AMQPHardError {
    /// 320.
    CONNECTIONFORCED,
    /// 402.
    INVALIDPATH,
    /// 501.
    FRAMEERROR,
    /// 502.
    SYNTAXERROR,
    /// 503.
    COMMANDINVALID,
    /// 504.
    CHANNELERROR,
    /// 505.
    UNEXPECTEDFRAME,
    /// 506.
    RESOURCEERROR,
    /// 530.
    NOTALLOWED,
    /// 540.
    NOTIMPLEMENTED,
    /// 541.
    INTERNALERROR,
}

/// The kind of an error: which reply code it has.
#[derive(Clone, Copy, Debug, PartialEq, Eq)]
pub enum AMQPErrorKind {
    /// A soft error.
    Soft(AMQPSoftError),
    /// A hard error.
    Hard(AMQPHardError),
}

impl AMQPSoftError {
    /// The soft error of this reply code, None where no soft error has it.
    pub fn from_id(code: u16) -> Option<AMQPSoftError>
        ensures { result ≡ soft_error code }
    {
        match code {
            311 => Some(AMQPSoftError::CONTENTTOOLARGE),
            312 => Some(AMQPSoftError::NOROUTE),
            313 => Some(AMQPSoftError::NOCONSUMERS),
            403 => Some(AMQPSoftError::ACCESSREFUSED),
            404 => Some(AMQPSoftError::NOTFOUND),
            405 => Some(AMQPSoftError::RESOURCELOCKED),
            406 => Some(AMQPSoftError::PRECONDITIONFAILED),
            _ => None,
        }
    }
}

impl AMQPHardError {
    /// The hard error of this reply code, None where no hard error has it.
    pub fn from_id(code: u16) -> Option<AMQPHardError>
        ensures { result ≡ hard_error code }
    {
        match code {
            320 => Some(AMQPHardError::CONNECTIONFORCED),
            402 => Some(AMQPHardError::INVALIDPATH),
            501 => Some(AMQPHardError::FRAMEERROR),
            502 => Some(AMQPHardError::SYNTAXERROR),
            503 => Some(AMQPHardError::COMMANDINVALID),
            504 => Some(AMQPHardError::CHANNELERROR),
            505 => Some(AMQPHardError::UNEXPECTEDFRAME),
            506 => Some(AMQPHardError::RESOURCEERROR),
            530 => Some(AMQPHardError::NOTALLOWED),
            540 => Some(AMQPHardError::NOTIMPLEMENTED),
            541 => Some(AMQPHardError::INTERNALERROR),
            _ => None,
        }
    }
}

impl AMQPErrorKind {
    /// The kind of this reply code, None where no error has it.
    pub fn from_id(code: u16) -> Option<AMQPErrorKind>
        ensures { result ≡ error_kind code }
    {
        match (AMQPSoftError::from_id(code), AMQPHardError::from_id(code)) {
            (Some(soft), _) => Some(AMQPErrorKind::Soft(soft)),
            (None, Some(hard)) => Some(AMQPErrorKind::Hard(hard)),
            (None, None) => None,
        }
    }
}

/// An error that a broker names, with its text.
#[derive(Debug, PartialEq, Drop)]
pub struct AMQPError {
    /// Which reply code it has.
    pub kind: AMQPErrorKind,
    /// The text that the broker gave.
    pub message: ShortString,
}

impl AMQPError {
    /// Which reply code the error has.
    pub fn kind(&self) -> &AMQPErrorKind
        ensures { result.now ≡ self.now.kind }
    {
        &self.kind
    }

    /// An equal error, in memory of its own.
    pub fn try_clone(&self, alloc: Global) -> Result<AMQPError, NoMemory>
        ensures { IfOk result (λ copy. copy ≡ self.now) }
    {
        Ok(AMQPError {
            kind: self.kind,
            message: self.message.try_clone(alloc)?,
        })
    }
}
