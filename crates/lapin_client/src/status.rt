//! What became of a call of a client, and its number.
ghost use Rattle.std.specs.Prelude.{◌≡◌};
ghost use Rattle.lapin_client.specs.Statuses.{code_of};

/// What became of a call.
#[derive(Clone, Copy, Debug, PartialEq, Eq)]
pub enum Status {
    /// It was done.
    Done,
    /// The session refused it: `Client::why` says why.
    Refused,
    /// Octets are no call, a line is none that a client takes, or an argument is no short text. Nothing was done.
    NotInGrammar,
    /// There was no memory, and nothing was lost: call again. Of `receive`: the bytes were not kept, and all is as it was.
    NoMemory,
    /// The client takes nothing further: its steps are used up.
    Ended,
    /// The bytes that came are no frame.
    Malformed,
    /// A frame is longer than a frame may be.
    TooLong,
    /// There is no client behind the handle.
    Closed,
    /// There is nothing yet.
    Pending,
    /// The acker isn't usable, or the consumer is at its end: there will be nothing.
    Gone,
    /// The bytes that came were kept, and there was no memory for the frame at their head, which was not taken: call again, with none.
    Kept,
}

impl Status {
    /// Its number.
    pub fn code(self) -> u32
        ensures { result ≡ code_of self }
    {
        match self {
            Status::Done => 0,
            Status::Refused => 1,
            Status::NotInGrammar => 2,
            Status::NoMemory => 3,
            Status::Ended => 4,
            Status::Malformed => 5,
            Status::TooLong => 6,
            Status::Closed => 7,
            Status::Pending => 8,
            Status::Gone => 9,
            Status::Kept => 10,
        }
    }
}
