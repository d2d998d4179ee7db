//! The opening of a connection: where it stands, what is answered to the broker, and on which limits both sides end.

ghost use Rattle.std.specs.Prelude.{◌≡◌};
ghost use Rattle.lapin_handshake.specs.Handshaking.{reply_to, after, agreed as agreed_lem, lesser as lesser_lem, agreed_beat as agreed_beat_lem, start_reply, tune_reply, is_awaited as is_awaited_lem, reply_of as reply_of_lem, passed, code_of, new_handshake};

use crate::mechanism::Mechanism;
use crate::said::Said;

/// What a side takes at most: the number of channels and the octets of a frame, 0 standing for no limit, and the seconds between
/// heartbeats, 0 standing for none.
#[derive(Clone, Copy, Debug, PartialEq, Eq)]
pub struct Limits {
    pub channel_max: u16,
    pub frame_max: u32,
    pub heartbeat: u16,
}

/// What is waited for.
#[derive(Clone, Copy, Debug, PartialEq, Eq)]
pub enum Stage {
    /// `connection.start`.
    Start,
    /// `connection.tune`, or a challenge before it.
    Tune,
    /// `connection.open-ok`.
    Open,
    /// Nothing: the connection is open.
    Opened,
    /// Nothing: it was refused.
    Refused,
}

/// Why a connection isn't opened.
#[derive(Clone, Copy, Debug, PartialEq, Eq)]
pub enum Refusal {
    /// The broker speaks another version.
    Version,
    /// The mechanism that is wanted isn't one of its own.
    Mechanism,
    /// Its frames are smaller than the smallest that a peer may ask for.
    FrameMax,
    /// It closes the connection, for this code.
    Closed(u16),
    /// A method that isn't waited for.
    Unexpected,
    /// What came is no frame of an opening.
    Malformed,
}

/// What is answered.
#[derive(Clone, Copy, Debug, PartialEq, Eq)]
pub enum Reply {
    /// Nothing.
    Nothing,
    /// `connection.start-ok`, which says this mechanism.
    StartOk(Mechanism),
    /// `connection.secure-ok`, which says once more what this mechanism says.
    SecureOk(Mechanism),
    /// `connection.tune-ok` with these limits, and `connection.open`.
    Open(Limits),
    /// `connection.close-ok`.
    CloseOk,
}

/// An opening: what is waited for; the mechanism, which is the one that this side wants until one was said, and then that one; and the
/// limits, which are those of this side before the broker's came.
#[derive(Clone, Copy, Debug, PartialEq, Eq)]
pub struct Handshake {
    pub stage: Stage,
    pub mechanism: Mechanism,
    pub limits: Limits,
}

/// The lesser limit, where 0 is none.
fn lesser(ours: u32, theirs: u32) -> u32
    ensures { result ≡ lesser_lem ours theirs }
{
    if ours == 0 {
        return theirs;
    }
    if theirs == 0 || ours < theirs {
        return ours;
    }
    theirs
}

fn lesser_short(ours: u16, theirs: u16) -> u16
    ensures { result ≡ lesser_lem ours theirs }
{
    if ours == 0 {
        return theirs;
    }
    if theirs == 0 || ours < theirs {
        return ours;
    }
    theirs
}

// Heartbeats are sent where both sides want them.
fn agreed_beat(ours: u16, theirs: u16) -> u16
    ensures { result ≡ agreed_beat_lem ours theirs }
{
    if ours < theirs { ours } else { theirs }
}

// What both sides keep.
fn agreed(ours: Limits, theirs: Limits) -> Limits
    ensures { result ≡ agreed_lem ours theirs }
{
    Limits {
        channel_max: lesser_short(ours.channel_max, theirs.channel_max),
        frame_max: lesser(ours.frame_max, theirs.frame_max),
        heartbeat: agreed_beat(ours.heartbeat, theirs.heartbeat),
    }
}

// What a start is answered by.
fn start(major: u8, minor: u8, chosen: Option<Mechanism>) -> Result<Reply, Refusal>
    ensures { result ≡ start_reply major minor chosen }
{
    if major != 0 || minor != 9 {
        return Err(Refusal::Version);
    }
    match chosen {
        Some(mechanism) => Ok(Reply::StartOk(mechanism)),
        None => Err(Refusal::Mechanism),
    }
}

// Whether what the broker says has its place at a stage.
fn is_awaited(stage: Stage, said: Said) -> bool
    ensures { result ≡ is_awaited_lem stage said }
{
    match stage {
        Stage::Start => matches!(
            said,
            Said::Start { .. } | Said::Heartbeat | Said::Close { .. }
        ),
        Stage::Tune => matches!(
            said,
            Said::Secure | Said::Tune { .. } | Said::Heartbeat | Said::Close { .. }
        ),
        Stage::Open => matches!(said, Said::OpenOk | Said::Heartbeat | Said::Close { .. }),
        Stage::Opened => matches!(said, Said::Heartbeat | Said::Close { .. }),
        Stage::Refused => false,
    }
}

// What is answered to something that has its place.
fn reply_of(mechanism: Mechanism, ours: Limits, said: Said) -> Result<Reply, Refusal>
    ensures { result ≡ reply_of_lem mechanism ours said }
{
    match said {
        Said::Start {
            major,
            minor,
            offers,
        } => start(major, minor, mechanism.chosen(offers)),
        Said::Secure => Ok(Reply::SecureOk(mechanism)),
        Said::Tune {
            channel_max,
            frame_max,
            heartbeat,
        } => tune(
            ours,
            Limits {
                channel_max,
                frame_max,
                heartbeat,
            },
        ),
        Said::OpenOk | Said::Heartbeat => Ok(Reply::Nothing),
        Said::Close { code } => Err(Refusal::Closed(code)),
        Said::Blocked | Said::Unblocked => Err(Refusal::Unexpected),
    }
}

// What a tune is answered by.
fn tune(ours: Limits, theirs: Limits) -> Result<Reply, Refusal>
    ensures { result ≡ tune_reply ours theirs }
{
    let limits = agreed(ours, theirs);
    if limits.frame_max < 4096 {
        return Err(Refusal::FrameMax);
    }
    Ok(Reply::Open(limits))
}

impl Refusal {
    /// The reply code of the standard by which it is told.
    pub fn code(self) -> u16
        ensures { result ≡ code_of self }
    {
        match self {
            Refusal::Version => 540,
            Refusal::Mechanism => 403,
            Refusal::FrameMax => 530,
            Refusal::Closed(code) => code,
            Refusal::Unexpected => 503,
            Refusal::Malformed => 501,
        }
    }
}

impl Handshake {
    /// An opening in which nothing came yet.
    pub fn new(mechanism: Mechanism, limits: Limits) -> Handshake
        ensures { result ≡ new_handshake mechanism limits }
    {
        Handshake {
            stage: Stage::Start,
            mechanism,
            limits,
        }
    }

    /// Takes what the broker says. What is to be answered.
    ///
    /// # Errors
    /// The cause for which the connection isn't opened. Where it is `Closed`, `connection.close-ok` is to be answered still.
    pub fn hear(&mut self, said: Said) -> Result<Reply, Refusal>
        ensures told { result ≡ reply_to self.old said }
        ensures after { self.new ≡ after self.old said }
    {
        let answer = self.answer(said);
        match answer {
            Ok(Reply::Open(limits)) => {
                self.limits = limits;
                self.stage = Stage::Open;
            }
            Ok(Reply::StartOk(mechanism)) => {
                self.mechanism = mechanism;
                self.stage = Stage::Tune;
            }
            Ok(Reply::Nothing) => self.pass(said),
            Ok(_) => {}
            Err(_) => self.stage = Stage::Refused,
        }
        answer
    }

    // What is answered.
    fn answer(&self, said: Said) -> Result<Reply, Refusal>
        ensures { result ≡ reply_to self.now said }
    {
        if !is_awaited(self.stage, said) {
            return Err(Refusal::Unexpected);
        }
        reply_of(self.mechanism, self.limits, said)
    }

    // An open-ok opens, a heartbeat changes nothing.
    fn pass(&mut self, said: Said)
        ensures { self.new ≡ passed said self.old }
    {
        if matches!(said, Said::OpenOk) {
            self.stage = Stage::Opened;
        }
    }
}
