//! Heartbeats (AMQP 0-9-1, section 4.2.7), by a clock that the caller owns: times are milliseconds from a moment of its choice.

ghost use Rattle.std.specs.Prelude.{◌≡◌};
ghost use Rattle.lapin_handshake.specs.Beats.{beat_at, sent_at, heard_at, wait_of};

/// When bytes were sent and heard last, and the seconds between heartbeats; 0 stands for none.
#[derive(Clone, Copy, Debug, PartialEq, Eq)]
#[repr(C)]
pub struct Clock {
    pub sent: u64,
    pub heard: u64,
    pub seconds: u16,
}

/// What is to be done at a time.
#[derive(Clone, Copy, Debug, PartialEq, Eq)]
pub enum Beat {
    /// Nothing before so many milliseconds have passed.
    Wait(u64),
    /// A heartbeat is to be sent.
    Send,
    /// The broker was silent for more than two intervals: the connection is lost.
    Silent,
    /// Never anything: there are no heartbeats.
    Never,
}

impl Clock {
    /// Bytes were sent.
    pub fn sent(&mut self, now: u64)
        ensures { self.new ≡ sent_at now self.old }
    {
        self.sent = now;
    }

    /// Bytes were heard.
    pub fn heard(&mut self, now: u64)
        ensures { self.new ≡ heard_at now self.old }
    {
        self.heard = now;
    }

    /// What is to be done now.
    pub fn due(&self, now: u64) -> Beat
        ensures { result ≡ beat_at now self.now }
    {
        if self.seconds == 0 {
            return Beat::Never;
        }
        let half = u64::from(self.seconds) * 500;
        let most = u64::from(self.seconds) * 2000;
        let quiet = now.saturating_sub(self.sent);
        let silent = now.saturating_sub(self.heard);
        if silent > most {
            return Beat::Silent;
        }
        if quiet >= half {
            return Beat::Send;
        }
        Beat::Wait(wait(half - quiet, most + 1 - silent))
    }
}

// The lesser of two waits.
fn wait(one: u64, other: u64) -> u64
    ensures { result ≡ wait_of one other }
{
    if one < other { one } else { other }
}
