//! What a check finds: that all is fine, or the first frame that isn't, with the rule that it meets. Which rule a frame meets stands
//! in a file each for frames up and frames down.

/// Why a frame that was read made the broker Broken. The rules are tried in this order, and the first that applies is named.
#[derive(Clone, Copy, Debug, PartialEq, Eq)]
pub enum BreakRule {
    /// `connection.close` on channel 0 while the connection is leaving.
    SecondClose,
    /// `connection.close-ok` on channel 0.
    StrayCloseOk,
    /// Any other frame while the connection is leaving.
    AfterClose,
    /// A frame that isn't a header or body on the channel whose content is being read.
    ContentExpected,
    /// Such a header or body that the content doesn't admit.
    BadContent,
    /// A frame on a channel above 0 that is free.
    ChannelFree,
    /// A frame on a channel that was asked for or is leaving.
    ChannelBusy,
    /// Any other.
    NotForBroker,
}

/// Why a frame may not be sent. The rules are tried in this order, and the first that applies is named.
#[derive(Clone, Copy, Debug, PartialEq, Eq)]
pub enum SendRule {
    /// The connection isn't up.
    Silent,
    /// The frame is on a channel above 0 whose state allows no frame of that kind.
    ChannelState,
    /// A content is being sent on the channel, and the frame isn't its admitted header or body.
    ContentOpen,
    /// A header or body where no content is being sent.
    NoContent,
    /// A `basic.ack` or `basic.nack` of a number that may not be settled.
    BadSettlement,
    /// A `basic.deliver` or `basic.cancel` of a tag that may not be delivered to.
    UnknownTag,
    /// `channel.close-ok` while a request waits.
    RequestsWaiting,
    /// A reply that isn't the first waiting request's.
    NotFirstReply,
    /// Any other.
    NotForClient,
}

/// What a check finds.
#[derive(Clone, Copy, Debug, PartialEq, Eq)]
pub enum Finding {
    /// The broker reads every frame up without becoming Broken, and may send every frame down.
    Fine,
    /// The frame at this place is up and makes the broker Broken.
    Broken {
        /// The frame's place, from 1.
        place: u64,
        /// The first rule that applies.
        rule: BreakRule,
    },
    /// The frame at this place is down and may not be sent.
    NotAllowed {
        /// The frame's place, from 1.
        place: u64,
        /// The first rule that applies.
        rule: SendRule,
    },
}
