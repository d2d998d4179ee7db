//! The methods of the class channel (AMQP 0-9-1, class 20): opening, flow and closing.
//!
//! Here stand the methods as data, with their numbers, equality and copies. What they do stands in the
//! crates above.

ghost use Rattle.std.specs.Prelude.{◌≡◌, IfOk};
ghost use Rattle.std.specs.Bool.{Decides};
ghost use Rattle.lapin_methods.specs.Numbers.{channel_number};

use lapin_values::{NoMemory, ShortString};
use std::alloc::Global;

/// A method of the class channel.
#[derive(Clone, PartialEq, Drop)]
pub enum ChannelMethod {
    /// Opens a channel.
    Open,
    /// The channel is open.
    OpenOk,
    /// Asks the peer to pause (`active` false) or to go on (`active` true).
    Flow {
        active: bool,
    },
    /// Confirms a flow method, with the state that now holds.
    FlowOk {
        active: bool,
    },
    /// Asks the peer to close the channel. Either side sends it. The class and method are those of the
    /// frame that failed, or 0.
    Close {
        reply_code: u16,
        reply_text: ShortString,
        class_id: u16,
        method_id: u16,
    },
    /// Confirms a close of the channel.
    CloseOk,
}

impl ChannelMethod {
    /// The number of the method in its class.
    pub fn method_id(&self) -> u16
        ensures { result ≡ channel_number self.now }
    {
        match self {
            ChannelMethod::Open => 10,
            ChannelMethod::OpenOk => 11,
            ChannelMethod::Flow { .. } => 20,
            ChannelMethod::FlowOk { .. } => 21,
            ChannelMethod::Close { .. } => 40,
            ChannelMethod::CloseOk => 41,
        }
    }

    /// An equal method, in memory of its own.
    pub fn try_clone(&self, _alloc: Global) -> Result<ChannelMethod, NoMemory>
        ensures { IfOk result (λ copy. copy ≡ self.now) }
    {
        Ok(self.clone()?)
    }

    /// Whether two methods are equal in every field.
    pub fn same(&self, other: &ChannelMethod) -> bool
        ensures { Decides result (self.now ≡ other.now) }
    {
        self == other
    }
}
