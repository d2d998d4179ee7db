//! What the broker said as it closed channels and the connection: of each its last close.
ghost use Rattle.std.specs.Prelude.{◌≡◌, None, IfOk};
ghost use Rattle.lapin_client.specs.Clients.{IsSound};
ghost use Rattle.lapin_client.specs.Closes.{TellsClose, close_said, channel_close as channel_close_lem, connection_close as connection_close_lem};
ghost use Rattle.lapin_rules.specs.Words.{with_channel};
ghost use Rattle.lapin_tables.specs.ByChannel.{at_channel, HasRoom};
ghost use Rattle.lapin_types.specs.Types.frame;

use crate::answers::Handed;
use crate::client::Client;
use crate::status::Status;
use lapin_tables::ByChannel;
use lapin_types::{ChannelMethod, ConnectionMethod, Frame, Method, NoMemory, ShortString};
use std::alloc::Global;

/// What the broker said as it closed a channel, or the connection.
#[derive(Drop)]
pub struct Close {
    /// The reply code.
    pub code: u16,
    /// The class of the method that failed, or 0.
    pub class_id: u16,
    /// The number of that method in its class, or 0.
    pub method_id: u16,
    /// The reply text.
    pub text: ShortString,
}

/// The numbers of a close.
#[derive(Clone, Copy, Debug, PartialEq, Eq)]
#[repr(C)]
pub struct CloseReason {
    pub code: u16,
    pub class_id: u16,
    pub method_id: u16,
}

impl Client {
    /// The numbers of the broker's last close of a channel, or, of channel 0, of the connection. Its text is the answer. It stays after the
    /// channel is opened again.
    ///
    /// # Errors
    /// `Pending` where the broker has closed none. `NoMemory`: nothing was done.
    pub fn last_close(&mut self, channel: u16) -> Result<CloseReason, Status>
        requires { IsSound self.old }
        ensures sound { IsSound self.new }
        ensures told { TellsClose result channel self.old self.new }
    {
        let Some(close) = self.closes.get(channel) else {
            return Err(Status::Pending);
        };
        let before = self.answer.len();
        if self
            .answer
            .extend_from_slice(close.text.as_str().as_bytes())
            .is_err()
        {
            return Err(Status::NoMemory);
        }
        self.answer.drain(..before);
        self.handed = Handed::Nothing;
        Ok(CloseReason {
            code: close.code,
            class_id: close.class_id,
            method_id: close.method_id,
        })
    }
}

// The close that a frame says, with its channel, in memory of its own.
pub(crate) fn close_of(alloc: Global, frame: &Frame) -> Result<Option<(u16, Close)>, NoMemory>
    ensures { IfOk result (λ said. said ≡ close_said frame.now) }
{
    match frame {
        Frame::Method(channel, method) => close_in(alloc, *channel, method),
        _ => Ok(None),
    }
}

// The close that a method says on a channel.
fn close_in(alloc: Global, channel: u16, method: &Method) -> Result<Option<(u16, Close)>, NoMemory>
    ensures { IfOk result (λ said. said ≡ close_said (frame.Method channel method.now)) }
{
    if channel == 0 {
        connection_close(alloc, method)
    } else {
        channel_close(alloc, channel, method)
    }
}

fn connection_close(alloc: Global, method: &Method) -> Result<Option<(u16, Close)>, NoMemory>
    ensures { IfOk result (λ said. said ≡ connection_close_lem method.now) }
{
    match method {
        Method::Connection(
            ConnectionMethod::Close {
                reply_code,
                reply_text,
                class_id,
                method_id,
            },
        ) => Ok(Some((
            0,
            close_with(alloc, *reply_code, reply_text, *class_id, *method_id)?,
        ))),
        _ => Ok(None),
    }
}

fn channel_close(
    alloc: Global,
    channel: u16,
    method: &Method,
) -> Result<Option<(u16, Close)>, NoMemory>
    ensures { IfOk result (λ said. said ≡ channel_close_lem channel method.now) }
{
    match method {
        Method::Channel(
            ChannelMethod::Close {
                reply_code,
                reply_text,
                class_id,
                method_id,
            },
        ) => Ok(Some((
            channel,
            close_with(alloc, *reply_code, reply_text, *class_id, *method_id)?,
        ))),
        _ => Ok(None),
    }
}

// A close of its parts.
fn close_with(
    alloc: Global,
    code: u16,
    text: &ShortString,
    class_id: u16,
    method_id: u16,
) -> Result<Close, NoMemory>
    ensures { IfOk result (λ close. close ≡ record { code = code; class_id = class_id; method_id = method_id; text = text.now }) }
{
    Ok(Close {
        code,
        class_id,
        method_id,
        text: text.try_clone(alloc)?,
    })
}

// The last close of a channel, in the place of the one before.
pub(crate) fn put_close(closes: &mut ByChannel<Close>, channel: u16, close: Close)
    requires { at_channel channel closes.old.entries ≡ None → HasRoom channel closes.old }
    ensures { closes.new.entries ≡ with_channel channel close closes.old.entries }
{
    if let Some(held) = closes.get_mut(channel) {
        *held = close;
        return;
    }
    closes.insert_reserved(channel, close);
}
