//! Which confirm takes a returned message: the oldest message goes to the first publish that a settlement resolves.
//!
//! Here stands the walk over the tags of one channel. What a message is moved from and to is the tray's.

ghost use Rattle.std.specs.Prelude.{◌≡◌, ℕ, List, [], Bool};
ghost use Rattle.lapin_rules.specs.ReturnLists.{attached_to_all};
ghost use Rattle.lapin_rules.specs.ReturnReadings.{joined};
ghost use Rattle.lapin_tables.specs.Numbered.{under};
ghost use Rattle.lapin_tables.specs.ByChannel.{on_channel};
ghost use Rattle.lapin_confirm.specs.Ties.{returned_by_channel_of, MessagesFit};
ghost use Rattle.lapin_confirm.specs.ReturnedMessages.{pending_through, HasPlace};

use crate::returned::Returned;
use lapin_tables::{ByChannel, Numbered};

/// The oldest waiting messages are attached to the publishes that are pending with the tags up to one, in rising order of tag.
/// It walks from the least pending tag, and only while a message waits.
pub fn attach_through(returned_messages: &mut Returned, tags: &Numbered<u64>, limit: u64)
    ensures return_lists { returned_messages.new.return_lists ≡ attached_to_all (pending_through limit tags.now.slots) returned_messages.old.return_lists }
    ensures room { HasPlace returned_messages.old → HasPlace returned_messages.new }
{
    let Some(first) = tags.first_number() else {
        return;
    };
    let mut tag = first - 1;
    while tag < limit {
        if returned_messages.has_none_waiting() {
            return;
        }
        tag += 1;
        attach_tag(returned_messages, tags, tag);
    }
}

/// The same on one of the channels.
pub fn attach_on(
    returned_by_channel: &mut ByChannel<Returned>,
    channel: u16,
    tags: &Numbered<u64>,
    limit: u64,
)
    ensures return_lists { returned_by_channel_of returned_by_channel.new.entries ≡ on_channel channel (attached_to_all (pending_through limit tags.now.slots)) (returned_by_channel_of returned_by_channel.old.entries) }
    ensures room { (rooms : List (ℕ × Bool)) → MessagesFit rooms returned_by_channel.old.entries → MessagesFit rooms returned_by_channel.new.entries }
{
    let Some(returned_messages) = returned_by_channel.get_mut(channel) else {
        return;
    };
    attach_through(returned_messages, tags, limit);
}

/// The oldest waiting message of a channel is attached to the publish that is pending with a tag, if one is.
pub fn attach_one(
    returned_by_channel: &mut ByChannel<Returned>,
    channel: u16,
    tags: &Numbered<u64>,
    settled: u64,
)
    ensures return_lists { returned_by_channel_of returned_by_channel.new.entries ≡ on_channel channel (attached_to_all (joined (under settled tags.now.slots) [])) (returned_by_channel_of returned_by_channel.old.entries) }
    ensures room { (rooms : List (ℕ × Bool)) → MessagesFit rooms returned_by_channel.old.entries → MessagesFit rooms returned_by_channel.new.entries }
{
    let Some(returned_messages) = returned_by_channel.get_mut(channel) else {
        return;
    };
    attach_tag(returned_messages, tags, settled);
}

/// The same on a returned messages.
pub fn attach_tag(returned_messages: &mut Returned, tags: &Numbered<u64>, tag: u64)
    ensures return_lists { returned_messages.new.return_lists ≡ attached_to_all (joined (under tag tags.now.slots) []) returned_messages.old.return_lists }
    ensures room { HasPlace returned_messages.old → HasPlace returned_messages.new }
{
    if let Some(number) = tags.get(tag) {
        returned_messages.attach(*number);
    }
}
