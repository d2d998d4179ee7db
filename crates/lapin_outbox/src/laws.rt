//! Laws of the frames of a publish, of drops, of frames that are given back and of poison, as public functions with an
//! empty body.
//!
//! The contracts of the outbox speak of a publish's frames by a definition that cuts its payload step by step. Here it is
//! proved that this definition says what the standard says. The contracts speak of one drop; here it is proved what drops tell
//! and leave that are repeated until there is nothing to drop, what `retry` and `pop` do together, which publish begins where
//! channels are full, and which push meets which poison. Nothing runs here.

ghost use Rattle.std.specs.Prelude.{◌≡◌, ◌≢◌, ◌<◌, [], ◌∷◌, ℕ, Bool, false, List, Some, None, IsSome, map, drop, slice_get};
ghost use Rattle.std.specs.List.{find};
ghost use Rattle.lapin_types.specs.Types.frame;
ghost use Rattle.lapin_types.specs.Types.{Error as ErrorEntry};
ghost use Rattle.lapin_types.specs.declared.leaving.Publish.{Publish as PublishEntry};
ghost use Rattle.lapin_rules.specs.Frames.{MethodEntry, contents, content_header, cut, room_for_body};
ghost use Rattle.lapin_rules.specs.Leaving.{Lists, handed_of, left_lists, may_begin};
ghost use Rattle.lapin_rules.specs.Words.{without_first};
ghost use Rattle.lapin_outbox.specs.Cut.{IsCut, body_payloads};
ghost use Rattle.lapin_rules.specs.Drops.{no_lists, without_channel, without_publishes_of, is_on, publish_channel};
ghost use Rattle.lapin_outbox.specs.Drops.{entries_of, without_entry_of, unbegun_of, without_unbegun, all_entries, without_entry};
ghost use Rattle.lapin_outbox.specs.Outgoing.{OutboxState, with_lists, IsFirstToBegin};
ghost use Rattle.lapin_outbox.specs.Returned.{with_returned, is_retried, again, popped, after_pop, is_returned_on, returned_off, channel_entries, outbox_entries, after_drop_channel, after_drop, is_pending};
ghost use Rattle.lapin_outbox.specs.Poison.{poison_on, error_at, method_pushed, publish_pushed, channel_poisoned, channel_cleared};

use lapin_types::{Error, Left, Payload, Publish};

/// Behind its method a publish has its header and then bodies alone, on its channel. Joined they are its payload, each has
/// 1 to `frame_max - 8` bytes, and each but the last has `frame_max - 8` (AMQP 0-9-1, sections 4.2.3 and 4.2.6). An empty
/// payload has no body.
pub fn bodies_carry_the_payload(publish: &Publish, frame_max: u32)
    requires { 8 < frame_max }
    ensures cut { IsCut (room_for_body frame_max) publish.now.payload (body_payloads (contents frame_max publish.now)) }
    ensures none { publish.now.payload ≡ [] → body_payloads (contents frame_max publish.now) ≡ [] }
    ensures alone { contents frame_max publish.now ≡ content_header publish.now ∷ map (frame.Body publish.now.channel) (body_payloads (contents frame_max publish.now)) }
{}

/// There is one such cut: pieces which join to the bytes, have 1 to `most` bytes each, and `most` each but the last, are the
/// pieces by which a payload leaves.
pub fn cut_is_the_only_one(payload: &Payload, most: u32)
    requires { 0 < most }
    ensures { (pieces : List (List ℕ)) → IsCut most payload.now pieces → pieces ≡ cut most payload.now }
{}

/// Drops of a channel tell of its entries one by one, and leave the entries of other channels. Where one finds nothing, none of
/// the channel's entries is there.
pub fn drops_empty_a_channel(channel: u16)
    ensures told { (l : Lists) → entries_of channel (without_entry_of channel l) ≡ drop 1 (entries_of channel l) }
    ensures others { (l : Lists) → without_channel channel (without_entry_of channel l) ≡ without_channel channel l }
    ensures end { (l : Lists) → slice_get (entries_of channel l) 0 ≡ None → without_channel channel l ≡ l }
{}

/// Drops of a channel's unbegun publishes tell of them one by one, and leave all else. Where one finds nothing, none is there.
pub fn drops_empty_the_unbegun(channel: u16)
    ensures told { (l : Lists) → unbegun_of channel (without_unbegun channel l) ≡ drop 1 (unbegun_of channel l) }
    ensures others { (l : Lists) → without_publishes_of channel (without_unbegun channel l) ≡ without_publishes_of channel l }
    ensures end { (l : Lists) → slice_get (unbegun_of channel l) 0 ≡ None → without_publishes_of channel l ≡ l }
{}

/// Drops over all channels tell of all entries one by one. Where one finds nothing, nothing waits.
pub fn drops_empty_the_outbox()
    ensures told { (l : Lists) → all_entries (without_entry l) ≡ drop 1 (all_entries l) }
    ensures end { (l : Lists) → slice_get (all_entries l) 0 ≡ None → l ≡ no_lists }
{}

/// A frame that is given back is handed out by the next request, marked so, and counts as left already: that request leaves
/// the outbox as it was before the frame was given back, and the frame is not given again.
pub fn a_frame_given_back_is_given_once(left: &Left)
    ensures given { (t : ℕ → Bool) (o : OutboxState) → popped t (with_returned (Some left.now) o) ≡ Some (again left.now) }
    ensures counted { (t : ℕ → Bool) (o : OutboxState) → o.returned ≡ None → after_pop t (with_returned (Some left.now) o) ≡ o }
    ensures once { (t : ℕ → Bool) (o : OutboxState) → is_retried (after_pop t o).returned ≡ false }
{}

/// Where no frame was given back, a request gives and leaves what the three lists say.
pub fn a_request_goes_by_the_lists()
    ensures told { (t : ℕ → Bool) (o : OutboxState) → o.returned ≡ None → popped t o ≡ handed_of t o.lists.rest o.lists.methods o.lists.publishes }
    ensures left { (t : ℕ → Bool) (o : OutboxState) → o.returned ≡ None → after_pop t o ≡ with_lists (left_lists o.frame_max t o.lists) o }
{}

/// Where no channel may begin a publish, none begins. Else the publish that begins is the first of its channel that waits, its
/// channel may begin one, and no channel of a publish in front of it may; the others keep their order.
pub fn publishes_of_full_channels_wait()
    ensures none { (ps : List PublishEntry) → (find (may_begin (λ _. false)) ps ≡ None) × (without_first (may_begin (λ _. false)) ps ≡ ps) }
    ensures first { (t : ℕ → Bool) (p : PublishEntry) (ps : List PublishEntry) → find (may_begin t) ps ≡ Some p → find (is_on publish_channel p.channel) ps ≡ Some p }
    ensures front { (t : ℕ → Bool) (p : PublishEntry) (ps : List PublishEntry) → find (may_begin t) ps ≡ Some p → IsFirstToBegin t p ps (without_first (may_begin t) ps) }
{}

/// Drops of a channel tell of the frame that was given back first, and then of the channel's entries; drops over all channels
/// likewise. A frame of another channel stays. One that is let go is told of by none.
pub fn drops_tell_of_a_frame_given_back(channel: u16)
    ensures channel { (o : OutboxState) → channel_entries channel (after_drop_channel channel o) ≡ drop 1 (channel_entries channel o) }
    ensures all { (o : OutboxState) → outbox_entries (after_drop o) ≡ drop 1 (outbox_entries o) }
    ensures end { (o : OutboxState) → slice_get (outbox_entries o) 0 ≡ None → is_pending o ≡ false }
    ensures others { (o : OutboxState) → is_returned_on channel o.returned ≡ false → (after_drop_channel channel o).returned ≡ o.returned }
    ensures gone { (o : OutboxState) → is_returned_on channel (returned_off channel o.returned) ≡ false }
{}

/// A push that meets poison queues nothing, and changes nothing at all.
pub fn a_poisoned_push_queues_nothing()
    ensures method { (m : MethodEntry) (o : OutboxState) → IsSome (poison_on m.channel o) → method_pushed m o ≡ o }
    ensures publish { (p : PublishEntry) (o : OutboxState) → IsSome (poison_on p.channel o) → publish_pushed p o ≡ o }
{}

/// A channel's poison comes before the outbox's, which each other channel meets. Poison that was set stands on its channel alone,
/// and once it is cleared the channel meets the outbox's.
pub fn poison_of_a_channel_comes_first(channel: u16, error: Error)
    ensures first { (e : ErrorEntry) (o : OutboxState) → error_at channel o.errors ≡ Some e → poison_on channel o ≡ Some e }
    ensures next { (o : OutboxState) → error_at channel o.errors ≡ None → poison_on channel o ≡ o.poison }
    ensures set { (o : OutboxState) → poison_on channel (channel_poisoned channel error o) ≡ Some error }
    ensures cleared { (o : OutboxState) → poison_on channel (channel_cleared channel o) ≡ o.poison }
    ensures others { (c : ℕ) (o : OutboxState) → c ≢ channel → (poison_on c (channel_poisoned channel error o) ≡ poison_on c o) × (poison_on c (channel_cleared channel o) ≡ poison_on c o) }
{}
