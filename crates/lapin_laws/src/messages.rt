//! The contents that a run expects.

ghost use Rattle.std.specs.Prelude.{◌≡◌, ℕ, false, List, [], Some, Ok, zip};
ghost use Rattle.lapin_types.specs.declared.event.Event.{Event as AnEvent};
ghost use Rattle.lapin_methods.specs.declared.frame.ContentHeader.{ContentHeader as AHeader};
ghost use Rattle.lapin_content.specs.declared.start.Whole.{Whole as AWhole};
ghost use Rattle.lapin_content.specs.Contents.{heard_header, heard_body};
ghost use Rattle.lapin_content.specs.Channels.{expected_on};
ghost use Rattle.lapin_content.specs.Follows.{Follows, IsLastBody, IsEmpty};
ghost use Rattle.lapin_tables.specs.ByChannel.{at_channel};
ghost use Rattle.lapin_rules.specs.History.{run};
ghost use Rattle.lapin_machine.specs.Tied.{is_live_on};
ghost use Rattle.lapin_laws.specs.Contents.{content_history};
ghost use Rattle.lapin_laws.specs.Runs.{world_after};

/// The contents that are expected after a list of events are what the history of the run says of contents (`follows`), and on a
/// channel without a live opening none is (`live`).
///
/// So a message that a body makes whole is what began the channel's front, its header's properties, and its bodies joined in order,
/// with as many bytes as the header announced (`body`); and one that its header makes whole has no byte (`header`).
pub fn contents_are_of_the_history()
    ensures follows { (frame_max : ℕ) (events : List AnEvent) → Follows (content_history frame_max (zip events (run frame_max events))) (world_after frame_max events).wire.contents }
    ensures live { (frame_max : ℕ) (events : List AnEvent) (c : ℕ) → is_live_on (world_after frame_max events).wire.link (at_channel c (world_after frame_max events).wire.phases) ≡ false → expected_on c (world_after frame_max events).wire.contents ≡ [] }
    ensures body { (frame_max : ℕ) (events : List AnEvent) (c : ℕ) (bytes : List ℕ) (w : AWhole) → heard_body bytes (expected_on c (world_after frame_max events).wire.contents) ≡ Ok (Some w) → IsLastBody c (content_history frame_max (zip events (run frame_max events))) bytes w }
    ensures header { (frame_max : ℕ) (events : List AnEvent) (c : ℕ) (h : AHeader) (w : AWhole) → heard_header h (expected_on c (world_after frame_max events).wire.contents) ≡ Ok (Some w) → IsEmpty c (content_history frame_max (zip events (run frame_max events))) h w }
{}
