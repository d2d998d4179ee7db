//! What each event does to what waits and to the openings of channels, as one of seven kinds.
//!
//! A law over any list of events is shown by these seven cases and the frame request, in the place of a case for each event. No code
//! lives here, and nothing of a machine: the kinds follow from the rules of `lapin_rules` alone.
#![tactic(auto)]

ghost use Rattle.std.specs.Prelude.{◌≡◌, false};
ghost use Rattle.lapin_types.specs.declared.event.Event.{Event as AnEvent};
ghost use Rattle.lapin_rules.specs.Readings.{Readings};
ghost use Rattle.lapin_rules.specs.Wire.{Wire};
ghost use Rattle.lapin_effects.specs.Effects.{is_next, HasEffect};

/// Every event but a frame request has one of the seven effects, from any states and lists, whatever is seen of confirms and tickets.
pub fn every_other_event_has_an_effect()
    ensures { (b : Wire) (readings : Readings) (e : AnEvent) → is_next e ≡ false → HasEffect b readings e }
{}
