//! Laws of deliveries, each on a function with an empty body: what they say holds of every history.

ghost use Rattle.std.specs.Prelude.{◌≡◌, List};
ghost use Rattle.std.specs.List.{fold};
ghost use Rattle.lapin_consumer.specs.Subscriptions.{after_mark as after_consumer_mark};
ghost use Rattle.lapin_acker.specs.Switches.{after_mark as after_acker_mark};
ghost use Rattle.lapin_delivery.specs.Deliveries.{Deliveries as AnDeliveries, after_mark, all_consumer_marks, all_acker_marks, topologies_after};
ghost use Rattle.lapin_delivery.specs.Marks.{DeliveryMark as AMark};

/// After the marks of a history, consumers, ackers and registries are each what their own machine makes of what these marks are to them.
pub fn parts_follow()
    ensures consumers { (i : AnDeliveries) (ms : List AMark) → (fold after_mark i ms).subscriptions ≡ fold after_consumer_mark i.subscriptions (all_consumer_marks ms) }
    ensures ackers { (i : AnDeliveries) (ms : List AMark) → (fold after_mark i ms).switches ≡ fold after_acker_mark i.switches (all_acker_marks i ms) }
    ensures registries { (i : AnDeliveries) (ms : List AMark) → (fold after_mark i ms).topologies ≡ fold topologies_after i.topologies ms }
{}
