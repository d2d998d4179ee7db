//! The consumers and the ackers of a run.

ghost use Rattle.std.specs.Prelude.{◌≡◌, ◌≤◌, ℕ, List, ◌++◌, zip};
ghost use Rattle.lapin_types.specs.declared.event.Event.{Event as AnEvent};
ghost use Rattle.lapin_acker.specs.Readings.{Follows as AckersFollow};
ghost use Rattle.lapin_consumer.specs.Follows.{Follows as ConsumersFollow};
ghost use Rattle.lapin_consumer.specs.Readings.{jobs_made};
ghost use Rattle.lapin_rules.specs.History.{run};
ghost use Rattle.lapin_rules.specs.Words.{many};
ghost use Rattle.lapin_laws.specs.Consumers.{consumer_history, acker_history, jobs_in, uses_acker};
ghost use Rattle.lapin_laws.specs.Runs.{world_after};

/// The consumers and the jobs after a list of events are what the history of the run says of consumers (`consumers`), and the ackers
/// are what it says of ackers (`ackers`). The jobs that were given in the run, and then those that wait, are all that were ever made,
/// in the order in which they were (`jobs`): so each job is given once.
///
/// So what waits for a consumer is what its log has as items and no poll gave, in order; and an acker may be used while its opening
/// lives and it is neither used nor void.
pub fn consumers_are_of_the_history()
    ensures consumers { (frame_max : ℕ) (events : List AnEvent) → ConsumersFollow (consumer_history frame_max (zip events (run frame_max events))) (world_after frame_max events).wire.deliveries.subscriptions }
    ensures jobs { (frame_max : ℕ) (events : List AnEvent) → jobs_in (run frame_max events) ++ (world_after frame_max events).wire.deliveries.subscriptions.jobs ≡ jobs_made (consumer_history frame_max (zip events (run frame_max events))) }
    ensures ackers { (frame_max : ℕ) (events : List AnEvent) → AckersFollow (acker_history frame_max (zip events (run frame_max events))) (world_after frame_max events).wire.deliveries.switches }
{}

/// An acker is used once: in every run at most one call of the acker of a number is answered otherwise than no.
pub fn an_acker_is_used_once()
    ensures { (frame_max : ℕ) (events : List AnEvent) (n : ℕ) → many (uses_acker n) (zip events (run frame_max events)) ≤ 1 }
{}
