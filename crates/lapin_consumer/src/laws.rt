//! Laws of consumers: functions without a body whose contracts say what holds of every history and every subscriptions.

ghost use Rattle.std.specs.Prelude.{◌≡◌, ℕ, suc, List, [], ◌∷◌, ◌++◌, Some, slice_get};
ghost use Rattle.lapin_consumer.specs.Marks.{ConsumerMark as AMark};
ghost use Rattle.lapin_consumer.specs.Subscriptions.{Consumer as AConsumer, Subscriptions as ASubscriptions, empty_subscriptions, after_mark};
ghost use Rattle.lapin_consumer.specs.Readings.{items, arrivals, made, log, given, jobs_made, delivered, handed_by};
ghost use Rattle.lapin_consumer.specs.Follows.{Follows, MayCome};

/// No consumer and no job is what the history without a mark says.
pub fn nothing_follows()
    ensures { Follows [] empty_subscriptions }
{}

/// A subscriptions that is what the marks of a history say is so for one more mark, whichever may come.
pub fn machine_follows()
    ensures { (ms : List AMark) (r : ASubscriptions) (m : AMark) → Follows ms r → MayCome ms m → Follows (ms ++ m ∷ []) (after_mark r m) }
{}

/// What polls of a consumer gave, in order, and then what is queued, are exactly the items of its log in order.
pub fn polls_give_items()
    ensures { (ms : List AMark) (r : ASubscriptions) (p : ℕ) (x : AConsumer) → Follows ms r → slice_get r.consumers p ≡ Some x → items (log (suc p) ms) ≡ given p ms ++ x.items }
{}

/// What the jobs of a consumer deliver, in the order in which they were made, is what its log has as jobs, in order.
pub fn jobs_are_made()
    ensures { (ms : List AMark) (p : ℕ) → delivered (suc p) (jobs_made ms) ≡ made (log (suc p) ms) }
{}

/// What a consumer is handed joins its log at the back, and nothing that arrived ever leaves it: each mark adds what it hands to
/// whom it is about.
pub fn arrivals_join()
    ensures { (ms : List AMark) (m : AMark) (p : ℕ) → arrivals (log (suc p) (ms ++ m ∷ [])) ≡ arrivals (log (suc p) ms) ++ handed_by m p ms }
{}
