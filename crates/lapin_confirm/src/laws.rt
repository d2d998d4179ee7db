//! Laws of confirms, each on a function with an empty body: what they say holds of every history, and of all that confirms can be.

ghost use Rattle.std.specs.Prelude.{◌≡◌, ◌≢◌, ℕ, ◌+◌, ◌<◌, ◌≤◌, ◌↔◌, ◌&&◌, true, false, not, List, [], ◌∷◌, ◌++◌, Some, None};
ghost use Rattle.std.specs.List.{list_any};
ghost use Rattle.lapin_types.specs.declared.Error.{Error as AnError};
ghost use Rattle.lapin_rules.specs.ConfirmMarks.{ConfirmMark as AMark};
ghost use Rattle.lapin_rules.specs.declared.marks.SettleKind.{SettleKind as AKind};
ghost use Rattle.lapin_rules.specs.declared.marks.Settlement.{Settlement as ASettlement};
ghost use Rattle.lapin_types.specs.declared.outcome.Outcome.{Outcome as AnOutcome};
ghost use Rattle.lapin_rules.specs.ConfirmMarks as mark;
ghost use Rattle.lapin_rules.specs.ConfirmReadings.{begins, is_begun, leaves_on, is_selected, place, has_left, channel_of, tag_of, covers, outcome_at, is_open_outcome, limit_of, is_full, is_at_limit, is_finished};
ghost use Rattle.lapin_rules.specs.ConfirmReadings as read;
ghost use Rattle.lapin_rules.specs.ReturnReadings.{covered, is_waited, is_gone};
ghost use Rattle.lapin_rules.specs.ReturnReadings as returns;
ghost use Rattle.lapin_rules.specs.Words.{is_some};
ghost use Rattle.lapin_tables.specs.ByChannel.{at_channel};
ghost use Rattle.lapin_tables.specs.Numbered.{under};
ghost use Rattle.lapin_confirm.specs.declared.cell.Cell.TheVariants as cell;
ghost use Rattle.lapin_confirm.specs.PublishStates.{PublishStates, settled, queued_count, is_pending, is_open_on, selected_on, last_on, multiple_of, limit_on, full_on, at_limit_on};
ghost use Rattle.lapin_confirm.specs.ConfirmState.{ConfirmState, empty_confirm_state, waits_on, covered_in};
ghost use Rattle.lapin_confirm.specs.Machine.{after_mark, rejected};
ghost use Rattle.lapin_confirm.specs.Drain.{drained_on};
ghost use Rattle.lapin_confirm.specs.Aside.{is_giving, is_waiting, taken_answer, set_answer, refused_as};
ghost use Rattle.lapin_confirm.specs.Polled.{polled, gives_result, is_none_yet};
ghost use Rattle.lapin_confirm.specs.Follows.{Follows, WasAdded, MayCome, Resolves};

/// New confirms are what the history without a mark says.
pub fn nothing_follows()
    ensures { Follows [] empty_confirm_state }
{}

/// Confirms that are what the marks of a history say are so for one more mark, whichever may come: tags, outcomes, returned
/// messages, and of what nothing is kept any more.
pub fn machine_follows()
    ensures { (ms : List AMark) (p : ConfirmState) (m : AMark) → Follows ms p → MayCome ms m → Follows (ms ++ m ∷ []) (after_mark p m) }
{}

/// An opening may begin where nothing of an earlier one is open.
pub fn an_opening_may_begin()
    ensures { (c : ℕ) (ms : List AMark) (p : ConfirmState) → Follows ms p → list_any (is_open_on c) p.publish_states.cells ≡ false → MayCome ms (mark.Begun c) }
{}

/// A result is given, or set aside, once and for all; of what is gone the outcome was there.
pub fn what_is_gone()
    ensures finished { (n : ℕ) (ms : List AMark) (p : ConfirmState) → Follows ms p → is_gone n ms ≡ true → is_finished n ms ≡ true }
    ensures done { (n : ℕ) (ms : List AMark) (p : ConfirmState) → Follows ms p → is_gone n ms ≡ true → is_open_outcome (outcome_at n ms) ≡ false }
{}

/// A publish is resolved once: an outcome that is there stays, whatever comes.
pub fn outcome_stays()
    ensures { (n : ℕ) (ms : List AMark) (m : AMark) → WasAdded n ms → MayCome ms m → is_open_outcome (outcome_at n ms) ≡ false → outcome_at n (ms ++ m ∷ []) ≡ outcome_at n ms }
{}

/// Every publish that was accepted has an outcome once its opening has ended, and by `outcome_stays` that outcome is the
/// only one that it ever has.
pub fn an_end_leaves_nothing_open()
    ensures { (n c : ℕ) (e : AnError) (ms : List AMark) → WasAdded n ms → channel_of n ms ≡ c → is_open_outcome (outcome_at n (ms ++ mark.Ended c e ∷ [])) ≡ false }
{}

/// The publishes that leave while their opening is selected take the tags 1, 2, 3, .. in order of leaving, and no other
/// mark but a new opening changes the count.
pub fn tags_count_up()
    ensures tag { (c k : ℕ) (ms : List AMark) → MayCome ms (mark.Left c k) → is_selected c ms ≡ true → tag_of k (ms ++ mark.Left c k ∷ []) ≡ Some (place c ms + 1) }
    ensures next { (c k : ℕ) (ms : List AMark) → is_selected c ms ≡ true → place c (ms ++ mark.Left c k ∷ []) ≡ place c ms + 1 }
    ensures first { (c : ℕ) (ms : List AMark) → place c (ms ++ mark.Begun c ∷ []) ≡ 0 }
    ensures still { (c : ℕ) (ms : List AMark) (m : AMark) → begins c m ≡ false → (is_selected c ms && leaves_on c m) ≡ false → place c (ms ++ m ∷ []) ≡ place c ms }
{}

/// A publish that left keeps its tag, or has none for good.
pub fn tag_stays()
    ensures { (n : ℕ) (ms : List AMark) (m : AMark) → WasAdded n ms → has_left n ms ≡ true → tag_of n (ms ++ m ∷ []) ≡ tag_of n ms }
{}

/// A confirm that is pending with a tag is resolved by a settlement of its channel that covers the tag, or by the end of its
/// opening, and by nothing else.
pub fn resolved_by_its_settlement()
    ensures { (n t : ℕ) (o : AnOutcome) (ms : List AMark) (m : AMark) → WasAdded n ms → has_left n ms ≡ true → tag_of n ms ≡ Some t → outcome_at n ms ≡ None → (outcome_at n (ms ++ m ∷ []) ≡ Some o) ↔ Resolves (channel_of n ms) t o m }
{}

/// A close of this side resolves every publish of its channel that has not left.
pub fn a_close_rejects_what_waits()
    ensures { (n : ℕ) (e : AnError) (ms : List AMark) → WasAdded n ms → has_left n ms ≡ false → is_open_outcome (outcome_at n (ms ++ mark.ClosedHere (channel_of n ms) e ∷ [])) ≡ false }
{}

/// A close of this side is its publishes that have not left, rejected one after another, in any order: a rejection leaves what
/// the close then comes to, and where none is left that has not left, the close is done.
pub fn a_close_one_by_one()
    ensures next { (c n : ℕ) (e : AnError) (p : ConfirmState) → under n p.publish_states.cells ≡ Some (cell.Queued c) → after_mark (rejected n e p) (mark.ClosedHere c e) ≡ after_mark p (mark.ClosedHere c e) }
    ensures done { (c : ℕ) (e : AnError) (p : ConfirmState) → queued_count c p.publish_states ≡ 0 → after_mark p (mark.ClosedHere c e) ≡ p }
    ensures less { (c n : ℕ) (e : AnError) (p : ConfirmState) → under n p.publish_states.cells ≡ Some (cell.Queued c) → queued_count c (rejected n e p).publish_states + 1 ≡ queued_count c p.publish_states }
    ensures other { (c d n : ℕ) (e : AnError) (p : ConfirmState) → under n p.publish_states.cells ≡ Some (cell.Queued c) → c ≢ d → queued_count d (rejected n e p).publish_states ≡ queued_count d p.publish_states }
{}

/// An end after a close of this side with the same error is the end alone.
pub fn end_takes_close()
    ensures { (c : ℕ) (e : AnError) (p : ConfirmState) → after_mark (after_mark p (mark.ClosedHere c e)) (mark.Ended c e) ≡ after_mark p (mark.Ended c e) }
{}

/// An end after a publish of the channel that had not left was rejected with the same error is the end alone.
pub fn end_takes_rejected()
    ensures { (c n : ℕ) (e : AnError) (p : ConfirmState) → under n p.publish_states.cells ≡ Some (cell.Queued c) → after_mark (rejected n e p) (mark.Ended c e) ≡ after_mark p (mark.Ended c e) }
{}

/// A multiple settlement of a tag above 0 covers exactly the tags up to it, one of 0 covers every tag.
pub fn multiple_covers()
    ensures up_to { (kind : AKind) (tag t : ℕ) → 0 < tag → (covers (multiple_of kind tag) t ≡ true) ↔ (t ≤ tag) }
    ensures all { (kind : AKind) (t : ℕ) → covers (multiple_of kind 0) t ≡ true }
{}

/// After a settlement exactly those tags are pending that were and that it does not cover.
pub fn settlement_leaves()
    ensures { (c t : ℕ) (s : ASettlement) (b : PublishStates) → is_pending c t (settled c s b) ≡ (is_pending c t b && not (covers s t)) }
{}

// ---- what is seen of confirms that are what the marks of a history say, is what the history says

/// Which channels had an opening: those with a confirm mode, and with return lists.
pub fn openings_as_read()
    ensures confirm_modes { (c : ℕ) (ms : List AMark) (p : ConfirmState) → Follows ms p → is_some (at_channel c p.publish_states.confirm_modes) ≡ is_begun c ms }
    ensures return_lists { (c : ℕ) (ms : List AMark) (p : ConfirmState) → Follows ms p → is_some (at_channel c p.returned_by_channel) ≡ is_begun c ms }
{}

/// Which opening is selected, the last tag that was taken, and which tags are pending.
pub fn tags_as_read()
    ensures selected { (c : ℕ) (ms : List AMark) (p : ConfirmState) → Follows ms p → selected_on c p.publish_states ≡ is_selected c ms }
    ensures last { (c : ℕ) (ms : List AMark) (p : ConfirmState) → Follows ms p → last_on c p.publish_states ≡ place c ms }
    ensures pending { (c t : ℕ) (ms : List AMark) (p : ConfirmState) → Follows ms p → is_pending c t p.publish_states ≡ read.is_pending c t ms }
{}

/// Whether a channel is full.
pub fn full_as_read()
    ensures { (c : ℕ) (ms : List AMark) (p : ConfirmState) → Follows ms p → full_on c p.publish_states ≡ is_full c ms }
{}

/// Whether a channel is at its limit, and the limit of a channel that had an opening.
pub fn limits_as_read()
    ensures at { (c : ℕ) (ms : List AMark) (p : ConfirmState) → Follows ms p → at_limit_on c p.publish_states ≡ is_at_limit c ms }
    ensures limit { (c : ℕ) (ms : List AMark) (p : ConfirmState) → Follows ms p → is_begun c ms ≡ true → limit_on c p.publish_states ≡ limit_of c ms }
{}

/// Whether there is something to wait for on a channel.
pub fn waits_as_read()
    ensures { (c : ℕ) (ms : List AMark) (p : ConfirmState) → Follows ms p → waits_on c p.publish_states ≡ is_waited c ms }
{}

/// Which confirms a settlement resolves, in the same order: in that order they take messages.
pub fn covered_as_read()
    ensures { (c : ℕ) (s : ASettlement) (ms : List AMark) (p : ConfirmState) → Follows ms p → covered_in c (covers s) p.publish_states ≡ covered c s ms }
{}

/// What a poll answers, with the message that the confirm took, and what setting it aside answers.
pub fn polls_as_read()
    ensures polled { (n : ℕ) (ms : List AMark) (p : ConfirmState) → Follows ms p → taken_answer n p ≡ polled n ms }
    ensures aside { (n : ℕ) (ms : List AMark) (p : ConfirmState) → Follows ms p → set_answer n p ≡ refused_as (polled n ms) }
{}

/// What a drain gives.
pub fn drains_as_read()
    ensures { (c : ℕ) (ms : List AMark) (p : ConfirmState) → Follows ms p → drained_on c p ≡ returns.drained c ms }
{}

/// What `take` answers tells what it does: a result is given exactly where there is one, and none exactly while it is waited for.
pub fn answers_tell()
    ensures given { (n : ℕ) (p : ConfirmState) → is_giving n p ≡ gives_result (taken_answer n p) }
    ensures waiting { (n : ℕ) (p : ConfirmState) → is_waiting n p ≡ is_none_yet (taken_answer n p) }
{}
