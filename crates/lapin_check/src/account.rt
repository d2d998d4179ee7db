//! The account: an entry for each whole publish that the broker numbered, with the settlement that covers it.

ghost use Rattle.std.specs.Prelude.{◌≡◌};
ghost use Rattle.lapin_check.specs.Settlements.{covers as covers_lem, reaches as reaches_lem};
ghost use Rattle.lapin_check.specs.Marks.{mark as mark_lem};

use crate::seen::Settlement;

/// The settlement of a publish.
#[derive(Clone, Copy, Debug, PartialEq, Eq)]
pub struct Settled {
    /// Whether it was an ack, else it was a nack.
    pub ack: bool,
    /// Its place in the transcript, from 1.
    pub place: u64,
}

/// A whole publish that the broker numbered.
#[derive(Clone, Copy, Debug, PartialEq, Eq)]
pub struct Counted {
    /// Its channel.
    pub channel: u16,
    /// How many `channel.open` of that channel were read by then.
    pub opening: u64,
    /// Its number in that opening, from 1.
    pub number: u64,
    /// The place of its last frame in the transcript, from 1.
    pub place: u64,
    /// The first settlement in that opening that covers it, if one was sent.
    pub settled: Option<Settled>,
}

impl Counted {
    /// Settles it, where it isn't settled and the settlement, which was sent in that opening and at that place, covers it.
    pub(crate) fn mark(&mut self, settlement: Settlement, opening: u64, place: u64)
        ensures { self.new ≡ mark_lem place opening settlement self.old }
    {
        if self.settled.is_none() && covers(settlement, opening, *self) {
            self.settled = Some(Settled {
                ack: settlement.ack,
                place,
            });
        }
    }
}

// Whether a settlement that was sent in this opening covers a publish.
fn covers(settlement: Settlement, opening: u64, counted: Counted) -> bool
    ensures { result ≡ covers_lem settlement opening counted }
{
    settlement.channel == counted.channel
        && opening == counted.opening
        && reaches(settlement, counted.number)
}

/// Whether a settlement reaches a number: a single one its own, a multiple one each up to its own, and with 0 every one.
pub(crate) fn reaches(settlement: Settlement, number: u64) -> bool
    ensures { result ≡ reaches_lem settlement number }
{
    if settlement.multiple {
        settlement.number == 0 || number <= settlement.number
    } else {
        settlement.number == number
    }
}
