//! The acker of a delivery: what names it at the broker and in the session. Which ackers are usable stands
//! in the crates above.

ghost use Rattle.std.specs.Prelude.{◌≡◌};
ghost use Rattle.std.specs.Bool.{Decides};
ghost use Rattle.lapin_types.specs.Ackers.{same_delivery};

/// Names a delivery that can be acknowledged. Two ackers are `==` where channel and delivery tag are.
#[derive(Clone, Debug, Drop)]
pub struct Acker {
    /// The channel of the delivery.
    pub channel_id: u16,
    /// The delivery tag that the broker gave.
    pub delivery_tag: u64,
    /// The acker's number in its session; 0 of a mock and of a returned message.
    pub number: u64,
    /// Whether this value was used.
    pub used: bool,
}

impl PartialEq for Acker {
    ghost use Rattle.lapin_types.specs.Ackers.{same_delivery};
    ghost use Rattle.std.specs.Cmp.Rules.{comparing};
    ghost use Rattle.std.proofs.Common.{rules};

    ghost eq = { same_delivery };

    ghost laws = { Prim.search (comparing, rules) };

    fn eq(&self, other: &Acker) -> bool {
        self.channel_id == other.channel_id && self.delivery_tag == other.delivery_tag
    }
}

impl Acker {
    /// Whether two ackers are equal in every field, number and use too.
    pub fn same(&self, other: &Acker) -> bool
        ensures { Decides result (self.now ≡ other.now) }
    {
        self.channel_id == other.channel_id
            && self.delivery_tag == other.delivery_tag
            && self.number == other.number
            && self.used == other.used
    }
}
