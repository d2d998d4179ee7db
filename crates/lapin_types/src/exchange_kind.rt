//! The kinds of exchanges and their names. How an exchange routes is the broker's.

ghost use Rattle.std.specs.Prelude.{◌≡◌, IfOk};
ghost use Rattle.std.specs.Bool.{Decides};
ghost use Rattle.lapin_types.specs.ExchangeKinds.{kind_text};

use lapin_values::{NoMemory, ShortString};
use std::alloc::Global;

/// The kind of an exchange (AMQP 0-9-1, section 3.1.3, "Exchange Types").
#[derive(Debug, Drop)]
pub enum ExchangeKind {
    /// A kind that the standard doesn't name.
    Custom(ShortString),
    /// Routes by the whole routing key.
    Direct,
    /// Routes to all that is bound.
    Fanout,
    /// Routes by the headers.
    Headers,
    /// Routes by patterns of the routing key.
    Topic,
}

impl ExchangeKind {
    /// The kind's name in `exchange.declare`.
    pub fn kind(&self) -> &str
        ensures { result.now ≡ kind_text self.now }
    {
        match self {
            ExchangeKind::Custom(text) => text.as_str(),
            ExchangeKind::Direct => "direct",
            ExchangeKind::Fanout => "fanout",
            ExchangeKind::Headers => "headers",
            ExchangeKind::Topic => "topic",
        }
    }

    /// An equal kind, in memory of its own.
    pub fn try_clone(&self, alloc: Global) -> Result<ExchangeKind, NoMemory>
        ensures { IfOk result (λ copy. copy ≡ self.now) }
    {
        match self {
            ExchangeKind::Custom(text) => Ok(ExchangeKind::Custom(text.try_clone(alloc)?)),
            ExchangeKind::Direct => Ok(ExchangeKind::Direct),
            ExchangeKind::Fanout => Ok(ExchangeKind::Fanout),
            ExchangeKind::Headers => Ok(ExchangeKind::Headers),
            ExchangeKind::Topic => Ok(ExchangeKind::Topic),
        }
    }

    /// Whether two kinds are equal.
    pub fn same(&self, other: &ExchangeKind) -> bool
        ensures { Decides result (self.now ≡ other.now) }
    {
        match (self, other) {
            (ExchangeKind::Custom(left), ExchangeKind::Custom(right)) => left == right,
            (ExchangeKind::Direct, ExchangeKind::Direct) => true,
            (ExchangeKind::Fanout, ExchangeKind::Fanout) => true,
            (ExchangeKind::Headers, ExchangeKind::Headers) => true,
            (ExchangeKind::Topic, ExchangeKind::Topic) => true,
            _ => false,
        }
    }
}

impl Default for ExchangeKind {
    ghost use Rattle.std.specs.Prelude.{◌≡◌};
    ghost use Rattle.lapin_types.specs.declared.exchange_kind.ExchangeKind.TheVariants as kind;

    ghost is_default = { λ k. k ≡ kind.Direct };

    fn default() -> ExchangeKind {
        ExchangeKind::Direct
    }
}

impl PartialEq for ExchangeKind {
    ghost use Rattle.lapin_values.specs.Same.{same_by, same_by_per};
    ghost use Rattle.lapin_types.specs.contracts.exchange_kind.ExchangeKind as it;

    ghost eq = { same_by it.the_row.coded };

    ghost laws = { same_by_per it.the_row.coded };

    fn eq(&self, other: &ExchangeKind) -> bool {
        self.same(other)
    }
}

impl Eq for ExchangeKind {
    ghost use Rattle.lapin_values.specs.Same.{same_by_equiv};
    ghost use Rattle.lapin_types.specs.contracts.exchange_kind.ExchangeKind as it;

    ghost laws = { same_by_equiv it.the_row.coded };
}
