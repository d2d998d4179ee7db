//! The properties of a message, as its content header carries them (AMQP 0-9-1, class basic, "properties").
//! Which of them a header names on the wire is the matter of those who write frames.

ghost use Rattle.std.specs.Prelude.{◌≡◌, IfOk, option_map};
ghost use Rattle.std.specs.Bool.{Decides};

use crate::memory::NoMemory;
use crate::properties::texts::{Texts, same_texts};
use crate::value::FieldTable;
use std::alloc::Global;
use std::marker::Model;

mod fields;
pub(crate) mod texts;

/// The fourteen properties of a message, each set or not. They are opaque to the protocol: a broker hands
/// them on as they were published. A contract sees them as the record `Properties`.
///
/// It is handed on by value, so it is kept narrow, four words: the texts that are set stand in a chain, behind one pointer, and the others
/// but for the headers in room that the chain has anyway.
pub struct BasicProperties {
    texts: Texts,
    headers: FieldTable,
}

impl Drop for BasicProperties {
    fn drop(self) {
        let BasicProperties {
            texts: _,
            headers: _,
        } = self;
    }
}

impl Model for BasicProperties {
    ghost use Rattle.lapin_values.specs.Properties.{Properties, properties_code};

    ghost Value = { Properties };

    ghost coded = { properties_code };

    ghost use Rattle.lapin_values.specs.Texts.{seen};

    ghost view = { λ p. seen p.texts p.headers };
}

impl Default for BasicProperties {
    ghost use Rattle.std.specs.Prelude.{◌≡◌};
    ghost use Rattle.lapin_values.specs.Properties.{no_properties};

    ghost is_default = { λ properties. properties ≡ no_properties };

    /// No property is set.
    fn default() -> BasicProperties {
        BasicProperties {
            texts: Texts::none(),
            headers: FieldTable::empty(),
        }
    }
}

fn same_headers(a: Option<&FieldTable>, b: Option<&FieldTable>) -> bool
    ensures { Decides result (option_map (λ table. table.now) a.entry ≡ option_map (λ table. table.now) b.entry) }
{
    match (a, b) {
        (Some(a), Some(b)) => a.same(b),
        (None, None) => true,
        _ => false,
    }
}

impl BasicProperties {
    /// Properties equal to these.
    ///
    /// # Errors
    ///
    /// `NoMemory`.
    pub fn try_clone(&self, alloc: Global) -> Result<BasicProperties, NoMemory>
        ensures { IfOk result (λ copy. copy ≡ self.now) }
    {
        let texts = self.texts.try_clone(alloc)?;
        let headers = self.headers.try_clone(alloc)?;
        Ok(BasicProperties { texts, headers })
    }

    /// Whether the same properties are set, to equal values.
    pub fn same(&self, other: &BasicProperties) -> bool
        ensures { Decides result (self.now ≡ other.now) }
    {
        same_texts(&self.texts, &other.texts) && self.same_others(other)
    }

    /// Whether the properties that are no texts are the same.
    fn same_others(&self, other: &BasicProperties) -> bool
        ensures { Decides result ((self.now.headers ≡ other.now.headers) × ((self.now.delivery_mode ≡ other.now.delivery_mode) × ((self.now.priority ≡ other.now.priority) × (self.now.timestamp ≡ other.now.timestamp)))) }
    {
        same_headers(self.headers(), other.headers())
            && self.delivery_mode() == other.delivery_mode()
            && self.priority() == other.priority()
            && self.timestamp() == other.timestamp()
    }
}

impl PartialEq for BasicProperties {
    ghost use Rattle.lapin_values.specs.Same.{same_by, same_by_per};
    ghost use Rattle.lapin_values.specs.Properties.{properties_code};

    ghost eq = { same_by properties_code };

    ghost laws = { same_by_per properties_code };

    fn eq(&self, other: &BasicProperties) -> bool {
        self.same(other)
    }
}
