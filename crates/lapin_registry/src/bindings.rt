//! The bindings of an exchange or a queue, in the order in which they were recorded.

ghost use Rattle.std.specs.Prelude.{◌≡◌, ◌∷◌, ◌++◌, [], OnOk, OnErr, length, slice_get};
ghost use Rattle.std.specs.Option.{option_copied};
ghost use Rattle.lapin_registry.specs.Topology.{is_binding as is_binding_of, without_binding};

use lapin_types::{FieldTable, NoMemory, ShortString};
use std::alloc::Global;
use std::marker::Model;

/// A binding: messages of a source that fit it are routed to what has it (AMQP 0-9-1, section 3.1.4).
#[derive(Debug, Drop)]
pub struct BindingDefinition {
    /// The exchange that messages come from.
    pub source: ShortString,
    /// The key or pattern that they have to fit.
    pub routing_key: ShortString,
    /// The arguments of the binding.
    pub arguments: FieldTable,
}

impl BindingDefinition {
    /// Whether it has this source, key and arguments.
    pub(crate) fn is(&self, source: &str, routing_key: &str, arguments: &FieldTable) -> bool
        ensures { result ≡ is_binding_of source.now routing_key.now arguments.now self.now }
    {
        self.source.as_str() == source
            && self.routing_key.as_str() == routing_key
            && self.arguments == *arguments
    }
}

/// Bindings in order of registering. A contract sees them as a list.
#[derive(Debug, Drop)]
pub struct Bindings {
    bindings: Vec<BindingDefinition>,
}

impl Model for Bindings {
    ghost use Rattle.std.specs.Prelude.{List};
    ghost use Rattle.std.specs.Coded.{coded_list};
    ghost use Rattle.lapin_registry.specs.declared.bindings.BindingDefinition.{BindingDefinition};
    ghost use Rattle.lapin_registry.specs.contracts.bindings.BindingDefinition as binding;

    ghost Value = { List BindingDefinition };

    ghost coded = { coded_list binding.the_row.coded };

    ghost view = { λ b. b.bindings.items };
}

impl Bindings {
    /// No binding. It takes no memory yet.
    pub(crate) fn new(alloc: Global) -> Bindings
        ensures { result ≡ [] }
    {
        Bindings {
            bindings: Vec::new(alloc),
        }
    }

    /// How many bindings there are.
    pub fn len(&self) -> usize
        ensures { result ≡ length self.now }
    {
        self.bindings.len()
    }

    /// The binding at a place, counted from 0 in order of registering; None behind the last one.
    pub fn at(&self, place: usize) -> Option<&BindingDefinition>
        ensures { option_copied result ≡ slice_get self.now place }
    {
        self.bindings.get(place)
    }

    /// Adds a binding behind the others. They stay where there is no memory.
    pub(crate) fn add(&mut self, binding: BindingDefinition) -> Result<(), NoMemory>
        ensures ok { OnOk result (self.new ≡ self.old ++ binding ∷ []) }
        ensures err { OnErr result (self.new ≡ self.old) }
    {
        self.bindings.push(binding)?;
        Ok(())
    }

    /// Takes every binding away that has this source, key and arguments.
    pub(crate) fn remove(&mut self, source: &str, routing_key: &str, arguments: &FieldTable)
        ensures { self.new ≡ without_binding source.now routing_key.now arguments.now self.old }
    {
        let bindings = &mut self.bindings;
        bindings.retain(|binding| !binding.is(source, routing_key, arguments));
    }
}
