//! An exchange that a channel declared or bound.

use crate::bindings::{BindingDefinition, Bindings};
use crate::by_name::{ByName, Named};
use lapin_types::{ExchangeDeclareOptions, ExchangeKind, FieldTable, NoMemory, ShortString};
use std::alloc::Global;

/// Exchanges, one a name. A contract sees them as a list, in rising order of the names' bytes.
pub type Exchanges = ByName<ExchangeDefinition>;

/// An exchange. One that was bound and not declared has None in each Option.
#[derive(Debug, Drop)]
pub struct ExchangeDefinition {
    /// Its name.
    pub name: ShortString,
    /// How it routes.
    pub kind: Option<ExchangeKind>,
    /// The marks of its last declare.
    pub options: Option<ExchangeDeclareOptions>,
    /// The arguments of its last declare.
    pub arguments: Option<FieldTable>,
    /// Its bindings to other exchanges, as their destination.
    pub bindings: Bindings,
    /// Whether it was declared.
    pub is_declared: bool,
}

/// What is done to an exchange.
#[derive(Drop)]
pub enum ExchangeEdit {
    /// It is declared, and keeps the bindings that it has.
    Declare(ExchangeKind, ExchangeDeclareOptions, FieldTable),
    /// It gets a binding.
    Bind(BindingDefinition),
}

impl Named for ExchangeDefinition {
    ghost use Rattle.std.specs.Prelude.{refl};
    ghost use Rattle.lapin_registry.specs.Topology.{exchange_name, undeclared_exchange, edited_exchange, unbound_exchange};
    ghost use Rattle.lapin_registry.specs.declared.exchanges.ExchangeEdit.TheVariants as exchange_edit;

    type Edit = ExchangeEdit;

    ghost name_of = { exchange_name };

    ghost undeclared_of = { undeclared_exchange };

    ghost edited = { edited_exchange };

    ghost unbound = { unbound_exchange };

    fn name(&self) -> &ShortString {
        &self.name
    }

    fn undeclared(alloc: Global, name: ShortString) -> ExchangeDefinition {
        ExchangeDefinition {
            name,
            kind: None,
            options: None,
            arguments: None,
            bindings: Bindings::new(alloc),
            is_declared: false,
        }
    }

    fn edit(&mut self, edit: ExchangeEdit) -> Result<(), NoMemory> {
        match edit {
            ExchangeEdit::Declare(kind, options, arguments) => {
                self.kind = Some(kind);
                self.options = Some(options);
                self.arguments = Some(arguments);
                self.is_declared = true;
                Ok(())
            }
            ExchangeEdit::Bind(binding) => self.bindings.add(binding),
        }
    }

    fn unbind(&mut self, source: &str, routing_key: &str, arguments: &FieldTable) {
        self.bindings.remove(source, routing_key, arguments);
    }

    ghost has_name = { λ n. refl };

    ghost edit_keeps = { elim [ exchange_edit.Declare k o a ↦ λ x. refl | exchange_edit.Bind b ↦ λ x. refl ] };

    ghost unbind_keeps = { λ s k a x. refl };
}
