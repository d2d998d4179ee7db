//! A queue that a channel declared or bound.

use crate::bindings::{BindingDefinition, Bindings};
use crate::by_name::{ByName, Named};
use lapin_types::{FieldTable, NoMemory, QueueDeclareOptions, ShortString};
use std::alloc::Global;

/// Queues, one a name. A contract sees them as a list, in rising order of the names' bytes.
pub type Queues = ByName<QueueDefinition>;

/// A queue. One that was bound and not declared has None in each Option.
#[derive(Debug, Drop)]
pub struct QueueDefinition {
    /// Its name.
    pub name: ShortString,
    /// The marks of its last declare.
    pub options: Option<QueueDeclareOptions>,
    /// The arguments of its last declare.
    pub arguments: Option<FieldTable>,
    /// Its bindings to exchanges.
    pub bindings: Bindings,
    /// Whether it was declared.
    pub is_declared: bool,
}

/// What is done to a queue.
#[derive(Drop)]
pub enum QueueEdit {
    /// It is declared, and keeps the bindings that it has.
    Declare(QueueDeclareOptions, FieldTable),
    /// It gets a binding.
    Bind(BindingDefinition),
}

impl Named for QueueDefinition {
    ghost use Rattle.std.specs.Prelude.{refl};
    ghost use Rattle.lapin_registry.specs.Topology.{queue_name, undeclared_queue, edited_queue, unbound_queue};
    ghost use Rattle.lapin_registry.specs.declared.queues.QueueEdit.TheVariants as queue_edit;

    type Edit = QueueEdit;

    ghost name_of = { queue_name };

    ghost undeclared_of = { undeclared_queue };

    ghost edited = { edited_queue };

    ghost unbound = { unbound_queue };

    fn name(&self) -> &ShortString {
        &self.name
    }

    fn undeclared(alloc: Global, name: ShortString) -> QueueDefinition {
        QueueDefinition {
            name,
            options: None,
            arguments: None,
            bindings: Bindings::new(alloc),
            is_declared: false,
        }
    }

    fn edit(&mut self, edit: QueueEdit) -> Result<(), NoMemory> {
        match edit {
            QueueEdit::Declare(options, arguments) => {
                self.options = Some(options);
                self.arguments = Some(arguments);
                self.is_declared = true;
                Ok(())
            }
            QueueEdit::Bind(binding) => self.bindings.add(binding),
        }
    }

    fn unbind(&mut self, source: &str, routing_key: &str, arguments: &FieldTable) {
        self.bindings.remove(source, routing_key, arguments);
    }

    ghost has_name = { λ n. refl };

    ghost edit_keeps = { elim [ queue_edit.Declare o a ↦ λ x. refl | queue_edit.Bind b ↦ λ x. refl ] };

    ghost unbind_keeps = { λ s k a x. refl };
}
