//! Laws of the registry, each on a function with an empty body: what they say holds of every history.

ghost use Rattle.std.specs.Prelude.{◌≡◌, ℕ, List, IsTrue, false, None, ◌∷◌, ◌++◌, [], nat_eq};
ghost use Rattle.std.specs.Cmp.Lexicographic.{pointwise};
ghost use Rattle.lapin_methods.specs.declared.options.ExchangeDeclareOptions.{ExchangeDeclareOptions as AnExchangeOptions};
ghost use Rattle.lapin_methods.specs.declared.options.QueueDeclareOptions.{QueueDeclareOptions as AQueueOptions};
ghost use Rattle.lapin_types.specs.declared.exchange_kind.ExchangeKind.{ExchangeKind as AKind};
ghost use Rattle.lapin_registry.specs.declared.registry.ChannelDefinition.{ChannelDefinition as ADefinition};
ghost use Rattle.lapin_registry.specs.ByName.{rises, named};
ghost use Rattle.lapin_registry.specs.Marks.{Arguments, RegistryMark, name_in};
ghost use Rattle.lapin_registry.specs.Marks as mark;
ghost use Rattle.lapin_registry.specs.Topology.{exchange_name, queue_name, binding, without_binding, exchange_bindings, queue_bindings, after_mark, topology};

/// Names rise in every history of a channel.
pub fn names_rise()
    ensures exchanges { (ms : List RegistryMark) → IsTrue (rises exchange_name (topology ms).exchanges) }
    ensures queues { (ms : List RegistryMark) → IsTrue (rises queue_name (topology ms).queues) }
{}

/// A declare, also one that is repeated or comes behind a bind, keeps the bindings recorded under its name.
pub fn a_declare_keeps_bindings()
    ensures exchange { (d : ADefinition) (n : List ℕ) (k : AKind) (o : AnExchangeOptions) (a : Arguments) → IsTrue (rises exchange_name d.exchanges) → exchange_bindings n (after_mark d (mark.ExchangeDeclared n k o a)) ≡ exchange_bindings n d }
    ensures queue { (d : ADefinition) (n : List ℕ) (o : AQueueOptions) (a : Arguments) → IsTrue (rises queue_name d.queues) → queue_bindings n (after_mark d (mark.QueueDeclared n o a)) ≡ queue_bindings n d }
{}

/// A bind adds one binding behind those of its destination.
pub fn a_bind_adds_one()
    ensures exchange { (d : ADefinition) (n s k : List ℕ) (a : Arguments) → IsTrue (rises exchange_name d.exchanges) → exchange_bindings n (after_mark d (mark.ExchangeBound n s k a)) ≡ exchange_bindings n d ++ binding s k a ∷ [] }
    ensures queue { (d : ADefinition) (n s k : List ℕ) (a : Arguments) → IsTrue (rises queue_name d.queues) → queue_bindings n (after_mark d (mark.QueueBound n s k a)) ≡ queue_bindings n d ++ binding s k a ∷ [] }
{}

/// An unbind removes every binding of its destination that is equal to it, and no other.
pub fn an_unbind_removes_every_equal_one()
    ensures exchange { (d : ADefinition) (n s k : List ℕ) (a : Arguments) → exchange_bindings n (after_mark d (mark.ExchangeUnbound n s k a)) ≡ without_binding s k a (exchange_bindings n d) }
    ensures queue { (d : ADefinition) (n s k : List ℕ) (a : Arguments) → queue_bindings n (after_mark d (mark.QueueUnbound n s k a)) ≡ without_binding s k a (queue_bindings n d) }
{}

/// A delete takes the name away with its bindings.
pub fn a_delete_takes_the_name_away()
    ensures exchange { (d : ADefinition) (n : List ℕ) → named exchange_name n (after_mark d (mark.ExchangeDeleted n)).exchanges ≡ None }
    ensures queue { (d : ADefinition) (n : List ℕ) → named queue_name n (after_mark d (mark.QueueDeleted n)).queues ≡ None }
{}

/// Whatever is completed, what is recorded under other names stays.
pub fn other_names_stay()
    ensures exchanges { (d : ADefinition) (m : RegistryMark) (n : List ℕ) → pointwise nat_eq (name_in m) n ≡ false → named exchange_name n (after_mark d m).exchanges ≡ named exchange_name n d.exchanges }
    ensures queues { (d : ADefinition) (m : RegistryMark) (n : List ℕ) → pointwise nat_eq (name_in m) n ≡ false → named queue_name n (after_mark d m).queues ≡ named queue_name n d.queues }
{}
