//! Things by name, one a name, in rising order of the names' bytes: the exchanges and the queues of a channel are such lists. What a
//! thing is, and what an edit makes of it, stands beside this file.

ghost use Rattle.std.specs.Prelude.{◌≡◌, [], IfOk, IfErr, OnOk, OnErr, IsTrue, length, slice_get};
ghost use Rattle.std.specs.Option.{option_copied};
ghost use Rattle.lapin_registry.specs.ByName.{IsAt, IsGapFor, amended, changed, rises, without};

use lapin_types::{FieldTable, NoMemory, ShortString};
use std::alloc::Global;
use std::fmt;
use std::marker::Model;

/// What is recorded under a name.
pub trait Named: Drop {
    ghost use Rattle.std.specs.Prelude.{◌≡◌, ℕ, List, OnOk, OnErr};
    ghost use Rattle.lapin_registry.specs.Marks.{Arguments};

    /// What is done to it: it is declared, or it gets a binding.
    type Edit: Drop;

    /// The bytes of its name.
    ghost name_of: { Self → List ℕ };

    /// One that was not declared and has no binding.
    ghost undeclared_of: { List ℕ → Self };

    /// What an edit makes of it.
    ghost edited: { Self.Edit → Self → Self };

    /// What an unbind of a source, a key and arguments makes of it.
    ghost unbound: { List ℕ → List ℕ → Arguments → Self → Self };

    /// Its name.
    fn name(&self) -> &ShortString
        ensures { result.now ≡ name_of self.now };

    /// One that was not declared and has no binding.
    fn undeclared(alloc: Global, name: ShortString) -> Self
        ensures { result ≡ undeclared_of name };

    /// Edits it. It stays where there is no memory.
    fn edit(&mut self, edit: Self::Edit) -> Result<(), NoMemory>
        ensures ok { OnOk result (self.new ≡ edited edit self.old) }
        ensures err { OnErr result (self.new ≡ self.old) };

    /// Takes every binding away that has this source, key and arguments.
    fn unbind(&mut self, source: &str, routing_key: &str, arguments: &FieldTable)
        ensures { self.new ≡ unbound source.now routing_key.now arguments.now self.old };

    /// One that is made for a name has it.
    ghost has_name: { (n : List ℕ) → name_of (undeclared_of n) ≡ n };

    /// An edit leaves the name.
    ghost edit_keeps: { (e : Self.Edit) (x : Self) → name_of (edited e x) ≡ name_of x };

    /// So does an unbind.
    ghost unbind_keeps: { (s k : List ℕ) (a : Arguments) (x : Self) → name_of (unbound s k a x) ≡ name_of x };
}

// A thing in memory of its own, so that the list in order moves no more than a pointer of each that stands behind. A contract sees the
// thing.
#[derive(Drop)]
struct Placed<T> {
    thing: Box<T>,
}

impl<T> Model for Placed<T> {
    ghost use Rattle.std.specs.Prelude.{box_value};

    ghost Value = { T };

    ghost coded = { T.code };

    ghost view = { λ p. box_value p.thing };
}

// As the thing itself.
impl<T: fmt::Debug> fmt::Debug for Placed<T> {
    fn fmt<W: fmt::Write>(&self, f: &mut fmt::Formatter<W>) -> fmt::Result {
        fmt::Debug::fmt(&self.thing, f)
    }
}

impl<T: Named> Placed<T> {
    fn undeclared(alloc: Global, name: ShortString) -> Result<Placed<T>, NoMemory>
        ensures { IfOk result (λ placed. placed ≡ T.undeclared_of name) }
    {
        Ok(Placed {
            thing: Box::new(alloc, T::undeclared(alloc, name))?,
        })
    }

    fn edit(&mut self, edit: T::Edit) -> Result<(), NoMemory>
        ensures ok { OnOk result (self.new ≡ T.edited edit self.old) }
        ensures err { OnErr result (self.new ≡ self.old) }
    {
        self.thing.edit(edit)
    }

    fn unbind(&mut self, source: &str, routing_key: &str, arguments: &FieldTable)
        ensures { self.new ≡ T.unbound source.now routing_key.now arguments.now self.old }
    {
        self.thing.unbind(source, routing_key, arguments);
    }
}

// The place of the thing of a name, or where it would stand.
fn place_of<T: Named>(things: &[Placed<T>], name: &str) -> Result<usize, usize>
    requires { IsTrue (rises T.name_of things.now) }
    ensures found { IfOk result (λ place. IsAt T.name_of name.now things.now place) }
    ensures absent { IfErr result (λ place. IsGapFor T.name_of name.now things.now place) }
{
    things.binary_search_by(|placed| placed.thing.name().as_str().cmp(name))
}

/// Things, one a name. A contract sees them as a list, in rising order of the names' bytes.
#[derive(Debug)]
pub struct ByName<T: Named> {
    things: Vec<Placed<T>>,
}

impl<T: Named> Drop for ByName<T> {
    fn drop(self) {
        let ByName { things: _ } = self;
    }
}

impl<T: Named> Model for ByName<T> {
    ghost use Rattle.std.specs.Prelude.{List, IsTrue};
    ghost use Rattle.std.specs.Coded.{coded_list};
    ghost use Rattle.lapin_registry.specs.ByName.{rises};

    ghost Value = { List T };

    ghost coded = { coded_list T.code };

    ghost view = { λ l. l.things.items };

    ghost invariant = { λ l. IsTrue (rises T.name_of l.things.items) };
}

impl<T: Named> ByName<T> {
    /// Nothing. It takes no memory yet.
    pub(crate) fn new(alloc: Global) -> ByName<T>
        ensures { result ≡ [] }
    {
        ByName {
            things: Vec::new(alloc),
        }
    }

    /// Lets everything go with its bindings.
    pub(crate) fn clear(&mut self)
        ensures { self.new ≡ [] }
    {
        self.things.clear();
    }

    /// How many there are. Their names rise strictly by bytes.
    pub fn len(&self) -> usize
        ensures count { result ≡ length self.now }
        ensures rising { IsTrue (rises T.name_of self.now) }
    {
        self.things.len()
    }

    /// The one at a place, counted from 0 in rising order of name; None behind the last one.
    pub fn at(&self, place: usize) -> Option<&T>
        ensures { option_copied result ≡ slice_get self.now place }
    {
        match self.things.get(place) {
            Some(placed) => Some(&placed.thing),
            None => None,
        }
    }

    /// The one of a name is edited. It is made undeclared where it is absent.
    pub(crate) fn amend(
        &mut self,
        alloc: Global,
        name: ShortString,
        edit: T::Edit,
    ) -> Result<(), NoMemory>
        ensures ok { OnOk result (self.new ≡ amended T.name_of name (T.undeclared_of name) (T.edited edit) self.old) }
        ensures err { OnErr result (self.new ≡ self.old) }
    {
        match place_of(&self.things, name.as_str()) {
            Ok(place) => self.things[place].edit(edit),
            Err(place) => {
                let mut placed = Placed::undeclared(alloc, name)?;
                placed.edit(edit)?;
                self.things.insert(place, placed)?;
                Ok(())
            }
        }
    }

    /// The one of a name loses every binding that has this source, key and arguments.
    pub(crate) fn unbind(
        &mut self,
        name: &str,
        source: &str,
        routing_key: &str,
        arguments: &FieldTable,
    )
        ensures { self.new ≡ changed T.name_of name.now (T.unbound source.now routing_key.now arguments.now) self.old }
    {
        if let Ok(place) = place_of(&self.things, name) {
            self.things[place].unbind(source, routing_key, arguments);
        }
    }

    /// The one of a name is gone with its bindings.
    pub(crate) fn remove(&mut self, name: &str)
        ensures { self.new ≡ without T.name_of name.now self.old }
    {
        if let Ok(place) = place_of(&self.things, name) {
            drop(self.things.remove(place));
        }
    }
}
