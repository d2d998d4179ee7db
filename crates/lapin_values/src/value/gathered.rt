//! A table while its entries come in, in whatever order: what it costs grows with their number and no faster, but for the halving of a
//! search. Names that rise are put at the back of a list; once a name belongs far from the back, a tree takes the list's place.

ghost use Rattle.std.specs.Prelude.{IfOk, OnOk, [], ◌≡◌, is_ok, if◌then◌else◌};
ghost use Rattle.lapin_values.specs.DataOf.{data_of};
ghost use Rattle.lapin_values.specs.Table.{IsRising, put};

use crate::memory::NoMemory;
use crate::text::ShortString;
use crate::value::table::{place_of, put_at};
use crate::value::{AMQPValue, FieldTable};
use std::alloc::Global;
use std::collections::BTreeMap;
use std::marker::Model;

/// Behind how many entries of a list an entry is still put in by moving them.
const NEAR: usize = 64;

/// A table that is being gathered, entry by entry. A contract sees it as the list of its pairs so far, in rising order of the names'
/// bytes.
pub struct GatheredTable {
    rising: Vec<(ShortString, AMQPValue)>,
    sorted: Option<BTreeMap<ShortString, AMQPValue>>,
}

impl Drop for GatheredTable {
    fn drop(self) {
        let GatheredTable {
            rising: _,
            sorted: _,
        } = self;
    }
}

impl Model for GatheredTable {
    ghost use Rattle.std.specs.Prelude.{ℕ, List, map};
    ghost use Rattle.lapin_values.specs.Data.{Data};
    ghost use Rattle.lapin_values.specs.DataCode.{table_code};
    ghost use Rattle.lapin_values.specs.DataOf.{to_pair};
    ghost use Rattle.lapin_values.specs.Table.{IsRising, gathered};

    ghost Value = { List (List ℕ × Data) };

    ghost coded = { table_code };

    ghost view = { λ t. map to_pair (gathered t.rising t.sorted) };

    ghost invariant = { λ t. IsRising (gathered t.rising t.sorted) };
}

impl GatheredTable {
    /// No entries yet, and no memory.
    pub fn new(alloc: Global) -> GatheredTable
        ensures { result ≡ [] }
    {
        GatheredTable {
            rising: Vec::new(alloc),
            sorted: None,
        }
    }

    /// Gives a name its value, in place of the one that it had. It costs the halvings of a search, whatever the name.
    ///
    /// # Errors
    ///
    /// `NoMemory`; what was gathered may then be lost.
    pub fn insert(
        &mut self,
        alloc: Global,
        key: ShortString,
        value: AMQPValue,
    ) -> Result<(), NoMemory>
        ensures { OnOk result (self.new ≡ put key (data_of value) self.old) }
    {
        match &mut self.sorted {
            Some(tree) => put_sorted(tree, key, value),
            None => {
                let place = place_of(&self.rising, key.as_str());
                if self.rising.len() - place <= NEAR {
                    return put_at(&mut self.rising, place, key, value);
                }
                let rows = std::mem::replace(&mut self.rising, Vec::new(alloc));
                self.sorted = Some(sorted_with(alloc, rows, key, value)?);
                Ok(())
            }
        }
    }

    /// The table of these entries.
    ///
    /// # Errors
    ///
    /// `NoMemory`.
    pub fn into_table(self, alloc: Global) -> Result<FieldTable, NoMemory>
        ensures { IfOk result (λ table. table ≡ self) }
    {
        let GatheredTable { rising, sorted } = self;
        match sorted {
            Some(tree) => FieldTable::from_rows(alloc, in_order(alloc, tree)?),
            None => FieldTable::from_rows(alloc, rising),
        }
    }
}

fn put_sorted(
    tree: &mut BTreeMap<ShortString, AMQPValue>,
    key: ShortString,
    value: AMQPValue,
) -> Result<(), NoMemory>
    ensures either { tree.new.entries ≡ (if is_ok result then put key value tree.old.entries else tree.old.entries) }
    ensures ok { OnOk result (tree.new.entries ≡ put key value tree.old.entries) }
{
    match tree.insert(key, value) {
        Ok(old) => {
            drop(old);
            Ok(())
        }
        Err(failed) => {
            drop(failed);
            Err(NoMemory)
        }
    }
}

// The entries of a list as a tree, and one more.
fn sorted_with(
    alloc: Global,
    rows: Vec<(ShortString, AMQPValue)>,
    key: ShortString,
    value: AMQPValue,
) -> Result<BTreeMap<ShortString, AMQPValue>, NoMemory>
    requires { IsRising rows.items }
    ensures { IfOk result (λ tree. tree.entries ≡ put key value rows.items) }
{
    let mut tree = sorted(alloc, rows)?;
    put_sorted(&mut tree, key, value)?;
    Ok(tree)
}

// The entries of a list as a tree.
fn sorted(
    alloc: Global,
    mut rows: Vec<(ShortString, AMQPValue)>,
) -> Result<BTreeMap<ShortString, AMQPValue>, NoMemory>
    requires { IsRising rows.items }
    ensures { IfOk result (λ tree. tree.entries ≡ rows.items) }
{
    let mut tree = BTreeMap::new(alloc);
    while let Some((key, value)) = rows.pop() {
        put_sorted(&mut tree, key, value)?;
    }
    Ok(tree)
}

// The entries of a tree as a list.
fn in_order(
    alloc: Global,
    tree: BTreeMap<ShortString, AMQPValue>,
) -> Result<Vec<(ShortString, AMQPValue)>, NoMemory>
    ensures { IfOk result (λ rows. rows.items ≡ tree.entries) }
{
    let mut rows = Vec::new(alloc);
    for entry in tree {
        rows.push(entry)?;
    }
    Ok(rows)
}
