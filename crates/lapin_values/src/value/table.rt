//! What a field table does. Its entries stand in rising order of the names' bytes, so that a name is found
//! by halving and a table that is built in that order grows at its back.

ghost use Rattle.std.specs.Cmp.Lexicographic.{pointwise};
ghost use Rattle.std.specs.Prelude.{IfOk, vec_items, box_value, ◌∷◌, IsTrue, IfSome, ◌<◌, ◌≤◌, ◌≡◌, [], nat_eq, slice_index_or, length, option_map, slice_get, is_ok, map, if◌then◌else◌};
ghost use Rattle.lapin_values.specs.DataOf.{data_of, to_pair};
ghost use Rattle.lapin_values.specs.Data.{data_depth, table_depth};
ghost use Rattle.lapin_values.specs.Table.{IsRising, put, lookup, keys_below, rows};

use crate::memory::NoMemory;
use crate::text::ShortString;
use crate::value::{AMQPValue, FieldTable};
use std::alloc::Global;

impl FieldTable {
    /// The table of these entries.
    ///
    /// # Errors
    ///
    /// `NoMemory`.
    pub(crate) fn from_rows(
        alloc: Global,
        rows: Vec<(ShortString, AMQPValue)>,
    ) -> Result<FieldTable, NoMemory>
        requires { IsRising rows.items }
        ensures { IfOk result (λ table. table ≡ map to_pair rows.items) }
    {
        if rows.is_empty() {
            return Ok(FieldTable { entries: None });
        }
        Ok(FieldTable {
            entries: Some(Box::new(alloc, rows)?),
        })
    }

    /// A table of no entries. It takes no memory yet.
    pub fn new(_alloc: Global) -> FieldTable
        ensures { result ≡ [] }
    {
        FieldTable { entries: None }
    }

    /// A table of no entries.
    pub(crate) fn empty() -> FieldTable
        ensures { result ≡ [] }
    {
        FieldTable { entries: None }
    }

    /// The number of entries. Their names rise strictly by bytes.
    pub fn len(&self) -> usize
        ensures count { result ≡ length self.now }
        ensures rising { IsRising self.now }
    {
        rows_of(&self.entries).len()
    }

    /// The name and the value at a place, counted from 0 in rising order of the names' bytes; `None` from the
    /// length on. The value nests no deeper than the table.
    pub fn at(&self, place: usize) -> Option<(&ShortString, &AMQPValue)>
        ensures value { option_map (λ entry. (entry.0.now, data_of entry.1.now)) result ≡ slice_get self.now place }
        ensures inside { IfSome result (λ entry. data_depth (data_of entry.1.now) ≤ table_depth self.now) }
    {
        self.entry_at(place)
    }

    fn entry_at(&self, place: usize) -> Option<(&ShortString, &AMQPValue)>
        ensures { option_map (λ entry. (entry.0.now, data_of entry.1.now)) result ≡ slice_get self.now place }
    {
        match rows_of(&self.entries).get(place) {
            Some(entry) => Some((&entry.0, &entry.1)),
            None => None,
        }
    }

    /// The value of a name; `None` exactly where the table has no such name.
    pub fn get(&self, key: &str) -> Option<&AMQPValue>
        ensures { option_map (λ value. data_of value.now) result ≡ lookup key.now self.now }
    {
        find(rows_of(&self.entries), key)
    }

    /// Gives a name its value, in place of the one that it had.
    ///
    /// # Errors
    ///
    /// `NoMemory`; the table is then unchanged.
    pub fn insert(
        &mut self,
        alloc: Global,
        key: ShortString,
        value: AMQPValue,
    ) -> Result<(), NoMemory>
        ensures { self.new ≡ (if is_ok result then put key (data_of value) self.old else self.old) }
    {
        match &mut self.entries {
            Some(entries) => put_entry(entries, key, value),
            None => {
                self.entries = Some(one_entry(alloc, key, value)?);
                Ok(())
            }
        }
    }
}

/// The entries: none where the table has no memory yet.
fn rows_of(entries: &Option<Box<Vec<(ShortString, AMQPValue)>>>) -> &[(ShortString, AMQPValue)]
    ensures { result.now ≡ rows entries.now }
{
    match entries {
        Some(entries) => entries.as_slice(),
        None => &[],
    }
}

fn one_entry(
    alloc: Global,
    key: ShortString,
    value: AMQPValue,
) -> Result<Box<Vec<(ShortString, AMQPValue)>>, NoMemory>
    ensures { IfOk result (λ entries. vec_items (box_value entries) ≡ (key, value) ∷ []) }
{
    let mut entries = Vec::new(alloc);
    entries.push((key, value))?;
    Ok(Box::new(alloc, entries)?)
}

fn put_entry(
    entries: &mut Vec<(ShortString, AMQPValue)>,
    key: ShortString,
    value: AMQPValue,
) -> Result<(), NoMemory>
    requires { IsRising entries.old.items }
    ensures { entries.new.items ≡ (if is_ok result then put key value entries.old.items else entries.old.items) }
{
    let place = place_of(entries, key.as_str());
    put_at(entries, place, key, value)
}

/// Gives a name its value, whose place is known.
pub(crate) fn put_at(
    entries: &mut Vec<(ShortString, AMQPValue)>,
    place: usize,
    key: ShortString,
    value: AMQPValue,
) -> Result<(), NoMemory>
    requires { place ≡ keys_below key entries.old.items }
    ensures { entries.new.items ≡ (if is_ok result then put key value entries.old.items else entries.old.items) }
{
    if is_at(entries, place, key.as_str()) {
        let entry = &mut entries[place];
        entry.1 = value;
        return Ok(());
    }
    entries.insert(place, (key, value))?;
    Ok(())
}

fn find<'a>(entries: &'a [(ShortString, AMQPValue)], key: &str) -> Option<&'a AMQPValue>
    requires { IsRising entries.now }
    ensures { option_map (λ value. value.now) result ≡ lookup key.now entries.now }
{
    let place = place_of(entries, key);
    if is_at(entries, place, key) {
        Some(&entries[place].1)
    } else {
        None
    }
}

fn is_at(entries: &[(ShortString, AMQPValue)], place: usize, key: &str) -> bool
    ensures found { IsTrue result → place < length entries.now }
    ensures same { (d : _) → place < length entries.now → result ≡ pointwise nat_eq (slice_index_or entries.now place d).0 key.now }
{
    place < entries.len() && entries[place].0.as_str() == key
}

/// How many names are below a name: the place where it is, or where it belongs.
pub(crate) fn place_of(entries: &[(ShortString, AMQPValue)], key: &str) -> usize
    requires { IsRising entries.now }
    ensures below { result ≡ keys_below key.now entries.now }
    ensures within { result ≤ length entries.now }
{
    let mut low = 0;
    let mut high = entries.len();
    while low < high {
        let middle = low + (high - low) / 2;
        if entries[middle].0.as_str() < key {
            low = middle + 1;
        } else {
            high = middle;
        }
    }
    low
}
