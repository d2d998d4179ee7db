//! What a field array does: it grows at its back and is read by place.

ghost use Rattle.std.specs.Prelude.{IfSome, ◌≤◌, ◌≡◌, [], ◌∷◌, ◌++◌, length, option_map, slice_get, is_ok, if◌then◌else◌};
ghost use Rattle.lapin_values.specs.DataOf.{data_of};
ghost use Rattle.lapin_values.specs.Data.{data_depth, array_depth};

use crate::memory::NoMemory;
use crate::value::{AMQPValue, FieldArray};
use std::alloc::Global;

impl FieldArray {
    /// An array of no values. It takes no memory yet.
    pub fn new(alloc: Global) -> FieldArray
        ensures { result ≡ [] }
    {
        FieldArray {
            items: Vec::new(alloc),
        }
    }

    /// The number of values.
    pub fn len(&self) -> usize
        ensures { result ≡ length self.now }
    {
        self.items.len()
    }

    /// The value at a place, counted from 0; `None` from the length on. It nests no deeper than the array.
    pub fn at(&self, place: usize) -> Option<&AMQPValue>
        ensures value { option_map (λ item. data_of item.now) result ≡ slice_get self.now place }
        ensures inside { IfSome result (λ item. data_depth (data_of item.now) ≤ array_depth self.now) }
    {
        self.item_at(place)
    }

    fn item_at(&self, place: usize) -> Option<&AMQPValue>
        ensures { option_map (λ item. data_of item.now) result ≡ slice_get self.now place }
    {
        self.items.get(place)
    }

    /// Appends a value.
    ///
    /// # Errors
    ///
    /// `NoMemory`; the array is then unchanged.
    pub fn push(&mut self, _alloc: Global, value: AMQPValue) -> Result<(), NoMemory>
        ensures { self.new ≡ (if is_ok result then self.old ++ data_of value ∷ [] else self.old) }
    {
        self.items.push(value)?;
        Ok(())
    }
}
