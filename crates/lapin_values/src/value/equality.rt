//! Equality of field values, arrays and tables: all parts are equal. The functions that call one another
//! stand apart from the impls, which only name them.

ghost use Rattle.std.specs.Prelude.{◌≡◌};
ghost use Rattle.std.specs.Bool.{Decides};

use crate::text::ShortString;
use crate::value::{AMQPValue, FieldArray, FieldTable};

#[cycle(equal)]
fn same_value(a: &AMQPValue, b: &AMQPValue) -> bool
    ensures { Decides result (a.now ≡ b.now) }
{
    match (a, b) {
        (AMQPValue::Boolean(x), AMQPValue::Boolean(y)) => x == y,
        (AMQPValue::ShortShortInt(x), AMQPValue::ShortShortInt(y)) => x == y,
        (AMQPValue::ShortShortUInt(x), AMQPValue::ShortShortUInt(y)) => x == y,
        (AMQPValue::ShortInt(x), AMQPValue::ShortInt(y)) => x == y,
        (AMQPValue::ShortUInt(x), AMQPValue::ShortUInt(y)) => x == y,
        (AMQPValue::LongInt(x), AMQPValue::LongInt(y)) => x == y,
        (AMQPValue::LongUInt(x), AMQPValue::LongUInt(y)) => x == y,
        (AMQPValue::LongLongInt(x), AMQPValue::LongLongInt(y)) => x == y,
        (AMQPValue::Timestamp(x), AMQPValue::Timestamp(y)) => x == y,
        (AMQPValue::LongString(x), AMQPValue::LongString(y)) => x == y,
        (AMQPValue::ByteArray(x), AMQPValue::ByteArray(y)) => x == y,
        (AMQPValue::FieldArray(x), AMQPValue::FieldArray(y)) => same_array(x, y),
        (AMQPValue::FieldTable(x), AMQPValue::FieldTable(y)) => same_table(x, y),
        (AMQPValue::Void, AMQPValue::Void) => true,
        _ => false,
    }
}

#[cycle(equal)]
fn same_array(a: &FieldArray, b: &FieldArray) -> bool
    ensures { Decides result (a.now ≡ b.now) }
{
    same_items(&a.items, &b.items)
}

#[cycle(equal)]
fn same_items(a: &[AMQPValue], b: &[AMQPValue]) -> bool
    ensures { Decides result (a.now ≡ b.now) }
{
    if a.len() != b.len() {
        return false;
    }
    for i in 0..a.len() {
        if !same_value(&a[i], &b[i]) {
            return false;
        }
    }
    true
}

#[cycle(equal)]
fn same_table(a: &FieldTable, b: &FieldTable) -> bool
    ensures { Decides result (a.now ≡ b.now) }
{
    match (&a.entries, &b.entries) {
        (Some(x), Some(y)) => same_entries(x, y),
        (Some(x), None) => x.is_empty(),
        (None, Some(y)) => y.is_empty(),
        (None, None) => true,
    }
}

#[cycle(equal)]
fn same_entries(a: &[(ShortString, AMQPValue)], b: &[(ShortString, AMQPValue)]) -> bool
    ensures { Decides result (a.now ≡ b.now) }
{
    if a.len() != b.len() {
        return false;
    }
    for i in 0..a.len() {
        if a[i].0 != b[i].0 {
            return false;
        }
        if !same_value(&a[i].1, &b[i].1) {
            return false;
        }
    }
    true
}

impl AMQPValue {
    /// Whether two values are of one type and equal.
    pub fn same(&self, other: &AMQPValue) -> bool
        ensures { Decides result (self.now ≡ other.now) }
    {
        same_value(self, other)
    }
}

impl FieldArray {
    /// Whether two arrays hold equal values in one order.
    pub fn same(&self, other: &FieldArray) -> bool
        ensures { Decides result (self.now ≡ other.now) }
    {
        same_array(self, other)
    }
}

impl FieldTable {
    /// Whether two tables have the same names with equal values.
    pub fn same(&self, other: &FieldTable) -> bool
        ensures { Decides result (self.now ≡ other.now) }
    {
        same_table(self, other)
    }
}

impl PartialEq for AMQPValue {
    ghost use Rattle.lapin_values.specs.Same.{same_by, same_by_per};
    ghost use Rattle.lapin_values.specs.contracts.value.AMQPValue as value;

    ghost eq = { same_by value.the_row.coded };

    ghost laws = { same_by_per value.the_row.coded };

    fn eq(&self, other: &AMQPValue) -> bool {
        same_value(self, other)
    }
}

impl PartialEq for FieldArray {
    ghost use Rattle.lapin_values.specs.Same.{same_by, same_by_per};
    ghost use Rattle.lapin_values.specs.DataCode.{array_code};

    ghost eq = { same_by array_code };

    ghost laws = { same_by_per array_code };

    fn eq(&self, other: &FieldArray) -> bool {
        same_array(self, other)
    }
}

impl PartialEq for FieldTable {
    ghost use Rattle.lapin_values.specs.Same.{same_by, same_by_per};
    ghost use Rattle.lapin_values.specs.DataCode.{table_code};

    ghost eq = { same_by table_code };

    ghost laws = { same_by_per table_code };

    fn eq(&self, other: &FieldTable) -> bool {
        same_table(self, other)
    }
}
