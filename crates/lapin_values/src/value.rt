//! Field values, arrays and tables (AMQP 0-9-1, section 4.2.5.5): what arguments of methods and the headers
//! of a message hold. The three types stand here, since each may hold the others; their calls stand in the
//! modules below, by type. How deep values may nest is no rule of this crate: it is one of the text.

use crate::payload::Payload;
use crate::text::{LongString, ShortString};
use std::marker::Model;

mod array;
mod copy;
mod equality;
pub mod gathered;
mod table;

/// One field value, of one of the types that the protocol's tables know.
#[cycle(value)]
#[derive(Drop)]
pub enum AMQPValue {
    Boolean(bool),
    ShortShortInt(i8),
    ShortShortUInt(u8),
    ShortInt(i16),
    ShortUInt(u16),
    LongInt(i32),
    LongUInt(u32),
    LongLongInt(i64),
    /// Seconds since 1970-01-01 00:00:00 UTC (AMQP 0-9-1, section 4.2.5.4).
    Timestamp(u64),
    LongString(LongString),
    ByteArray(Payload),
    FieldArray(FieldArray),
    FieldTable(FieldTable),
    /// No value.
    Void,
}

/// A list of field values, in the order in which they were pushed. A contract sees it as the list of their
/// trees, each a value of `Data`.
#[cycle(value)]
pub struct FieldArray {
    items: Vec<AMQPValue>,
}

impl Drop for FieldArray {
    #[cycle(let_go)]
    fn drop(self) {
        let FieldArray { items: _ } = self;
    }
}

impl Model for FieldArray {
    ghost use Rattle.std.specs.Prelude.{List, map};
    ghost use Rattle.lapin_values.specs.Data.{Data, array_depth};
    ghost use Rattle.lapin_values.specs.DataCode.{array_code};

    ghost Value = { List Data };

    ghost coded = { array_code };

    ghost use Rattle.lapin_values.specs.DataOf.{data_of};

    ghost view = { λ a. map data_of a.items.items };

    ghost size = { array_depth };

    ghost use Rattle.lapin_values.specs.Falls.{array_falls};

    ghost size_decreases = { λ a h. array_falls a.items.items };
}

/// A table of field values by name, with at most one value a name. A contract sees it as the list of its
/// pairs, in rising order of the names' bytes. It is two words wide, since properties, which hold one, are handed on by value; a table
/// with no entries takes no memory.
#[cycle(value)]
pub struct FieldTable {
    entries: Option<Box<Vec<(ShortString, AMQPValue)>>>,
}

impl Drop for FieldTable {
    #[cycle(let_go)]
    fn drop(self) {
        let FieldTable { entries: _ } = self;
    }
}

impl Model for FieldTable {
    ghost use Rattle.std.specs.Prelude.{ℕ, List, map};
    ghost use Rattle.lapin_values.specs.Data.{Data, table_depth};
    ghost use Rattle.lapin_values.specs.DataCode.{table_code};

    ghost Value = { List (List ℕ × Data) };

    ghost coded = { table_code };

    ghost use Rattle.lapin_values.specs.DataOf.{to_pair};
    ghost use Rattle.lapin_values.specs.Table.{IsRising, rows};

    ghost view = { λ t. map to_pair (rows t.entries) };

    ghost invariant = { λ t. IsRising (rows t.entries) };

    ghost size = { table_depth };

    ghost use Rattle.lapin_values.specs.Falls.{boxed_falls};

    ghost size_decreases = { λ a h. boxed_falls a.entries };
}
