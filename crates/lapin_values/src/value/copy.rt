//! Copies of field values, arrays and tables: each equal to its source.

ghost use Rattle.std.specs.Prelude.{◌≡◌, IfOk};

use crate::memory::NoMemory;
use crate::text::ShortString;
use crate::value::{AMQPValue, FieldArray, FieldTable};
use std::alloc::{AllocError, Global};

impl AMQPValue {
    /// A value equal to this one.
    ///
    /// # Errors
    ///
    /// `NoMemory`.
    #[cycle(copy)]
    pub fn try_clone(&self, alloc: Global) -> Result<AMQPValue, NoMemory>
        ensures { IfOk result (λ copy. copy ≡ self.now) }
    {
        match self {
            AMQPValue::Boolean(x) => Ok(AMQPValue::Boolean(*x)),
            AMQPValue::ShortShortInt(x) => Ok(AMQPValue::ShortShortInt(*x)),
            AMQPValue::ShortShortUInt(x) => Ok(AMQPValue::ShortShortUInt(*x)),
            AMQPValue::ShortInt(x) => Ok(AMQPValue::ShortInt(*x)),
            AMQPValue::ShortUInt(x) => Ok(AMQPValue::ShortUInt(*x)),
            AMQPValue::LongInt(x) => Ok(AMQPValue::LongInt(*x)),
            AMQPValue::LongUInt(x) => Ok(AMQPValue::LongUInt(*x)),
            AMQPValue::LongLongInt(x) => Ok(AMQPValue::LongLongInt(*x)),
            AMQPValue::Timestamp(x) => Ok(AMQPValue::Timestamp(*x)),
            AMQPValue::LongString(x) => Ok(AMQPValue::LongString(x.try_clone(alloc)?)),
            AMQPValue::ByteArray(x) => Ok(AMQPValue::ByteArray(x.try_clone(alloc)?)),
            AMQPValue::FieldArray(x) => Ok(AMQPValue::FieldArray(x.try_clone(alloc)?)),
            AMQPValue::FieldTable(x) => Ok(AMQPValue::FieldTable(x.try_clone(alloc)?)),
            AMQPValue::Void => Ok(AMQPValue::Void),
        }
    }
}

impl FieldArray {
    /// An array equal to this one.
    ///
    /// # Errors
    ///
    /// `NoMemory`.
    #[cycle(copy)]
    pub fn try_clone(&self, alloc: Global) -> Result<FieldArray, NoMemory>
        ensures { IfOk result (λ copy. copy ≡ self.now) }
    {
        let mut items = Vec::new(alloc);
        for item in &self.items {
            items.push(item.try_clone(alloc)?)?;
        }
        Ok(FieldArray { items })
    }
}

impl FieldTable {
    /// A table equal to this one.
    ///
    /// # Errors
    ///
    /// `NoMemory`.
    #[cycle(copy)]
    pub fn try_clone(&self, alloc: Global) -> Result<FieldTable, NoMemory>
        ensures { IfOk result (λ copy. copy ≡ self.now) }
    {
        match &self.entries {
            Some(rows) => {
                let rows: &Vec<(ShortString, AMQPValue)> = rows;
                let mut entries = Vec::new(alloc);
                for entry in rows {
                    let key = entry.0.try_clone(alloc)?;
                    let value = entry.1.try_clone(alloc)?;
                    entries.push((key, value))?;
                }
                Ok(FieldTable {
                    entries: Some(Box::new(alloc, entries)?),
                })
            }
            None => Ok(FieldTable { entries: None }),
        }
    }
}

/// A clone takes its memory from where the table has its own.
impl Clone for FieldTable {
    ghost is_clone = { λ table copy. copy ≡ table };

    fn clone(&self) -> Result<FieldTable, AllocError> {
        let Some(entries) = &self.entries else {
            return Ok(FieldTable { entries: None });
        };
        match self.try_clone(*entries.allocator()) {
            Ok(copy) => Ok(copy),
            Err(NoMemory) => Err(AllocError),
        }
    }
}
