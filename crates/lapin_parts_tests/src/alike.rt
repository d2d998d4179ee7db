//! What is asked of a type whose values are copied and compared. It is asked over any type, so that nothing here looks into a value.
use lapin_types::NoMemory;
use std::alloc::Global;
use std::test::Fail;

/// A type whose values a test writes as words.
pub trait Alike: Drop {
    /// The value that the words say.
    fn made(alloc: Global, words: &str) -> Result<Self, Fail>;

    /// An equal value.
    fn copied(&self, alloc: Global) -> Result<Self, NoMemory>;

    /// Whether two values are the same.
    fn is_same(&self, other: &Self) -> bool;
}

/// Whether a copy of one value is the same as another.
pub fn is_alike<T: Alike>(alloc: Global, left: &str, right: &str) -> Result<bool, Fail> {
    let left = T::made(alloc, left)?;
    let right = T::made(alloc, right)?;
    let copy = left.copied(alloc)?;
    Ok(copy.is_same(&right))
}

/// Whether two values are equal by `==`.
pub fn is_equal<T: Alike + PartialEq>(
    alloc: Global,
    left: &str,
    right: &str,
) -> Result<bool, Fail> {
    let left = T::made(alloc, left)?;
    let right = T::made(alloc, right)?;
    Ok(left == right)
}

/// Puts a value in the place of another.
pub fn put<T: Drop>(place: &mut Option<T>, value: Option<T>) {
    *place = value;
}
