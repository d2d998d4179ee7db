//! Values of which many in a row are alike, so that two bits tell one of them from the others.
//!
//! `Packed` is built on it. Which values have a mark is the value's own; that a mark gives its value back is told here.

ghost use Rattle.std.specs.Prelude.{◌≡◌, ◌<◌, ℕ, Option, Some};

/// A value that may have one of the marks 1 to 3 among others that agree with it in something.
pub trait Marked: Copy {
    // The value that a mark stands for among those that agree in this.
    ghost told_by: { ℕ → ℕ → Option Self };

    // The mark of a value among those that agree in this, and 0 where it has none.
    ghost mark_of: { ℕ → Self → ℕ };

    /// In what others have to agree with the value so that it has a mark among them. It decides no more than where there is a mark.
    fn alike(self) -> u16;

    /// The mark of the value among those that agree in this, 1 to 3, and 0 where it has none.
    fn mark(self, alike: u16) -> u8
        ensures mark { result ≡ mark_of alike self }
        ensures few { result < 4 }
        ensures told { 0 < result → told_by alike result ≡ Some self };

    /// The value that a mark stands for among those that agree in this.
    fn told(alike: u16, mark: u8) -> Option<Self>
        ensures { result ≡ told_by alike mark };
}
