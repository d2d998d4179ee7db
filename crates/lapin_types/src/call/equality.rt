//! Whether two calls are equal.

ghost use Rattle.std.specs.Prelude.{◌≡◌};
ghost use Rattle.std.specs.Bool.{Decides};

use crate::call::Call;

impl Call {
    /// Whether two calls are equal in every field.
    #[tactic(auto, using(crate::proofs::CallAlike::call_alike))]
    pub fn same(&self, other: &Call) -> bool
        ensures { Decides result (self.now ≡ other.now) }
    {
        self == other
    }
}
