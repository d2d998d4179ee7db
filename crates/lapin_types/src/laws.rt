//! Laws over these types, as public functions with an empty body: what such a function ensures always holds.

ghost use Rattle.std.specs.Prelude.{◌≡◌, true};
ghost use Rattle.lapin_types.specs.Ackers.{same_delivery};

use crate::acker::Acker;

/// An acker is `==` to itself.
pub fn acker_equality_is_reflexive(a: &Acker)
    ensures { same_delivery a.now a.now ≡ true }
{}

/// Where one acker is `==` to another, the other is `==` to it.
pub fn acker_equality_is_symmetric(a: &Acker, b: &Acker)
    ensures { same_delivery a.now b.now ≡ true → same_delivery b.now a.now ≡ true }
{}

/// Two ackers that are `==` to a third one in a row are `==` to each other.
pub fn acker_equality_is_transitive(a: &Acker, b: &Acker, c: &Acker)
    ensures { same_delivery a.now b.now ≡ true → same_delivery b.now c.now ≡ true → same_delivery a.now c.now ≡ true }
{}
