//! Whether two sets have anything in common, and whether one has all that the other has.

ghost use Rattle.std.specs.Prelude.{◌≡◌, List, false, true, ℕ};
ghost use Rattle.version_sets.specs.Form.{has, Rise};

use crate::form::Form;
use crate::merge::{Merge, Rule};

impl<'a> Form<'a> {
    ghost use Rattle.version_sets.specs.Set.{ends_of};

    /// Returns whether another set has all keys that it has.
    pub fn is_part_of(&self, other: &Form<'_>) -> bool
        ensures yes { result ≡ true → Rise (ends_of self.now) → Rise (ends_of other.now) → (key : List ℕ)
            → has (ends_of self.now) key ≡ true → has (ends_of other.now) key ≡ true }
        ensures no { result ≡ false → Rise (ends_of self.now) → Rise (ends_of other.now) → (key : List ℕ)
            × (has (ends_of self.now) key ≡ true) × (has (ends_of other.now) key ≡ false) }
    {
        Merge::of(Rule::FirstAlone, *self, *other).is_empty()
    }

    /// Returns whether a key is in both.
    pub fn meets(&self, other: &Form<'_>) -> bool
        ensures yes { result ≡ true → Rise (ends_of self.now) → Rise (ends_of other.now) → (key : List ℕ)
            × (has (ends_of self.now) key ≡ true) × (has (ends_of other.now) key ≡ true) }
        ensures no { result ≡ false → Rise (ends_of self.now) → Rise (ends_of other.now) → (key : List ℕ)
            → has (ends_of self.now) key ≡ true → has (ends_of other.now) key ≡ false }
    {
        !Merge::of(Rule::Both, *self, *other).is_empty()
    }
}
