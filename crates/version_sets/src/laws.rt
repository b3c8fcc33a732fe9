//! Laws of sets by their ends, and of their members. Each is the contract of a function that does nothing.

ghost use Rattle.std.specs.Prelude.{◌≡◌, Bool, List, false, length, ℕ};
ghost use Rattle.version_sets.specs.{Comparison.ends_with, Excluding.leave_out, Form.has, Form.AreMerged, Form.Rise, Pile.AreByOrder, Pile.merged, Reading.set_has, Reading.Member};

use version_order::SchemeVersion;

// Sets that hold the same keys have the same ends. What a rule makes of two sets, by which a key in neither is not in
// it, has the ends that their merge gives. In each order a comparison with a version holds what the order says of the
// two.
fn sets<'t, V: SchemeVersion<'t>>()
    ensures canonical { (one other : List (List ℕ)) → Rise one → Rise other
        → ((key : List ℕ) → has one key ≡ has other key) → one ≡ other }
    ensures merges { (rule : Bool → Bool → Bool) → rule false false ≡ false → (one other : List (List ℕ))
        → Rise one → Rise other → AreMerged rule one other (merged rule false false one other) }
    ensures by_order { (version other : V) → AreByOrder (V.order version other)
        (λ c. has (ends_with c (V.plain other)) (V.plain version).key) }
{}

// Where a set has not a key, each of its alternatives has a member that leaves it out.
#[tactic(auto, using(crate::proofs::lemmas::Excluding::all_out))]
fn members_out()
    ensures { (key : List ℕ) (all : List (List Member)) → set_has all key ≡ false
        → length (leave_out key all) ≡ length all }
{}
