//! Laws of all schemes: the contract of a function that does nothing.

ghost use Rattle.std.specs.Prelude.{◌≡◌, [], IfSome, List, Some, is_some, map, ℕ};
ghost use Rattle.std.specs.{Cmp.IsTotalOrder, Option.option_cmp};
ghost use Rattle.version_rules.specs.{grammar.Versioning.versioning_of, order.Orders.versioning_cmp};
ghost use Rattle.version_schemes.specs.{Scheme.names, Scheme.rules, Scheme.scheme_named, any.Order.any_cmp, any.Order.any_of, any.Order.any_precedence, declared.scheme.Scheme.Scheme, declared.scheme.Scheme.TheVariants.Mixed};
ghost use Rattle.version_order.specs.{Facts.key_room, Keyed.AreWithin, Rules.ComparesByKeys, Rules.compared, Viable.IsViable};

// What holds of each scheme.
fn schemes()
    // Texts compare by its own words as the bytes of their keys do: so the order is one total preorder.
    ensures orders { (scheme : Scheme) → ComparesByKeys (rules scheme) }
    // It is found by each of its names, so that no two share one.
    ensures names { (scheme : Scheme) → map scheme_named (names scheme) ≡ map (λ _. Some scheme) (names scheme) }
    // No key is empty, and no end of a version has more than a byte more than it says of keys.
    ensures keys { (scheme : Scheme) (text : List ℕ) → IfSome ((rules scheme).read_as text) (λ v. ¬ (v.key ≡ [])) }
    ensures bounds { (scheme : Scheme) → AreWithin (rules scheme).read_as (key_room (rules scheme).facts) }
    // The empty text may become a version of it.
    ensures nothing { (scheme : Scheme) → IsViable (λ begun. is_some ((rules scheme).read_as begun)) [] }
    // Versions of any scheme have one order, which in each scheme is that of its words, and for the scheme mixed that
    // of all versions.
    ensures total { IsTotalOrder any_cmp }
    ensures words { (scheme : Scheme) (one other : List ℕ)
        → compared (any_of scheme) any_precedence one other ≡ (rules scheme).texts_cmp one other }
    ensures mixed { (one other : List ℕ) → option_cmp any_cmp (any_of Mixed one) (any_of Mixed other)
        ≡ option_cmp versioning_cmp (versioning_of one) (versioning_of other) }
{}
