//! Laws of sorted texts, and of sets in the order of all versions. Each is the contract of a function that does nothing.

ghost use Rattle.std.specs.Prelude.{ℕ, ◌≡◌, ◌↔◌, List, not, true};
ghost use Rattle.std.specs.declared.cmp.Ordering.TheVariants.{Less};
ghost use Rattle.version_rules.specs.{grammar.Versioning.PlainVersioning, key.Key.key_of, key.Key.precedence, requirement.Range.but_last_or_only, requirement.Range.through_other};
ghost use Rattle.version_schemes.specs.declared.scheme.Scheme.{Scheme};
ghost use Rattle.version_sets.specs.{Comparison.ends_with, Form.has, Pile.BeginsWith};
ghost use Rattle.version_sets.specs.declared.read.comparison.Comparison.TheVariants.{Caret, NotPrefix, Prefix, Tilde};
ghost use Rattle.version_texts.specs.Mixed.{mixed};
ghost use Rattle.versions_c.specs.Sorting.{AreInOrder};

// Texts have only one order in a scheme: everything that sorts their places as `versions_sort` does writes the same.
fn sorting()
    ensures only { (scheme : Scheme) (texts offsets order other : List ℕ) → AreInOrder scheme texts offsets order
        → AreInOrder scheme texts offsets other → other ≡ order }
{}

// In the order of all versions, `.*` holds what has the epoch and begins with the parts of a version, or all else. `~`
// and `^` hold what isn't before a version, has its epoch, and begins with some of its parts.
fn series()
    ensures prefix { (other version : PlainVersioning)
        → (has (ends_with Prefix (mixed other)) (mixed version).key ≡ true)
        ↔ BeginsWith (key_of other).epoch (key_of other).body (key_of version) }
    ensures not_prefix { (other version : PlainVersioning)
        → has (ends_with NotPrefix (mixed other)) (mixed version).key
        ≡ not (has (ends_with Prefix (mixed other)) (mixed version).key) }
    ensures tilde { (other version : PlainVersioning)
        → (has (ends_with Tilde (mixed other)) (mixed version).key ≡ true)
        ↔ ((¬ (precedence (key_of version) (key_of other) ≡ Less))
        × BeginsWith (key_of other).epoch (but_last_or_only (key_of other).body) (key_of version)) }
    ensures caret { (other version : PlainVersioning)
        → (has (ends_with Caret (mixed other)) (mixed version).key ≡ true)
        ↔ ((¬ (precedence (key_of version) (key_of other) ≡ Less))
        × BeginsWith (key_of other).epoch (through_other (key_of other).body) (key_of version)) }
{}
