//! Laws of RubyGems' versions, and rows worked by hand. Each is the contract of a function that does nothing.

ghost use Rattle.std.specs.Prelude.{◌≡◌, ◌∷◌, List, [], codes, false, is_some, IfSome, None, Some, ℕ};
ghost use Rattle.std.specs.declared.cmp.Ordering.TheVariants.{Equal, Greater, Less};
ghost use Rattle.version_order.specs.{Rules.ComparesByKeys, Viable.IsViable, keys.Codes.Writes};
ghost use Rattle.scheme_gem.specs.{Order.gem_bytes, Order.gem_cmp, Rules.gem_rules, Segments.Segment, Segments.canonical_cmp, Segments.entries_in, Segments.entries_of, Texts.gem_of, Texts.texts_cmp};

// Keys compare as the order does, whatever bytes follow them, and so do texts by their keys. No key is empty, and nothing
// is a beginning of a version. RubyGems' own comparison of segments is the order on entries.
fn laws()
    ensures writes { Writes gem_cmp gem_bytes }
    ensures compares { ComparesByKeys gem_rules }
    ensures some { (text : List ℕ) → IfSome (gem_rules.read_as text) (λ version. ¬ (version.key ≡ [])) }
    ensures nothing { IsViable (λ begun. is_some (gem_rules.read_as begun)) [] }
    ensures canonical { (a b : List Segment) → canonical_cmp a b ≡ gem_cmp (entries_of a) (entries_of b) }
{}

// Rows worked by hand.
fn rows()
    ensures prerelease { texts_cmp (codes "1.0.a") (codes "1.0") ≡ Some Less }
    ensures zeros { texts_cmp (codes "1.0") (codes "1") ≡ Some Equal }
    ensures zeros_before_letters { texts_cmp (codes "1.0.a") (codes "1.a") ≡ Some Equal }
    ensures zeros_after_letters { texts_cmp (codes "1.a.0.b") (codes "1.a.b") ≡ Some Greater }
    ensures zeros_at_end { texts_cmp (codes "1.a.0") (codes "1.a") ≡ Some Equal }
    ensures zeros_before_number { texts_cmp (codes "1.0.1") (codes "1.1") ≡ Some Less }
    ensures numbers { texts_cmp (codes "1.10") (codes "1.9") ≡ Some Greater }
    ensures leading_zeros { texts_cmp (codes "1.01") (codes "1.1") ≡ Some Equal }
    ensures letters { texts_cmp (codes "1.b") (codes "1.a1") ≡ Some Greater }
    ensures prefix { texts_cmp (codes "1.a") (codes "1.ab") ≡ Some Less }
    ensures letter_case { texts_cmp (codes "1.B") (codes "1.a") ≡ Some Less }
    ensures runs { texts_cmp (codes "1.a1") (codes "1.a.1") ≡ Some Equal }
    ensures hyphen { texts_cmp (codes "1-a") (codes "1.pre.a") ≡ Some Equal }
    ensures hyphens { texts_cmp (codes "1--a") (codes "1-a") ≡ Some Greater }
    ensures blanks { texts_cmp (codes " 1 ") (codes "1") ≡ Some Equal }
    ensures blank { gem_of (codes " ") ≡ None }
    ensures no_digit { gem_of (codes "a") ≡ None }
    ensures no_piece { gem_of (codes "1..2") ≡ None }
    ensures no_dot { gem_of (codes "1a") ≡ None }
    ensures early_hyphen { gem_of (codes "1.-a") ≡ None }
    ensures late_hyphen { gem_of (codes "1-") ≡ None }
    ensures blank_within { gem_of (codes "1 2") ≡ None }
    ensures key { gem_bytes (entries_in false (codes "2.0.1-0"))
        ≡ 5 ∷ 1 ∷ 50 ∷ 4 ∷ 5 ∷ 1 ∷ 49 ∷ 1 ∷ 112 ∷ 114 ∷ 101 ∷ 0 ∷ 3 ∷ [] }
{}

// A row worked by hand for each field before each later one.
fn fields()
    ensures first_before_later { texts_cmp (codes "1.2") (codes "2.1") ≡ Some Less }
    ensures number_before_letters { texts_cmp (codes "1.1") (codes "1.2.a") ≡ Some Less }
    ensures letters_before_number { texts_cmp (codes "1.a.2") (codes "1.b.1") ≡ Some Less }
    ensures letters_before_letters { texts_cmp (codes "1.a.b") (codes "1.b.a") ≡ Some Less }
{}
