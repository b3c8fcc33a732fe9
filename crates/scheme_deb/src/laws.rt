//! Laws of Debian's versions, and rows worked by hand. Each is the contract of a function that does nothing.

ghost use Rattle.std.specs.Prelude.{◌≡◌, [], codes, is_some, IfSome, List, None, Some, ℕ};
ghost use Rattle.std.specs.declared.cmp.Ordering.TheVariants.{Equal, Greater, Less};
ghost use Rattle.version_order.specs.{Rules.ComparesByKeys, Viable.IsViable, keys.Codes.Writes};
ghost use Rattle.scheme_deb.specs.{Deb.deb_rules, Order.deb_bytes, Order.deb_cmp, Texts.deb_of, Texts.texts_cmp};

// Keys compare as the order does, whatever bytes follow them, and so do texts; no key is empty; and some text is a version.
#[tactic(auto, using(crate::specs::Laws::deb_writes, crate::specs::Laws::deb_compares, crate::specs::Laws::deb_some_key, crate::specs::Laws::deb_nothing))]
fn laws()
    ensures writes { Writes deb_cmp deb_bytes }
    ensures compares { ComparesByKeys deb_rules }
    ensures some { (text : List ℕ) → IfSome (deb_rules.read_as text) (λ v. ¬ (v.key ≡ [])) }
    ensures nothing { IsViable (λ begun. is_some (deb_rules.read_as begun)) [] }
{}

// Rows worked by hand.
fn rows()
    ensures tilde { texts_cmp (codes "1.0~rc1") (codes "1.0") ≡ Some Less }
    ensures end { texts_cmp (codes "1.0") (codes "1.0a") ≡ Some Less }
    ensures letters { texts_cmp (codes "1.0a") (codes "1.0+") ≡ Some Less }
    ensures numbers { texts_cmp (codes "1.10") (codes "1.9") ≡ Some Greater }
    ensures zeros { texts_cmp (codes "1.01") (codes "1.1") ≡ Some Equal }
    ensures revision { texts_cmp (codes "1.0") (codes "1.0-0") ≡ Some Equal }
    ensures epoch { texts_cmp (codes "1:0") (codes "9") ≡ Some Greater }
    ensures nothing { texts_cmp (codes "1.") (codes "1.0") ≡ Some Equal }
    ensures hyphen { texts_cmp (codes "1-2-3") (codes "1-2-4") ≡ Some Less }
    ensures wrong_epoch { deb_of (codes "a:1") ≡ None }
    ensures no_digit { deb_of (codes "a1") ≡ None }
    ensures no_revision { deb_of (codes "1-") ≡ None }
{}

// A row worked by hand for each field before each later one.
fn fields()
    ensures epoch_before_upstream { texts_cmp (codes "9") (codes "1:0") ≡ Some Less }
    ensures epoch_before_revision { texts_cmp (codes "1-2") (codes "1:1-1") ≡ Some Less }
    ensures upstream_before_revision { texts_cmp (codes "1.0-2") (codes "1.1-1") ≡ Some Less }
    ensures run_before_number { texts_cmp (codes "1a2-1") (codes "1b1-1") ≡ Some Less }
    ensures head_before_more { texts_cmp (codes "1.2") (codes "2.1") ≡ Some Less }
{}
