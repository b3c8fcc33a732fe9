//! Laws of RPM's versions, and rows worked by hand. Each is the contract of a function that does nothing.

ghost use Rattle.std.specs.Prelude.{◌≡◌, [], codes, is_some, IfSome, List, None, Some, ℕ};
ghost use Rattle.std.specs.declared.cmp.Ordering.TheVariants.{Equal, Greater, Less};
ghost use Rattle.version_order.specs.{Rules.ComparesByKeys, Viable.IsViable, keys.Codes.Writes};
ghost use Rattle.scheme_rpm.specs.{Order.rpm_bytes, Order.rpm_cmp, Rpm.rpm_rules, Texts.rpm_of, Texts.texts_cmp};

// Keys compare as the order does, whatever bytes follow them, and so do texts; no key is empty; and some text is a version.
#[tactic(auto, using(crate::specs::Laws::rpm_writes, crate::specs::Laws::rpm_compares, crate::specs::Laws::rpm_some_key, crate::specs::Laws::rpm_nothing))]
fn laws()
    ensures writes { Writes rpm_cmp rpm_bytes }
    ensures compares { ComparesByKeys rpm_rules }
    ensures some { (text : List ℕ) → IfSome (rpm_rules.read_as text) (λ v. ¬ (v.key ≡ [])) }
    ensures nothing { IsViable (λ begun. is_some (rpm_rules.read_as begun)) [] }
{}

// Rows worked by hand.
fn rows()
    ensures tilde { texts_cmp (codes "1.0~rc1") (codes "1.0") ≡ Some Less }
    ensures caret { texts_cmp (codes "1.0^git1") (codes "1.0") ≡ Some Greater }
    ensures below_more { texts_cmp (codes "1.0^git1") (codes "1.0.1") ≡ Some Less }
    ensures numbers { texts_cmp (codes "1.10") (codes "1.9") ≡ Some Greater }
    ensures letters { texts_cmp (codes "1.a") (codes "1.1") ≡ Some Less }
    ensures separators { texts_cmp (codes "1_0+") (codes "1.0") ≡ Some Equal }
    ensures apart { texts_cmp (codes "1a") (codes "1.a") ≡ Some Equal }
    ensures zeros { texts_cmp (codes "1.01") (codes "1.1") ≡ Some Equal }
    ensures release { texts_cmp (codes "1.0") (codes "1.0-0") ≡ Some Less }
    ensures epoch { texts_cmp (codes "1:0") (codes "9") ≡ Some Greater }
    ensures longer { texts_cmp (codes "1.0a") (codes "1.0ab") ≡ Some Less }
    ensures end { texts_cmp (codes "1.0") (codes "1.0a") ≡ Some Less }
    ensures epoch_zeros { texts_cmp (codes "01:1") (codes "1:1") ≡ Some Equal }
    ensures no_epoch { texts_cmp (codes "0:1") (codes "1") ≡ Some Equal }
    ensures two_hyphens { rpm_of (codes "1-2-3") ≡ None }
    ensures no_release { rpm_of (codes "1-") ≡ None }
    ensures no_version { rpm_of (codes "-1") ≡ None }
    ensures wrong_epoch { rpm_of (codes "a:1") ≡ None }
    ensures large_epoch { rpm_of (codes "4294967296:1") ≡ None }
    ensures wrong_byte { rpm_of (codes "1 0") ≡ None }
{}

// A row worked by hand for each field before each later one.
fn fields()
    ensures epoch_before_version { texts_cmp (codes "9") (codes "1:0") ≡ Some Less }
    ensures epoch_before_release { texts_cmp (codes "1-2") (codes "1:1-1") ≡ Some Less }
    ensures version_before_release { texts_cmp (codes "1.0-2") (codes "1.1-1") ≡ Some Less }
{}
