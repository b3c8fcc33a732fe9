//! Laws of SemVer's versions, and rows worked by hand. Each is the contract of a function that does nothing.

ghost use Rattle.std.specs.Prelude.{◌≡◌, List, [], codes, is_some, IfSome, None, Some, ℕ};
ghost use Rattle.std.specs.declared.cmp.Ordering.TheVariants.{Equal, Greater, Less};
ghost use Rattle.version_order.specs.{Rules.ComparesByKeys, Viable.IsViable, keys.Codes.Writes};
ghost use Rattle.version_rules.specs.order.Kinds.{semver_cmp};
ghost use Rattle.scheme_semver.specs.{Order.semver_bytes, Rules.semver_rules, Texts.semver_of, Texts.texts_cmp};

// Keys compare as the order does, whatever bytes follow them, and so do texts by their keys. No key is empty, and nothing
// is a beginning of a version.
fn laws()
    ensures writes { Writes semver_cmp semver_bytes }
    ensures compares { ComparesByKeys semver_rules }
    ensures some { (text : List ℕ) → IfSome (semver_rules.read_as text) (λ version. ¬ (version.key ≡ [])) }
    ensures nothing { IsViable (λ begun. is_some (semver_rules.read_as begun)) [] }
{}

// The rows of item 11, and texts that are none.
fn rows()
    ensures alpha { texts_cmp (codes "1.0.0-alpha") (codes "1.0.0-alpha.1") ≡ Some Less }
    ensures words { texts_cmp (codes "1.0.0-alpha.1") (codes "1.0.0-alpha.beta") ≡ Some Less }
    ensures beta { texts_cmp (codes "1.0.0-alpha.beta") (codes "1.0.0-beta") ≡ Some Less }
    ensures numbers { texts_cmp (codes "1.0.0-beta.11") (codes "1.0.0-beta.2") ≡ Some Greater }
    ensures release { texts_cmp (codes "1.0.0-rc.1") (codes "1.0.0") ≡ Some Less }
    ensures metadata { texts_cmp (codes "1.0.0+a-b") (codes "1.0.0+001") ≡ Some Equal }
    ensures large { texts_cmp (codes "1.0.99999999999999999999") (codes "1.1.0") ≡ Some Less }
    ensures two { semver_of (codes "1.0") ≡ None }
    ensures zero { semver_of (codes "1.0.0-01") ≡ None }
    ensures word { texts_cmp (codes "1.0.0-0a") (codes "1.0.0-00-") ≡ Some Greater }
    ensures hyphen { texts_cmp (codes "1.0.0--1") (codes "1.0.0-1") ≡ Some Greater }
    ensures leading { semver_of (codes "1.02.0") ≡ None }
    ensures four { semver_of (codes "1.0.0.0") ≡ None }
    ensures prefix { semver_of (codes "v1.0.0") ≡ None }
    ensures empty { semver_of (codes "1.0.0-a..b") ≡ None }
    ensures no_pre_release { semver_of (codes "1.0.0-") ≡ None }
    ensures no_metadata { semver_of (codes "1.0.0+") ≡ None }
{}

// A row worked by hand for each field before each later one.
fn fields()
    ensures major_before_minor { texts_cmp (codes "1.2.0") (codes "2.1.0") ≡ Some Less }
    ensures major_before_patch { texts_cmp (codes "1.0.2") (codes "2.0.1") ≡ Some Less }
    ensures major_before_pre_release { texts_cmp (codes "1.0.0") (codes "2.0.0-a") ≡ Some Less }
    ensures minor_before_patch { texts_cmp (codes "1.1.2") (codes "1.2.1") ≡ Some Less }
    ensures minor_before_pre_release { texts_cmp (codes "1.1.0") (codes "1.2.0-a") ≡ Some Less }
    ensures patch_before_pre_release { texts_cmp (codes "1.0.1") (codes "1.0.2-a") ≡ Some Less }
{}
