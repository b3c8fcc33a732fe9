//! Laws of Python's versions, and rows worked by hand. Each is the contract of a function that does nothing.

ghost use Rattle.std.specs.Prelude.{◌≡◌, [], codes, is_some, IfSome, List, None, Some, ℕ};
ghost use Rattle.std.specs.declared.cmp.Ordering.TheVariants.{Equal, Greater, Less};
ghost use Rattle.version_order.specs.{Rules.ComparesByKeys, Viable.IsViable, keys.Codes.Writes};
ghost use Rattle.scheme_pypi.specs.{Order.pypi_bytes, Order.pypi_cmp, Texts.pypi_of, Texts.pypi_rules, Texts.texts_cmp};

// Keys compare as the order does, whatever bytes follow them, and none is empty. No text is too short to go on.
#[tactic(auto, using(crate::specs::Laws::pypi_writes, crate::specs::Laws::pypi_compares, crate::specs::Laws::pypi_some_key, crate::specs::Laws::pypi_nothing))]
fn laws()
    ensures writes { Writes pypi_cmp pypi_bytes }
    ensures compares { ComparesByKeys pypi_rules }
    ensures some { (text : List ℕ) → IfSome (pypi_rules.read_as text) (λ version. ¬ (version.key ≡ [])) }
    ensures begins { IsViable (λ begun. is_some (pypi_rules.read_as begun)) [] }
{}

// Rows worked by hand: PEP 440's own order of one release, its spellings, and texts that are no versions.
#[tactic(auto, unfolding(crate::specs::Texts::joined, version_order::specs::texts::Front::optional, version_order::specs::texts::Front::repeated, version_order::specs::texts::Front::run_front))]
fn rows()
    ensures dev { texts_cmp (codes "1.0.dev456") (codes "1.0a1") ≡ Some Less }
    ensures alpha_dev { texts_cmp (codes "1.0a2.dev456") (codes "1.0a12.dev456") ≡ Some Less }
    ensures alpha { texts_cmp (codes "1.0a12.dev456") (codes "1.0a12") ≡ Some Less }
    ensures beta { texts_cmp (codes "1.0a12") (codes "1.0b1.dev456") ≡ Some Less }
    ensures beta_post { texts_cmp (codes "1.0b2") (codes "1.0b2.post345.dev456") ≡ Some Less }
    ensures candidate { texts_cmp (codes "1.0b2.post345") (codes "1.0rc1.dev456") ≡ Some Less }
    ensures release { texts_cmp (codes "1.0rc1") (codes "1.0") ≡ Some Less }
    ensures local { texts_cmp (codes "1.0") (codes "1.0+abc.5") ≡ Some Less }
    ensures pieces { texts_cmp (codes "1.0+abc.7") (codes "1.0+5") ≡ Some Less }
    ensures post_dev { texts_cmp (codes "1.0+5") (codes "1.0.post456.dev34") ≡ Some Less }
    ensures post { texts_cmp (codes "1.0.post456") (codes "1.1.dev1") ≡ Some Less }
    ensures epoch { texts_cmp (codes "1!0") (codes "9") ≡ Some Greater }
    ensures zeros { texts_cmp (codes "1.0.0") (codes "01") ≡ Some Equal }
    ensures words { texts_cmp (codes " v1.0-ALPHA_2 ") (codes "1.0a2") ≡ Some Equal }
    ensures nothing { texts_cmp (codes "1.0pre") (codes "1.0c0") ≡ Some Equal }
    ensures hyphen { texts_cmp (codes "1.0-1") (codes "1.0.rev1") ≡ Some Equal }
    ensures separators { texts_cmp (codes "1.0a-1") (codes "1.0a1") ≡ Some Equal }
    ensures last { texts_cmp (codes "1.0a-") (codes "1.0a0") ≡ Some Equal }
    ensures lower { texts_cmp (codes "1+A-b_01") (codes "1+a.b.1") ≡ Some Equal }
    ensures dot { pypi_of (codes "1.") ≡ None }
    ensures no_release { pypi_of (codes "1!") ≡ None }
    ensures order_of_words { pypi_of (codes "1.dev1.post1") ≡ None }
    ensures no_piece { pypi_of (codes "1+a..b") ≡ None }
    ensures inside { pypi_of (codes "1 .0") ≡ None }
    ensures empty { pypi_of (codes "") ≡ None }
{}

// A row worked by hand for each field before each later one.
#[tactic(auto, unfolding(crate::specs::Texts::joined, version_order::specs::texts::Front::optional, version_order::specs::texts::Front::repeated, version_order::specs::texts::Front::run_front))]
fn fields()
    ensures epoch_before_release { texts_cmp (codes "9") (codes "1!0") ≡ Some Less }
    ensures epoch_before_phase { texts_cmp (codes "1") (codes "1!1a1") ≡ Some Less }
    ensures epoch_before_post { texts_cmp (codes "1.post1") (codes "1!1") ≡ Some Less }
    ensures epoch_before_dev { texts_cmp (codes "1") (codes "1!1.dev1") ≡ Some Less }
    ensures epoch_before_local { texts_cmp (codes "1+b") (codes "1!1+a") ≡ Some Less }
    ensures release_before_phase { texts_cmp (codes "1.0") (codes "1.1a1") ≡ Some Less }
    ensures release_before_post { texts_cmp (codes "1.0.post1") (codes "1.1") ≡ Some Less }
    ensures release_before_dev { texts_cmp (codes "1.0") (codes "1.1.dev1") ≡ Some Less }
    ensures release_before_local { texts_cmp (codes "1.0+b") (codes "1.1+a") ≡ Some Less }
    ensures phase_before_post { texts_cmp (codes "1.0a1.post2") (codes "1.0a2.post1") ≡ Some Less }
    ensures phase_before_dev { texts_cmp (codes "1.0a1") (codes "1.0a2.dev1") ≡ Some Less }
    ensures phase_before_local { texts_cmp (codes "1.0a1+b") (codes "1.0a2+a") ≡ Some Less }
    ensures post_before_dev { texts_cmp (codes "1.0.post1") (codes "1.0.post2.dev1") ≡ Some Less }
    ensures post_before_local { texts_cmp (codes "1.0.post1+b") (codes "1.0.post2+a") ≡ Some Less }
    ensures dev_before_local { texts_cmp (codes "1.0.dev1+b") (codes "1.0.dev2+a") ≡ Some Less }
{}
