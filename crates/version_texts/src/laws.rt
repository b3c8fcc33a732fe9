//! Laws of the definitions that contracts cite. Each is the contract of a function that does nothing. They say what each
//! answer to where two versions differ first means, by the keys of the two; that the shape of a version fits its text, off
//! which its key is read by it; and that the tests on the pieces of a text tell which grammar it spells.

ghost use Rattle.std.specs.Prelude.{◌&&◌, ◌↔◌, ◌≡◌, ◌⊎◌, is_some, suc, take, List, Some, ℕ};
ghost use Rattle.std.specs.{Option.option_map, declared.cmp.Ordering.TheVariants.Equal};
ghost use Rattle.version_rules.specs.{grammar.Mess.mess_of, grammar.SemVer.semver_of, grammar.Version.version_of, grammar.Versioning.PlainVersioning, grammar.Versioning.SameVersioning, grammar.Versioning.versioning_kind, grammar.Versioning.versioning_of, key.Key.key_of, key.Key.precedence};
ghost use Rattle.version_texts.specs.{Key.text_key, Order.difference_of, Scan.Fits, Scan.has_three_numbers, Scan.is_general, Scan.is_messy, Scan.kind_in, Scan.shape_at};
ghost use Rattle.version_texts.specs.declared.order.difference.Difference.TheVariants.{Epoch, Part, Same, Tail, Tie};

// Two versions are the same or tie exactly if precedence is Equal, and they are the same exactly if they are so apart
// from the metadata of strict versions. Versions of two keys differ first in their epochs if these are not the same. If
// they are, they differ first in the part n exactly if the first n parts of their bodies are the same and the first n + 1
// are not, and in their tails exactly if their bodies are the same and their tails are not. Whichever of two is named
// first, they differ first in the same place.
fn differences()
    ensures equal { (a b : PlainVersioning) → ((difference_of a b ≡ Same)
        ⊎ (difference_of a b ≡ Tie)) ↔ (precedence (key_of a) (key_of b) ≡ Equal) }
    ensures same { (a b : PlainVersioning) → (difference_of a b ≡ Same) ↔ SameVersioning a b }
    ensures tie { (a b : PlainVersioning) → (difference_of a b ≡ Tie)
        ↔ ((precedence (key_of a) (key_of b) ≡ Equal) × ¬ (SameVersioning a b)) }
    ensures epoch { (a b : PlainVersioning) → (difference_of a b ≡ Epoch)
        ↔ (¬ ((key_of a).epoch ≡ (key_of b).epoch)) }
    ensures part { (a b : PlainVersioning) (n : ℕ) → (difference_of a b ≡ Part n)
        ↔ (((key_of a).epoch ≡ (key_of b).epoch)
        × (take n (key_of a).body ≡ take n (key_of b).body)
        × ¬ (take (suc n) (key_of a).body ≡ take (suc n) (key_of b).body)) }
    ensures tail { (a b : PlainVersioning) → (difference_of a b ≡ Tail)
        ↔ (((key_of a).epoch ≡ (key_of b).epoch) × ((key_of a).body ≡ (key_of b).body)
        × ¬ ((key_of a).tail ≡ (key_of b).tail)) }
    ensures either_way { (a b : PlainVersioning) → difference_of a b ≡ difference_of b a }
{}

// The pieces that the shape of a version names lie in its text, and have only bytes of their kinds. The key of the
// version is the one that these pieces give.
fn keys()
    ensures fits { (text : List ℕ) (v : PlainVersioning) → versioning_of text ≡ Some v
        → Fits text (shape_at (versioning_kind v) text) }
    ensures key { (text : List ℕ) (v : PlainVersioning) → versioning_of text ≡ Some v
        → key_of v ≡ text_key text (shape_at (versioning_kind v) text) }
{}

// A text parses as a strict version exactly if its pieces are those of a general one, and its body is three numbers.
#[tactic(auto, using(crate::proofs::lemmas::scan::TextKind::strict_kind))]
fn strict_texts()
    ensures { (text : List ℕ) → is_some (semver_of text)
        ≡ (is_general text && has_three_numbers text) }
{}

// A text parses as a general version exactly if its pieces are those of one.
#[tactic(auto, using(crate::proofs::lemmas::scan::TextKind::general_kind))]
fn general_texts()
    ensures { (text : List ℕ) → is_some (version_of text) ≡ is_general text }
{}

// A text parses as a messy version exactly if it is runs of letters and digits with single dots and signs between.
#[tactic(auto, using(crate::proofs::lemmas::scan::Complex::mess_kind))]
fn messy_texts()
    ensures { (text : List ℕ) → is_some (mess_of text) ≡ is_messy text }
{}

// The kind of a text by its pieces is the kind of the version that it parses as, or None if it parses as none.
#[tactic(auto, using(crate::proofs::lemmas::scan::TextKind::kind_law))]
fn kinds()
    ensures { (text : List ℕ) → option_map versioning_kind (versioning_of text) ≡ kind_in text }
{}
