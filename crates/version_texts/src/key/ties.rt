//! Texts whose keys tie.

ghost use Rattle.std.specs.Prelude.{◌≡◌, ◌<◌, ◌^◌, Some};
ghost use Rattle.std.specs.declared.cmp.Ordering.TheVariants.{Equal};
ghost use Rattle.version_rules.specs.{grammar.Versioning.versioning_kind, grammar.Versioning.PlainVersioning, grammar.Versioning.versioning_of, key.Key.key_of, key.Key.precedence, key.Key.key_tie_cmp};
ghost use Rattle.version_texts.specs.Order.{kind_on, kind_place, marked_number, texts_tie};

use crate::order::ties::{compare_general, compare_messy};
use std::cmp::Ordering;
use version_rules::Kind;

/// Compares two texts whose keys tie, by their kinds, as a sort by keys has them. Strict versions of one key are all
/// alike, and come first; others come as `Ord` has them. Reads two texts up to the part in which they differ. Does not
/// allocate.
pub fn compare_key_ties(kind: Kind, a: &[u8], other: Kind, b: &[u8]) -> Ordering
    ensures texts { result ≡ texts_tie (kind, a.now) (other, b.now) }

    // So two versions of these kinds compare, if their keys tie.
    ensures versions { (v w : PlainVersioning) → versioning_of a.now ≡ Some v
        → versioning_of b.now ≡ Some w → versioning_kind v ≡ kind → versioning_kind w ≡ other
        → precedence (key_of v) (key_of w) ≡ Equal → result ≡ key_tie_cmp v w }
{
    match (kind, other) {
        (Kind::General, Kind::General) => compare_general(a, b),
        (Kind::Complex, Kind::Complex) => compare_messy(a, b),
        _ => kind_place(kind).cmp(&kind_place(other)),
    }
}

// The place of a kind among the three.
fn kind_place(kind: Kind) -> u64
    ensures { result ≡ kind_place kind }
{
    match kind {
        Kind::Ideal => 0,
        Kind::General => 1,
        Kind::Complex => 2,
    }
}

/// Marks a kind on a number.
#[inline(always)]
pub fn mark_kind(number: u64, kind: Kind) -> u64
    requires { number < 2 ^ 62 }
    ensures number { marked_number result ≡ number }
    ensures kind { kind_on result ≡ kind }
{
    number * 4 + kind_place(kind)
}

/// Returns the number that a kind is marked on.
#[inline(always)]
pub fn marked_number(marked: u64) -> u64
    ensures { result ≡ marked_number marked }
{
    marked / 4
}

/// Returns the kind that is marked on a number.
#[inline(always)]
pub fn marked_kind(marked: u64) -> Kind
    ensures { result ≡ kind_on marked }
{
    match marked % 4 {
        0 => Kind::Ideal,
        1 => Kind::General,
        _ => Kind::Complex,
    }
}
