//! The order of versions, read off their texts up to the first difference. Nothing here allocates.

ghost use Rattle.std.specs.Prelude.{◌≡◌, ◌<◌};
ghost use Rattle.std.specs.{Ordering.nat_cmp, Str.Parse.digits_value};
ghost use Rattle.version_rules.specs.key.Key.{precedence, tail_cmp};
ghost use Rattle.version_texts.specs.{Key.tail_of, Key.text_key, Scan.Fits, Scan.epoch_in, Scan.tail_in};

pub(crate) mod difference;
pub(crate) mod list;
pub(crate) mod part;
pub(crate) mod ties;

use crate::key::{body_at, epoch_at, tail_at};
use crate::order::list::{compare_parts, compare_sections};
use crate::scan::shape::{Shape, TailKind};
use std::cmp::Ordering;
use version_order::compare_numbers;
use version_pieces::compare_releases;

/// Compares two versions by their texts, part by part, up to the first difference.
pub fn compare(a: &[u8], a_shape: &Shape, b: &[u8], b_shape: &Shape) -> Ordering
    requires a_fits { Fits a.now a_shape.now }
    requires b_fits { Fits b.now b_shape.now }
    ensures { result ≡ precedence (text_key a.now a_shape.now) (text_key b.now b_shape.now) }
{
    let (a_shape, b_shape) = (*a_shape, *b_shape);
    let epochs = compare_epochs(a, a_shape, b, b_shape);
    if epochs != Ordering::Equal {
        return epochs;
    }
    let bodies = compare_parts(body_at(a, a_shape), body_at(b, b_shape));
    if bodies != Ordering::Equal {
        return bodies;
    }
    compare_tails(a, a_shape, b, b_shape)
}

// Compares two epochs. An absent one is 0.
#[inline(always)]
pub(crate) fn compare_epochs(a: &[u8], a_shape: Shape, b: &[u8], b_shape: Shape) -> Ordering
    requires a_fits { Fits a.now a_shape }
    requires b_fits { Fits b.now b_shape }
    ensures { result
        ≡ nat_cmp (digits_value 10 (epoch_in a.now a_shape))
        (digits_value 10 (epoch_in b.now b_shape)) }
{
    if a_shape.body == 0 && b_shape.body == 0 {
        return Ordering::Equal;
    }
    compare_numbers(epoch_at(a, a_shape), epoch_at(b, b_shape)).order
}

// Compares two tails, by their ranks and then by what they hold.
#[inline(always)]
pub(crate) fn compare_tails(a: &[u8], a_shape: Shape, b: &[u8], b_shape: Shape) -> Ordering
    requires a_fits { Fits a.now a_shape }
    requires b_fits { Fits b.now b_shape }
    ensures { result
        ≡ tail_cmp (tail_of a_shape.tail (tail_in a.now a_shape))
        (tail_of b_shape.tail (tail_in b.now b_shape)) }
{
    match (a_shape.tail, b_shape.tail) {
        (TailKind::Nothing, TailKind::Nothing) => Ordering::Equal,
        (TailKind::PreRelease, TailKind::PreRelease) | (TailKind::Release, TailKind::Release) => {
            compare_releases(tail_at(a, a_shape), tail_at(b, b_shape))
        }
        (TailKind::Sections, TailKind::Sections) => {
            compare_sections(tail_at(a, a_shape), tail_at(b, b_shape))
        }
        (kind, other) => kind.rank().cmp(&other.rank()),
    }
}
