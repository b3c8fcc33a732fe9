//! Where two versions differ first, read off their texts. Nothing here allocates.

ghost use Rattle.std.specs.Prelude.{◌≡◌};
ghost use Rattle.version_texts.specs.{Key.parts_of, Key.text_key, Order.first_differing, Order.key_difference, Scan.Fits};

use crate::key::body_at;
use crate::order::part::compare_parts_to;
use crate::order::{compare_epochs, compare_tails};
use crate::scan::shape::Shape;
use version_order::behind_first;
use version_pieces::Delimiters;

/// Where two versions differ first.
#[derive(Clone, Copy, Debug, PartialEq, Eq)]
pub enum Difference {
    /// Nowhere: they are the same version, apart from the metadata of strict versions.
    Same,
    /// In nothing that the order compares: they are not the same version, but tie.
    Tie,
    /// In their epochs. An absent one is 0.
    Epoch,
    /// In the part of this number, counted from 0. The epochs and the parts before it are equal.
    Part(usize),
    /// In their tails: a pre-release, a release, or the further sections of a messy version. The epochs and all parts
    /// are equal.
    Tail,
}

// Where the keys of two versions differ first, or None if they are equal.
pub(crate) fn key_difference(
    a: &[u8],
    a_shape: Shape,
    b: &[u8],
    b_shape: Shape,
) -> Option<Difference>
    requires a_fits { Fits a.now a_shape }
    requires b_fits { Fits b.now b_shape }
    ensures { result ≡ key_difference (text_key a.now a_shape) (text_key b.now b_shape) }
{
    if compare_epochs(a, a_shape, b, b_shape).is_ne() {
        return Some(Difference::Epoch);
    }
    if let Some(part) = first_differing(body_at(a, a_shape), body_at(b, b_shape)) {
        return Some(Difference::Part(part));
    }
    if compare_tails(a, a_shape, b, b_shape).is_ne() {
        return Some(Difference::Tail);
    }
    None
}

// The number of the first part that two lists differ in, or None if they differ in none.
fn first_differing(x: &[u8], y: &[u8]) -> Option<usize>
    ensures { result ≡ first_differing (parts_of x.now) (parts_of y.now) }
{
    let (mut a, mut b) = (x, y);
    let mut place = 0;
    'parts: loop {
        let firsts = compare_parts_to(Delimiters::Dots, a, b);
        if firsts.order.is_ne() {
            return Some(place);
        }
        place += 1;
        match (behind_first(firsts.rest), behind_first(firsts.other_rest)) {
            (Some(more), Some(others)) => {
                a = more;
                b = others;
            }
            (Some(_), None) => return Some(place),
            (None, Some(_)) => return Some(place),
            (None, None) => return None,
        }
    }
}
