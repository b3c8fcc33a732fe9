//! Where two versions differ first.

ghost use Rattle.std.specs.Prelude.{◌≡◌, ◌≢◌, IfSome, is_some};
ghost use Rattle.version_rules.specs.grammar.Versioning.{versioning_of};
ghost use Rattle.version_texts.specs.Order.{difference_of};
ghost use Rattle.versions_c.specs.Order.{number_of, part_of, pair_status};

use crate::order::pair_status;
use crate::status::OK;
use version_texts::{Difference, VersioningRef};

/// They are the same version, apart from the metadata of strict versions.
pub const NONE: u32 = 0;
/// They differ, but compare equal.
pub const TIE: u32 = 1;
/// They differ first in their epochs.
pub const EPOCH: u32 = 2;
/// They differ first in a part.
pub const PART: u32 = 3;
/// They differ first in their tails.
pub const TAIL: u32 = 4;

/// Writes where two versions differ first, and the number of the part, counted from 0, or 0 if it is no part.
#[unsafe(no_mangle)]
pub extern "C" fn versions_difference(
    a: &[u8],
    b: &[u8],
    difference: &mut u32,
    part: &mut usize,
) -> i32
    ensures status { result ≡ pair_status (is_some (versioning_of a.now))
        (is_some (versioning_of b.now)) }
    ensures difference { IfSome (versioning_of a.now)
        (λ v. IfSome (versioning_of b.now)
        (λ w. difference.new ≡ number_of (difference_of v w))) }
    ensures part { IfSome (versioning_of a.now)
        (λ v. IfSome (versioning_of b.now) (λ w. part.new ≡ part_of (difference_of v w))) }
    ensures kept_difference { result ≢ OK → difference.new ≡ difference.old }
    ensures kept_part { result ≢ OK → part.new ≡ part.old }
{
    let (a, b) = (VersioningRef::from_bytes(a), VersioningRef::from_bytes(b));
    match (a, b) {
        (Some(a), Some(b)) => {
            let found = a.difference(&b);
            *difference = number_of(found);
            *part = part_of(found);
            OK
        }
        _ => pair_status(a.is_some(), b.is_some()),
    }
}

// Returns the number of a difference.
fn number_of(difference: Difference) -> u32
    ensures { result ≡ number_of difference }
{
    match difference {
        Difference::Same => NONE,
        Difference::Tie => TIE,
        Difference::Epoch => EPOCH,
        Difference::Part(_) => PART,
        Difference::Tail => TAIL,
    }
}

// Returns the number of the part in which two versions differ first, or 0 if it is no part.
fn part_of(difference: Difference) -> usize
    ensures { result ≡ part_of difference }
{
    match difference {
        Difference::Part(part) => part,
        _ => 0,
    }
}
