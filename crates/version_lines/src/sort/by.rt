//! What lines are sorted by.
ghost use Rattle.std.specs.Prelude.{◌≡◌, ℕ, Bool, List};
ghost use Rattle.version_lines.specs.Sort.{Reads, turn};

use std::cmp::Ordering;
use version_schemes::Scheme;

/// What lines are sorted by: which text in a line is its version, and whether the order is reversed.
pub trait SortBy: Drop {
    // How lines are read.
    ghost reads: { Self → Reads };

    // Whether the highest version comes first.
    ghost is_reversed: { Self → Bool };

    /// Returns the text in a line that is to be its version.
    fn text<'a>(&self, line: &'a [u8]) -> &'a [u8]
        ensures { result.now ≡ (reads self.now).text_of line.now };

    /// Returns the scheme of which it is to be a version.
    fn scheme(&self) -> Scheme
        ensures { result ≡ (reads self.now).scheme };

    /// Returns whether the highest version comes first.
    fn is_reversed(&self) -> bool
        ensures { result ≡ is_reversed self.now };
}

/// A line is its version, of the scheme mixed, and the lowest comes first.
#[derive(Clone, Copy)]
pub struct WholeLines;

impl SortBy for WholeLines {
    ghost use Rattle.std.specs.Prelude.{false};
    ghost use Rattle.version_schemes.specs.declared.scheme.Scheme.TheVariants.{Mixed};

    ghost reads = { λ _. record { scheme = Mixed; text_of = λ line. line } };

    ghost is_reversed = { λ _. false };

    #[inline(always)]
    fn text<'a>(&self, line: &'a [u8]) -> &'a [u8] {
        line
    }

    #[inline(always)]
    fn scheme(&self) -> Scheme {
        Scheme::Mixed
    }

    #[inline(always)]
    fn is_reversed(&self) -> bool {
        false
    }
}

/// Returns an answer of an order, or of the reverse of it.
#[inline(always)]
pub fn turn(reversed: bool, order: Ordering) -> Ordering
    ensures { result ≡ turn reversed order }
{
    if reversed { order.reverse() } else { order }
}
