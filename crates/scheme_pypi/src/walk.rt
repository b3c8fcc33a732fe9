//! The lists of a version, item by item: the numbers of its release, and the pieces of its local version.

ghost use Rattle.std.specs.Prelude.{◌≡◌};
ghost use Rattle.scheme_pypi.specs.Texts.{is_separator, next_number, next_piece};

use version_order::{Class, begins_with};

/// Returns whether a byte may stand between words, numbers and pieces.
#[inline(always)]
pub(crate) fn is_separator(byte: u8) -> bool
    ensures { result ≡ is_separator byte }
{
    byte == b'.' || byte == b'-' || byte == b'_'
}

/// The next number of a release, after its dot, or nothing.
#[inline(always)]
pub(crate) fn next_number(text: &[u8]) -> &[u8]
    ensures { result.now ≡ next_number text.now }
{
    match text {
        [b'.', next @ ..] if begins_with(next, Class::Digit) => next,
        _ => &[],
    }
}

/// The next piece of a local version, after its separator, or nothing.
#[inline(always)]
pub(crate) fn next_piece(text: &[u8]) -> &[u8]
    ensures { result.now ≡ next_piece text.now }
{
    match text {
        [byte, next @ ..] if is_separator(*byte) && begins_with(next, Class::Alphanumeric) => next,
        _ => &[],
    }
}
