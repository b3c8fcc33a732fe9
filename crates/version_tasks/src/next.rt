//! The version that comes next after another at a place. Nothing here allocates.

ghost use Rattle.std.specs.Prelude.{◌≡◌, ◌≤◌, ◌&&◌, ◌^◌, if◌then◌else◌, length, suc, IfNone, IfSome, Some};
ghost use Rattle.std.specs.List.{list_all};
ghost use Rattle.version_rules.specs.grammar.Versioning.{is_prerelease, versioning_of, versioning_text};
ghost use Rattle.version_tasks.specs.{Next.IsNext, Next.NoNext, Next.last_place, Next.plain_next, NextText.is_zero};
ghost use Rattle.version_order.specs.texts.Cuts.{further_pieces, is_dot, pieces};
ghost use Rattle.version_texts.specs.{Scan.is_numeral, VersioningRef.plain_versioning_ref};

mod text;

pub use text::Next;
use version_order::split_piece;
use version_texts::{VersioningRef, from_piece, numeral_value, spells_numeral};

/// Returns the version that comes next after another at a place, counted from 0: the least one after it of the same kind
/// and epoch, with as many numbers, the same ones before the place and zeros after it, and without pre-release, release
/// and metadata. Returns None if that would take a number past 4294967295, if the version does not have so many parts,
/// if one of its parts is not a number, or if it is messy.
///
/// | version | 0 | 1 | 2 |
/// |---|---|---|---|
/// | `1.2.3` | `2.0.0` | `1.3.0` | `1.2.4` |
/// | `1.2.3-rc.1` | `2.0.0` | `1.3.0` | `1.2.3` |
/// | `1:1.9-3` | `1:2.0` | `1:1.10` | none |
pub fn next_of<'a>(version: &VersioningRef<'a>, place: usize) -> Option<Next<'a>>
    ensures some { IfSome result
        (λ next. IsNext (plain_versioning_ref version.now) place (plain_next next)) }
    ensures none { IfNone result (NoNext (plain_versioning_ref version.now) place) }

    // The text that it writes parses as that version.
    ensures read { IfSome result (λ next. versioning_of (versioning_text (plain_next next))
        ≡ Some (plain_next next)) }
{
    let (epoch, parts) = version.epoch_and_parts()?;
    if !are_numerals(parts) {
        return None;
    }
    let left = from_piece(parts, place)?;
    let (part, rest) = split_piece(left);
    let number = next_number(numeral_value(part)?, may_stay(version, rest))?;
    Some(Next {
        epoch,
        front: &parts[..parts.len() - left.len()],
        number,
        zeros: count_parts(rest),
    })
}

/// Returns the version that comes next after another at the last place of its numbers, as `next_of` has it: the release
/// that a pre-release precedes, or the one after a release. Returns None where `next_of` does.
///
/// | version | next release |
/// |---|---|
/// | `1.2.3-rc.1` | `1.2.3` |
/// | `1.2.3` | `1.2.4` |
/// | `1:1.9-3` | `1:1.10` |
pub fn next_release<'a>(version: &VersioningRef<'a>) -> Option<Next<'a>>
    ensures some { IfSome result
        (λ next. IsNext (plain_versioning_ref version.now)
        (last_place (plain_versioning_ref version.now)) (plain_next next)) }
    ensures none { IfNone result (NoNext (plain_versioning_ref version.now)
        (last_place (plain_versioning_ref version.now))) }

    // The text that it writes parses as that version.
    ensures read { IfSome result (λ next. versioning_of (versioning_text (plain_next next))
        ≡ Some (plain_next next)) }
{
    next_of(version, last_place(version))
}

// The last place of the numbers of a version, or of its parts. 0 of a messy version.
fn last_place(version: &VersioningRef<'_>) -> usize
    ensures { result ≡ last_place (plain_versioning_ref version.now) }
{
    match version.epoch_and_parts() {
        Some((_, parts)) => count_parts(split_piece(parts).1),
        None => 0,
    }
}

// Whether each piece of a text is a numeral.
fn are_numerals(text: &[u8]) -> bool
    ensures { result ≡ list_all is_numeral (pieces text.now) }
{
    text.split(|byte| *byte == b'.')
        .all(|piece| spells_numeral(piece))
}

// Whether the number at a place may stay as it is: if the version is a pre-release, and only zeros follow the place.
fn may_stay(version: &VersioningRef<'_>, rest: &[u8]) -> bool
    ensures { result ≡ is_prerelease (plain_versioning_ref version.now)
        && list_all is_zero (further_pieces is_dot rest.now) }
{
    version.is_prerelease() && are_zeros(rest)
}

// Whether each piece after the first dot of a text is a zero.
fn are_zeros(rest: &[u8]) -> bool
    ensures { result ≡ list_all is_zero (further_pieces is_dot rest.now) }
{
    match rest {
        [] => true,
        [_, further @ ..] => further
            .split(|byte| *byte == b'.')
            .all(|piece| is_zero(piece)),
    }
}

// Whether a text is the numeral 0.
fn is_zero(text: &[u8]) -> bool
    ensures { result ≡ is_zero text.now }
{
    matches!(numeral_value(text), Some(0))
}

// How many pieces follow the first dot of a text.
fn count_parts(rest: &[u8]) -> usize
    ensures { result ≡ length (further_pieces is_dot rest.now) }
{
    match rest {
        [] => 0,
        [_, further @ ..] => further.split(|byte| *byte == b'.').count(),
    }
}

// The number that comes next after another, or that one itself if it may stay. None past the largest number.
fn next_number(number: u32, stays: bool) -> Option<u32>
    ensures some { IfSome result (λ next. next ≡ (if stays then number else suc number)) }
    ensures none { IfNone result (2 ^ 32 ≤ (if stays then number else suc number)) }
{
    if stays {
        Some(number)
    } else {
        successor(number)
    }
}

// The number after another. None past the largest number.
pub(crate) fn successor(number: u32) -> Option<u32>
    ensures some { IfSome result (λ next. next ≡ suc number) }
    ensures none { IfNone result (2 ^ 32 ≤ suc number) }
{
    number.checked_add(1)
}
