//! The command `compare --explain`: which of two versions comes first, and by what.

ghost use Rattle.std.specs.Prelude.{◌≡◌, ◌==◌, ◌++◌, codes, if◌then◌else◌, length, None, Some, OnOk};
ghost use Rattle.std.specs.{List.slice_get, Option.option_map, Option.unwrap_or};
ghost use Rattle.version_answers.specs.Two.{beside, behind_epoch, behind_parts, explained_line, explanation, have_one_text, is_number, ordinals, part_at, part_text, piece_text, place_text, tail_of};
ghost use Rattle.version_rules.specs.grammar.Versioning.{versioning_text};
ghost use Rattle.version_texts.specs.{Order.difference_of, VersioningRef.field_text, VersioningRef.plain_versioning_ref, declared.versioning_ref.field.Field.TheVariants.Epoch};

use crate::one::show::field_of;
use crate::pieces::add_pieces;
use crate::two::compare::sign;
use itoa::Buffer;
use std::alloc::AllocError;
use std::cmp::Ordering;
use version_order::{Class, is_digits, split_run};
use version_rules::Kind;
use version_texts::{Difference, Field, VersioningRef};

/// Adds the line for two versions: both with the sign of their order between, where they differ first, and what they
/// have there.
pub fn add_explained(
    first: &VersioningRef<'_>,
    second: &VersioningRef<'_>,
    end: u8,
    output: &mut Vec<u8>,
) -> Result<(), AllocError>
    ensures { OnOk result (output.new.items ≡ output.old.items ++ explained_line end
        (plain_versioning_ref first.now) (plain_versioning_ref second.now)) }
{
    let order = first.precedence(second);
    add_beside(order, whole(first), whole(second), output)?;
    output.extend_from_slice(b": ")?;
    add_explanation(first, second, order, output)?;
    output.push(end)?;
    Ok(())
}

/// A piece of a version, as it is written, behind the noun that names it, if one does.
#[derive(Clone, Copy)]
struct Piece<'a> {
    noun: &'a [u8],
    text: &'a [u8],
}

impl<'a> Piece<'a> {
    // Returns a text that no noun names.
    fn bare(text: &'a [u8]) -> Piece<'a>
        ensures { piece_text result ≡ text.now }
    {
        Piece { noun: b"", text }
    }
}

// Adds where two versions differ first, and what they have there.
fn add_explanation(
    first: &VersioningRef<'_>,
    second: &VersioningRef<'_>,
    order: Ordering,
    output: &mut Vec<u8>,
) -> Result<(), AllocError>
    ensures { OnOk result (output.new.items ≡ output.old.items ++ explanation
        (plain_versioning_ref first.now) (plain_versioning_ref second.now) order
        (difference_of (plain_versioning_ref first.now) (plain_versioning_ref second.now))) }
{
    match first.difference(second) {
        Difference::Epoch => {
            output.extend_from_slice(b"the epoch, ")?;
            add_beside(order, epoch_of(first), epoch_of(second), output)
        }
        Difference::Part(place) => add_part(
            order,
            place,
            part_at(first, place),
            part_at(second, place),
            output,
        ),
        Difference::Tail => {
            output.extend_from_slice(b"what follows the parts, ")?;
            add_beside(order, tail_of(first), tail_of(second), output)
        }
        Difference::Tie => {
            output.extend_from_slice(b"they compare equal, and are not the same version")
        }
        Difference::Same => output.extend_from_slice(if have_one_text(first, second) {
            b"they are the same version"
        } else {
            b"they differ only after the plus, which doesn't count"
        }),
    }
}

// Returns whether two versions have the same text. If they don't and are the same version, they differ in their metadata
// alone.
fn have_one_text(first: &VersioningRef<'_>, second: &VersioningRef<'_>) -> bool
    ensures { result ≡ have_one_text (plain_versioning_ref first.now) (plain_versioning_ref second.now) }
{
    first.text() == second.text()
}

// Adds the place of a part, and what two versions have there.
fn add_part(
    order: Ordering,
    place: usize,
    one: Option<&[u8]>,
    other: Option<&[u8]>,
    output: &mut Vec<u8>,
) -> Result<(), AllocError>
    ensures { OnOk result (output.new.items ≡ output.old.items ++ part_text order place
        (option_map (λ text. text.now) one.entry) (option_map (λ text. text.now) other.entry)) }
{
    let noun: &'static [u8] = if is_number(one) && is_number(other) {
        b"number"
    } else {
        b"part"
    };
    add_place(noun, place, output)?;
    output.extend_from_slice(b", ")?;
    add_beside(order, one.map(Piece::bare), other.map(Piece::bare), output)
}

// Whether a text is there, and is digits alone.
fn is_number(text: Option<&[u8]>) -> bool
    ensures { result ≡ is_number (option_map (λ text. text.now) text.entry) }
{
    match text {
        Some(text) => is_digits(text),
        None => false,
    }
}

// Returns the word for a place, which counts from the first, if there is one.
fn ordinal(place: usize) -> Option<&'static str>
    ensures { option_map (λ word. word.now) result ≡ slice_get ordinals place }
{
    match place {
        0 => Some("first"),
        1 => Some("second"),
        2 => Some("third"),
        3 => Some("fourth"),
        4 => Some("fifth"),
        5 => Some("sixth"),
        6 => Some("seventh"),
        7 => Some("eighth"),
        8 => Some("ninth"),
        9 => Some("tenth"),
        _ => None,
    }
}

// Adds the place of a part in words, which count from the first.
fn add_place(noun: &'static [u8], place: usize, output: &mut Vec<u8>) -> Result<(), AllocError>
    ensures { OnOk result (output.new.items ≡ output.old.items ++ place_text noun.now place) }
{
    match ordinal(place) {
        Some(ordinal) => add_pieces(output, &[b"the ", ordinal.as_bytes(), b" ", noun]),
        None => {
            let mut digits = Buffer::new();
            let number = digits.format(place.saturating_add(1));
            output.extend_from_slice(noun)?;
            add_pieces(output, &[b" ", number.as_bytes()])
        }
    }
}

// Adds what two versions have somewhere, with the sign of their order between.
fn add_beside(
    order: Ordering,
    one: Option<Piece<'_>>,
    other: Option<Piece<'_>>,
    output: &mut Vec<u8>,
) -> Result<(), AllocError>
    ensures { OnOk result (output.new.items ≡ output.old.items
        ++ beside order (option_map piece_text one.entry) (option_map piece_text other.entry)) }
{
    add_piece(one, output)?;
    add_pieces(output, &[b" ", sign(order), b" "])?;
    add_piece(other, output)
}

// Adds a piece, or the word for none.
fn add_piece(piece: Option<Piece<'_>>, output: &mut Vec<u8>) -> Result<(), AllocError>
    ensures { OnOk result (output.new.items
        ≡ output.old.items ++ unwrap_or (option_map piece_text piece.entry) (codes "nothing")) }
{
    match piece {
        Some(Piece { noun, text }) => add_pieces(output, &[noun, text]),
        None => output.extend_from_slice(b"nothing"),
    }
}

// Returns the epoch of a version, as it is written.
fn epoch_of<'a>(version: &VersioningRef<'a>) -> Option<Piece<'a>>
    ensures { option_map piece_text result ≡ field_text Epoch (plain_versioning_ref version.now) }
{
    Some(Piece::bare(field_of(version, Field::Epoch)?.as_bytes()))
}

// Returns what counts behind the parts: a pre-release, a release, or the further sections of a messy version.
fn tail_of<'a>(version: &VersioningRef<'a>) -> Option<Piece<'a>>
    ensures { option_map piece_text result ≡ tail_of (plain_versioning_ref version.now) }
{
    let (noun, text): (&[u8], &[u8]) = match version.kind() {
        Kind::Ideal => (
            b"the pre-release ",
            field_of(version, Field::PreRelease)?.as_bytes(),
        ),
        Kind::General => (
            b"the release ",
            field_of(version, Field::Release)?.as_bytes(),
        ),
        Kind::Complex => (b"", behind_parts(version)?),
    };
    Some(Piece { noun, text })
}

// Returns what follows the parts of a version, if anything does.
fn behind_parts<'a>(version: &VersioningRef<'a>) -> Option<&'a [u8]>
    ensures { option_map (λ text. text.now) result
        ≡ (if length (behind_parts (plain_versioning_ref version.now)) == 0 then None
        else Some (behind_parts (plain_versioning_ref version.now))) }
{
    let (_, rest) = split_run(behind_epoch(version), Class::NotSign);
    if rest.is_empty() { None } else { Some(rest) }
}

// Returns the part at a place, counted from 0, if there are so many.
fn part_at<'a>(version: &VersioningRef<'a>, place: usize) -> Option<&'a [u8]>
    ensures { option_map (λ text. text.now) result ≡ part_at (plain_versioning_ref version.now) place }
{
    let (parts, _) = split_run(behind_epoch(version), Class::NotSign);
    parts.split(|byte| *byte == b'.').nth(place)
}

// Returns the text of a version behind its epoch and the colon.
fn behind_epoch<'a>(version: &VersioningRef<'a>) -> &'a [u8]
    ensures { result.now ≡ behind_epoch (plain_versioning_ref version.now) }
{
    let text = version.bytes();
    match version.span(Field::Epoch) {
        Some((_, end)) => &text[end + 1..],
        None => text,
    }
}

// Returns the whole text of a version.
fn whole<'a>(version: &VersioningRef<'a>) -> Option<Piece<'a>>
    ensures { option_map piece_text result ≡ Some (versioning_text (plain_versioning_ref version.now)) }
{
    Some(Piece::bare(version.bytes()))
}
