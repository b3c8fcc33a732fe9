//! The number at a place of a version, read off its text. Nothing here allocates.

ghost use Rattle.std.specs.Prelude.{◌≡◌, ◌==◌, ◌∷◌, Some, drop, false, IfNone, IfSome};
ghost use Rattle.version_rules.specs.grammar.Versioning.{versioning_nth};
ghost use Rattle.version_texts.specs.VersioningRef.{body_number, chunk_number, last_number, pieces_left, section_in, version_in};
ghost use Rattle.version_texts.specs.Scan.{shape_of};
ghost use Rattle.version_order.specs.texts.Cuts.{pieces};

use crate::key::body_at;
use crate::order::ties::is_numbered;
use crate::scan::numeral::{numeral_value, small_number};
use crate::scan::shape::Shape;
use version_order::{Class, after_byte, behind_first, is_digits, split_piece, split_run};
use version_rules::Kind;

/// The largest epoch that is given as a number where numbers have a sign, as in SQL: a larger one is given as this.
pub const LARGEST_EPOCH: u64 = 0x7FFF_FFFF_FFFF_FFFF;

/// Returns the number at a place, counted from 0, or None if no number is there: of the body of a strict or general
/// version, and of the first section of a messy one that no colon follows.
#[tactic(auto, using(crate::proofs::lemmas::versioning_ref::Numbers::body_nth, crate::proofs::lemmas::versioning_ref::Numbers::messy_nth, crate::proofs::lemmas::versioning_ref::VersioningRef::shape_fits))]
pub fn nth(text: &[u8], shape: Shape, n: usize) -> Option<u32>
    requires { shape_of text.now ≡ Some shape }
    ensures { result ≡ versioning_nth (version_in text.now) n }
{
    match shape.kind {
        Kind::Complex => chunk_number(section(text), n),
        _ => body_number(body_at(text, shape), n),
    }
}

// The number at a place of a body. Its last part may have letters after its number.
#[tactic(auto, using(crate::proofs::lemmas::versioning_ref::Section::last_left, crate::proofs::lemmas::versioning_ref::Section::more_left))]
fn body_number(body: &[u8], n: usize) -> Option<u32>
    ensures { result ≡ body_number (drop n (pieces body.now)) }
{
    let (part, rest) = split_piece(from_piece(body, n)?);
    if rest.is_empty() {
        last_number(part)
    } else {
        small_number(part)
    }
}

// The number at a place of a section.
#[tactic(auto, using(crate::proofs::lemmas::versioning_ref::Section::first_chunk))]
fn chunk_number(section: &[u8], n: usize) -> Option<u32>
    ensures { result ≡ chunk_number (drop n (pieces section.now)) }
{
    let (chunk, _) = split_piece(from_piece(section, n)?);
    small_number(chunk)
}

/// Returns a text from its piece at a place on, counted from 0: dots divide it into pieces. None if it does not have so
/// many. Does not allocate.
#[tactic(auto, using(crate::proofs::lemmas::versioning_ref::Section::next_left, crate::proofs::lemmas::versioning_ref::Section::none_left))]
pub fn from_piece(text: &[u8], n: usize) -> Option<&[u8]>
    ensures { pieces_left result ≡ drop n (pieces text.now) }
{
    let mut left = text;
    for _ in 0..n {
        let (_, rest) = split_piece(left);
        left = behind_first(rest)?;
    }
    Some(left)
}

// The first section of a text that no colon follows.
#[tactic(auto, using(crate::proofs::lemmas::versioning_ref::Section::section_is, crate::proofs::lemmas::versioning_ref::Section::section_passed, version_pieces::proofs::lemmas::Pieces::run_is_piece, crate::proofs::lemmas::scan::Shape::is_colon))]
fn section(text: &[u8]) -> &[u8]
    ensures { result.now ≡ section_in text.now }
{
    let mut left = text;
    'sections: loop {
        let (section, rest) = split_run(left, Class::NotSign);
        match after_byte(b':', rest) {
            Some(more) => left = more,
            None => return section,
        }
    }
}

// The first number of a last part: that of a numeral, and of a part that is decomposed.
fn last_number(part: &[u8]) -> Option<u32>
    ensures { result ≡ last_number part.now }
{
    if is_digits(part) {
        return numeral_value(part);
    }
    if is_numbered(part) {
        return numeral_value(split_run(part, Class::Digit).0);
    }
    None
}
