//! The ends of ranges, read off the texts of versions.

ghost use Rattle.std.specs.Prelude.{◌≡◌, ◌++◌, IfSome, List, ℕ};
ghost use Rattle.version_rules.specs.requirement.Range.{end_bytes, kept_parts, begun, but_last, through_other};
ghost use Rattle.version_texts.specs.{Key.parts_behind, Key.parts_of, Key.text_key, Scan.Fits};

use crate::asked::matching::parts::TextParts;
use crate::key::{body_at, epoch_at, put_begun, put_key};
use crate::scan::shape::Shape;
use version_order::{End, Kept, Sink, behind_first, split_piece};
use version_rules::Parts;

// The text before its last dot, or None if it has no dot.
fn before_last_dot(text: &[u8]) -> Option<&[u8]>
    ensures parts { parts_behind result ≡ but_last (parts_of text.now) }
    ensures front { IfSome result (λ front. (rest : List ℕ) × (text.now ≡ front.now ++ rest)) }
{
    let mut left = text;
    while let [front @ .., last] = left {
        if *last == b'.' {
            return Some(front);
        }
        left = front;
    }
    None
}

// The text through its first part that is not a plain zero, or all of it if each part is one.
#[tactic(auto, using(crate::proofs::lemmas::Kept::zeros_alone, crate::proofs::lemmas::Kept::zeros_and_other, crate::proofs::lemmas::Kept::zeros_more, crate::proofs::lemmas::Kept::zeros_none))]
fn through_other(text: &[u8]) -> &[u8]
    ensures parts { parts_of result.now ≡ through_other (parts_of text.now) }
    ensures front { (rest : List ℕ) × (text.now ≡ result.now ++ rest) }
{
    let mut left = text;
    'parts: loop {
        let (_, rest) = split_piece(left);
        if !TextParts(left).begins_with_zero() {
            return &text[..text.len() - rest.len()];
        }
        match behind_first(rest) {
            Some(more) => left = more,
            None => return text,
        }
    }
}

// The kept parts of a body, or None if there are none.
#[tactic(auto, using(crate::proofs::lemmas::Kept::some_before))]
pub(crate) fn kept_parts(body: &[u8], kept: Kept) -> Option<&[u8]>
    ensures parts { parts_behind result ≡ kept_parts kept (parts_of body.now) }
    ensures front { IfSome result (λ front. (rest : List ℕ) × (body.now ≡ front.now ++ rest)) }
{
    match kept {
        Kept::All => Some(body),
        Kept::ButLast => before_last_dot(body),
        Kept::ButLastOrOnly => match before_last_dot(body) {
            Some(front) => Some(front),
            None => Some(body),
        },
        Kept::ThroughOther => Some(through_other(body)),
    }
}

// Writes the epoch and the kept parts of a version, by its text and its shape.
#[inline(always)]
#[tactic(auto, using(crate::proofs::lemmas::Kept::front_passes, version_order::proofs::lemmas::Sinks::takes_same))]
pub(crate) fn put_kept<S: Sink>(sink: &mut S, text: &[u8], shape: Shape, kept: Kept)
    requires shape { Fits text.now shape }
    requires fits { S.fits sink.old (begun (text_key text.now shape).epoch
        (kept_parts kept (text_key text.now shape).body)) }
    ensures { S.takes sink.old (begun (text_key text.now shape).epoch
        (kept_parts kept (text_key text.now shape).body)) sink.new }
{
    let parts = kept_parts(body_at(text, shape), kept);
    put_begun(sink, epoch_at(text, shape), parts);
}

/// Writes an end of a range, by the text and the shape of its version. Does not allocate.
#[inline(always)]
pub fn put_end<S: Sink>(sink: &mut S, text: &[u8], shape: Shape, end: End)
    requires shape { Fits text.now shape }
    requires fits { S.fits sink.old (end_bytes end (text_key text.now shape)) }
    ensures { S.takes sink.old (end_bytes end (text_key text.now shape)) sink.new }
{
    match end {
        End::Lowest => {}
        End::Zero => sink.put(0),
        End::Key | End::AfterKey => {
            put_key(sink, text, shape);
            if end == End::AfterKey {
                sink.put(0);
            }
        }
        End::Begun(kept) | End::AboveBegun(kept) => {
            put_kept(sink, text, shape, kept);
            if end == End::AboveBegun(kept) {
                sink.put(4);
            }
        }
    }
}
