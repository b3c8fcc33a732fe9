//! The ends of ranges, compared by the texts of their versions up to the first difference. Nothing here allocates.

ghost use Rattle.std.specs.Prelude.{◌≡◌, ◌++◌, IfNone, IsSome, List, ℕ};
ghost use Rattle.std.specs.Option.{option_map};
ghost use Rattle.version_order.specs.keys.{Codes.items_bytes, Lists.bytes_cmp};
ghost use Rattle.version_rules.specs.{key.PartKey.part_bytes, requirement.Range.end_bytes};
ghost use Rattle.version_texts.specs.Asked.{after_key, fixed_bytes, is_key, kept_of, mark_of, Begins, IsOfPart};
ghost use Rattle.version_texts.specs.{Key.parts_behind, Key.parts_of, Key.text_key, Scan.Fits};

use crate::asked::range::kept_parts;
use crate::key::body_at;
use crate::key::whole::compare_end;
use crate::order::part::compare_parts_to;
use crate::order::{compare, compare_epochs};
use crate::scan::shape::Shape;
use std::cmp::Ordering;
use version_order::{Class, End, Kept, begins_with, behind_first};
use version_pieces::Delimiters;

/// Compares two ends of ranges by the texts and the shapes of their versions.
pub fn compare_ends(
    a: &[u8],
    a_shape: Shape,
    a_end: End,
    b: &[u8],
    b_shape: Shape,
    b_end: End,
) -> Ordering
    requires a_fits { Fits a.now a_shape }
    requires b_fits { Fits b.now b_shape }
    ensures { result ≡ bytes_cmp (end_bytes a_end (text_key a.now a_shape))
        (end_bytes b_end (text_key b.now b_shape)) }
{
    if let Some(bytes) = fixed_bytes(b_end) {
        return compare_end(a, a_shape, a_end, bytes);
    }
    if let Some(bytes) = fixed_bytes(a_end) {
        return compare_end(b, b_shape, b_end, bytes).reverse();
    }
    if is_key(a_end) && is_key(b_end) {
        return compare(a, &a_shape, b, &b_shape).then(after_key(a_end).cmp(after_key(b_end)));
    }
    let epochs = compare_epochs(a, a_shape, b, b_shape);
    if epochs != Ordering::Equal {
        return epochs;
    }
    let parts = kept_parts(body_at(a, a_shape), kept_of(a_end));
    let other_parts = kept_parts(body_at(b, b_shape), kept_of(b_end));
    compare_fronts(parts, mark_of(a_end), other_parts, mark_of(b_end))
}

// The bytes of an end that are the same for every version, or None if the version counts.
fn fixed_bytes(end: End) -> Option<&'static [u8]>
    ensures { option_map (λ bytes. bytes.now) result ≡ fixed_bytes end }
{
    match end {
        End::Lowest => Some(&[]),
        End::Zero => Some(&[0]),
        _ => None,
    }
}

// Whether an end is a whole key, or the bytes after it.
fn is_key(end: End) -> bool
    ensures { result ≡ is_key end }
{
    matches!(end, End::Key | End::AfterKey)
}

// The bytes of such an end after the key.
fn after_key(end: End) -> &'static [u8]
    ensures { result.now ≡ after_key end }
{
    match end {
        End::AfterKey => &[0],
        _ => &[],
    }
}

// The parts that an end keeps.
fn kept_of(end: End) -> Kept
    ensures { result ≡ kept_of end }
{
    match end {
        End::Begun(kept) | End::AboveBegun(kept) => kept,
        _ => Kept::All,
    }
}

// The first byte of an end after its parts, or 0 if nothing follows them.
fn mark_of(end: End) -> u8
    ensures { result ≡ mark_of end }
{
    match end {
        End::Begun(_) => 0,
        End::AboveBegun(_) => 4,
        _ => 2,
    }
}

// Compares two lists of parts that begin two ends, each with the first byte after them, or 0 if nothing follows.
fn compare_fronts(x: Option<&[u8]>, x_mark: u8, y: Option<&[u8]>, y_mark: u8) -> Ordering
    requires x_mark { ¬ (IsOfPart x_mark) }
    requires y_mark { ¬ (IsOfPart y_mark) }
    ensures { (behind other : List ℕ) → Begins x_mark behind → Begins y_mark other
        → (x_mark ≡ y_mark → behind ≡ other)
        → result ≡ bytes_cmp (items_bytes part_bytes (parts_behind x.entry) ++ behind)
        (items_bytes part_bytes (parts_behind y.entry) ++ other) }
{
    let (mut a, mut b) = (x, y);
    'parts: loop {
        let Some(first) = a else {
            return x_mark.cmp(&first_mark(b, y_mark));
        };
        let Some(second) = b else {
            return part_mark(first).cmp(&y_mark);
        };
        let firsts = compare_parts_to(Delimiters::Dots, first, second);
        if firsts.order != Ordering::Equal {
            return firsts.order;
        }
        a = behind_first(firsts.rest);
        b = behind_first(firsts.other_rest);
    }
}

// The first byte of a list of parts, or the mark that follows an empty one.
fn first_mark(parts: Option<&[u8]>, mark: u8) -> u8
    ensures first { (behind : List ℕ) → Begins mark behind
        → Begins result (items_bytes part_bytes (parts_behind parts.entry) ++ behind) }
    ensures some { IsSome parts.entry → IsOfPart result }
    ensures none { IfNone parts.entry (result ≡ mark) }
{
    match parts {
        Some(text) => part_mark(text),
        None => mark,
    }
}

// The first byte of a part.
fn part_mark(text: &[u8]) -> u8
    ensures first { (behind : List ℕ)
        → Begins result (items_bytes part_bytes (parts_of text.now) ++ behind) }
    ensures part { IsOfPart result }
{
    if begins_with(text, Class::Digit) {
        3
    } else {
        1
    }
}
