//! Lists of parts and of sections, compared.

ghost use Rattle.std.specs.Prelude.{◌≡◌, IfNone, IfSome, None, Some};
ghost use Rattle.std.specs.declared.cmp.Ordering.TheVariants.{Equal};
ghost use Rattle.version_rules.specs.key.{Key.sections_cmp, PartKey.list_cmp, PartKey.part_cmp, PartKey.part_key};
ghost use Rattle.version_texts.specs.Key.{lists_of, parts_of, sections_of};

use crate::order::part::compare_parts_to;
use std::cmp::Ordering;
use version_order::{Class, after_byte, begins_with, behind_first, compare_if_numbers};
use version_pieces::Delimiters;

// Compares two lists of parts. The first place where they differ decides:
// word < end of the list < number.
#[inline(always)]
pub(crate) fn compare_parts(x: &[u8], y: &[u8]) -> Ordering
    ensures { result ≡ list_cmp (parts_of x.now) (parts_of y.now) }
{
    match pass_common(x, y) {
        Some((x, y)) => match compare_first_numbers(x, y) {
            Some(order) => order,
            None => compare_in_turn(x, y),
        },
        None => Ordering::Equal,
    }
}

// Passes the parts that two lists begin with alike, and returns what is left of both. Returns None
// if the texts are the same.
#[inline(always)]
fn pass_common<'a>(x: &'a [u8], y: &'a [u8]) -> Option<(&'a [u8], &'a [u8])>
    ensures some { IfSome result (λ left. list_cmp (parts_of left.0.now) (parts_of left.1.now)
        ≡ list_cmp (parts_of x.now) (parts_of y.now)) }
    ensures none { IfNone result (list_cmp (parts_of x.now) (parts_of y.now) ≡ Equal) }
{
    let (mut start, mut place) = (0, 0);
    'bytes: while place < x.len() && place < y.len() {
        let byte = x[place];
        if byte != y[place] {
            return Some((&x[start..], &y[start..]));
        }
        place += 1;
        if byte == b'.' {
            start = place;
        }
    }
    if x.len() == y.len() {
        return None;
    }
    Some((&x[start..], &y[start..]))
}

// Compares two lists of parts that begin with different numbers, as most do. Returns None for others.
#[inline(always)]
fn compare_first_numbers(x: &[u8], y: &[u8]) -> Option<Ordering>
    ensures { IfSome result (λ order. order ≡ list_cmp (parts_of x.now) (parts_of y.now)) }
{
    let order = compare_if_numbers(x, y)?;
    if order != Ordering::Equal {
        return Some(order);
    }
    None
}

// Compares two lists of parts, part by part.
#[inline(never)]
fn compare_in_turn(x: &[u8], y: &[u8]) -> Ordering
    ensures { result ≡ list_cmp (parts_of x.now) (parts_of y.now) }
{
    compare_lists(Delimiters::Dots, x, y)
}

// Compares two lists of sections, part by part. A prefix comes before the longer list.
#[inline(never)]
pub(crate) fn compare_sections(x: &[u8], y: &[u8]) -> Ordering
    ensures { result ≡ sections_cmp (sections_of x.now) (sections_of y.now) }
{
    compare_lists(Delimiters::Marks, x, y)
}

// Compares two lists of sections, which signs divide if these are ends of parts: part by part, and not section by
// section, since one may be much longer than the other.
#[inline(always)]
fn compare_lists(delimiters: Delimiters, x: &[u8], y: &[u8]) -> Ordering
    ensures { result ≡ sections_cmp (lists_of delimiters x.now) (lists_of delimiters y.now) }
{
    let (mut a, mut b) = (x, y);
    'parts: loop {
        let parts = compare_parts_to(delimiters, a, b);
        if parts.order != Ordering::Equal {
            return parts.order;
        }
        let (rest, other_rest) = (parts.rest, parts.other_rest);
        match (after_byte(b'.', rest), after_byte(b'.', other_rest)) {
            (Some(more), Some(others)) => {
                a = more;
                b = others;
            }
            (Some(more), None) => return compare_with_end(more),
            (None, Some(others)) => return compare_with_end(others).reverse(),
            (None, None) => match (behind_first(rest), behind_first(other_rest)) {
                (Some(more), Some(others)) => {
                    a = more;
                    b = others;
                }
                (Some(_), None) => return Ordering::Greater,
                (None, Some(_)) => return Ordering::Less,
                (None, None) => return Ordering::Equal,
            },
        }
    }
}

// Compares a part that a text begins with, and the end of a list.
#[inline(always)]
fn compare_with_end(text: &[u8]) -> Ordering
    ensures { result ≡ part_cmp (Some (part_key text.now)) None }
{
    if begins_with(text, Class::Digit) {
        Ordering::Greater
    } else {
        Ordering::Less
    }
}
