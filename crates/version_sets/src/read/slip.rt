//! Versions that people write for something else, by their texts alike in each order.

ghost use Rattle.std.specs.Prelude.{◌≡◌, ◌&&◌, drop, not, true};
ghost use Rattle.std.specs.{Char.is_ascii_digit, List.list_any};
ghost use Rattle.version_order.specs.texts.Front.{begins};
ghost use Rattle.version_sets.specs.Slips.{begins_with_v, behind_epoch, has_part_x, is_x, part_ends, slip_of, ties};

use version_order::{Class, SchemeVersion, begins_with, split_run};

/// What a version may have been meant as.
#[derive(Clone, Copy, Debug, PartialEq, Eq)]
pub enum Slip {
    /// A tag: the version begins with `v` or `V` and a digit.
    LetterV,
    /// A pattern: one of its parts is `x` or `X`.
    PartX,
    /// A word: it has no digit.
    NoDigit,
}

// Returns what the text of a version may have been meant as: a tag, unless the version is the same without its `v`, a
// pattern or a word. None if it looks like a version.
#[inline(always)]
#[tactic(auto, using(crate::proofs::lemmas::Slips::looks_plain))]
pub(crate) fn slip_of<'t, V: SchemeVersion<'t>>(version: &V, text: &'t [u8]) -> Option<Slip>
    ensures { result ≡ slip_of V.rules.read_as (V.plain version.now) text.now }
{
    if is_plain(text) {
        return None;
    }
    slip_in(version, text)
}

// Returns the same, by what stands in the text.
fn slip_in<'t, V: SchemeVersion<'t>>(version: &V, text: &'t [u8]) -> Option<Slip>
    ensures { result ≡ slip_of V.rules.read_as (V.plain version.now) text.now }
{
    if counts_v(version, text) {
        return Some(Slip::LetterV);
    }
    if has_part_x(behind_epoch(text)) {
        return Some(Slip::PartX);
    }
    if has_digit(text) {
        return None;
    }
    Some(Slip::NoDigit)
}

// Whether a text begins with a digit and has no `x`, so that it looks like a version by a glance, as most do.
#[inline(always)]
fn is_plain(text: &[u8]) -> bool
    ensures { result ≡ (begins is_ascii_digit text.now && not (list_any is_x text.now)) }
{
    begins_with(text, Class::Digit) && !has_x(text)
}

// Whether a text has an `x` or `X`.
#[inline(always)]
fn has_x(text: &[u8]) -> bool
    ensures { result ≡ list_any is_x text.now }
{
    text.iter().any(|byte| *byte == b'x' || *byte == b'X')
}

// Whether a text begins with `v` or `V` and a digit, and is another version without that letter.
fn counts_v<'t, V: SchemeVersion<'t>>(version: &V, text: &'t [u8]) -> bool
    ensures { result ≡ (begins_with_v text.now && not (ties (V.plain version.now) (V.rules.read_as (drop 1 text.now)))) }
{
    match text.split_first() {
        Some((_, rest)) => begins_with_v(text) && !ties_with(version, rest),
        None => false,
    }
}

// Whether a text begins with `v` or `V` and a digit.
fn begins_with_v(text: &[u8]) -> bool
    ensures { result ≡ begins_with_v text.now }
{
    match text {
        [letter, digit, ..] => (*letter == b'v' || *letter == b'V') && digit.is_ascii_digit(),
        _ => false,
    }
}

// Whether a text is a version that ties with another.
fn ties_with<'t, V: SchemeVersion<'t>>(version: &V, text: &'t [u8]) -> bool
    ensures { result ≡ ties (V.plain version.now) (V.rules.read_as text.now) }
{
    match V::read(text) {
        Some(other) => other.compare(version).is_eq(),
        None => false,
    }
}

// Returns what stands behind an epoch, which is digits and a colon; the whole text without one.
fn behind_epoch(text: &[u8]) -> &[u8]
    ensures { result.now ≡ behind_epoch text.now }
{
    match split_run(text, Class::Digit).1 {
        [b':', rest @ ..] => rest,
        _ => text,
    }
}

// Whether `x` or `X` is one of the parts with which a text begins: letters and digits, with dots between the parts.
fn has_part_x(text: &[u8]) -> bool
    ensures { result ≡ has_part_x true text.now }
{
    let mut left = text;
    let mut begins = true;
    while let Some((first, rest)) = left.split_first() {
        if *first != b'.' && !first.is_ascii_alphanumeric() {
            return false;
        }
        if begins && is_x(*first) && part_ends(rest) {
            return true;
        }
        begins = *first == b'.';
        left = rest;
    }
    false
}

// Whether a byte is `x` or `X`.
fn is_x(byte: u8) -> bool
    ensures { result ≡ is_x byte }
{
    byte == b'x' || byte == b'X'
}

// Whether a part ends before a text.
fn part_ends(text: &[u8]) -> bool
    ensures { result ≡ part_ends text.now }
{
    match text.split_first() {
        Some((first, _)) => !first.is_ascii_alphanumeric(),
        None => true,
    }
}

// Whether a text has a digit.
fn has_digit(text: &[u8]) -> bool
    ensures { result ≡ list_any is_ascii_digit text.now }
{
    text.iter().any(|byte| byte.is_ascii_digit())
}
