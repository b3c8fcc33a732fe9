//! The one writer of keys: it reads a text by its shape, and writes into any sink.

ghost use Rattle.std.specs.Prelude.{◌≡◌, ◌==◌, false, ◌∷◌, ◌-◌, [], List, ℕ, IfNone, IfSome, Some, None, drop, length, true};
ghost use Rattle.std.specs.{Char.is_ascii_alphanumeric, Char.is_ascii_digit, List.list_all, List.prefix_len, List.take_while, Str.Parse.digits_value};
ghost use Rattle.version_order.specs.keys.Codes.{items_bytes, list_bytes, number_bytes};
ghost use Rattle.version_order.specs.texts.{Bytes.is_section_byte};
ghost use Rattle.version_rules.specs.key.PartKey.{part_bytes, part_key, parts_bytes, split_bytes, split_of};
ghost use Rattle.version_rules.specs.{key.Key.key_bytes, key.Key.section_bytes, key.Key.tail_bytes, requirement.Range.begun};
ghost use Rattle.version_texts.specs.Key.{parts_behind, front_bytes, parts_of, sections_of, tail_of, text_key};
ghost use Rattle.version_texts.specs.Scan.{body_in, epoch_in, is_tail_byte, tail_in, Fits};

pub(crate) mod length;
pub(crate) mod ties;
pub(crate) mod whole;

use crate::scan::shape::{Shape, TailKind};
use version_order::{Class, Sink, after_byte, begins_with, put_long_number, put_number, put_run};
use version_pieces::put_release;

// Writes the run of letters and digits at the start of a text, split before its first digit, and returns the rest.
#[inline(always)]
fn put_split<'t, S: Sink>(sink: &mut S, text: &'t [u8]) -> &'t [u8]
    requires { S.fits sink.old
        (split_bytes (split_of (take_while is_ascii_alphanumeric text.now))) }
    ensures bytes { S.takes sink.old
        (split_bytes (split_of (take_while is_ascii_alphanumeric text.now))) sink.new }
    ensures rest { result.now ≡ drop (prefix_len is_ascii_alphanumeric text.now) text.now }
{
    let rest = put_run(sink, text, Class::Letter);
    sink.put(0);
    if !begins_with(rest, Class::Digit) {
        sink.put(0);
        return rest;
    }
    sink.put(1);
    let behind = put_long_number(sink, rest);
    let rest = put_run(sink, behind, Class::Alphanumeric);
    sink.put(0);
    rest
}

// Writes the part at the start of a text, and returns the rest. Most parts are one digit, and written at once.
#[inline(always)]
fn put_part<'t, S: Sink>(sink: &mut S, text: &'t [u8]) -> &'t [u8]
    requires { S.fits sink.old
        (part_bytes (Some (part_key (take_while is_ascii_alphanumeric text.now)))) }
    ensures bytes { S.takes sink.old
        (part_bytes (Some (part_key (take_while is_ascii_alphanumeric text.now)))) sink.new }
    ensures rest { result.now ≡ drop (prefix_len is_ascii_alphanumeric text.now) text.now }
{
    if let [digit @ b'0'..=b'9', rest @ ..] = text {
        if !begins_with(rest, Class::Alphanumeric) {
            put_digit(sink, *digit);
            return rest;
        }
    }
    put_any_part(sink, text)
}

// Writes the part that is a digit.
#[inline(always)]
fn put_digit<S: Sink>(sink: &mut S, digit: u8)
    requires digit { is_ascii_digit digit ≡ true }
    requires fits { S.fits sink.old (part_bytes (Some (part_key (digit ∷ [])))) }
    ensures { S.takes sink.old (part_bytes (Some (part_key (digit ∷ [])))) sink.new }
{
    if digit == b'0' {
        sink.put(3);
        sink.put(0);
        sink.put(2);
    } else {
        sink.put_four(3, 1, digit, 2);
    }
}

// Writes the part at the start of a text, of any length, and returns the rest.
#[inline(always)]
fn put_any_part<'t, S: Sink>(sink: &mut S, text: &'t [u8]) -> &'t [u8]
    requires { S.fits sink.old
        (part_bytes (Some (part_key (take_while is_ascii_alphanumeric text.now)))) }
    ensures bytes { S.takes sink.old
        (part_bytes (Some (part_key (take_while is_ascii_alphanumeric text.now)))) sink.new }
    ensures rest { result.now ≡ drop (prefix_len is_ascii_alphanumeric text.now) text.now }
{
    let mut left = text;
    if begins_with(text, Class::Digit) {
        sink.put(3);
        left = put_long_number(sink, text);
        if !begins_with(left, Class::Letter) {
            sink.put(2);
            return left;
        }
    }
    sink.put(1);
    put_split(sink, left)
}

// Writes the parts at the start of a text, with dots between them, and returns the rest. Returns None once the sink is
// decided.
#[inline(always)]
fn put_parts<'t, S: Sink>(sink: &mut S, text: &'t [u8]) -> Option<&'t [u8]>
    requires { S.fits sink.old
        (items_bytes part_bytes (parts_of (take_while is_section_byte text.now))) }
    ensures bytes { S.takes sink.old
        (items_bytes part_bytes (parts_of (take_while is_section_byte text.now))) sink.new }
    ensures rest { IfSome result
        (λ rest. rest.now ≡ drop (prefix_len is_section_byte text.now) text.now) }
    ensures decided { IfNone result
        ((bytes : List ℕ) → S.takes sink.new bytes sink.new) }
{
    let mut left = text;
    'parts: loop {
        let rest = put_part(sink, left);
        if sink.is_decided() {
            return None;
        }
        match after_byte(b'.', rest) {
            Some(behind) => left = behind,
            None => return Some(rest),
        }
    }
}

// Writes the same parts and the end of the list, and returns the rest. Returns None once the sink is decided.
#[inline(always)]
#[tactic(auto, using(version_order::proofs::lemmas::Codes::ended, version_order::proofs::lemmas::Sinks::next_fits, version_order::proofs::lemmas::Sinks::owes_all, version_order::proofs::lemmas::Sinks::owes_rest))]
fn put_list<'t, S: Sink>(sink: &mut S, text: &'t [u8]) -> Option<&'t [u8]>
    requires { S.fits sink.old
        (parts_bytes (parts_of (take_while is_section_byte text.now))) }
    ensures bytes { S.takes sink.old
        (parts_bytes (parts_of (take_while is_section_byte text.now))) sink.new }
    ensures rest { IfSome result
        (λ rest. rest.now ≡ drop (prefix_len is_section_byte text.now) text.now) }
    ensures decided { IfNone result
        ((bytes : List ℕ) → S.takes sink.new bytes sink.new) }
{
    let rest = put_parts(sink, text)?;
    sink.put(2);
    Some(rest)
}

// Writes the sections of a text, between its signs, and their end.
#[inline(always)]
fn put_sections<S: Sink>(sink: &mut S, text: &[u8])
    requires text { list_all (is_tail_byte TailKind.Sections) text.now ≡ true }
    requires fits { S.fits sink.old (list_bytes section_bytes (sections_of text.now)) }
    ensures { S.takes sink.old (list_bytes section_bytes (sections_of text.now)) sink.new }
{
    let mut left = text;
    'sections: loop {
        sink.put(2);
        let Some(rest) = put_list(sink, left) else {
            return;
        };
        match rest.split_first() {
            Some((_, behind)) => left = behind,
            None => {
                sink.put(1);
                return;
            }
        }
    }
}

// Writes a tail, by its kind and its text.
#[inline(always)]
pub(crate) fn put_tail<S: Sink>(sink: &mut S, kind: TailKind, text: &[u8])
    requires text { list_all (is_tail_byte kind) text.now ≡ true }
    requires fits { S.fits sink.old (tail_bytes (tail_of kind text.now)) }
    ensures { S.takes sink.old (tail_bytes (tail_of kind text.now)) sink.new }
{
    sink.put(kind.rank());
    match kind {
        TailKind::Nothing => {}
        TailKind::Sections => put_sections(sink, text),
        TailKind::PreRelease | TailKind::Release => put_release(sink, text),
    }
}

// Writes an epoch, by its digits.
#[inline(always)]
#[tactic(auto, using(version_order::proofs::lemmas::Sinks::takes_same, crate::proofs::lemmas::Library::all_taken))]
fn put_epoch<S: Sink>(sink: &mut S, digits: &[u8])
    requires digits { list_all is_ascii_digit digits.now ≡ true }
    requires fits { S.fits sink.old (number_bytes (digits_value 10 digits.now)) }
    ensures { S.takes sink.old (number_bytes (digits_value 10 digits.now)) sink.new }
{
    if digits.is_empty() {
        sink.put(0);
    } else {
        put_number(sink, digits);
    }
}

// The epoch in a text, without its colon.
#[inline(always)]
pub(crate) fn epoch_at(text: &[u8], shape: Shape) -> &[u8]
    requires { Fits text.now shape }
    ensures { result.now ≡ epoch_in text.now shape }
{
    if shape.body == 0 {
        return &[];
    }
    &text[..shape.body - 1]
}

// The body in a text.
#[inline(always)]
pub(crate) fn body_at(text: &[u8], shape: Shape) -> &[u8]
    requires { Fits text.now shape }
    ensures { result.now ≡ body_in text.now shape }
{
    &text[shape.body..shape.end]
}

// The tail in a text, without the byte before it.
#[inline(always)]
pub(crate) fn tail_at(text: &[u8], shape: Shape) -> &[u8]
    requires { Fits text.now shape }
    ensures { result.now ≡ tail_in text.now shape }
{
    if shape.end >= shape.tail_end {
        return &[];
    }
    &text[shape.end + 1..shape.tail_end]
}

/// Writes what the keys of an epoch begin with, by its digits, if their bodies begin with the parts of a text. Returns
/// early once the sink is decided. Does not allocate.
#[inline(always)]
#[tactic(auto, using(version_order::proofs::lemmas::Sinks::next_fits, version_order::proofs::lemmas::Sinks::owes_all, version_order::proofs::lemmas::Sinks::owes_rest, version_order::proofs::lemmas::Sinks::takes_same, crate::proofs::lemmas::Library::append_nil, crate::proofs::lemmas::Library::all_taken))]
pub fn put_begun<S: Sink>(sink: &mut S, digits: &[u8], parts: Option<&[u8]>)
    requires digits { list_all is_ascii_digit digits.now ≡ true }
    requires parts { IfSome parts (λ text. list_all is_section_byte text.now ≡ true) }
    requires fits { S.fits sink.old (begun (digits_value 10 digits.now) (parts_behind parts)) }
    ensures { S.takes sink.old (begun (digits_value 10 digits.now) (parts_behind parts.entry))
        sink.new }
{
    put_epoch(sink, digits);
    if let Some(text) = parts {
        put_parts(sink, text);
    }
}

/// Writes the key of a version, by its text and its shape. Returns early once the sink is decided. Does not allocate.
#[inline(always)]
#[tactic(auto, using(version_order::proofs::lemmas::Sinks::next_fits, version_order::proofs::lemmas::Sinks::owes_all, version_order::proofs::lemmas::Sinks::owes_rest, crate::proofs::lemmas::versioning_ref::VersioningRef::key_halves))]
pub fn put_key<S: Sink>(sink: &mut S, text: &[u8], shape: Shape)
    requires shape { Fits text.now shape }
    requires fits { S.fits sink.old (key_bytes (text_key text.now shape)) }
    ensures { S.takes sink.old (key_bytes (text_key text.now shape)) sink.new }
{
    if put_front(sink, text, shape) {
        put_tail(sink, shape.tail, tail_at(text, shape));
    }
}

// Writes the epoch and the body of a key. Returns whether the tail has to follow: not if the sink is decided.
#[inline(always)]
pub(crate) fn put_front<S: Sink>(sink: &mut S, text: &[u8], shape: Shape) -> bool
    requires shape { Fits text.now shape }
    requires fits { S.fits sink.old (front_bytes (text_key text.now shape)) }
    ensures bytes { S.takes sink.old (front_bytes (text_key text.now shape)) sink.new }
    ensures decided { result ≡ false → (bytes : List ℕ) → S.takes sink.new bytes sink.new }
{
    put_epoch(sink, epoch_at(text, shape));
    if sink.is_decided() {
        return false;
    }
    put_list(sink, body_at(text, shape)).is_some()
}
