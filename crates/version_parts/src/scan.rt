//! Scans: parsers that return pieces of their input, and do not allocate. The crate `versions` is built on them.

ghost use Rattle.std.specs.Prelude.{◌≡◌, ◌<◌, ◌^◌, List, drop, length, map, nat_lt, take, true, IfOk, IfSome, OnErr, Some, SomeIff};
ghost use Rattle.std.specs.{Char.is_ascii_alphanumeric, Char.is_ascii_digit, List.list_all, List.prefix_len, List.take_while, Option.option_map, Str.Parse.digits_value};
ghost use Rattle.version_order.specs.texts.Front.{after_mark, behind, dotted_front, elements_at, run_front, Consumes, Front};
ghost use Rattle.version_order.specs.{keys.Lists.split_last, texts.Bytes.dot, texts.Bytes.is_identifier_byte, texts.Class.contains, texts.Class.IsAsciiClass, texts.Grammar.sep_front};
ghost use Rattle.version_parts.specs.{Body.Reads, Sep.plain_sep};
ghost use Rattle.version_rules.specs.grammar.{Body.meta_front, Chunk.unsigned_front, Chunk.SpellsNumeral};

use crate::sep::Sep;
use std::alloc::{AllocError, Global};
use version_order::{Class, run_length};

// The longest run of a class at the start of a text, which may be empty, and the rest.
#[tactic(auto, using(crate::proofs::lemmas::Scans::run_boundary))]
#[inline(always)]
pub(crate) fn split_run(i: &str, class: Class) -> (&str, &str)
    requires { IsAsciiClass class }
    ensures run { result.0.now ≡ take_while (contains class) i.now }
    ensures rest { result.1.now ≡ drop (prefix_len (contains class) i.now) i.now }
{
    i.split_at(run_length(i.as_bytes(), class))
}

// Whether all bytes of a text are digits.
#[inline(always)]
pub(crate) fn is_all_digits(text: &str) -> bool
    ensures { result ≡ list_all is_ascii_digit text.now }
{
    text.as_bytes().iter().all(|byte| byte.is_ascii_digit())
}

// The longest run of a class at the start of a text, and the rest, or None if the run is empty.
#[tactic(auto, unfolding(version_order::specs::texts::Front::run_front))]
#[inline(always)]
pub(crate) fn nonempty_run(i: &str, class: Class) -> Option<(&str, &str)>
    requires { IsAsciiClass class }
    ensures { option_map (λ r. (r.0.now, r.1.now)) result ≡ run_front (contains class) i.now }
{
    let (run, rest) = split_run(i, class);
    if run.is_empty() {
        return None;
    }
    Some((run, rest))
}

/// Returns the text after the byte `mark`, or None if the text does not begin with `mark`.
#[inline(always)]
pub fn after_mark(i: &str, mark: u8) -> Option<&str>
    requires { mark < 128 }
    ensures { option_map (λ r. r.now) result ≡ after_mark mark i.now }
{
    match i.as_bytes() {
        [first, ..] if *first == mark => Some(i.split_at(1).1),
        _ => None,
    }
}

/// Parses the number at the start of a text, and returns it with the rest. If the text begins with `0`, the number is
/// 0, and the rest is all after that digit. Otherwise it is the longest run of digits. Returns None if there is no
/// digit, or the value is above 4294967295.
#[inline(always)]
pub fn unsigned(i: &str) -> Option<(u32, &str)>
    ensures { option_map (λ r. (r.0, r.1.now)) result ≡ unsigned_front i.now }
{
    let (digits, rest) = numeral(i)?;
    Some((value_of_numeral(digits), rest))
}

/// Parses the number at the start of a text as [`unsigned`] does, and returns its digits with the rest.
#[inline(always)]
pub fn numeral(i: &str) -> Option<(&str, &str)>
    ensures read { option_map (λ r. (digits_value 10 r.0.now, r.1.now)) result
        ≡ unsigned_front i.now }
    ensures numeral { IfSome result
        (λ r. SpellsNumeral r.0.now (digits_value 10 r.0.now)) }
{
    let (digits, rest) = split_run(i, Class::Digit);
    numeral_of_run(i, digits, rest)
}

// The same, given the longest run of digits at the start of the text, and what follows it.
#[tactic(auto, using(version_rules::proofs::lemmas::Numeral::numerals_read, version_rules::proofs::lemmas::Numeral::numeral_large, version_rules::proofs::lemmas::Numeral::numeral_none, version_rules::proofs::lemmas::Numeral::numeral_run, version_rules::proofs::lemmas::Numeral::run_spelled, crate::proofs::lemmas::Cited::numeral_of_run_cites))]
#[inline(always)]
pub(crate) fn numeral_of_run<'a>(
    i: &'a str,
    digits: &'a str,
    rest: &'a str,
) -> Option<(&'a str, &'a str)>
    requires run { digits.now ≡ take_while is_ascii_digit i.now }
    requires rest { rest.now ≡ drop (prefix_len is_ascii_digit i.now) i.now }
    ensures read { option_map (λ r. (digits_value 10 r.0.now, r.1.now)) result
        ≡ unsigned_front i.now }
    ensures numeral { IfSome result
        (λ r. SpellsNumeral r.0.now (digits_value 10 r.0.now)) }
{
    if let Some(rest) = after_mark(i, b'0') {
        return Some(("0", rest));
    }
    if digits.is_empty() {
        return None;
    }
    if is_below_limit(digits) {
        return Some((digits, rest));
    }
    None
}

// Whether the value of a run of digits is below 2 ^ 32. That of nine digits is.
#[tactic(auto, using(version_rules::proofs::lemmas::Numeral::nine_digits))]
#[inline(always)]
fn is_below_limit(digits: &str) -> bool
    requires some { 0 < length digits.now }
    requires all { list_all is_ascii_digit digits.now ≡ true }
    ensures { result ≡ nat_lt (digits_value 10 digits.now) (2 ^ 32) }
{
    if digits.len() < 10 {
        return true;
    }
    value_of(digits).is_some()
}

/// Returns the value of a numeral.
#[inline(always)]
pub fn value_of_numeral(digits: &str) -> u32
    requires { SpellsNumeral digits.now (digits_value 10 digits.now) }
    ensures { result ≡ digits_value 10 digits.now }
{
    let mut value = 0;
    for digit in digits.as_bytes() {
        value = value * 10 + u32::from(*digit - b'0');
    }
    value
}

/// Returns the longest run of letters and digits at the start of a text, and the rest, or None if the run is empty.
pub fn alphanums(i: &str) -> Option<(&str, &str)>
    ensures { option_map (λ r. (r.0.now, r.1.now)) result ≡ run_front is_ascii_alphanumeric i.now }
{
    nonempty_run(i, Class::Alphanumeric)
}

/// Returns the longest run of letters, digits and hyphens at the start of a text, and the rest, or None if the run is
/// empty.
pub fn hyphenated_alphanums(i: &str) -> Option<(&str, &str)>
    ensures { option_map (λ r. (r.0.now, r.1.now)) result ≡ run_front is_identifier_byte i.now }
{
    nonempty_run(i, Class::Identifier)
}

// The value of a run of digits, if it is below 2 ^ 32. Few runs have the ten digits that need this call, so it is not
// inlined into each scan.
#[inline(never)]
pub(crate) fn value_of(digits: &str) -> Option<u32>
    requires some { 0 < length digits.now }
    requires all { list_all is_ascii_digit digits.now ≡ true }
    ensures { SomeIff result (digits_value 10 digits.now < 2 ^ 32) (digits_value 10 digits.now) }
{
    digits.parse::<u32>().ok()
}

/// Scans the build metadata at the start of a text, and returns it, without its plus, with the rest. The metadata is
/// part of the input, not a copy.
#[inline(always)]
pub fn metadata(i: &str) -> Option<(&str, &str)>
    ensures { option_map (λ r. (r.0.now, r.1.now)) result ≡ meta_front i.now }
{
    nonempty_run(after_mark(i, b'+')?, Class::Metadata)
}

/// Scans the sign at the start of a text, and returns it with the rest, or None.
pub fn sign(i: &str) -> Option<(Sep, &str)>
    ensures { option_map (λ r. (plain_sep r.0, r.1.now)) result ≡ sep_front i.now }
{
    match i.as_bytes() {
        [first, ..] => Some((Sep::of(*first)?, i.split_at(1).1)),
        _ => None,
    }
}

/// A kind of element that a dotted list is made of.
pub trait Element {
    /// The type of an element that is built.
    type Item: Drop;

    // The value of an element, the front that reads it, and which elements own memory.
    ghost Plain: { Type 0 };

    ghost plain: { Self.Item → Plain };

    ghost front: { Front Plain };

    ghost owns: { Plain → Type 0 };

    /// Returns the rest after the element at the start of a text, or None if no element parses.
    fn skip(i: &str) -> Option<&str>
        ensures { option_map (λ r. r.now) result ≡ option_map (λ p. p.1) (front i.now) };

    /// Parses the element at the start of a text, and returns it with the rest. Returns None, without allocating, if no
    /// element parses. Fails on allocation failure.
    fn read(alloc: Global, i: &str) -> Result<Option<(Self::Item, &str)>, AllocError>
        ensures { Reads plain owns result (front i.now) };

    // The rest is no longer than the text.
    ghost consumes: { Consumes front };
}

/// A scanned dotted list. Its elements are parts of the input.
#[derive(Clone, Copy)]
pub struct Dotted<'a> {
    /// The text from the first element on.
    pub text: &'a str,
    /// The count of elements.
    pub count: usize,
    /// The text from the last element on.
    pub last: &'a str,
}

impl<'a> Dotted<'a> {
    /// Scans one element or more at the start of a text, with dots between, and returns the list with the rest. The
    /// list ends before a dot that no element follows.
    #[inline(always)]
    pub fn scan<E: Element>(i: &'a str) -> Option<(Dotted<'a>, &'a str)>
        ensures elements { option_map (λ r. (elements_at E.front r.0.text.now, r.1.now)) result
            ≡ dotted_front E.front i.now }
        ensures counted { IfSome result
            (λ r. r.0.count ≡ length (elements_at E.front r.0.text.now)) }
        ensures last { IfSome result (λ r. (parts : List E.Plain × E.Plain)
            × (split_last (elements_at E.front r.0.text.now) ≡ Some parts)
            × (E.front r.0.last.now ≡ Some (parts.1, r.1.now))) }
    {
        let mut rest = E::skip(i)?;
        let mut count = 1;
        let mut last = i;
        while let Some((next, after)) = skip_further::<E>(rest) {
            count += 1;
            last = next;
            rest = after;
        }
        let text = i;
        Some((Dotted { text, count, last }, rest))
    }

    /// Returns the first `count` elements, in a list of that capacity. Fails on allocation failure.
    pub fn build<E: Element>(self, alloc: Global, count: usize) -> Result<Vec<E::Item>, AllocError>
        ensures ok { IfOk result (λ items. map E.plain items.items
            ≡ take count (elements_at E.front self.entry.text.now)) }
        ensures err { OnErr result (0 < count) }
    {
        let mut items = Vec::with_capacity(alloc, count)?;
        let mut text = self.text;
        while items.len() < count {
            let Some((item, rest)) = E::read(alloc, text)? else {
                return Ok(items);
            };
            items.push(item)?;
            let Some(next) = after_mark(rest, b'.') else {
                return Ok(items);
            };
            text = next;
        }
        Ok(items)
    }
}

// The text from the element after a dot on, and the rest after that element.
#[inline(always)]
fn skip_further<E: Element>(i: &str) -> Option<(&str, &str)>
    ensures next { IfSome result (λ r. after_mark dot i.now ≡ Some r.0.now) }
    ensures after { option_map (λ r. r.1.now) result
        ≡ option_map (λ p. p.1) (behind dot E.front i.now) }
{
    let next = after_mark(i, b'.')?;
    Some((next, E::skip(next)?))
}
