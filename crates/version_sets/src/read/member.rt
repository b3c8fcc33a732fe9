//! Members with a version: the version that is asked for, and the set that they are by themselves.

ghost use Rattle.std.specs.Prelude.{◌≡◌, ◌+◌, ◌*◌, ◌≤◌, ◌∷◌, [], length, IfOk, IfSome, ℕ};
ghost use Rattle.std.specs.{List.concat, List.flat_map, Option.option_map};
ghost use Rattle.version_sets.specs.{Comparison.before_star, Comparison.bytes_of, Comparison.ends_with, Comparison.starred, Form.form_bytes, Form.number, Form.places, Form.Rise, Reading.asked, Reading.plain_asked, Reading.with_prefix, Reading.with_version, Reading.IsWithin};
ghost use Rattle.version_sets.specs.declared.read.comparison.Comparison.TheVariants.{Equal};
ghost use Rattle.version_order.specs.{Facts.key_room, Keyed.end_of, keys.Sinks.put_at, keys.Sinks.saturated, keys.Sinks.IsWritten};

use crate::read::comparison::Comparison;
use crate::read::fault::Reason;
use crate::read::slip::slip_of;
use crate::write::{number, write_at, write_head};
use version_order::{Count, End, Operators, Room, SchemeVersion, put_end};

// Returns a comparison with the text of its version, behind which `.*` may stand, or why there is none.
pub(crate) fn asked<'t, V: SchemeVersion<'t>>(
    comparison: Comparison,
    text: &'t [u8],
) -> Result<(Comparison, V), Reason>
    ensures asked { plain_asked V.plain result ≡ asked V.rules.read_as V.rules.facts.operators comparison text.now }
    ensures small { IfOk result (λ member. IsWithin (key_room V.rules.facts) (length text.now) (ends_with member.0 (V.plain member.1))) }
    ensures rise { IfOk result (λ member. Rise (ends_with member.0 (V.plain member.1))) }
{
    match before_star(text) {
        Some(front) => with_prefix(comparison, front),
        None => with_version(comparison, text),
    }
}

// Returns what a comparison is with `.*` behind its version, with that version, or why there is none. Apart from the
// others, since few members have a `.*`.
#[inline(never)]
fn with_prefix<'t, V: SchemeVersion<'t>>(
    comparison: Comparison,
    text: &'t [u8],
) -> Result<(Comparison, V), Reason>
    ensures asked { plain_asked V.plain result ≡ with_prefix V.rules.read_as V.rules.facts.operators (starred comparison) text.now }
    ensures small { IfOk result (λ member. IsWithin (key_room V.rules.facts) (length text.now) (ends_with member.0 (V.plain member.1))) }
    ensures rise { IfOk result (λ member. Rise (ends_with member.0 (V.plain member.1))) }
{
    with_version(comparison.starred().ok_or(Reason::StarBehind)?, text)
}

// Returns what stands before `.*` at the end of a text, or None without it.
fn before_star(text: &[u8]) -> Option<&[u8]>
    ensures before { option_map (λ front. front.now) result ≡ before_star text.now }
    ensures shorter { IfSome result (λ front. length front.now ≤ length text.now) }
{
    text.strip_suffix(b".*".as_slice())
}

// Returns a comparison with the version that a text is, or why there is none.
#[inline(always)]
fn with_version<'t, V: SchemeVersion<'t>>(
    comparison: Comparison,
    text: &'t [u8],
) -> Result<(Comparison, V), Reason>
    ensures asked { plain_asked V.plain result ≡ with_version V.rules.read_as V.rules.facts.operators comparison text.now }
    ensures small { IfOk result (λ member. IsWithin (key_room V.rules.facts) (length text.now) (ends_with member.0 (V.plain member.1))) }
    ensures rise { IfOk result (λ member. Rise (ends_with member.0 (V.plain member.1))) }
{
    let version = V::read(text).ok_or(Reason::NotVersion)?;
    if let Some(slip) = slip_of(&version, text) {
        return Err(Reason::Slip(slip));
    }
    let words = V::facts().operators;
    if comparison.asks_parts() && !matches!(words, Operators::Parts) {
        return Err(Reason::NoParts);
    }
    if comparison.asks_doubled() && !matches!(words, Operators::Doubled) {
        return Err(Reason::NotDoubled);
    }
    if comparison.asks_bare() && !version.is_bare() {
        return Err(Reason::NotBare);
    }
    Ok((comparison, version))
}

// Writes the set of a comparison with a version into a buffer from a place on, and returns the place after it.
pub(crate) fn write_member<'t, V: SchemeVersion<'t>>(
    order: u8,
    member: (Comparison, V),
    room: &mut [u8],
    start: usize,
) -> usize
    requires { start + length (form_bytes order (ends_with member.0 (V.plain member.1))) ≤ length room.old }
    ensures bytes { room.new ≡ put_at room.old start (form_bytes order (ends_with member.0 (V.plain member.1))) }
    ensures end { result ≡ start + length (form_bytes order (ends_with member.0 (V.plain member.1))) }
{
    let ends = member.0.ends();
    let (_, rest) = room.split_at_mut(start);
    let (head, rest) = rest.split_at_mut(9);
    let (numbers, rest) = rest.split_at_mut(8 * ends.len());
    write_head(head, order, ends.len());
    start + 9 + 8 * ends.len() + write_ends(member.1, ends, numbers, rest)
}

/// Writes the set of what ties with a version of an order into a buffer, with a number for the order, if it fits there.
/// The version may be any one: of a value that is given none is a slip. Returns how many bytes the set has.
pub fn write_tied<'t, V: SchemeVersion<'t>>(order: u8, version: V, room: &mut [u8]) -> usize
    ensures length { result ≡ saturated (length (form_bytes order (ends_with Equal (V.plain version)))) }
    ensures bytes { IsWritten room.old 0 (form_bytes order (ends_with Equal (V.plain version))) room.new }
{
    let length = tied_length(version);
    if length <= room.len() {
        write_member(order, (Comparison::Equal, version), room, 0);
    }
    length
}

// Returns how many bytes the set of what ties with a version has.
fn tied_length<'t, V: SchemeVersion<'t>>(version: V) -> usize
    ensures { (order : ℕ) → result ≡ saturated (length (form_bytes order (ends_with Equal (V.plain version)))) }
{
    let mut count = Count { length: 25 };
    put_end(&version, End::Key, &mut count);
    put_end(&version, End::AfterKey, &mut count);
    count.length()
}

// Writes the ends of a version, one behind another, and apart from them where each is over. Returns how many bytes they
// have.
fn write_ends<'t, V: SchemeVersion<'t>>(
    version: V,
    ends: &[End],
    numbers: &mut [u8],
    bytes: &mut [u8],
) -> usize
    requires numbers { length numbers.old ≡ 8 * length ends.now }
    requires bytes { length (concat (bytes_of (V.plain version) ends.now)) ≤ length bytes.old }
    ensures numbers { numbers.new ≡ flat_map number (places 0 (bytes_of (V.plain version) ends.now)) }
    ensures bytes { bytes.new ≡ put_at bytes.old 0 (concat (bytes_of (V.plain version) ends.now)) }
    ensures length { result ≡ length (concat (bytes_of (V.plain version) ends.now)) }
{
    let mut left = ends;
    let (mut place, mut over) = (0, 0);
    while let Some((end, rest)) = left.split_first() {
        over = write_end(version, *end, bytes, over);
        write_at(numbers, place, &number(over));
        place += 8;
        left = rest;
    }
    over
}

// Writes an end of a version into a buffer from a place on, and returns the place after it.
#[inline(always)]
fn write_end<'t, V: SchemeVersion<'t>>(version: V, end: End, room: &mut [u8], start: usize) -> usize
    requires { start + length (end_of end (V.plain version)) ≤ length room.old }
    ensures bytes { room.new ≡ put_at room.old start (end_of end (V.plain version)) }
    ensures end { result ≡ start + length (end_of end (V.plain version)) }
{
    let mut sink = Room { room, end: start };
    put_end(&version, end, &mut sink);
    sink.end
}

// Writes the set that has all keys into a buffer from a place on, and returns the place after it.
#[tactic(auto, unfolding(crate::specs::Form::form_bytes, crate::specs::Form::number))]
pub(crate) fn write_all(order: u8, room: &mut [u8], start: usize) -> usize
    requires { start + length (form_bytes order ([] ∷ [])) ≤ length room.old }
    ensures bytes { room.new ≡ put_at room.old start (form_bytes order ([] ∷ [])) }
    ensures end { result ≡ start + length (form_bytes order ([] ∷ [])) }
{
    let bytes = [order, 1, 0, 0, 0, 0, 0, 0, 0, 0, 0, 0, 0, 0, 0, 0, 0];
    write_at(room, start, &bytes);
    start + bytes.len()
}
