//! Versions of any kind, borrowed from their texts.

ghost use Rattle.std.specs.Prelude.{◌≡◌, Some, true};
ghost use Rattle.std.specs.{Char.is_ascii_digit, List.list_all, Str.Parse.digits_value};
ghost use Rattle.version_texts.specs.Scan.{shape_of};
ghost use Rattle.version_order.specs.keys.Sinks.{saturated};
ghost use Rattle.version_rules.specs.grammar.Versioning.{versioning_kind};

pub(crate) mod field;
pub(crate) mod numbers;

use crate::asked::end_order::compare_ends;
use crate::asked::{matching, range};
use crate::key::length::{LONGEST_WITH_ROOM, length_with, room_for};
use crate::key::ties::compare_key_ties;
use crate::key::whole;
use crate::order::difference::{Difference, key_difference};
use crate::scan::scan;
use crate::scan::shape::{Shape, TailKind};
use crate::versioning_ref::field::Field;
use crate::{key, order};
use std::alloc::AllocError;
use std::cmp::Ordering;
use std::{fmt, str};
use version_order::{Count, End, Kept, Room, Sink, through_dot};
use version_rules::{Asked, Kind, Kinds};

/// A version of the first kind that fits its text, borrowed from that text: a `Versioning` that owns nothing. It
/// compares and prints as that `Versioning` does, and has the same numbers. Only `append_key` and
/// `append_end` allocate. Each call takes time at most linear in the text.
#[derive(Clone, Copy)]
pub struct VersioningRef<'a> {
    text: &'a [u8],
    shape: Shape,
    ghost read: { shape_of text.now ≡ Some shape },
}

impl<'a> VersioningRef<'a> {
    ghost use Rattle.std.specs.Prelude.{◌+◌, ◌-◌, ◌++◌, ◌&&◌, ◌↔◌, ◌<◌, ◌≤◌, ◌^◌, length, IfNone, IfSome, IsTrue, OnErr, OnOk};
    ghost use Rattle.std.specs.{Option.is_none, Option.option_map, declared.cmp.Ordering.TheVariants.Equal};
    ghost use Rattle.version_order.specs.keys.{Lists.bytes_cmp, Sinks.saturated, Sinks.IsWritten};
    ghost use Rattle.version_rules.specs.grammar.Versioning.{is_prerelease, versioning_nth, versioning_of, versioning_plain_cmp, versioning_text};
    ghost use Rattle.version_rules.specs.requirement.Range.{end_bytes, kept_parts, begun, has_kind, AreBetween};
    ghost use Rattle.version_rules.specs.key.Key.{key_of, precedence, versioning_epoch, key_bytes};
    ghost use Rattle.version_texts.specs.{Mixed.is_bare, Order.difference_of, VersioningRef.epoch_and_parts, VersioningRef.field_span, VersioningRef.major_text, VersioningRef.plain_versioning_ref};

    /// Parses the whole text as a strict version, else as a general, else as a messy one; returns None if it does not
    /// parse. Does not allocate.
    #[inline(always)]
    pub fn new(s: &'a str) -> Option<VersioningRef<'a>>
        ensures { option_map plain_versioning_ref result ≡ versioning_of s.now }
    {
        VersioningRef::from_bytes(s.as_bytes())
    }

    /// Parses bytes as `new` parses their text; returns None if they do not parse. Bytes that are not UTF-8 are not a
    /// version. Does not allocate.
    #[inline(always)]
    #[tactic(auto, using(crate::proofs::lemmas::versioning_ref::VersioningRef::spelled, crate::proofs::lemmas::versioning_ref::VersioningRef::unspelled))]
    pub fn from_bytes(bytes: &'a [u8]) -> Option<VersioningRef<'a>>
        ensures { option_map plain_versioning_ref result ≡ versioning_of bytes.now }
    {
        let shape = scan(bytes)?;
        Some(VersioningRef { text: bytes, shape })
    }

    /// Returns its kind. Does not allocate.
    #[inline(always)]
    #[tactic(auto, using(crate::proofs::lemmas::versioning_ref::VersioningRef::kind_read))]
    pub fn kind(&self) -> Kind
        ensures { result ≡ versioning_kind (plain_versioning_ref self.now) }
    {
        self.shape.kind
    }

    /// Returns whether it is a strict version with a pre-release, such as `1.2.0-rc.1` (SemVer 2.0, section 9). False
    /// for every general or messy version: their texts do not say which of them are pre-releases. Does not allocate.
    #[inline(always)]
    pub fn is_prerelease(&self) -> bool
        ensures { result ≡ is_prerelease (plain_versioning_ref self.now) }
    {
        matches!(self.shape.tail, TailKind::PreRelease)
    }

    /// Returns the text that it was parsed from, which is what it prints. Does not allocate.
    #[tactic(auto, using(version_rules::proofs::lemmas::Grammar::is_read, version_rules::proofs::lemmas::Grammar::same_bytes, crate::proofs::lemmas::versioning_ref::VersioningRef::spelled, crate::proofs::lemmas::versioning_ref::VersioningRef::printed_read, crate::proofs::lemmas::versioning_ref::VersioningRef::utf8_read))]
    pub fn text(&self) -> &'a str
        ensures printed { result.now ≡ versioning_text (plain_versioning_ref self.now) }
        ensures read { versioning_of result.now ≡ Some (plain_versioning_ref self.now) }
    {
        str::from_utf8(self.text).unwrap()
    }

    /// Returns the bytes of its text. Does not allocate.
    #[inline(always)]
    #[tactic(auto, using(crate::proofs::lemmas::versioning_ref::VersioningRef::spelled, crate::proofs::lemmas::versioning_ref::VersioningRef::printed_read))]
    pub fn bytes(&self) -> &'a [u8]
        ensures printed { result.now ≡ versioning_text (plain_versioning_ref self.now) }
        ensures read { versioning_of result.now ≡ Some (plain_versioning_ref self.now) }
    {
        self.text
    }

    /// Returns the major number of a strict version as its text has it, and the dot behind it. Empty for other kinds.
    /// Does not allocate.
    #[tactic(auto, using(crate::proofs::lemmas::versioning_ref::VersioningRef::strict_major, crate::proofs::lemmas::versioning_ref::VersioningRef::other_major))]
    pub fn major(&self) -> &'a [u8]
        ensures { result.now ≡ major_text (plain_versioning_ref self.now) }
    {
        match self.shape.kind {
            Kind::Ideal => through_dot(self.text),
            _ => &[],
        }
    }

    /// Returns the number at a place, counted from 0, or None if no number is there. Of a strict version the places are
    /// major, minor and patch; of a general one the chunks, and after them the first number of the last part; of a
    /// messy one the chunks of the first section that no colon follows. Does not allocate.
    pub fn nth(&self, n: usize) -> Option<u32>
        ensures { result ≡ versioning_nth (plain_versioning_ref self.now) n }
    {
        numbers::nth(self.text, self.shape, n)
    }

    /// Returns its epoch: the number before its colon, which counts in the order. None without an epoch, which a strict
    /// version never has. A number past `u64::MAX` gives `u64::MAX`. Does not allocate.
    #[tactic(auto, using(std::proofs::lemmas::Bool::ne_eqb, crate::proofs::lemmas::versioning_ref::VersioningRef::shape_fits, crate::proofs::lemmas::versioning_ref::Field::field_spans))]
    pub fn epoch(&self) -> Option<u64>
        ensures { result ≡ option_map saturated (versioning_epoch (plain_versioning_ref self.now)) }
    {
        if self.shape.body == 0 {
            return None;
        }
        Some(saturated_value(key::epoch_at(self.text, self.shape)))
    }

    /// Returns where a field lies in the text: where it begins and where it ends. None if the version does not have the
    /// field. No field is empty. Does not allocate.
    pub fn span(&self, field: Field) -> Option<(usize, usize)>
        ensures { result ≡ field_span field (plain_versioning_ref self.now) }
    {
        let Shape {
            tail,
            body,
            end,
            tail_end,
            ..
        } = self.shape;
        match field {
            Field::Epoch if body > 0 => Some((0, body - 1)),
            Field::PreRelease if tail == TailKind::PreRelease => Some((end + 1, tail_end)),
            Field::Release if tail == TailKind::Release => Some((end + 1, tail_end)),
            Field::Metadata if tail_end < self.text.len() => Some((tail_end + 1, self.text.len())),
            _ => None,
        }
    }

    /// Returns the text of its epoch with the colon, which is empty without an epoch, and the text of its parts with
    /// dots between them. None of a messy version. Does not allocate.
    #[tactic(auto, using(crate::proofs::lemmas::versioning_ref::Field::body_within, crate::proofs::lemmas::versioning_ref::Field::no_texts, crate::proofs::lemmas::versioning_ref::Field::texts_are, crate::proofs::lemmas::versioning_ref::VersioningRef::shape_fits, crate::proofs::lemmas::Library::length_taken))]
    pub fn epoch_and_parts(&self) -> Option<(&'a [u8], &'a [u8])>
        ensures { option_map (λ texts. (texts.0.now, texts.1.now)) result
            ≡ epoch_and_parts (plain_versioning_ref self.now) }
    {
        match self.shape.kind {
            Kind::Complex => None,
            _ => Some(self.text[..self.shape.end].split_at(self.shape.body)),
        }
    }

    /// Returns whether it has an epoch and parts alone: it is strict or general, without pre-release, release and
    /// metadata. Does not allocate.
    #[tactic(auto, using(crate::proofs::lemmas::versioning_ref::Field::bare_general, crate::proofs::lemmas::versioning_ref::Field::bare_strict, crate::proofs::lemmas::versioning_ref::Field::messy_not_bare, crate::proofs::lemmas::versioning_ref::VersioningRef::kind_read))]
    pub fn is_bare(&self) -> bool
        ensures { result ≡ is_bare (plain_versioning_ref self.now) }
    {
        match self.shape.kind {
            Kind::Ideal => self.has_neither(Field::PreRelease, Field::Metadata),
            Kind::General => self.has_neither(Field::Release, Field::Metadata),
            Kind::Complex => false,
        }
    }

    // Whether it has neither of two fields.
    fn has_neither(&self, one: Field, other: Field) -> bool
        ensures { result ≡ (is_none (field_span one (plain_versioning_ref self.now))
            && is_none (field_span other (plain_versioning_ref self.now))) }
    {
        self.span(one).is_none() && self.span(other).is_none()
    }

    /// Compares two versions of any kind by their keys: the order of all versions (docs/ORDER.md). `Ord` breaks its
    /// ties. Does not allocate.
    #[tactic(auto, using(crate::proofs::lemmas::versioning_ref::VersioningRef::shape_fits, crate::proofs::lemmas::versioning_ref::VersioningRef::key_read))]
    pub fn precedence(&self, other: &VersioningRef<'_>) -> Ordering
        ensures { result ≡ precedence (key_of (plain_versioning_ref self.now))
            (key_of (plain_versioning_ref other.now)) }
    {
        order::compare(self.text, &self.shape, other.text, &other.shape)
    }

    /// Returns where two versions of any kind differ first, in what the order compares: in their epochs, in a part, or
    /// in their tails. A version whose parts end differs there from one that has more, as `1.2` in part 2 from `1.2.0`.
    /// `Same` and `Tie` come exactly where `precedence` is `Equal`: `Same` where `==` holds, otherwise `Tie`. Does not
    /// allocate.
    #[tactic(auto, using(crate::proofs::lemmas::Difference::by_keys, crate::proofs::lemmas::versioning_ref::VersioningRef::shape_fits, crate::proofs::lemmas::versioning_ref::VersioningRef::key_read))]
    pub fn difference(&self, other: &VersioningRef<'_>) -> Difference
        ensures { result ≡ difference_of (plain_versioning_ref self.now)
            (plain_versioning_ref other.now) }
    {
        if let Some(difference) = key_difference(self.text, self.shape, other.text, other.shape) {
            return difference;
        }
        if self == other {
            Difference::Same
        } else {
            Difference::Tie
        }
    }

    /// Appends the bytes of its key to a list. `Err` means allocation failure; the list is then unchanged.
    #[tactic(auto, using(version_order::proofs::lemmas::Sinks::appended))]
    pub fn append_key(&self, list: &mut Vec<u8>) -> Result<(), AllocError>
        ensures ok { OnOk result (list.new.items
            ≡ list.old.items ++ key_bytes (key_of (plain_versioning_ref self.now))) }
        ensures err { OnErr result (list.new.items ≡ list.old.items) }
    {
        let start = list.len();
        list.resize(length_with(start, self.key_room())?, 0)?;
        let end = self.write_key(list.as_mut_slice(), start);
        list.truncate(end);
        Ok(())
    }

    // Returns a size that is enough for its key: for a long text its length, so that no memory is taken in vain.
    #[inline(always)]
    #[tactic(auto, using(crate::proofs::lemmas::versioning_ref::VersioningRef::spelled))]
    fn key_room(&self) -> usize
        ensures { saturated (length (key_bytes (key_of (plain_versioning_ref self.now)))) ≤ result }
    {
        if self.text.len() <= LONGEST_WITH_ROOM {
            room_for(self.text.len())
        } else {
            self.key_length()
        }
    }

    /// Writes the bytes of its key into a buffer from a place on, if they fit there, and returns the place after them.
    /// Does not allocate.
    #[inline(always)]
    #[tactic(auto, using(crate::proofs::lemmas::versioning_ref::VersioningRef::shape_fits, crate::proofs::lemmas::versioning_ref::VersioningRef::key_read))]
    pub fn write_key(&self, room: &mut [u8], start: usize) -> usize
        ensures bytes { IsWritten room.old start
            (key_bytes (key_of (plain_versioning_ref self.now))) room.new }
        ensures end { result ≡ saturated (start
            + length (key_bytes (key_of (plain_versioning_ref self.now)))) }
    {
        if let Some(place) = self.end_past(End::Key, start, room.len()) {
            return place;
        }
        whole::write_key(self.text, self.shape, room, start)
    }

    /// Returns how many bytes its key has. Does not allocate.
    pub fn key_length(&self) -> usize
        ensures { result ≡ saturated (length (key_bytes (key_of (plain_versioning_ref self.now)))) }
    {
        self.end_length(End::Key)
    }

    /// Compares the bytes of its key with given bytes, up to the first difference. Does not allocate.
    #[inline(always)]
    #[tactic(auto, using(crate::proofs::lemmas::versioning_ref::VersioningRef::shape_fits, crate::proofs::lemmas::versioning_ref::VersioningRef::key_read))]
    pub fn compare_key(&self, bytes: &[u8]) -> Ordering
        ensures { result ≡ bytes_cmp (key_bytes (key_of (plain_versioning_ref self.now)))
            bytes.now }
    {
        whole::compare_key(self.text, self.shape, bytes)
    }

    /// Returns whether its key is at least the low bound, and below the high one, if there is one, and its kind is one
    /// of the kinds: whether the version is in a range. Any bytes may be bounds. Does not allocate.
    #[inline(always)]
    pub fn is_in(&self, low: &[u8], high: Option<&[u8]>, kinds: Kinds) -> bool
        ensures { IsTrue result ↔ (AreBetween low.now (option_map (λ bound. bound.now) high.entry)
            (key_bytes (key_of (plain_versioning_ref self.now)))
            × IsTrue (has_kind kinds (versioning_kind (plain_versioning_ref self.now)))) }
    {
        if !kinds.has(self.shape.kind) {
            return false;
        }
        // The high bound first: it alone decides on what is above the range.
        if let Some(high) = high {
            if self.compare_key(high).is_ge() {
                return false;
            }
        }
        self.compare_key(low).is_ge()
    }

    /// Appends the bytes of an end of a range of its key to a list. `Err` means allocation failure; the list is then
    /// unchanged.
    #[tactic(auto, using(version_order::proofs::lemmas::Sinks::appended))]
    pub fn append_end(&self, end: End, list: &mut Vec<u8>) -> Result<(), AllocError>
        ensures ok { OnOk result (list.new.items
            ≡ list.old.items ++ end_bytes end (key_of (plain_versioning_ref self.now))) }
        ensures err { OnErr result (list.new.items ≡ list.old.items) }
    {
        let start = list.len();
        list.resize(length_with(start, self.end_length(end))?, 0)?;
        let end = self.write_end(end, list.as_mut_slice(), start);
        list.truncate(end);
        Ok(())
    }

    /// Writes the bytes of an end of a range into a sink. Does not allocate.
    #[inline(always)]
    #[tactic(auto, using(crate::proofs::lemmas::versioning_ref::VersioningRef::shape_fits, crate::proofs::lemmas::versioning_ref::VersioningRef::key_read))]
    pub fn put_end<S: Sink>(&self, end: End, sink: &mut S)
        requires { S.fits sink.old (end_bytes end (key_of (plain_versioning_ref self.now))) }
        ensures { S.takes sink.old (end_bytes end (key_of (plain_versioning_ref self.now)))
            sink.new }
    {
        range::put_end(sink, self.text, self.shape, end);
    }

    /// Writes its key into a sink.
    #[inline(always)]
    #[tactic(auto, using(crate::proofs::lemmas::versioning_ref::VersioningRef::shape_fits, crate::proofs::lemmas::versioning_ref::VersioningRef::key_read))]
    pub fn put_key<S: Sink>(&self, sink: &mut S)
        requires { S.fits sink.old (key_bytes (key_of (plain_versioning_ref self.now))) }
        ensures { S.takes sink.old (key_bytes (key_of (plain_versioning_ref self.now))) sink.new }
    {
        key::put_key(sink, self.text, self.shape);
    }

    /// Writes the bytes of its epoch and of the parts that are kept into a sink.
    #[inline(always)]
    #[tactic(auto, using(crate::proofs::lemmas::versioning_ref::VersioningRef::shape_fits, crate::proofs::lemmas::versioning_ref::VersioningRef::key_read))]
    pub fn put_begun<S: Sink>(&self, kept: Kept, sink: &mut S)
        requires { S.fits sink.old (begun (key_of (plain_versioning_ref self.now)).epoch
            (kept_parts kept (key_of (plain_versioning_ref self.now)).body)) }
        ensures { S.takes sink.old (begun (key_of (plain_versioning_ref self.now)).epoch
            (kept_parts kept (key_of (plain_versioning_ref self.now)).body)) sink.new }
    {
        range::put_kept(sink, self.text, self.shape, kept);
    }

    /// Writes the bytes of an end of a range into a buffer from a place on, if they fit there, and returns the place after
    /// them. Does not allocate.
    #[inline(never)]
    pub fn write_end(&self, end: End, room: &mut [u8], start: usize) -> usize
        ensures bytes { IsWritten room.old start
            (end_bytes end (key_of (plain_versioning_ref self.now))) room.new }
        ensures end { result ≡ saturated (start
            + length (end_bytes end (key_of (plain_versioning_ref self.now)))) }
    {
        if let Some(place) = self.end_past(end, start, room.len()) {
            return place;
        }
        let mut sink = Room { room, end: start };
        self.put_end(end, &mut sink);
        sink.end
    }

    // Returns the place after the bytes of an end of a range that begin at a place, if it is past a size. Mostly the
    // size is so large that the bytes need not be counted.
    #[inline(always)]
    fn end_past(&self, end: End, start: usize, size: usize) -> Option<usize>
        requires { size < 2 ^ 63 }
        ensures within { IfNone result
            (start + length (end_bytes end (key_of (plain_versioning_ref self.now))) ≤ size) }
        ensures past { IfSome result (λ place.
            (place ≡ saturated (start
            + length (end_bytes end (key_of (plain_versioning_ref self.now)))))
            × (size < start + length (end_bytes end (key_of (plain_versioning_ref self.now))))) }
    {
        if start.saturating_add(self.end_room(end)) <= size {
            return None;
        }
        let place = start.saturating_add(self.end_length(end));
        if place <= size { None } else { Some(place) }
    }

    // Returns a size that is enough for an end of a range.
    #[inline(always)]
    #[tactic(auto, using(crate::proofs::lemmas::KeyRoom::end_length, crate::proofs::lemmas::versioning_ref::VersioningRef::spelled))]
    fn end_room(&self, end: End) -> usize
        ensures { saturated (length (end_bytes end (key_of (plain_versioning_ref self.now)))) ≤ result }
    {
        let room = room_for(self.text.len());
        match end {
            End::Key => room,
            _ => room.saturating_add(1),
        }
    }

    /// Returns how many bytes an end of a range has. Does not allocate.
    pub fn end_length(&self, end: End) -> usize
        ensures { result
            ≡ saturated (length (end_bytes end (key_of (plain_versioning_ref self.now)))) }
    {
        let mut sink = Count { length: 0 };
        self.put_end(end, &mut sink);
        sink.length()
    }

    /// Compares the bytes of an end of a range with given bytes, up to the first difference. Does not allocate.
    #[inline(always)]
    #[tactic(auto, using(crate::proofs::lemmas::versioning_ref::VersioningRef::shape_fits, crate::proofs::lemmas::versioning_ref::VersioningRef::key_read))]
    pub fn compare_end(&self, end: End, bytes: &[u8]) -> Ordering
        ensures { result ≡ bytes_cmp (end_bytes end (key_of (plain_versioning_ref self.now)))
            bytes.now }
    {
        whole::compare_end(self.text, self.shape, end, bytes)
    }

    /// Compares the bytes of an end of a range with those of another, up to the first difference. Does not allocate.
    #[tactic(auto, using(crate::proofs::lemmas::versioning_ref::VersioningRef::shape_fits, crate::proofs::lemmas::versioning_ref::VersioningRef::key_read))]
    pub fn compare_ends(&self, end: End, other: &VersioningRef<'_>, other_end: End) -> Ordering
        ensures { result ≡ bytes_cmp (end_bytes end (key_of (plain_versioning_ref self.now)))
            (end_bytes other_end (key_of (plain_versioning_ref other.now))) }
    {
        compare_ends(
            self.text,
            self.shape,
            end,
            other.text,
            other.shape,
            other_end,
        )
    }

    // Compares two versions of one key by kind, then field by field.
    fn compare_tied(&self, other: &VersioningRef<'_>) -> Ordering
        requires { precedence (key_of (plain_versioning_ref self.now))
            (key_of (plain_versioning_ref other.now)) ≡ Equal }
        ensures { result ≡ versioning_plain_cmp (plain_versioning_ref self.now)
            (plain_versioning_ref other.now) }
    {
        compare_key_ties(self.shape.kind, self.text, other.shape.kind, other.text)
    }
}

// Returns the value of digits, or `u64::MAX` if it is larger.
#[tactic(auto, using(version_rules::proofs::lemmas::Numeral::next_value))]
fn saturated_value(digits: &[u8]) -> u64
    requires { list_all is_ascii_digit digits.now ≡ true }
    ensures { result ≡ saturated (digits_value 10 digits.now) }
{
    let mut value: u64 = 0;
    for digit in digits {
        value = value
            .saturating_mul(10)
            .saturating_add(u64::from(*digit - b'0'));
    }
    value
}

/// Writes the text that the version was parsed from, as its `Versioning` does.
impl<'a> fmt::Display for VersioningRef<'a> {
    ghost use Rattle.version_rules.specs.grammar.Versioning.{versioning_text};
    ghost use Rattle.version_texts.specs.VersioningRef.{plain_versioning_ref};

    ghost output = { λ v. Some (versioning_text (plain_versioning_ref v)) };

    fn fmt<W: fmt::Write>(&self, f: &mut fmt::Formatter<W>) -> fmt::Result {
        f.write_str(self.text())
    }
}

/// Compares the kinds and every field, except metadata of strict versions. Does not allocate.
impl<'a> PartialEq for VersioningRef<'a> {
    ghost use Rattle.std.specs.{Cmp.eq_by_cmp_equiv, Cmp.on_per, Cmp.partial_equiv_from_equiv, Ordering.eq_by_cmp, Ordering.on};
    ghost use Rattle.version_rules.specs.{grammar.Versioning.versioning_plain_cmp, laws.Versioning.versioning_plain_total};
    ghost use Rattle.version_texts.specs.VersioningRef.{plain_versioning_ref};

    ghost eq = { on plain_versioning_ref (eq_by_cmp versioning_plain_cmp) };

    ghost laws = { on_per plain_versioning_ref
        (partial_equiv_from_equiv (eq_by_cmp_equiv versioning_plain_total)) };

    #[tactic(auto, using(version_rules::specs::laws::Key::versioning_cmp_ties))]
    fn eq(&self, other: &VersioningRef<'a>) -> bool {
        self.cmp(other).is_eq()
    }
}

impl<'a> Eq for VersioningRef<'a> {
    ghost use Rattle.std.specs.Cmp.{eq_by_cmp_equiv, on_equiv};
    ghost use Rattle.version_rules.specs.laws.Versioning.{versioning_plain_total};
    ghost use Rattle.version_texts.specs.VersioningRef.{plain_versioning_ref};

    ghost laws = { on_equiv plain_versioning_ref (eq_by_cmp_equiv versioning_plain_total) };
}

/// Compares by precedence. Breaks a tie by kind, strict before general before messy, then field by field, except
/// metadata of strict versions. Does not allocate.
impl<'a> Ord for VersioningRef<'a> {
    ghost use Rattle.std.specs.Prelude.{refl};
    ghost use Rattle.std.specs.{Cmp.on_total, Ordering.on};
    ghost use Rattle.version_rules.specs.{laws.Key.versioning_cmp_ties, laws.Key.versioning_cmp_total, order.Orders.versioning_cmp};
    ghost use Rattle.version_texts.specs.VersioningRef.{plain_versioning_ref};

    ghost cmp = { on plain_versioning_ref versioning_cmp };

    ghost total = { on_total plain_versioning_ref versioning_cmp_total };

    ghost matches_partial_cmp = { λ a b. refl };

    ghost matches_eq = { λ a b. versioning_cmp_ties (plain_versioning_ref a)
        (plain_versioning_ref b) };

    fn cmp(&self, other: &VersioningRef<'a>) -> Ordering {
        let keys = self.precedence(other);
        match keys {
            Ordering::Equal => self.compare_tied(other),
            _ => keys,
        }
    }
}

impl<'a> PartialOrd for VersioningRef<'a> {
    ghost use Rattle.std.specs.{Cmp.on_total, Cmp.po, Ordering.as_partial_cmp, Ordering.on};
    ghost use Rattle.version_rules.specs.{laws.Key.versioning_cmp_ties, laws.Key.versioning_cmp_total, order.Orders.versioning_cmp};
    ghost use Rattle.version_texts.specs.VersioningRef.{plain_versioning_ref};

    ghost partial_cmp = { as_partial_cmp (on plain_versioning_ref versioning_cmp) };

    ghost laws = { po (on_total plain_versioning_ref versioning_cmp_total)
        (λ a b. versioning_cmp_ties (plain_versioning_ref a) (plain_versioning_ref b)) };

    fn partial_cmp(&self, other: &VersioningRef<'a>) -> Option<Ordering> {
        Some(self.cmp(other))
    }
}

/// The questions that the operators of requirements ask. No call allocates.
impl<'a> Asked for VersioningRef<'a> {
    ghost use Rattle.version_texts.specs.VersioningRef.{plain_versioning_ref};

    ghost plain = { plain_versioning_ref };

    fn is_same(&self, other: &VersioningRef<'a>) -> bool {
        self == other
    }

    fn precedence(&self, other: &VersioningRef<'a>) -> Ordering {
        VersioningRef::precedence(self, other)
    }

    #[tactic(auto, using(crate::proofs::lemmas::versioning_ref::VersioningRef::spelled))]
    fn matches_tilde(&self, version: &VersioningRef<'a>) -> bool {
        matching::matches_tilde(self.text, self.shape, version.text, version.shape)
    }

    #[tactic(auto, using(crate::proofs::lemmas::versioning_ref::VersioningRef::spelled))]
    fn matches_caret(&self, version: &VersioningRef<'a>) -> bool {
        matching::matches_caret(self.text, self.shape, version.text, version.shape)
    }
}
