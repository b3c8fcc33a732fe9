//! Ranges of keys, borrowed from the texts of requirements.

ghost use Rattle.std.specs.Prelude.{◌≡◌, ◌↔◌, ◌≤◌, ◌++◌, ◌∷◌, IfSome, IsTrue, length, take};
ghost use Rattle.std.specs.{Option.option_map, declared.cmp.Ordering.TheVariants.Less};
ghost use Rattle.version_rules.specs.requirement.Range.{end_bytes, bytes_of, common, earlier_high, later, range_of, requirement_range, IsIn};
ghost use Rattle.version_rules.specs.{key.Key.key_of, requirement.Requirements.comma, requirement.Requirements.requirements_of};
ghost use Rattle.version_order.specs.keys.{Lists.bytes_cmp, Sinks.saturated, Sinks.IsWritten};
ghost use Rattle.version_requirements.specs.Range.{IsCrossed, bound_bytes, high_length, low_bytes, plain_range_ref, IsParsed};
ghost use Rattle.version_texts.specs.{VersioningRef.plain_versioning_ref};
ghost use Rattle.version_requirements.specs.Requirement.{plain_requirement_ref};

use crate::members::Members;
use crate::requirement_ref::RequirementRef;
use std::cmp::Ordering;
use version_order::{End, place_of};
use version_rules::{Kinds, ends_of};
use version_texts::VersioningRef;

// The length of a list that isn't halved.
const SHORT: usize = 256;

/// A bound of a range: an end of a range of a version.
#[derive(Clone, Copy)]
pub struct Bound<'a> {
    version: VersioningRef<'a>,
    end: End,
}

impl<'a> Bound<'a> {
    /// Returns how many bytes it has. Does not allocate.
    pub fn length(&self) -> usize
        ensures { result ≡ saturated (length (bound_bytes self.now)) }
    {
        self.version.end_length(self.end)
    }

    /// Writes its bytes into a buffer, if they fit there. Does not allocate.
    pub fn write(&self, room: &mut [u8])
        ensures { IsWritten room.old 0 (bound_bytes self.now) room.new }
    {
        self.version.write_end(self.end, room, 0);
    }

    // Compares the bytes of two bounds.
    fn compare(&self, other: &Bound<'_>) -> Ordering
        ensures { result ≡ bytes_cmp (bound_bytes self.now) (bound_bytes other.now) }
    {
        self.version
            .compare_ends(self.end, &other.version, other.end)
    }

    // Compares the key of a version with its bytes.
    fn compare_key(&self, version: &VersioningRef<'_>) -> Ordering
        ensures { result ≡ bytes_cmp (bytes_of (plain_versioning_ref version.now))
            (bound_bytes self.now) }
    {
        version.compare_ends(End::Key, &self.version, self.end)
    }
}

/// The range of keys that a list of requirements asks for. Its bounds are ends of versions of the list.
#[derive(Clone, Copy)]
pub struct RangeRef<'a> {
    /// None if no key is below the range.
    pub low: Option<Bound<'a>>,
    /// None if no key is above the range.
    pub high: Option<Bound<'a>>,
    /// The kinds of versions in the range.
    pub kinds: Kinds,
    /// Whether the list matches every version in the range.
    pub is_exact: bool,
}

impl<'a> RangeRef<'a> {
    /// Returns the range that a list asks for, or None if the bytes do not parse as a list. Does not allocate.
    ///
    /// A comparison of two bounds passes the zeros of both. So a long list is halved: then a bound meets few others that
    /// are much shorter.
    #[tactic(auto, using(crate::proofs::lemmas::RangeRef::behind_fails, crate::proofs::lemmas::RangeRef::both_parse, crate::proofs::lemmas::RangeRef::front_fails))]
    pub fn from_bytes(list: &'a [u8]) -> Option<RangeRef<'a>>
        ensures { option_map plain_range_ref result
            ≡ option_map range_of (requirements_of list.now) }
    {
        let Some((front, behind)) = halves(list, SHORT) else {
            return range_in_turn(list);
        };
        let range = RangeRef::from_bytes(front)?;
        Some(range.common(RangeRef::from_bytes(behind)?))
    }

    // Returns the range that a member asks for.
    #[inline(always)]
    pub(crate) fn of(member: RequirementRef<'a>) -> RangeRef<'a>
        requires { IsParsed (plain_requirement_ref member) }
        ensures { plain_range_ref result
            ≡ requirement_range (plain_requirement_ref member.entry) }
    {
        let Some(version) = member.version else {
            return RangeRef {
                low: None,
                high: None,
                kinds: Kinds::all(),
                is_exact: true,
            };
        };
        let ends = ends_of(member.op, version.kind());
        RangeRef {
            low: bound_at(version, Some(ends.low)),
            high: bound_at(version, ends.high),
            kinds: ends.kinds,
            is_exact: ends.is_exact,
        }
    }

    // Returns what is in both ranges.
    fn common(self, other: RangeRef<'a>) -> RangeRef<'a>
        ensures { plain_range_ref result
            ≡ common (plain_range_ref self.entry) (plain_range_ref other.entry) }
    {
        RangeRef {
            low: later(self.low, other.low),
            high: earlier(self.high, other.high),
            kinds: self.kinds.common(other.kinds),
            is_exact: self.is_exact && other.is_exact,
        }
    }

    /// Returns whether a version is in the range. Does not allocate.
    pub fn has(&self, version: &VersioningRef<'_>) -> bool
        ensures { IsTrue result
            ↔ IsIn (plain_range_ref self.now) (plain_versioning_ref version.now) }
    {
        self.kinds.has(version.kind())
            && is_from(&self.low, version)
            && is_below(&self.high, version)
    }

    // Returns whether it has a high end that its low end is not below.
    pub(crate) fn is_crossed(&self) -> bool
        ensures { IsTrue result ↔ IsCrossed (plain_range_ref self.now) }
    {
        match &self.high {
            Some(high) => !self.begins_before(high),
            None => false,
        }
    }

    // Returns whether its low end is below a bound.
    pub(crate) fn begins_before(&self, bound: &Bound<'_>) -> bool
        ensures { IsTrue result
            ↔ bytes_cmp (plain_range_ref self.now).low (bound_bytes bound.now) ≡ Less }
    {
        or_lowest(self.low, *bound).compare(bound) == Ordering::Less
    }

    // Returns whether a bound is below its high end, if it has one.
    pub(crate) fn ends_after(&self, bound: &Bound<'_>) -> bool
        ensures { IsTrue result ↔ IfSome (plain_range_ref self.now).high
            (λ high. bytes_cmp (bound_bytes bound.now) high ≡ Less) }
    {
        match &self.high {
            Some(high) => bound.compare(high) == Ordering::Less,
            None => true,
        }
    }

    /// Returns how many bytes its low bound has. Does not allocate.
    pub fn low_length(&self) -> usize
        ensures { result ≡ saturated (length (plain_range_ref self.now).low) }
    {
        match &self.low {
            Some(bound) => bound.length(),
            None => 0,
        }
    }

    /// Returns how many bytes its high bound has, and 0 without one. Does not allocate.
    pub fn high_length(&self) -> usize
        ensures { result ≡ saturated (high_length (plain_range_ref self.now)) }
    {
        match &self.high {
            Some(bound) => bound.length(),
            None => 0,
        }
    }

    /// Writes its low bound into a buffer, if it fits there. Does not allocate.
    #[tactic(auto, using(crate::proofs::lemmas::RangeRef::written))]
    pub fn write_low(&self, room: &mut [u8])
        ensures { length (plain_range_ref self.now).low ≤ length room.old
            → take (length (plain_range_ref self.now).low) room.new
            ≡ (plain_range_ref self.now).low }
    {
        if let Some(bound) = &self.low {
            bound.write(room);
        }
    }

    /// Writes its high bound into a buffer, if there is one and it fits there. Does not allocate.
    #[tactic(auto, using(crate::proofs::lemmas::RangeRef::written))]
    pub fn write_high(&self, room: &mut [u8])
        ensures { IfSome (plain_range_ref self.now).high (λ bound. length bound ≤ length room.old
            → take (length bound) room.new ≡ bound) }
    {
        if let Some(bound) = &self.high {
            bound.write(room);
        }
    }
}

// Returns the range that a list asks for, of its members in turn.
fn range_in_turn<'a>(list: &'a [u8]) -> Option<RangeRef<'a>>
    ensures { option_map plain_range_ref result ≡ option_map range_of (requirements_of list.now) }
{
    let mut range = RangeRef {
        low: None,
        high: None,
        kinds: Kinds::all(),
        is_exact: true,
    };
    let mut members = Members::of(list);
    while let Some(member) = members.next() {
        let member = RequirementRef::from_bytes(member)?;
        range = range.common(RangeRef::of(member));
    }
    Some(range)
}

// Returns the bound at an end of a version, if there is an end.
fn bound_at<'a>(version: VersioningRef<'a>, end: Option<End>) -> Option<Bound<'a>>
    ensures { option_map bound_bytes result
        ≡ option_map (λ e. end_bytes e (key_of (plain_versioning_ref version.entry))) end }
{
    match end {
        Some(end) => Some(Bound { version, end }),
        None => None,
    }
}

// Returns a low bound, or one of no bytes if it is missing.
pub(crate) fn or_lowest<'a>(low: Option<Bound<'a>>, other: Bound<'a>) -> Bound<'a>
    ensures { bound_bytes result ≡ low_bytes low.entry }
{
    match low {
        Some(bound) => bound,
        None => Bound {
            version: other.version,
            end: End::Lowest,
        },
    }
}

// Returns the later of two low bounds, of which each may be missing.
#[tactic(auto, using(crate::proofs::lemmas::RangeRef::later_none))]
fn later<'a>(low: Option<Bound<'a>>, other: Option<Bound<'a>>) -> Option<Bound<'a>>
    ensures { low_bytes result ≡ later (low_bytes low.entry) (low_bytes other.entry) }
{
    let Some(bound) = low else {
        return other;
    };
    let Some(further) = other else {
        return low;
    };
    if bound.compare(&further) == Ordering::Less {
        other
    } else {
        low
    }
}

// Returns the earlier of two high bounds, of which each may be missing.
fn earlier<'a>(high: Option<Bound<'a>>, other: Option<Bound<'a>>) -> Option<Bound<'a>>
    ensures { option_map bound_bytes result ≡ earlier_high (option_map bound_bytes high.entry)
        (option_map bound_bytes other.entry) }
{
    let Some(bound) = high else {
        return other;
    };
    let Some(further) = other else {
        return high;
    };
    if further.compare(&bound) == Ordering::Less {
        other
    } else {
        high
    }
}

// Returns what stands before and after a comma near the middle of a list that is not short. None without a comma.
pub(crate) fn halves(list: &[u8], short: usize) -> Option<(&[u8], &[u8])>
    ensures { IfSome result (λ halves. list.now ≡ halves.0.now ++ comma ∷ halves.1.now) }
{
    if list.len() <= short {
        return None;
    }
    let middle = list.len() / 2;
    let further = middle + place_of(b',', &list[middle..]);
    let place = if further < list.len() {
        further
    } else {
        list[..middle].iter().rposition(|byte| *byte == b',')?
    };
    let (front, rest) = list.split_at(place);
    match rest {
        [b',', behind @ ..] => Some((front, behind)),
        _ => None,
    }
}

// Returns whether the key of a version is not below a low bound.
pub(crate) fn is_from(low: &Option<Bound<'_>>, version: &VersioningRef<'_>) -> bool
    ensures { IsTrue result
        ↔ (¬ (bytes_cmp (bytes_of (plain_versioning_ref version.now)) (low_bytes low.now)
        ≡ Less)) }
{
    match low {
        Some(bound) => bound.compare_key(version) != Ordering::Less,
        None => true,
    }
}

// Returns whether the key of a version is below a high bound, if there is one.
pub(crate) fn is_below(high: &Option<Bound<'_>>, version: &VersioningRef<'_>) -> bool
    ensures { IsTrue result ↔ IfSome (option_map bound_bytes high.now)
        (λ bound. bytes_cmp (bytes_of (plain_versioning_ref version.now)) bound ≡ Less) }
{
    match high {
        Some(bound) => bound.compare_key(version) == Ordering::Less,
        None => true,
    }
}
