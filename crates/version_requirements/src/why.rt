//! Which member of a list of requirements does not match a version, and why.

ghost use Rattle.std.specs.Prelude.{◌≡◌, ◌↔◌, is_some, length, IfSome, IsNone, IsSomeAnd};
ghost use Rattle.version_rules.specs.requirement.{Matching.Matches, Matching.MatchesAll, Requirements.requirements_of};
ghost use Rattle.version_requirements.specs.Requirement.{excluded_text, reason_text, words_after, words_between, IsExcluded, IsWhy};
ghost use Rattle.version_texts.specs.{VersioningRef.plain_versioning_ref};
ghost use Rattle.version_requirements.specs.Range.{plain_range_ref};
ghost use Rattle.version_order.specs.keys.Sinks.{saturated, IsWritten};

use crate::first_failing::{ListTest, first_failing};
use crate::members::text_between;
use crate::range_ref::{RangeRef, is_below, is_from};
use crate::requirement_ref::RequirementRef;
use crate::requirements_ref::list_matches;
use version_order::{Count, Room, Sink, put_all};
use version_texts::VersioningRef;

/// Why a requirement does not match a version: the first of these that is so.
#[derive(Clone, Copy, Debug, PartialEq, Eq)]
pub enum Why {
    /// The version's kind is not one of the kinds of the requirement's range.
    Kind,
    /// Its key is below the range.
    Below,
    /// Its key is not below the high end of the range.
    Above,
    /// None of these: parts or fields differ.
    Parts,
}

/// The first member of a list that does not match a version.
#[derive(Clone, Copy, Debug, PartialEq, Eq)]
pub struct Excluded {
    /// Where the member begins in the list.
    pub start: usize,
    /// Where it ends.
    pub end: usize,
    /// Why it does not match.
    pub why: Why,
}

impl Why {
    /// Returns what the sentence that says why has between the version and the member, and what it has after the
    /// member. Does not allocate.
    pub fn words(self) -> (&'static str, &'static str)
        ensures between { result.0.now ≡ words_between self }
        ensures after { result.1.now ≡ words_after self }
    {
        match self {
            Why::Kind => (" is not of a kind that ", " matches"),
            Why::Below => (" is below ", ""),
            Why::Above => (" is above ", ""),
            Why::Parts => (
                " is within the bounds of ",
                ", but its parts or fields differ",
            ),
        }
    }
}

impl Excluded {
    /// Writes the sentence that says why the member does not match the version into a buffer, if it fits there.
    /// Returns how many bytes it has. Does not allocate.
    pub fn write(&self, list: &[u8], version: &VersioningRef<'_>, room: &mut [u8]) -> usize
        requires { IsExcluded list.now (plain_versioning_ref version.now) self.now }
        ensures bytes { IsWritten room.old 0
            (excluded_text list.now (plain_versioning_ref version.now) self.now) room.new }
        ensures length { result ≡ saturated (length
            (excluded_text list.now (plain_versioning_ref version.now) self.now)) }
    {
        let member = text_between(list, self.start, self.end);
        write_reason(self.why, version.bytes(), member, room)
    }
}

// Writes the sentence that says why a member does not match a version into a buffer, if it fits there, and returns how
// many bytes it has.
#[tactic(auto, using(version_order::proofs::lemmas::Sinks::counted))]
fn write_reason(why: Why, version: &[u8], member: &[u8], room: &mut [u8]) -> usize
    ensures bytes { IsWritten room.old 0 (reason_text why version.now member.now) room.new }
    ensures length { result ≡ saturated (length (reason_text why version.now member.now)) }
{
    let mut count = Count { length: 0 };
    put_reason(&mut count, why, version, member);
    let length = count.length();
    if length <= room.len() {
        put_reason(&mut Room { room, end: 0 }, why, version, member);
    }
    length
}

// Writes the sentence that says why a member does not match a version.
fn put_reason<S: Sink>(sink: &mut S, why: Why, version: &[u8], member: &[u8])
    requires { S.fits sink.old (reason_text why version.now member.now) }
    ensures { S.takes sink.old (reason_text why version.now member.now) sink.new }
{
    let (between, after) = why.words();
    put_all(sink, version);
    put_all(sink, between.as_bytes());
    put_all(sink, member);
    put_all(sink, after.as_bytes());
}

// Whether the members of a list match a version.
#[derive(Clone, Copy)]
struct Matching<'a> {
    version: &'a VersioningRef<'a>,
}

impl<'a> ListTest for Matching<'a> {
    ghost passes = { λ test r. Matches r (plain_versioning_ref test.version.now) };

    fn each_passes(&self, list: &[u8]) -> bool {
        list_matches(list, self.version).unwrap_or(false)
    }
}

/// Returns where the first member of a list that does not match a version begins and ends, and why it does not. Some of
/// None if each member matches; None if the bytes do not parse as a list, whatever the version is. Does not allocate.
pub fn why_not(list: &[u8], version: &VersioningRef<'_>) -> Option<Option<Excluded>>
    ensures parses { is_some result ≡ is_some (requirements_of list.now) }
    ensures matches { IfSome result (λ found. IsNone found ↔ IsSomeAnd (requirements_of list.now)
        (λ wanted. MatchesAll wanted (plain_versioning_ref version.now))) }
    ensures why { IfSome result
        (λ found. IfSome found (IsExcluded list.now (plain_versioning_ref version.now))) }
{
    if list_matches(list, version)? {
        return Some(None);
    }
    let (start, member) = first_failing(list, &Matching { version });
    let range = RangeRef::of(RequirementRef::from_bytes(member)?);
    Some(Some(Excluded {
        start,
        end: start + member.len(),
        why: why_outside(&range, version),
    }))
}

// Returns why a requirement with a range does not match a version.
fn why_outside(range: &RangeRef<'_>, version: &VersioningRef<'_>) -> Why
    ensures { IsWhy (plain_range_ref range.now) (plain_versioning_ref version.now) result }
{
    if !range.kinds.has(version.kind()) {
        Why::Kind
    } else if !is_from(&range.low, version) {
        Why::Below
    } else if !is_below(&range.high, version) {
        Why::Above
    } else {
        Why::Parts
    }
}
