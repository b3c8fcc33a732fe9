//! Which versions a list of requirements matches.

ghost use Rattle.std.specs.Prelude.{◌≡◌, ◌≢◌, ◌↔◌, ◌<◌, ℕ, length, slice_index, IfSome, IsTrue, None, Some};
ghost use Rattle.version_texts.specs.{VersioningRef.plain_versioning_ref};
ghost use Rattle.version_requirements.specs.{Requirement.wrong_member};
ghost use Rattle.version_requirements.specs.Range.{plain_range_ref};
ghost use Rattle.version_rules.specs.{grammar.Versioning.versioning_of, requirement.Matching.MatchesAll, requirement.Requirements.requirements_of};
ghost use Rattle.versions_c.specs.Matching.{list_status, match_code, match_status, wrong_status, Decide};
ghost use Rattle.versions_c.specs.Written.{text_at, AreOffsets};

use crate::offsets::{answer_each, are_offsets};
use crate::status::{BAD_OFFSETS, NO_REQUIREMENTS, NO_VERSION, NO_WRONG_MEMBER, OK};
use version_requirements::{RangeRef, RequirementsRef, list_matches, write_inexact, wrong_member};
use version_texts::VersioningRef;

// The length of a list whose members are all kept as they are.
const SHORT: usize = 64;

// The most bytes of the members that a range leaves open, if they are kept alone.
const ROOM: usize = 4096;

/// Writes whether a list matches a version.
#[unsafe(no_mangle)]
pub extern "C" fn versions_matches(list: &[u8], text: &[u8], matches: &mut u8) -> i32
    ensures status { result ≡ match_status (requirements_of list.now) (versioning_of text.now) }
    ensures matches { result ≡ OK → IfSome (requirements_of list.now)
        (λ wanted. matches.new ≡ match_code wanted (versioning_of text.now)) }
    ensures kept { result ≢ OK → matches.new ≡ matches.old }
{
    let Some(version) = VersioningRef::from_bytes(text) else {
        return status_without_version(list);
    };
    match list_matches(list, &version) {
        Some(true) => *matches = 1,
        Some(false) => *matches = 0,
        None => return NO_REQUIREMENTS,
    }
    OK
}

// Returns the status for a list and a text that is not a version.
pub(crate) fn status_without_version(list: &[u8]) -> i32
    ensures { result ≡ match_status (requirements_of list.now) None }
{
    match RequirementsRef::from_bytes(list) {
        Some(_) => NO_VERSION,
        None => NO_REQUIREMENTS,
    }
}

/// Writes where the first member of a list that is not a requirement begins and ends.
#[unsafe(no_mangle)]
pub extern "C" fn versions_wrong_member(list: &[u8], start: &mut usize, end: &mut usize) -> i32
    ensures status { result ≡ wrong_status (requirements_of list.now) }
    ensures place { result ≡ OK → wrong_member list.now ≡ Some (start.new, end.new) }
    ensures kept_start { result ≢ OK → start.new ≡ start.old }
    ensures kept_end { result ≢ OK → end.new ≡ end.old }
{
    let Some((first, behind)) = wrong_member(list) else {
        return NO_WRONG_MEMBER;
    };
    *start = first;
    *end = behind;
    OK
}

/// Writes whether a list matches each version.
#[unsafe(no_mangle)]
pub extern "C" fn versions_match_all(
    list: &[u8],
    texts: &[u8],
    offsets: &[u64],
    matches: &mut [u8],
) -> i32
    ensures status { AreOffsets offsets.now (length texts.now) (length matches.old)
        → result ≡ list_status (requirements_of list.now) }
    ensures matches { result ≡ OK → IfSome (requirements_of list.now)
        (λ wanted. (i : ℕ) → i < length matches.old
        → slice_index matches.new i
        ≡ match_code wanted (versioning_of (text_at texts.now offsets.now i))) }
    ensures bad { ¬ (AreOffsets offsets.now (length texts.now) (length matches.old))
        → result ≡ BAD_OFFSETS }
    ensures kept { result ≢ OK → matches.new ≡ matches.old }
{
    if !are_offsets(offsets, texts.len(), matches.len()) {
        return BAD_OFFSETS;
    }
    let Some(wanted) = RequirementsRef::from_bytes(list) else {
        return NO_REQUIREMENTS;
    };
    let mut room = [0; ROOM];
    let narrowed = narrow(list, &mut room);
    answer_each(texts, offsets, matches, |text| {
        asked_for(&wanted, &narrowed, text)
    });
    OK
}

// What decides about many versions in the place of a long list: its range, and the members that this leaves open.
#[derive(Drop)]
struct Narrowed<'a> {
    range: RangeRef<'a>,
    members: RequirementsRef<'a>,
}

// Returns these of a list, with the members in a room, if they are few and the list is long.
// Not inlined: so a call for a short list has no cost of it.
#[inline(never)]
fn narrow<'a>(list: &'a [u8], room: &'a mut [u8]) -> Option<Narrowed<'a>>
    ensures { IfSome result (λ n. IfSome (requirements_of list.now)
        (Decide (plain_range_ref n.range) n.members)) }
{
    if list.len() <= SHORT {
        return None;
    }
    let range = RangeRef::from_bytes(list)?;
    if range.is_exact {
        return None;
    }
    let length = write_inexact(list, room);
    if length > room.len() {
        return None;
    }
    let members = RequirementsRef::from_bytes(&room[..length])?;
    Some(Narrowed { range, members })
}

// Returns the answer for a text: 1 if the list matches it, 0 if not, 2 if it is not a version.
// Not inlined: else the compiler moves the list by a call of memcpy, which the library may not need.
#[inline(never)]
#[tactic(auto, using(crate::proofs::lemmas::Matching::coded))]
fn asked_for(wanted: &RequirementsRef<'_>, narrowed: &Option<Narrowed<'_>>, text: &[u8]) -> u8
    requires { IfSome narrowed.now
        (λ n. Decide (plain_range_ref n.range) n.members wanted.now) }
    ensures { result ≡ match_code wanted.now (versioning_of text.now) }
{
    let Some(version) = VersioningRef::from_bytes(text) else {
        return 2;
    };
    if is_matched(wanted, narrowed, &version) {
        1
    } else {
        0
    }
}

// Returns whether a list matches a version.
#[inline(always)]
fn is_matched(
    wanted: &RequirementsRef<'_>,
    narrowed: &Option<Narrowed<'_>>,
    version: &VersioningRef<'_>,
) -> bool
    requires { IfSome narrowed.now
        (λ n. Decide (plain_range_ref n.range) n.members wanted.now) }
    ensures { IsTrue result ↔ MatchesAll wanted.now (plain_versioning_ref version.now) }
{
    match narrowed {
        Some(narrowed) => narrowed.range.has(version) && narrowed.members.matches(version),
        None => wanted.matches(version),
    }
}
