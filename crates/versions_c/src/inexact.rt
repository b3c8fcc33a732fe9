//! The members of a list of requirements that its range leaves open, in the caller's buffer, and matches by both.

ghost use Rattle.std.specs.Prelude.{◌≡◌, ◌≢◌, ◌↔◌, ◌<◌, ◌≤◌, ◌++◌, [], drop, length, IfSome, List, Some};
ghost use Rattle.version_texts.specs.VersioningRef.{plain_versioning_ref};
ghost use Rattle.version_rules.specs.{grammar.Versioning.versioning_of, grammar.Versioning.PlainVersioning, requirement.Matching.MatchesAll};
ghost use Rattle.version_rules.specs.requirement.{Range.inexact_members, Range.inexact_text, Range.range_of, Range.IsIn, Requirement.PlainRequirement, Requirements.requirements_of};
ghost use Rattle.versions_c.specs.Ranges.{by_range, by_range_status, inexact_status, Tell, range_with};
ghost use Rattle.versions_c.specs.Matching.{match_code, match_status};

use crate::ranges::code;
use crate::status::{NO_REQUIREMENTS, NO_ROOM, NO_VERSION, OK};
use version_requirements::{list_matches, write_inexact, wrong_member};
use version_texts::VersioningRef;

/// Writes the members of a list that its range leaves open.
#[unsafe(no_mangle)]
pub extern "C" fn versions_inexact(list: &[u8], members: &mut [u8], members_len: &mut usize) -> i32
    ensures status { result ≡ inexact_status (requirements_of list.now) (length members.old) }
    ensures members { result ≡ OK → IfSome (requirements_of list.now)
        (λ wanted. members.new
        ≡ inexact_text wanted ++ drop (length (inexact_text wanted)) members.old) }
    ensures kept { result ≢ OK → members.new ≡ members.old }

    // Their length is reported even if they do not fit. The list is at least as long.
    ensures length { IfSome (requirements_of list.now)
        (λ wanted. members_len.new ≡ length (inexact_text wanted)) }
    ensures no_length { result ≡ NO_REQUIREMENTS → members_len.new ≡ members_len.old }
    ensures within { IfSome (requirements_of list.now)
        (λ wanted. length (inexact_text wanted) ≤ length list.now) }

    // The text is empty if there are no such members. Otherwise it parses as them.
    ensures none { (wanted : List PlainRequirement) → requirements_of list.now ≡ Some wanted
        → inexact_text wanted ≡ [] → inexact_members wanted ≡ [] }
    ensures parses { (wanted : List PlainRequirement) → requirements_of list.now ≡ Some wanted
        → ¬ (inexact_text wanted ≡ [])
        → requirements_of (inexact_text wanted) ≡ Some (inexact_members wanted) }

    // In the range of the list these members decide.
    ensures decides { (wanted : List PlainRequirement) (v : PlainVersioning)
        → requirements_of list.now ≡ Some wanted → IsIn (range_of wanted) v
        → MatchesAll wanted v ↔ MatchesAll (inexact_members wanted) v }
{
    if wrong_member(list).is_some() {
        return NO_REQUIREMENTS;
    }
    *members_len = write_inexact(list, members);
    if *members_len > members.len() {
        return NO_ROOM;
    }
    OK
}

/// Writes whether a list matches a version, by the list's range and the members that this leaves open.
#[unsafe(no_mangle)]
pub extern "C" fn versions_match_in_range(
    text: &[u8],
    low: &[u8],
    high: &[u8],
    flags: u32,
    members: &[u8],
    matches: &mut u8,
) -> i32
    ensures status { result ≡ by_range_status (versioning_of text.now)
        (by_range (range_with low.now high.now flags) members.now) }
    ensures matches { result ≡ OK → IfSome (versioning_of text.now)
        (λ v. by_range (range_with low.now high.now flags) members.now v ≡ Some matches.new) }
    ensures kept { result ≢ OK → matches.new ≡ matches.old }

    // What is told of a list decides as the list does.
    ensures told_status { (wanted : List PlainRequirement)
        → Tell (range_with low.now high.now flags) members.now wanted
        → result ≡ match_status (Some wanted) (versioning_of text.now) }
    ensures told { (wanted : List PlainRequirement)
        → Tell (range_with low.now high.now flags) members.now wanted
        → result ≡ OK → matches.new ≡ match_code wanted (versioning_of text.now) }
{
    let Some(version) = VersioningRef::from_bytes(text) else {
        return NO_VERSION;
    };
    let Some(answer) = by_range(&version, low, high, flags, members) else {
        return NO_REQUIREMENTS;
    };
    *matches = answer;
    OK
}

// Returns the answer about a version: 1 if it is in the range and the members match it, otherwise 0. None if members are
// asked that are no list.
fn by_range(
    version: &VersioningRef<'_>,
    low: &[u8],
    high: &[u8],
    flags: u32,
    members: &[u8],
) -> Option<u8>
    ensures { result ≡ by_range (range_with low.now high.now flags) members.now
        (plain_versioning_ref version.now) }
{
    if code(version, low, high, flags) == 0 {
        return Some(0);
    }
    if members.is_empty() {
        return Some(1);
    }
    Some(list_matches(members, version)? as u8)
}
