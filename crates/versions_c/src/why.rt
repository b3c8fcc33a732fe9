//! Which member of a list of requirements does not match a version, and which two members exclude each other.

ghost use Rattle.std.specs.Prelude.{◌≡◌, ◌≢◌, IfSome};
ghost use Rattle.version_rules.specs.{grammar.Versioning.versioning_of, requirement.Range.range_of, requirement.Requirements.requirements_of};
ghost use Rattle.version_requirements.specs.{Requirement.ExcludeEachOther, Requirement.IsByEnds};
ghost use Rattle.version_requirements.specs.Range.{IsCrossed};
ghost use Rattle.versions_c.specs.Matching.{why_code, why_status, IsConflictStatus, IsExplained, IsToldWhy};

use crate::matching::status_without_version;
use crate::status::{ALL_MATCH, NO_CONFLICT, NO_REQUIREMENTS, NO_ROOM, OK};
use version_requirements::{Conflict, Why, conflict_in, why_not};
use version_texts::VersioningRef;

/// The version's kind is not one of the requirement's.
pub const KIND: u32 = 1;
/// Its key is below the requirement's range.
pub const BELOW: u32 = 2;
/// Its key is not below the high end of the requirement's range.
pub const ABOVE: u32 = 3;
/// Parts or fields differ.
pub const PARTS: u32 = 4;

/// Writes where the first member of a list begins and ends that does not match a version, and why it does not.
#[unsafe(no_mangle)]
pub extern "C" fn versions_why_not(
    list: &[u8],
    text: &[u8],
    start: &mut usize,
    end: &mut usize,
    why: &mut u32,
) -> i32
    ensures status { result ≡ why_status (requirements_of list.now) (versioning_of text.now) }
    ensures why { result ≡ OK → IfSome (versioning_of text.now)
        (λ v. IsExplained list.now v start.new end.new why.new) }
    ensures kept_start { result ≢ OK → start.new ≡ start.old }
    ensures kept_end { result ≢ OK → end.new ≡ end.old }
    ensures kept_why { result ≢ OK → why.new ≡ why.old }
{
    let Some(version) = VersioningRef::from_bytes(text) else {
        return status_without_version(list);
    };
    let Some(found) = why_not(list, &version) else {
        return NO_REQUIREMENTS;
    };
    let Some(excluded) = found else {
        return ALL_MATCH;
    };
    *start = excluded.start;
    *end = excluded.end;
    *why = why_code(excluded.why);
    OK
}

/// Writes why the first member of a list that does not match a version does not, as a sentence.
#[unsafe(no_mangle)]
pub extern "C" fn versions_why_text(
    list: &[u8],
    text: &[u8],
    why: &mut [u8],
    why_len: &mut usize,
) -> i32
    ensures why { IsToldWhy list.now (versioning_of text.now) why.old why.new why_len.new result }
    ensures kept { result ≢ OK → why.new ≡ why.old }

    // Where there is no sentence there is no length.
    ensures no_length { result ≢ OK → result ≢ NO_ROOM → why_len.new ≡ why_len.old }
{
    let Some(version) = VersioningRef::from_bytes(text) else {
        return status_without_version(list);
    };
    let Some(found) = why_not(list, &version) else {
        return NO_REQUIREMENTS;
    };
    let Some(excluded) = found else {
        return ALL_MATCH;
    };
    *why_len = excluded.write(list, &version, why);
    if *why_len > why.len() {
        return NO_ROOM;
    }
    OK
}

// Returns the number of a reason.
fn why_code(why: Why) -> u32
    ensures { result ≡ why_code why }
{
    match why {
        Why::Kind => KIND,
        Why::Below => BELOW,
        Why::Above => ABOVE,
        Why::Parts => PARTS,
    }
}

/// Writes where two members of a list begin and end that exclude each other, or one twice.
#[unsafe(no_mangle)]
pub extern "C" fn versions_conflict(
    list: &[u8],
    start: &mut usize,
    end: &mut usize,
    other_start: &mut usize,
    other_end: &mut usize,
) -> i32
    ensures status { IsConflictStatus (requirements_of list.now) result }
    ensures members { result ≡ OK → ExcludeEachOther list.now (record {
      one = record { start = start.new; end = end.new };
      other = record { start = other_start.new; end = other_end.new };
    }) }
    ensures kept_start { result ≢ OK → start.new ≡ start.old }
    ensures kept_end { result ≢ OK → end.new ≡ end.old }
    ensures ends { result ≡ OK → IfSome (requirements_of list.now)
        (λ wanted. IsCrossed (range_of wanted) → IsByEnds list.now (range_of wanted) (record {
          one = record { start = start.new; end = end.new };
          other = record { start = other_start.new; end = other_end.new };
        })) }
    ensures kept_other_start { result ≢ OK → other_start.new ≡ other_start.old }
    ensures kept_other_end { result ≢ OK → other_end.new ≡ other_end.old }
{
    let Some(found) = conflict_in(list) else {
        return NO_REQUIREMENTS;
    };
    let Some(Conflict { one, other }) = found else {
        return NO_CONFLICT;
    };
    *start = one.start;
    *end = one.end;
    *other_start = other.start;
    *other_end = other.end;
    OK
}
