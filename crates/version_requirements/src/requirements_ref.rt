//! Lists of requirements that are borrowed from their texts.

ghost use Rattle.std.specs.Prelude.{◌≡◌, ◌↔◌, nat_eq, IfSome, IsTrue};
ghost use Rattle.std.specs.{List.starts_with, Option.is_none, Option.is_some, Option.IsSomeAnd};
ghost use Rattle.version_requirements.specs.Requirement.{plain_requirement_ref, from_second, others_of, wrong_member, IsFront};
ghost use Rattle.version_texts.specs.VersioningRef.{plain_versioning_ref};
ghost use Rattle.version_rules.specs.{grammar.Versioning.versioning_of, requirement.Matching.MatchesAll, requirement.Requirements.requirements_of, requirement.Requirements.Keeps};

use crate::members::{Members, split_first};
use crate::others::Others;
use crate::requirement_ref::RequirementRef;
use std::marker::Model;
use version_order::after_byte;
use version_rules::Op;
use version_texts::VersioningRef;

// The length of a list whose members are asked in turn about one version. Of a longer one the range is asked first.
const SHORT: usize = 64;

/// A list of requirements borrowed from its text: a `Requirements` that owns nothing. The first two members are parsed
/// once. Of the others the range is kept: only those that the range doesn't decide are parsed again for a version.
#[derive(Drop)]
pub struct RequirementsRef<'a> {
    first: RequirementRef<'a>,
    second: Option<RequirementRef<'a>>,
    // The further members, after the second comma.
    others: Option<Others<'a>>,
    // What each version that the first member matches begins with.
    front: &'a [u8],
}

impl<'a> Model for RequirementsRef<'a> {
    ghost use Rattle.std.specs.Prelude.{List};
    ghost use Rattle.version_requirements.specs.Requirement.{plain_requirement_ref, scanned_requirements, IsFront};
    ghost use Rattle.version_rules.specs.requirement.Requirement.{PlainRequirement};

    ghost Value = { List PlainRequirement };

    ghost view = { λ list. scanned_requirements list.first list.second list.others };

    ghost invariant = { λ list. IsFront (plain_requirement_ref list.first) list.front.now };
}

impl<'a> RequirementsRef<'a> {
    /// Parses the whole text as a list; returns None if it does not parse. A list is one requirement or more with
    /// single commas between. So neither the empty text nor an empty member parses. Does not allocate.
    pub fn new(s: &'a str) -> Option<RequirementsRef<'a>>
        ensures { result ≡ requirements_of s.now }
    {
        RequirementsRef::from_bytes(s.as_bytes())
    }

    /// Parses bytes as `new` parses their text; returns None if they do not parse. Bytes that are not UTF-8 are not a
    /// list. Does not allocate.
    pub fn from_bytes(bytes: &'a [u8]) -> Option<RequirementsRef<'a>>
        ensures { result ≡ requirements_of bytes.now }
    {
        let (first, others) = split_first(bytes);
        let first = RequirementRef::from_bytes(first)?;
        let front = front_of(&first);
        let Some(others) = others else {
            return Some(RequirementsRef {
                first,
                second: None,
                others: None,
                front,
            });
        };
        let (second, others) = split_first(others);
        let second = RequirementRef::from_bytes(second)?;
        let others = match others {
            Some(text) => Some(Others::from_bytes(text)?),
            None => None,
        };
        Some(RequirementsRef {
            first,
            second: Some(second),
            others,
            front,
        })
    }

    /// Returns whether each member matches the version. Does not allocate.
    pub fn matches(&self, version: &VersioningRef<'_>) -> bool
        ensures { IsTrue result ↔ MatchesAll self.now (plain_versioning_ref version.now) }
    {
        self.first.matches(version) && second_and_others_match(&self.second, &self.others, version)
    }

    /// Returns whether the bytes parse as a version that each member matches. Does not allocate.
    #[tactic(auto, using(crate::proofs::lemmas::Fronts::not_kept))]
    pub fn keeps(&self, text: &[u8]) -> bool
        ensures { IsTrue result ↔ Keeps self.now (versioning_of text.now) }
    {
        // The first bytes decide most texts without a scan.
        if !begins_with(text, self.front) {
            return false;
        }
        match VersioningRef::from_bytes(text) {
            Some(version) => self.matches(&version),
            None => false,
        }
    }
}

/// Returns whether bytes are a list whose members each match the version, or None if they do not parse as a list. It
/// stores no member, so it is faster than `from_bytes` and `matches` for one version. Does not allocate.
#[inline(always)]
#[tactic(auto, using(version_rules::proofs::lemmas::Requirement::first_decides, version_rules::proofs::lemmas::Requirement::others_decide, crate::proofs::lemmas::Members::list_split, crate::proofs::lemmas::Members::more_parse))]
pub fn list_matches(list: &[u8], version: &VersioningRef<'_>) -> Option<bool>
    ensures parses { is_some result ≡ is_some (requirements_of list.now) }
    ensures matches { IfSome result (λ all. IsTrue all ↔ IsSomeAnd (requirements_of list.now)
        (λ wanted. MatchesAll wanted (plain_versioning_ref version.now))) }
{
    if list.len() > SHORT {
        return long_list_matches(list, version);
    }
    let mut members = Members::of(list);
    while let Some(member) = members.next() {
        let member = RequirementRef::from_bytes(member)?;
        if !member.matches(version) {
            return if members.parse() { Some(false) } else { None };
        }
    }
    Some(true)
}

// The same by the range of the list.
// Not inlined: so a short list has no cost of it.
#[inline(never)]
fn long_list_matches(list: &[u8], version: &VersioningRef<'_>) -> Option<bool>
    ensures parses { is_some result ≡ is_some (requirements_of list.now) }
    ensures matches { IfSome result (λ all. IsTrue all ↔ IsSomeAnd (requirements_of list.now)
        (λ wanted. MatchesAll wanted (plain_versioning_ref version.now))) }
{
    Some(Others::from_bytes(list)?.matches(version))
}

/// Returns where the first member of a list that is not a requirement begins and ends, or None if the text parses as a
/// list. The members are the pieces between the commas, empty ones too. Does not allocate.
pub fn wrong_member(list: &[u8]) -> Option<(usize, usize)>
    ensures place { result ≡ wrong_member list.now }
    ensures parses { is_none result ≡ is_some (requirements_of list.now) }
{
    let mut start = 0;
    let mut left = list;
    loop {
        let (first, others) = split_first(left);
        if RequirementRef::from_bytes(first).is_none() {
            return Some((start, start + first.len()));
        }
        left = others?;
        start += first.len() + 1;
    }
}

// Returns what each version that a requirement matches begins with: for `~` or `^` with a strict version the major
// number and a dot, else nothing.
fn front_of<'a>(member: &RequirementRef<'a>) -> &'a [u8]
    ensures { IsFront (plain_requirement_ref member.now) result.now }
{
    let Some(version) = &member.version else {
        return &[];
    };
    match member.op {
        Op::Tilde | Op::Caret => version.major(),
        _ => &[],
    }
}

// Returns whether a text begins with a front. Byte by byte, since the first decides most texts.
#[inline(always)]
fn begins_with(text: &[u8], front: &[u8]) -> bool
    ensures { result ≡ starts_with nat_eq text.now front.now }
{
    let mut left = text;
    for byte in front {
        match after_byte(*byte, left) {
            Some(behind) => left = behind,
            None => return false,
        }
    }
    true
}

// Returns whether the second member, if there is one, and the others match the version.
fn second_and_others_match(
    second: &Option<RequirementRef<'_>>,
    others: &Option<Others<'_>>,
    version: &VersioningRef<'_>,
) -> bool
    ensures { IsTrue result ↔ MatchesAll (from_second second.now others.now)
        (plain_versioning_ref version.now) }
{
    match second {
        Some(second) => second.matches(version) && others_match(others, version),
        None => true,
    }
}

// Returns whether the others match the version.
fn others_match(others: &Option<Others<'_>>, version: &VersioningRef<'_>) -> bool
    ensures { IsTrue result ↔ MatchesAll (others_of others.now) (plain_versioning_ref version.now) }
{
    match others {
        Some(others) => others.matches(version),
        None => true,
    }
}
