//! Members of a list of requirements, by the range that they ask for together.

ghost use Rattle.std.specs.Prelude.{◌≡◌, ◌↔◌, IsTrue, Some};
ghost use Rattle.std.specs.Option.{option_map};
ghost use Rattle.version_rules.specs.requirement.{Matching.MatchesAll, Range.range_of, Requirements.requirements_of};
ghost use Rattle.version_texts.specs.{VersioningRef.plain_versioning_ref};
ghost use Rattle.version_requirements.specs.Range.{plain_range_ref};

use crate::inexact::inexact_match;
use crate::range_ref::RangeRef;
use version_texts::VersioningRef;

/// Members of a list: their text, and the range that they ask for together.
#[derive(Clone, Copy)]
pub(crate) struct Others<'a> {
    text: &'a [u8],
    range: RangeRef<'a>,
    ghost read: { option_map range_of (requirements_of text.now) ≡ Some (plain_range_ref range) },
}

impl<'a> Others<'a> {
    ghost use Rattle.version_requirements.specs.Requirement.{held_members};

    // Parses a text as members, or returns None if it does not parse.
    // Not inlined, like `matches`: lists of few members then have no cost of it.
    #[inline(never)]
    pub fn from_bytes(text: &'a [u8]) -> Option<Others<'a>>
        ensures { option_map held_members result ≡ requirements_of text.now }
    {
        let range = RangeRef::from_bytes(text)?;
        Some(Others { text, range })
    }

    // Returns whether each member matches a version. Only a version in the range can match, and there only members that
    // aren't exact are asked.
    #[inline(never)]
    pub fn matches(&self, version: &VersioningRef<'_>) -> bool
        ensures { IsTrue result
            ↔ MatchesAll (held_members self.now) (plain_versioning_ref version.now) }
    {
        self.range.has(version) && (self.range.is_exact || inexact_match(self.text, version))
    }
}
