//! Requirements that are borrowed from their texts.

ghost use Rattle.std.specs.Prelude.{◌≡◌, ◌↔◌, IsTrue};
ghost use Rattle.std.specs.Option.{option_map};
ghost use Rattle.version_texts.specs.{VersioningRef.plain_versioning_ref};
ghost use Rattle.version_requirements.specs.Requirement.{plain_requirement_ref};
ghost use Rattle.version_rules.specs.requirement.{Matching.Matches, Range.requirement_range, Requirement.requirement_of};

use version_rules::{Op, asks_for, ends_of};
use version_texts::VersioningRef;

/// A requirement borrowed from its text: a `Requirement` that owns nothing.
/// docs/REQUIREMENTS.md has the rules.
#[derive(Clone, Copy)]
pub struct RequirementRef<'a> {
    pub op: Op,
    /// The version that others are compared with. A parsed `*` has none. Any other operator without a version matches
    /// nothing.
    pub version: Option<VersioningRef<'a>>,
}

impl<'a> RequirementRef<'a> {
    /// Parses the whole text as a requirement; returns None if it does not parse. A requirement is an operator and a
    /// text that `VersioningRef::new` parses, or `*` alone. Does not allocate.
    pub fn new(s: &'a str) -> Option<RequirementRef<'a>>
        ensures { option_map plain_requirement_ref result ≡ requirement_of s.now }
    {
        RequirementRef::from_bytes(s.as_bytes())
    }

    /// Parses bytes as `new` parses their text; returns None if they do not parse. Does not allocate.
    pub fn from_bytes(bytes: &'a [u8]) -> Option<RequirementRef<'a>>
        ensures { option_map plain_requirement_ref result ≡ requirement_of bytes.now }
    {
        let (op, rest) = Op::split(bytes)?;
        let version = match op {
            Op::Wildcard if rest.is_empty() => None,
            Op::Wildcard => return None,
            _ => Some(VersioningRef::from_bytes(rest)?),
        };
        Some(RequirementRef { op, version })
    }

    /// Returns whether the version matches. `=` compares by `==`, and `>`, `>=`, `<` and `<=` by precedence. `~` and
    /// `^` match by the rule of strict versions if both are strict, by that of general ones if both are general, else
    /// never. `*` matches every version, with or without a version of its own. Any other operator without a version
    /// matches nothing. Does not allocate.
    pub fn matches(&self, version: &VersioningRef<'_>) -> bool
        ensures { IsTrue result
            ↔ Matches (plain_requirement_ref self.now) (plain_versioning_ref version.now) }
    {
        match &self.version {
            Some(wanted) => asks_for(self.op, wanted, version),
            None => self.op == Op::Wildcard,
        }
    }

    // Returns whether it matches every version in its range.
    pub(crate) fn is_exact(&self) -> bool
        ensures { result ≡ (requirement_range (plain_requirement_ref self.now)).is_exact }
    {
        match &self.version {
            Some(version) => ends_of(self.op, version.kind()).is_exact,
            None => true,
        }
    }
}
