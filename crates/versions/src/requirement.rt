//! Requirements, such as `^1.2.3` and `>=1.0`, and what they match.

ghost use Rattle.std.specs.Prelude.{◌≡◌, ◌↔◌, IfOk, IsSomeAnd, IsTrue, None, OnErr, Some};
ghost use Rattle.std.specs.Option.{is_some, option_map};
ghost use Rattle.version_parts.specs.Body.{Reads};
ghost use Rattle.versions.specs.{Errors.IllegalOp, Errors.ReadsOr, Requirements.plain_range, Requirements.plain_requirement, Versioning.plain_versioning};
ghost use Rattle.version_rules.specs.requirement.Requirement.{op_front, requirement_front, requirement_of, requirement_text, RequirementOwns};
ghost use Rattle.version_rules.specs.{declared.op.Op.TheVariants.Wildcard, grammar.Versioning.PlainVersioning, requirement.Matching.IsConvex, requirement.Matching.Matches, requirement.Range.requirement_range, requirement.Range.IsIn};

use crate::errors::{Error, ReadError, or_illegal};
use crate::range::Range;
use crate::range::build::range_from;
use crate::semver::SemVer;
use crate::versioning::Versioning;
use std::alloc::{AllocError, Global};
use std::{fmt, str};
use version_rules::{Op, asks_for, ends_of, ends_without_version};

/// An operator and a version, such as `^1.2.3`; or `*` alone. docs/REQUIREMENTS.md has the rules.
#[derive(Debug, PartialEq, Eq, Hash, Drop)]
pub struct Requirement {
    pub op: Op,
    /// The version that others are compared with. A parsed `*` has none. Any other operator without a version matches
    /// nothing.
    pub version: Option<Versioning>,
}

impl Requirement {
    /// Parses the whole text as a requirement; returns None if it does not parse. A requirement is an operator and a
    /// text that `Versioning::new` parses, or `*` alone. Allocates only for the version; nothing for None. `Err` means
    /// allocation failure.
    pub fn new(alloc: Global, s: &str) -> Result<Option<Requirement>, AllocError>
        // What the text spells, or None: the law `requirements: answer`.
        ensures exact { IfOk result (λ o. option_map plain_requirement o ≡ requirement_of s.now) }
        // An allocation fails only if the text spells a requirement whose version owns memory.
        ensures memory { OnErr result (IsSomeAnd (requirement_of s.now) RequirementOwns) }
    {
        let Some((op, rest)) = split_op(s) else {
            return Ok(None);
        };
        if let Op::Wildcard = op {
            return Ok(rest.is_empty().then(Requirement::default));
        }
        match Versioning::new(alloc, rest)? {
            Some(version) => Ok(Some(Requirement::of(op, version))),
            None => Ok(None),
        }
    }

    /// Returns whether the whole text parses as a requirement, so that `new` returns one.
    pub fn is_spelled_by(s: &str) -> bool
        ensures { result ≡ is_some (requirement_of s.now) }
    {
        match split_op(s) {
            Some((Op::Wildcard, rest)) => rest.is_empty(),
            Some((_, rest)) => Versioning::is_spelled_by(rest),
            None => false,
        }
    }

    /// Parses the whole text as a requirement. Fails with `Illegal` if it does not parse: the error is `IllegalOp` with
    /// the text. Fails with `Memory` if an allocation fails, for the version or for that text.
    pub fn from_str(alloc: Global, s: &str) -> Result<Requirement, ReadError>
        ensures { ReadsOr plain_requirement RequirementOwns (IllegalOp s.now) result
            (requirement_of s.now) }
    {
        or_illegal(alloc, Requirement::new(alloc, s), s, Error::IllegalOp)
    }

    /// Parses a prefix as a requirement; returns it and the rest, or None. A requirement is an operator and what
    /// `Versioning::parse` parses, or `*` alone. So `=1.2.3.4` is `=1.2.3` with the rest `.4`. Allocates only for the
    /// version; nothing for None. `Err` means allocation failure.
    pub fn parse(alloc: Global, i: &str) -> Result<Option<(Requirement, &str)>, AllocError>
        ensures { Reads plain_requirement RequirementOwns result (requirement_front i.now) }
    {
        let Some((op, rest)) = split_op(i) else {
            return Ok(None);
        };
        if let Op::Wildcard = op {
            return Ok(Some((Requirement::default(), rest)));
        }
        match Versioning::parse(alloc, rest)? {
            Some((version, rest)) => Ok(Some((Requirement::of(op, version), rest))),
            None => Ok(None),
        }
    }

    /// Returns a copy, metadata included. `Err` means allocation failure.
    pub fn clone(&self, alloc: Global) -> Result<Requirement, AllocError>
        ensures { IfOk result (λ copy. plain_requirement copy ≡ plain_requirement self.now) }
    {
        let version = match &self.version {
            Some(version) => Some(version.clone(alloc)?),
            None => None,
        };
        Ok(Requirement {
            op: self.op,
            version,
        })
    }

    /// Returns whether the version matches. `=` compares by `==`, and `>`, `>=`, `<` and `<=` by precedence. `~` and
    /// `^` match by the rule of strict versions if both are strict, by that of general ones if both are general, else
    /// never. `*` matches every version, with or without a version of its own. Any other operator without a version
    /// matches nothing.
    #[tactic(auto, using(version_rules::proofs::lemmas::Matching::requirement_convex))]
    pub fn matches(&self, version: &Versioning) -> bool
        ensures set { IsTrue result
            ↔ Matches (plain_requirement self.now) (plain_versioning version.now) }

        // If two strict versions match, so do the strict versions between them.
        ensures convex { IsConvex (Matches (plain_requirement self.now)) }
    {
        match &self.version {
            Some(wanted) => asks_for(self.op, wanted, version),
            None => self.op == Op::Wildcard,
        }
    }

    /// Returns the range of keys that it asks for. `Err` means allocation failure.
    #[tactic(auto, using(version_rules::proofs::lemmas::Range::requirement_in, version_rules::proofs::lemmas::Range::requirement_exact))]
    pub fn range(&self, alloc: Global) -> Result<Range, AllocError>
        ensures range { IfOk result
            (λ range. plain_range range ≡ requirement_range (plain_requirement self.now)) }

        // Each version that it matches is in the range. If the range is exact, it matches each version in it.
        ensures within { IfOk result (λ range. (v : PlainVersioning)
            → Matches (plain_requirement self.now) v → IsIn (plain_range range) v) }
        ensures exact { IfOk result (λ range. (v : PlainVersioning) → IsTrue range.is_exact
            → IsIn (plain_range range) v → Matches (plain_requirement self.now) v) }
    {
        self.own_range(alloc)
    }

    // Returns the range of keys that it asks for.
    fn own_range(&self, alloc: Global) -> Result<Range, AllocError>
        ensures { IfOk result
            (λ range. plain_range range ≡ requirement_range (plain_requirement self.now)) }
    {
        match &self.version {
            Some(version) => range_from(alloc, version, ends_of(self.op, version.kind())),
            None => {
                // No end needs the key, so any version will do.
                let version = Versioning::Ideal(SemVer::default());
                range_from(alloc, &version, ends_without_version(self.op))
            }
        }
    }

    // Returns a requirement of an operator and a version.
    fn of(op: Op, version: Versioning) -> Requirement
        ensures { plain_requirement result
            ≡ record { op = op; version = Some (plain_versioning version) } }
    {
        Requirement {
            op,
            version: Some(version),
        }
    }
}

/// The default is `*`.
impl Default for Requirement {
    ghost is_default = { λ r. plain_requirement r ≡ record { op = Wildcard; version = None } };

    fn default() -> Requirement {
        Requirement {
            op: Op::Wildcard,
            version: None,
        }
    }
}

impl fmt::Display for Requirement {
    ghost output = { λ r. Some (requirement_text (plain_requirement r)) };

    fn fmt<W: fmt::Write>(&self, f: &mut fmt::Formatter<W>) -> fmt::Result {
        let op = self.op;
        write!(f, "{op}")?;
        if let Some(version) = &self.version {
            write!(f, "{version}")?;
        }
        Ok(())
    }
}

// Parses a prefix as an operator; returns it and the rest.
#[tactic(auto, unfolding(version_rules::specs::requirement::Requirement::op_front))]
fn split_op(i: &str) -> Option<(Op, &str)>
    ensures { option_map (λ r. (r.0, r.1.now)) result ≡ op_front i.now }
{
    let (op, rest) = Op::split(i.as_bytes())?;
    Some((op, str::from_utf8(rest).unwrap()))
}
