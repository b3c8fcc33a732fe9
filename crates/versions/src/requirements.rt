//! Lists of requirements, such as `>=1.1.1,<2.0.0`.

ghost use Rattle.std.specs.Prelude.{◌≡◌, ◌↔◌, IfOk, IsSome, IsTrue, OnErr, Some};
ghost use Rattle.std.specs.Option.{is_some, option_map};
ghost use Rattle.versions.specs.{Errors.IllegalOp, Errors.ReadsOr, Requirements.plain_range, Requirements.plain_requirements, Versioning.plain_versioning};
ghost use Rattle.version_rules.specs.{grammar.Versioning.PlainVersioning, requirement.Matching.IsConvex, requirement.Matching.MatchesAll, requirement.Range.range_of, requirement.Range.IsIn};
ghost use Rattle.version_rules.specs.requirement.Requirements.{requirements_of, requirements_text};

use crate::errors::{Error, ReadError, or_illegal};
use crate::range::Range;
use crate::requirement::Requirement;
use crate::versioning::Versioning;
use std::alloc::{AllocError, Global};
use std::fmt;

/// A list of requirements, such as `>=1.1.1,<2.0.0`. It matches the versions that each member matches.
#[derive(Debug, PartialEq, Eq, Hash, Drop)]
pub struct Requirements(pub Vec<Requirement>);

impl Requirements {
    /// Parses the whole text as a list; returns None if it does not parse. A list is one requirement or more with
    /// single commas between. So neither the empty text nor an empty member parses. Allocates nothing for None. `Err`
    /// means allocation failure.
    pub fn new(alloc: Global, s: &str) -> Result<Option<Requirements>, AllocError>
        // What the text spells, or None: the law `requirement_lists: answer`.
        ensures exact { IfOk result (λ o. option_map plain_requirements o ≡ requirements_of s.now) }
        // An allocation fails only if the text spells a list.
        ensures memory { OnErr result (IsSome (requirements_of s.now)) }
    {
        if !Requirements::is_spelled_by(s) {
            return Ok(None);
        }
        read_members(alloc, s)
    }

    /// Returns whether the whole text parses as a list, so that `new` returns one.
    pub fn is_spelled_by(s: &str) -> bool
        ensures { result ≡ is_some (requirements_of s.now) }
    {
        s.split(',').all(Requirement::is_spelled_by)
    }

    /// Parses the whole text as a list. Fails with `Illegal` if it does not parse: the error is `IllegalOp` with the
    /// text. Fails with `Memory` if an allocation fails, for the list or for that text.
    pub fn from_str(alloc: Global, s: &str) -> Result<Requirements, ReadError>
        ensures { ReadsOr plain_requirements
            (λ _. Unit {0}) (IllegalOp s.now) result (requirements_of s.now) }
    {
        or_illegal(alloc, Requirements::new(alloc, s), s, Error::IllegalOp)
    }

    /// Returns a copy. `Err` means allocation failure.
    pub fn clone(&self, alloc: Global) -> Result<Requirements, AllocError>
        ensures { IfOk result (λ copy. plain_requirements copy ≡ plain_requirements self.now) }
    {
        let mut copy = Vec::with_capacity(alloc, self.0.len())?;
        for requirement in &self.0 {
            copy.push(requirement.clone(alloc)?)?;
        }
        Ok(Requirements(copy))
    }

    /// Returns whether each member matches the version; an empty list matches every version.
    #[tactic(auto, using(version_rules::proofs::lemmas::Matching::requirements_convex))]
    pub fn matches(&self, version: &Versioning) -> bool
        ensures set { IsTrue result
            ↔ MatchesAll (plain_requirements self.now) (plain_versioning version.now) }

        // If two strict versions match, so do the strict versions between them.
        ensures convex { IsConvex (MatchesAll (plain_requirements self.now)) }
    {
        for requirement in &self.0 {
            if !requirement.matches(version) {
                return false;
            }
        }
        true
    }

    /// Returns the range of keys that it asks for: what is in the range of each member. `Err` means allocation failure.
    #[tactic(auto, using(version_rules::proofs::lemmas::Range::list_in, version_rules::proofs::lemmas::Range::list_exact))]
    pub fn range(&self, alloc: Global) -> Result<Range, AllocError>
        ensures range { IfOk result
            (λ range. plain_range range ≡ range_of (plain_requirements self.now)) }

        // Each version that the list matches is in the range. If the range is exact, the list matches each version in
        // it.
        ensures within { IfOk result (λ range. (v : PlainVersioning)
            → MatchesAll (plain_requirements self.now) v → IsIn (plain_range range) v) }
        ensures exact { IfOk result (λ range. (v : PlainVersioning) → IsTrue range.is_exact
            → IsIn (plain_range range) v → MatchesAll (plain_requirements self.now) v) }
    {
        self.common_range(alloc)
    }

    // Returns what is in the range of each member.
    fn common_range(&self, alloc: Global) -> Result<Range, AllocError>
        ensures { IfOk result
            (λ range. plain_range range ≡ range_of (plain_requirements self.now)) }
    {
        let mut range = Range::everything(alloc);
        for requirement in &self.0 {
            range = range.common(requirement.range(alloc)?);
        }
        Ok(range)
    }
}

/// Writes the members with commas between.
impl fmt::Display for Requirements {
    ghost output = { λ list. Some (requirements_text (plain_requirements list)) };

    fn fmt<W: fmt::Write>(&self, f: &mut fmt::Formatter<W>) -> fmt::Result {
        let Some((first, others)) = self.0.split_first() else {
            return Ok(());
        };
        write!(f, "{first}")?;
        for requirement in others {
            write!(f, ",{requirement}")?;
        }
        Ok(())
    }
}

// Parses the members of a list, one after another.
fn read_members(alloc: Global, s: &str) -> Result<Option<Requirements>, AllocError>
    ensures { IfOk result (λ o. option_map plain_requirements o ≡ requirements_of s.now) }
{
    let mut list = Vec::with_capacity(alloc, s.split(',').count())?;
    for member in s.split(',') {
        let Some(requirement) = Requirement::new(alloc, member)? else {
            return Ok(None);
        };
        list.push(requirement)?;
    }
    Ok(Some(Requirements(list)))
}
