//! Strict versions.

ghost use Rattle.std.specs.Prelude.{◌≡◌, ◌↔◌, refl, IfOk, IfSome, IsSomeAnd, IsTrue, None, OnErr, Some};
ghost use Rattle.std.specs.Cmp.{eq_by_cmp_equiv, on_equiv, on_per, on_total, partial_equiv_from_equiv, po};
ghost use Rattle.std.specs.{Option.is_some, Option.option_map, Ordering.as_partial_cmp, Ordering.eq_by_cmp, Ordering.on};
ghost use Rattle.version_parts.specs.Body.{Reads, plain_release};
ghost use Rattle.version_order.specs.keys.Lists.{none_last_cmp};
ghost use Rattle.version_rules.specs.{grammar.SemVer.semver_front, grammar.SemVer.semver_of, grammar.SemVer.semver_text, grammar.SemVer.SemVerOwns, laws.Versioning.semver_total, order.Kinds.semver_cmp, order.Parts.release_cmp};
ghost use Rattle.version_rules.specs.requirement.SemVerMatch.{numbers, MatchesCaret, MatchesTilde};
ghost use Rattle.versions.specs.SemVer.{plain_semver, semver_fed, plain_semver_ref, semver_of_text, IsSemVerText};
ghost use Rattle.versions.specs.{Errors.IllegalSemver, Errors.ReadsOr, Laws.fed_alike};

use crate::errors::{Error, ReadError, or_illegal};
use crate::optional::{
    build_release, copy_meta, copy_release, copy_text, optional_meta, optional_release, write_tail,
};
use serde::{Deserialize, Serialize};
use std::alloc::{AllocError, Global};
use std::cmp::Ordering;
use std::fmt;
use std::hash::{Hash, Hasher};
use version_parts::{Release, ReleaseRef, scan};

/// A strict version: `major.minor.patch`, then perhaps a pre-release, then perhaps build metadata, such as
/// `1.2.3-rc.1+x86` (SemVer 2.0, sections 2, 9 and 10). The numbers are below 2^32.
#[derive(Debug, Drop, Serialize, Deserialize)]
pub struct SemVer {
    pub major: u32,
    pub minor: u32,
    pub patch: u32,
    /// The pre-release, which follows the hyphen. A parsed version has at least one chunk here.
    pub pre_rel: Option<Release>,
    /// The build metadata, which follows the plus.
    pub meta: Option<String>,
}

impl SemVer {
    /// Parses the whole text as a strict version; returns None if it does not parse. Allocates only for a pre-release
    /// and metadata, which it copies. `Err` means allocation failure.
    pub fn new(alloc: Global, s: &str) -> Result<Option<SemVer>, AllocError>
        // What the text spells, or None: the law `strict_versions: answer`.
        ensures exact { IfOk result (λ o. option_map plain_semver o ≡ semver_of s.now) }
        // An allocation fails only if the text spells a version that owns memory.
        ensures memory { OnErr result (IsSomeAnd (semver_of s.now) SemVerOwns) }
    {
        match SemVerRef::new(s) {
            Some(version) => Ok(Some(version.build(alloc)?)),
            None => Ok(None),
        }
    }

    /// Returns whether the whole text parses as a strict version, so that `new` returns one.
    pub fn is_spelled_by(s: &str) -> bool
        ensures { result ≡ is_some (semver_of s.now) }
    {
        SemVerRef::new(s).is_some()
    }

    /// Parses the whole text as a strict version. Fails with `Illegal` if it does not parse: the error is
    /// `IllegalSemver` with the text. Fails with `Memory` if an allocation fails, for the version or for that text.
    pub fn from_str(alloc: Global, s: &str) -> Result<SemVer, ReadError>
        ensures { ReadsOr plain_semver SemVerOwns (IllegalSemver s.now) result (semver_of s.now) }
    {
        or_illegal(alloc, SemVer::new(alloc, s), s, Error::IllegalSemver)
    }

    /// Parses a prefix as a strict version; returns it and the rest, or None. It parses three numbers with dots
    /// between, then a release and metadata if they parse. Allocates only for a release and metadata, which it copies.
    /// `Err` means allocation failure.
    pub fn parse(alloc: Global, i: &str) -> Result<Option<(SemVer, &str)>, AllocError>
        ensures { Reads plain_semver SemVerOwns result (semver_front i.now) }
    {
        let Some((version, rest)) = SemVerText::scan(i) else {
            return Ok(None);
        };
        Ok(Some((version.read().build(alloc)?, rest)))
    }

    /// Returns a copy, metadata included. Allocates only for a pre-release and metadata. `Err` means allocation
    /// failure.
    pub fn clone(&self, alloc: Global) -> Result<SemVer, AllocError>
        ensures ok { IfOk result (λ copy. plain_semver copy ≡ plain_semver self.now) }
        ensures err { OnErr result (SemVerOwns (plain_semver self.now)) }
    {
        Ok(SemVer {
            major: self.major,
            minor: self.minor,
            patch: self.patch,
            pre_rel: copy_release(alloc, &self.pre_rel)?,
            meta: copy_meta(alloc, &self.meta)?,
        })
    }
}

impl fmt::Display for SemVer {
    ghost output = { λ v. Some (semver_text (plain_semver v)) };

    fn fmt<W: fmt::Write>(&self, f: &mut fmt::Formatter<W>) -> fmt::Result {
        let (major, minor, patch) = (self.major, self.minor, self.patch);
        write!(f, "{major}.{minor}.{patch}")?;
        write_tail(f, &self.pre_rel, &self.meta)
    }
}

impl SemVer {
    /// Returns whether `~self` matches `other`: major and minor are equal, and the patch is not less. Pre-releases and
    /// metadata do not count.
    pub fn matches_tilde(&self, other: &SemVer) -> bool
        ensures { IsTrue result
            ↔ MatchesTilde (numbers (plain_semver self.now)) (numbers (plain_semver other.now)) }
    {
        numbers_match_tilde(self.numbers(), other.numbers())
    }

    /// Returns whether `^self` matches `other`. Leading numbers that are 0 in both are skipped; the next must be equal,
    /// and those after it not less, compared in turn. Pre-releases and metadata do not count.
    pub fn matches_caret(&self, other: &SemVer) -> bool
        ensures { IsTrue result
            ↔ MatchesCaret (numbers (plain_semver self.now)) (numbers (plain_semver other.now)) }
    {
        numbers_match_caret(self.numbers(), other.numbers())
    }

    // Returns major, minor and patch.
    fn numbers(&self) -> Numbers
        ensures { result ≡ numbers (plain_semver self.now) }
    {
        (self.major, self.minor, self.patch)
    }
}

// Major, minor and patch.
pub(crate) type Numbers = (u32, u32, u32);

// Returns whether `~wanted` matches the numbers: equal major and minor, and a patch that is not less.
fn numbers_match_tilde(wanted: Numbers, numbers: Numbers) -> bool
    ensures { IsTrue result ↔ MatchesTilde wanted numbers }
{
    wanted.0 == numbers.0 && wanted.1 == numbers.1 && wanted.2 <= numbers.2
}

// Returns whether `^wanted` matches the numbers. Leading numbers that are 0 in both are skipped; the next must be
// equal, and those after it not less, compared in turn.
fn numbers_match_caret(wanted: Numbers, numbers: Numbers) -> bool
    ensures { IsTrue result ↔ MatchesCaret wanted numbers }
{
    if wanted.0 == 0 && numbers.0 == 0 {
        if wanted.1 == 0 && numbers.1 == 0 {
            return wanted.2 == numbers.2;
        }
        return wanted.1 == numbers.1 && wanted.2 <= numbers.2;
    }
    wanted.0 == numbers.0 && (wanted.1, wanted.2) <= (numbers.1, numbers.2)
}

/// The default is `0.0.0`.
impl Default for SemVer {
    ghost is_default = { λ v. plain_semver v
        ≡ record { major = 0; minor = 0; patch = 0; pre_rel = None; meta = None } };

    fn default() -> SemVer {
        SemVer {
            major: 0,
            minor: 0,
            patch: 0,
            pre_rel: None,
            meta: None,
        }
    }
}

/// Compares every field but `meta`.
impl PartialEq for SemVer {
    ghost eq = { on plain_semver (eq_by_cmp semver_cmp) };

    ghost laws = { on_per plain_semver (partial_equiv_from_equiv (eq_by_cmp_equiv semver_total)) };

    fn eq(&self, other: &SemVer) -> bool {
        self.cmp(other).is_eq()
    }
}

impl Eq for SemVer {
    ghost laws = { on_equiv plain_semver (eq_by_cmp_equiv semver_total) };
}

/// Hashes every field but `meta`.
impl Hash for SemVer {
    ghost hash_input = { λ v. semver_fed (plain_semver v) };

    ghost respects_eq = { λ a b tied. fed_alike (plain_semver a) (plain_semver b) tied };

    fn hash<H: Hasher>(&self, state: &mut H) {
        self.major.hash(state);
        self.minor.hash(state);
        self.patch.hash(state);
        self.pre_rel.hash(state);
    }
}

/// Compares major, minor and patch by value, then the pre-releases chunk by chunk (SemVer 2.0, section 11). No
/// pre-release comes last. Metadata does not count.
impl Ord for SemVer {
    ghost cmp = { on plain_semver semver_cmp };

    ghost total = { on_total plain_semver semver_total };

    ghost matches_partial_cmp = { λ a b. refl };

    ghost matches_eq = { λ a b. refl };

    fn cmp(&self, other: &SemVer) -> Ordering {
        let numbers = self
            .major
            .cmp(&other.major)
            .then(self.minor.cmp(&other.minor));
        let numbers = numbers.then(self.patch.cmp(&other.patch));
        match numbers {
            Ordering::Equal => compare_pre_releases(&self.pre_rel, &other.pre_rel),
            _ => numbers,
        }
    }
}

impl PartialOrd for SemVer {
    ghost partial_cmp = { as_partial_cmp (on plain_semver semver_cmp) };

    ghost laws = { po (on_total plain_semver semver_total) (λ a b. refl) };

    fn partial_cmp(&self, other: &SemVer) -> Option<Ordering> {
        Some(self.cmp(other))
    }
}

// Compares two pre-releases. No pre-release comes last (SemVer 2.0, section 11).
fn compare_pre_releases(a: &Option<Release>, b: &Option<Release>) -> Ordering
    ensures { result ≡ none_last_cmp release_cmp (option_map plain_release a.now)
        (option_map plain_release b.now) }
{
    match (a, b) {
        (Some(a), Some(b)) => a.cmp(b),
        (Some(_), None) => Ordering::Less,
        (None, Some(_)) => Ordering::Greater,
        (None, None) => Ordering::Equal,
    }
}

/// A strict version borrowed from its text, as in a [`VersioningRef`].
///
/// [`VersioningRef`]: crate::VersioningRef
#[derive(Drop)]
pub struct SemVerRef<'a> {
    pub(crate) major: u32,
    pub(crate) minor: u32,
    pub(crate) patch: u32,
    pub(crate) pre_rel: Option<ReleaseRef<'a>>,
    pub(crate) meta: Option<&'a str>,
}

impl<'a> SemVerRef<'a> {
    // Parses the whole text as a strict version.
    #[tactic(auto, unfolding(version_rules::specs::grammar::SemVer::semver_of))]
    #[inline(always)]
    pub(crate) fn new(s: &'a str) -> Option<SemVerRef<'a>>
        ensures { option_map plain_semver_ref result ≡ semver_of s.now }
    {
        match SemVerText::scan(s) {
            Some((version, rest)) if rest.is_empty() => Some(version.read()),
            _ => None,
        }
    }

    // Copies the version into an owned one.
    pub(crate) fn build(&self, alloc: Global) -> Result<SemVer, AllocError>
        ensures ok { IfOk result (λ v. plain_semver v ≡ plain_semver_ref self.now) }
        ensures err { OnErr result (SemVerOwns (plain_semver_ref self.now)) }
    {
        Ok(SemVer {
            major: self.major,
            minor: self.minor,
            patch: self.patch,
            pre_rel: build_release(alloc, &self.pre_rel)?,
            meta: copy_text(alloc, self.meta)?,
        })
    }
}

// A scanned strict version whose numbers are still digits. Their values are computed once the whole text is scanned.
#[derive(Drop)]
pub(crate) struct SemVerText<'a> {
    major: &'a str,
    minor: &'a str,
    patch: &'a str,
    pre_rel: Option<ReleaseRef<'a>>,
    meta: Option<&'a str>,
}

impl<'a> SemVerText<'a> {
    // Parses a prefix as a strict version; returns it and the rest.
    #[tactic(auto, unfolding(version_rules::specs::grammar::SemVer::semver_front))]
    #[inline(always)]
    fn scan(i: &'a str) -> Option<(SemVerText<'a>, &'a str)>
        ensures version { option_map (λ r. (semver_of_text r.0, r.1.now)) result
            ≡ semver_front i.now }
        ensures numerals { IfSome result (λ r. IsSemVerText r.0) }
    {
        let (major, rest) = scan::numeral(i)?;
        let (minor, rest) = scan::numeral(scan::after_mark(rest, b'.')?)?;
        let (patch, rest) = scan::numeral(scan::after_mark(rest, b'.')?)?;
        let (pre_rel, rest) = optional_release(rest);
        let (meta, rest) = optional_meta(rest);
        let version = SemVerText {
            major,
            minor,
            patch,
            pre_rel,
            meta,
        };
        Some((version, rest))
    }

    // Computes the values of the numbers.
    #[inline(always)]
    fn read(self) -> SemVerRef<'a>
        requires { IsSemVerText self }
        ensures { plain_semver_ref result ≡ semver_of_text self.entry }
    {
        SemVerRef {
            major: scan::value_of_numeral(self.major),
            minor: scan::value_of_numeral(self.minor),
            patch: scan::value_of_numeral(self.patch),
            pre_rel: self.pre_rel,
            meta: self.meta,
        }
    }
}
