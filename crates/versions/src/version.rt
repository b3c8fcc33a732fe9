//! General versions.

ghost use Rattle.std.specs.Prelude.{[], ◌≡◌, ◌∷◌, ◌↔◌, IfOk, IfSome, IsSomeAnd, IsTrue, None, OnErr, Some};
ghost use Rattle.version_rules.specs.grammar.Last as plain;
ghost use Rattle.std.proofs.Common.{ap};
ghost use Rattle.std.specs.{Cmp.eq_by_cmp_equiv, Cmp.on_equiv, Cmp.on_per, Cmp.partial_equiv_from_equiv, Option.is_some, Option.option_map, Ordering.eq_by_cmp, Ordering.on};
ghost use Rattle.version_rules.specs.grammar.Version.{epoch_front, version_front, version_nth, version_of, version_text, VersionOwns};
ghost use Rattle.version_rules.specs.{grammar.Body.body_front, key.Key.key_of_version, laws.Versioning.version_plain_total, laws.Versioning.versions_same, order.Kinds.version_plain_cmp};
ghost use Rattle.version_rules.specs.requirement.VersionMatch.{epoch_and_parts, MatchesCaret, MatchesTilde};
ghost use Rattle.version_order.specs.{keys.Codes.same_where_tied, texts.Front.optional};
ghost use Rattle.version_parts.specs.Body.{Reads};
ghost use Rattle.versions.specs.Version.{first_part, more_parts, plain_version_ref, plain_version, version_fed};
ghost use Rattle.versions.specs.Errors.{IllegalVersion, ReadsOr};

use crate::errors::{Error, ReadError, or_illegal};
use crate::optional::{
    build_release, copy_meta, copy_release, copy_text, optional_meta, optional_release, write_tail,
};
use crate::parts::BodyParts;
use serde::{Deserialize, Serialize};
use std::alloc::{AllocError, Global};
use std::cmp::Ordering;
use std::fmt;
use std::hash::{Hash, Hasher};
use version_parts::lists::{ListItem, compare_lists};
use version_parts::{BodyRef, Chunks, Last, Release, ReleaseRef, scan};
use version_rules::{parts_match_caret, parts_match_tilde};

/// A general version: perhaps a number and a colon, then parts with dots between, then perhaps a release, then perhaps
/// metadata, such as `1:2.0rc1-3`. Most packages have such versions. The numbers are below 2^32.
#[derive(Debug, Drop, Serialize, Deserialize)]
pub struct Version {
    /// The number before the colon, which compares before all else. None counts as 0.
    pub epoch: Option<u32>,
    /// All parts but the last.
    pub chunks: Chunks,
    /// The last part, decomposed.
    pub last: Last,
    /// The release, which follows the hyphen. A parsed version has at least one chunk here.
    pub release: Option<Release>,
    /// The metadata, which follows the plus.
    pub meta: Option<String>,
}

impl Version {
    /// Parses the whole text as a general version; returns None if it does not parse. Copies the chunks and texts;
    /// allocates nothing for None or for one number with or without epoch. `Err` means allocation failure.
    pub fn new(alloc: Global, s: &str) -> Result<Option<Version>, AllocError>
        // What the text spells, or None: the law `general_versions: answer`.
        ensures exact { IfOk result (λ o. option_map plain_version o ≡ version_of s.now) }
        // An allocation fails only if the text spells a version that owns memory.
        ensures memory { OnErr result (IsSomeAnd (version_of s.now) VersionOwns) }
    {
        match VersionRef::new(s) {
            Some(version) => Ok(Some(version.build(alloc)?)),
            None => Ok(None),
        }
    }

    /// Returns whether the whole text parses as a general version, so that `new` returns one.
    pub fn is_spelled_by(s: &str) -> bool
        ensures { result ≡ is_some (version_of s.now) }
    {
        VersionRef::new(s).is_some()
    }

    /// Parses the whole text as a general version. Fails with `Illegal` if it does not parse: the error is
    /// `IllegalVersion` with the text. Fails with `Memory` if an allocation fails, for the version or for that text.
    pub fn from_str(alloc: Global, s: &str) -> Result<Version, ReadError>
        ensures { ReadsOr plain_version VersionOwns (IllegalVersion s.now) result
            (version_of s.now) }
    {
        or_illegal(alloc, Version::new(alloc, s), s, Error::IllegalVersion)
    }

    /// Parses a prefix as a general version; returns it and the rest, or None. It parses a number and a colon if both
    /// are there, then parts with dots between, then a release and metadata if they parse. An epoch with no part after
    /// it does not parse: `1:` is None. Copies the chunks and texts; allocates nothing for None or for one number with
    /// or without epoch. `Err` means allocation failure.
    pub fn parse(alloc: Global, i: &str) -> Result<Option<(Version, &str)>, AllocError>
        ensures { Reads plain_version VersionOwns result (version_front i.now) }
    {
        let Some((version, rest)) = VersionRef::scan(i) else {
            return Ok(None);
        };
        Ok(Some((version.build(alloc)?, rest)))
    }

    /// Returns a version without epoch, chunks, release and metadata, whose last part is `0`.
    pub fn default_in(alloc: Global) -> Version
        ensures { plain_version result
            ≡ record { epoch = None; chunks = []; last = plain.Numeric 0; release = None; meta = None } }
    {
        Version {
            epoch: None,
            chunks: Chunks::default_in(alloc),
            last: Last::default(),
            release: None,
            meta: None,
        }
    }

    /// Returns a copy. `Err` means allocation failure.
    pub fn clone(&self, alloc: Global) -> Result<Version, AllocError>
        ensures { IfOk result (λ copy. plain_version copy ≡ plain_version self.now) }
    {
        Ok(Version {
            epoch: self.epoch,
            chunks: self.chunks.clone(alloc)?,
            last: self.last.clone(alloc)?,
            release: copy_release(alloc, &self.release)?,
            meta: copy_meta(alloc, &self.meta)?,
        })
    }

    /// Returns the number at a place, counted from 0: of a chunk, or after the chunks the first number of the last
    /// part. None for `Alphanum`, and after the end.
    pub fn nth(&self, n: usize) -> Option<u32>
        ensures { result ≡ version_nth (plain_version self.now) n }
    {
        if n == self.chunks.0.len() {
            return self.last.first_number();
        }
        self.chunks.0.get(n)?.single_digit()
    }

    // Compares two versions field by field, None before Some.
    pub(crate) fn compare_plain(&self, other: &Version) -> Ordering
        ensures { result ≡ version_plain_cmp (plain_version self.now) (plain_version other.now) }
    {
        self.epoch
            .cmp(&other.epoch)
            .then_with(|| compare_lists(self.chunks.0.as_slice(), other.chunks.0.as_slice()))
            .then_with(|| self.last.compare(&other.last))
            .then_with(|| self.release.cmp(&other.release))
            .then_with(|| self.meta.cmp(&other.meta))
    }
}

impl fmt::Display for Version {
    ghost output = { λ v. Some (version_text (plain_version v)) };

    fn fmt<W: fmt::Write>(&self, f: &mut fmt::Formatter<W>) -> fmt::Result {
        if let Some(epoch) = self.epoch {
            write!(f, "{epoch}:")?;
        }
        if !self.chunks.0.is_empty() {
            let chunks = &self.chunks;
            write!(f, "{chunks}.")?;
        }
        let last = &self.last;
        write!(f, "{last}")?;
        write_tail(f, &self.release, &self.meta)
    }
}

impl Version {
    /// Returns whether `~self` matches `other`: the epochs are equal (no epoch is 0), and there are equally many parts,
    /// all but the last the same and the last not before. Releases and metadata do not count.
    pub fn matches_tilde(&self, other: &Version) -> bool
        ensures { IsTrue result
            ↔ MatchesTilde (epoch_and_parts (plain_version self.now))
            (epoch_and_parts (plain_version other.now)) }
    {
        self.epoch_number() == other.epoch_number()
            && parts_match_tilde(self.parts(), other.parts())
    }

    /// Returns whether `^self` matches `other`: the epochs are equal (no epoch is 0), and `other` has a part for each
    /// part of `self`. These are the same for the leading plain zeros of `self` and for its first other part; then they
    /// are not before those of `self`. More parts may follow. Releases and metadata do not count.
    pub fn matches_caret(&self, other: &Version) -> bool
        ensures { IsTrue result
            ↔ MatchesCaret (epoch_and_parts (plain_version self.now))
            (epoch_and_parts (plain_version other.now)) }
    {
        self.epoch_number() == other.epoch_number()
            && parts_match_caret(self.parts(), other.parts())
    }

    // Returns all parts of its body.
    pub(crate) fn parts(&self) -> BodyParts<'_>
        ensures { first_part result ∷ more_parts result
            ≡ (key_of_version (plain_version self.now)).body }
    {
        BodyParts {
            chunks: self.chunks.0.as_slice(),
            last: &self.last,
        }
    }

    // Returns the epoch, or 0 without one.
    pub(crate) fn epoch_number(&self) -> u32
        ensures { result ≡ (epoch_and_parts (plain_version self.now)).0 }
    {
        self.epoch.unwrap_or(0)
    }
}

/// Compares every field.
impl PartialEq for Version {
    ghost eq = { on plain_version (eq_by_cmp version_plain_cmp) };

    ghost laws = { on_per plain_version
        (partial_equiv_from_equiv (eq_by_cmp_equiv version_plain_total)) };

    fn eq(&self, other: &Version) -> bool {
        self.compare_plain(other).is_eq()
    }
}

impl Eq for Version {
    ghost laws = { on_equiv plain_version (eq_by_cmp_equiv version_plain_total) };
}

/// Hashes every field.
impl Hash for Version {
    ghost hash_input = { λ v. version_fed (plain_version v) };

    ghost respects_eq = { λ a b tied. ap version_fed (same_where_tied versions_same tied) };

    fn hash<H: Hasher>(&self, state: &mut H) {
        self.epoch.hash(state);
        self.chunks.hash(state);
        self.last.hash(state);
        self.release.hash(state);
        self.meta.hash(state);
    }
}

/// A general version borrowed from its text, as in a [`VersioningRef`].
///
/// [`VersioningRef`]: crate::VersioningRef
#[derive(Drop)]
pub struct VersionRef<'a> {
    pub(crate) epoch: Option<u32>,
    pub(crate) body: BodyRef<'a>,
    pub(crate) release: Option<ReleaseRef<'a>>,
    pub(crate) meta: Option<&'a str>,
}

impl<'a> VersionRef<'a> {
    // Parses the whole text as a general version.
    #[tactic(auto, unfolding(version_rules::specs::grammar::Version::version_of))]
    #[inline(always)]
    pub(crate) fn new(s: &'a str) -> Option<VersionRef<'a>>
        ensures { option_map plain_version_ref result ≡ version_of s.now }
    {
        match VersionRef::scan(s) {
            Some((version, rest)) if rest.is_empty() => Some(version),
            _ => None,
        }
    }

    // Parses a prefix as a general version; returns it and the rest.
    #[tactic(auto, unfolding(version_rules::specs::grammar::Version::version_front))]
    #[inline(always)]
    fn scan(i: &'a str) -> Option<(VersionRef<'a>, &'a str)>
        ensures { option_map (λ r. (plain_version_ref r.0, r.1.now)) result ≡ version_front i.now }
    {
        let (epoch, body, rest) = scan_body(i)?;
        let (release, rest) = optional_release(rest);
        let (meta, rest) = optional_meta(rest);
        let version = VersionRef {
            epoch,
            body,
            release,
            meta,
        };
        Some((version, rest))
    }

    // Copies the version into an owned one.
    pub(crate) fn build(&self, alloc: Global) -> Result<Version, AllocError>
        ensures ok { IfOk result (λ v. plain_version v ≡ plain_version_ref self.now) }
        ensures err { OnErr result (VersionOwns (plain_version_ref self.now)) }
    {
        let (chunks, last) = self.body.build(alloc)?;
        Ok(Version {
            epoch: self.epoch,
            chunks,
            last,
            release: build_release(alloc, &self.release)?,
            meta: copy_text(alloc, self.meta)?,
        })
    }
}

// Parses a prefix as an epoch, if there is one, and a body; returns both and the rest. An epoch is itself a body before
// a colon, so a text without a colon is scanned once.
#[inline(always)]
fn scan_body(i: &str) -> Option<(Option<u32>, BodyRef<'_>, &str)>
    ensures epoch { IfSome result (λ r. r.0 ≡ (optional epoch_front i.now).0) }
    ensures body { option_map (λ r. (r.1, r.2.now)) result
        ≡ body_front (optional epoch_front i.now).1 }
{
    let Some((body, rest)) = BodyRef::scan(i) else {
        return None;
    };
    match scan::after_mark(rest, b':') {
        Some(_) => {
            let (epoch, rest) = optional_epoch(i);
            let (body, rest) = BodyRef::scan(rest)?;
            Some((epoch, body, rest))
        }
        None => Some((None, body, rest)),
    }
}

// Parses a prefix as an epoch; returns it and the rest, or None and the whole text.
#[tactic(auto, unfolding(version_order::specs::texts::Front::optional))]
#[inline(always)]
fn optional_epoch(i: &str) -> (Option<u32>, &str)
    ensures { (result.0, result.1.now) ≡ optional epoch_front i.now }
{
    match scan_epoch(i) {
        Some((epoch, rest)) => (Some(epoch), rest),
        None => (None, i),
    }
}

// Parses a prefix as a number and a colon; returns the number and the rest.
#[tactic(auto, unfolding(version_rules::specs::grammar::Version::epoch_front))]
#[inline(always)]
fn scan_epoch(i: &str) -> Option<(u32, &str)>
    ensures { option_map (λ r. (r.0, r.1.now)) result ≡ epoch_front i.now }
{
    let (number, rest) = scan::numeral(i)?;
    let rest = scan::after_mark(rest, b':')?;
    Some((scan::value_of_numeral(number), rest))
}
