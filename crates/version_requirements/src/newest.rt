//! The newest of several versions.

ghost use Rattle.std.specs.Prelude.{◌≡◌, ◌<◌, ◌≤◌, ℕ, ◌↔◌, IfNone, IfSome, IsTrue, Option};
ghost use Rattle.std.specs.{Option.option_map, declared.cmp.Ordering.TheVariants.Greater};
ghost use Rattle.version_rules.specs.{grammar.Versioning.PlainVersioning, key.Key.key_of, key.Key.precedence, requirement.Matching.MatchesAll};
ghost use Rattle.version_tasks.specs.{Stability.rank, Stability.stability_of};
ghost use Rattle.version_requirements.specs.Newest.{given_version, IsNewest, IsWanted, NoVersion};
ghost use Rattle.version_texts.specs.VersioningRef.{plain_versioning_ref};

use crate::requirements_ref::RequirementsRef;
use std::cmp::Ordering;
use version_tasks::{Stability, stability_of, version_in_tag};
use version_texts::VersioningRef;

/// Several texts, each of which has a version or is passed over.
pub trait Candidates {
    // How many they are, and that the one at a place has a version and is not passed over.
    ghost length: { Self → ℕ };

    ghost has: { Self → ℕ → PlainVersioning → Type 0 };

    /// Returns how many they are.
    fn count(&self) -> usize
        ensures { result ≡ length self.now };

    /// Returns the version at a place, counted from 0, or None if it is passed over.
    fn version(&self, place: usize) -> Option<VersioningRef<'_>>
        requires { place < length self.now }
        ensures some { IfSome result
            (λ version. has self.now place (plain_versioning_ref version)) }
        ensures alone { IfSome result (λ version. (v : PlainVersioning) → has self.now place v
            → v ≡ plain_versioning_ref version) }
        ensures none { IfNone result ((v : PlainVersioning) → ¬ (has self.now place v)) };
}

/// Which texts are passed over, and which versions the others have.
#[derive(Clone, Copy)]
pub struct Wanted<'a> {
    /// Whether a text has its version as a tag has it, such as `v1.2.3`. Otherwise the whole text is the version.
    pub in_tags: bool,
    /// A list of requirements that must match the version.
    pub list: Option<&'a RequirementsRef<'a>>,
    /// How stable the version must be at least.
    pub least: Option<Stability>,
}

impl<'a> Wanted<'a> {
    /// Returns the version of a text, or None if it has none that is wanted.
    pub fn version<'t>(&self, text: &'t [u8]) -> Option<VersioningRef<'t>>
        ensures some { IfSome result
            (λ version. IsWanted self.now text.now (plain_versioning_ref version)) }
        ensures none { IfNone result ((v : PlainVersioning) → ¬ (IsWanted self.now text.now v)) }
    {
        let version = self.given_version(text)?;
        if self.is_matched(&version) && self.is_stable(&version) {
            Some(version)
        } else {
            None
        }
    }

    // Returns the version that a text gives.
    fn given_version<'t>(&self, text: &'t [u8]) -> Option<VersioningRef<'t>>
        ensures { option_map plain_versioning_ref result
            ≡ given_version self.now.in_tags text.now }
    {
        if self.in_tags {
            version_in_tag(text)
        } else {
            VersioningRef::from_bytes(text)
        }
    }

    // Returns whether the list matches a version, if there is one.
    fn is_matched(&self, version: &VersioningRef<'_>) -> bool
        ensures { IsTrue result ↔ IfSome self.now.list
            (λ list. MatchesAll list.now (plain_versioning_ref version.now)) }
    {
        match self.list {
            Some(list) => list.matches(version),
            None => true,
        }
    }

    // Returns whether a version is at least as stable as what is asked for, if anything is.
    fn is_stable(&self, version: &VersioningRef<'_>) -> bool
        ensures { IsTrue result ↔ IfSome self.now.least
            (λ least. rank least ≤ rank (stability_of (plain_versioning_ref version.now))) }
    {
        match self.least {
            Some(least) => stability_of(version) >= least,
            None => true,
        }
    }
}

/// Texts, of which the wanted ones are candidates.
#[derive(Clone, Copy)]
pub struct Texts<'a> {
    pub texts: &'a [&'a [u8]],
    pub wanted: Wanted<'a>,
}

impl<'a> Candidates for Texts<'a> {
    ghost use Rattle.std.specs.Prelude.{length};
    ghost use Rattle.version_requirements.specs.Newest.{IsWanted, text_at};

    ghost length = { λ candidates. length candidates.texts.now };

    ghost has = { λ candidates place v. IsWanted candidates.wanted
        (text_at candidates.texts.now place) v };

    fn count(&self) -> usize {
        self.texts.len()
    }

    fn version(&self, place: usize) -> Option<VersioningRef<'_>> {
        self.wanted.version(self.texts[place])
    }
}

/// Returns the newest of several versions and its place: the first that no other comes after in the order. None if all
/// are passed over. Each is read once.
pub fn newest_of<C: Candidates>(candidates: &C) -> Option<(usize, VersioningRef<'_>)>
    ensures some { IfSome result
        (λ newest. IsNewest (C.has candidates.now) (C.length candidates.now) newest.0
        (plain_versioning_ref newest.1)) }
    ensures none { IfNone result
        (NoVersion (C.has candidates.now) (C.length candidates.now)) }
{
    let mut newest: Option<(usize, VersioningRef<'_>)> = None;
    for place in 0..candidates.count() {
        let Some(version) = candidates.version(place) else {
            continue;
        };
        if is_newer(&version, &newest) {
            newest = Some((place, version));
        }
    }
    newest
}

// Returns whether a version comes after the newest so far, if there is one.
fn is_newer(version: &VersioningRef<'_>, newest: &Option<(usize, VersioningRef<'_>)>) -> bool
    ensures { IsTrue result ↔ IfSome newest.now (λ best. precedence
        (key_of (plain_versioning_ref version.now)) (key_of (plain_versioning_ref best.1)) ≡ Greater) }
{
    match newest {
        Some((_, best)) => version.precedence(best) == Ordering::Greater,
        None => true,
    }
}
