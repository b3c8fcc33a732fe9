//! Versions of any scheme, for callers that learn the scheme when they run.

ghost use Rattle.std.specs.Prelude.{◌≡◌, ◌≢◌, ◌++◌, MatchOption, OnErr, OnOk, Some};
ghost use Rattle.std.specs.Option.{option_map};
ghost use Rattle.version_rules.specs.grammar.Versioning.{versioning_of};
ghost use Rattle.version_order.specs.keys.Lists.{bytes_cmp};
ghost use Rattle.version_schemes.specs.{any.Order.any_of, any.Order.any_precedence, declared.scheme.Scheme.TheVariants.Mixed};
ghost use Rattle.version_texts.specs.VersioningRef.{plain_versioning_ref};

use crate::key::append_key;
use crate::scheme::Scheme;
use scheme_deb::Deb;
use scheme_gem::Gem;
use scheme_pypi::Pypi;
use scheme_rpm::Rpm;
use scheme_semver::SemVer;
use std::alloc::AllocError;
use std::cmp::Ordering;
use version_order::SchemeVersion;
use version_rules::Kind;
use version_texts::VersioningRef;

/// A version of any scheme: what was read of its text, which is read once, beside the text. Only `append_key` allocates.
#[derive(Clone, Copy)]
pub enum AnyVersion<'t> {
    Mixed(VersioningRef<'t>),
    Deb(&'t [u8], Deb<'t>),
    Rpm(&'t [u8], Rpm<'t>),
    Pypi(&'t [u8], Pypi<'t>),
    SemVer(&'t [u8], SemVer<'t>),
    Gem(&'t [u8], Gem<'t>),
}

/// Calls a function that is generic over versions with what was read of a version of any scheme.
#[macro_export]
macro_rules! by_version {
    ($any:expr, $call:ident($($argument:expr),*)) => {
        match $any {
            $crate::AnyVersion::Mixed(version) => $call(version, $($argument),*),
            $crate::AnyVersion::Deb(_, version) => $call(version, $($argument),*),
            $crate::AnyVersion::Rpm(_, version) => $call(version, $($argument),*),
            $crate::AnyVersion::Pypi(_, version) => $call(version, $($argument),*),
            $crate::AnyVersion::SemVer(_, version) => $call(version, $($argument),*),
            $crate::AnyVersion::Gem(_, version) => $call(version, $($argument),*),
        }
    };
}

/// Reads a whole text by a scheme, and goes on with the version that it is, or as where it is none. Each scheme goes on by
/// itself, so that no version has to be moved into a place that has room for any.
#[macro_export]
macro_rules! with_version {
    ($scheme:expr, $text:expr, $version:ident => $some:expr, $none:expr) => {
        match $scheme {
            $crate::Scheme::Mixed => match $crate::VersioningRef::from_bytes($text) {
                Some(read) => {
                    let $version = $crate::AnyVersion::Mixed(read);
                    $some
                }
                None => $none,
            },
            $crate::Scheme::Deb => match $crate::Deb::read($text) {
                Some(read) => {
                    let $version = $crate::AnyVersion::Deb($text, read);
                    $some
                }
                None => $none,
            },
            $crate::Scheme::Rpm => match $crate::Rpm::read($text) {
                Some(read) => {
                    let $version = $crate::AnyVersion::Rpm($text, read);
                    $some
                }
                None => $none,
            },
            $crate::Scheme::Pypi => match $crate::Pypi::read($text) {
                Some(read) => {
                    let $version = $crate::AnyVersion::Pypi($text, read);
                    $some
                }
                None => $none,
            },
            $crate::Scheme::SemVer => match $crate::SemVer::read($text) {
                Some(read) => {
                    let $version = $crate::AnyVersion::SemVer($text, read);
                    $some
                }
                None => $none,
            },
            $crate::Scheme::Gem => match $crate::Gem::read($text) {
                Some(read) => {
                    let $version = $crate::AnyVersion::Gem($text, read);
                    $some
                }
                None => $none,
            },
        }
    };
}

impl<'t> AnyVersion<'t> {
    ghost use Rattle.version_schemes.specs.any.AnyVersion.{plain_any};

    /// Reads a whole text as a version of a scheme, or returns None if it is none.
    #[tactic(auto, using(crate::proofs::lemmas::Any::mixed_is))]
    #[inline(always)]
    pub fn read(scheme: Scheme, text: &'t [u8]) -> Option<AnyVersion<'t>>
        ensures { option_map plain_any result ≡ any_of scheme text.now }
    {
        with_version!(scheme, text, version => Some(version), None)
    }

    /// Returns the bytes of its text.
    #[inline(always)]
    pub fn bytes(&self) -> &'t [u8]
        ensures { result.now ≡ (plain_any self.now).text }
    {
        match self {
            AnyVersion::Mixed(version) => version.bytes(),
            AnyVersion::Deb(text, _) => text,
            AnyVersion::Rpm(text, _) => text,
            AnyVersion::Pypi(text, _) => text,
            AnyVersion::SemVer(text, _) => text,
            AnyVersion::Gem(text, _) => text,
        }
    }

    /// Returns its scheme.
    pub fn scheme(&self) -> Scheme
        ensures { result ≡ (plain_any self.now).scheme }
    {
        match self {
            AnyVersion::Mixed(_) => Scheme::Mixed,
            AnyVersion::Deb(..) => Scheme::Deb,
            AnyVersion::Rpm(..) => Scheme::Rpm,
            AnyVersion::Pypi(..) => Scheme::Pypi,
            AnyVersion::SemVer(..) => Scheme::SemVer,
            AnyVersion::Gem(..) => Scheme::Gem,
        }
    }

    /// Returns the kind that breaks ties of keys: strict, where the scheme has no kinds.
    #[inline(always)]
    pub fn kind(&self) -> Kind
        ensures { result ≡ (plain_any self.now).kind }
    {
        match self {
            AnyVersion::Mixed(version) => version.kind(),
            _ => Kind::Ideal,
        }
    }

    /// Returns it as a version of the scheme mixed, or None if it is of another.
    pub fn mixed(&self) -> Option<&VersioningRef<'t>>
        ensures { MatchOption result ((plain_any self.now).scheme ≢ Mixed)
            (λ version. versioning_of (plain_any self.now).text ≡ Some (plain_versioning_ref version.now)) }
    {
        match self {
            AnyVersion::Mixed(version) => Some(version),
            _ => None,
        }
    }

    /// Compares it with another: in one scheme as that has it, else by the numbers of the schemes.
    pub fn precedence(&self, other: &AnyVersion<'_>) -> Ordering
        ensures { result ≡ any_precedence (plain_any self.now) (plain_any other.now) }
    {
        match (self, other) {
            (AnyVersion::Mixed(version), AnyVersion::Mixed(other)) => version.precedence(other),
            (AnyVersion::Deb(_, version), AnyVersion::Deb(_, other)) => compare(version, other),
            (AnyVersion::Rpm(_, version), AnyVersion::Rpm(_, other)) => compare(version, other),
            (AnyVersion::Pypi(_, version), AnyVersion::Pypi(_, other)) => compare(version, other),
            (AnyVersion::SemVer(_, version), AnyVersion::SemVer(_, other)) => compare(
                version, other,
            ),
            (AnyVersion::Gem(_, version), AnyVersion::Gem(_, other)) => compare(version, other),
            _ => self.scheme().number().cmp(&other.scheme().number()),
        }
    }

    /// Appends the bytes of its key to a list. `Err` means allocation failure; the list is then unchanged.
    #[inline(always)]
    pub fn append_key(&self, list: &mut Vec<u8>) -> Result<(), AllocError>
        ensures ok { OnOk result (list.new.items ≡ list.old.items ++ (plain_any self.now).key) }
        ensures err { OnErr result (list.new.items ≡ list.old.items) }
    {
        match self {
            AnyVersion::Mixed(version) => version.append_key(list),
            AnyVersion::Deb(text, version) => append_key(version, text, list),
            AnyVersion::Rpm(text, version) => append_key(version, text, list),
            AnyVersion::Pypi(text, version) => append_key(version, text, list),
            AnyVersion::SemVer(text, version) => append_key(version, text, list),
            AnyVersion::Gem(text, version) => append_key(version, text, list),
        }
    }
}

// Compares two versions of a scheme: as their keys compare.
#[inline(always)]
fn compare<'t, V: SchemeVersion<'t>>(one: &V, other: &V) -> Ordering
    ensures { result ≡ bytes_cmp (V.plain one.now).key (V.plain other.now).key }
{
    one.compare(other)
}
