//! The table of the schemes: all that goes by schemes goes over it.

ghost use Rattle.std.specs.Prelude.{◌≡◌, Some, map};
ghost use Rattle.std.specs.Array.Iter.{array_into_iter_items};
ghost use Rattle.version_order.specs.Facts.{plain_facts};
ghost use Rattle.version_schemes.specs.Scheme.{all_schemes, is_named, numbered, rules, scheme_named, scheme_number};

use scheme_deb::Deb;
use scheme_gem::Gem;
use scheme_pypi::Pypi;
use scheme_rpm::Rpm;
use scheme_semver::SemVer;
use std::array;
use version_order::{Facts, SchemeVersion};
use version_texts::VersioningRef;

/// A scheme: which texts are versions, and how these compare.
#[derive(Clone, Copy, Debug, PartialEq, Eq)]
pub enum Scheme {
    /// Every version, in the one order of all (docs/ORDER.md).
    Mixed,
    /// Debian's versions (Debian Policy, 5.6.12).
    Deb,
    /// RPM's versions (rpm-version(7)).
    Rpm,
    /// Python's versions (PEP 440).
    Pypi,
    /// SemVer 2.0.0 in full.
    SemVer,
    /// RubyGems' versions (`Gem::Version`).
    Gem,
}

/// The schemes, in the order of their numbers.
const SCHEMES: [Scheme; 6] = [
    Scheme::Mixed,
    Scheme::Deb,
    Scheme::Rpm,
    Scheme::Pypi,
    Scheme::SemVer,
    Scheme::Gem,
];

/// Calls a function that is generic over versions with those of a scheme.
#[macro_export]
macro_rules! by_scheme {
    ($scheme:expr, $call:ident($($argument:expr),*)) => {
        match $scheme {
            $crate::Scheme::Mixed => $call::<$crate::VersioningRef<'_>>($($argument),*),
            $crate::Scheme::Deb => $call::<$crate::Deb<'_>>($($argument),*),
            $crate::Scheme::Rpm => $call::<$crate::Rpm<'_>>($($argument),*),
            $crate::Scheme::Pypi => $call::<$crate::Pypi<'_>>($($argument),*),
            $crate::Scheme::SemVer => $call::<$crate::SemVer<'_>>($($argument),*),
            $crate::Scheme::Gem => $call::<$crate::Gem<'_>>($($argument),*),
        }
    };
}

impl Scheme {
    /// Returns what is fixed for it.
    pub fn facts(self) -> Facts
        ensures { plain_facts result ≡ (rules self).facts }
    {
        match self {
            Scheme::Mixed => VersioningRef::facts(),
            Scheme::Deb => Deb::facts(),
            Scheme::Rpm => Rpm::facts(),
            Scheme::Pypi => Pypi::facts(),
            Scheme::SemVer => SemVer::facts(),
            Scheme::Gem => Gem::facts(),
        }
    }

    /// Returns its number, with which the form of a set begins.
    pub fn number(self) -> u8
        ensures number { result ≡ scheme_number self }
        ensures back { numbered result ≡ Some self }
    {
        self.facts().number
    }

    /// Returns the scheme that has a number, or None.
    pub fn of_number(number: u32) -> Option<Scheme>
        ensures { result ≡ numbered number }
    {
        if number == 0 {
            return None;
        }
        SCHEMES.get(number as usize - 1).copied()
    }

    /// Returns its name, as package-url has it, and `mixed`.
    pub fn name(self) -> &'static str
        ensures { result.now ≡ (rules self).facts.name }
    {
        self.facts().name
    }

    /// Returns what else people call it, such as `debian`.
    pub fn aliases(self) -> &'static [&'static str]
        ensures { map (λ name. name.now) result.now ≡ (rules self).facts.aliases }
    {
        self.facts().aliases
    }

    /// Returns the schemes, in the order of their numbers.
    pub fn all() -> array::IntoIter<Scheme, 6>
        ensures { array_into_iter_items result ≡ all_schemes }
    {
        SCHEMES.into_iter()
    }

    /// Returns the scheme that a text names, by its name or an alias, in upper or lower case, or None.
    pub fn of_name(name: &[u8]) -> Option<Scheme>
        ensures { result ≡ scheme_named name.now }
    {
        for scheme in Scheme::all() {
            if scheme.is_named(name) {
                return Some(scheme);
            }
        }
        None
    }

    // Returns whether a text is its name or an alias, in upper or lower case.
    fn is_named(self, text: &[u8]) -> bool
        ensures { result ≡ is_named text.now self }
    {
        if self.name().as_bytes().eq_ignore_ascii_case(text) {
            return true;
        }
        let mut left = self.aliases();
        while let [alias, rest @ ..] = left {
            if alias.as_bytes().eq_ignore_ascii_case(text) {
                return true;
            }
            left = rest;
        }
        false
    }
}
