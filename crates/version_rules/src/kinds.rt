//! Some of the kinds of versions.

ghost use Rattle.std.specs.Prelude.{◌≡◌};
ghost use Rattle.version_rules.specs.requirement.Range.{all_kinds, common_kinds, has_kind, kind_alone, no_kinds};

use crate::kind::Kind;

/// Some of the three kinds.
#[derive(Clone, Copy, Debug, PartialEq, Eq)]
pub struct Kinds {
    pub ideal: bool,
    pub general: bool,
    pub complex: bool,
}

impl Kinds {
    /// Returns all three kinds.
    pub fn all() -> Kinds
        ensures { result ≡ all_kinds }
    {
        Kinds {
            ideal: true,
            general: true,
            complex: true,
        }
    }

    /// Returns no kind.
    pub fn none() -> Kinds
        ensures { result ≡ no_kinds }
    {
        Kinds {
            ideal: false,
            general: false,
            complex: false,
        }
    }

    /// Returns a kind alone.
    pub fn of(kind: Kind) -> Kinds
        ensures { result ≡ kind_alone kind }
    {
        let mut kinds = Kinds::none();
        match kind {
            Kind::Ideal => kinds.ideal = true,
            Kind::General => kinds.general = true,
            Kind::Complex => kinds.complex = true,
        }
        kinds
    }

    /// Returns whether a kind is one of them.
    pub fn has(&self, kind: Kind) -> bool
        ensures { result ≡ has_kind self.now kind }
    {
        match kind {
            Kind::Ideal => self.ideal,
            Kind::General => self.general,
            Kind::Complex => self.complex,
        }
    }

    /// Returns the kinds that are in both.
    pub fn common(&self, other: Kinds) -> Kinds
        ensures { result ≡ common_kinds self.now other }
    {
        Kinds {
            ideal: self.ideal && other.ideal,
            general: self.general && other.general,
            complex: self.complex && other.complex,
        }
    }
}
