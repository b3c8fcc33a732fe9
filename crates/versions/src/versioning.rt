//! Versions of any kind.

ghost use Rattle.std.specs.Prelude.{◌≡◌, IfOk, IsSomeAnd, None, OnErr, Some};
ghost use Rattle.version_rules.specs.grammar.Versioning as plain;
ghost use Rattle.std.specs.{Cmp.eq_by_cmp_equiv, Cmp.on_equiv, Cmp.on_per, Cmp.partial_equiv_from_equiv, Option.is_some, Option.option_map, Ordering.eq_by_cmp, Ordering.on};
ghost use Rattle.version_parts.specs.Body.{Reads};
ghost use Rattle.versions.specs.{Errors.IllegalVersioning, Errors.ReadsOr, Laws.versions_fed_alike, SemVer.plain_semver, Versioning.plain_versioning, Versioning.versioning_fed, Versioning.AnswersAlike};
ghost use Rattle.version_rules.specs.grammar.Versioning.{versioning_kind, is_complex, is_general, is_ideal, kind_rank, semver_nth, versioning_front, versioning_nth, versioning_of, versioning_plain_cmp, versioning_text, VersioningOwns};
ghost use Rattle.version_rules.specs.laws.Versioning.{versioning_plain_total};
ghost use Rattle.version_texts.specs.VersioningRef.{plain_versioning_ref};

use crate::errors::{Error, ReadError, or_illegal};
use crate::mess::{Mess, MessRef};
use crate::semver::{SemVer, SemVerRef};
use crate::version::{Version, VersionRef};
use std::alloc::{AllocError, Global};
use std::cmp::Ordering;
use std::fmt;
use std::hash::{Hash, Hasher};
use version_rules::{Asked, Kind};
use version_texts::VersioningRef;

/// A version of the first kind that fits its text.
#[derive(Debug, Drop)]
pub enum Versioning {
    /// A strict version, such as `1.2.3-rc.1`.
    Ideal(SemVer),
    /// A general version, such as `1:2.0rc1-3`.
    General(Version),
    /// A messy version, such as `10.2+0.93+1-1`.
    Complex(Mess),
}

impl Versioning {
    /// Parses the whole text as a strict version, else as a general, else as a messy one; returns None if it does not
    /// parse. Only the kind that is returned is built. Allocates nothing for None, three plain numbers, or one number
    /// with or without epoch. `Err` means allocation failure.
    pub fn new(alloc: Global, s: &str) -> Result<Option<Versioning>, AllocError>
        // What the text spells, or None: the law `versions: answer`.
        ensures exact { IfOk result (λ o. option_map plain_versioning o ≡ versioning_of s.now) }
        // An allocation fails only if the text spells a version that owns memory.
        ensures memory { OnErr result (IsSomeAnd (versioning_of s.now) VersioningOwns) }
    {
        if let Some(ideal) = SemVerRef::new(s) {
            return Ok(Some(Versioning::Ideal(ideal.build(alloc)?)));
        }
        if let Some(general) = VersionRef::new(s) {
            return Ok(Some(Versioning::General(general.build(alloc)?)));
        }
        match MessRef::new(s) {
            Some(complex) => Ok(Some(Versioning::Complex(complex.build(alloc)?))),
            None => Ok(None),
        }
    }

    /// Returns whether the whole text parses as a version of any kind, so that `new` returns one.
    pub fn is_spelled_by(s: &str) -> bool
        ensures { result ≡ is_some (versioning_of s.now) }
    {
        VersioningRef::new(s).is_some()
    }

    /// Copies a borrowed version into one that outlives its text. Allocates nothing for three plain numbers, or for one
    /// number with or without epoch. `Err` means allocation failure.
    pub fn of(alloc: Global, version: &VersioningRef<'_>) -> Result<Versioning, AllocError>
        ensures ok { IfOk result (λ v. plain_versioning v ≡ plain_versioning_ref version.now) }

        // Both have the same text, kind and key, order alike, and are matched by the same requirements.
        ensures alike { IfOk result (λ v. AnswersAlike (plain_versioning v)
            (plain_versioning_ref version.now)) }
        ensures err { OnErr result (VersioningOwns (plain_versioning_ref version.now)) }
    {
        Ok(Versioning::new(alloc, version.text())?.unwrap())
    }

    /// Parses the whole text as a version. Fails with `Illegal` if it does not parse: the error is `IllegalVersioning`
    /// with the text. Fails with `Memory` if an allocation fails, for the version or for that text.
    pub fn from_str(alloc: Global, s: &str) -> Result<Versioning, ReadError>
        ensures { ReadsOr plain_versioning VersioningOwns (IllegalVersioning s.now) result
            (versioning_of s.now) }
    {
        or_illegal(
            alloc,
            Versioning::new(alloc, s),
            s,
            Error::IllegalVersioning,
        )
    }

    /// Parses a prefix as a version; returns it and the rest, or None. It is the first of `SemVer::parse`,
    /// `Version::parse` and `Mess::parse` that is not None. So `1.2.3.4` is the strict 1.2.3 with the rest `.4`.
    /// Allocates nothing for None, three plain numbers, or one number with or without epoch. `Err` means allocation
    /// failure.
    pub fn parse(alloc: Global, i: &str) -> Result<Option<(Versioning, &str)>, AllocError>
        ensures { Reads plain_versioning VersioningOwns result (versioning_front i.now) }
    {
        if let Some((ideal, rest)) = SemVer::parse(alloc, i)? {
            return Ok(Some((Versioning::Ideal(ideal), rest)));
        }
        if let Some((general, rest)) = Version::parse(alloc, i)? {
            return Ok(Some((Versioning::General(general), rest)));
        }
        match Mess::parse(alloc, i)? {
            Some((complex, rest)) => Ok(Some((Versioning::Complex(complex), rest))),
            None => Ok(None),
        }
    }

    /// Returns a copy, metadata included. `Err` means allocation failure.
    pub fn clone(&self, alloc: Global) -> Result<Versioning, AllocError>
        ensures { IfOk result (λ copy. plain_versioning copy ≡ plain_versioning self.now) }
    {
        match self {
            Versioning::Ideal(ideal) => Ok(Versioning::Ideal(ideal.clone(alloc)?)),
            Versioning::General(general) => Ok(Versioning::General(general.clone(alloc)?)),
            Versioning::Complex(complex) => Ok(Versioning::Complex(complex.clone(alloc)?)),
        }
    }

    /// Returns whether it is a strict version.
    pub fn is_ideal(&self) -> bool
        ensures { result ≡ is_ideal (plain_versioning self.now) }
    {
        matches!(self, Versioning::Ideal(_))
    }

    /// Returns whether it is a general version.
    pub fn is_general(&self) -> bool
        ensures { result ≡ is_general (plain_versioning self.now) }
    {
        matches!(self, Versioning::General(_))
    }

    /// Returns whether it is a messy version.
    pub fn is_complex(&self) -> bool
        ensures { result ≡ is_complex (plain_versioning self.now) }
    {
        matches!(self, Versioning::Complex(_))
    }

    /// Returns its kind.
    pub fn kind(&self) -> Kind
        ensures { result ≡ versioning_kind (plain_versioning self.now) }
    {
        match self {
            Versioning::Ideal(_) => Kind::Ideal,
            Versioning::General(_) => Kind::General,
            Versioning::Complex(_) => Kind::Complex,
        }
    }

    /// Returns the number at a place, counted from 0: major, minor or patch of a strict version, or what `nth` of the
    /// other kinds returns.
    pub fn nth(&self, n: usize) -> Option<u32>
        ensures { result ≡ versioning_nth (plain_versioning self.now) n }
    {
        match self {
            Versioning::Ideal(ideal) => nth_of_three(ideal, n),
            Versioning::General(general) => general.nth(n),
            Versioning::Complex(complex) => complex.nth(n),
        }
    }

    /// Compares two versions by kind, then field by field. `Ord` breaks ties of precedence by this.
    pub fn compare_plain(&self, other: &Versioning) -> Ordering
        ensures { result ≡ versioning_plain_cmp (plain_versioning self.now)
            (plain_versioning other.now) }
    {
        match (self, other) {
            (Versioning::Ideal(a), Versioning::Ideal(b)) => a.cmp(b),
            (Versioning::General(a), Versioning::General(b)) => a.compare_plain(b),
            (Versioning::Complex(a), Versioning::Complex(b)) => a.compare_plain(b),
            (a, b) => a.rank().cmp(&b.rank()),
        }
    }

    // Returns the place of its kind among the three.
    fn rank(&self) -> u8
        ensures { result ≡ kind_rank (plain_versioning self.now) }
    {
        match self {
            Versioning::Ideal(_) => 0,
            Versioning::General(_) => 1,
            Versioning::Complex(_) => 2,
        }
    }
}

// Returns major, minor and patch for 0, 1 and 2.
fn nth_of_three(ideal: &SemVer, n: usize) -> Option<u32>
    ensures { result ≡ semver_nth (plain_semver ideal.now) n }
{
    match n {
        0 => Some(ideal.major),
        1 => Some(ideal.minor),
        2 => Some(ideal.patch),
        _ => None,
    }
}

/// The default is the strict version `0.0.0`.
impl Default for Versioning {
    ghost is_default = { λ v. plain_versioning v
        ≡ plain.Ideal (record { major = 0; minor = 0; patch = 0; pre_rel = None; meta = None }) };

    fn default() -> Versioning {
        Versioning::Ideal(SemVer::default())
    }
}

impl fmt::Display for Versioning {
    ghost output = { λ v. Some (versioning_text (plain_versioning v)) };

    fn fmt<W: fmt::Write>(&self, f: &mut fmt::Formatter<W>) -> fmt::Result {
        match self {
            Versioning::Ideal(ideal) => write!(f, "{ideal}"),
            Versioning::General(general) => write!(f, "{general}"),
            Versioning::Complex(complex) => write!(f, "{complex}"),
        }
    }
}

/// Compares the kinds and every field, except metadata of strict versions.
impl PartialEq for Versioning {
    ghost eq = { on plain_versioning (eq_by_cmp versioning_plain_cmp) };

    ghost laws = { on_per plain_versioning
        (partial_equiv_from_equiv (eq_by_cmp_equiv versioning_plain_total)) };

    fn eq(&self, other: &Versioning) -> bool {
        match (self, other) {
            (Versioning::Ideal(a), Versioning::Ideal(b)) => a == b,
            (Versioning::General(a), Versioning::General(b)) => a == b,
            (Versioning::Complex(a), Versioning::Complex(b)) => a == b,
            _ => false,
        }
    }
}

impl Eq for Versioning {
    ghost laws = { on_equiv plain_versioning (eq_by_cmp_equiv versioning_plain_total) };
}

/// Hashes the kind, then the version of that kind.
impl Hash for Versioning {
    ghost hash_input = { λ v. versioning_fed (plain_versioning v) };

    ghost respects_eq = { λ a b tied. versions_fed_alike (plain_versioning a)
        (plain_versioning b) tied };

    fn hash<H: Hasher>(&self, state: &mut H) {
        match self {
            Versioning::Ideal(ideal) => {
                state.write_u8(0);
                ideal.hash(state);
            }
            Versioning::General(general) => {
                state.write_u8(1);
                general.hash(state);
            }
            Versioning::Complex(complex) => {
                state.write_u8(2);
                complex.hash(state);
            }
        }
    }
}

/// The questions that the operators of requirements ask. No call allocates.
impl Asked for Versioning {
    ghost plain = { plain_versioning };

    fn is_same(&self, other: &Versioning) -> bool {
        self == other
    }

    fn precedence(&self, other: &Versioning) -> Ordering {
        Versioning::precedence(self, other)
    }

    fn matches_tilde(&self, version: &Versioning) -> bool {
        match (self, version) {
            (Versioning::Ideal(wanted), Versioning::Ideal(ideal)) => wanted.matches_tilde(ideal),
            (Versioning::General(wanted), Versioning::General(general)) => {
                wanted.matches_tilde(general)
            }
            _ => false,
        }
    }

    fn matches_caret(&self, version: &Versioning) -> bool {
        match (self, version) {
            (Versioning::Ideal(wanted), Versioning::Ideal(ideal)) => wanted.matches_caret(ideal),
            (Versioning::General(wanted), Versioning::General(general)) => {
                wanted.matches_caret(general)
            }
            _ => false,
        }
    }
}
