//! The order of versions: by their keys, and `Ord`, which breaks the ties. docs/ORDER.md has the rules.

ghost use Rattle.std.specs.Prelude.{◌≡◌, ◌++◌, List, ℕ, refl, IfOk};
ghost use Rattle.version_rules.specs.grammar.Versioning as plain;
ghost use Rattle.std.specs.{Cmp.on_total, Cmp.po, Cmp.IsTotalOrder, Ordering.as_partial_cmp, Ordering.on, declared.cmp.Ordering.TheVariants.Equal};
ghost use Rattle.version_order.specs.keys.Lists.{bytes_cmp};
ghost use Rattle.version_rules.specs.key.Key.{key_of, key_of_version, precedence, Key, key_bytes};
ghost use Rattle.version_rules.specs.laws.Key.{mess_cmp_ties, mess_cmp_total, version_cmp_ties, version_cmp_total, versioning_cmp_ties, versioning_cmp_total};
ghost use Rattle.version_rules.specs.{grammar.SemVer.PlainSemVer, order.Kinds.semver_cmp, order.Orders.mess_cmp, order.Orders.version_cmp, order.Orders.versioning_cmp};
ghost use Rattle.versions.specs.{Mess.plain_mess, Version.plain_version, Versioning.plain_versioning};

use crate::key::{KeyBytes, compare_keys, key_list};
use crate::mess::Mess;
use crate::version::Version;
use crate::versioning::Versioning;
use std::alloc::{AllocError, Global};
use std::cmp::Ordering;

impl Versioning {
    /// Compares two versions of any kind by their keys: the order of all versions (docs/ORDER.md). `Ord` breaks its
    /// ties.
    #[tactic(auto, using(version_rules::proofs::lemmas::Order::laws))]
    pub fn precedence(&self, other: &Versioning) -> Ordering
        ensures keys { result ≡ precedence (key_of (plain_versioning self.now))
            (key_of (plain_versioning other.now)) }

        // Over all keys the order is total and transitive, and swapping reverses it. On strict versions it is `Ord` of
        // `SemVer`.
        ensures total { IsTotalOrder precedence }
        ensures strict { (a b : PlainSemVer)
            → precedence (key_of (plain.Ideal a)) (key_of (plain.Ideal b)) ≡ semver_cmp a b }
    {
        compare_keys(self.key_bytes(), other.key_bytes())
    }

    /// Returns the bytes of its key, one after another. They compare as precedence does.
    #[inline(always)]
    pub fn key_bytes(&self) -> KeyBytes<'_>
        ensures { result ≡ key_bytes (key_of (plain_versioning self.now)) }
    {
        KeyBytes::of(self)
    }

    /// Returns the bytes of its key as a list, for a database or a sort that knows nothing of versions. Two lists
    /// compare byte by byte, a prefix first, as the versions do in precedence. `Err` means allocation failure.
    #[tactic(auto, using(version_rules::proofs::lemmas::Order::laws))]
    pub fn sort_key(&self, alloc: Global) -> Result<Vec<u8>, AllocError>
        ensures bytes { IfOk result (λ key. key.items
            ≡ key_bytes (key_of (plain_versioning self.now))) }

        // They compare with the bytes of any key as precedence does. If that is not Equal, it stays so whatever bytes
        // follow the two.
        ensures ordered { IfOk result (λ key. (k : Key)
            → bytes_cmp key.items (key_bytes k)
            ≡ precedence (key_of (plain_versioning self.now)) k) }
        ensures followed { IfOk result (λ key. (k : Key) (x y : List ℕ)
            → ¬ (precedence (key_of (plain_versioning self.now)) k ≡ Equal)
            → bytes_cmp (key.items ++ x) (key_bytes k ++ y)
            ≡ precedence (key_of (plain_versioning self.now)) k) }
    {
        key_list(alloc, self)
    }
}

/// Compares by precedence. Breaks a tie by kind, strict before general before messy, then field by field, except
/// metadata of strict versions.
impl Ord for Versioning {
    ghost cmp = { on plain_versioning versioning_cmp };

    ghost total = { on_total plain_versioning versioning_cmp_total };

    ghost matches_partial_cmp = { λ a b. refl };

    ghost matches_eq = { λ a b. versioning_cmp_ties (plain_versioning a) (plain_versioning b) };

    fn cmp(&self, other: &Versioning) -> Ordering {
        self.precedence(other)
            .then_with(|| self.compare_plain(other))
    }
}

impl PartialOrd for Versioning {
    ghost partial_cmp = { as_partial_cmp (on plain_versioning versioning_cmp) };

    ghost laws = { po (on_total plain_versioning versioning_cmp_total)
        (λ a b. versioning_cmp_ties (plain_versioning a) (plain_versioning b)) };

    fn partial_cmp(&self, other: &Versioning) -> Option<Ordering> {
        Some(self.cmp(other))
    }
}

impl Version {
    // Compares the keys of two versions.
    #[tactic(auto, using(version_rules::proofs::lemmas::Order::key_bytes_alone))]
    fn compare_by_key(&self, other: &Version) -> Ordering
        ensures { result ≡ precedence (key_of_version (plain_version self.now))
            (key_of_version (plain_version other.now)) }
    {
        compare_keys(KeyBytes::of_version(self), KeyBytes::of_version(other))
    }
}

/// Compares the keys; breaks a tie field by field, None before Some.
impl Ord for Version {
    ghost cmp = { on plain_version version_cmp };

    ghost total = { on_total plain_version version_cmp_total };

    ghost matches_partial_cmp = { λ a b. refl };

    ghost matches_eq = { λ a b. version_cmp_ties (plain_version a) (plain_version b) };

    fn cmp(&self, other: &Version) -> Ordering {
        self.compare_by_key(other)
            .then_with(|| self.compare_plain(other))
    }
}

impl PartialOrd for Version {
    ghost partial_cmp = { as_partial_cmp (on plain_version version_cmp) };

    ghost laws = { po (on_total plain_version version_cmp_total)
        (λ a b. version_cmp_ties (plain_version a) (plain_version b)) };

    fn partial_cmp(&self, other: &Version) -> Option<Ordering> {
        Some(self.cmp(other))
    }
}

/// Compares the keys; breaks a tie field by field, section by section.
impl Ord for Mess {
    ghost cmp = { on plain_mess mess_cmp };

    ghost total = { on_total plain_mess mess_cmp_total };

    ghost matches_partial_cmp = { λ a b. refl };

    ghost matches_eq = { λ a b. mess_cmp_ties (plain_mess a) (plain_mess b) };

    #[tactic(auto, using(version_rules::proofs::lemmas::Order::key_bytes_alone))]
    fn cmp(&self, other: &Mess) -> Ordering {
        compare_keys(KeyBytes::of_mess(self), KeyBytes::of_mess(other)).then_with(
            || self.compare_plain(other),
        )
    }
}

impl PartialOrd for Mess {
    ghost partial_cmp = { as_partial_cmp (on plain_mess mess_cmp) };

    ghost laws = { po (on_total plain_mess mess_cmp_total)
        (λ a b. mess_cmp_ties (plain_mess a) (plain_mess b)) };

    fn partial_cmp(&self, other: &Mess) -> Option<Ordering> {
        Some(self.cmp(other))
    }
}
