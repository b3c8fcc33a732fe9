//! SemVer 2.0.0, with numbers of any length, and its order: item 11.

ghost use Rattle.std.specs.Prelude.{◌≡◌, is_some, IfSome, length, MatchResult, None, Some, true};
ghost use Rattle.std.proofs.Props.{props};
ghost use Rattle.std.specs.{List.list_all, Ordering.nat_cmp};
ghost use Rattle.version_order.specs.{Viable.IsCut, Viable.IsLongestViable, keys.Lists.bytes_cmp, keys.Lists.none_last_cmp, texts.Bytes.is_metadata_byte, texts.Front.run_value};
ghost use Rattle.version_rules.specs.order.{Kinds.semver_cmp, Parts.release_cmp};
ghost use Rattle.scheme_semver.specs.{Order.semver_bytes, Reading.is_core, Texts.identifiers_of, Texts.is_number, Texts.semver_of};

use crate::reader::{split_last_number, split_number, split_tail};
use std::cmp::Ordering;
use version_order::{Beside, Facts, Kept, Operators, SchemeVersion, Sink, put_number};
use version_pieces::{compare_releases, put_release};

/// A version of SemVer 2.0.0, borrowed from its text: `MAJOR.MINOR.PATCH[-PRE][+META]`. Its metadata does not count and
/// is not kept.
#[derive(Clone, Copy)]
pub struct SemVer<'t> {
    major: &'t [u8],
    minor: &'t [u8],
    patch: &'t [u8],
    pre_release: Option<&'t [u8]>,
    ghost major_is: { is_number major.now ≡ true },
    ghost minor_is: { is_number minor.now ≡ true },
    ghost patch_is: { is_number patch.now ≡ true },
    ghost pre_release_is: { IfSome pre_release (λ text. list_all is_metadata_byte text.now ≡ true) } by { Prim.hlevel props },
}

impl<'t> SemVer<'t> {
    ghost use Rattle.scheme_semver.specs.Rules.{plain_semver};

    /// Reads a whole text, or returns the length of its longest beginning that some continuation makes a version of
    /// SemVer, if it is none.
    pub fn from_bytes(text: &'t [u8]) -> Result<SemVer<'t>, usize>
        ensures { MatchResult result (λ version. semver_of text.now ≡ Some (plain_semver version))
            (λ place. (semver_of text.now ≡ None)
            × IsLongestViable (λ begun. is_some (semver_of begun)) text.now place) }
    {
        match SemVer::read_parts(text) {
            Ok(version) => Ok(version),
            Err(left) => Err(text.len() - left.len()),
        }
    }

    // Reads a whole text, or returns what is left of it after its longest viable beginning.
    #[inline(always)]
    fn read_parts(text: &'t [u8]) -> Result<SemVer<'t>, &'t [u8]>
        ensures { MatchResult result (λ version. semver_of text.now ≡ Some (plain_semver version))
            (λ left. IsCut (is_core 2) text.now left.now) }
    {
        let (major, rest) = split_number(text)?;
        let (minor, rest) = split_number(rest)?;
        let (patch, tail) = split_last_number(rest)?;
        let pre_release = split_tail(tail)?;
        Ok(SemVer {
            major,
            minor,
            patch,
            pre_release,
        })
    }

    /// Compares it with another version.
    pub fn compare(&self, other: &SemVer<'_>) -> Ordering
        ensures { result ≡ semver_cmp (plain_semver self.now) (plain_semver other.now) }
    {
        let majors = compare_values(self.major, other.major);
        if majors != Ordering::Equal {
            return majors;
        }
        let minors = compare_values(self.minor, other.minor);
        if minors != Ordering::Equal {
            return minors;
        }
        let patches = compare_values(self.patch, other.patch);
        if patches != Ordering::Equal {
            return patches;
        }
        compare_pre_releases(self.pre_release, other.pre_release)
    }
}

// Compares two numbers: by the count of their digits, and then by these.
#[inline(always)]
fn compare_values(x: &[u8], y: &[u8]) -> Ordering
    requires x { is_number x.now ≡ true }
    requires y { is_number y.now ≡ true }
    ensures { result ≡ nat_cmp (run_value x.now) (run_value y.now) }
{
    if x.len() != y.len() {
        return x.len().cmp(&y.len());
    }
    compare_alike(x, y)
}

// Compares two texts of one length by their bytes. Most are of one or two, for which a loop takes less than a call.
#[inline(always)]
fn compare_alike(x: &[u8], y: &[u8]) -> Ordering
    requires { length x.now ≡ length y.now }
    ensures { result ≡ bytes_cmp x.now y.now }
{
    let mut place = 0;
    while place < x.len() {
        if x[place] != y[place] {
            return x[place].cmp(&y[place]);
        }
        place += 1;
    }
    Ordering::Equal
}

// Compares two pre-releases. None comes last.
#[inline(always)]
fn compare_pre_releases(x: Option<&[u8]>, y: Option<&[u8]>) -> Ordering
    ensures { result ≡ none_last_cmp release_cmp (identifiers_of x.entry) (identifiers_of y.entry) }
{
    match (x, y) {
        (Some(a), Some(b)) => compare_releases(a, b),
        (Some(_), None) => Ordering::Less,
        (None, Some(_)) => Ordering::Greater,
        (None, None) => Ordering::Equal,
    }
}

impl<'t> SchemeVersion<'t> for SemVer<'t> {
    ghost use Rattle.std.specs.Ordering.{on};
    ghost use Rattle.version_order.proofs.lemmas.Codes.{writes_on, plain_no_parts};
    ghost use Rattle.version_order.specs.{Facts.key_room, Facts.plain_facts, Keyed.AreWithin, Keyed.by_key};
    ghost use Rattle.scheme_semver.specs.{Laws.semver_some, Laws.semver_writes, Rules.plain_semver, Rules.semver_facts, Rules.semver_rules};

    ghost rules = { semver_rules };

    ghost plain = { λ version. by_key (semver_bytes (plain_semver version)) };

    ghost order = { on plain_semver semver_cmp };

    #[inline(always)]
    fn facts() -> Facts
        ensures facts { plain_facts result ≡ semver_facts }
        ensures within { AreWithin semver_rules.read_as (key_room semver_facts) }
    {
        Facts {
            number: 5,
            name: "semver",
            aliases: &["npm", "cargo", "crates.io"],
            operators: Operators::Plain,
            per_byte: 2,
            beside: 0,
            marks: b"-+.",
        }
    }

    #[inline(always)]
    fn read(text: &'t [u8]) -> Option<SemVer<'t>> {
        SemVer::from_bytes(text).ok()
    }

    #[inline(always)]
    fn viable_length(text: &[u8]) -> usize
        ensures { IsLongestViable (λ begun. is_some (semver_rules.read_as begun)) text.now result }
    {
        match SemVer::from_bytes(text) {
            Ok(_) => text.len(),
            Err(place) => place,
        }
    }

    #[inline(always)]
    fn compare(&self, other: &SemVer<'t>) -> Ordering {
        SemVer::compare(self, other)
    }

    fn put_key<S: Sink>(&self, sink: &mut S) {
        put_number(sink, self.major);
        put_number(sink, self.minor);
        put_number(sink, self.patch);
        match self.pre_release {
            None => sink.put(2),
            Some(text) => {
                sink.put(1);
                put_release(sink, text);
            }
        }
    }

    #[inline(always)]
    fn put_begun<S: Sink>(&self, _kept: Kept, _sink: &mut S) {}

    #[inline(always)]
    fn is_bare(&self) -> bool {
        false
    }

    #[inline(always)]
    fn compare_key(&self, bytes: &[u8]) -> Ordering {
        let mut beside = Beside {
            left: bytes,
            order: Ordering::Equal,
        };
        self.put_key(&mut beside);
        beside.order()
    }

    ghost writes = { writes_on plain_semver semver_writes };

    ghost some = { λ version. semver_some (plain_semver version) };

    ghost begins = { plain_no_parts };
}
