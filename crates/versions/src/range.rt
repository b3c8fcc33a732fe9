//! Ranges of keys: what a requirement or a list of them asks for, in bytes.

ghost use Rattle.std.specs.Prelude.{◌≡◌, ◌↔◌, IfOk, IfSome, IsTrue};
ghost use Rattle.std.specs.{Option.option_map, declared.cmp.Ordering.TheVariants.Less};
ghost use Rattle.version_order.specs.keys.Lists.{bytes_cmp};
ghost use Rattle.version_rules.specs.requirement.Range.{common, earlier, earlier_high, everything, later, IsIn};
ghost use Rattle.version_rules.specs.key.Key.{key_of, key_bytes};
ghost use Rattle.versions.specs.{Requirements.plain_range, Versioning.plain_versioning};

pub(crate) mod build;

use crate::key::compare_bytes;
use crate::versioning::Versioning;
use std::alloc::{AllocError, Global};
use std::cmp::Ordering;
use version_rules::Kinds;

/// Keys from a low bound up to a high one, of versions of some kinds: what a list of requirements asks for. Each
/// version that the list matches is in its range. docs/REQUIREMENTS.md has the rules.
#[derive(Debug, PartialEq, Eq, Drop)]
pub struct Range {
    /// The key of each version is at least these bytes.
    pub low: Vec<u8>,
    /// The key of each version is below these bytes; None if it need not be below any.
    pub high: Option<Vec<u8>>,
    /// The kind of each version is one of these.
    pub kinds: Kinds,
    /// If true, the list matches each version in the range.
    pub is_exact: bool,
}

impl Range {
    /// Returns the range of every version.
    pub fn everything(alloc: Global) -> Range
        ensures { plain_range result ≡ everything }
    {
        Range {
            low: Vec::new(alloc),
            high: None,
            kinds: Kinds::all(),
            is_exact: true,
        }
    }

    /// Returns a copy. `Err` means allocation failure.
    pub fn clone(&self, alloc: Global) -> Result<Range, AllocError>
        ensures { IfOk result (λ copy. plain_range copy ≡ plain_range self.now) }
    {
        let high = match &self.high {
            Some(high) => Some(Vec::from_slice(alloc, high.as_slice())?),
            None => None,
        };
        Ok(Range {
            low: Vec::from_slice(alloc, self.low.as_slice())?,
            high,
            kinds: self.kinds,
            is_exact: self.is_exact,
        })
    }

    /// Returns whether a version is in the range: its key lies between the bounds, and its kind is one of the kinds.
    pub fn contains(&self, version: &Versioning) -> bool
        ensures { IsTrue result ↔ IsIn (plain_range self.now) (plain_versioning version.now) }
    {
        self.kinds.has(version.kind())
            && compare_key(version, self.low.as_slice()).is_ge()
            && is_below(version, &self.high)
    }

    /// Returns what is in both ranges: from the later low bound up to the earlier high one, of the kinds in both. It is
    /// exact if both are.
    pub fn common(self, other: Range) -> Range
        ensures { plain_range result ≡ common (plain_range self) (plain_range other) }
    {
        Range {
            low: later(self.low, other.low),
            high: earlier_high(self.high, other.high),
            kinds: self.kinds.common(other.kinds),
            is_exact: self.is_exact && other.is_exact,
        }
    }
}

// Compares the key of a version with some bytes.
fn compare_key(version: &Versioning, bytes: &[u8]) -> Ordering
    ensures { result ≡ bytes_cmp (key_bytes (key_of (plain_versioning version.now))) bytes.now }
{
    compare_bytes(&mut version.key_bytes(), &mut bytes.iter().copied())
}

// Returns whether the key of a version is below a high bound, if there is one.
fn is_below(version: &Versioning, high: &Option<Vec<u8>>) -> bool
    ensures { IsTrue result ↔ IfSome high.now
        (λ high. bytes_cmp (key_bytes (key_of (plain_versioning version.now))) high.items ≡ Less) }
{
    match high {
        Some(high) => compare_key(version, high.as_slice()).is_lt(),
        None => true,
    }
}

// Returns the later of two lists of bytes.
fn later(a: Vec<u8>, b: Vec<u8>) -> Vec<u8>
    ensures { result.items ≡ later a.items b.items }
{
    if a.as_slice().cmp(b.as_slice()).is_lt() {
        b
    } else {
        a
    }
}

// Returns the earlier of two lists of bytes.
fn earlier(a: Vec<u8>, b: Vec<u8>) -> Vec<u8>
    ensures { result.items ≡ earlier a.items b.items }
{
    if b.as_slice().cmp(a.as_slice()).is_lt() {
        b
    } else {
        a
    }
}

// Returns the earlier of two high bounds. A missing one is above all.
fn earlier_high(a: Option<Vec<u8>>, b: Option<Vec<u8>>) -> Option<Vec<u8>>
    ensures { option_map (λ high. high.items) result
        ≡ earlier_high (option_map (λ high. high.items) a) (option_map (λ high. high.items) b) }
{
    match (a, b) {
        (Some(a), Some(b)) => Some(earlier(a, b)),
        (Some(a), None) => Some(a),
        (None, b) => b,
    }
}
