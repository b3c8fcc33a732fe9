//! A line as it is sorted.
ghost use Rattle.std.specs.Prelude.{◌≡◌, ◌+◌, ◌++◌, ◌≤◌, drop, length, IfOk, IsTrue, OnErr, OnOk};
ghost use Rattle.std.specs.{Ordering.on, Ordering.then_cmp, declared.cmp.Ordering.TheVariants.Equal};
ghost use Rattle.version_lines.specs.{Entry.after_heads_cmp, Sort.Reads, Sort.turned};
ghost use Rattle.version_schemes.specs.any.AnyVersion.{plain_any};

use crate::sort::by::{SortBy, turn};
use std::alloc::AllocError;
use std::cmp::Ordering;
use version_order::{compare_bytes, first_eight};
use version_rules::Kind;
use version_schemes::AnyVersion;
use version_texts::{compare_key_ties, mark_kind, marked_kind, marked_number};

/// A line that has a version, the place of the key of this in the one list of all keys, the key's length with the kind
/// marked on it, and the key's first bytes, by which most lines differ.
#[derive(Clone, Copy)]
pub struct Entry<'a> {
    first: u64,
    second: u64,
    line: &'a [u8],
    start: usize,
    length: u64,
}

// A key's length is below it, so that a kind can be marked on the length. No memory holds a longer key.
const LENGTH_LIMIT: u64 = 1 << 62;

impl<'a> Entry<'a> {
    ghost use Rattle.version_lines.specs.Entry.{entry_cmp, entry_key, entry_kind, entry_line, heads_cmp, tie_cmp, turn_cmp, version_cmp, HoldsKey};

    /// Returns an entry for the line, whose version was parsed. The key of this is added to `keys`. Fails if the key
    /// cannot be allocated; the keys are then unchanged.
    pub fn read(
        keys: &mut Vec<u8>,
        version: &AnyVersion<'_>,
        line: &'a [u8],
    ) -> Result<Entry<'a>, AllocError>
        ensures keys { OnOk result (keys.new.items
            ≡ keys.old.items ++ (plain_any version.now).key) }
        ensures line { IfOk result (λ e. entry_line e ≡ line.now) }
        ensures key { IfOk result (HoldsKey keys.new.items (plain_any version.now)) }
        ensures last { IfOk result (λ e. e.start ≡ length keys.old.items) }
        ensures err { OnErr result (keys.new.items ≡ keys.old.items) }
    {
        let start = keys.len();
        version.append_key(keys)?;
        let key = &keys.as_slice()[start..];
        let length = key.len() as u64;
        if length >= LENGTH_LIMIT {
            keys.truncate(start);
            return Err(AllocError);
        }
        Ok(Entry {
            first: first_eight(key),
            second: first_eight(after(8, key)),
            line,
            start,
            length: mark_kind(length, version.kind()),
        })
    }

    /// Compares by the versions, as they count for the sort, then by the places of the keys: of two lines that compare
    /// Equal, the line that was read first comes first.
    #[inline(always)]
    pub fn compare_in_turn<B: SortBy>(&self, other: &Entry<'_>, by: &B, keys: &[u8]) -> Ordering
        ensures { result
            ≡ then_cmp (turned (B.is_reversed by.now) (version_cmp (B.reads by.now) keys.now))
            turn_cmp self.now other.now }
    {
        match self.compare_heads(other) {
            Ordering::Equal if self.is_short_tie(other, keys) => self.start.cmp(&other.start),
            Ordering::Equal => self.compare_tied_in_turn(other, by, keys),
            order => turn(by.is_reversed(), order),
        }
    }

    // Whether two keys that begin alike are seen to be the same at once, as most are: they have no more bytes, and nothing
    // breaks their tie.
    #[inline(always)]
    fn is_short_tie(&self, other: &Entry<'_>, keys: &[u8]) -> bool
        ensures { IsTrue result → (reads : Reads)
            → then_cmp (on (entry_key keys.now) after_heads_cmp) (tie_cmp reads) self.now other.now ≡ Equal }
    {
        if self.length != other.length {
            return false;
        }
        if marked_number(self.length) > 16 {
            return false;
        }
        if !self.is_strict() {
            return false;
        }
        if !self.has_sixteen(keys) {
            return false;
        }
        other.has_sixteen(keys)
    }

    // Whether sixteen bytes of the list of all keys lie behind the place of its key.
    #[inline(always)]
    fn has_sixteen(&self, keys: &[u8]) -> bool
        ensures { IsTrue result → self.now.start + 16 ≤ length keys.now }
    {
        keys.len() >= 16 && self.start <= keys.len() - 16
    }

    // Compares two lines whose keys begin alike. Never inlined, so that a sort inlines the usual case.
    #[inline(never)]
    fn compare_tied_in_turn<B: SortBy>(&self, other: &Entry<'_>, by: &B, keys: &[u8]) -> Ordering
        ensures { result ≡ then_cmp (turned (B.is_reversed by.now)
            (then_cmp (on (entry_key keys.now) after_heads_cmp) (tie_cmp (B.reads by.now))))
            turn_cmp self.now other.now }
    {
        let order = match compare_after_heads(self.key(keys), other.key(keys)) {
            Ordering::Equal => self.compare_ties(other, by),
            order => order,
        };
        turn(by.is_reversed(), order).then(self.start.cmp(&other.start))
    }

    /// Compares by the keys alone, or in the reverse of their order, and then by the places of the keys.
    #[inline(always)]
    pub fn compare_keys_in_turn(&self, other: &Entry<'_>, reversed: bool, keys: &[u8]) -> Ordering
        ensures { result ≡ then_cmp (turned reversed (entry_cmp keys.now)) turn_cmp
            self.now other.now }
    {
        turn(reversed, self.compare(other, keys)).then(self.start.cmp(&other.start))
    }

    /// Compares by the keys, their first bytes first.
    #[inline(always)]
    pub fn compare(&self, other: &Entry<'_>, keys: &[u8]) -> Ordering
        ensures { result ≡ entry_cmp keys.now self.now other.now }
    {
        match self.compare_heads(other) {
            Ordering::Equal => self.compare_rest(other, keys),
            order => order,
        }
    }

    // Compares two lines whose keys begin alike by the rest of these. Never inlined, as above.
    #[inline(never)]
    fn compare_rest(&self, other: &Entry<'_>, keys: &[u8]) -> Ordering
        ensures { result ≡ on (entry_key keys.now) after_heads_cmp self.now other.now }
    {
        compare_after_heads(self.key(keys), other.key(keys))
    }

    // Compares by the first bytes of the keys.
    #[inline(always)]
    fn compare_heads(&self, other: &Entry<'_>) -> Ordering
        ensures { result ≡ heads_cmp self.now other.now }
    {
        match self.first.cmp(&other.first) {
            Ordering::Equal => self.second.cmp(&other.second),
            order => order,
        }
    }

    // Compares by what breaks the ties of keys: the kinds and the texts.
    fn compare_ties<B: SortBy>(&self, other: &Entry<'_>, by: &B) -> Ordering
        ensures { result ≡ tie_cmp (B.reads by.now) self.now other.now }
    {
        if self.is_strict() && other.is_strict() {
            return Ordering::Equal;
        }
        if self.length == other.length && self.line == other.line {
            return Ordering::Equal;
        }
        compare_key_ties(
            self.kind(),
            by.text(self.line),
            other.kind(),
            by.text(other.line),
        )
    }

    // Returns whether its version is strict: nothing breaks the tie of two such.
    #[inline(always)]
    fn is_strict(&self) -> bool
        ensures { IsTrue result → entry_kind self.now ≡ Kind.Ideal }
    {
        matches!(self.kind(), Kind::Ideal)
    }

    // Returns its key from the list of all keys.
    fn key<'k>(&self, keys: &'k [u8]) -> &'k [u8]
        ensures { result.now ≡ entry_key keys.now self.now }
    {
        let rest = &keys[self.start.min(keys.len())..];
        &rest[..(marked_number(self.length) as usize).min(rest.len())]
    }

    // Returns the kind of its version.
    #[inline(always)]
    fn kind(&self) -> Kind
        ensures { result ≡ entry_kind self.now }
    {
        marked_kind(self.length)
    }

    /// Returns the line.
    pub fn line(&self) -> &'a [u8]
        ensures { result.now ≡ entry_line self.now }
    {
        self.line
    }
}

// Compares two keys by the bytes after the first sixteen, then by length.
#[inline(always)]
fn compare_after_heads(a: &[u8], b: &[u8]) -> Ordering
    ensures { result ≡ after_heads_cmp a.now b.now }
{
    if a.len() <= 16 && b.len() <= 16 {
        return a.len().cmp(&b.len());
    }
    match compare_bytes(after(16, a), after(16, b)) {
        Ordering::Equal => a.len().cmp(&b.len()),
        order => order,
    }
}

// Returns a key without so many first bytes.
fn after(count: usize, key: &[u8]) -> &[u8]
    ensures { result.now ≡ drop count key.now }
{
    key.get(count..).unwrap_or(&[])
}
