//! Lines with the sort keys of their versions.
ghost use Rattle.std.specs.Prelude.{[], ◌≡◌, ◌<◌, ◌++◌, ◌∷◌, get_or, length, IfOk, OnErr, OnOk, Some};
ghost use Rattle.std.specs.Ordering.{eq_by_cmp};
ghost use Rattle.version_lines.specs.Entry.{entry_cmp, version_cmp, lines_in, AreInTurn, AreRead};
ghost use Rattle.version_lines.specs.{Newest.first_of_each, Newest.first_of_ties, Newest.newest, Sort.lines_cmp, Sort.version_in, Sort.in_order, Sort.turned};
ghost use Rattle.version_schemes.specs.any.AnyVersion.{plain_any};

use crate::sort::by::SortBy;
use crate::sort::entry::Entry;
use crate::sort::newest::{GroupBy, keep_newest};
use std::alloc::{AllocError, Global};
use version_schemes::{AnyVersion, Scheme};

/// Lines that are versions or have one in them, with the sort keys of these, to be put in order.
#[derive(Drop)]
pub struct KeyedLines<'a, B> {
    by: B,
    keys: Vec<u8>,
    entries: Vec<Entry<'a>>,
}

impl<'a, B: SortBy> KeyedLines<'a, B> {
    /// Returns no lines yet, with room for those of an input of so many bytes.
    pub fn new(alloc: Global, by: B, input_length: usize) -> Result<KeyedLines<'a, B>, AllocError>
        ensures read { IfOk result (AreRead B.reads) }
        ensures empty { IfOk result (λ lines. lines_in lines ≡ []) }
        ensures by { IfOk result (λ lines. lines.by ≡ by) }
    {
        let keys = Vec::with_capacity(alloc, room_for_keys(input_length))?;
        let entries = Vec::with_capacity(alloc, room_for_lines(input_length))?;
        Ok(KeyedLines { by, keys, entries })
    }

    /// Returns the text in a line that is to be its version, and the scheme of which it is to be one.
    #[inline(always)]
    pub fn text<'l>(&self, line: &'l [u8]) -> (Scheme, &'l [u8])
        ensures scheme { result.0 ≡ (B.reads self.now.by).scheme }
        ensures text { result.1.now ≡ (B.reads self.now.by).text_of line.now }
    {
        (self.by.scheme(), self.by.text(line))
    }

    /// Adds a line after the others, whose version was parsed from the text in it. If memory is refused, the lines stay
    /// as they are.
    pub fn add(&mut self, version: &AnyVersion<'_>, line: &'a [u8]) -> Result<(), AllocError>
        requires read { AreRead B.reads self.old }
        requires version { version_in (B.reads self.old.by) line.now ≡ Some (plain_any version.now) }
        ensures read { AreRead B.reads self.new }
        ensures lines { OnOk result (lines_in self.new ≡ lines_in self.old ++ line.now ∷ []) }
        ensures stays { OnErr result (lines_in self.new ≡ lines_in self.old) }
        ensures by { self.new.by ≡ self.old.by }
    {
        self.entries.reserve(1)?;
        let entry = Entry::read(&mut self.keys, version, line)?;
        self.entries.push_reserved(entry);
        Ok(())
    }

    /// Puts the lines in the order of their versions, or in the reverse of it; lines that compare Equal keep their
    /// order. The lines have to stand as they were added. Does not allocate.
    pub fn put_in_order(&mut self)
        requires { AreRead B.reads self.old }
        ensures lines { lines_in self.new
            ≡ in_order (turned (B.is_reversed self.old.by) (lines_cmp (B.reads self.old.by)))
            (lines_in self.old) }
        ensures by { self.new.by ≡ self.old.by }
    {
        put_in_order(&self.by, self.keys.as_slice(), &mut self.entries);
    }

    /// Puts the lines in the order of the precedence of their versions, or in the reverse of it, and of lines that tie
    /// keeps the first alone. The lines have to stand as they were added. Does not allocate.
    pub fn put_first_of_ties(&mut self)
        requires { AreRead B.reads self.old }
        ensures lines { lines_in self.new
            ≡ first_of_ties (B.is_reversed self.old.by) (B.reads self.old.by) (lines_in self.old) }
        ensures by { self.new.by ≡ self.old.by }
    {
        put_first_of_ties(&self.by, self.keys.as_slice(), &mut self.entries);
    }

    /// Keeps so many lines of each group, the newest, in the order in which the groups first appear. If memory is
    /// refused, the lines stay as they are.
    pub fn keep_newest<G: GroupBy>(
        &mut self,
        alloc: Global,
        count: usize,
        groups: &G,
    ) -> Result<(), AllocError>
        requires { AreRead B.reads self.old }
        ensures kept { OnOk result (lines_in self.new
            ≡ newest count (G.group_of groups.now) (B.reads self.old.by) (lines_in self.old)) }
        ensures stays { OnErr result (lines_in self.new ≡ lines_in self.old) }
        ensures by { self.new.by ≡ self.old.by }
    {
        keep_newest(
            alloc,
            self.keys.as_slice(),
            groups,
            count,
            &mut self.entries,
        )
    }

    /// Returns how many lines they are.
    pub fn count(&self) -> usize
        ensures { result ≡ length (lines_in self.now) }
    {
        self.entries.len()
    }

    /// Returns the line at a place, counted from 0.
    pub fn line(&self, place: usize) -> &'a [u8]
        requires { place < length (lines_in self.now) }
        ensures { result.now ≡ get_or (lines_in self.now) place [] }
    {
        self.entries[place].line()
    }
}

// The bytes reserved for the keys of all lines at first: a key is most often about twice as long as its line. The
// list grows if that is too little.
fn room_for_keys(input_length: usize) -> usize {
    input_length.saturating_mul(2)
}

// The lines reserved at first: a version is most often twelve bytes or longer. The list grows if that is too little.
fn room_for_lines(input_length: usize) -> usize {
    input_length / 12
}

// Puts lines that stand as they were added in the order of their versions. Does not allocate.
fn put_in_order<B: SortBy>(by: &B, keys: &[u8], entries: &mut Vec<Entry<'_>>)
    requires { AreInTurn entries.old.items }
    ensures { entries.new.items
        ≡ in_order (turned (B.is_reversed by.now) (version_cmp (B.reads by.now) keys.now))
        entries.old.items }
{
    entries.sort_unstable_by(|a, b| a.compare_in_turn(b, by, keys));
}

// Puts lines that stand as they were added in the order of their keys, or in the reverse of it, and of lines whose keys
// tie keeps the first alone. Does not allocate.
fn put_first_of_ties<B: SortBy>(by: &B, keys: &[u8], entries: &mut Vec<Entry<'_>>)
    requires { AreInTurn entries.old.items }
    ensures { entries.new.items ≡ first_of_each 1 (eq_by_cmp (entry_cmp keys.now))
        (in_order (turned (B.is_reversed by.now) (entry_cmp keys.now)) entries.old.items) }
{
    entries.sort_unstable_by(|a, b| a.compare_keys_in_turn(b, by.is_reversed(), keys));
    entries.dedup_by(|later, first| later.compare(first, keys).is_eq());
}
