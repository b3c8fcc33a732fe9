//! Chunks of a messy version: the pieces between its dots and signs.

ghost use Rattle.std.specs.Prelude.{◌≡◌, refl, map, IfOk, Some};
ghost use Rattle.std.specs.Cmp.{eq_by_cmp_equiv, on_equiv, on_per, on_total, partial_equiv_from_equiv, po};
ghost use Rattle.std.specs.{Option.option_map, Ordering.as_partial_cmp, Ordering.eq_by_cmp, Ordering.on};
ghost use Rattle.std.proofs.Common.{ap};
ghost use Rattle.version_order.specs.{keys.Codes.same_where_tied, texts.Front.is_digits, texts.Front.dotted_front};
ghost use Rattle.version_parts.specs.{Body.Reads, MChunk.mchunk_fed, MChunk.plain_mchunk, MChunk.plain_mchunk_ref};
ghost use Rattle.version_rules.specs.grammar.MChunk.{digits_number, ends_chunk, mchunk_front, mchunk_plain_cmp, mchunk_rank, mchunk_text, mchunk_value, value_of_digits, value_of_revision, variant_of, PlainMChunk};
ghost use Rattle.version_rules.specs.{laws.Front.mchunk_consumes, laws.Last.mchunk_total, laws.Last.mchunks_same, laws.Part.mchunk_cmp_ties, laws.Part.mchunk_cmp_total, order.Parts.mchunk_cmp};

use crate::key::{PartText, compare_parts};
use crate::lists::ListItem;
use crate::scan::{Dotted, Element, after_mark, is_all_digits, nonempty_run, value_of};
use crate::sep::Sep;
use serde::{Deserialize, Serialize};
use std::alloc::{AllocError, Global};
use std::cmp::Ordering;
use std::fmt;
use std::hash::{Hash, Hasher};
use std::marker::Model;
use version_order::Class;

/// A piece between the dots and signs of a messy version, such as `1`, `6a` and `r3` of `1.6a+r3`: letters and digits.
#[derive(Debug, Drop, Serialize, Deserialize)]
pub enum MChunk {
    /// Digits, perhaps with leading zeros, of a value below 2^32: the value, and the text.
    Digits(u32, String),
    /// A revision, the letter `r` and such digits after it: their value, and the whole text.
    Rev(u32, String),
    /// Any other text.
    Plain(String),
}

impl MChunk {
    /// Parses the messy chunk at the start of a text, the longest run of letters and digits, and returns it with the
    /// rest. The chunk is `Plain` unless a dot, a sign or the end follows it. Returns None, without allocating, if the
    /// run is empty. Fails on allocation failure.
    pub fn parse(alloc: Global, i: &str) -> Result<Option<(MChunk, &str)>, AllocError>
        ensures { Reads plain_mchunk (λ _. Unit {0}) result (mchunk_front i.now) }
    {
        let Some((piece, rest)) = MChunkRef::scan(i) else {
            return Ok(None);
        };
        Ok(Some((piece.build(alloc)?, rest)))
    }

    /// Returns the text, which is what the chunk prints.
    pub fn text(&self) -> &str
        ensures { result.now ≡ mchunk_text (plain_mchunk self.now) }
    {
        self.lent().text()
    }

    /// Returns the number of a `Digits`, or None.
    pub fn number(&self) -> Option<u32>
        ensures { result ≡ digits_number (plain_mchunk self.now) }
    {
        match self {
            MChunk::Digits(value, _) => Some(*value),
            _ => None,
        }
    }

    /// Returns whether the text is one digit or more, and nothing else. The number may be of any size.
    pub fn is_digits(&self) -> bool
        ensures { result ≡ is_digits (mchunk_text (plain_mchunk self.now)) }
    {
        let text = self.text();
        !text.is_empty() && is_all_digits(text)
    }

    /// Returns a copy. Fails on allocation failure.
    pub fn clone(&self, alloc: Global) -> Result<MChunk, AllocError>
        ensures { IfOk result (λ copy. plain_mchunk copy ≡ plain_mchunk self.now) }
    {
        self.lent().build(alloc)
    }

    // The same chunk with its text borrowed.
    fn lent(&self) -> MChunkRef<'_>
        ensures { plain_mchunk_ref result ≡ plain_mchunk self.now }
    {
        match self {
            MChunk::Digits(value, text) => MChunkRef::Digits(*value, text.as_str()),
            MChunk::Rev(value, text) => MChunkRef::Rev(*value, text.as_str()),
            MChunk::Plain(text) => MChunkRef::Plain(text.as_str()),
        }
    }
}

// Whether what follows a run is a dot, a sign or the end.
fn ends_chunk(rest: &str) -> bool
    ensures { result ≡ ends_chunk rest.now }
{
    match rest.as_bytes() {
        [first, ..] => *first == b'.' || Sep::of(*first).is_some(),
        _ => true,
    }
}

// The value of a text of digits, if it is below 2 ^ 32.
fn value_of_digits(text: &str) -> Option<u32>
    ensures { result ≡ value_of_digits text.now }
{
    if text.is_empty() || !is_all_digits(text) {
        return None;
    }
    value_of(text)
}

// The value of the digits after an r.
fn value_of_revision(text: &str) -> Option<u32>
    ensures { result ≡ value_of_revision text.now }
{
    value_of_digits(after_mark(text, b'r')?)
}

impl fmt::Display for MChunk {
    ghost output = { λ chunk. Some (mchunk_text (plain_mchunk chunk)) };

    fn fmt<W: fmt::Write>(&self, f: &mut fmt::Formatter<W>) -> fmt::Result {
        f.write_str(self.text())
    }
}

impl PartialEq for MChunk {
    ghost eq = { on plain_mchunk (eq_by_cmp mchunk_plain_cmp) };

    ghost laws = { on_per plain_mchunk (partial_equiv_from_equiv (eq_by_cmp_equiv mchunk_total)) };

    fn eq(&self, other: &MChunk) -> bool {
        self.compare(other).is_eq()
    }
}

impl Eq for MChunk {
    ghost laws = { on_equiv plain_mchunk (eq_by_cmp_equiv mchunk_total) };
}

impl Hash for MChunk {
    ghost hash_input = { λ chunk. mchunk_fed (plain_mchunk chunk) };

    ghost respects_eq = { λ a b tied. ap mchunk_fed (same_where_tied mchunks_same tied) };

    fn hash<H: Hasher>(&self, state: &mut H) {
        let chunk = self.lent();
        state.write_u8(chunk.rank());
        chunk.value().hash(state);
        chunk.text().hash(state);
    }
}

/// Compares by the texts as parts, then field by field.
impl Ord for MChunk {
    ghost cmp = { on plain_mchunk mchunk_cmp };

    ghost total = { on_total plain_mchunk mchunk_cmp_total };

    ghost matches_partial_cmp = { λ a b. refl };

    ghost matches_eq = { λ a b. mchunk_cmp_ties (plain_mchunk a) (plain_mchunk b) };

    fn cmp(&self, other: &MChunk) -> Ordering {
        let (a, b) = (PartText::text(self.text()), PartText::text(other.text()));
        compare_parts(a, b).then_with(|| self.compare(other))
    }
}

impl PartialOrd for MChunk {
    ghost partial_cmp = { as_partial_cmp (on plain_mchunk mchunk_cmp) };

    ghost laws = { po (on_total plain_mchunk mchunk_cmp_total)
        (λ a b. mchunk_cmp_ties (plain_mchunk a) (plain_mchunk b)) };

    fn partial_cmp(&self, other: &MChunk) -> Option<Ordering> {
        Some(self.cmp(other))
    }
}

impl ListItem for MChunk {
    ghost Plain = { PlainMChunk };

    ghost plain = { plain_mchunk };

    ghost text = { mchunk_text };

    ghost plain_cmp = { mchunk_plain_cmp };

    ghost prints = { λ chunk. refl };

    fn copy(&self, alloc: Global) -> Result<MChunk, AllocError> {
        self.clone(alloc)
    }

    fn compare(&self, other: &MChunk) -> Ordering {
        self.lent().compare(other.lent())
    }
}

/// The chunks of a messy version, as the elements of a dotted list.
pub struct MessyChunk;

impl Element for MessyChunk {
    type Item = MChunk;

    ghost Plain = { PlainMChunk };

    ghost plain = { plain_mchunk };

    ghost front = { mchunk_front };

    ghost owns = { λ _. Unit {0} };

    ghost consumes = { mchunk_consumes };

    #[tactic(auto, unfolding(version_rules::specs::grammar::MChunk::mchunk_front))]
    fn skip(i: &str) -> Option<&str> {
        Some(nonempty_run(i, Class::Alphanumeric)?.1)
    }

    fn read(alloc: Global, i: &str) -> Result<Option<(MChunk, &str)>, AllocError> {
        MChunk::parse(alloc, i)
    }
}

/// A scanned section of a messy version: chunks joined by dots. Its chunks are parts of the input.
#[derive(Drop)]
pub struct SectionRef<'a> {
    list: Dotted<'a>,
}

impl<'a> Model for SectionRef<'a> {
    ghost use Rattle.std.specs.Prelude.{◌≡◌, List, length};
    ghost use Rattle.version_order.specs.texts.Front.{elements_at};
    ghost use Rattle.version_rules.specs.grammar.MChunk.{mchunk_front, PlainMChunk};

    ghost Value = { List PlainMChunk };

    ghost view = { λ section. elements_at mchunk_front section.list.text.now };

    ghost invariant = { λ section. section.list.count
        ≡ length (elements_at mchunk_front section.list.text.now) };
}

impl<'a> SectionRef<'a> {
    /// Scans the section at the start of a text, and returns it with the rest.
    pub fn scan(i: &'a str) -> Option<(SectionRef<'a>, &'a str)>
        ensures { option_map (λ r. (r.0, r.1.now)) result ≡ dotted_front mchunk_front i.now }
    {
        let (list, rest) = Dotted::scan::<MessyChunk>(i)?;
        Some((SectionRef { list }, rest))
    }

    /// Returns the section with chunks of its own. Fails on allocation failure.
    pub fn build(&self, alloc: Global) -> Result<Vec<MChunk>, AllocError>
        ensures { IfOk result (λ chunks. map plain_mchunk chunks.items ≡ self.now) }
    {
        let count = self.list.count;
        self.list.build::<MessyChunk>(alloc, count)
    }
}

/// A scanned chunk of a messy version. Its text is part of the input.
#[derive(Clone, Copy)]
pub enum MChunkRef<'a> {
    /// Digits of a value below 2^32, and their text.
    Digits(u32, &'a str),
    /// A revision: the value of its digits, and the whole text.
    Rev(u32, &'a str),
    /// Any other text.
    Plain(&'a str),
}

impl<'a> MChunkRef<'a> {
    // Scans the chunk at the start of a text, and returns it with the rest.
    #[tactic(auto, unfolding(version_rules::specs::grammar::MChunk::mchunk_front))]
    fn scan(i: &'a str) -> Option<(MChunkRef<'a>, &'a str)>
        ensures { option_map (λ r. (plain_mchunk_ref r.0, r.1.now)) result ≡ mchunk_front i.now }
    {
        let (run, rest) = nonempty_run(i, Class::Alphanumeric)?;
        let chunk = if ends_chunk(rest) {
            MChunkRef::of(run)
        } else {
            MChunkRef::Plain(run)
        };
        Some((chunk, rest))
    }

    // The chunk of a run of letters and digits.
    #[tactic(auto, unfolding(version_rules::specs::grammar::MChunk::variant_of))]
    fn of(run: &'a str) -> MChunkRef<'a>
        ensures { plain_mchunk_ref result ≡ variant_of run.now }
    {
        if let Some(value) = value_of_digits(run) {
            return MChunkRef::Digits(value, run);
        }
        match value_of_revision(run) {
            Some(value) => MChunkRef::Rev(value, run),
            None => MChunkRef::Plain(run),
        }
    }

    // The chunk with a text of its own.
    fn build(self, alloc: Global) -> Result<MChunk, AllocError>
        ensures { IfOk result (λ chunk. plain_mchunk chunk ≡ plain_mchunk_ref self.entry) }
    {
        let copy = String::from_str(alloc, self.text())?;
        match self {
            MChunkRef::Digits(value, _) => Ok(MChunk::Digits(value, copy)),
            MChunkRef::Rev(value, _) => Ok(MChunk::Rev(value, copy)),
            MChunkRef::Plain(_) => Ok(MChunk::Plain(copy)),
        }
    }

    // The text, which is what the chunk prints.
    fn text(self) -> &'a str
        ensures { result.now ≡ mchunk_text (plain_mchunk_ref self.entry) }
    {
        match self {
            MChunkRef::Digits(_, text) | MChunkRef::Rev(_, text) | MChunkRef::Plain(text) => text,
        }
    }

    // The place of the variant in the order of declaration.
    fn rank(self) -> u8
        ensures { result ≡ mchunk_rank (plain_mchunk_ref self.entry) }
    {
        match self {
            MChunkRef::Digits(..) => 0,
            MChunkRef::Rev(..) => 1,
            MChunkRef::Plain(_) => 2,
        }
    }

    // The value beside the text, or 0 for a `Plain`.
    fn value(self) -> u32
        ensures { result ≡ mchunk_value (plain_mchunk_ref self.entry) }
    {
        match self {
            MChunkRef::Digits(value, _) | MChunkRef::Rev(value, _) => value,
            MChunkRef::Plain(_) => 0,
        }
    }

    // How two chunks compare, field by field.
    fn compare(self, other: MChunkRef<'_>) -> Ordering
        ensures { result
            ≡ mchunk_plain_cmp (plain_mchunk_ref self.entry) (plain_mchunk_ref other.entry) }
    {
        let kinds = self.rank().cmp(&other.rank());
        let values = kinds.then(self.value().cmp(&other.value()));
        values.then(self.text().cmp(other.text()))
    }
}
