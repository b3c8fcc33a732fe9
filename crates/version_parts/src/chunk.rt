//! Chunks: the pieces between the dots of a release or of a general version.

ghost use Rattle.std.specs.Prelude.{◌≡◌, refl, Some, IfOk, IfSome, OnErr};
ghost use Rattle.std.specs.{Char.is_ascii_alphanumeric, Cmp.eq_by_cmp_equiv, Cmp.on_equiv, Cmp.on_per, Cmp.partial_equiv_from_equiv, Option.option_map, Ordering.eq_by_cmp, Ordering.on};
ghost use Rattle.std.proofs.Common.{ap};
ghost use Rattle.version_order.specs.{keys.Codes.same_where_tied, texts.Bytes.is_identifier_byte, texts.Bytes.HasDigits, texts.Class.contains, texts.Class.IsAsciiClass};
ghost use Rattle.version_rules.specs.grammar.Chunk.{after_letter, chunk_front, chunk_front_of, chunk_text, digits_behind_letter, lenient_digits, number_of, part_front, ChunkOwns, PlainChunk, unsigned_front};
ghost use Rattle.version_rules.specs.{laws.Front.chunk_consumes, laws.Part.chunk_total, laws.Part.chunks_same, order.Parts.chunk_cmp};
ghost use Rattle.version_parts.specs.Chunk.{chunk_fed, chunk_of_text, plain_chunk, plain_chunk_ref, IsChunkText};
ghost use Rattle.version_parts.specs.Body.{Reads};

use crate::key::PartText;
use crate::lists::ListItem;
use crate::scan::{Element, numeral_of_run, split_run, unsigned, value_of_numeral};
use serde::{Deserialize, Serialize};
use std::alloc::{AllocError, Global};
use std::cmp::Ordering;
use std::fmt;
use std::hash::{Hash, Hasher};
use version_order::Class;

/// A piece between dots: `rc` and `1` of the release `-rc.1` (SemVer 2.0, section 9), or `1` and `2a` of the general
/// version `1.2a.3`.
#[derive(Debug, Drop, Serialize, Deserialize)]
pub enum Chunk {
    /// A number without leading zeros.
    Numeric(u32),
    /// A text that is not all digits: letters, digits and, in a release, hyphens.
    Alphanum(String),
}

impl Chunk {
    /// Parses the chunk of a release at the start of a text, and returns it with the rest. The longest run of letters,
    /// digits and hyphens is an `Alphanum`. If it is all digits, the chunk is a `Numeric` of the number that
    /// [`unsigned`](crate::parsers::unsigned) parses there. Returns None if the run is empty or `unsigned` returns
    /// None. Only the text of an `Alphanum` is allocated. Fails on allocation failure.
    #[tactic(auto, using(crate::proofs::lemmas::Scans::classes_with_digits))]
    pub fn parse(alloc: Global, i: &str) -> Result<Option<(Chunk, &str)>, AllocError>
        ensures { Reads plain_chunk ChunkOwns result (chunk_front i.now) }
    {
        read_chunk(alloc, i, Class::Identifier)
    }

    /// Parses the part of a general version at the start of a text, and returns it with the rest. It parses as
    /// [`Chunk::parse`] does, but the run has no hyphens.
    #[tactic(auto, using(crate::proofs::lemmas::Scans::classes_with_digits))]
    pub fn parse_without_hyphens(
        alloc: Global,
        i: &str,
    ) -> Result<Option<(Chunk, &str)>, AllocError>
        ensures { Reads plain_chunk ChunkOwns result (part_front i.now) }
    {
        read_chunk(alloc, i, Class::Alphanumeric)
    }

    /// Returns the number of a `Numeric`, or None.
    pub fn single_digit(&self) -> Option<u32>
        ensures { result ≡ number_of (plain_chunk self.now) }
    {
        match self {
            Chunk::Numeric(number) => Some(*number),
            Chunk::Alphanum(_) => None,
        }
    }

    /// Returns the number of a `Numeric`, or the number that [`unsigned`](crate::parsers::unsigned) parses at the start
    /// of an `Alphanum`, or None.
    pub fn single_digit_lenient(&self) -> Option<u32>
        ensures { result ≡ lenient_digits (plain_chunk self.now) }
    {
        match self {
            Chunk::Numeric(number) => Some(*number),
            Chunk::Alphanum(text) => front_number(text.as_str()),
        }
    }

    /// Returns the number of a `Numeric`, or the number that `unsigned` parses after the first byte of an `Alphanum` if
    /// that byte is a letter, as 23 of `r23`, or None.
    pub fn single_digit_lenient_post(&self) -> Option<u32>
        ensures { result ≡ digits_behind_letter (plain_chunk self.now) }
    {
        match self {
            Chunk::Numeric(number) => Some(*number),
            Chunk::Alphanum(text) => front_number(after_letter(text.as_str())?),
        }
    }

    /// Returns a copy. Only the text of an `Alphanum` is allocated. Fails on allocation failure.
    pub fn clone(&self, alloc: Global) -> Result<Chunk, AllocError>
        ensures ok { IfOk result (λ copy. plain_chunk copy ≡ plain_chunk self.now) }
        ensures err { OnErr result (ChunkOwns (plain_chunk self.now)) }
    {
        self.lent().build(alloc)
    }

    /// Returns the same chunk with its text borrowed.
    pub fn lent(&self) -> ChunkRef<'_>
        ensures { plain_chunk_ref result ≡ plain_chunk self.now }
    {
        match self {
            Chunk::Numeric(number) => ChunkRef::Numeric(*number),
            Chunk::Alphanum(text) => ChunkRef::Alphanum(text.as_str()),
        }
    }
}

// The number that `unsigned` parses at the start of a text.
fn front_number(text: &str) -> Option<u32>
    ensures { result ≡ option_map (λ p. p.0) (unsigned_front text.now) }
{
    let (number, _) = unsigned(text)?;
    Some(number)
}

impl fmt::Display for Chunk {
    ghost output = { λ chunk. Some (chunk_text (plain_chunk chunk)) };

    fn fmt<W: fmt::Write>(&self, f: &mut fmt::Formatter<W>) -> fmt::Result {
        match self {
            Chunk::Numeric(number) => write!(f, "{number}"),
            Chunk::Alphanum(text) => f.write_str(text.as_str()),
        }
    }
}

impl PartialEq for Chunk {
    ghost eq = { on plain_chunk (eq_by_cmp chunk_cmp) };

    ghost laws = { on_per plain_chunk (partial_equiv_from_equiv (eq_by_cmp_equiv chunk_total)) };

    fn eq(&self, other: &Chunk) -> bool {
        self.compare(other).is_eq()
    }
}

impl Eq for Chunk {
    ghost laws = { on_equiv plain_chunk (eq_by_cmp_equiv chunk_total) };
}

impl Hash for Chunk {
    ghost hash_input = { λ chunk. chunk_fed (plain_chunk chunk) };

    ghost respects_eq = { λ a b tied. ap chunk_fed (same_where_tied chunks_same tied) };

    fn hash<H: Hasher>(&self, state: &mut H) {
        match self {
            Chunk::Numeric(number) => {
                state.write_u8(0);
                number.hash(state);
            }
            Chunk::Alphanum(text) => {
                state.write_u8(1);
                text.as_str().hash(state);
            }
        }
    }
}

// Parses the chunk at the start of a text, and returns it with the rest. A run has bytes of the class.
fn read_chunk(alloc: Global, i: &str, class: Class) -> Result<Option<(Chunk, &str)>, AllocError>
    requires digits { HasDigits (contains class) }
    requires ascii { IsAsciiClass class }
    ensures { Reads plain_chunk ChunkOwns result (chunk_front_of (contains class) i.now) }
{
    let Some((piece, rest)) = ChunkRef::scan(i, class) else {
        return Ok(None);
    };
    Ok(Some((piece.build(alloc)?, rest)))
}

// The text after its first byte, if that byte is a letter.
fn after_letter(text: &str) -> Option<&str>
    ensures { option_map (λ r. r.now) result ≡ after_letter text.now }
{
    match text.as_bytes() {
        [first, ..] if first.is_ascii_alphabetic() => Some(text.split_at(1).1),
        _ => None,
    }
}

/// A chunk with a borrowed text. The text of a scanned chunk is part of the input.
#[derive(Clone, Copy)]
pub enum ChunkRef<'a> {
    /// A number without leading zeros.
    Numeric(u32),
    /// A text that is not all digits.
    Alphanum(&'a str),
}

impl<'a> ChunkRef<'a> {
    // Scans the chunk at the start of a text, and returns it with the rest. A run has bytes of the class.
    pub(crate) fn scan(i: &'a str, class: Class) -> Option<(ChunkRef<'a>, &'a str)>
        requires digits { HasDigits (contains class) }
        requires ascii { IsAsciiClass class }
        ensures { option_map (λ r. (plain_chunk_ref r.0, r.1.now)) result
            ≡ chunk_front_of (contains class) i.now }
    {
        match ChunkText::scan(i, class)? {
            (ChunkText::Numeral(digits), rest) => {
                Some((ChunkRef::Numeric(value_of_numeral(digits)), rest))
            }
            (ChunkText::Alphanum(text), rest) => Some((ChunkRef::Alphanum(text), rest)),
        }
    }

    /// Returns the bytes of the printed text.
    pub fn part_text(self) -> PartText<'a>
        ensures { result ≡ chunk_text (plain_chunk_ref self.entry) }
    {
        match self {
            ChunkRef::Numeric(number) => PartText::number(number),
            ChunkRef::Alphanum(text) => PartText::text(text),
        }
    }

    // The chunk with a text of its own. A number does not allocate.
    pub(crate) fn build(self, alloc: Global) -> Result<Chunk, AllocError>
        ensures ok { IfOk result (λ chunk. plain_chunk chunk ≡ plain_chunk_ref self.entry) }
        ensures err { OnErr result (ChunkOwns (plain_chunk_ref self.entry)) }
    {
        match self {
            ChunkRef::Numeric(number) => Ok(Chunk::Numeric(number)),
            ChunkRef::Alphanum(text) => Ok(Chunk::Alphanum(String::from_str(alloc, text)?)),
        }
    }

    /// Returns the number of a `Numeric`, or None.
    pub fn number(self) -> Option<u32>
        ensures { result ≡ number_of (plain_chunk_ref self.entry) }
    {
        match self {
            ChunkRef::Numeric(number) => Some(number),
            ChunkRef::Alphanum(_) => None,
        }
    }

    // The order of chunks within a release: numbers by value, numbers < texts, texts by bytes (SemVer 2.0, section 11).
    fn compare(self, other: ChunkRef<'_>) -> Ordering
        ensures { result ≡ chunk_cmp (plain_chunk_ref self.entry) (plain_chunk_ref other.entry) }
    {
        match (self, other) {
            (ChunkRef::Numeric(a), ChunkRef::Numeric(b)) => a.cmp(&b),
            (ChunkRef::Numeric(_), ChunkRef::Alphanum(_)) => Ordering::Less,
            (ChunkRef::Alphanum(_), ChunkRef::Numeric(_)) => Ordering::Greater,
            (ChunkRef::Alphanum(a), ChunkRef::Alphanum(b)) => a.cmp(b),
        }
    }
}

// A scanned chunk by its text: the digits of a numeral, or another run.
#[derive(Clone, Copy)]
pub(crate) enum ChunkText<'a> {
    Numeral(&'a str),
    Alphanum(&'a str),
}

impl<'a> ChunkText<'a> {
    // Scans the chunk at the start of a text, and returns it with the rest. A run has bytes of the class, which has all
    // digits.
    #[inline(always)]
    pub(crate) fn scan(i: &'a str, class: Class) -> Option<(ChunkText<'a>, &'a str)>
        requires digits { HasDigits (contains class) }
        requires ascii { IsAsciiClass class }
        ensures chunk { option_map (λ r. (chunk_of_text r.0, r.1.now)) result
            ≡ chunk_front_of (contains class) i.now }
        ensures numeral { IfSome result (λ r. IsChunkText r.0) }
    {
        let (digits, behind) = split_run(i, Class::Digit);
        let (_, rest) = split_run(behind, class);
        if rest.len() < behind.len() {
            let (run, rest) = i.split_at(i.len() - rest.len());
            return Some((ChunkText::Alphanum(run), rest));
        }
        match numeral_of_run(i, digits, behind) {
            Some((digits, rest)) => Some((ChunkText::Numeral(digits), rest)),
            None => None,
        }
    }
}

// The rest after the chunk at the start of a text. A run has bytes of the class, which has all digits.
#[inline(always)]
fn skip_chunk(i: &str, class: Class) -> Option<&str>
    requires digits { HasDigits (contains class) }
    requires ascii { IsAsciiClass class }
    ensures { option_map (λ r. r.now) result
        ≡ option_map (λ p. p.1) (chunk_front_of (contains class) i.now) }
{
    Some(ChunkText::scan(i, class)?.1)
}

impl ListItem for Chunk {
    ghost Plain = { PlainChunk };

    ghost plain = { plain_chunk };

    ghost text = { chunk_text };

    ghost plain_cmp = { chunk_cmp };

    ghost prints = { λ chunk. refl };

    fn copy(&self, alloc: Global) -> Result<Chunk, AllocError> {
        self.clone(alloc)
    }

    fn compare(&self, other: &Chunk) -> Ordering {
        self.lent().compare(other.lent())
    }
}

/// The chunks of a release, as the elements of a dotted list.
pub struct ReleaseChunk;

impl Element for ReleaseChunk {
    type Item = Chunk;

    ghost Plain = { PlainChunk };

    ghost plain = { plain_chunk };

    ghost front = { chunk_front };

    ghost owns = { ChunkOwns };

    ghost consumes = { chunk_consumes is_identifier_byte };

    #[tactic(auto, using(crate::proofs::lemmas::Scans::classes_with_digits))]
    fn skip(i: &str) -> Option<&str> {
        skip_chunk(i, Class::Identifier)
    }

    fn read(alloc: Global, i: &str) -> Result<Option<(Chunk, &str)>, AllocError> {
        Chunk::parse(alloc, i)
    }
}

/// The parts of a general version, as the elements of a dotted list.
pub struct Part;

impl Element for Part {
    type Item = Chunk;

    ghost Plain = { PlainChunk };

    ghost plain = { plain_chunk };

    ghost front = { part_front };

    ghost owns = { ChunkOwns };

    ghost consumes = { chunk_consumes is_ascii_alphanumeric };

    #[tactic(auto, using(crate::proofs::lemmas::Scans::classes_with_digits))]
    fn skip(i: &str) -> Option<&str> {
        skip_chunk(i, Class::Alphanumeric)
    }

    fn read(alloc: Global, i: &str) -> Result<Option<(Chunk, &str)>, AllocError> {
        Chunk::parse_without_hyphens(alloc, i)
    }
}
