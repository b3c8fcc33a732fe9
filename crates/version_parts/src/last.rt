//! The last part of a general version, decomposed: `3`, `3rc1`, `3p` or any other text.

ghost use Rattle.std.specs.Prelude.{◌≡◌, refl, IfErr, IfOk, IfSome, OnErr, Some};
ghost use Rattle.version_rules.specs.grammar.Last as plain;
ghost use Rattle.std.proofs.Common.{ap};
ghost use Rattle.std.specs.Cmp.{eq_by_cmp_equiv, on_equiv, on_per, on_total, partial_equiv_from_equiv, po};
ghost use Rattle.std.specs.{Option.option_map, Ordering.as_partial_cmp, Ordering.eq_by_cmp, Ordering.on};
ghost use Rattle.version_rules.specs.grammar.Last.{first_number, last_of, last_text, numbered_last, IsNumbered, LastOwns, PlainLast};
ghost use Rattle.version_rules.specs.{grammar.Chunk.part_front, key.PartKey.part_bytes, key.PartKey.part_key, laws.Last.last_total, laws.Last.lasts_same, laws.Part.last_cmp_ties, laws.Part.last_cmp_total};
ghost use Rattle.version_rules.specs.order.Parts.{last_plain_cmp, last_rank, last_cmp};
ghost use Rattle.version_parts.specs.{Chunk.plain_chunk, Last.last_fed, Last.plain_last, Last.plain_last_ref};
ghost use Rattle.version_order.specs.{keys.Codes.same_where_tied, texts.Front.map_value};

use crate::chunk::{Chunk, ChunkRef};
use crate::key::{PartText, PieceBytes, compare_parts};
use crate::lists::ListItem;
use crate::scan::{nonempty_run, unsigned};
use serde::{Deserialize, Serialize};
use std::alloc::{AllocError, Global};
use std::cmp::Ordering;
use std::fmt;
use std::hash::{Hash, Hasher};
use version_order::Class;

/// The last part of a general version.
#[derive(Debug, Drop, Serialize, Deserialize)]
pub enum Last {
    /// A number without leading zeros.
    Numeric(u32),
    /// A number, letters and a number, such as the release candidate `3rc1`.
    Rc(u32, String, u32),
    /// A number and letters, such as `3p`.
    Post(u32, String),
    /// Any other text.
    Alphanum(String),
}

impl Last {
    /// Decomposes a part that stands last (docs/GRAMMAR.md, "The grammar"). Returns `Numeric` for a number, `Rc` or
    /// `Post` for a numeral and letters with or without a numeral after them, and `Alphanum` for any other text.
    /// Allocates for `Rc` and `Post` alone. On allocation failure, the error holds the chunk passed in.
    pub fn from_chunk(alloc: Global, chunk: Chunk) -> Result<Last, (Chunk, AllocError)>
        ensures ok { IfOk result (λ last. plain_last last ≡ last_of (plain_chunk chunk)) }
        ensures same { IfErr result (λ refused. refused.0 ≡ chunk) }
        ensures err { OnErr result (IsNumbered (last_of (plain_chunk chunk))) }
    {
        let text = match chunk {
            Chunk::Numeric(number) => return Ok(Last::Numeric(number)),
            Chunk::Alphanum(text) => text,
        };
        let built = match LastRef::numbered(text.as_str()) {
            Some(piece) => piece.build(alloc),
            None => return Ok(Last::Alphanum(text)),
        };
        match built {
            Ok(last) => Ok(last),
            Err(refused) => Err((Chunk::Alphanum(text), refused)),
        }
    }

    /// Returns a copy. A number does not allocate. Fails on allocation failure.
    pub fn clone(&self, alloc: Global) -> Result<Last, AllocError>
        ensures ok { IfOk result (λ copy. plain_last copy ≡ plain_last self.now) }
        ensures err { OnErr result (LastOwns (plain_last self.now)) }
    {
        self.lent().build(alloc)
    }

    /// Returns the first number of a `Numeric`, `Rc` or `Post`, or None.
    pub fn first_number(&self) -> Option<u32>
        ensures { result ≡ first_number (plain_last self.now) }
    {
        self.lent().first_number()
    }

    /// Sets a piece to the bytes of the last part, as a part.
    #[tactic(auto, using(version_rules::proofs::lemmas::Key::plain_number))]
    pub fn set_piece<'a>(&'a self, piece: &mut PieceBytes<'a>)
        ensures { piece.new ≡ part_bytes (Some (part_key (last_text (plain_last self.now)))) }
    {
        match self {
            Last::Numeric(number) => piece.set_plain_part(*number),
            _ => piece.set_part(self.part_text()),
        }
    }

    /// Returns the bytes of the printed text.
    pub fn part_text(&self) -> PartText<'_>
        ensures { result ≡ last_text (plain_last self.now) }
    {
        match self {
            Last::Numeric(number) => PartText::number(*number),
            Last::Rc(first, text, second) => PartText::between(*first, text.as_str(), *second),
            Last::Post(number, text) => PartText::numbered(*number, text.as_str()),
            Last::Alphanum(text) => PartText::text(text.as_str()),
        }
    }

    // The same last part with its text borrowed.
    fn lent(&self) -> LastRef<'_>
        ensures { plain_last_ref result ≡ plain_last self.now }
    {
        match self {
            Last::Numeric(number) => LastRef::Numeric(*number),
            Last::Rc(first, text, second) => LastRef::Rc(*first, text.as_str(), *second),
            Last::Post(number, text) => LastRef::Post(*number, text.as_str()),
            Last::Alphanum(text) => LastRef::Alphanum(text.as_str()),
        }
    }
}

/// The default is `0`.
impl Default for Last {
    ghost is_default = { λ last. plain_last last ≡ plain.Numeric 0 };

    fn default() -> Last {
        Last::Numeric(0)
    }
}

impl fmt::Display for Last {
    ghost output = { λ last. Some (last_text (plain_last last)) };

    fn fmt<W: fmt::Write>(&self, f: &mut fmt::Formatter<W>) -> fmt::Result {
        match self {
            Last::Numeric(number) => write!(f, "{number}"),
            Last::Rc(first, text, second) => write!(f, "{first}{text}{second}"),
            Last::Post(number, text) => write!(f, "{number}{text}"),
            Last::Alphanum(text) => f.write_str(text.as_str()),
        }
    }
}

/// Equal in every field.
impl PartialEq for Last {
    ghost eq = { on plain_last (eq_by_cmp last_plain_cmp) };

    ghost laws = { on_per plain_last (partial_equiv_from_equiv (eq_by_cmp_equiv last_total)) };

    fn eq(&self, other: &Last) -> bool {
        self.compare(other).is_eq()
    }
}

impl Eq for Last {
    ghost laws = { on_equiv plain_last (eq_by_cmp_equiv last_total) };
}

impl Hash for Last {
    ghost hash_input = { λ last. last_fed (plain_last last) };

    ghost respects_eq = { λ a b tied. ap last_fed (same_where_tied lasts_same tied) };

    fn hash<H: Hasher>(&self, state: &mut H) {
        state.write_u8(self.lent().rank());
        match self {
            Last::Numeric(number) => number.hash(state),
            Last::Rc(first, text, second) => {
                first.hash(state);
                text.as_str().hash(state);
                second.hash(state);
            }
            Last::Post(number, text) => {
                number.hash(state);
                text.as_str().hash(state);
            }
            Last::Alphanum(text) => text.as_str().hash(state),
        }
    }
}

/// Compares by the printed texts as parts, then field by field.
impl Ord for Last {
    ghost cmp = { on plain_last last_cmp };

    ghost total = { on_total plain_last last_cmp_total };

    ghost matches_partial_cmp = { λ a b. refl };

    ghost matches_eq = { λ a b. last_cmp_ties (plain_last a) (plain_last b) };

    fn cmp(&self, other: &Last) -> Ordering {
        compare_parts(self.part_text(), other.part_text()).then_with(|| self.compare(other))
    }
}

impl PartialOrd for Last {
    ghost partial_cmp = { as_partial_cmp (on plain_last last_cmp) };

    ghost laws = { po (on_total plain_last last_cmp_total)
        (λ a b. last_cmp_ties (plain_last a) (plain_last b)) };

    fn partial_cmp(&self, other: &Last) -> Option<Ordering> {
        Some(self.cmp(other))
    }
}

impl ListItem for Last {
    ghost Plain = { PlainLast };

    ghost plain = { plain_last };

    ghost text = { last_text };

    ghost plain_cmp = { last_plain_cmp };

    ghost prints = { λ last. refl };

    fn copy(&self, alloc: Global) -> Result<Last, AllocError> {
        self.clone(alloc)
    }

    // Compares variants, then fields, in the order of their declaration.
    fn compare(&self, other: &Last) -> Ordering {
        self.lent().compare(other.lent())
    }
}

/// A scanned last part. Its text is part of the input.
#[derive(Clone, Copy)]
pub enum LastRef<'a> {
    Numeric(u32),
    Rc(u32, &'a str, u32),
    Post(u32, &'a str),
    Alphanum(&'a str),
}

impl<'a> LastRef<'a> {
    /// Scans the part at the start of a text, and returns it as a last part with the rest.
    #[tactic(auto, using(crate::proofs::lemmas::Scans::classes_with_digits))]
    pub fn scan(i: &'a str) -> Option<(LastRef<'a>, &'a str)>
        ensures { option_map (λ r. (plain_last_ref r.0, r.1.now)) result
            ≡ map_value last_of (part_front i.now) }
    {
        let (part, rest) = ChunkRef::scan(i, Class::Alphanumeric)?;
        let last = match part {
            ChunkRef::Numeric(number) => LastRef::Numeric(number),
            ChunkRef::Alphanum(text) => {
                LastRef::numbered(text).unwrap_or(LastRef::Alphanum(text))
            }
        };
        Some((last, rest))
    }

    // The last part of a text that is a numeral and letters, with or without a numeral after them.
    #[tactic(auto, unfolding(version_rules::specs::grammar::Last::numbered_last))]
    fn numbered(text: &'a str) -> Option<LastRef<'a>>
        ensures value { option_map plain_last_ref result ≡ numbered_last text.now }
        ensures numbered { IfSome result (λ piece. IsNumbered (plain_last_ref piece)) }
    {
        let (number, rest) = unsigned(text)?;
        let (letters, rest) = nonempty_run(rest, Class::Letter)?;
        if rest.is_empty() {
            return Some(LastRef::Post(number, letters));
        }
        let (last, rest) = unsigned(rest)?;
        if rest.is_empty() {
            Some(LastRef::Rc(number, letters, last))
        } else {
            None
        }
    }

    /// Returns the last part with a text of its own. A number does not allocate. Fails on allocation failure.
    pub fn build(self, alloc: Global) -> Result<Last, AllocError>
        ensures ok { IfOk result (λ last. plain_last last ≡ plain_last_ref self.entry) }
        ensures err { OnErr result (LastOwns (plain_last_ref self.entry)) }
    {
        match self {
            LastRef::Numeric(number) => Ok(Last::Numeric(number)),
            LastRef::Rc(first, text, second) => {
                Ok(Last::Rc(first, String::from_str(alloc, text)?, second))
            }
            LastRef::Post(number, text) => Ok(Last::Post(number, String::from_str(alloc, text)?)),
            LastRef::Alphanum(text) => Ok(Last::Alphanum(String::from_str(alloc, text)?)),
        }
    }

    /// Returns the first number of a `Numeric`, `Rc` or `Post`, or None.
    pub fn first_number(self) -> Option<u32>
        ensures { result ≡ first_number (plain_last_ref self.entry) }
    {
        match self {
            LastRef::Numeric(number) | LastRef::Rc(number, _, _) | LastRef::Post(number, _) => {
                Some(number)
            }
            LastRef::Alphanum(_) => None,
        }
    }

    /// Compares variants, then fields, in the order of their declaration.
    pub fn compare(self, other: LastRef<'_>) -> Ordering
        ensures { result ≡ last_plain_cmp (plain_last_ref self.entry) (plain_last_ref other.entry) }
    {
        match (self, other) {
            (LastRef::Numeric(a), LastRef::Numeric(b)) => a.cmp(&b),
            (LastRef::Rc(a, s, b), LastRef::Rc(c, t, d)) => {
                a.cmp(&c).then(s.cmp(t)).then(b.cmp(&d))
            }
            (LastRef::Post(a, s), LastRef::Post(c, t)) => a.cmp(&c).then(s.cmp(t)),
            (LastRef::Alphanum(s), LastRef::Alphanum(t)) => s.cmp(t),
            (a, b) => a.rank().cmp(&b.rank()),
        }
    }

    // The place of the variant among the four.
    fn rank(self) -> u8
        ensures { result ≡ last_rank (plain_last_ref self.entry) }
    {
        match self {
            LastRef::Numeric(_) => 0,
            LastRef::Rc(_, _, _) => 1,
            LastRef::Post(_, _) => 2,
            LastRef::Alphanum(_) => 3,
        }
    }
}
