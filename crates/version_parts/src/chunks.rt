//! The chunks of a general version, and its body: the chunks, and the last part after them.

ghost use Rattle.std.specs.Prelude.{◌≡◌, [], refl, IfOk, OnErr, Some};
ghost use Rattle.std.proofs.Common.{ap};
ghost use Rattle.std.specs.Cmp.{eq_by_cmp_equiv, on_equiv, on_per, on_total, partial_equiv_from_equiv, po};
ghost use Rattle.std.specs.{Option.option_map, Ordering.as_partial_cmp, Ordering.eq_by_cmp, Ordering.on};
ghost use Rattle.version_rules.specs.grammar.Body.{body_front, chunks_front, BodyOwns, release_text};
ghost use Rattle.version_rules.specs.{laws.Part.chunks_cmp_ties, laws.Part.chunks_cmp_total, laws.Part.release_total, laws.Part.releases_same, order.Parts.chunks_cmp, order.Parts.release_cmp};
ghost use Rattle.version_parts.specs.{Body.plain_chunks, Body.Reads, Body.release_fed, Last.plain_last, Last.plain_last_ref};
ghost use Rattle.version_order.specs.keys.Codes.{same_where_tied};

use crate::chunk::{Chunk, Part};
use crate::key::compare_part_lists;
use crate::last::{Last, LastRef};
use crate::lists::{compare_lists, copy_list, write_dotted};
use crate::scan::Dotted;
use serde::{Deserialize, Serialize};
use std::alloc::{AllocError, Global};
use std::cmp::Ordering;
use std::fmt;
use std::hash::{Hash, Hasher};
use std::marker::Model;

/// The chunks of a general version, before its last part.
#[derive(Debug, Drop, Serialize, Deserialize)]
pub struct Chunks(pub Vec<Chunk>);

impl Chunks {
    /// Parses one part or more at the start of a text, with dots between, and returns them with the rest. The list ends
    /// before a dot that no part follows. Returns None, without allocating, if no part parses. Fails on allocation
    /// failure.
    pub fn parse(alloc: Global, i: &str) -> Result<Option<(Chunks, &str)>, AllocError>
        ensures { Reads plain_chunks (λ _. Unit {0}) result (chunks_front i.now) }
    {
        let Some((list, rest)) = Dotted::scan::<Part>(i) else {
            return Ok(None);
        };
        Ok(Some((Chunks(list.build::<Part>(alloc, list.count)?), rest)))
    }

    /// Returns an empty list.
    pub fn default_in(alloc: Global) -> Chunks
        ensures { plain_chunks result ≡ [] }
    {
        Chunks(Vec::new(alloc))
    }

    /// Returns a copy. Fails on allocation failure.
    pub fn clone(&self, alloc: Global) -> Result<Chunks, AllocError>
        ensures { IfOk result (λ copy. plain_chunks copy ≡ plain_chunks self.now) }
    {
        Ok(Chunks(copy_list(alloc, self.0.as_slice())?))
    }
}

impl fmt::Display for Chunks {
    ghost output = { λ chunks. Some (release_text (plain_chunks chunks)) };

    fn fmt<W: fmt::Write>(&self, f: &mut fmt::Formatter<W>) -> fmt::Result {
        write_dotted(self.0.as_slice(), f)
    }
}

/// Equal chunk by chunk.
impl PartialEq for Chunks {
    ghost eq = { on plain_chunks (eq_by_cmp release_cmp) };

    ghost laws = { on_per plain_chunks (partial_equiv_from_equiv (eq_by_cmp_equiv release_total)) };

    fn eq(&self, other: &Chunks) -> bool {
        compare_lists(self.0.as_slice(), other.0.as_slice()).is_eq()
    }
}

impl Eq for Chunks {
    ghost laws = { on_equiv plain_chunks (eq_by_cmp_equiv release_total) };
}

impl Hash for Chunks {
    ghost hash_input = { λ chunks. release_fed (plain_chunks chunks) };

    ghost respects_eq = { λ a b tied. ap release_fed (same_where_tied releases_same tied) };

    fn hash<H: Hasher>(&self, state: &mut H) {
        self.0.hash(state);
    }
}

/// Compares as lists of parts: word < end of the list < number. Breaks ties chunk by chunk.
impl Ord for Chunks {
    ghost cmp = { on plain_chunks chunks_cmp };

    ghost total = { on_total plain_chunks chunks_cmp_total };

    ghost matches_partial_cmp = { λ a b. refl };

    ghost matches_eq = { λ a b. chunks_cmp_ties (plain_chunks a) (plain_chunks b) };

    fn cmp(&self, other: &Chunks) -> Ordering {
        let (a, b) = (self.0.as_slice(), other.0.as_slice());
        compare_part_lists(a, b).then_with(|| compare_lists(a, b))
    }
}

impl PartialOrd for Chunks {
    ghost partial_cmp = { as_partial_cmp (on plain_chunks chunks_cmp) };

    ghost laws = { po (on_total plain_chunks chunks_cmp_total)
        (λ a b. chunks_cmp_ties (plain_chunks a) (plain_chunks b)) };

    fn partial_cmp(&self, other: &Chunks) -> Option<Ordering> {
        Some(self.cmp(other))
    }
}

/// A scanned body of a general version. Its texts are parts of the input.
#[derive(Drop)]
pub struct BodyRef<'a> {
    list: Dotted<'a>,
}

impl<'a> Model for BodyRef<'a> {
    ghost use Rattle.version_rules.specs.grammar.Body.{PlainBody};

    ghost Value = { PlainBody };

    ghost use Rattle.version_parts.specs.Body.{scanned_body, IsScannedBody};

    ghost view = { λ body. scanned_body body.list };

    ghost invariant = { λ body. IsScannedBody body.list };
}

impl<'a> BodyRef<'a> {
    /// Scans the body at the start of a text, and returns it with the rest.
    #[inline(always)]
    pub fn scan(i: &'a str) -> Option<(BodyRef<'a>, &'a str)>
        ensures { option_map (λ r. (r.0, r.1.now)) result ≡ body_front i.now }
    {
        let (list, rest) = Dotted::scan::<Part>(i)?;
        Some((BodyRef { list }, rest))
    }

    /// Returns the last part.
    pub fn last(&self) -> LastRef<'a>
        ensures { plain_last_ref result ≡ self.now.1 }
    {
        match LastRef::scan(self.list.last) {
            Some((last, _)) => last,
            None => LastRef::Numeric(0),
        }
    }

    /// Returns the body with texts of its own. A body of one number does not allocate. Fails on allocation failure.
    pub fn build(&self, alloc: Global) -> Result<(Chunks, Last), AllocError>
        ensures ok { IfOk result (λ body. (plain_chunks body.0, plain_last body.1) ≡ self.now) }
        ensures err { OnErr result (BodyOwns self.now) }
    {
        let chunks = self.list.build::<Part>(alloc, self.list.count - 1)?;
        let last = self.last().build(alloc)?;
        Ok((Chunks(chunks), last))
    }
}
