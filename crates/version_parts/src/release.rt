//! Releases: a hyphen and the chunks after it, such as `-rc.1`.

ghost use Rattle.std.specs.Prelude.{◌≡◌, refl, length, IfOk, List, Some};
ghost use Rattle.std.proofs.Common.{ap};
ghost use Rattle.std.specs.Cmp.{eq_by_cmp_equiv, on_equiv, on_per, on_total, partial_equiv_from_equiv, po};
ghost use Rattle.std.specs.{Option.option_map, Ordering.as_partial_cmp, Ordering.eq_by_cmp, Ordering.on};
ghost use Rattle.version_rules.specs.{grammar.Body.release_front, grammar.Body.release_text, grammar.Chunk.chunk_front, grammar.Chunk.PlainChunk, laws.Part.release_total, laws.Part.releases_same};
ghost use Rattle.version_rules.specs.order.Parts.{release_bytes, release_cmp};
ghost use Rattle.version_order.specs.{keys.Codes.same_where_tied, texts.Front.elements_at};
ghost use Rattle.version_parts.specs.Body.{Reads, plain_release, release_fed};

use crate::chunk::{Chunk, ReleaseChunk};
use crate::key::{ItemsLeft, ListLeft};
use crate::lists::{compare_lists, copy_list, write_dotted};
use crate::scan::{Dotted, after_mark};
use serde::{Deserialize, Serialize};
use std::alloc::{AllocError, Global};
use std::cmp::Ordering;
use std::fmt;
use std::hash::{Hash, Hasher};
use std::marker::Model;

/// The chunks of a pre-release or a release, without the hyphen.
#[derive(Debug, Drop, Serialize, Deserialize)]
pub struct Release(pub Vec<Chunk>);

impl Release {
    /// Parses the release at the start of a text, and returns it with the rest: a hyphen, then chunks joined by dots.
    /// The list ends before a dot that no chunk follows. Returns None, without allocating, if no release parses. Fails
    /// on allocation failure.
    pub fn parse(alloc: Global, i: &str) -> Result<Option<(Release, &str)>, AllocError>
        ensures { Reads plain_release (λ _. Unit {0}) result (release_front i.now) }
    {
        let Some((piece, rest)) = ReleaseRef::scan(i) else {
            return Ok(None);
        };
        Ok(Some((piece.build(alloc)?, rest)))
    }

    /// Returns the chunks as items of a key, and the end of their list.
    #[tactic(auto, using(version_order::proofs::lemmas::Codes::ended))]
    pub fn left(&self) -> ListLeft<'_, ReleaseChunk>
        ensures { result ≡ release_bytes (plain_release self.now) }
    {
        ListLeft::of(ItemsLeft::of(self.0.as_slice()))
    }

    /// Returns a copy. Fails on allocation failure.
    pub fn clone(&self, alloc: Global) -> Result<Release, AllocError>
        ensures { IfOk result (λ copy. plain_release copy ≡ plain_release self.now) }
    {
        Ok(Release(copy_list(alloc, self.0.as_slice())?))
    }
}

impl fmt::Display for Release {
    ghost output = { λ release. Some (release_text (plain_release release)) };

    fn fmt<W: fmt::Write>(&self, f: &mut fmt::Formatter<W>) -> fmt::Result {
        write_dotted(self.0.as_slice(), f)
    }
}

impl PartialEq for Release {
    ghost eq = { on plain_release (eq_by_cmp release_cmp) };

    ghost laws = { on_per plain_release
        (partial_equiv_from_equiv (eq_by_cmp_equiv release_total)) };

    fn eq(&self, other: &Release) -> bool {
        self.cmp(other).is_eq()
    }
}

impl Eq for Release {
    ghost laws = { on_equiv plain_release (eq_by_cmp_equiv release_total) };
}

impl Hash for Release {
    ghost hash_input = { λ release. release_fed (plain_release release) };

    ghost respects_eq = { λ a b tied. ap release_fed (same_where_tied releases_same tied) };

    fn hash<H: Hasher>(&self, state: &mut H) {
        self.0.hash(state);
    }
}

/// Compares chunk by chunk: numbers by value, numbers before texts, texts by bytes. A prefix comes before the longer
/// release (SemVer 2.0, section 11).
impl Ord for Release {
    ghost cmp = { on plain_release release_cmp };

    ghost total = { on_total plain_release release_total };

    ghost matches_partial_cmp = { λ a b. refl };

    ghost matches_eq = { λ a b. refl };

    fn cmp(&self, other: &Release) -> Ordering {
        compare_lists(self.0.as_slice(), other.0.as_slice())
    }
}

impl PartialOrd for Release {
    ghost partial_cmp = { as_partial_cmp (on plain_release release_cmp) };

    ghost laws = { po (on_total plain_release release_total) (λ a b. refl) };

    fn partial_cmp(&self, other: &Release) -> Option<Ordering> {
        Some(self.cmp(other))
    }
}

/// A scanned release. Its chunks are parts of the input.
#[derive(Drop)]
pub struct ReleaseRef<'a> {
    list: Dotted<'a>,
}

impl<'a> Model for ReleaseRef<'a> {
    ghost Value = { List PlainChunk };

    ghost view = { λ r. elements_at chunk_front r.list.text.now };

    ghost invariant = { λ r. r.list.count ≡ length (elements_at chunk_front r.list.text.now) };
}

impl<'a> ReleaseRef<'a> {
    /// Scans the release at the start of a text, and returns it with the rest.
    #[inline(always)]
    pub fn scan(i: &'a str) -> Option<(ReleaseRef<'a>, &'a str)>
        ensures { option_map (λ r. (r.0, r.1.now)) result ≡ release_front i.now }
    {
        let (list, rest) = Dotted::scan::<ReleaseChunk>(after_mark(i, b'-')?)?;
        Some((ReleaseRef { list }, rest))
    }

    /// Returns the release with chunks of its own. Fails on allocation failure.
    pub fn build(&self, alloc: Global) -> Result<Release, AllocError>
        ensures { IfOk result (λ release. plain_release release ≡ self.now) }
    {
        let count = self.list.count;
        Ok(Release(self.list.build::<ReleaseChunk>(alloc, count)?))
    }
}
