//! The parts of a general version, one after another.

ghost use Rattle.std.specs.Prelude.{◌≡◌};
ghost use Rattle.version_rules.specs.key.PartKey.{part_key};
ghost use Rattle.versions.specs.Version.{first_part, more_parts};

use std::cmp::Ordering;
use version_parts::key::{PartText, compare_parts};
use version_parts::{Chunk, Last};
use version_rules::Parts;

// Chunks, and then a last part.
#[derive(Clone, Copy)]
pub(crate) struct BodyParts<'a> {
    pub(crate) chunks: &'a [Chunk],
    pub(crate) last: &'a Last,
}

impl<'a> BodyParts<'a> {
    // Returns the printed text of the first part.
    pub(crate) fn first(self) -> PartText<'a>
        ensures { part_key result ≡ first_part self.entry }
    {
        match self.chunks.first() {
            Some(chunk) => chunk.lent().part_text(),
            None => self.last.part_text(),
        }
    }
}

/// Compares parts by their printed texts.
impl<'a> Parts for BodyParts<'a> {
    ghost first = { first_part };

    ghost more = { more_parts };

    fn compare_first(self, other: BodyParts<'a>) -> Ordering {
        compare_parts(self.first(), other.first())
    }

    #[tactic(auto, using(version_rules::proofs::lemmas::Matching::zero_tied))]
    fn begins_with_zero(self) -> bool {
        compare_parts(self.first(), PartText::number(0)).is_eq()
    }

    fn rest(self) -> Option<BodyParts<'a>> {
        let (_, chunks) = self.chunks.split_first()?;
        Some(BodyParts {
            chunks,
            last: self.last,
        })
    }
}
