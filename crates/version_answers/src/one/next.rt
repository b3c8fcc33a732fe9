//! The command `next`: the version that comes next after another.

ghost use Rattle.std.specs.Prelude.{◌≡◌, false, string_bytes, IfOk, IsTrue, MatchOption};
ghost use Rattle.std.specs.Option.{option_map};
ghost use Rattle.version_answers.specs.One.{IsNextBy, NoNextBy, WritesNext, Adds};
ghost use Rattle.version_rules.specs.grammar.Versioning.{versioning_text, PlainVersioning};
ghost use Rattle.version_texts.specs.VersioningRef.{plain_versioning_ref};

use crate::pieces::add_pieces;
use std::alloc::{AllocError, Global};
use version_tasks::{next_of, next_pre, next_release};
use version_texts::VersioningRef;

/// Which version is asked for after another.
#[derive(Clone, Copy, Debug)]
pub enum Step<'w> {
    /// The next at a place, counted from 0.
    Place(usize),
    /// The next release: the one at the last place.
    Release,
    /// The next pre-release of this word, or without one of the version's own.
    Pre(Option<&'w str>),
}

/// Adds the line with what stood before a version, and the version that comes next, and returns true; or adds nothing
/// and returns false if none comes next.
pub fn add_next(
    alloc: Global,
    before: &[u8],
    version: &VersioningRef<'_>,
    step: Step<'_>,
    end: u8,
    output: &mut Vec<u8>,
) -> Result<bool, AllocError>
    ensures { IfOk result (λ found. Adds
        (WritesNext end before.now (plain_versioning_ref version.now) step.entry found)
        output.old.items output.new.items) }
{
    match next_text(alloc, version, step)? {
        Some(text) => {
            add_pieces(output, &[before, text.as_bytes(), &[end]])?;
            Ok(true)
        }
        None => Ok(false),
    }
}

// Returns the text of the version that comes next, if one does.
fn next_text(
    alloc: Global,
    version: &VersioningRef<'_>,
    step: Step<'_>,
) -> Result<Option<String>, AllocError>
    ensures { IfOk result (λ found. MatchOption found
        (NoNextBy step.entry (plain_versioning_ref version.now))
        (λ text. (next : PlainVersioning) × IsNextBy step.entry (plain_versioning_ref version.now) next
        × (string_bytes text ≡ versioning_text next))) }
{
    match step {
        Step::Place(place) => match next_of(version, place) {
            Some(next) => Ok(Some(next.to_string(alloc)?)),
            None => Ok(None),
        },
        Step::Release => match next_release(version) {
            Some(next) => Ok(Some(next.to_string(alloc)?)),
            None => Ok(None),
        },
        Step::Pre(word) => match next_pre(version, bytes_of(word)) {
            Some(next) => Ok(Some(next.to_string(alloc)?)),
            None => Ok(None),
        },
    }
}

/// Returns whether a version comes next to another.
pub(crate) fn has_next(version: &VersioningRef<'_>, step: Step<'_>) -> bool
    ensures some { IsTrue result → (next : PlainVersioning) × IsNextBy step.entry (plain_versioning_ref version.now) next }
    ensures none { result ≡ false → NoNextBy step.entry (plain_versioning_ref version.now) }
{
    match step {
        Step::Place(place) => next_of(version, place).is_some(),
        Step::Release => next_release(version).is_some(),
        Step::Pre(word) => next_pre(version, bytes_of(word)).is_some(),
    }
}

// Returns the bytes of a word, if there is one.
fn bytes_of(word: Option<&str>) -> Option<&[u8]>
    ensures { option_map (λ bytes. bytes.now) result ≡ option_map (λ word. word.now) word.entry }
{
    match word {
        Some(word) => Some(word.as_bytes()),
        None => None,
    }
}
