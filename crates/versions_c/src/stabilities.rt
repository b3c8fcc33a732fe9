//! How stable versions are.

ghost use Rattle.std.specs.Prelude.{◌≡◌, ◌≢◌, ◌<◌, ◌+◌, ℕ, length, pos, slice_index};
ghost use Rattle.version_rules.specs.grammar.Versioning.{versioning_of};
ghost use Rattle.version_tasks.specs.Stability.{rank};
ghost use Rattle.versions_c.specs.{Newest.stability_number, Written.text_at, Written.AreOffsets};

use crate::offsets::{answer_each, are_offsets};
use crate::status::{BAD_OFFSETS, OK};
use version_tasks::{Stability, stability_of};
use version_texts::VersioningRef;

/// A snapshot or a nightly build.
pub const DEV: u8 = 1;
/// An early preview.
pub const ALPHA: u8 = 2;
/// A later preview.
pub const BETA: u8 = 3;
/// A candidate for release.
pub const RC: u8 = 4;
/// A release.
pub const STABLE: u8 = 5;

/// How stable a text is.
#[unsafe(no_mangle)]
pub extern "C" fn versions_stability(text: &[u8]) -> i32
    ensures { result ≡ pos (stability_number (versioning_of text.now)) }
{
    stability_number(text) as i32
}

/// How stable each text is.
#[unsafe(no_mangle)]
pub extern "C" fn versions_stabilities(texts: &[u8], offsets: &[u64], stabilities: &mut [u8]) -> i32
    ensures ok { AreOffsets offsets.now (length texts.now) (length stabilities.old)
        → result ≡ OK }
    ensures stabilities { result ≡ OK → (i : ℕ) → i < length stabilities.old
        → slice_index stabilities.new i
        ≡ stability_number (versioning_of (text_at texts.now offsets.now i)) }
    ensures bad { ¬ (AreOffsets offsets.now (length texts.now) (length stabilities.old))
        → result ≡ BAD_OFFSETS }
    ensures kept { result ≢ OK → stabilities.new ≡ stabilities.old }
{
    if !are_offsets(offsets, texts.len(), stabilities.len()) {
        return BAD_OFFSETS;
    }
    answer_each(texts, offsets, stabilities, |text| stability_number(text));
    OK
}

// Returns the number of how stable a version is, or 0 if the text is not a version.
fn stability_number(text: &[u8]) -> u8
    ensures { result ≡ stability_number (versioning_of text.now) }
{
    match VersioningRef::from_bytes(text) {
        Some(version) => number_of(stability_of(&version)),
        None => 0,
    }
}

// Returns the number of a stability.
fn number_of(stability: Stability) -> u8
    ensures { result ≡ rank stability + 1 }
{
    match stability {
        Stability::Dev => DEV,
        Stability::Alpha => ALPHA,
        Stability::Beta => BETA,
        Stability::Rc => RC,
        Stability::Stable => STABLE,
    }
}
