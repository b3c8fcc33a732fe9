//! The version that comes next after another, in the caller's buffer.

ghost use Rattle.std.specs.Prelude.{◌≡◌, ◌≢◌};
ghost use Rattle.std.specs.Option.{option_map};
ghost use Rattle.version_rules.specs.grammar.Versioning.{versioning_of};
ghost use Rattle.version_tasks.specs.{Next.IsOfForm, Next.last_place, NextPre.IsOfPreForm};
ghost use Rattle.versions_c.specs.Newest.{IsAnswered, given_word};

use crate::status::{NO_NEXT, NO_ROOM, NO_VERSION, OK};
use version_tasks::{next_of, next_pre, next_release};
use version_texts::VersioningRef;

/// Writes the text of the version that comes next after another at a place.
#[unsafe(no_mangle)]
pub extern "C" fn versions_next(
    text: &[u8],
    place: usize,
    next: &mut [u8],
    next_len: &mut usize,
) -> i32
    ensures next { IsAnswered (versioning_of text.now) (λ v. IsOfForm v place)
        next.old next.new next_len.new result }
    ensures kept { result ≢ OK → next.new ≡ next.old }

    // Where no version comes next there is no length.
    ensures no_version { result ≡ NO_VERSION → next_len.new ≡ next_len.old }
    ensures no_next { result ≡ NO_NEXT → next_len.new ≡ next_len.old }
{
    let Some(version) = VersioningRef::from_bytes(text) else {
        return NO_VERSION;
    };
    let Some(found) = next_of(&version, place) else {
        return NO_NEXT;
    };
    *next_len = found.write(next);
    if *next_len > next.len() {
        return NO_ROOM;
    }
    OK
}

/// Writes the text of the version that comes next after another at the last place of its numbers.
#[unsafe(no_mangle)]
pub extern "C" fn versions_next_release(text: &[u8], next: &mut [u8], next_len: &mut usize) -> i32
    ensures next { IsAnswered (versioning_of text.now) (λ v. IsOfForm v (last_place v))
        next.old next.new next_len.new result }
    ensures kept { result ≢ OK → next.new ≡ next.old }

    // Where no version comes next there is no length.
    ensures no_version { result ≡ NO_VERSION → next_len.new ≡ next_len.old }
    ensures no_next { result ≡ NO_NEXT → next_len.new ≡ next_len.old }
{
    let Some(version) = VersioningRef::from_bytes(text) else {
        return NO_VERSION;
    };
    let Some(found) = next_release(&version) else {
        return NO_NEXT;
    };
    *next_len = found.write(next);
    if *next_len > next.len() {
        return NO_ROOM;
    }
    OK
}

/// Writes the text of the pre-release that comes next after a version: that of a word, or, if the word is empty, of the
/// version's own pre-release.
#[unsafe(no_mangle)]
pub extern "C" fn versions_next_pre(
    text: &[u8],
    word: &[u8],
    next: &mut [u8],
    next_len: &mut usize,
) -> i32
    ensures next { IsAnswered (versioning_of text.now) (λ v. IsOfPreForm v (given_word word.now))
        next.old next.new next_len.new result }
    ensures kept { result ≢ OK → next.new ≡ next.old }

    // Where no version comes next there is no length.
    ensures no_version { result ≡ NO_VERSION → next_len.new ≡ next_len.old }
    ensures no_next { result ≡ NO_NEXT → next_len.new ≡ next_len.old }
{
    let Some(version) = VersioningRef::from_bytes(text) else {
        return NO_VERSION;
    };
    let Some(found) = next_pre(&version, given_word(word)) else {
        return NO_NEXT;
    };
    *next_len = found.write(next);
    if *next_len > next.len() {
        return NO_ROOM;
    }
    OK
}

// The word that a text gives, or None if it is empty.
fn given_word(word: &[u8]) -> Option<&[u8]>
    ensures { option_map (λ text. text.now) result ≡ given_word word.now }
{
    if word.is_empty() { None } else { Some(word) }
}
