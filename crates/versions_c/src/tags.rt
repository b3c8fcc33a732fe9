//! Where the versions in tags begin.

ghost use Rattle.std.specs.Prelude.{◌≡◌, ◌≢◌, ◌<◌, ℕ, drop, length, slice_index, IfSome};
ghost use Rattle.version_rules.specs.grammar.Versioning.{versioning_text};
ghost use Rattle.version_tasks.specs.Tag.{version_after_prefix, version_in_tag};
ghost use Rattle.versions_c.specs.{Fields.version_status, Newest.IsStart, Written.AreOffsets};

use crate::offsets::{are_offsets, text_at};
use crate::status::{BAD_OFFSETS, NO_VERSION, OK};
use version_tasks::{start_after_prefix, start_in_tag};

/// Writes where the version in a tag begins.
#[unsafe(no_mangle)]
pub extern "C" fn versions_in_tag(tag: &[u8], start: &mut usize) -> i32
    ensures status { result ≡ version_status (version_in_tag tag.now) }

    // The rest of the tag from there on is the text of the version.
    ensures start { result ≡ OK → IfSome (version_in_tag tag.now)
        (λ v. drop start.new tag.now ≡ versioning_text v) }
    ensures within { result ≡ OK → start.new < length tag.now }
    ensures kept { result ≢ OK → start.new ≡ start.old }
{
    let Some(found) = start_in_tag(tag) else {
        return NO_VERSION;
    };
    *start = found;
    OK
}

/// Writes where the version after a prefix of a tag begins.
#[unsafe(no_mangle)]
pub extern "C" fn versions_after_prefix(prefix: &[u8], tag: &[u8], start: &mut usize) -> i32
    ensures status { result ≡ version_status (version_after_prefix prefix.now tag.now) }

    // The rest of the tag from there on is the text of the version.
    ensures start { result ≡ OK → IfSome (version_after_prefix prefix.now tag.now)
        (λ v. drop start.new tag.now ≡ versioning_text v) }
    ensures within { result ≡ OK → start.new < length tag.now }
    ensures kept { result ≢ OK → start.new ≡ start.old }
{
    let Some(found) = start_after_prefix(prefix, tag) else {
        return NO_VERSION;
    };
    *start = found;
    OK
}

/// Writes where the version in each tag begins.
#[unsafe(no_mangle)]
pub extern "C" fn versions_in_tags(texts: &[u8], offsets: &[u64], starts: &mut [u64]) -> i32
    ensures ok { AreOffsets offsets.now (length texts.now) (length starts.old) → result ≡ OK }
    ensures starts { result ≡ OK → (i : ℕ) → i < length starts.old
        → IsStart texts.now offsets.now i (slice_index starts.new i) }
    ensures bad { ¬ (AreOffsets offsets.now (length texts.now) (length starts.old))
        → result ≡ BAD_OFFSETS }
    ensures kept { result ≢ OK → starts.new ≡ starts.old }
{
    let count = starts.len();
    if !are_offsets(offsets, texts.len(), count) {
        return BAD_OFFSETS;
    }
    for (place, start) in starts.iter_mut().enumerate() {
        *start = start_at(texts, offsets, count, place);
    }
    OK
}

// Returns where the version in the tag at a place begins, and where the tag ends if it has none.
fn start_at(texts: &[u8], offsets: &[u64], count: usize, place: usize) -> u64
    requires offsets { AreOffsets offsets.now (length texts.now) count }
    requires place { place < count }
    ensures { IsStart texts.now offsets.now place result }
{
    match start_in_tag(text_at(texts, offsets, count, place)) {
        Some(start) => offsets[place] + start as u64,
        None => offsets[place + 1],
    }
}
