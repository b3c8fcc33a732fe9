//! The kinds of texts.

ghost use Rattle.std.specs.Prelude.{◌≡◌, ◌≢◌, ◌<◌, ℕ, if◌then◌else◌, length, pos, slice_index, IfSome, Some};
ghost use Rattle.version_rules.specs.grammar.Versioning.{versioning_kind, is_prerelease, versioning_of, PlainVersioning};
ghost use Rattle.versions_c.specs.{Fields.kind_of, Fields.version_status, Written.text_at, Written.AreOffsets};

use crate::offsets::{answer_each, are_offsets};
use crate::status::{BAD_OFFSETS, NO_VERSION, OK};
use version_rules::Kind;
use version_texts::VersioningRef;

/// The kind of a text.
#[unsafe(no_mangle)]
pub extern "C" fn versions_kind(text: &[u8]) -> i32
    ensures { result ≡ pos (kind_of (versioning_of text.now)) }
{
    kind_of(text) as i32
}

/// Whether a version is a pre-release.
#[unsafe(no_mangle)]
pub extern "C" fn versions_is_prerelease(text: &[u8], answer: &mut u8) -> i32
    ensures status { result ≡ version_status (versioning_of text.now) }
    ensures answer { result ≡ OK → IfSome (versioning_of text.now)
        (λ v. answer.new ≡ (if is_prerelease v then 1 else 0)) }
    ensures kept { result ≢ OK → answer.new ≡ answer.old }
{
    let Some(version) = VersioningRef::from_bytes(text) else {
        return NO_VERSION;
    };
    *answer = version.is_prerelease() as u8;
    OK
}

/// The kind of each text.
#[unsafe(no_mangle)]
pub extern "C" fn versions_kinds(texts: &[u8], offsets: &[u64], kinds: &mut [u8]) -> i32
    ensures ok { AreOffsets offsets.now (length texts.now) (length kinds.old) → result ≡ OK }
    ensures kinds { AreOffsets offsets.now (length texts.now) (length kinds.old) → (i : ℕ)
        → i < length kinds.old
        → slice_index kinds.new i ≡ kind_of (versioning_of (text_at texts.now offsets.now i)) }
    ensures bad { ¬ (AreOffsets offsets.now (length texts.now) (length kinds.old))
        → result ≡ BAD_OFFSETS }
    ensures kept { ¬ (AreOffsets offsets.now (length texts.now) (length kinds.old))
        → kinds.new ≡ kinds.old }
{
    if !are_offsets(offsets, texts.len(), kinds.len()) {
        return BAD_OFFSETS;
    }
    answer_each(texts, offsets, kinds, |text| kind_of(text));
    OK
}

// Returns the number of the kind that bytes parse as, or 0 if they are not a version.
fn kind_of(text: &[u8]) -> u8
    ensures { result ≡ kind_of (versioning_of text.now) }
{
    let Some(version) = VersioningRef::from_bytes(text) else {
        return 0;
    };
    kind_number(version.kind())
}

/// Returns the number of a kind.
#[inline(always)]
pub fn kind_number(kind: Kind) -> u8
    ensures { (v : PlainVersioning) → versioning_kind v ≡ kind → result ≡ kind_of (Some v) }
{
    match kind {
        Kind::Ideal => 1,
        Kind::General => 2,
        Kind::Complex => 3,
    }
}
