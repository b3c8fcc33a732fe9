//! The sort keys of versions, in the caller's buffer.

ghost use Rattle.std.specs.Prelude.{◌≡◌, ◌≢◌, ◌↔◌, ◌+◌, ◌<◌, ◌≤◌, ◌++◌, drop, length, slice_index, IfSome, IsTrue, List, None, ℕ};
ghost use Rattle.version_rules.specs.grammar.Versioning.{versioning_of};
ghost use Rattle.version_schemes.specs.Scheme.{numbered, rules};
ghost use Rattle.version_order.specs.{Facts.key_room, keys.Sinks.put_at, keys.Sinks.saturated};
ghost use Rattle.versions_c.specs.Keys.{all_keys, key_status, keys_before, saturated_signed, spelled_key, AreKeyOffsets};
ghost use Rattle.versions_c.specs.{Fields.kind_of, Schemes.key_by, Sorting.IsMarked, Written.room_status, Written.AreOffsets};

use crate::kinds::kind_number;
use crate::offsets::{LARGEST, are_offsets, text_at};
use crate::status::{BAD_OFFSETS, NO_ROOM, NO_SCHEME, NO_VERSION, OK};
use version_order::SchemeVersion;
use version_rules::Kind;
use version_schemes::{Scheme, by_scheme, write_key};
use version_texts::{VersioningRef, mark_kind};

/// The number of the scheme mixed.
pub const MIXED: u32 = 1;

/// Writes a size that is enough for the key of any text of a length in a scheme.
#[unsafe(no_mangle)]
pub extern "C" fn versions_key_bound(scheme: u32, text_len: usize, bound: &mut usize) -> i32
    ensures bound { IfSome (numbered scheme)
        (λ scheme. (result ≡ OK) × (bound.new ≡ saturated (key_room (rules scheme).facts text_len))) }

    // No text that is not longer has a longer key.
    ensures enough { IfSome (numbered scheme) (λ scheme. (text : List ℕ) → length text ≤ text_len
        → IfSome (key_by (rules scheme).read_as text) (λ bytes. length bytes ≤ key_room (rules scheme).facts text_len)) }
    ensures no_scheme { numbered scheme ≡ None → (result ≡ NO_SCHEME) × (bound.new ≡ bound.old) }
{
    let Some(scheme) = Scheme::of_number(scheme) else {
        return NO_SCHEME;
    };
    *bound = scheme.facts().key_room(text_len);
    OK
}

/// Writes the sort key of a version of a scheme.
#[unsafe(no_mangle)]
pub extern "C" fn versions_key(scheme: u32, text: &[u8], key: &mut [u8], key_len: &mut usize) -> i32
    ensures status { IfSome (numbered scheme)
        (λ scheme. result ≡ key_status (key_by (rules scheme).read_as text.now) (length key.old)) }
    ensures key { IfSome (numbered scheme) (λ scheme. result ≡ OK → IfSome (key_by (rules scheme).read_as text.now)
        (λ bytes. key.new ≡ bytes ++ drop (length bytes) key.old)) }
    ensures no_scheme { numbered scheme ≡ None → result ≡ NO_SCHEME }
    ensures kept { result ≢ OK → key.new ≡ key.old }

    // Its length is reported even if it does not fit.
    ensures length { IfSome (numbered scheme) (λ scheme. IfSome (key_by (rules scheme).read_as text.now)
        (λ bytes. key_len.new ≡ saturated (length bytes))) }
    ensures no_length { result ≢ OK → result ≢ NO_ROOM → key_len.new ≡ key_len.old }
{
    // That of mixed takes fewer instructions in its own way.
    if scheme == MIXED {
        let mut kind = 0;
        return versions_parse(text, &mut kind, key, key_len);
    }
    let Some(scheme) = Scheme::of_number(scheme) else {
        return NO_SCHEME;
    };
    by_scheme!(scheme, put_key(text, key, key_len))
}

// Writes the sort key of a version. Never inlined, so that the call for mixed needs no room on the stack for the others.
#[inline(never)]
fn put_key<'t, V: SchemeVersion<'t>>(text: &'t [u8], key: &mut [u8], key_len: &mut usize) -> i32
    ensures status { result ≡ key_status (key_by V.rules.read_as text.now) (length key.old) }
    ensures key { result ≡ OK → IfSome (key_by V.rules.read_as text.now)
        (λ bytes. key.new ≡ bytes ++ drop (length bytes) key.old) }
    ensures kept { result ≢ OK → key.new ≡ key.old }
    ensures length { IfSome (key_by V.rules.read_as text.now) (λ bytes. key_len.new ≡ saturated (length bytes)) }
    ensures no_length { result ≢ OK → result ≢ NO_ROOM → key_len.new ≡ key_len.old }
{
    let Some(end) = write_key::<V>(text, key, 0) else {
        return NO_VERSION;
    };
    *key_len = end;
    if end > key.len() {
        return NO_ROOM;
    }
    OK
}

/// Writes the kind and the sort key of a version of mixed.
#[unsafe(no_mangle)]
pub extern "C" fn versions_parse(
    text: &[u8],
    kind: &mut u8,
    key: &mut [u8],
    key_len: &mut usize,
) -> i32
    ensures status { result ≡ key_status (spelled_key text.now) (length key.old) }
    ensures key { result ≡ OK → IfSome (spelled_key text.now)
        (λ bytes. key.new ≡ bytes ++ drop (length bytes) key.old) }
    ensures kept { result ≢ OK → key.new ≡ key.old }

    // Its length is reported even if it does not fit.
    ensures length { IfSome (spelled_key text.now)
        (λ bytes. key_len.new ≡ saturated (length bytes)) }
    ensures no_length { result ≢ OK → result ≢ NO_ROOM → key_len.new ≡ key_len.old }
    ensures kind { result ≡ OK → kind.new ≡ kind_of (versioning_of text.now) }
    ensures kept_kind { result ≢ OK → kind.new ≡ kind.old }
{
    let Some(version) = VersioningRef::from_bytes(text) else {
        return NO_VERSION;
    };
    *key_len = version.write_key(key, 0);
    if *key_len > key.len() {
        return NO_ROOM;
    }
    *kind = kind_number(version.kind());
    OK
}

/// Writes the sort key of each version of a scheme.
#[unsafe(no_mangle)]
pub extern "C" fn versions_keys(
    scheme: u32,
    texts: &[u8],
    offsets: &[u64],
    keys: &mut [u8],
    key_offsets: &mut [u64],
) -> i32
    ensures status { IfSome (numbered scheme)
        (λ scheme. AreKeyOffsets offsets.now (length texts.now) (length key_offsets.old)
        → result ≡ room_status (all_keys (key_by (rules scheme).read_as) texts.now offsets.now) (length keys.old)) }
    ensures keys { IfSome (numbered scheme) (λ scheme. result ≡ OK → keys.new
        ≡ all_keys (key_by (rules scheme).read_as) texts.now offsets.now
        ++ drop (length (all_keys (key_by (rules scheme).read_as) texts.now offsets.now)) keys.old) }

    // Their offsets are reported even if they do not fit.
    ensures offsets { IfSome (numbered scheme)
        (λ scheme. AreKeyOffsets offsets.now (length texts.now) (length key_offsets.old)
        → (i : ℕ) → i < length offsets.now → slice_index key_offsets.new i
        ≡ saturated_signed (length (keys_before (key_by (rules scheme).read_as) texts.now offsets.now i))) }

    // Otherwise nothing is written.
    ensures bad { IfSome (numbered scheme)
        (λ scheme. ¬ (AreKeyOffsets offsets.now (length texts.now) (length key_offsets.old)) → result ≡ BAD_OFFSETS) }
    ensures no_scheme { numbered scheme ≡ None → result ≡ NO_SCHEME }
    ensures kept { result ≢ OK → result ≢ NO_ROOM → keys.new ≡ keys.old }
    ensures kept_offsets { result ≢ OK → result ≢ NO_ROOM → key_offsets.new ≡ key_offsets.old }
{
    let Some(scheme) = Scheme::of_number(scheme) else {
        return NO_SCHEME;
    };
    put_keys_in(scheme, texts, offsets, keys, key_offsets)
}

/// Writes the sort key of each version of a scheme.
pub(crate) fn put_keys_in(
    scheme: Scheme,
    texts: &[u8],
    offsets: &[u64],
    keys: &mut [u8],
    key_offsets: &mut [u64],
) -> i32
    ensures status { AreKeyOffsets offsets.now (length texts.now) (length key_offsets.old)
        → result ≡ room_status (all_keys (key_by (rules scheme).read_as) texts.now offsets.now) (length keys.old) }
    ensures keys { result ≡ OK → keys.new
        ≡ all_keys (key_by (rules scheme).read_as) texts.now offsets.now
        ++ drop (length (all_keys (key_by (rules scheme).read_as) texts.now offsets.now)) keys.old }
    ensures offsets { AreKeyOffsets offsets.now (length texts.now) (length key_offsets.old)
        → (i : ℕ) → i < length offsets.now
        → slice_index key_offsets.new i
        ≡ saturated_signed (length (keys_before (key_by (rules scheme).read_as) texts.now offsets.now i)) }
    ensures bad { ¬ (AreKeyOffsets offsets.now (length texts.now) (length key_offsets.old)) → result ≡ BAD_OFFSETS }
    ensures kept { result ≢ OK → result ≢ NO_ROOM → keys.new ≡ keys.old }
    ensures kept_offsets { result ≢ OK → result ≢ NO_ROOM → key_offsets.new ≡ key_offsets.old }
{
    let Some(count) = offsets.len().checked_sub(1) else {
        return BAD_OFFSETS;
    };
    if key_offsets.len() != offsets.len() || !are_offsets(offsets, texts.len(), count) {
        return BAD_OFFSETS;
    }
    let room = keys.len();
    if put_each_in(scheme, texts, offsets, count, keys, key_offsets) <= room {
        OK
    } else {
        NO_ROOM
    }
}

// Writes the keys of all texts in a scheme, if they fit, and their offsets, and returns the place after them. Those of
// mixed take fewer instructions in their own way.
fn put_each_in(
    scheme: Scheme,
    texts: &[u8],
    offsets: &[u64],
    count: usize,
    keys: &mut [u8],
    key_offsets: &mut [u64],
) -> usize
    requires offsets { AreOffsets offsets.now (length texts.now) count }
    requires room { length key_offsets.old ≡ count + 1 }
    ensures end { result
        ≡ saturated (length (keys_before (key_by (rules scheme).read_as) texts.now offsets.now count)) }
    ensures keys { length (keys_before (key_by (rules scheme).read_as) texts.now offsets.now count) ≤ length keys.old
        → keys.new ≡ put_at keys.old 0 (keys_before (key_by (rules scheme).read_as) texts.now offsets.now count) }
    ensures key_offsets { (i : ℕ) → i ≤ count
        → slice_index key_offsets.new i
        ≡ saturated_signed (length (keys_before (key_by (rules scheme).read_as) texts.now offsets.now i)) }
{
    if scheme == Scheme::Mixed {
        return put_all(texts, offsets, count, keys, key_offsets, &mut []);
    }
    by_scheme!(scheme, put_each(texts, offsets, count, keys, key_offsets))
}

// Writes the keys of all texts, if they fit, and their offsets, and returns the place after them.
fn put_each<'t, V: SchemeVersion<'t>>(
    texts: &'t [u8],
    offsets: &[u64],
    count: usize,
    keys: &mut [u8],
    key_offsets: &mut [u64],
) -> usize
    requires offsets { AreOffsets offsets.now (length texts.now) count }
    requires room { length key_offsets.old ≡ count + 1 }
    ensures end { result ≡ saturated (length (keys_before (key_by V.rules.read_as) texts.now offsets.now count)) }
    ensures keys { length (keys_before (key_by V.rules.read_as) texts.now offsets.now count) ≤ length keys.old
        → keys.new ≡ put_at keys.old 0 (keys_before (key_by V.rules.read_as) texts.now offsets.now count) }
    ensures key_offsets { (i : ℕ) → i ≤ count
        → slice_index key_offsets.new i
        ≡ saturated_signed (length (keys_before (key_by V.rules.read_as) texts.now offsets.now i)) }
{
    let mut end: usize = 0;
    key_offsets[0] = 0;
    for place in 0..count {
        let text = text_at(texts, offsets, count, place);
        end = write_key::<V>(text, keys, end).unwrap_or(end);
        key_offsets[place + 1] = (end as u64).min(LARGEST);
    }
    end
}

/// Writes the keys of all texts in mixed, if they fit, and their offsets, and returns whether they fit. Writes the places
/// of the first texts, with the kinds of the texts marked on them, as many as there is room for.
pub fn put_keys(
    texts: &[u8],
    offsets: &[u64],
    count: usize,
    keys: &mut [u8],
    key_offsets: &mut [u64],
    places: &mut [u64],
) -> bool
    requires offsets { AreOffsets offsets.now (length texts.now) count }
    requires as_many { length key_offsets.old ≡ count + 1 }
    ensures room { IsTrue result
        ↔ (length (keys_before spelled_key texts.now offsets.now count) ≤ length keys.old) }
    ensures keys { IsTrue result → keys.new
        ≡ keys_before spelled_key texts.now offsets.now count
        ++ drop (length (keys_before spelled_key texts.now offsets.now count)) keys.old }
    ensures key_offsets { (i : ℕ) → i ≤ count
        → slice_index key_offsets.new i
        ≡ saturated_signed (length (keys_before spelled_key texts.now offsets.now i)) }
    ensures places { (i : ℕ) → i < count → i < length places.old
        → IsMarked texts.now offsets.now i (slice_index places.new i) }
{
    let room = keys.len();
    put_all(texts, offsets, count, keys, key_offsets, places) <= room
}

// Writes the keys of all texts, if they fit, and their offsets, and returns the place after them. Writes the marked
// places too.
fn put_all(
    texts: &[u8],
    offsets: &[u64],
    count: usize,
    keys: &mut [u8],
    key_offsets: &mut [u64],
    places: &mut [u64],
) -> usize
    requires offsets { AreOffsets offsets.now (length texts.now) count }
    requires room { length key_offsets.old ≡ count + 1 }
    ensures end { result ≡ saturated (length (keys_before spelled_key texts.now offsets.now count)) }
    ensures keys { length (keys_before spelled_key texts.now offsets.now count) ≤ length keys.old → keys.new
        ≡ put_at keys.old 0 (keys_before spelled_key texts.now offsets.now count) }
    ensures key_offsets { (i : ℕ) → i ≤ count
        → slice_index key_offsets.new i
        ≡ saturated_signed (length (keys_before spelled_key texts.now offsets.now i)) }
    ensures places { (i : ℕ) → i < count → i < length places.old
        → IsMarked texts.now offsets.now i (slice_index places.new i) }
{
    let mut end: usize = 0;
    key_offsets[0] = 0;
    for place in 0..count {
        let mut kind = Kind::Ideal;
        if let Some(version) = VersioningRef::from_bytes(text_at(texts, offsets, count, place)) {
            end = version.write_key(keys, end);
            kind = version.kind();
        }
        key_offsets[place + 1] = (end as u64).min(LARGEST);
        if place < places.len() {
            places[place] = mark_kind(place as u64, kind);
        }
    }
    end
}

/// Returns whether a room is enough for the keys of any texts with these offsets.
pub fn is_always_room(texts: &[u8], offsets: &[u64], count: usize, room: usize) -> bool
    requires { AreOffsets offsets.now (length texts.now) count }
    ensures { IsTrue result → length (keys_before spelled_key texts.now offsets.now count) ≤ room }
{
    let fives = 5 * count;
    let bytes = offsets[count] - offsets[0];
    fives <= room && bytes <= ((room - fives) / 3) as u64
}
