//! Many texts, sorted by their versions.

ghost use Rattle.std.specs.Prelude.{◌≡◌, ◌≢◌, ◌↔◌, ℕ, ◌<◌, ◌≤◌, ◌+◌, ◌++◌, drop, false, length, map, slice_index, IfSome, IsTrue, None};
ghost use Rattle.std.specs.{List.range_with_len, List.Sorted.IsPermutation, List.Sorted.IsSorted};
ghost use Rattle.version_schemes.specs.{Scheme.numbered, Scheme.rules, declared.scheme.Scheme.TheVariants.Mixed};
ghost use Rattle.versions_c.specs.Sorting.{keyed_cmp, keys_cmp, lying_cmp, tied_cmp, AreInOrder, AreSortOffsets, IsMarked};
ghost use Rattle.versions_c.specs.{Keys.all_keys, Keys.keys_before, Keys.saturated_signed, Keys.spelled_key, Schemes.key_by, Written.room_status, Written.text_at, Written.AreOffsets};
ghost use Rattle.version_texts.specs.Order.{marked_number};

use crate::keys::{is_always_room, put_keys, put_keys_in};
use crate::offsets::{are_offsets, text_at};
use crate::status::{BAD_OFFSETS, NO_ROOM, NO_SCHEME, OK};
use std::cmp::Ordering;
use version_order::compare_bytes;
use version_schemes::Scheme;
use version_texts::{compare_key_ties, marked_kind, marked_number};

/// Writes the places of all texts, sorted by the order of a scheme.
#[unsafe(no_mangle)]
pub extern "C" fn versions_sort(
    scheme: u32,
    texts: &[u8],
    offsets: &[u64],
    keys: &mut [u8],
    key_offsets: &mut [u64],
    order: &mut [u64],
) -> i32
    ensures status { IfSome (numbered scheme)
        (λ scheme. AreSortOffsets offsets.now (length texts.now) (length key_offsets.old) (length order.old)
        → result ≡ room_status (all_keys (key_by (rules scheme).read_as) texts.now offsets.now) (length keys.old)) }
    ensures order { IfSome (numbered scheme)
        (λ scheme. result ≡ OK → AreInOrder scheme texts.now offsets.now order.new) }
    ensures kept_order { result ≢ OK → order.new ≡ order.old }

    // The keys are those of `versions_keys`. Their offsets are reported even if they do not fit.
    ensures keys { IfSome (numbered scheme) (λ scheme. result ≡ OK → keys.new
        ≡ all_keys (key_by (rules scheme).read_as) texts.now offsets.now
        ++ drop (length (all_keys (key_by (rules scheme).read_as) texts.now offsets.now)) keys.old) }
    ensures offsets { IfSome (numbered scheme)
        (λ scheme. AreSortOffsets offsets.now (length texts.now) (length key_offsets.old) (length order.old)
        → (i : ℕ) → i < length offsets.now → slice_index key_offsets.new i
        ≡ saturated_signed (length (keys_before (key_by (rules scheme).read_as) texts.now offsets.now i))) }

    // Otherwise nothing is written.
    ensures bad { IfSome (numbered scheme)
        (λ scheme. ¬ (AreSortOffsets offsets.now (length texts.now) (length key_offsets.old) (length order.old))
        → result ≡ BAD_OFFSETS) }
    ensures no_scheme { numbered scheme ≡ None → result ≡ NO_SCHEME }
    ensures kept { result ≢ OK → result ≢ NO_ROOM → keys.new ≡ keys.old }
    ensures kept_offsets { result ≢ OK → result ≢ NO_ROOM → key_offsets.new ≡ key_offsets.old }
{
    let Some(scheme) = Scheme::of_number(scheme) else {
        return NO_SCHEME;
    };
    put_order(scheme, texts, offsets, keys, key_offsets, order)
}

// Writes the places of all texts, sorted by the order of a scheme.
fn put_order(
    scheme: Scheme,
    texts: &[u8],
    offsets: &[u64],
    keys: &mut [u8],
    key_offsets: &mut [u64],
    order: &mut [u64],
) -> i32
    ensures status { AreSortOffsets offsets.now (length texts.now) (length key_offsets.old) (length order.old)
        → result ≡ room_status (all_keys (key_by (rules scheme).read_as) texts.now offsets.now) (length keys.old) }
    ensures order { result ≡ OK → AreInOrder scheme texts.now offsets.now order.new }
    ensures kept_order { result ≢ OK → order.new ≡ order.old }
    ensures keys { result ≡ OK → keys.new
        ≡ all_keys (key_by (rules scheme).read_as) texts.now offsets.now
        ++ drop (length (all_keys (key_by (rules scheme).read_as) texts.now offsets.now)) keys.old }
    ensures offsets { AreSortOffsets offsets.now (length texts.now) (length key_offsets.old) (length order.old)
        → (i : ℕ) → i < length offsets.now → slice_index key_offsets.new i
        ≡ saturated_signed (length (keys_before (key_by (rules scheme).read_as) texts.now offsets.now i)) }
    ensures bad { ¬ (AreSortOffsets offsets.now (length texts.now) (length key_offsets.old) (length order.old))
        → result ≡ BAD_OFFSETS }
    ensures kept { result ≢ OK → result ≢ NO_ROOM → keys.new ≡ keys.old }
    ensures kept_offsets { result ≢ OK → result ≢ NO_ROOM → key_offsets.new ≡ key_offsets.old }
{
    if scheme == Scheme::Mixed {
        return put_mixed_order(texts, offsets, keys, key_offsets, order);
    }
    let count = order.len();
    if key_offsets.len() != offsets.len() || !are_offsets(offsets, texts.len(), count) {
        return BAD_OFFSETS;
    }
    let status = put_keys_in(scheme, texts, offsets, keys, key_offsets);
    if status != OK {
        return status;
    }
    let keys = Slices {
        bytes: keys,
        offsets: key_offsets,
        count,
    };
    sort_places(&keys, order);
    OK
}

// Writes the places of all texts, sorted by their versions in mixed, by `Ord`.
fn put_mixed_order(
    texts: &[u8],
    offsets: &[u64],
    keys: &mut [u8],
    key_offsets: &mut [u64],
    order: &mut [u64],
) -> i32
    ensures status { AreSortOffsets offsets.now (length texts.now)
        (length key_offsets.old) (length order.old)
        → result ≡ room_status (all_keys spelled_key texts.now offsets.now) (length keys.old) }
    ensures order { result ≡ OK → AreInOrder Mixed texts.now offsets.now order.new }
    ensures kept_order { result ≢ OK → order.new ≡ order.old }
    ensures keys { result ≡ OK → keys.new
        ≡ all_keys spelled_key texts.now offsets.now
        ++ drop (length (all_keys spelled_key texts.now offsets.now)) keys.old }
    ensures offsets { AreSortOffsets offsets.now (length texts.now)
        (length key_offsets.old) (length order.old)
        → (i : ℕ) → i < length offsets.now
        → slice_index key_offsets.new i
        ≡ saturated_signed (length (keys_before spelled_key texts.now offsets.now i)) }
    ensures bad { ¬ (AreSortOffsets offsets.now (length texts.now)
        (length key_offsets.old) (length order.old)) → result ≡ BAD_OFFSETS }
    ensures kept { ¬ (AreSortOffsets offsets.now (length texts.now)
        (length key_offsets.old) (length order.old)) → keys.new ≡ keys.old }
    ensures kept_offsets { ¬ (AreSortOffsets offsets.now (length texts.now)
        (length key_offsets.old) (length order.old)) → key_offsets.new ≡ key_offsets.old }
{
    let count = order.len();
    if key_offsets.len() != offsets.len() || !are_offsets(offsets, texts.len(), count) {
        return BAD_OFFSETS;
    }
    if !put_places(texts, offsets, keys, key_offsets, order) {
        return NO_ROOM;
    }
    let texts = Slices {
        bytes: texts,
        offsets,
        count,
    };
    let keys = Slices {
        bytes: keys,
        offsets: key_offsets,
        count,
    };
    sort(&texts, &keys, order);
    remove_marks(order);
    OK
}

// Writes the keys of all texts, if they fit, and their offsets. Returns whether they fit, and writes only then the
// places, with the kinds of their texts marked on them.
fn put_places(
    texts: &[u8],
    offsets: &[u64],
    keys: &mut [u8],
    key_offsets: &mut [u64],
    order: &mut [u64],
) -> bool
    requires offsets { AreOffsets offsets.now (length texts.now) (length order.old) }
    requires as_many { length key_offsets.old ≡ length order.old + 1 }
    ensures room { IsTrue result
        ↔ (length (keys_before spelled_key texts.now offsets.now (length order.old)) ≤ length keys.old) }
    ensures keys { IsTrue result → keys.new
        ≡ keys_before spelled_key texts.now offsets.now (length order.old)
        ++ drop (length (keys_before spelled_key texts.now offsets.now (length order.old))) keys.old }
    ensures key_offsets { (i : ℕ) → i ≤ length order.old
        → slice_index key_offsets.new i
        ≡ saturated_signed (length (keys_before spelled_key texts.now offsets.now i)) }
    ensures places { IsTrue result → (i : ℕ) → i < length order.old
        → IsMarked texts.now offsets.now i (slice_index order.new i) }
    ensures kept { result ≡ false → order.new ≡ order.old }
{
    let count = order.len();
    // Where the keys may be too long, they are put a first time without the places.
    if !is_always_room(texts, offsets, count, keys.len())
        && !put_keys(texts, offsets, count, keys, key_offsets, &mut [])
    {
        return false;
    }
    put_keys(texts, offsets, count, keys, key_offsets, order)
}

// Many slices of one buffer, each from one offset up to the next.
#[derive(Clone, Copy)]
struct Slices<'a> {
    bytes: &'a [u8],
    offsets: &'a [u64],
    count: usize,
    ghost fit: { AreOffsets offsets.now (length bytes.now) count },
}

impl<'a> Slices<'a> {
    // Returns the slice at a place, which is empty after the last.
    #[inline(always)]
    fn at(&self, place: u64) -> &'a [u8]
        ensures { result.now ≡ text_at self.now.bytes.now self.now.offsets.now place }
    {
        if place >= self.count as u64 {
            return &[];
        }
        text_at(self.bytes, self.offsets, self.count, place as usize)
    }
}

// Sorts places, on which the kinds of their texts are marked, by their keys.
fn sort(texts: &Slices<'_>, keys: &Slices<'_>, order: &mut [u64])
    ensures places { IsPermutation order.old order.new }
    ensures sorted { IsSorted (keyed_cmp texts.now.bytes.now texts.now.offsets.now
        keys.now.bytes.now keys.now.offsets.now) order.new }
{
    order.sort_unstable_by(|a, b| compare_marked(texts, keys, *a, *b));
}

// Removes the kinds that are marked on places.
fn remove_marks(order: &mut [u64])
    ensures { order.new ≡ map marked_number order.old }
{
    for marked in order.iter_mut() {
        *marked = marked_number(*marked);
    }
}

// Compares two marked places by their keys, then by what breaks the tie, then as numbers.
fn compare_marked(texts: &Slices<'_>, keys: &Slices<'_>, a: u64, b: u64) -> Ordering
    ensures { result ≡ keyed_cmp texts.now.bytes.now texts.now.offsets.now
        keys.now.bytes.now keys.now.offsets.now a b }
{
    match compare_empty_last(keys.at(marked_number(a)), keys.at(marked_number(b))) {
        Ordering::Equal => compare_tied(texts, a, b),
        order => order,
    }
}

// Compares two marked places whose keys tie by what breaks the tie, then as numbers.
#[inline(never)]
fn compare_tied(texts: &Slices<'_>, a: u64, b: u64) -> Ordering
    ensures { result ≡ tied_cmp texts.now.bytes.now texts.now.offsets.now a b }
{
    let (place, other) = (marked_number(a), marked_number(b));
    let (text, other_text) = (texts.at(place), texts.at(other));
    match compare_key_ties(marked_kind(a), text, marked_kind(b), other_text) {
        Ordering::Equal => place.cmp(&other),
        order => order,
    }
}

// Compares two keys. Empty keys come last.
fn compare_empty_last(a: &[u8], b: &[u8]) -> Ordering
    ensures { result ≡ keys_cmp a.now b.now }
{
    if a.is_empty() || b.is_empty() {
        return a.is_empty().cmp(&b.is_empty());
    }
    compare_bytes(a, b)
}

// Writes the places of pieces in their order: empty ones come last, and places of those that are the same rise.
fn sort_places(keys: &Slices<'_>, order: &mut [u64])
    ensures places { IsPermutation (range_with_len 0 (length order.old)) order.new }
    ensures sorted { IsSorted (lying_cmp keys.now.bytes.now keys.now.offsets.now) order.new }
{
    put_places_of(order);
    sort_by_keys(keys, order);
}

// Writes each place from 0 on.
fn put_places_of(order: &mut [u64])
    ensures { order.new ≡ range_with_len 0 (length order.old) }
{
    for place in 0..order.len() {
        order[place] = place as u64;
    }
}

// Sorts places by their keys.
fn sort_by_keys(keys: &Slices<'_>, order: &mut [u64])
    ensures places { IsPermutation order.old order.new }
    ensures sorted { IsSorted (lying_cmp keys.now.bytes.now keys.now.offsets.now) order.new }
{
    order.sort_unstable_by(|a, b| compare_places(keys, *a, *b));
}

// Compares two places by their keys, then as numbers.
fn compare_places(keys: &Slices<'_>, a: u64, b: u64) -> Ordering
    ensures { result ≡ lying_cmp keys.now.bytes.now keys.now.offsets.now a b }
{
    match compare_empty_last(keys.at(a), keys.at(b)) {
        Ordering::Equal => a.cmp(&b),
        order => order,
    }
}
