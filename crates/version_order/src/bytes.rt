//! Bytes as numbers, eight at a time.

ghost use Rattle.std.specs.Prelude.{◌≡◌, ℕ, ◌<◌, slice_index};
ghost use Rattle.std.specs.Int.{from_be_bytes, w64};
ghost use Rattle.version_order.specs.keys.Lists.{bytes_cmp};

use std::cmp::Ordering;

/// Compares bytes: eight at a time by their numbers, and the last ones one by one.
#[inline(always)]
pub fn compare_bytes(a: &[u8], b: &[u8]) -> Ordering
    ensures { result ≡ bytes_cmp a.now b.now }
{
    let (mut left, mut right) = (a, b);
    while left.len() >= 8 && right.len() >= 8 {
        match first_eight(left).cmp(&first_eight(right)) {
            Ordering::Equal => {}
            order => return order,
        }
        left = &left[8..];
        right = &right[8..];
    }
    left.cmp(right)
}

/// Returns the first eight bytes as a number. Missing bytes count as 0.
#[inline(always)]
pub fn first_eight(bytes: &[u8]) -> u64
    ensures value { result ≡ from_be_bytes w64 bytes.now }
    ensures bytes { (place : ℕ) → slice_index bytes.now place < 256 }
{
    match bytes.first_chunk::<8>() {
        Some(first) => u64::from_be_bytes(*first),
        None => first_few(bytes),
    }
}

// Returns the same, a byte at a time, for any number of bytes.
fn first_few(bytes: &[u8]) -> u64
    ensures { result ≡ from_be_bytes w64 bytes.now }
{
    u64::from_be_bytes([
        byte_at(bytes, 0),
        byte_at(bytes, 1),
        byte_at(bytes, 2),
        byte_at(bytes, 3),
        byte_at(bytes, 4),
        byte_at(bytes, 5),
        byte_at(bytes, 6),
        byte_at(bytes, 7),
    ])
}

// Returns the byte at a place, or 0 after the end.
fn byte_at(bytes: &[u8], place: usize) -> u8
    ensures { result ≡ slice_index bytes.now place }
{
    bytes.get(place).copied().unwrap_or(0)
}
