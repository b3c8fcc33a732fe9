//! How two streams of bytes compare.

ghost use Rattle.std.specs.Prelude.{◌≡◌, List, ℕ, Some, map};
ghost use Rattle.std.specs.Iterator.{AlwaysYields, IsFinite};
ghost use Rattle.version_parts.specs.{Chunk.plain_chunk, Compare.ComparesBytes};
ghost use Rattle.version_order.specs.keys.Lists.{bytes_cmp};
ghost use Rattle.version_rules.specs.key.PartKey.{chunk_parts, list_cmp, part_cmp, part_key};

use crate::chunk::Chunk;
use crate::key::{ListBytes, PartText, PieceBytes};
use std::cmp::Ordering;

/// Compares two streams by the first byte at which they differ. A prefix comes before the longer stream. Takes bytes
/// from both in turn, from `a` first, and none after the first difference, so the caller can continue with what is
/// left. `a` must end; `b` need not.
pub fn compare_bytes<A: Iterator<Item = u8>, B: Iterator<Item = u8>>(
    a: &mut A,
    b: &mut B,
) -> Ordering
    requires can_a { A.can_next a.old }
    requires can_b { B.can_next b.old }
    requires ends { IsFinite (A.remaining a.old) }
    ensures taken { ComparesBytes A.next_gives B.next_gives a.old b.old result a.new b.new }
    ensures yielded { (xs ys : List ℕ) → AlwaysYields A.next_gives (λ x. x) a.old xs
        → AlwaysYields B.next_gives (λ y. y) b.old ys → result ≡ bytes_cmp xs ys }
{
    while let Some(x) = a.next() {
        let Some(y) = b.next() else {
            return Ordering::Greater;
        };
        if x != y {
            return x.cmp(&y);
        }
    }
    match b.next() {
        Some(_) => Ordering::Less,
        None => Ordering::Equal,
    }
}

/// Compares two parts by their printed texts.
pub fn compare_parts(a: PartText<'_>, b: PartText<'_>) -> Ordering
    ensures { result ≡ part_cmp (Some (part_key a.entry)) (Some (part_key b.entry)) }
{
    compare_bytes(&mut PieceBytes::part(a), &mut PieceBytes::part(b))
}

/// Compares two lists of chunks as lists of parts.
pub fn compare_part_lists(a: &[Chunk], b: &[Chunk]) -> Ordering
    ensures { result ≡ list_cmp (chunk_parts (map plain_chunk a.now))
        (chunk_parts (map plain_chunk b.now)) }
{
    compare_bytes(&mut ListBytes::parts(a), &mut ListBytes::parts(b))
}
