//! Sets written as bytes.

ghost use Rattle.std.specs.Prelude.{◌≡◌, ◌∷◌, ◌++◌, ◌*◌, ◌+◌, ◌^◌, ◌<◌, ◌≤◌, IfSome, IsSome, false, length, true, ℕ};
ghost use Rattle.std.specs.List.{concat, flat_map};
ghost use Rattle.version_sets.specs.{Form.form_bytes, Form.number, Form.places, Set.left};
ghost use Rattle.version_order.specs.keys.Sinks.{put_at, saturated, IsWritten};

use crate::merge::Merge;

/// Writes what a rule makes of two sets into a buffer, if it fits there. Returns how many bytes it has.
pub fn write_merge(order: u8, merge: Merge<'_>, room: &mut [u8]) -> usize
    ensures bytes { IsWritten room.old 0 (form_bytes order (left merge.entry)) room.new }
    ensures length { result ≡ saturated (length (form_bytes order (left merge.entry))) }
{
    let size = Size::of(merge);
    if size.whole <= room.len() {
        let (head, rest) = room.split_at_mut(9);
        let (numbers, ends) = rest.split_at_mut(8 * size.count);
        write_head(head, order, size.count);
        write_ends(merge, numbers, ends);
    }
    size.whole
}

// How many ends there are, and how many bytes a set with them has.
#[derive(Clone, Copy)]
struct Size {
    count: usize,
    whole: usize,
}

impl Size {
    // Counts the ends that are left.
    fn of(mut merge: Merge<'_>) -> Size
        ensures count { result.count ≡ length (left merge.entry) }
        ensures whole { (order : ℕ) → result.whole ≡ saturated (length (form_bytes order (left merge.entry))) }
    {
        let mut size = Size { count: 0, whole: 9 };
        while let Some(end) = merge.next() {
            size.count += 1;
            size.whole = size.whole.saturating_add(8).saturating_add(end.len());
        }
        size
    }
}

// Writes the number of an order, and how many ends a set has.
pub(crate) fn write_head(head: &mut [u8], order: u8, count: usize)
    requires { length head.old ≡ 9 }
    ensures { head.new ≡ order ∷ number count }
{
    let (first, rest) = head.split_at_mut(1);
    first.copy_from_slice(&[order]);
    rest.copy_from_slice(&number(count));
}

// Writes the ends that are left, one behind another, and apart from them where each is over. Returns how many ends there
// are, and how many bytes they have; None where either doesn't fit.
pub(crate) fn write_ends(
    mut merge: Merge<'_>,
    numbers: &mut [u8],
    ends: &mut [u8],
) -> Option<(usize, usize)>
    ensures some { 8 * length (left merge.entry) ≤ length numbers.old → length (concat (left merge.entry)) ≤ length ends.old
        → IsSome result }
    ensures within { IfSome result (λ size. (8 * size.0 ≤ length numbers.old) × (size.1 ≤ length ends.old)) }
    ensures count { IfSome result (λ size. size.0 ≡ length (left merge.entry)) }
    ensures length { IfSome result (λ size. size.1 ≡ length (concat (left merge.entry))) }
    ensures numbers { IfSome result (λ _. numbers.new
        ≡ put_at numbers.old 0 (flat_map number (places 0 (left merge.entry)))) }
    ensures ends { IfSome result (λ _. ends.new ≡ put_at ends.old 0 (concat (left merge.entry))) }
{
    let (mut count, mut over) = (0, 0);
    while let Some(end) = merge.next() {
        if !write_at(ends, over, end) {
            return None;
        }
        over += end.len();
        if !write_at(numbers, 8 * count, &number(over)) {
            return None;
        }
        count += 1;
    }
    Some((count, over))
}

// Writes bytes into a buffer from a place on, if they fit there. Returns whether they do.
#[inline(always)]
pub(crate) fn write_at(room: &mut [u8], start: usize, bytes: &[u8]) -> bool
    ensures yes { result ≡ true → start + length bytes.now ≤ length room.old }
    ensures no { result ≡ false → length room.old < start + length bytes.now }
    ensures written { IsWritten room.old start bytes.now room.new }
{
    if start > room.len() || bytes.len() > room.len() - start {
        return false;
    }
    let (_, rest) = room.split_at_mut(start);
    let (place, _) = rest.split_at_mut(bytes.len());
    place.copy_from_slice(bytes);
    true
}

// Returns a number in eight bytes.
#[inline(always)]
#[tactic(auto, unfolding(crate::specs::Form::number))]
pub(crate) fn number(n: usize) -> [u8; 8]
    ensures { result ≡ number n }
{
    (n as u64).to_le_bytes()
}
