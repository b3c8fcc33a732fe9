//! How long a key may be, and a list that gets one.

ghost use Rattle.std.specs.Prelude.{◌≡◌, ◌+◌, ◌-◌, ◌<◌, ◌≤◌, ◌^◌, length, IfOk, List, Some, ℕ};
ghost use Rattle.version_rules.specs.{grammar.Versioning.versioning_of, grammar.Versioning.PlainVersioning, key.Key.key_of, key.Key.key_bytes};
ghost use Rattle.version_texts.specs.Key.{room_for};
ghost use Rattle.version_order.specs.keys.Sinks.{saturated};

use std::alloc::AllocError;

// Up to this length a text is given all the room that its key may need.
pub(crate) const LONGEST_WITH_ROOM: usize = 256;

/// Returns a size that is enough for the key of any text of a length. Does not allocate.
#[inline(always)]
#[tactic(auto, using(crate::proofs::lemmas::KeyRoom::enough_room))]
pub fn room_for(text_len: usize) -> usize
    ensures room { result ≡ saturated (room_for text_len) }

    // No text of that length has a longer key.
    ensures enough { (text : List ℕ) (v : PlainVersioning) → length text ≡ text_len
        → versioning_of text ≡ Some v → length (key_bytes (key_of v)) ≤ room_for text_len }
{
    text_len.saturating_mul(3).saturating_add(5)
}

// Returns the length of a list with room for so many bytes more. Fails if no list is as long.
#[inline(always)]
pub(crate) fn length_with(length: usize, room: usize) -> Result<usize, AllocError>
    ensures { IfOk result (λ n. (n ≡ length + room) × (n < 2 ^ 64 - 1)) }
{
    match length.checked_add(room) {
        Some(whole) if whole < usize::MAX => Ok(whole),
        _ => Err(AllocError),
    }
}
