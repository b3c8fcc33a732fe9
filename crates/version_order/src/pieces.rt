//! The pieces of a text between its dots.

ghost use Rattle.std.specs.Prelude.{◌≡◌, ◌==◌, ◌≤◌, ◌∷◌, [], ℕ, length, suc, take, IfNone, IfSome};
ghost use Rattle.std.specs.List.{position_or_len};
ghost use Rattle.version_order.specs.texts.Cuts.{behind_piece, first_piece, is_dot};

/// Whether a text is empty or begins with a dot.
#[inline(always)]
pub fn piece_is_empty(text: &[u8]) -> bool
    ensures { result ≡ (length (first_piece text.now) == 0) }
{
    match text {
        [first, ..] => *first == b'.',
        [] => true,
    }
}

/// Returns the first piece of a text that dots divide, and what follows it.
#[inline(always)]
pub fn split_piece(text: &[u8]) -> (&[u8], &[u8])
    ensures piece { result.0.now ≡ first_piece text.now }
    ensures rest { result.1.now ≡ behind_piece text.now }
{
    text.split_at(place_of(b'.', text))
}

/// The place of the first byte of a text that is a mark, or the length of a text without it.
#[inline(always)]
pub fn place_of(mark: u8, text: &[u8]) -> usize
    ensures place { result ≡ position_or_len (λ b. b == mark) text.now }
    ensures within { result ≤ length text.now }
{
    for (place, byte) in text.iter().enumerate() {
        if *byte == mark {
            return place;
        }
    }
    text.len()
}

/// The text up to its first dot, with the dot; all of a text without dots.
pub fn through_dot(text: &[u8]) -> &[u8]
    ensures { result.now ≡ take (suc (position_or_len is_dot text.now)) text.now }
{
    text.get(..place_of(b'.', text) + 1).unwrap_or(text)
}

/// What follows the first byte of a text, or None if the text is empty.
#[inline(always)]
pub fn behind_first(text: &[u8]) -> Option<&[u8]>
    ensures some { IfSome result (λ more. (b : ℕ) × (text.now ≡ b ∷ more.now)) }
    ensures none { IfNone result (text.now ≡ []) }
{
    match text {
        [_, more @ ..] => Some(more),
        [] => None,
    }
}
