//! Many texts in one buffer, each from one offset up to the next.

ghost use Rattle.std.specs.Prelude.{◌≡◌, ◌↔◌, ◌+◌, ◌<◌, length, slice_index, IsTrue, ℕ};
ghost use Rattle.std.specs.Fn.{FnReturnsAt};
ghost use Rattle.versions_c.specs.Written.{text_at, AreOffsets};

/// The largest signed number of 64 bits: the largest offset that C has.
pub const LARGEST: u64 = 0x7FFF_FFFF_FFFF_FFFF;

/// Returns whether offsets fit so many texts in a buffer of that length. An offset below 0 in C is larger than every
/// length here.
pub fn are_offsets(offsets: &[u64], buffer: usize, count: usize) -> bool
    ensures { IsTrue result ↔ AreOffsets offsets.now buffer count }
{
    let Some((last, others)) = offsets.split_last() else {
        return false;
    };
    if others.len() != count || *last > buffer as u64 {
        return false;
    }
    offsets.is_sorted()
}

/// Returns the text at a place.
pub fn text_at<'a>(texts: &'a [u8], offsets: &[u64], count: usize, place: usize) -> &'a [u8]
    requires offsets { AreOffsets offsets.now (length texts.now) count }
    requires place { place < count }
    ensures { result.now ≡ text_at texts.now offsets.now place }
{
    &texts[offsets[place] as usize..offsets[place + 1] as usize]
}

/// Writes the answer about each text.
pub fn answer_each<A: Fn(&[u8]) -> u8 + Drop>(
    texts: &[u8],
    offsets: &[u64],
    answers: &mut [u8],
    answer: A,
)
    requires offsets { AreOffsets offsets.now (length texts.now) (length answers.old) }
    requires answer { A.IsAlwaysCallable answer }
    ensures { (i : ℕ) → i < length answers.old
        → FnReturnsAt A.Fn answer (text_at texts.now offsets.now i) (slice_index answers.new i) }
{
    let count = answers.len();
    for (place, asked) in answers.iter_mut().enumerate() {
        *asked = answer(text_at(texts, offsets, count, place));
    }
}
