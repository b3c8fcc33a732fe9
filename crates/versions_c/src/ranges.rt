//! The range of keys that a list of requirements asks for, and which versions lie in a range.

ghost use Rattle.std.specs.Prelude.{◌≡◌, ◌≢◌, ◌<◌, ◌≤◌, if◌then◌else◌, is_some, length, slice_index, take, IfSome, List, None, Some, [], ℕ};
ghost use Rattle.std.specs.Option.{option_map};
ghost use Rattle.version_rules.specs.{grammar.Versioning.versioning_of, requirement.Range.range_of, requirement.Requirement.PlainRequirement, requirement.Requirements.requirements_of};
ghost use Rattle.version_texts.specs.{Key.room_for, VersioningRef.plain_versioning_ref};
ghost use Rattle.versions_c.specs.Ranges.{has_flag, in_range_code, one_if, range_status, range_with, AreLengths};
ghost use Rattle.versions_c.specs.{Fields.version_status, Written.text_at, Written.AreOffsets};

use crate::offsets::{answer_each, are_offsets};
use crate::status::{BAD_OFFSETS, NO_REQUIREMENTS, NO_ROOM, NO_VERSION, OK};
use version_requirements::RangeRef;
use version_rules::Kinds;
use version_texts::VersioningRef;

/// Versions of the strict kind are in the range.
pub const IDEAL: u32 = 1;
/// Versions of the general kind are in the range.
pub const GENERAL: u32 = 2;
/// Versions of the messy kind are in the range.
pub const COMPLEX: u32 = 4;
/// The range has a high bound.
pub const HIGH: u32 = 8;
/// The list matches each version in the range.
pub const EXACT: u32 = 16;

/// Writes the range of keys that a list asks for.
#[unsafe(no_mangle)]
pub extern "C" fn versions_range(
    list: &[u8],
    low: &mut [u8],
    low_len: &mut usize,
    high: &mut [u8],
    high_len: &mut usize,
    flags: &mut u32,
) -> i32
    ensures status { result
        ≡ range_status (requirements_of list.now) (length low.old) (length high.old) }

    // The bounds begin their buffers, and the flags tell the rest.
    ensures range { result ≡ OK → option_map range_of (requirements_of list.now)
        ≡ Some (range_with (take low_len.new low.new) (take high_len.new high.new) flags.new) }
    ensures flags { result ≡ OK → flags.new < 32 }
    ensures low_within { result ≡ OK → low_len.new ≤ length low.new }
    ensures high_within { result ≡ OK → high_len.new ≤ length high.new }

    // The lengths of the bounds are reported, also if a buffer is too small.
    ensures sizes { IfSome (requirements_of list.now)
        (λ wanted. AreLengths low_len.new high_len.new (range_of wanted)) }

    // Otherwise nothing is written.
    ensures kept_low { result ≢ OK → low.new ≡ low.old }
    ensures kept_high { result ≢ OK → high.new ≡ high.old }
    ensures kept_flags { result ≢ OK → flags.new ≡ flags.old }
    ensures no_low_size { result ≡ NO_REQUIREMENTS → low_len.new ≡ low_len.old }
    ensures no_high_size { result ≡ NO_REQUIREMENTS → high_len.new ≡ high_len.old }

    // Buffers that are enough for the key of a text of the list's length are enough for its bounds.
    ensures enough { (wanted : List PlainRequirement) → requirements_of list.now ≡ Some wanted
        → room_for (length list.now) ≤ length low.old
        → room_for (length list.now) ≤ length high.old
        → result ≡ OK }
{
    let Some(range) = RangeRef::from_bytes(list) else {
        return NO_REQUIREMENTS;
    };
    *low_len = range.low_length();
    *high_len = range.high_length();
    if *low_len > low.len() || *high_len > high.len() {
        return NO_ROOM;
    }
    range.write_low(low);
    range.write_high(high);
    *flags = flags_of(&range);
    OK
}

/// Writes whether a version is in a range.
#[unsafe(no_mangle)]
pub extern "C" fn versions_in_range(
    text: &[u8],
    low: &[u8],
    high: &[u8],
    flags: u32,
    is_in: &mut u8,
) -> i32
    ensures status { result ≡ version_status (versioning_of text.now) }
    ensures is_in { result ≡ OK → is_in.new
        ≡ in_range_code (range_with low.now high.now flags) (versioning_of text.now) }
    ensures kept { result ≢ OK → is_in.new ≡ is_in.old }
{
    match answer(text, low, high, flags) {
        2 => return NO_VERSION,
        code => *is_in = code,
    }
    OK
}

/// Writes whether each version is in a range.
#[unsafe(no_mangle)]
pub extern "C" fn versions_in_range_all(
    texts: &[u8],
    offsets: &[u64],
    low: &[u8],
    high: &[u8],
    flags: u32,
    answers: &mut [u8],
) -> i32
    ensures good { AreOffsets offsets.now (length texts.now) (length answers.old) → result ≡ OK }
    ensures answers { result ≡ OK → (i : ℕ) → i < length answers.old
        → slice_index answers.new i
        ≡ in_range_code (range_with low.now high.now flags)
        (versioning_of (text_at texts.now offsets.now i)) }
    ensures bad { ¬ (AreOffsets offsets.now (length texts.now) (length answers.old))
        → result ≡ BAD_OFFSETS }
    ensures kept { result ≢ OK → answers.new ≡ answers.old }
{
    if !are_offsets(offsets, texts.len(), answers.len()) {
        return BAD_OFFSETS;
    }
    answer_each(texts, offsets, answers, |text| {
        answer(text, low, high, flags)
    });
    OK
}

// Returns the answer for a text: 1 if its version is in the range, 0 if not, 2 if it is not a version.
// Not inlined: both calls share one copy of the scan and of the writer of keys.
#[inline(never)]
fn answer(text: &[u8], low: &[u8], high: &[u8], flags: u32) -> u8
    ensures { result
        ≡ in_range_code (range_with low.now high.now flags) (versioning_of text.now) }
{
    match VersioningRef::from_bytes(text) {
        Some(version) => code(&version, low, high, flags),
        None => 2,
    }
}

/// Returns 1 if a version is in the range, otherwise 0.
#[inline(always)]
pub fn code(version: &VersioningRef<'_>, low: &[u8], high: &[u8], flags: u32) -> u8
    ensures { result ≡ in_range_code (range_with low.now high.now flags)
        (Some (plain_versioning_ref version.now)) }
{
    if version.is_in(low, high_of(high, flags), kinds_of(flags)) {
        1
    } else {
        0
    }
}

// Returns the high bound that flags tell, if there is one.
#[inline(always)]
fn high_of(high: &[u8], flags: u32) -> Option<&[u8]>
    ensures { option_map (λ bound. bound.now) result ≡ (range_with [] high.now flags).high }
{
    if has_flag(flags, HIGH) {
        Some(high)
    } else {
        None
    }
}

// Returns the kinds that flags tell.
#[inline(always)]
fn kinds_of(flags: u32) -> Kinds
    ensures { result ≡ (range_with [] [] flags).kinds }
{
    Kinds {
        ideal: has_flag(flags, IDEAL),
        general: has_flag(flags, GENERAL),
        complex: has_flag(flags, COMPLEX),
    }
}

// Returns whether a flag is one of the flags.
#[inline(always)]
fn has_flag(flags: u32, flag: u32) -> bool
    ensures { result ≡ has_flag flags flag }
{
    flags & flag != 0
}

// Returns the flags of a range.
fn flags_of(range: &RangeRef<'_>) -> u32
    ensures flags { (low high : List ℕ) → range_with low high result ≡ record {
      low = low;
      high = if is_some range.now.high then Some high else None;
      kinds = range.now.kinds;
      is_exact = range.now.is_exact;
    } }
    ensures few { result < 32 }
{
    one_if(range.kinds.ideal) * IDEAL
        + one_if(range.kinds.general) * GENERAL
        + one_if(range.kinds.complex) * COMPLEX
        + one_if(range.high.is_some()) * HIGH
        + one_if(range.is_exact) * EXACT
}

// Returns 1 if something holds, otherwise 0.
fn one_if(holds: bool) -> u32
    ensures value { result ≡ one_if holds }
    ensures most { result ≤ 1 }
{
    if holds { 1 } else { 0 }
}
