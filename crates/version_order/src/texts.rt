//! What texts of several schemes are made of.

ghost use Rattle.std.specs.Prelude.{◌≡◌, ◌≢◌, ◌==◌, ◌∷◌, ◌<◌, ◌≤◌, ◌-◌, ◌++◌, drop, false, length, nat_lt, slice_index, take, true, MatchOption, ℕ};
ghost use Rattle.std.specs.{List.list_all, List.prefix_len, Option.option_map};
ghost use Rattle.version_order.specs.texts.{Class.contains, Cuts.cut_first, Cuts.cut_last, Cuts.is_epoch, Cuts.split_epoch, Front.run_value, Front.begins};

use crate::class::Class;
use crate::digits::{compare_numbers, is_digits};

/// Returns what stands before the first byte of a kind, and behind it, or None if there is none.
#[inline(always)]
pub fn cut_first(text: &[u8], byte: u8) -> Option<(&[u8], &[u8])>
    ensures { option_map (λ cut. (cut.0.now, cut.1.now)) result ≡ cut_first byte text.now }
{
    let mut place = 0;
    while place < text.len() {
        if text[place] == byte {
            return Some((&text[..place], &text[place + 1..]));
        }
        place += 1;
    }
    None
}

/// Returns what stands before the last byte of a kind, and behind it, or None if there is none.
#[inline(always)]
pub fn cut_last(text: &[u8], byte: u8) -> Option<(&[u8], &[u8])>
    ensures { option_map (λ cut. (cut.0.now, cut.1.now)) result ≡ cut_last byte text.now }
{
    let mut place = text.len();
    while place > 0 {
        place -= 1;
        if text[place] == byte {
            return Some((&text[..place], &text[place + 1..]));
        }
    }
    None
}

/// Returns the digits of the epoch before the first colon, none where there is no colon, and the text behind it. Returns
/// None if what stands before the colon is no number, or one above `most`.
#[inline(always)]
pub fn split_epoch<'t>(text: &'t [u8], most: &[u8]) -> Option<(&'t [u8], &'t [u8])>
    requires { 9 ≤ run_value most.now }
    ensures { option_map (λ cut. (run_value cut.0.now, cut.1.now)) result
        ≡ split_epoch (run_value most.now) text.now }
{
    // Most epochs are one digit.
    if let [digit, b':', ..] = text
        && digit.is_ascii_digit()
    {
        return Some((&text[..1], &text[2..]));
    }
    match cut_first(text, b':') {
        None => Some((&[], text)),
        Some(cut) if is_epoch(cut.0, most) => Some(cut),
        _ => None,
    }
}

/// Returns whether a text is digits whose number is at most that of other digits.
#[inline(always)]
pub fn is_epoch(text: &[u8], most: &[u8]) -> bool
    ensures { result ≡ is_epoch (run_value most.now) text.now }
{
    is_digits(text) && compare_numbers(text, most).order.is_le()
}

/// Returns how many bytes two texts have in common at their starts.
#[inline(always)]
pub fn common_length(x: &[u8], y: &[u8]) -> usize
    ensures within { result ≤ length x.now }
    ensures other_within { result ≤ length y.now }
    ensures same { take result x.now ≡ take result y.now }
    ensures ends { result < length x.now → result < length y.now
        → slice_index x.now result ≢ slice_index y.now result }
{
    let mut place = 0;
    while place < x.len() && place < y.len() && x[place] == y[place] {
        place += 1;
    }
    place
}

/// Returns where the run of a class begins that ends at a place.
#[inline(always)]
pub fn run_start(text: &[u8], end: usize, class: Class) -> usize
    requires { end ≤ length text.now }
    ensures within { result ≤ end }
    ensures run { (place : ℕ) → result ≤ place → place < end → contains class (slice_index text.now place) ≡ true }
    ensures begins { 0 < result → contains class (slice_index text.now (result - 1)) ≡ false }
{
    let mut start = end;
    while start > 0 && class.contains(text[start - 1]) {
        start -= 1;
    }
    start
}

/// Returns what follows a byte, if a text begins with it.
#[inline(always)]
pub fn after_byte(byte: u8, text: &[u8]) -> Option<&[u8]>
    ensures { MatchOption result (begins (λ first. first == byte) text.now ≡ false)
        (λ behind. text.now ≡ byte ∷ behind.now) }
{
    match text.split_first() {
        Some((first, behind)) if *first == byte => Some(behind),
        _ => None,
    }
}
