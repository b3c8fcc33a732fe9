//! Digits of value below 2 ^ 32. A numeral has no leading zero.

ghost use Rattle.std.specs.Prelude.{◌≡◌, ◌^◌, None, Some, if◌then◌else◌, nat_lt, true};
ghost use Rattle.std.specs.Str.Parse.{digits_value};
ghost use Rattle.version_order.specs.texts.Front.{is_digits};
ghost use Rattle.version_rules.specs.grammar.MChunk.{value_of_digits};
ghost use Rattle.version_texts.specs.{Scan.is_numeral, VersioningRef.numeral_value};

use version_order::is_digits;

/// Returns whether digits are a numeral.
#[inline(always)]
#[tactic(auto, using(crate::proofs::lemmas::scan::Spelled::leading_zero, crate::proofs::lemmas::scan::Spelled::no_leading_zero, crate::proofs::lemmas::scan::Spelled::one_digit, crate::proofs::lemmas::scan::Spelled::some_digits, crate::proofs::lemmas::Library::same_told))]
pub fn is_numeral(digits: &[u8]) -> bool
    requires { is_digits digits.now ≡ true }
    ensures { result ≡ is_numeral digits.now }
{
    digits.len() == 1 || (digits[0] != b'0' && is_below_limit(digits))
}

// Returns whether the value of digits is below 2 ^ 32. That of nine digits is.
#[inline(always)]
#[tactic(auto, using(version_rules::proofs::lemmas::Numeral::nine_digits, crate::proofs::lemmas::scan::Spelled::all_digits, crate::proofs::lemmas::Library::less_told))]
fn is_below_limit(digits: &[u8]) -> bool
    requires { is_digits digits.now ≡ true }
    ensures { result ≡ nat_lt (digits_value 10 digits.now) (2 ^ 32) }
{
    digits.len() < 10 || value_below_limit(digits).is_some()
}

// Returns the value of digits if it is below 2 ^ 32. Few versions have the ten digits that need this call in a scan,
// so it is not inlined.
#[inline(never)]
#[tactic(auto, using(version_rules::proofs::lemmas::Numeral::next_value, crate::proofs::lemmas::scan::Spelled::all_digits, crate::proofs::lemmas::scan::Spelled::too_large))]
fn value_below_limit(digits: &[u8]) -> Option<u32>
    requires { is_digits digits.now ≡ true }
    ensures { result
        ≡ (if nat_lt (digits_value 10 digits.now) (2 ^ 32) then Some (digits_value 10 digits.now)
        else None) }
{
    let mut value: u64 = 0;
    for digit in digits {
        value = value * 10 + u64::from(*digit - b'0');
        if value >= 0x1_0000_0000 {
            return None;
        }
    }
    Some(value as u32)
}

/// Returns the value of a text of digits if it is below 2 ^ 32, and None for any other text.
pub fn small_number(text: &[u8]) -> Option<u32>
    ensures { result ≡ value_of_digits text.now }
{
    if is_digits(text) {
        value_below_limit(text)
    } else {
        None
    }
}

/// Returns whether a text is a numeral.
#[tactic(auto, unfolding(crate::specs::Scan::is_numeral))]
pub fn spells_numeral(text: &[u8]) -> bool
    ensures { result ≡ is_numeral text.now }
{
    is_digits(text) && is_numeral(text)
}

/// Returns the value of a numeral, and None for any other text.
#[tactic(auto, using(crate::proofs::lemmas::scan::Spelled::numeral_spells, crate::proofs::lemmas::scan::Spelled::no_numeral, crate::proofs::lemmas::Library::less_told))]
pub fn numeral_value(text: &[u8]) -> Option<u32>
    ensures { result ≡ numeral_value text.now }
{
    if is_digits(text) && is_numeral(text) {
        value_below_limit(text)
    } else {
        None
    }
}
