//! Numbers of any size, by their digits.

ghost use Rattle.std.specs.Prelude.{◌≡◌, ◌≢◌, ◌==◌, ◌∷◌, drop, false, true, IfNone, IfSome};
ghost use Rattle.std.specs.{Char.is_ascii_digit, List.prefix_len, Ordering.nat_cmp, declared.cmp.Ordering.TheVariants.Equal};
ghost use Rattle.version_order.specs.texts.Front.{behind_digits, is_digits, run_value, starts_with_digit};

use crate::class::{Class, begins_with, split_run};
use crate::compared::Compared;
use std::cmp::Ordering;

/// Returns whether a text is digits, one or more.
#[tactic(auto, using(crate::proofs::lemmas::Runs::run_is))]
pub fn is_digits(text: &[u8]) -> bool
    ensures { result ≡ is_digits text.now }
{
    let (_, rest) = split_run(text, Class::Digit);
    begins_with(text, Class::Digit) && rest.is_empty()
}

/// Compares the numbers at the starts of two texts, without leading zeros: by the count of digits, and then by the first
/// digits that differ. A text that begins with no digit has the number 0. No more digits are read of one number than the
/// other has.
#[inline(always)]
pub fn compare_numbers<'t>(x: &'t [u8], y: &'t [u8]) -> Compared<'t>
    ensures order { result.order ≡ nat_cmp (run_value x.now) (run_value y.now) }
    ensures rest { result.order ≡ Equal → result.rest.now ≡ behind_digits x.now }
    ensures other_rest { result.order ≡ Equal → result.other_rest.now ≡ behind_digits y.now }
{
    let (mut a, mut b) = (without_zeros(x), without_zeros(y));
    'digits: loop {
        let Some((digit, rest)) = split_digit(a) else {
            return Compared::new(false.cmp(&begins_with(b, Class::Digit)), a, b);
        };
        let Some((other, other_rest)) = split_digit(b) else {
            return Compared::new(Ordering::Greater, a, b);
        };
        if digit != other {
            let order = compare_lengths(rest, other_rest).then(digit.cmp(&other));
            return Compared::new(order, a, b);
        }
        a = rest;
        b = other_rest;
    }
}

/// Compares the numbers that two texts begin with, or returns None if one begins with no digit. Mostly one of them is one
/// digit, which takes no loop.
#[inline(always)]
pub fn compare_if_numbers(x: &[u8], y: &[u8]) -> Option<Ordering>
    ensures digits { IfSome result
        (λ order. (starts_with_digit x.now ≡ true) × (starts_with_digit y.now ≡ true)) }
    ensures order { IfSome result (λ order. order ≡ nat_cmp (run_value x.now) (run_value y.now)) }
{
    let ((digit, rest), (other, other_rest)) = (split_digit(x)?, split_digit(y)?);
    match (
        begins_with(rest, Class::Digit),
        begins_with(other_rest, Class::Digit),
    ) {
        (false, false) => Some(digit.cmp(&other)),
        (true, false) if digit != b'0' => Some(Ordering::Greater),
        (false, true) if other != b'0' => Some(Ordering::Less),
        _ => Some(compare_numbers(x, y).order),
    }
}

/// Compares the numbers of two epochs. Mostly there is none.
#[inline(always)]
pub fn compare_epochs(x: &[u8], y: &[u8]) -> Ordering
    ensures { result ≡ nat_cmp (run_value x.now) (run_value y.now) }
{
    if x.is_empty() && y.is_empty() {
        return Ordering::Equal;
    }
    compare_numbers(x, y).order
}

// Compares the counts of the digits that two texts begin with.
#[inline(always)]
fn compare_lengths(x: &[u8], y: &[u8]) -> Ordering
    ensures { result
        ≡ nat_cmp (prefix_len is_ascii_digit x.now) (prefix_len is_ascii_digit y.now) }
{
    let mut place = 0;
    'digits: loop {
        let others = place < y.len() && y[place].is_ascii_digit();
        if place == x.len() || !x[place].is_ascii_digit() {
            return if others {
                Ordering::Less
            } else {
                Ordering::Equal
            };
        }
        if !others {
            return Ordering::Greater;
        }
        place += 1;
    }
}

// The digit that a text begins with, and the rest, or None if it begins with no digit.
#[inline(always)]
fn split_digit(text: &[u8]) -> Option<(u8, &[u8])>
    ensures some { IfSome result (λ p. (text.now ≡ p.0 ∷ p.1.now) × (is_ascii_digit p.0 ≡ true)) }
    ensures none { IfNone result (starts_with_digit text.now ≡ false) }
{
    match text {
        [digit, rest @ ..] if digit.is_ascii_digit() => Some((*digit, rest)),
        _ => None,
    }
}

/// The digit that a text begins with, and the rest, or None if the digit is 0 or more digits follow it.
#[inline(always)]
pub fn one_digit(text: &[u8]) -> Option<(u8, &[u8])>
    ensures { IfSome result (λ p. (text.now ≡ p.0 ∷ p.1.now) × (is_ascii_digit p.0 ≡ true)
        × (p.0 ≢ 48) × (starts_with_digit p.1.now ≡ false)) }
{
    let (digit, rest) = split_digit(text)?;
    if digit == b'0' || begins_with(rest, Class::Digit) {
        return None;
    }
    Some((digit, rest))
}

/// The text after its leading zeros.
#[inline(always)]
pub fn without_zeros(text: &[u8]) -> &[u8]
    ensures { result.now ≡ drop (prefix_len (λ b. b == 48) text.now) text.now }
{
    let mut left = text;
    while let [b'0', rest @ ..] = left {
        left = rest;
    }
    left
}
