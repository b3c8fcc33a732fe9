//! Numbers and runs of bytes, written into sinks.

ghost use Rattle.std.specs.Prelude.{◌≡◌, drop};
ghost use Rattle.std.specs.{Char.is_ascii_digit, List.prefix_len, List.take_while};
ghost use Rattle.version_order.specs.{keys.Codes.length_bytes, keys.Codes.number_bytes, texts.Class.contains, texts.Front.run_value};

use crate::class::{Class, split_byte, split_run};
use crate::digits::{one_digit, without_zeros};
use crate::sink::{Sink, put_all};

/// Writes a length.
#[inline(always)]
pub fn put_length<S: Sink>(sink: &mut S, length: usize)
    requires { S.fits sink.old (length_bytes length) }
    ensures { S.takes sink.old (length_bytes length) sink.new }
{
    let mut left = length;
    while left >= 255 {
        sink.put(255);
        left -= 255;
    }
    sink.put(left as u8);
}

/// Writes the run of a class at the start of a text, and returns the rest.
#[inline(always)]
pub fn put_run<'t, S: Sink>(sink: &mut S, text: &'t [u8], class: Class) -> &'t [u8]
    requires { S.fits sink.old (take_while (contains class) text.now) }
    ensures bytes { S.takes sink.old (take_while (contains class) text.now) sink.new }
    ensures rest { result.now ≡ drop (prefix_len (contains class) text.now) text.now }
{
    let mut left = text;
    while let Some((first, rest)) = split_byte(left, class) {
        sink.put(first);
        left = rest;
    }
    left
}

/// Writes the number at the start of a text, 0 where it begins with no digit, and returns the rest.
#[inline(always)]
pub fn put_number<'t, S: Sink>(sink: &mut S, text: &'t [u8]) -> &'t [u8]
    requires { S.fits sink.old (number_bytes (run_value text.now)) }
    ensures bytes { S.takes sink.old (number_bytes (run_value text.now)) sink.new }
    ensures rest { result.now ≡ drop (prefix_len is_ascii_digit text.now) text.now }
{
    // Most numbers have one digit, which takes no loop.
    if let Some((digit, rest)) = one_digit(text) {
        sink.put(1);
        sink.put(digit);
        return rest;
    }
    put_long_number(sink, text)
}

/// Writes the number at the start of a text, of any length, and returns the rest.
#[inline(always)]
pub fn put_long_number<'t, S: Sink>(sink: &mut S, text: &'t [u8]) -> &'t [u8]
    requires { S.fits sink.old (number_bytes (run_value text.now)) }
    ensures bytes { S.takes sink.old (number_bytes (run_value text.now)) sink.new }
    ensures rest { result.now ≡ drop (prefix_len is_ascii_digit text.now) text.now }
{
    let (digits, rest) = split_run(without_zeros(text), Class::Digit);
    put_length(sink, digits.len());
    put_all(sink, digits);
    rest
}
