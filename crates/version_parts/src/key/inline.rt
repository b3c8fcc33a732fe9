//! A small array for the bytes of a piece that are computed at once.

ghost use Rattle.std.specs.Prelude.{◌≡◌, ◌∷◌, ◌++◌, ◌+◌, ◌<◌, ◌≤◌, [], List, ℕ, drop, length, IsTrue, None, Some};
ghost use Rattle.std.specs.{Fmt.decimal, Iterator.item_count, Iterator.YieldsFirst};
ghost use Rattle.version_order.specs.keys.Codes.{number_bytes};
ghost use Rattle.version_rules.specs.key.PartKey.{part_bytes, Number};
ghost use Rattle.version_parts.specs.Pieces.{GonePast};

use itoa::write_digits;
use std::marker::Model;

// The longest content is a plain number as the last part of a list: three marks, the count of its digits, and ten
// digits.
const MOST: usize = 14;

// At most 14 bytes: those that are still to be read.
#[derive(Drop)]
pub(crate) struct InlineBytes {
    bytes: [u8; MOST],
    start: u8,
}

impl Model for InlineBytes {
    ghost Value = { List ℕ };

    ghost view = { λ inline. drop inline.start inline.bytes };

    ghost invariant = { λ inline. inline.start ≤ 14 };
}

impl InlineBytes {
    // Returns no bytes.
    #[inline(always)]
    pub(crate) fn none() -> InlineBytes
        ensures { result ≡ [] }
    {
        InlineBytes {
            bytes: [0; MOST],
            start: MOST as u8,
        }
    }

    // Returns a number in decimal.
    pub(crate) fn decimal(number: u32) -> InlineBytes
        ensures { result ≡ decimal number }
    {
        let mut inline = InlineBytes::none();
        inline.put_decimal(number);
        inline
    }

    // Returns the bytes of a number: the count of its digits, then the digits.
    #[inline(always)]
    pub(crate) fn number(number: u32) -> InlineBytes
        ensures { result ≡ number_bytes number }
    {
        let mut inline = InlineBytes::none();
        inline.put_number(number);
        inline
    }

    // Removes all bytes.
    #[inline(always)]
    pub(crate) fn clear(&mut self)
        ensures { self.new ≡ [] }
    {
        self.start = MOST as u8;
    }

    // Sets the bytes to one byte.
    #[inline(always)]
    pub(crate) fn set_byte(&mut self, byte: u8)
        ensures { self.new ≡ byte ∷ [] }
    {
        self.clear();
        self.put(byte);
    }

    // Sets the bytes to a plain number as a part.
    #[inline(always)]
    pub(crate) fn set_plain_part(&mut self, number: u32)
        ensures { self.new ≡ part_bytes (Some (Number number None)) }
    {
        self.clear();
        self.put_plain_part(number);
    }

    // Sets the bytes to a plain number as the last part of a list, and the end of the list.
    #[inline(always)]
    pub(crate) fn set_last_plain_part(&mut self, number: u32)
        ensures { self.new ≡ part_bytes (Some (Number number None)) ++ part_bytes None }
    {
        self.set_byte(2);
        self.put_plain_part(number);
    }

    // Sets the bytes to a byte, and the bytes of a number after it.
    #[inline(always)]
    pub(crate) fn set_byte_and_number(&mut self, byte: u8, number: u32)
        ensures { self.new ≡ byte ∷ number_bytes number }
    {
        self.clear();
        self.put_number(number);
        self.put(byte);
    }

    // Puts a byte before the others.
    #[inline(always)]
    pub(crate) fn put(&mut self, byte: u8)
        requires { length self.old < 14 }
        ensures { self.new ≡ byte ∷ self.old }
    {
        self.start -= 1;
        self.bytes[usize::from(self.start)] = byte;
    }

    // Puts a plain number as a part before the others.
    fn put_plain_part(&mut self, number: u32)
        requires { length self.old ≤ 1 }
        ensures { self.new ≡ part_bytes (Some (Number number None)) ++ self.old }
    {
        self.put(2);
        self.put_number(number);
        self.put(3);
    }

    // Puts the bytes of a number before the others.
    #[tactic(auto, using(crate::proofs::lemmas::Keys::number_put))]
    #[inline(always)]
    fn put_number(&mut self, number: u32)
        requires { length self.old ≤ 2 }
        ensures value { self.new ≡ number_bytes number ++ self.old }
        ensures short { length self.new ≤ 11 + length self.old }
    {
        if number == 0 {
            self.put(0);
        } else {
            let count = self.put_decimal(number);
            self.put(count);
        }
    }

    // Puts a number in decimal before the others, and returns the count of its digits.
    #[tactic(auto, using(crate::proofs::lemmas::Keys::ten_digits, crate::proofs::lemmas::Keys::room))]
    fn put_decimal(&mut self, number: u32) -> u8
        requires { length self.old ≤ 3 }
        ensures value { self.new ≡ decimal number ++ self.old }
        ensures count { result ≡ length (decimal number) }
        ensures short { result ≤ 10 }
    {
        let end = self.start;
        self.start = write_digits(u64::from(number), &mut self.bytes, usize::from(end)) as u8;
        end - self.start
    }

    // Removes from the start of both as many bytes as both have, if these bytes are the same.
    #[tactic(auto, using(crate::proofs::lemmas::Compare::past))]
    #[inline(always)]
    pub(crate) fn pass_same(&mut self, other: &mut InlineBytes)
        ensures { GonePast self.old other.old self.new other.new }
    {
        let (a, b) = (self.as_slice(), other.as_slice());
        let count = a.len().min(b.len());
        if a[..count] == b[..count] {
            self.start += count as u8;
            other.start += count as u8;
        }
    }

    // Returns whether no bytes remain.
    #[inline(always)]
    pub(crate) fn is_empty(&self) -> bool
        ensures { IsTrue result → self.now ≡ [] }
    {
        self.start == MOST as u8
    }

    // Returns the bytes as a slice.
    #[inline(always)]
    pub(crate) fn as_slice(&self) -> &[u8]
        ensures value { result.now ≡ self.now }
        ensures short { length result.now ≤ 14 }
    {
        &self.bytes[usize::from(self.start)..]
    }
}

impl Iterator for InlineBytes {
    type Item = u8;

    ghost next_gives = { YieldsFirst (λ inline. inline) };

    ghost remaining = { item_count (λ inline. inline) };

    fn next(&mut self) -> Option<u8> {
        let byte = self.as_slice().first().copied()?;
        self.start += 1;
        Some(byte)
    }
}
