//! The printed text of a part, byte by byte.

ghost use Rattle.std.specs.Prelude.{◌≡◌, ◌==◌, ◌++◌, [], List, ℕ, drop, slice_get, true};
ghost use Rattle.std.specs.{Char.is_ascii_digit, Fmt.decimal, Iterator.item_count, Iterator.YieldsFirst, List.list_all, List.prefix_len};
ghost use Rattle.version_order.specs.texts.Class.{contains};

use crate::key::inline::InlineBytes;
use std::marker::Model;
use version_order::{Class, run_length};

/// The remaining bytes of the printed text of a part: the digits of a number, a borrowed text, and the digits of a
/// second number.
#[derive(Drop)]
pub struct PartText<'a> {
    before: InlineBytes,
    text: &'a [u8],
    after: InlineBytes,
}

impl<'a> Model for PartText<'a> {
    ghost Value = { List ℕ };

    ghost view = { λ part. part.before ++ (part.text.now ++ part.after) };
}

impl<'a> PartText<'a> {
    /// Returns a number in decimal.
    pub fn number(number: u32) -> PartText<'a>
        ensures { result ≡ decimal number }
    {
        PartText::of(InlineBytes::decimal(number), &[], InlineBytes::none())
    }

    /// Returns a text.
    pub fn text(text: &'a str) -> PartText<'a>
        ensures { result ≡ text.now }
    {
        PartText::of(InlineBytes::none(), text.as_bytes(), InlineBytes::none())
    }

    /// Returns a number in decimal, and a text after it.
    pub fn numbered(number: u32, text: &'a str) -> PartText<'a>
        ensures { result ≡ decimal number ++ text.now }
    {
        PartText::of(
            InlineBytes::decimal(number),
            text.as_bytes(),
            InlineBytes::none(),
        )
    }

    /// Returns a text between two numbers in decimal.
    pub fn between(first: u32, text: &'a str, second: u32) -> PartText<'a>
        ensures { result ≡ decimal first ++ text.now ++ decimal second }
    {
        PartText::of(
            InlineBytes::decimal(first),
            text.as_bytes(),
            InlineBytes::decimal(second),
        )
    }

    fn of(before: InlineBytes, text: &'a [u8], after: InlineBytes) -> PartText<'a>
        ensures { result ≡ before ++ (text.now ++ after) }
    {
        PartText {
            before,
            text,
            after,
        }
    }

    // Sets the bytes to those of a text.
    #[inline(always)]
    pub(crate) fn set_text(&mut self, text: &'a str)
        ensures { self.new ≡ text.now }
    {
        self.before.clear();
        self.text = text.as_bytes();
        self.after.clear();
    }

    // The next byte, without taking it.
    pub(crate) fn first(&self) -> Option<u8>
        ensures { result ≡ slice_get self.now 0 }
    {
        self.before
            .as_slice()
            .first()
            .or(self.text.first())
            .or(self.after.as_slice().first())
            .copied()
    }

    // The length of the run of digits that the text begins with.
    #[tactic(auto, using(crate::proofs::lemmas::Scans::runs_of_two))]
    pub(crate) fn digit_count(&self) -> usize
        ensures { result ≡ prefix_len is_ascii_digit self.now }
    {
        let before = self.before.as_slice();
        let count = run_length(before, Class::Digit);
        if count < before.len() {
            return count;
        }
        let more = run_length(self.text, Class::Digit);
        if more < self.text.len() {
            return count + more;
        }
        count + more + run_length(self.after.as_slice(), Class::Digit)
    }

    // Takes the run of a class that the text begins with, as far as the borrowed text has it. Takes nothing while
    // digits of the first number remain.
    #[tactic(auto, using(crate::proofs::lemmas::Cited::take_run_cites))]
    pub(crate) fn take_run(&mut self, class: Class) -> &'a [u8]
        ensures taken { self.old ≡ result.now ++ self.new }
        ensures all { list_all (contains class) result.now ≡ true }
    {
        if !self.before.as_slice().is_empty() {
            return &[];
        }
        let (run, rest) = self.text.split_at(run_length(self.text, class));
        self.text = rest;
        run
    }

    // Takes the zeros that the text begins with.
    pub(crate) fn skip_zeros(&mut self)
        ensures { self.new ≡ drop (prefix_len (λ b. b == 48) self.old) self.old }
    {
        while let Some(b'0') = self.first() {
            let _ = self.next();
        }
    }
}

impl<'a> Iterator for PartText<'a> {
    type Item = u8;

    ghost next_gives = { YieldsFirst (λ part. part) };

    ghost remaining = { item_count (λ part. part) };

    fn next(&mut self) -> Option<u8> {
        if let Some(digit) = self.before.next() {
            return Some(digit);
        }
        if let Some((first, rest)) = self.text.split_first() {
            self.text = rest;
            return Some(*first);
        }
        self.after.next()
    }
}
