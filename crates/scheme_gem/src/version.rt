//! RubyGems' versions, their order, `Gem::Version#<=>` of RubyGems 3.3, and their keys.

ghost use Rattle.std.specs.Prelude.{◌≡◌, ◌∷◌, [], false, is_some, MatchResult, IfNone, IfSome, None, Some, replicate, true};
ghost use Rattle.std.specs.{Char.is_ascii_alphabetic, List.list_all, declared.cmp.Ordering.TheVariants.Equal};
ghost use Rattle.version_order.specs.{Viable.IsLongestViable, texts.Front.run_value, texts.Front.behind_digits, texts.Front.begins};
ghost use Rattle.scheme_gem.specs.Order.{Letters, Number, entry_bytes, gem_bytes, gem_cmp, rank};
ghost use Rattle.scheme_gem.specs.Segments.{HasLetters, Word, entries_from, entries_in, entry_of, is_lettered, segments_of};
ghost use Rattle.scheme_gem.specs.Texts.{gem_of, is_gem};

use crate::reader::read;
use std::cmp::Ordering;
use version_order::{
    Beside, Class, Facts, Kept, Operators, SchemeVersion, Sink, begins_with, compare_numbers,
    put_all, put_number, split_run,
};

/// A version of RubyGems, borrowed from its text, without the blanks around it.
#[derive(Clone, Copy)]
pub struct Gem<'t> {
    text: &'t [u8],
}

impl<'t> Gem<'t> {
    ghost use Rattle.scheme_gem.specs.Rules.{plain_gem};

    /// Reads a whole text, or returns the length of its longest beginning that some continuation makes a version of
    /// RubyGems, if it is none. Blanks around it don't count.
    pub fn from_bytes(text: &'t [u8]) -> Result<Gem<'t>, usize>
        ensures { MatchResult result (λ version. gem_of text.now ≡ Some (plain_gem version))
            (λ place. (gem_of text.now ≡ None) × IsLongestViable is_gem text.now place) }
    {
        read(text).map(|text| Gem { text })
    }

    /// Compares it with another version.
    pub fn compare(&self, other: &Gem<'_>) -> Ordering
        ensures { result ≡ gem_cmp (plain_gem self.now) (plain_gem other.now) }
    {
        compare_entries(self.text, other.text)
    }
}

// The bytes of a key, in this order: before letters, for a zero before letters, at the end, for a zero before a number,
// and before a number.
const LETTERS: u8 = 1;

const ZERO_BEFORE_LETTERS: u8 = 2;

const END: u8 = 3;

const ZERO_BEFORE_NUMBER: u8 = 4;

const NUMBER: u8 = 5;

// What comes next in a text.
#[derive(Clone, Copy)]
enum Next<'t> {
    /// Letters after so many zeros that count, and the rest of the text.
    Letters(usize, &'t [u8], &'t [u8]),
    /// A number that isn't zero, after so many zeros: the text that begins with it.
    Number(usize, &'t [u8]),
    /// Nothing, or zeros alone.
    End,
}

impl<'t> Next<'t> {
    // Returns its rank: letters come before the end, and numbers after it.
    fn rank(self) -> u8
        ensures { result ≡ rank (entry_of self.entry) }
    {
        match self {
            Next::Letters(..) => LETTERS,
            Next::End => END,
            Next::Number(..) => NUMBER,
        }
    }
}

// Returns what comes next in a text, after letters or before any.
#[inline(always)]
fn next_in<'t>(text: &'t [u8], lettered: bool) -> Next<'t>
    ensures next { entries_in lettered text.now ≡ entries_from lettered result }
    ensures letters { HasLetters result }
{
    let mut left = text;
    let mut zeros = 0;
    'bytes: loop {
        if let Some((letters, rest)) = split_letters(left) {
            let zeros = if lettered { zeros } else { 0 };
            return Next::Letters(zeros, letters, rest);
        }
        if begins_with(left, Class::Digit) {
            let number = compare_numbers(left, &[]);
            if number.order.is_ne() {
                return Next::Number(zeros, left);
            }
            zeros += 1;
            left = number.rest;
        } else {
            match left.split_first() {
                Some((_, rest)) => left = rest,
                None => return Next::End,
            }
        }
    }
}

// Returns the letters that a text begins with, and the rest, or None if it begins with none. A hyphen reads as `.pre.`.
#[inline(always)]
fn split_letters<'t>(text: &'t [u8]) -> Option<(&'t [u8], &'t [u8])>
    ensures letters { IfSome result (λ p. list_all is_ascii_alphabetic p.0.now ≡ true) }
    ensures first { IfSome result
        (λ p. segments_of text.now ≡ Word p.0.now ∷ segments_of p.1.now) }
    ensures none { IfNone result (begins is_lettered text.now ≡ false) }
{
    if begins_with(text, Class::Letter) {
        return Some(split_run(text, Class::Letter));
    }
    match text.split_first() {
        Some((b'-', rest)) => Some((b"pre", rest)),
        _ => None,
    }
}

// Compares two texts entry by entry.
fn compare_entries(x: &[u8], y: &[u8]) -> Ordering
    ensures { result ≡ gem_cmp (entries_in false x.now) (entries_in false y.now) }
{
    let (mut a, mut b) = (x, y);
    let mut lettered = false;
    'entries: loop {
        match (next_in(a, lettered), next_in(b, lettered)) {
            (
                Next::Letters(zeros, letters, rest),
                Next::Letters(other_zeros, other_letters, other_rest),
            ) => {
                let order = zeros.cmp(&other_zeros).then(letters.cmp(other_letters));
                if order.is_ne() {
                    return order;
                }
                a = rest;
                b = other_rest;
                lettered = true;
            }
            (Next::Number(zeros, text), Next::Number(other_zeros, other_text)) => {
                let numbers = compare_numbers(text, other_text);
                let order = other_zeros.cmp(&zeros).then(numbers.order);
                if order.is_ne() {
                    return order;
                }
                a = numbers.rest;
                b = numbers.other_rest;
            }
            (one, other) => return one.rank().cmp(&other.rank()),
        }
    }
}

// Writes the bytes of each entry of a text, and of the end.
fn put_entries<S: Sink>(sink: &mut S, text: &[u8])
    requires { S.fits sink.old (gem_bytes (entries_in false text.now)) }
    ensures { S.takes sink.old (gem_bytes (entries_in false text.now)) sink.new }
{
    let mut left = text;
    let mut lettered = false;
    'entries: loop {
        match next_in(left, lettered) {
            Next::Letters(zeros, letters, rest) => {
                put_letters(sink, zeros, letters);
                left = rest;
                lettered = true;
            }
            Next::Number(zeros, text) => left = put_counted(sink, zeros, text),
            Next::End => {
                sink.put(END);
                return;
            }
        }
        if sink.is_decided() {
            return;
        }
    }
}

// Writes zeros and the letters after them.
#[inline(always)]
fn put_letters<S: Sink>(sink: &mut S, zeros: usize, letters: &[u8])
    requires letters { list_all is_ascii_alphabetic letters.now ≡ true }
    requires fits { S.fits sink.old (entry_bytes (Some (Letters zeros letters.now))) }
    ensures { S.takes sink.old (entry_bytes (Some (Letters zeros letters.now))) sink.new }
{
    put_zeros(sink, zeros, ZERO_BEFORE_LETTERS);
    sink.put(LETTERS);
    put_all(sink, letters);
    sink.put(0);
}

// Writes zeros and the number after them, which a text begins with, and returns the rest.
#[inline(always)]
fn put_counted<'t, S: Sink>(sink: &mut S, zeros: usize, text: &'t [u8]) -> &'t [u8]
    requires { S.fits sink.old (entry_bytes (Some (Number zeros (run_value text.now)))) }
    ensures bytes { S.takes sink.old (entry_bytes (Some (Number zeros (run_value text.now)))) sink.new }
    ensures rest { result.now ≡ behind_digits text.now }
{
    put_zeros(sink, zeros, ZERO_BEFORE_NUMBER);
    sink.put(NUMBER);
    put_number(sink, text)
}

// Writes a byte for each zero.
#[inline(always)]
fn put_zeros<S: Sink>(sink: &mut S, zeros: usize, byte: u8)
    requires { S.fits sink.old (replicate zeros byte) }
    ensures { S.takes sink.old (replicate zeros byte) sink.new }
{
    let mut left = zeros;
    while left > 0 {
        sink.put(byte);
        left -= 1;
    }
}

impl<'t> SchemeVersion<'t> for Gem<'t> {
    ghost use Rattle.std.specs.Ordering.{on};
    ghost use Rattle.version_order.proofs.lemmas.Codes.{writes_on, plain_no_parts};
    ghost use Rattle.version_order.specs.{Facts.key_room, Facts.plain_facts, Keyed.AreWithin, Keyed.by_key};
    ghost use Rattle.scheme_gem.specs.{Laws.gem_some, Laws.gem_writes, Rules.plain_gem, Rules.gem_facts, Rules.gem_rules};

    ghost rules = { gem_rules };

    ghost plain = { λ version. by_key (gem_bytes (plain_gem version)) };

    ghost order = { on plain_gem gem_cmp };

    #[inline(always)]
    fn facts() -> Facts
        ensures facts { plain_facts result ≡ gem_facts }
        ensures within { AreWithin gem_rules.read_as (key_room gem_facts) }
    {
        Facts {
            number: 6,
            name: "gem",
            aliases: &["rubygems", "ruby"],
            operators: Operators::Plain,
            per_byte: 5,
            beside: 0,
            marks: b"-.",
        }
    }

    #[inline(always)]
    fn read(text: &'t [u8]) -> Option<Gem<'t>> {
        Gem::from_bytes(text).ok()
    }

    #[inline(always)]
    fn viable_length(text: &[u8]) -> usize
        ensures { IsLongestViable (λ begun. is_some (gem_rules.read_as begun)) text.now result }
    {
        match Gem::from_bytes(text) {
            Ok(_) => text.len(),
            Err(place) => place,
        }
    }

    #[inline(always)]
    fn compare(&self, other: &Gem<'t>) -> Ordering {
        Gem::compare(self, other)
    }

    fn put_key<S: Sink>(&self, sink: &mut S) {
        put_entries(sink, self.text);
    }

    #[inline(always)]
    fn put_begun<S: Sink>(&self, _kept: Kept, _sink: &mut S) {}

    #[inline(always)]
    fn is_bare(&self) -> bool {
        false
    }

    #[inline(always)]
    fn compare_key(&self, bytes: &[u8]) -> Ordering {
        let mut beside = Beside {
            left: bytes,
            order: Ordering::Equal,
        };
        self.put_key(&mut beside);
        beside.order()
    }

    ghost writes = { writes_on plain_gem gem_writes };

    ghost some = { λ version. gem_some (plain_gem version) };

    ghost begins = { plain_no_parts };
}
