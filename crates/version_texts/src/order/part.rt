//! The first parts of two texts, compared.

ghost use Rattle.std.specs.Prelude.{◌≡◌, Some, false};
ghost use Rattle.std.specs.{List.before_first, Option.option_cmp, declared.cmp.Ordering.TheVariants.Equal};
ghost use Rattle.version_order.specs.{keys.Lists.none_last_cmp, texts.Cuts.from_first, texts.Front.number_front, texts.Front.begins};
ghost use Rattle.version_rules.specs.key.PartKey.{part_cmp, part_key, suffix_of, numbered_cmp, split_cmp, split_of};
ghost use Rattle.version_pieces.specs.Pieces.{delimits, in_run};
ghost use Rattle.version_pieces.specs.declared.runs.Run.TheVariants.{Word};

use std::cmp::Ordering;
use version_order::{Class, Compared, begins_with, compare_numbers};
use version_pieces::{Delimiters, Run, compare_runs, compare_texts};

// Compares two texts by their first parts, which go to the ends that are given. If these are equal, returns what
// follows them.
#[inline(always)]
pub(crate) fn compare_parts_to<'a>(delimiters: Delimiters, a: &'a [u8], b: &'a [u8]) -> Compared<'a>
    ensures order { result.order ≡ part_cmp (Some (part_key (before_first (delimits delimiters) a.now)))
        (Some (part_key (before_first (delimits delimiters) b.now))) }
    ensures rest { result.order ≡ Equal → result.rest.now ≡ from_first (delimits delimiters) a.now }
    ensures other_rest { result.order ≡ Equal
        → result.other_rest.now ≡ from_first (delimits delimiters) b.now }
{
    match (begins_with(a, Class::Digit), begins_with(b, Class::Digit)) {
        (true, true) => {
            let numbers = compare_numbers(a, b);
            if numbers.order != Ordering::Equal {
                return numbers;
            }
            compare_suffixes(delimiters, numbers.rest, numbers.other_rest)
        }
        (true, false) => Compared::new(Ordering::Greater, a, b),
        (false, true) => Compared::new(Ordering::Less, a, b),
        (false, false) => compare_words(delimiters, a, b),
    }
}

// Compares what follows two numbers, up to the ends of the parts. An empty suffix comes last.
#[inline(always)]
#[tactic(auto, using(version_pieces::proofs::lemmas::Pieces::no_bytes, version_pieces::proofs::lemmas::Pieces::no_suffix, version_pieces::proofs::lemmas::Pieces::some_suffix))]
fn compare_suffixes<'a>(delimiters: Delimiters, a: &'a [u8], b: &'a [u8]) -> Compared<'a>
    ensures order { result.order
        ≡ none_last_cmp split_cmp (suffix_of (before_first (delimits delimiters) a.now))
        (suffix_of (before_first (delimits delimiters) b.now)) }
    ensures rest { result.order ≡ Equal → result.rest.now ≡ from_first (delimits delimiters) a.now }
    ensures other_rest { result.order ≡ Equal
        → result.other_rest.now ≡ from_first (delimits delimiters) b.now }
{
    match (
        Run::Part(delimiters).begins(a),
        Run::Part(delimiters).begins(b),
    ) {
        (true, true) => compare_words(delimiters, a, b),
        (true, false) => Compared::new(Ordering::Less, a, b),
        (false, true) => Compared::new(Ordering::Greater, a, b),
        (false, false) => Compared::new(Ordering::Equal, a, b),
    }
}

// Compares two texts by their first parts as words: by the bytes before the first digits, then by the numbers there,
// then by the bytes after these.
#[inline(never)]
fn compare_words<'a>(delimiters: Delimiters, a: &'a [u8], b: &'a [u8]) -> Compared<'a>
    ensures order { result.order ≡ split_cmp (split_of (before_first (delimits delimiters) a.now))
        (split_of (before_first (delimits delimiters) b.now)) }
    ensures rest { result.order ≡ Equal → result.rest.now ≡ from_first (delimits delimiters) a.now }
    ensures other_rest { result.order ≡ Equal
        → result.other_rest.now ≡ from_first (delimits delimiters) b.now }
{
    let words = compare_runs(a, b, Run::Word(delimiters));
    if words.order != Ordering::Equal {
        return words;
    }
    compare_numbered(delimiters, words.rest, words.other_rest)
}

// Compares two parts that are empty or begin with digits: no number < a number, numbers by value, then the bytes after
// them.
#[inline(always)]
fn compare_numbered<'a>(delimiters: Delimiters, a: &'a [u8], b: &'a [u8]) -> Compared<'a>
    requires a { begins (in_run (Word delimiters)) a.now ≡ false }
    requires b { begins (in_run (Word delimiters)) b.now ≡ false }
    ensures order { result.order
        ≡ option_cmp numbered_cmp (number_front (before_first (delimits delimiters) a.now))
        (number_front (before_first (delimits delimiters) b.now)) }
    ensures rest { result.order ≡ Equal → result.rest.now ≡ from_first (delimits delimiters) a.now }
    ensures other_rest { result.order ≡ Equal
        → result.other_rest.now ≡ from_first (delimits delimiters) b.now }
{
    match (begins_with(a, Class::Digit), begins_with(b, Class::Digit)) {
        (true, true) => {
            let numbers = compare_numbers(a, b);
            if numbers.order != Ordering::Equal {
                return numbers;
            }
            compare_texts(delimiters, numbers.rest, numbers.other_rest)
        }
        (true, false) => Compared::new(Ordering::Greater, a, b),
        (false, true) => Compared::new(Ordering::Less, a, b),
        (false, false) => Compared::new(Ordering::Equal, a, b),
    }
}
