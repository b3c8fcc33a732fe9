//! Releases, compared and written.

ghost use Rattle.std.specs.Prelude.{◌≡◌, Some, true};
ghost use Rattle.std.specs.{Char.is_ascii_digit, List.list_all, Ordering.nat_cmp, declared.cmp.Ordering.TheVariants.Equal, declared.cmp.Ordering.TheVariants.Greater};
ghost use Rattle.version_order.specs.texts.{Bytes.is_identifier_byte, Bytes.is_metadata_byte, Cuts.behind_piece, Cuts.first_piece, Front.run_value};
ghost use Rattle.version_rules.specs.order.Parts.{chunk_bytes, chunk_cmp, release_bytes, release_cmp};
ghost use Rattle.version_pieces.specs.Pieces.{chunk_of, chunks_of};

use crate::runs::{Delimiters, compare_texts};
use std::cmp::Ordering;
use version_order::{
    Class, Compared, Sink, behind_first, compare_numbers, piece_is_empty, put_all, put_number,
    split_run,
};

/// Compares two releases chunk by chunk: numbers by value, which come before texts, and texts by bytes. A prefix comes
/// before the longer release. Does not allocate.
#[inline(never)]
pub fn compare_releases(x: &[u8], y: &[u8]) -> Ordering
    ensures { result ≡ release_cmp (chunks_of x.now) (chunks_of y.now) }
{
    let (mut a, mut b) = (x, y);
    'chunks: loop {
        let chunks = compare_first_chunks(a, b);
        if chunks.order != Ordering::Equal {
            return chunks.order;
        }
        match (behind_first(chunks.rest), behind_first(chunks.other_rest)) {
            (Some(more), Some(others)) => {
                a = more;
                b = others;
            }
            (Some(_), None) => return Ordering::Greater,
            (None, Some(_)) => return Ordering::Less,
            (None, None) => return Ordering::Equal,
        }
    }
}

// Compares two releases by their first chunks. If these are equal, returns what follows them.
// Numbers come before texts.
#[inline(always)]
fn compare_first_chunks<'a>(a: &'a [u8], b: &'a [u8]) -> Compared<'a>
    ensures order { result.order
        ≡ chunk_cmp (chunk_of (first_piece a.now)) (chunk_of (first_piece b.now)) }
    ensures rest { result.order ≡ Equal → result.rest.now ≡ behind_piece a.now }
    ensures other_rest { result.order ≡ Equal → result.other_rest.now ≡ behind_piece b.now }
{
    let numbers = compare_numbers(a, b);
    match numbers.order {
        Ordering::Greater => Compared::new(compare_greater(a, b), a, b),
        Ordering::Less => Compared::new(compare_greater(b, a).reverse(), a, b),
        Ordering::Equal => match (
            piece_is_empty(numbers.rest),
            piece_is_empty(numbers.other_rest),
        ) {
            (true, true) => numbers,
            (true, false) => Compared::new(Ordering::Less, a, b),
            (false, true) => Compared::new(Ordering::Greater, a, b),
            (false, false) => compare_texts(Delimiters::Dots, a, b),
        },
    }
}

// Compares two first chunks, of which the first one begins with the greater number. Its digits may be many, so they
// are read to their end only where this decides.
#[inline(always)]
#[tactic(auto, using(crate::proofs::lemmas::Pieces::above_number))]
fn compare_greater(a: &[u8], b: &[u8]) -> Ordering
    requires { nat_cmp (run_value a.now) (run_value b.now) ≡ Greater }
    ensures { result ≡ chunk_cmp (chunk_of (first_piece a.now)) (chunk_of (first_piece b.now)) }
{
    if chunk_is_number(b) {
        return Ordering::Greater;
    }
    let texts = compare_texts(Delimiters::Dots, a, b).order;
    if texts == Ordering::Less || !chunk_is_number(a) {
        return texts;
    }
    Ordering::Less
}

// Whether the first chunk of a release is a number: digits alone.
#[inline(always)]
#[tactic(auto, using(crate::proofs::lemmas::Pieces::digits_alone))]
fn chunk_is_number(text: &[u8]) -> bool
    ensures { result ≡ list_all is_ascii_digit (first_piece text.now) }
{
    piece_is_empty(split_run(text, Class::Digit).1)
}

// Writes a chunk of a release, by its text.
#[inline(always)]
fn put_chunk<S: Sink>(sink: &mut S, text: &[u8])
    requires text { list_all is_identifier_byte text.now ≡ true }
    requires fits { S.fits sink.old (chunk_bytes (Some (chunk_of text.now))) }
    ensures { S.takes sink.old (chunk_bytes (Some (chunk_of text.now))) sink.new }
{
    let (_, behind) = split_run(text, Class::Digit);
    if behind.is_empty() {
        sink.put(2);
        put_number(sink, text);
        return;
    }
    sink.put(3);
    put_all(sink, text);
    sink.put(0);
}

/// Writes a release, by its text: its chunks, by the dots between, and their end. Does not allocate.
#[inline(always)]
pub fn put_release<S: Sink>(sink: &mut S, text: &[u8])
    requires text { list_all is_metadata_byte text.now ≡ true }
    requires fits { S.fits sink.old (release_bytes (chunks_of text.now)) }
    ensures { S.takes sink.old (release_bytes (chunks_of text.now)) sink.new }
{
    let mut left = text;
    'chunks: loop {
        let (chunk, rest) = split_run(left, Class::NotDot);
        put_chunk(sink, chunk);
        if sink.is_decided() {
            return;
        }
        match rest.split_first() {
            Some((_, behind)) => left = behind,
            None => {
                sink.put(1);
                return;
            }
        }
    }
}
