//! The pieces of a key.

ghost use Rattle.std.specs.Prelude.{◌≡◌, ◌∷◌, drop, map, replicate, true, Some};
ghost use Rattle.std.specs.{Char.is_ascii_alphanumeric, Char.is_ascii_digit, Char.to_ascii_lowercase, List.list_all, List.prefix_len, Option.option_map};
ghost use Rattle.version_order.specs.{keys.Codes.items_bytes, keys.Codes.list_bytes, keys.Codes.number_bytes, keys.Codes.text_bytes, texts.Front.run_value, texts.Front.starts_with_digit};
ghost use Rattle.scheme_pypi.specs.Order.{dev_bytes, local_bytes, locals_bytes, number_or_end_bytes, phase_bytes};
ghost use Rattle.scheme_pypi.specs.{Pypi.plain_phase, Texts.local_of, Texts.pieces_of, Texts.release_of};

use crate::read::Phase;
use crate::walk::{next_number, next_piece};
use version_order::{Class, Sink, compare_numbers, is_digits, put_number, split_run};

// Writes a byte and the number at the start of a text, and returns the rest.
#[inline(always)]
fn put_ranked<'t, S: Sink>(sink: &mut S, rank: u8, text: &'t [u8]) -> &'t [u8]
    requires { S.fits sink.old (rank ∷ number_bytes (run_value text.now)) }
    ensures bytes { S.takes sink.old (rank ∷ number_bytes (run_value text.now)) sink.new }
    ensures rest { result.now ≡ drop (prefix_len is_ascii_digit text.now) text.now }
{
    sink.put(rank);
    put_number(sink, text)
}

/// Writes the numbers of a release. Zeros are held back until another number follows them.
pub(crate) fn put_release<S: Sink>(sink: &mut S, text: &[u8])
    requires text { starts_with_digit text.now ≡ true }
    requires fits { S.fits sink.old (list_bytes number_or_end_bytes (release_of text.now)) }
    ensures { S.takes sink.old (list_bytes number_or_end_bytes (release_of text.now)) sink.new }
{
    let mut left = text;
    let mut zeros: usize = 0;
    'numbers: loop {
        if left.is_empty() {
            sink.put(1);
            return;
        }
        let number = compare_numbers(left, &[]);
        if number.order.is_eq() {
            zeros += 1;
            left = next_number(number.rest);
            continue 'numbers;
        }
        put_zeros(sink, zeros);
        zeros = 0;
        left = next_number(put_ranked(sink, 2, left));
        if sink.is_decided() {
            return;
        }
    }
}

// Writes zeros of a release.
fn put_zeros<S: Sink>(sink: &mut S, count: usize)
    requires { S.fits sink.old (items_bytes number_or_end_bytes (replicate count 0)) }
    ensures { S.takes sink.old (items_bytes number_or_end_bytes (replicate count 0)) sink.new }
{
    let mut left = count;
    'zeros: while left > 0 {
        sink.put(2);
        sink.put(0);
        left -= 1;
    }
}

/// Writes a phase.
pub(crate) fn put_phase<S: Sink>(sink: &mut S, phase: Phase<'_>)
    requires { S.fits sink.old (phase_bytes (plain_phase phase)) }
    ensures { S.takes sink.old (phase_bytes (plain_phase phase.entry)) sink.new }
{
    match phase {
        Phase::DevAlone => sink.put(1),
        Phase::Alpha(digits) => {
            put_ranked(sink, 2, digits);
        }
        Phase::Beta(digits) => {
            put_ranked(sink, 3, digits);
        }
        Phase::Candidate(digits) => {
            put_ranked(sink, 4, digits);
        }
        Phase::Final => sink.put(5),
    }
}

/// Writes the number of a post-release, or its absence.
pub(crate) fn put_post<S: Sink>(sink: &mut S, post: Option<&[u8]>)
    requires { S.fits sink.old (number_or_end_bytes (option_map (λ digits. run_value digits.now) post)) }
    ensures { S.takes sink.old
        (number_or_end_bytes (option_map (λ digits. run_value digits.now) post.entry)) sink.new }
{
    match post {
        None => sink.put(1),
        Some(digits) => {
            put_ranked(sink, 2, digits);
        }
    }
}

/// Writes the number of a dev release, or its absence.
pub(crate) fn put_dev<S: Sink>(sink: &mut S, dev: Option<&[u8]>)
    requires { S.fits sink.old (dev_bytes (option_map (λ digits. run_value digits.now) dev)) }
    ensures { S.takes sink.old (dev_bytes (option_map (λ digits. run_value digits.now) dev.entry)) sink.new }
{
    match dev {
        None => sink.put(2),
        Some(digits) => {
            put_ranked(sink, 1, digits);
        }
    }
}

/// Writes a local version, or its absence.
pub(crate) fn put_local<S: Sink>(sink: &mut S, local: Option<&[u8]>)
    requires { S.fits sink.old (locals_bytes (option_map (λ pieces. pieces_of pieces.now) local)) }
    ensures { S.takes sink.old (locals_bytes (option_map (λ pieces. pieces_of pieces.now) local.entry)) sink.new }
{
    match local {
        None => sink.put(1),
        Some(pieces) => put_pieces(sink, pieces),
    }
}

// Writes the pieces that a text begins with, and their end.
fn put_pieces<S: Sink>(sink: &mut S, text: &[u8])
    requires { S.fits sink.old (locals_bytes (Some (pieces_of text.now))) }
    ensures { S.takes sink.old (locals_bytes (Some (pieces_of text.now))) sink.new }
{
    sink.put(2);
    let mut left = text;
    'pieces: loop {
        let (piece, rest) = split_run(left, Class::Alphanumeric);
        if piece.is_empty() {
            sink.put(1);
            return;
        }
        put_piece(sink, piece);
        if sink.is_decided() {
            return;
        }
        left = next_piece(rest);
    }
}

// Writes a piece: a number, or a text in lower case.
fn put_piece<S: Sink>(sink: &mut S, piece: &[u8])
    requires text { list_all is_ascii_alphanumeric piece.now ≡ true }
    requires fits { S.fits sink.old (local_bytes (Some (local_of piece.now))) }
    ensures { S.takes sink.old (local_bytes (Some (local_of piece.now))) sink.new }
{
    if is_digits(piece) {
        put_ranked(sink, 3, piece);
        return;
    }
    sink.put(2);
    put_text(sink, piece);
}

// Writes a text in lower case, and its end.
fn put_text<S: Sink>(sink: &mut S, text: &[u8])
    requires text { list_all is_ascii_alphanumeric text.now ≡ true }
    requires fits { S.fits sink.old (text_bytes (map to_ascii_lowercase text.now)) }
    ensures { S.takes sink.old (text_bytes (map to_ascii_lowercase text.now)) sink.new }
{
    let mut left = text;
    'bytes: loop {
        let Some((byte, rest)) = left.split_first() else {
            sink.put(0);
            return;
        };
        sink.put(byte.to_ascii_lowercase());
        left = rest;
    }
}
