//! Lists of numbers and of pieces, compared side by side.

ghost use Rattle.std.specs.Prelude.{◌≡◌, map, true, Some};
ghost use Rattle.std.specs.{Char.to_ascii_lowercase, Option.option_cmp, Ordering.nat_cmp};
ghost use Rattle.version_order.specs.{keys.Lists.bytes_cmp, keys.Lists.ended_cmp, texts.Front.starts_with_digit};
ghost use Rattle.scheme_pypi.specs.{Order.local_cmp, Texts.local_of, Texts.pieces_of, Texts.release_of};

use crate::walk::{next_number, next_piece};
use std::cmp::Ordering;
use version_order::{Class, compare_numbers, is_digits, split_run};

/// Compares two releases, number by number. Zeros at their ends do not count.
#[tactic(auto, using(std::proofs::lemmas::Grind::common_steps, crate::proofs::lemmas::Items::decided, crate::proofs::lemmas::Items::is_equal, crate::proofs::lemmas::Items::left_over, crate::proofs::lemmas::Release::ended_equal, crate::proofs::lemmas::Release::next_left, crate::proofs::lemmas::Release::releases_step))]
pub(crate) fn compare_releases(x: &[u8], y: &[u8]) -> Ordering
    requires x { starts_with_digit x.now ≡ true }
    requires y { starts_with_digit y.now ≡ true }
    ensures { result ≡ ended_cmp (option_cmp nat_cmp) (release_of x.now) (release_of y.now) }
{
    let (mut a, mut b) = (x, y);
    'numbers: loop {
        let numbers = compare_numbers(a, b);
        if numbers.order.is_ne() {
            return numbers.order;
        }
        a = next_number(numbers.rest);
        b = next_number(numbers.other_rest);
        if a.is_empty() && b.is_empty() {
            return Ordering::Equal;
        }
    }
}

/// Compares the pieces that two texts begin with, piece by piece.
pub(crate) fn compare_lists(x: &[u8], y: &[u8]) -> Ordering
    ensures { result ≡ ended_cmp local_cmp (pieces_of x.now) (pieces_of y.now) }
{
    let (mut a, mut b) = (x, y);
    'pieces: loop {
        let (piece, rest) = split_run(a, Class::Alphanumeric);
        let (other, other_rest) = split_run(b, Class::Alphanumeric);
        if piece.is_empty() || other.is_empty() {
            return other.is_empty().cmp(&piece.is_empty());
        }
        let order = compare_pieces(piece, other);
        if order.is_ne() {
            return order;
        }
        a = next_piece(rest);
        b = next_piece(other_rest);
    }
}

// Compares two pieces: a text comes before a number.
#[tactic(auto, using(crate::proofs::lemmas::Pieces::run_of_digits))]
fn compare_pieces(x: &[u8], y: &[u8]) -> Ordering
    ensures { result ≡ local_cmp (Some (local_of x.now)) (Some (local_of y.now)) }
{
    match (is_digits(x), is_digits(y)) {
        (true, true) => compare_numbers(x, y).order,
        (true, false) => Ordering::Greater,
        (false, true) => Ordering::Less,
        (false, false) => compare_texts(x, y),
    }
}

// Compares two texts by their bytes, in lower case.
fn compare_texts(x: &[u8], y: &[u8]) -> Ordering
    ensures { result ≡ bytes_cmp (map to_ascii_lowercase x.now) (map to_ascii_lowercase y.now) }
{
    let (mut a, mut b) = (x, y);
    'bytes: loop {
        let Some((byte, rest)) = a.split_first() else {
            return false.cmp(&!b.is_empty());
        };
        let Some((other, other_rest)) = b.split_first() else {
            return Ordering::Greater;
        };
        let order = byte.to_ascii_lowercase().cmp(&other.to_ascii_lowercase());
        if order.is_ne() {
            return order;
        }
        a = rest;
        b = other_rest;
    }
}
