//! Versions of one key, compared field by field off their texts. Nothing here allocates.

ghost use Rattle.std.specs.Prelude.{◌≡◌, ◌≤◌, length};
ghost use Rattle.std.specs.Ordering.{ordering_then};
ghost use Rattle.version_order.specs.keys.Lists.{bytes_cmp};
ghost use Rattle.version_texts.specs.Order.{bodies_tie, byte_place, general_tie, is_lettered, is_numbered, last_tie, messy_tie};
ghost use Rattle.version_texts.specs.Scan.{body_start};

use crate::scan::numeral::spells_numeral;
use std::cmp::Ordering;
use version_order::{COLON, Class, after_byte, begins_with, rank_at, run_end, split_run};

// Compares two general versions: no epoch first, then their parts, then what follows these. Reads the texts up to the
// part in which they differ.
#[inline(never)]
pub(crate) fn compare_general(a: &[u8], b: &[u8]) -> Ordering
    ensures { result ≡ general_tie a.now b.now }
{
    if a == b {
        return Ordering::Equal;
    }
    let (start, other_start) = (body_start(a), body_start(b));
    let epochs = start.cmp(&other_start);
    if epochs != Ordering::Equal {
        return epochs;
    }
    compare_bodies(&a[start..], &b[other_start..])
}

// Returns where the body of a text begins: after digits and a colon, if the text begins so.
fn body_start(text: &[u8]) -> usize
    ensures start { result ≡ body_start text.now }
    ensures within { result ≤ length text.now }
{
    let end = run_end(text, 0, Class::Digit);
    if begins_with(text, Class::Digit) && rank_at(text, end) == COLON {
        end + 1
    } else {
        0
    }
}

// Compares two texts that begin with a body: part by part by bytes, the last ones as last parts, then what follows.
fn compare_bodies(x: &[u8], y: &[u8]) -> Ordering
    ensures { result ≡ bodies_tie x.now y.now }
{
    let (mut a, mut b) = (x, y);
    'parts: loop {
        let (part, rest) = split_run(a, Class::Alphanumeric);
        let (other, other_rest) = split_run(b, Class::Alphanumeric);
        match (after_byte(b'.', rest), after_byte(b'.', other_rest)) {
            (Some(more), Some(others)) => {
                let order = part.cmp(other);
                if order != Ordering::Equal {
                    return order;
                }
                a = more;
                b = others;
            }
            (Some(_), None) => return Ordering::Greater,
            (None, Some(_)) => return Ordering::Less,
            (None, None) => return compare_ends(part, rest, other, other_rest),
        }
    }
}

// Compares two last parts, then what follows them.
fn compare_ends(a: &[u8], rest: &[u8], b: &[u8], other_rest: &[u8]) -> Ordering
    ensures { result ≡ ordering_then (last_tie a.now b.now) (bytes_cmp rest.now other_rest.now) }
{
    match compare_lasts(a, b) {
        Ordering::Equal => rest.cmp(other_rest),
        order => order,
    }
}

// Compares two last parts: one that is decomposed comes first, two that are not compare by bytes.
fn compare_lasts(a: &[u8], b: &[u8]) -> Ordering
    ensures { result ≡ last_tie a.now b.now }
{
    if a == b {
        return Ordering::Equal;
    }
    match (is_numbered(a), is_numbered(b)) {
        (true, true) => Ordering::Equal,
        (true, false) => Ordering::Less,
        (false, true) => Ordering::Greater,
        (false, false) => a.cmp(b),
    }
}

// Returns whether a part is a numeral and letters, and then nothing or a numeral.
pub(crate) fn is_numbered(part: &[u8]) -> bool
    ensures { result ≡ is_numbered part.now }
{
    let (number, rest) = split_run(part, Class::Digit);
    is_lettered(rest) && spells_numeral(number)
}

// Returns whether a text is letters, and then nothing or a numeral.
fn is_lettered(text: &[u8]) -> bool
    ensures { result ≡ is_lettered text.now }
{
    let last = split_run(text, Class::Letter).1;
    begins_with(text, Class::Letter) && (last.is_empty() || spells_numeral(last))
}

// Compares two messy versions byte by byte: signs in the order of declaration come before dots, and these before
// digits and letters. A prefix comes before the longer text.
#[inline(never)]
#[tactic(auto, using(crate::proofs::lemmas::Lasts::bytes_end))]
pub(crate) fn compare_messy(x: &[u8], y: &[u8]) -> Ordering
    ensures { result ≡ messy_tie x.now y.now }
{
    let mut place = 0;
    'bytes: while place < x.len() && place < y.len() {
        let order = byte_place(x[place]).cmp(&byte_place(y[place]));
        if order != Ordering::Equal {
            return order;
        }
        place += 1;
    }
    x.len().cmp(&y.len())
}

// The place of a byte in the order of the bytes of messy versions.
#[inline(always)]
fn byte_place(byte: u8) -> u8
    ensures { result ≡ byte_place byte }
{
    match byte {
        b':' => 0,
        b'-' => 1,
        b'+' => 2,
        b'_' => 3,
        b'~' => 4,
        b'.' => 5,
        _ => byte,
    }
}
