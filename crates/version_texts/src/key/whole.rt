//! A whole key, or the bytes of an end, written into a buffer or compared with given bytes.

ghost use Rattle.std.specs.Prelude.{◌≡◌, ◌+◌, ◌≤◌, length};
ghost use Rattle.version_rules.specs.{key.Key.key_bytes, key.Key.tail_bytes, requirement.Range.end_bytes};
ghost use Rattle.version_order.specs.keys.{Lists.bytes_cmp, Sinks.put_at};
ghost use Rattle.version_texts.specs.{Key.tail_of, Key.text_key, Scan.tail_in, Scan.Fits};

use crate::asked::range::put_end;
use crate::key::{put_front, put_tail, tail_at};
use crate::scan::shape::Shape;
use std::cmp::Ordering;
use version_order::{Beside, End, Room};

// Writes the key of a version into a buffer from a place on, and returns the place after it. The tail has a sink of its
// own, here and in a comparison: so the compiler keeps both in registers.
#[inline(always)]
pub(crate) fn write_key(text: &[u8], shape: Shape, room: &mut [u8], start: usize) -> usize
    requires shape { Fits text.now shape }
    requires room { start + length (key_bytes (text_key text.now shape)) ≤ length room.old }
    ensures bytes { room.new ≡ put_at room.old start (key_bytes (text_key text.now shape)) }
    ensures end { result ≡ start + length (key_bytes (text_key text.now shape)) }
{
    let mut sink = Room { room, end: start };
    put_front(&mut sink, text, shape);
    let end = sink.end;
    write_tail(text, shape, room, end)
}

// Writes the tail of a key into a buffer from a place on, and returns the place after it.
#[inline(always)]
fn write_tail(text: &[u8], shape: Shape, room: &mut [u8], start: usize) -> usize
    requires shape { Fits text.now shape }
    requires room { start + length (tail_bytes (tail_of shape.tail (tail_in text.now shape)))
        ≤ length room.old }
    ensures bytes { room.new ≡ put_at room.old start
        (tail_bytes (tail_of shape.tail (tail_in text.now shape))) }
    ensures end { result ≡ start
        + length (tail_bytes (tail_of shape.tail (tail_in text.now shape))) }
{
    let mut sink = Room { room, end: start };
    put_tail(&mut sink, shape.tail, tail_at(text, shape));
    sink.end
}

// Compares the key of a version with given bytes, up to the first difference.
#[inline(always)]
pub(crate) fn compare_key(text: &[u8], shape: Shape, bytes: &[u8]) -> Ordering
    requires { Fits text.now shape }
    ensures { result ≡ bytes_cmp (key_bytes (text_key text.now shape)) bytes.now }
{
    let mut front = Beside {
        left: bytes,
        order: Ordering::Equal,
    };
    if !put_front(&mut front, text, shape) {
        return front.order();
    }
    let mut tail = front;
    put_tail(&mut tail, shape.tail, tail_at(text, shape));
    tail.order()
}

/// Compares an end of a range with given bytes, up to the first difference.
#[inline(always)]
pub fn compare_end(text: &[u8], shape: Shape, end: End, bytes: &[u8]) -> Ordering
    requires { Fits text.now shape }
    ensures { result ≡ bytes_cmp (end_bytes end (text_key text.now shape)) bytes.now }
{
    let mut sink = Beside {
        left: bytes,
        order: Ordering::Equal,
    };
    put_end(&mut sink, text, shape, end);
    sink.order()
}
