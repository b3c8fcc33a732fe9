//! Sinks: a count of bytes, a buffer with room, and a comparison with given bytes.

ghost use Rattle.std.specs.Prelude.{◌≡◌, ◌++◌, ◌+◌, ◌≤◌, [], ⊤, length, List, ℕ};
ghost use Rattle.std.specs.Ordering.{ordering_then};
ghost use Rattle.version_order.specs.keys.Lists.{bytes_cmp};
ghost use Rattle.version_order.specs.keys.Sinks.{count_with, leads_both, leads_none, order_with, put_at, room_both, room_first, room_none, room_then, FitsRoom, Leads, TakesRoom};

use crate::sink::Sink;
use std::cmp::Ordering;

/// A count of bytes. Past the largest number it stays there.
#[derive(Drop)]
pub struct Count {
    pub length: usize,
}

impl Sink for Count {
    ghost takes = { Leads count_with };

    ghost fits = { λ _ _. ⊤ };

    #[inline(always)]
    fn put(&mut self, _byte: u8) {
        self.length = self.length.saturating_add(1);
    }

    #[inline(always)]
    fn is_decided(&self) -> bool {
        false
    }

    ghost fits_first = { λ _ _ _ _. tt };

    ghost fits_then = { λ _ _ _ _ _ _. tt };

    ghost takes_none = { leads_none count_with };

    ghost takes_both = { leads_both count_with };
}

impl Count {
    /// Returns the count.
    #[inline(always)]
    pub fn length(&self) -> usize
        ensures { result ≡ count_with self.now [] }
    {
        self.length
    }
}

/// A buffer and the place after the bytes written.
#[derive(Drop)]
pub struct Room<'a> {
    pub room: &'a mut [u8],
    pub end: usize,
}

impl<'a> Sink for Room<'a> {
    ghost takes = { TakesRoom };

    ghost fits = { FitsRoom };

    #[inline(always)]
    fn put(&mut self, byte: u8) {
        self.room[self.end] = byte;
        self.end += 1;
    }

    // The four bytes are written at once.
    #[inline(always)]
    fn put_four(&mut self, first: u8, second: u8, third: u8, last: u8) {
        write_four(self.room, self.end, &[first, second, third, last]);
        self.end += 4;
    }

    #[inline(always)]
    fn is_decided(&self) -> bool {
        false
    }

    ghost fits_first = { room_first };

    ghost fits_then = { room_then };

    ghost takes_none = { room_none };

    ghost takes_both = { room_both };
}

// Writes four bytes into a buffer from a place on.
#[inline(always)]
fn write_four(room: &mut [u8], start: usize, bytes: &[u8; 4])
    requires { start + 4 ≤ length room.old }
    ensures { room.new ≡ put_at room.old start bytes.now }
{
    let (_, rest) = room.split_at_mut(start);
    let (place, _) = rest.split_at_mut(4);
    place.copy_from_slice(bytes);
}

/// A comparison of the bytes written with given ones, of which these are left, as far as no byte differed.
#[derive(Drop)]
pub struct Beside<'a> {
    pub left: &'a [u8],
    pub order: Ordering,
}

impl<'a> Sink for Beside<'a> {
    ghost takes = { Leads order_with };

    ghost fits = { λ _ _. ⊤ };

    #[inline(always)]
    fn put(&mut self, byte: u8) {
        if self.order != Ordering::Equal {
            return;
        }
        match self.left.split_first() {
            Some((first, rest)) => {
                // Most bytes are the same, so only others are ordered.
                if byte == *first {
                    self.left = rest;
                } else {
                    self.order = byte.cmp(first);
                }
            }
            None => self.order = Ordering::Greater,
        }
    }

    // The four bytes are compared at once.
    #[inline(always)]
    fn put_four(&mut self, first: u8, second: u8, third: u8, last: u8) {
        if self.order != Ordering::Equal {
            return;
        }
        match self.left.split_first_chunk::<4>() {
            Some((four, rest)) => match compare_four(&[first, second, third, last], four) {
                Ordering::Equal => self.left = rest,
                order => self.order = order,
            },
            None => {
                self.put(first);
                self.put(second);
                self.put(third);
                self.put(last);
            }
        }
    }

    #[inline(always)]
    fn is_decided(&self) -> bool {
        self.order != Ordering::Equal
    }

    ghost fits_first = { λ _ _ _ _. tt };

    ghost fits_then = { λ _ _ _ _ _ _. tt };

    ghost takes_none = { leads_none order_with };

    ghost takes_both = { leads_both order_with };
}

// Compares four bytes with four others.
#[inline(always)]
#[tactic(auto, using(crate::proofs::lemmas::Bytes::four_first))]
fn compare_four(four: &[u8; 4], others: &[u8; 4]) -> Ordering
    ensures { (more rest : List ℕ) → bytes_cmp (four.now ++ more) (others.now ++ rest)
        ≡ ordering_then result (bytes_cmp more rest) }
{
    u32::from_be_bytes(*four).cmp(&u32::from_be_bytes(*others))
}

impl<'a> Beside<'a> {
    /// Returns how all bytes written compare with the given ones.
    #[inline(always)]
    pub fn order(&self) -> Ordering
        ensures { result ≡ order_with self.now [] }
    {
        if self.order != Ordering::Equal {
            return self.order;
        }
        if self.left.is_empty() {
            Ordering::Equal
        } else {
            Ordering::Less
        }
    }
}
