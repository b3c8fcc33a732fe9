//! Whether a set has a key.

ghost use Rattle.std.specs.Prelude.{◌≡◌, List, ℕ};
ghost use Rattle.version_order.specs.keys.Lists.{bytes_cmp};
ghost use Rattle.version_sets.specs.Form.{has, Rise};

use crate::form::Form;
use crate::start::Start;
use std::cmp::Ordering;
use version_order::{SchemeVersion, compare_bytes};

// With more ends than these, writing a key costs less than comparing it off its text with each end.
const FEW: usize = 4;

// What is compared with ends: a key.
trait Key<'t> {
    ghost key: { Self → List ℕ };

    fn compare(&self, bytes: &[u8]) -> Ordering
        ensures { result ≡ bytes_cmp (key self.now) bytes.now };
}

// A key that is written.
#[derive(Drop)]
struct Written<'k>(&'k [u8]);

impl<'t> Key<'t> for Written<'t> {
    ghost key = { λ written. written.0.now };

    #[inline(always)]
    fn compare(&self, bytes: &[u8]) -> Ordering {
        compare_bytes(self.0, bytes)
    }
}

// The key of a version, compared off its text.
#[derive(Drop)]
struct Unwritten<V>(V);

impl<'t, V: SchemeVersion<'t>> Key<'t> for Unwritten<V> {
    ghost key = { λ unwritten. (V.plain unwritten.0).key };

    #[inline(always)]
    fn compare(&self, bytes: &[u8]) -> Ordering {
        self.0.compare_key(bytes)
    }
}

impl<'a> Form<'a> {
    ghost use Rattle.version_sets.specs.Set.{ends_of};

    /// Returns whether the set has the key of a version: whether an odd number of its ends is not above the key. Reads as
    /// many ends as the logarithm of their number, where they are more than a few.
    pub fn has<'t, V: SchemeVersion<'t>>(&self, version: &V) -> bool
        ensures { Rise (ends_of self.now) → result ≡ has (ends_of self.now) (V.plain version.now).key }
    {
        if self.count() > FEW {
            return self.has_by_halves(version);
        }
        let mut is_in = false;
        for place in 0..self.count() {
            let Some(end) = self.end(place) else {
                return is_in;
            };
            if version.compare_key(end).is_lt() {
                return is_in;
            }
            is_in = !is_in;
        }
        is_in
    }

    // The same among many ends. Not inlined, so that the key that is written takes no room where there are few.
    #[inline(never)]
    fn has_by_halves<'t, V: SchemeVersion<'t>>(&self, version: &V) -> bool
        ensures { Rise (ends_of self.now) → result ≡ has (ends_of self.now) (V.plain version.now).key }
    {
        let mut start = Start::new();
        version.put_key(&mut start);
        match start.whole() {
            Some(key) => self.has_key(&Written(key)),
            None => self.has_key(&Unwritten(*version)),
        }
    }

    // Returns whether it has a key.
    #[inline(always)]
    fn has_key<'t, K: Key<'t>>(&self, key: &K) -> bool
        ensures { Rise (ends_of self.now) → result ≡ has (ends_of self.now) (K.key key.now) }
    {
        let mut low = 0;
        let mut high = self.count();
        while low < high {
            let middle = low + (high - low) / 2;
            let Some(end) = self.end(middle) else {
                return false;
            };
            if key.compare(end).is_lt() {
                high = middle;
            } else {
                low = middle + 1;
            }
        }
        low % 2 == 1
    }
}
