//! Sinks: what the bytes of a key are written into.

ghost use Rattle.std.specs.Prelude.{◌∷◌, ◌++◌, ◌+◌, ◌-◌, [], List, ℕ, IsTrue};

/// Where bytes are written, one after another.
pub trait Sink {
    // The second sink is the first after the bytes.
    ghost takes: { Self → List ℕ → Self → Type 0 };

    // The sink has room for the bytes.
    ghost fits: { Self → List ℕ → Type 0 };

    /// Writes a byte.
    fn put(&mut self, byte: u8)
        requires { fits self.old (byte ∷ []) }
        ensures { takes self.old (byte ∷ []) self.new };

    /// Writes four bytes.
    #[inline(always)]
    fn put_four(&mut self, first: u8, second: u8, third: u8, last: u8)
        requires { fits self.old (first ∷ second ∷ third ∷ last ∷ []) }
        ensures { takes self.old (first ∷ second ∷ third ∷ last ∷ []) self.new }
    {
        self.put(first);
        self.put(second);
        self.put(third);
        self.put(last);
    }

    /// Returns whether no further byte changes the sink.
    fn is_decided(&self) -> bool
        ensures { IsTrue result → (bytes : List ℕ) → takes self.now bytes self.now };

    // No bytes leave a sink as it is. Bytes after bytes are one list.
    ghost takes_none: { (sink : Self) → takes sink [] sink };

    // Bytes that fit, fit in turn.
    ghost fits_first: { (sink : Self) (xs ys : List ℕ) → fits sink (xs ++ ys) → fits sink xs };

    ghost fits_then: { (first middle : Self) (xs ys : List ℕ) → takes first xs middle
        → fits first (xs ++ ys) → fits middle ys };

    ghost takes_both: { (first middle last : Self) (xs ys : List ℕ) → takes first xs middle
        → takes middle ys last → takes first (xs ++ ys) last };
}

/// Writes bytes, unless the sink is decided before.
#[inline(always)]
pub fn put_all<S: Sink>(sink: &mut S, bytes: &[u8])
    requires { S.fits sink.old bytes.now }
    ensures { S.takes sink.old bytes.now sink.new }
{
    if sink.is_decided() {
        return;
    }
    for byte in bytes {
        sink.put(*byte);
    }
}
