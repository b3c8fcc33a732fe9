//! A sink that keeps the first bytes written to it.

ghost use Rattle.std.specs.Prelude.{◌≡◌, ◌≤◌, ◌∷◌, [], ⊤, length, replicate, IfSome, IsSome, List, ℕ};
ghost use Rattle.version_order.specs.keys.Sinks.{leads_both, leads_none, Leads};

use version_order::Sink;

// How many bytes are kept: the keys of most versions are shorter.
const KEPT: usize = 64;

/// The first bytes written, and how many were written in all.
#[derive(Drop)]
pub(crate) struct Start {
    bytes: [u8; KEPT],
    end: usize,
    ghost full: { length bytes ≡ 64 },
}

impl Start {
    ghost use Rattle.version_sets.specs.Pieces.{start_with};

    // Returns a sink that nothing is written to.
    #[inline(always)]
    pub fn new() -> Start
        ensures bytes { result.bytes ≡ replicate 64 0 }
        ensures end { result.end ≡ 0 }
    {
        Start {
            bytes: [0; KEPT],
            end: 0,
        }
    }

    // Returns all bytes written, or None where they are more than are kept.
    #[inline(always)]
    pub fn whole(&self) -> Option<&[u8]>
        ensures { (bytes : List ℕ) → (empty : Start) → empty.bytes ≡ replicate 64 0 → empty.end ≡ 0
            → start_with self.now [] ≡ start_with empty bytes → IfSome result (λ all. all.now ≡ bytes) }
    {
        if self.end > KEPT {
            return None;
        }
        Some(&self.bytes[..self.end])
    }
}

impl Sink for Start {
    ghost use Rattle.version_sets.specs.Pieces.{start_with};

    ghost takes = { Leads start_with };

    ghost fits = { λ _ _. ⊤ };

    #[inline(always)]
    fn put(&mut self, byte: u8) {
        if self.end < KEPT {
            self.bytes[self.end] = byte;
        }
        self.end = self.end.saturating_add(1);
    }

    #[inline(always)]
    fn is_decided(&self) -> bool {
        false
    }

    ghost fits_first = { λ _ _ _ _. tt };

    ghost fits_then = { λ _ _ _ _ _ _. tt };

    ghost takes_none = { leads_none start_with };

    ghost takes_both = { leads_both start_with };
}
