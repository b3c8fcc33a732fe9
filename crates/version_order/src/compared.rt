//! How two texts compare by what they begin with.

ghost use Rattle.std.specs.Prelude.{◌≡◌};

use std::cmp::Ordering;

/// How two texts compare by what they begin with, and what follows that if it is equal.
#[derive(Clone, Copy)]
pub struct Compared<'t> {
    pub order: Ordering,
    pub rest: &'t [u8],
    pub other_rest: &'t [u8],
}

impl<'t> Compared<'t> {
    /// An order, and what follows.
    #[inline(always)]
    pub fn new(order: Ordering, rest: &'t [u8], other_rest: &'t [u8]) -> Compared<'t>
        ensures order { result.order ≡ order }
        ensures rest { result.rest.now ≡ rest.now }
        ensures other_rest { result.other_rest.now ≡ other_rest.now }
    {
        Compared {
            order,
            rest,
            other_rest,
        }
    }
}
