//! The intervals of a set.

ghost use Rattle.std.specs.Prelude.{◌≡◌, IfSome};
ghost use Rattle.std.specs.Option.{option_map};
ghost use Rattle.version_sets.specs.Form.{between, interval_at, intervals, IsSpan};

use crate::form::Form;

/// An interval of a set, by where its ends begin and are over among the bytes of all ends. It begins with the low end, and
/// is over before the high one; without that it has all from the low end on.
#[derive(Clone, Copy, Debug, PartialEq, Eq)]
pub struct Interval {
    pub low: (usize, usize),
    pub high: Option<(usize, usize)>,
}

impl<'a> Form<'a> {
    ghost use Rattle.version_sets.specs.Set.{ends_of};

    /// Returns how many intervals it has.
    #[tactic(auto, using(crate::proofs::lemmas::Form::ends_count))]
    pub fn intervals(&self) -> usize
        ensures { result ≡ intervals (ends_of self.now) }
    {
        (self.count + 1) / 2
    }

    /// Returns the interval at a place, or None where it has fewer.
    pub fn interval(&self, place: usize) -> Option<Interval>
        ensures interval { option_map (λ i. (
          between self.now.ends.now i.low.0 i.low.1,
          option_map (λ high. between self.now.ends.now high.0 high.1) i.high,
        )) result
            ≡ interval_at (ends_of self.now) place }
        ensures within { IfSome result (λ i. IsSpan self.now.ends.now i.low × IfSome i.high (IsSpan self.now.ends.now)) }
    {
        if place >= self.intervals() {
            return None;
        }
        let low = self.span(2 * place)?;
        let high = self.span(2 * place + 1);
        Some(Interval { low, high })
    }
}
