//! Sets as bytes.

ghost use Rattle.std.specs.Prelude.{◌≡◌, ◌∷◌, ◌++◌, ◌+◌, ◌*◌, ◌^◌, ◌<◌, ◌≤◌, [], IfNone, IfSome, List, drop, false, length, true, ℕ};
ghost use Rattle.std.specs.Option.{IsSomeAnd};
ghost use Rattle.version_sets.specs.Form.{between, ends_early, form_bytes, number, over_at};

pub(crate) mod intervals;
mod whole;

use crate::form::whole::first_number;

/// A set as bytes: the number of its order, how many ends it has, where each is over among the bytes of all, and these.
/// Any bytes that are long enough are read so, and no call reads past them.
#[derive(Clone, Copy)]
pub struct Form<'a> {
    count: usize,
    numbers: &'a [u8],
    ends: &'a [u8],
    ghost whole: { length numbers.now ≡ 8 * count },
    ghost few: { count < 2 ^ 60 },
    ghost small: { length ends.now < 2 ^ 63 },
}

impl<'a> Form<'a> {
    ghost use Rattle.version_sets.specs.Set.{ends_of};

    /// Reads a set, with the number of its order. None where the bytes end too early.
    pub fn of(bytes: &'a [u8]) -> Option<(u8, Form<'a>)>
        ensures form { (order : ℕ) (ends : List (List ℕ)) → bytes.now ≡ form_bytes order ends
            → IsSomeAnd result (λ set. (set.0 ≡ order) × (ends_of set.1 ≡ ends)) }

        ensures early { IfNone result (ends_early bytes.now ≡ true) }
        ensures long { IfSome result (λ _. ends_early bytes.now ≡ false) }

        // What is read are these bytes, taken apart, and no others.
        ensures read { IfSome result (λ set. bytes.now
            ≡ set.0 ∷ (number set.1.count ++ (set.1.numbers.now ++ set.1.ends.now))) }
    {
        let (order, count, rest) = head(bytes)?;
        if count > rest.len() / 8 {
            return None;
        }
        let (numbers, ends) = rest.split_at(8 * count);
        Some((
            order,
            Form {
                count,
                numbers,
                ends,
            },
        ))
    }

    /// Returns how many ends it has.
    #[tactic(auto, using(crate::proofs::lemmas::Form::ends_count))]
    pub fn count(&self) -> usize
        ensures { result ≡ length (ends_of self.now) }
    {
        self.count
    }

    // Returns in how many bytes the places of its ends lie.
    pub(crate) fn numbers_len(&self) -> usize
        ensures { result ≡ 8 * self.now.count }
    {
        self.numbers.len()
    }

    /// Returns the set that has all keys.
    pub fn all() -> Form<'static>
        ensures { ends_of result ≡ [] ∷ [] }
    {
        Form {
            count: 1,
            numbers: &[0; 8],
            ends: &[],
        }
    }

    /// Returns where the bytes of its ends begin among those of the set.
    pub fn start(&self) -> usize
        ensures { result ≡ 9 + 8 * self.now.count }
    {
        9 + self.numbers.len()
    }

    /// Returns the end at a place, or None where it has fewer.
    #[tactic(auto, using(crate::proofs::lemmas::Form::between_is))]
    pub fn end(&self, place: usize) -> Option<&'a [u8]>
        ensures some { IfSome result
            (λ end. drop place (ends_of self.now) ≡ end.now ∷ drop (place + 1) (ends_of self.now)) }
        ensures none { IfNone result (drop place (ends_of self.now) ≡ []) }
        ensures within { IfSome result (λ _. place < self.now.count) }
    {
        let (from, over) = self.span(place)?;
        Some(&self.ends[from..over])
    }

    // Returns where the end at a place begins and is over among the bytes of all, or None where it has fewer.
    pub(crate) fn span(&self, place: usize) -> Option<(usize, usize)>
        ensures some { IfSome result (λ span. drop place (ends_of self.now)
            ≡ between self.now.ends.now span.0 span.1 ∷ drop (place + 1) (ends_of self.now)) }
        ensures none { IfNone result (drop place (ends_of self.now) ≡ []) }
        ensures within { IfSome result (λ span.
            (place < self.now.count) × (span.0 ≤ span.1) × (span.1 ≤ length self.now.ends.now)) }
    {
        if place >= self.count {
            return None;
        }
        let (from, over) = (self.over(place), self.over(place + 1));
        if from > over || over > self.ends.len() {
            return Some((0, 0));
        }
        Some((from, over))
    }

    // Returns where so many ends are over.
    fn over(&self, count: usize) -> usize
        requires { count ≤ self.now.count }
        ensures { result ≡ over_at self.now.numbers.now count }
    {
        if count == 0 {
            return 0;
        }
        let (_, rest) = self.numbers.split_at(8 * (count - 1));
        match rest.split_first_chunk::<8>() {
            Some((number, _)) => u64::from_le_bytes(*number) as usize,
            None => 0,
        }
    }
}

// Returns the number of an order and how many ends there are, as bytes begin with them, and the rest, or None without.
#[inline(always)]
fn head(bytes: &[u8]) -> Option<(u8, usize, &[u8])>
    ensures some { IfSome result (λ head. bytes.now ≡ head.0 ∷ (number head.1 ++ head.2.now)) }
    ensures none { IfNone result (length bytes.now < 9) }
    ensures small { IfSome result (λ head. head.1 < 2 ^ 64) }
{
    let (order, rest) = bytes.split_first()?;
    let (count, rest) = first_number(rest)?;
    Some((*order, count, rest))
}
