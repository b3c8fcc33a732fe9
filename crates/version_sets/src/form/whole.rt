//! Whether bytes are a set.

ghost use Rattle.std.specs.Prelude.{◌≡◌, ◌++◌, ◌<◌, ◌^◌, length, IfNone, IfSome, List, None, false, true, ℕ};
ghost use Rattle.std.specs.Option.{option_map, IsSomeAnd};
ghost use Rattle.version_sets.specs.{Form.Rise, Form.form_bytes, Form.number, Set.is_above, Set.AreLeft};

use crate::form::Form;
use version_order::compare_bytes;

impl<'a> Form<'a> {
    ghost use Rattle.version_sets.specs.Set.{ends_of};

    /// Reads a set as `of` does, but gives None also where the bytes are not those that a call writes: where the ends are
    /// not one behind another through the last byte, or do not rise. Takes time linear in the bytes.
    pub fn whole(bytes: &'a [u8]) -> Option<(u8, Form<'a>)>
        ensures form { (order : ℕ) (ends : List (List ℕ)) → bytes.now ≡ form_bytes order ends → Rise ends
            → IsSomeAnd result (λ set. (set.0 ≡ order) × (ends_of set.1 ≡ ends)) }
        ensures whole { IfSome result (λ set. (bytes.now ≡ form_bytes set.0 (ends_of set.1)) × Rise (ends_of set.1)) }
    {
        let (order, set) = Form::of(bytes)?;
        if !set.is_whole() {
            return None;
        }
        Some((order, set))
    }

    // Whether its numbers tell where its ends are over, one behind another through the last byte, and these rise.
    fn is_whole(&self) -> bool
        ensures yes { result ≡ true
            → (ends : List (List ℕ)) × AreLeft 0 None self.now.numbers.now self.now.ends.now ends }
        ensures no { result ≡ false
            → (ends : List (List ℕ)) → ¬ (AreLeft 0 None self.now.numbers.now self.now.ends.now ends) }
    {
        let (mut numbers, mut bytes) = (self.numbers, self.ends);
        let (mut from, mut last) = (0, None);
        while let Some((over, rest)) = first_number(numbers) {
            if over < from {
                return false;
            }
            let Some((end, behind)) = bytes.split_at_checked(over - from) else {
                return false;
            };
            if !is_above(last, end) {
                return false;
            }
            (numbers, bytes) = (rest, behind);
            (from, last) = (over, Some(end));
        }
        bytes.is_empty()
    }
}

// Returns the number that eight bytes tell, and the rest, or None without them.
#[inline(always)]
pub(crate) fn first_number(row: &[u8]) -> Option<(usize, &[u8])>
    ensures some { IfSome result (λ first. row.now ≡ number first.0 ++ first.1.now) }
    ensures none { IfNone result (length row.now < 8) }
    ensures small { IfSome result (λ first. first.0 < 2 ^ 64) }
{
    let (eight, rest) = row.split_first_chunk::<8>()?;
    Some((u64::from_le_bytes(*eight) as usize, rest))
}

// Whether an end is above the last one, if there is one.
fn is_above(last: Option<&[u8]>, end: &[u8]) -> bool
    ensures { result ≡ is_above (option_map (λ last. last.now) last.entry) end.now }
{
    match last {
        Some(last) => compare_bytes(last, end).is_lt(),
        None => true,
    }
}
