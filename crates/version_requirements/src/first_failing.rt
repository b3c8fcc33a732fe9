//! The first member of a list of requirements that fails a test of whole lists.

ghost use Rattle.std.specs.Prelude.{◌≡◌, ◌↔◌, ◌+◌, ◌≤◌, ◌∷◌, ◌++◌, [], IfNone, IfSome, IsSomeAnd, IsTrue, length};
ghost use Rattle.std.specs.List.{All};
ghost use Rattle.version_rules.specs.requirement.{Requirement.PlainRequirement, Requirements.comma, Requirements.requirements_of};
ghost use Rattle.version_requirements.specs.Requirement.{IsFirstFailing, NotEach, cut_at_commas};

use crate::members::split_first;
use crate::range_ref::halves;

// The length of a list whose members are asked in turn.
const SHORT: usize = 32;

/// A test of requirements that is made of whole lists.
pub(crate) trait ListTest {
    // That a requirement passes.
    ghost passes: { Self → PlainRequirement → Type 0 };

    /// Returns whether bytes are a list of which each member passes.
    fn each_passes(&self, list: &[u8]) -> bool
        ensures { IsTrue result
            ↔ IsSomeAnd (requirements_of list.now) (λ members. All (passes self.now) members) };
}

// Returns where the first member that fails begins, and its text. A list is halved: the time is that of a few tests of
// the whole list.
#[tactic(auto, using(crate::proofs::lemmas::Members::front_left, crate::proofs::lemmas::Members::one_left, crate::proofs::lemmas::Members::others_left, crate::proofs::lemmas::Members::whole_left, version_texts::proofs::lemmas::Library::length_append))]
pub(crate) fn first_failing<'a, T: ListTest>(list: &'a [u8], test: &T) -> (usize, &'a [u8])
    requires { NotEach (T.passes test.now) (requirements_of list.now) }
    ensures first { (r : PlainRequirement)
        × IsFirstFailing (T.passes test.now) list.now result.0 result.1.now r }
    ensures within { result.0 + length result.1.now ≤ length list.now }
{
    let mut start = 0;
    let mut left = list;
    while let Some((front, behind)) = parted(left) {
        if test.each_passes(front) {
            start += front.len() + 1;
            left = behind;
        } else {
            left = front;
        }
    }
    (start, left)
}

// Returns what stands before and after a comma: one near the middle of a long list, the first one of a short list. None
// without a comma.
#[tactic(auto, using(crate::proofs::lemmas::Members::after_piece, crate::proofs::lemmas::Members::only_piece))]
fn parted(list: &[u8]) -> Option<(&[u8], &[u8])>
    ensures some { IfSome result (λ parts. list.now ≡ parts.0.now ++ comma ∷ parts.1.now) }
    ensures none { IfNone result (cut_at_commas list.now ≡ list.now ∷ []) }
{
    if let Some(parts) = halves(list, SHORT) {
        return Some(parts);
    }
    let (first, others) = split_first(list);
    Some((first, others?))
}
