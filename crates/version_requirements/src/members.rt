//! The members of a list of requirements.

ghost use Rattle.std.specs.Prelude.{◌≡◌, ◌<◌, ◌≤◌, ◌+◌, ◌∷◌, [], IfNone, IfSome, length};
ghost use Rattle.version_requirements.specs.Requirement.{text_between, cut_at_commas, list_of, pieces_of};
ghost use Rattle.std.specs.Option.{is_some};

use crate::requirement_ref::RequirementRef;
use version_order::place_of;

/// The pieces of a text between its commas, one after another.
#[derive(Clone, Copy)]
pub(crate) struct Members<'a> {
    /// The text of the pieces that are left, or None if none is.
    pub left: Option<&'a [u8]>,
}

impl<'a> Members<'a> {
    // Returns the pieces of a text.
    pub fn of(list: &'a [u8]) -> Members<'a>
        ensures { pieces_of result.left ≡ cut_at_commas list.now }
    {
        Members { left: Some(list) }
    }

    // Returns the next piece, or None if none is left.
    pub fn next(&mut self) -> Option<&'a [u8]>
        ensures some { IfSome result
            (λ piece. pieces_of self.old.left ≡ piece.now ∷ pieces_of self.new.left) }
        ensures none { IfNone result (pieces_of self.old.left ≡ []) }
    {
        let (first, others) = split_first(self.left?);
        self.left = others;
        Some(first)
    }

    // Returns whether each piece that is left parses as a requirement.
    pub fn parse(mut self) -> bool
        ensures { result ≡ is_some (list_of (pieces_of self.entry.left)) }
    {
        while let Some(member) = self.next() {
            if RequirementRef::from_bytes(member).is_none() {
                return false;
            }
        }
        true
    }
}

/// Returns the text between two places of another. Does not allocate.
pub fn text_between(text: &[u8], start: usize, end: usize) -> &[u8]
    requires order { start ≤ end }
    requires within { end ≤ length text.now }
    ensures { result.now ≡ text_between text.now start end }
{
    &text[start..end]
}

// Returns the text before the first comma, and the text after it, if there is one.
#[tactic(auto, using(crate::proofs::lemmas::Members::one_piece, crate::proofs::lemmas::Members::pieces_cut))]
pub(crate) fn split_first(list: &[u8]) -> (&[u8], Option<&[u8]>)
    ensures pieces { cut_at_commas list.now ≡ result.0.now ∷ pieces_of result.1 }
    ensures within { length result.0.now ≤ length list.now }
    ensures shorter { IfSome result.1
        (λ others. length result.0.now + length others.now < length list.now) }
{
    let end = place_of(b',', list);
    if end == list.len() {
        return (list, None);
    }
    (&list[..end], Some(&list[end + 1..]))
}
