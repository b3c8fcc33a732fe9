//! Lists of parts, by their texts, and whether `^` matches those of strict versions.

ghost use Rattle.std.specs.Prelude.{◌≡◌, ◌∷◌, ◌↔◌, IsTrue};
ghost use Rattle.version_rules.specs.{key.Key.strict_body, requirement.SemVerMatch.MatchesCaret, requirement.SemVerMatch.Numbers};
ghost use Rattle.version_texts.specs.Key.{first_part, more_parts};

use crate::order::list::compare_parts;
use crate::order::part::compare_parts_to;
use std::cmp::Ordering;
use version_order::{behind_first, split_piece};
use version_pieces::Delimiters;
use version_rules::{Parts, parts_match_caret};

// The parts of a text, with dots between them.
#[derive(Clone, Copy)]
pub(crate) struct TextParts<'a>(pub(crate) &'a [u8]);

impl<'a> Parts for TextParts<'a> {
    ghost first = { λ p. first_part p.0.now };

    ghost more = { λ p. more_parts p.0.now };

    #[inline(always)]
    fn compare_first(self, other: TextParts<'a>) -> Ordering {
        compare_parts_to(Delimiters::Dots, self.0, other.0).order
    }

    #[inline(always)]
    fn begins_with_zero(self) -> bool {
        compare_parts_to(Delimiters::Dots, self.0, b"0")
            .order
            .is_eq()
    }

    #[inline(always)]
    #[tactic(auto, using(crate::proofs::lemmas::Pieces::parts_begin))]
    fn rest(self) -> Option<TextParts<'a>> {
        Some(TextParts(behind_first(split_piece(self.0).1)?))
    }
}

// Whether `^wanted` matches, of three plain numbers each: the same major, and then a minor and patch that are not less;
// but as lists of parts if the wanted major is 0.
#[tactic(auto, using(crate::proofs::lemmas::Matching::chain, crate::proofs::lemmas::Pieces::parts_begin, crate::proofs::lemmas::Matching::refused, crate::proofs::lemmas::Matching::caret_differs, crate::proofs::lemmas::Matching::caret_of_major, crate::proofs::lemmas::Matching::caret_of_zero))]
pub(crate) fn numbers_match_caret(wanted: TextParts<'_>, numbers: TextParts<'_>) -> bool
    ensures { (w v : Numbers)
        → first_part wanted.entry.0.now ∷ more_parts wanted.entry.0.now ≡ strict_body w.0 w.1 w.2
        → first_part numbers.entry.0.now ∷ more_parts numbers.entry.0.now ≡ strict_body v.0 v.1 v.2
        → (IsTrue result ↔ MatchesCaret w v) }
{
    if wanted.begins_with_zero() {
        return parts_match_caret(wanted, numbers);
    }
    numbers.compare_first(wanted).is_eq() && compare_parts(numbers.0, wanted.0).is_ge()
}
