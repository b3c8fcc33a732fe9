//! Whether `~` or `^` matches lists of parts, whatever holds them.

ghost use Rattle.std.specs.Prelude.{◌≡◌, ◌∷◌, ◌↔◌, [], List, IfNone, IfSome, IsTrue, Some};
ghost use Rattle.version_rules.specs.key.PartKey.{part_cmp, PartKey};
ghost use Rattle.version_rules.specs.requirement.VersionMatch.{is_plain_zero, PartsMatchCaret, PartsMatchTilde, PartsNotBelow};

use std::cmp::Ordering;

/// A list of parts, which has a first one.
pub trait Parts: Copy {
    // The first part, and the parts after it.
    ghost first: { Self → PartKey };

    ghost more: { Self → List PartKey };

    /// Compares the first parts of two lists.
    fn compare_first(self, other: Self) -> Ordering
        ensures { result ≡ part_cmp (Some (first self)) (Some (first other)) };

    /// Returns whether the first part is the number 0 without a suffix.
    fn begins_with_zero(self) -> bool
        ensures { result ≡ is_plain_zero (first self) };

    /// Returns the parts after the first one, or None if there are none.
    fn rest(self) -> Option<Self>
        ensures some { IfSome result (λ rest. more self ≡ first rest ∷ more rest) }
        ensures none { IfNone result (more self ≡ []) };
}

/// Returns whether there are equally many parts, all but the last the same, and the last not before the wanted one.
pub fn parts_match_tilde<P: Parts>(mut wanted: P, mut parts: P) -> bool
    ensures { IsTrue result ↔ PartsMatchTilde (P.first wanted ∷ P.more wanted)
        (P.first parts ∷ P.more parts) }
{
    'parts: loop {
        let order = parts.compare_first(wanted);
        match (wanted.rest(), parts.rest()) {
            (Some(wanted_more), Some(more)) => {
                if !order.is_eq() {
                    return false;
                }
                wanted = wanted_more;
                parts = more;
            }
            (None, None) => return order.is_ge(),
            (Some(_), None) => return false,
            (None, Some(_)) => return false,
        }
    }
}

/// Returns whether there is a part for each wanted one: the same for leading plain zeros and for the first other part,
/// then parts that are not before the wanted ones.
pub fn parts_match_caret<P: Parts>(mut wanted: P, mut parts: P) -> bool
    ensures { IsTrue result ↔ PartsMatchCaret (P.first wanted ∷ P.more wanted)
        (P.first parts ∷ P.more parts) }
{
    'parts: loop {
        if !parts.compare_first(wanted).is_eq() {
            return false;
        }
        let Some(wanted_more) = wanted.rest() else {
            return true;
        };
        let Some(more) = parts.rest() else {
            return false;
        };
        if !wanted.begins_with_zero() {
            return no_part_is_below(wanted_more, more);
        }
        wanted = wanted_more;
        parts = more;
    }
}

// Returns whether there is a part for each wanted one, and none is before the wanted one.
fn no_part_is_below<P: Parts>(mut wanted: P, mut parts: P) -> bool
    ensures { IsTrue result ↔ PartsNotBelow (P.first wanted ∷ P.more wanted)
        (P.first parts ∷ P.more parts) }
{
    'parts: loop {
        if !parts.compare_first(wanted).is_ge() {
            return false;
        }
        let Some(wanted_more) = wanted.rest() else {
            return true;
        };
        let Some(more) = parts.rest() else {
            return false;
        };
        wanted = wanted_more;
        parts = more;
    }
}
