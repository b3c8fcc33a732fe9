//! What an operator asks of two versions, whatever holds them.

ghost use Rattle.std.specs.Prelude.{◌≡◌, ◌↔◌, IsTrue};
ghost use Rattle.std.specs.Ordering.{eq_by_cmp};
ghost use Rattle.version_rules.specs.{grammar.Versioning.versioning_plain_cmp, grammar.Versioning.PlainVersioning, key.Key.key_of, key.Key.precedence};
ghost use Rattle.version_rules.specs.requirement.Matching.{MatchesCaret, MatchesOp, MatchesTilde};

use crate::op::Op;
use std::cmp::Ordering;

/// A type of versions of any kind. These are the questions that the operators of requirements ask.
pub trait Asked {
    // The version that a value holds.
    ghost plain: { Self → PlainVersioning };

    /// Returns whether two versions are the same, except for metadata of strict ones.
    fn is_same(&self, other: &Self) -> bool
        ensures { IsTrue result
            ↔ IsTrue (eq_by_cmp versioning_plain_cmp (plain self.now) (plain other.now)) };

    /// Compares two versions by their keys.
    fn precedence(&self, other: &Self) -> Ordering
        ensures { result ≡ precedence (key_of (plain self.now)) (key_of (plain other.now)) };

    /// Returns whether `~` with this version matches a version.
    fn matches_tilde(&self, version: &Self) -> bool
        ensures { IsTrue result ↔ MatchesTilde (plain self.now) (plain version.now) };

    /// Returns whether `^` with this version matches a version.
    fn matches_caret(&self, version: &Self) -> bool
        ensures { IsTrue result ↔ MatchesCaret (plain self.now) (plain version.now) };
}

/// Returns whether an operator with one version matches another version.
pub fn asks_for<V: Asked>(op: Op, wanted: &V, version: &V) -> bool
    ensures { IsTrue result ↔ MatchesOp op (V.plain wanted.now) (V.plain version.now) }
{
    match op {
        Op::Exact => version.is_same(wanted),
        Op::Greater => version.precedence(wanted).is_gt(),
        Op::GreaterEq => version.precedence(wanted).is_ge(),
        Op::Less => version.precedence(wanted).is_lt(),
        Op::LessEq => version.precedence(wanted).is_le(),
        Op::Tilde => wanted.matches_tilde(version),
        Op::Caret => wanted.matches_caret(version),
        Op::Wildcard => true,
    }
}
