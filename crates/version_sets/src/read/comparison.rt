//! The comparisons of members: the words for them, and the ends of what they hold.

ghost use Rattle.std.specs.Prelude.{◌≡◌, ◌≤◌, length, IfSome};
ghost use Rattle.std.specs.Option.{option_map};
ghost use Rattle.version_sets.specs.Comparison.{asks_bare, asks_doubled, asks_parts, comparison_ends, comparison_front, starred};

use version_order::{End, Kept};

/// How a version compares with that of a member.
#[derive(Clone, Copy, Debug, PartialEq, Eq)]
pub enum Comparison {
    /// `=` or `==`: it ties.
    Equal,
    /// `!=`: it doesn't tie.
    Unequal,
    /// `<`: it comes before.
    Less,
    /// `<=`: it doesn't come after.
    LessEq,
    /// `>`: it comes after.
    Greater,
    /// `>=`: it doesn't come before.
    GreaterEq,
    /// `<<`: it comes strictly before, as `<` has it. For Debian's versions alone.
    Earlier,
    /// `>>`: it comes strictly after, as `>` has it. For Debian's versions alone.
    Later,
    /// `~`, `~=` or `~>`: it doesn't come before, and begins with the parts but the last, or with the only part.
    Tilde,
    /// `^`: it doesn't come before, and begins with the parts through the first that is no plain zero, or with all.
    Caret,
    /// `=` or `==` and `.*`: it begins with the parts.
    Prefix,
    /// `!=` and `.*`: it doesn't begin with the parts.
    NotPrefix,
}

impl Comparison {
    /// Returns the comparison whose word a text begins with, and the rest, or None without one.
    #[inline(always)]
    #[tactic(auto, unfolding(crate::specs::Comparison::comparison_front))]
    pub(crate) fn front(text: &[u8]) -> Option<(Comparison, &[u8])>
        ensures front { option_map (λ front. (front.0, front.1.now)) result ≡ comparison_front text.now }
        ensures shorter { IfSome result (λ front. length front.1.now ≤ length text.now) }
    {
        let (first, rest) = text.split_first()?;
        match (*first, rest) {
            (b'>', [b'=', rest @ ..]) => Some((Comparison::GreaterEq, rest)),
            (b'>', [b'>', rest @ ..]) => Some((Comparison::Later, rest)),
            (b'>', _) => Some((Comparison::Greater, rest)),
            (b'<', [b'=', rest @ ..]) => Some((Comparison::LessEq, rest)),
            (b'<', [b'<', rest @ ..]) => Some((Comparison::Earlier, rest)),
            (b'<', _) => Some((Comparison::Less, rest)),
            (b'=', [b'=', rest @ ..]) => Some((Comparison::Equal, rest)),
            (b'=', _) => Some((Comparison::Equal, rest)),
            (b'!', [b'=', rest @ ..]) => Some((Comparison::Unequal, rest)),
            (b'~', [b'=' | b'>', rest @ ..]) => Some((Comparison::Tilde, rest)),
            (b'~', _) => Some((Comparison::Tilde, rest)),
            (b'^', _) => Some((Comparison::Caret, rest)),
            _ => None,
        }
    }

    /// Returns the same with `.*` behind its version, or None where that may not be.
    pub(crate) fn starred(self) -> Option<Comparison>
        ensures { result ≡ starred self }
    {
        match self {
            Comparison::Equal => Some(Comparison::Prefix),
            Comparison::Unequal => Some(Comparison::NotPrefix),
            _ => None,
        }
    }

    /// Returns whether it is by parts.
    pub(crate) fn asks_parts(self) -> bool
        ensures { result ≡ asks_parts self }
    {
        matches!(
            self,
            Comparison::Tilde | Comparison::Caret | Comparison::Prefix | Comparison::NotPrefix
        )
    }

    /// Returns whether it has a doubled sign.
    pub(crate) fn asks_doubled(self) -> bool
        ensures { result ≡ asks_doubled self }
    {
        matches!(self, Comparison::Earlier | Comparison::Later)
    }

    /// Returns whether it is of versions that have parts alone.
    pub(crate) fn asks_bare(self) -> bool
        ensures { result ≡ asks_bare self }
    {
        matches!(self, Comparison::Prefix | Comparison::NotPrefix)
    }

    /// Returns the ends of what it holds, by the key of its version.
    pub(crate) fn ends(self) -> &'static [End]
        ensures { result.now ≡ comparison_ends self }
    {
        match self {
            Comparison::Equal => &[End::Key, End::AfterKey],
            Comparison::Unequal => &[End::Lowest, End::Key, End::AfterKey],
            Comparison::Less | Comparison::Earlier => &[End::Lowest, End::Key],
            Comparison::LessEq => &[End::Lowest, End::AfterKey],
            Comparison::Greater | Comparison::Later => &[End::AfterKey],
            Comparison::GreaterEq => &[End::Key],
            Comparison::Tilde => &[End::Key, End::AboveBegun(Kept::ButLastOrOnly)],
            Comparison::Caret => &[End::Key, End::AboveBegun(Kept::ThroughOther)],
            Comparison::Prefix => &[End::Begun(Kept::All), End::AboveBegun(Kept::All)],
            Comparison::NotPrefix => &[
                End::Lowest,
                End::Begun(Kept::All),
                End::AboveBegun(Kept::All),
            ],
        }
    }
}
