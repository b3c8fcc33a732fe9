//! Why a text is no set, and where.

ghost use Rattle.std.specs.Prelude.{◌≡◌};
ghost use Rattle.version_sets.specs.Set.{reason_text};

use crate::read::slip::Slip;

/// Why a text is no set.
#[derive(Clone, Copy, Debug, PartialEq, Eq)]
pub enum Reason {
    /// A member has to come: at the beginning, after a comma or after `||`.
    NoMember,
    /// A version has to come: after an operator.
    NoVersion,
    /// A version has no operator before it.
    NoOperator,
    /// A bar stands alone: alternatives stand between two.
    OneBar,
    /// What follows an operator is no version of the order.
    NotVersion,
    /// `.*` stands behind a version after another operator than `=`, `==` and `!=`.
    StarBehind,
    /// `.*` stands behind a version that has more than an epoch and parts.
    NotBare,
    /// The versions of the order have no parts, which the operator asks for.
    NoParts,
    /// `<<` and `>>` are not of this order, but of Debian's.
    NotDoubled,
    /// The version may have been meant as something else.
    Slip(Slip),
}

impl Reason {
    /// Returns what is said of the text, and what to write: a sentence in English without a full stop.
    pub fn text(self) -> &'static str
        ensures { result.now ≡ reason_text self }
    {
        match self {
            Reason::NoMember => "a member is missing: * has all versions",
            Reason::NoVersion => "a version is missing behind the operator",
            Reason::NoOperator => {
                "an operator is missing before the version: = for it alone, >= for it and all later"
            },
            Reason::OneBar => "one bar stands alone: write || between alternatives",
            Reason::NotVersion => "what follows the operator is not a version",
            Reason::StarBehind => ".* stands after =, == and != alone: cut it off",
            Reason::NotBare =>
                ".* stands behind an epoch and parts alone: cut off what follows these",
            Reason::NoParts => "versions of this scheme have no parts, which ~, ^ and .* ask for",
            Reason::NotDoubled => "<< and >> are for Debian's versions alone: write < or >",
            Reason::Slip(Slip::LetterV) => "the version begins with v: cut it off",
            Reason::Slip(Slip::PartX) =>
                "the version has a part x: write >=1 <2, or =1.* where versions have parts",
            Reason::Slip(Slip::NoDigit) => "the version has no digit",
        }
    }
}

/// Where the first wrong piece of a text begins, in bytes from 0, and why it is wrong.
#[derive(Clone, Copy, Debug, PartialEq, Eq)]
pub struct Fault {
    pub place: usize,
    pub reason: Reason,
}
