//! The signs between the sections of a messy version.

ghost use Rattle.std.specs.Prelude.{◌≡◌, ◌∷◌, [], Some};
ghost use Rattle.std.specs.{Cmp.eq_by_cmp_equiv, Cmp.on_equiv, Cmp.on_per, Cmp.partial_equiv_from_equiv, Option.option_map, Ordering.eq_by_cmp, Ordering.on};
ghost use Rattle.std.proofs.Common.{ap};
ghost use Rattle.version_rules.specs.laws.Last.{sep_total, seps_same};
ghost use Rattle.version_order.specs.{keys.Codes.same_where_tied, texts.Grammar.sep_byte, texts.Grammar.sep_of, texts.Grammar.sep_plain_cmp, texts.Grammar.sep_rank};
ghost use Rattle.version_parts.specs.Sep.{plain_sep, sep_fed};

use serde::{Deserialize, Serialize};
use std::cmp::Ordering;
use std::fmt;
use std::hash::{Hash, Hasher};

/// The sign before a further section of a messy version, such as the colon of `1:2.0`. A dot is not a sign: it joins
/// the chunks of one section.
#[derive(Clone, Copy, Debug, Serialize, Deserialize)]
pub enum Sep {
    Colon,
    Hyphen,
    Plus,
    Underscore,
    Tilde,
}

impl Sep {
    // The sign of a byte, if the byte is a sign.
    pub(crate) fn of(byte: u8) -> Option<Sep>
        ensures { option_map plain_sep result ≡ sep_of byte }
    {
        match byte {
            b':' => Some(Sep::Colon),
            b'-' => Some(Sep::Hyphen),
            b'+' => Some(Sep::Plus),
            b'_' => Some(Sep::Underscore),
            b'~' => Some(Sep::Tilde),
            _ => None,
        }
    }

    // The place of the sign in the order of declaration.
    fn rank(self) -> u8
        ensures { result ≡ sep_rank (plain_sep self) }
    {
        match self {
            Sep::Colon => 0,
            Sep::Hyphen => 1,
            Sep::Plus => 2,
            Sep::Underscore => 3,
            Sep::Tilde => 4,
        }
    }

    /// Compares two signs in the order of their declaration.
    pub fn compare_plain(self, other: Sep) -> Ordering
        ensures { result ≡ sep_plain_cmp (plain_sep self) (plain_sep other) }
    {
        self.rank().cmp(&other.rank())
    }
}

impl fmt::Display for Sep {
    ghost output = { λ sign. Some (sep_byte (plain_sep sign) ∷ []) };

    fn fmt<W: fmt::Write>(&self, f: &mut fmt::Formatter<W>) -> fmt::Result {
        f.write_str(match self {
            Sep::Colon => ":",
            Sep::Hyphen => "-",
            Sep::Plus => "+",
            Sep::Underscore => "_",
            Sep::Tilde => "~",
        })
    }
}

impl PartialEq for Sep {
    ghost eq = { on plain_sep (eq_by_cmp sep_plain_cmp) };

    ghost laws = { on_per plain_sep (partial_equiv_from_equiv (eq_by_cmp_equiv sep_total)) };

    fn eq(&self, other: &Sep) -> bool {
        self.compare_plain(*other).is_eq()
    }
}

impl Eq for Sep {
    ghost laws = { on_equiv plain_sep (eq_by_cmp_equiv sep_total) };
}

impl Hash for Sep {
    ghost hash_input = { λ sign. sep_fed (plain_sep sign) };

    ghost respects_eq = { λ a b tied. ap sep_fed (same_where_tied seps_same tied) };

    fn hash<H: Hasher>(&self, state: &mut H) {
        state.write_u8(self.rank());
    }
}
