//! The ends of ranges: which bytes each operator takes from the key of its version.

ghost use Rattle.std.specs.Prelude.{◌≡◌, Some, true};
ghost use Rattle.version_rules.specs.requirement.Range.{kept_parts, range_from, AreWhole, all_kinds, is_strict, kind_alone, no_kinds, op_range, range_without_version, series_range};
ghost use Rattle.version_rules.specs.{declared.kind.Kind.TheVariants.Complex, grammar.Versioning.versioning_kind, grammar.Versioning.PlainVersioning, key.Key.key_of, key.Key.Key};
ghost use Rattle.version_order.specs.declared.ends.End.TheVariants.{Zero};

use crate::kind::Kind;
use crate::kinds::Kinds;
use crate::op::Op;
use version_order::{End, Kept};

/// The ends of a range, by the key of a version; and the kinds of the range, and whether it is exact.
#[derive(Clone, Copy, Debug, PartialEq, Eq)]
pub struct Ends {
    pub low: End,
    /// None if the range has no high bound.
    pub high: Option<End>,
    pub kinds: Kinds,
    pub is_exact: bool,
}

impl Ends {
    // Returns ends of a range of all kinds, which is exact.
    fn of_all_kinds(low: End, high: Option<End>) -> Ends
        ensures { result
            ≡ record { low = low; high = high; kinds = all_kinds; is_exact = true } }
    {
        Ends {
            low,
            high,
            kinds: Kinds::all(),
            is_exact: true,
        }
    }

    // Returns ends of a range of one kind, which is exact for strict versions.
    fn of_kind(kind: Kind, low: End, high: End) -> Ends
        ensures { result ≡ record {
          low = low;
          high = Some high;
          kinds = kind_alone kind;
          is_exact = is_strict kind;
        } }
    {
        Ends {
            low,
            high: Some(high),
            kinds: Kinds::of(kind),
            is_exact: kind == Kind::Ideal,
        }
    }

    // Returns ends of a range of no version.
    fn none() -> Ends
        ensures { result
            ≡ record { low = Zero; high = Some Zero; kinds = no_kinds; is_exact = true } }
    {
        Ends {
            low: End::Zero,
            high: Some(End::Zero),
            kinds: Kinds::none(),
            is_exact: true,
        }
    }
}

/// Returns the ends of the range that an operator with a version of a kind asks for. docs/REQUIREMENTS.md has the
/// rules. Does not allocate.
#[tactic(auto, using(crate::proofs::lemmas::Range::ends_written))]
pub fn ends_of(op: Op, kind: Kind) -> Ends
    ensures range { (v : PlainVersioning) → versioning_kind v ≡ kind
        → range_from result (key_of v) ≡ op_range op v }

    // Only of strict and general versions the parts are needed alone.
    ensures messy { kind ≡ Complex → AreWhole result }
{
    match op {
        Op::Exact => Ends::of_kind(kind, End::Key, End::AfterKey),
        Op::Greater => Ends::of_all_kinds(End::AfterKey, None),
        Op::GreaterEq => Ends::of_all_kinds(End::Key, None),
        Op::Less => Ends::of_all_kinds(End::Lowest, Some(End::Key)),
        Op::LessEq => Ends::of_all_kinds(End::Lowest, Some(End::AfterKey)),
        Op::Tilde => series_ends(kind, Kept::ButLast),
        Op::Caret => series_ends(kind, Kept::ThroughOther),
        Op::Wildcard => Ends::of_all_kinds(End::Lowest, None),
    }
}

/// Returns the ends of the range that an operator without a version asks for; no key counts in them. Does not allocate.
pub fn ends_without_version(op: Op) -> Ends
    ensures { (k : Key) → range_from result k ≡ range_without_version op }
{
    match op {
        Op::Wildcard => Ends::of_all_kinds(End::Lowest, None),
        _ => Ends::none(),
    }
}

// Returns the ends for `~` or `^`, by the parts that they keep.
#[tactic(auto, using(crate::proofs::lemmas::Range::ends_written))]
fn series_ends(kind: Kind, kept: Kept) -> Ends
    ensures range { (v : PlainVersioning) → versioning_kind v ≡ kind
        → range_from result (key_of v) ≡ series_range (kept_parts kept) v }
    ensures messy { kind ≡ Complex → AreWhole result }
{
    match kind {
        Kind::Complex => Ends::none(),
        kind => Ends::of_kind(kind, End::Begun(Kept::All), End::AboveBegun(kept)),
    }
}
