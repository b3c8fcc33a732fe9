//! Which members of a list of requirements exclude each other.

ghost use Rattle.std.specs.Prelude.{◌≡◌, ◌↔◌, is_some, IfSome, IsSome, IsSomeAnd, IsTrue, Some};
ghost use Rattle.std.specs.{Option.option_map, declared.cmp.Ordering.TheVariants.Less};
ghost use Rattle.version_order.specs.keys.Lists.{bytes_cmp};
ghost use Rattle.version_rules.specs.requirement.Range.{common_kinds, has_kind, no_kinds, range_of, requirement_range};
ghost use Rattle.version_rules.specs.requirement.Requirements.{requirements_of};
ghost use Rattle.version_requirements.specs.Requirement.{ExcludeEachOther, IsByEnds, IsFailing, IsOneAtMost, NotEach};
ghost use Rattle.version_requirements.specs.Range.{IsCrossed, IsEmpty, bound_bytes, plain_range_ref};

use crate::first_failing::{ListTest, first_failing};
use crate::range_ref::{Bound, RangeRef, or_lowest};
use crate::requirement_ref::RequirementRef;
use version_rules::{Kind, Kinds};

/// Where a member of a list lies.
#[derive(Clone, Copy, Debug, PartialEq, Eq)]
pub struct Span {
    /// Where it begins in the list.
    pub start: usize,
    /// Where it ends.
    pub end: usize,
}

/// Two members of a list that exclude each other, or one that excludes every version, twice.
#[derive(Clone, Copy, Debug, PartialEq, Eq)]
pub struct Conflict {
    /// Of two members whose ends exclude each other the one with the greatest low end.
    pub one: Span,
    /// The one with the least high end.
    pub other: Span,
}

/// Returns two members of a list that exclude each other: what their ranges have in common is empty, so the list
/// matches nothing. Some of None if the range of the list is not empty; None if the bytes do not parse as a list. Does
/// not allocate.
pub fn conflict_in(list: &[u8]) -> Option<Option<Conflict>>
    ensures parses { is_some result ≡ is_some (requirements_of list.now) }
    ensures empty { IfSome result (λ found. IsSome found
        ↔ IsSomeAnd (requirements_of list.now) (λ wanted. IsEmpty (range_of wanted))) }
    ensures members { IfSome result (λ found. IfSome found (ExcludeEachOther list.now)) }

    // If ends exclude each other, they are the greatest low end of the list and the least high one.
    ensures ends { IfSome result (λ found. IfSome found (λ conflict. IfSome (requirements_of list.now)
        (λ wanted. IsCrossed (range_of wanted) → IsByEnds list.now (range_of wanted) conflict))) }
{
    let range = RangeRef::from_bytes(list)?;
    if range.is_crossed() {
        return Some(Some(crossed(list, &range)?));
    }
    if is_no_kind(range.kinds) {
        return Some(Some(of_other_kinds(list)?));
    }
    Some(None)
}

// Returns whether no kind is among some.
fn is_no_kind(kinds: Kinds) -> bool
    ensures { IsTrue result ↔ (kinds ≡ no_kinds) }
{
    !kinds.ideal && !kinds.general && !kinds.complex
}

// Whether the members of a list begin below a bound.
#[derive(Clone, Copy)]
struct BeginsBefore<'a> {
    bound: Bound<'a>,
}

impl<'a> ListTest for BeginsBefore<'a> {
    ghost passes = { λ test r. bytes_cmp (requirement_range r).low (bound_bytes test.bound) ≡ Less };

    fn each_passes(&self, list: &[u8]) -> bool {
        match RangeRef::from_bytes(list) {
            Some(range) => range.begins_before(&self.bound),
            None => false,
        }
    }
}

// Whether the members of a list end above a bound, or have no high end.
#[derive(Clone, Copy)]
struct EndsAfter<'a> {
    bound: Bound<'a>,
}

impl<'a> ListTest for EndsAfter<'a> {
    ghost passes = { λ test r. IfSome (requirement_range r).high
        (λ high. bytes_cmp (bound_bytes test.bound) high ≡ Less) };

    fn each_passes(&self, list: &[u8]) -> bool {
        match RangeRef::from_bytes(list) {
            Some(range) => range.ends_after(&self.bound),
            None => false,
        }
    }
}

// Whether the members of a list have a kind.
#[derive(Clone, Copy)]
struct HasKind {
    kind: Kind,
}

impl ListTest for HasKind {
    ghost passes = { λ test r. IsTrue (has_kind (requirement_range r).kinds test.kind) };

    fn each_passes(&self, list: &[u8]) -> bool {
        match RangeRef::from_bytes(list) {
            Some(range) => range.kinds.has(self.kind),
            None => false,
        }
    }
}

// Returns where the first member that fails lies, and its range.
fn failing<'a, T: ListTest>(list: &'a [u8], test: &T) -> Option<(Span, RangeRef<'a>)>
    requires { NotEach (T.passes test.now) (requirements_of list.now) }
    ensures { IsSomeAnd result (λ found.
        IsFailing (T.passes test.now) list.now found.0 (plain_range_ref found.1)) }
{
    let (start, member) = first_failing(list, test);
    let end = start + member.len();
    let range = RangeRef::of(RequirementRef::from_bytes(member)?);
    Some((Span { start, end }, range))
}

// Returns the member with the greatest low end and the one with the least high end, or one twice that has no version in
// its own range.
fn crossed(list: &[u8], range: &RangeRef<'_>) -> Option<Conflict>
    requires range { option_map range_of (requirements_of list.now) ≡ Some (plain_range_ref range.now) }
    requires crossed { IsCrossed (plain_range_ref range.now) }
    ensures members { IsSomeAnd result (ExcludeEachOther list.now) }
    ensures ends { IfSome result (IsByEnds list.now (plain_range_ref range.now)) }
{
    let high = range.high?;
    let (other, least) = failing(list, &EndsAfter { bound: high })?;
    if least.is_crossed() {
        return Some(Conflict { one: other, other });
    }
    let low = or_lowest(range.low, high);
    let (one, _) = failing(list, &BeginsBefore { bound: low })?;
    Some(Conflict { one, other })
}

// Returns two members of kinds that have nothing in common.
fn of_other_kinds(list: &[u8]) -> Option<Conflict>
    requires { IsSomeAnd (requirements_of list.now) (λ wanted. (range_of wanted).kinds ≡ no_kinds) }
    ensures { IsSomeAnd result (ExcludeEachOther list.now) }
{
    let (one, range) = failing(list, &HasKind { kind: Kind::Ideal })?;
    let kind = kind_of_one(range.kinds);
    let (other, _) = failing(list, &HasKind { kind })?;
    Some(Conflict { one, other })
}

// Returns a kind such that kinds without it have nothing in common with some, of which at most one is there.
fn kind_of_one(kinds: Kinds) -> Kind
    requires { IsOneAtMost kinds }
    ensures { (others : Kinds) → ¬ (IsTrue (has_kind others result))
        → common_kinds kinds others ≡ no_kinds }
{
    if kinds.general {
        Kind::General
    } else if kinds.complex {
        Kind::Complex
    } else {
        Kind::Ideal
    }
}
