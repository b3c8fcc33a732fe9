//! What a rule makes of two sets, end by end.

ghost use Rattle.std.specs.Prelude.{false, not, ◌≡◌, ◌+◌, ◌*◌, ◌-◌, ◌<◌, ◌≤◌, ◌==◌, ◌∷◌, [], IfNone, IfSome, drop, length};
ghost use Rattle.version_sets.specs.Form.{ends_in};

use crate::form::Form;
use std::cmp::Ordering;
use version_order::compare_bytes;

/// Whether a set that is made of two has what the one has or not, and the other has or not.
#[derive(Clone, Copy)]
pub enum Rule {
    /// What both have.
    Both,
    /// What one of them has, or both.
    Either,
    /// What the first has alone.
    FirstAlone,
}

impl Rule {
    ghost use Rattle.version_sets.specs.Set.{by_rule};

    // Whether the set that is made has what the one has or not, and the other has or not.
    fn has(self, one: bool, other: bool) -> bool
        ensures { result ≡ by_rule self one other }
    {
        match self {
            Rule::Both => one && other,
            Rule::Either => one || other,
            Rule::FirstAlone => one && !other,
        }
    }
}

// A set, how many of its ends are passed, whether it has what lies behind these, and the next end if one is left.
#[derive(Clone, Copy)]
struct Side<'a> {
    set: Form<'a>,
    place: usize,
    has: bool,
    next: &'a [u8],
    ghost is_next: { place < set.count → drop place (ends_in set.count set.numbers.now set.ends.now)
        ≡ next.now ∷ drop (place + 1) (ends_in set.count set.numbers.now set.ends.now) },
}

impl<'a> Side<'a> {
    ghost use Rattle.version_sets.specs.Set.{ends_left, ends_of, passed, side_left};

    // Begins before the first end of a set.
    fn of(set: Form<'a>) -> Side<'a>
        ensures set { result.set ≡ set.entry }
        ensures left { side_left result ≡ ends_of set.entry }
        ensures has { result.has ≡ false }
    {
        Side::at(set, 0, false)
    }

    // Stands at a place in a set, and has what lies before its end there or not.
    #[tactic(auto, using(crate::proofs::lemmas::Form::ends_count))]
    fn at(set: Form<'a>, place: usize, has: bool) -> Side<'a>
        ensures set { result.set ≡ set.entry }
        ensures left { side_left result ≡ drop place (ends_of set.entry) }
        ensures has { result.has ≡ has }
        ensures number { ends_left result ≡ set.entry.count - place }
    {
        let next = match set.end(place) {
            Some(end) => end,
            None => &[],
        };
        Side {
            set,
            place,
            has,
            next,
        }
    }

    // The next end, or None if none is left.
    #[tactic(auto, using(crate::proofs::lemmas::Form::ends_count))]
    fn end(&self) -> Option<&'a [u8]>
        ensures some { IfSome result (λ end. side_left self.now ≡ end.now ∷ passed self.now) }
        ensures none { IfNone result (side_left self.now ≡ []) }
        ensures left { IfSome result (λ _. 0 < ends_left self.now) }
    {
        if self.place < self.set.count() {
            Some(self.next)
        } else {
            None
        }
    }

    // Passes an end, which is left.
    fn pass(&mut self)
        requires { 0 < ends_left self.old }
        ensures left { side_left self.new ≡ passed self.old }
        ensures has { self.new.has ≡ not self.old.has }
        ensures number { ends_left self.new + 1 ≡ ends_left self.old }
    {
        *self = Side::at(self.set, self.place + 1, !self.has);
    }
}

/// The ends of the set that a rule makes of two, one after another.
#[derive(Clone, Copy)]
pub struct Merge<'a> {
    rule: Rule,
    one: Side<'a>,
    other: Side<'a>,
}

impl<'a> Merge<'a> {
    ghost use Rattle.version_sets.specs.Set.{both_ends, by_rule, ends_of, has_here, left, merge_left};
    ghost use Rattle.version_sets.specs.Pile.{kept, merged};

    /// Begins what a rule makes of two sets.
    pub fn of(rule: Rule, one: Form<'a>, other: Form<'a>) -> Merge<'a>
        ensures left { left result
            ≡ merged (by_rule rule) false false (ends_of one.entry) (ends_of other.entry) }
        ensures ends { both_ends result ≡ length (ends_of one.entry) + length (ends_of other.entry) }
    {
        Merge {
            rule,
            one: Side::of(one),
            other: Side::of(other),
        }
    }

    /// Returns the next end, or None if none is left.
    pub fn next(&mut self) -> Option<&'a [u8]>
        ensures some { IfSome result (λ end. left self.old ≡ end.now ∷ left self.new) }
        ensures none { IfNone result (left self.old ≡ []) }
        ensures ended { IfNone result (left self.new ≡ []) }
        ensures nearer { IfSome result (λ _. merge_left self.new < merge_left self.old) }
    {
        'ends: loop {
            let before = self.has();
            let end = self.pass()?;
            if self.has() != before {
                return Some(end);
            }
        }
    }

    /// Returns whether no end is left.
    pub fn is_empty(mut self) -> bool
        ensures { result ≡ (length (left self.entry) == 0) }
    {
        self.next().is_none()
    }

    // Returns how many bytes the places of all ends of both have.
    #[tactic(auto, using(crate::proofs::lemmas::Form::ends_count))]
    pub(crate) fn most_numbers(&self) -> usize
        ensures { result ≡ 8 * both_ends self.now }
    {
        self.one.set.numbers_len() + self.other.set.numbers_len()
    }

    // Whether the set that is made has what lies behind the ends that are passed.
    fn has(&self) -> bool
        ensures { result ≡ has_here self.now }
    {
        self.rule.has(self.one.has, self.other.has)
    }

    // Passes the lowest end that is left, or None if none is.
    fn pass(&mut self) -> Option<&'a [u8]>
        ensures some { IfSome result (λ end. left self.old
            ≡ kept (has_here self.old) (has_here self.new) end.now (left self.new)) }
        ensures none { IfNone result (left self.old ≡ []) }
        ensures ended { IfNone result (left self.new ≡ []) }
        ensures nearer { IfSome result (λ _. merge_left self.new < merge_left self.old) }
    {
        match (self.one.end(), self.other.end()) {
            (None, None) => None,
            (Some(end), None) => {
                self.one.pass();
                Some(end)
            }
            (None, Some(end)) => {
                self.other.pass();
                Some(end)
            }
            (Some(end), Some(other)) => match compare_bytes(end, other) {
                Ordering::Less => {
                    self.one.pass();
                    Some(end)
                }
                Ordering::Greater => {
                    self.other.pass();
                    Some(other)
                }
                Ordering::Equal => {
                    self.one.pass();
                    self.other.pass();
                    Some(end)
                }
            },
        }
    }
}
