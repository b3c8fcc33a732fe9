//! Sets one behind another in a room, of which a rule makes one: each two of about as many members in turn, so that the
//! whole takes a logarithm of their number as long as one set.

ghost use Rattle.std.specs.Prelude.{◌≡◌, ◌∷◌, ◌++◌, ◌*◌, ◌+◌, ◌<◌, ◌≤◌, false, get_or, length, set, take, true, IfSome, List, ℕ};
ghost use Rattle.std.specs.Option.{IsSomeAnd};
ghost use Rattle.version_sets.specs.Pile.{merged, all_have, through, Begin, IsPile, Kept};
ghost use Rattle.version_sets.specs.{Form.Rise, Form.form_bytes, Set.both_ends, Set.by_rule, Set.ends_of, Set.left, declared.merge.Rule.TheVariants.FirstAlone};

use crate::form::Form;
use crate::merge::{Merge, Rule};
use crate::write::{write_ends, write_head};

// So many sets, each of twice as many members as the next, have sixteen million. A full pile is merged too.
const DEPTH: usize = 24;

/// The sets of a pile, by where each begins in the room.
#[derive(Clone, Copy)]
pub(crate) struct Pile {
    pub order: u8,
    pub rule: Rule,
    pub starts: [usize; DEPTH],
    pub depth: usize,
    pub members: u64,
}

impl Pile {
    // Returns a pile without sets.
    pub fn new(order: u8, rule: Rule) -> Pile
        ensures order { result.order ≡ order }
        ensures rule { result.rule ≡ rule }
        ensures depth { result.depth ≡ 0 }
    {
        Pile {
            order,
            rule,
            starts: [0; DEPTH],
            depth: 0,
            members: 0,
        }
    }

    // Drops all sets.
    pub fn clear(&mut self)
        ensures depth { self.new.depth ≡ 0 }
        ensures same { (self.new.order ≡ self.old.order) × (self.new.rule ≡ self.old.rule) }
    {
        self.depth = 0;
        self.members = 0;
    }

    // Takes the set that lies in the room from a place on, and makes one of each two that have as many members. Returns
    // where the pile ends.
    pub fn push(&mut self, room: &mut [u8], start: usize, end: usize) -> usize
        requires depth { self.old.depth < 24 }
        requires room { 2 * end ≤ length room.old }
        requires rule { ¬ (self.old.rule ≡ FirstAlone) }
        ensures sets { (below : List ℕ) (sets : List (List (List ℕ))) (ends : List (List ℕ))
            → IsPile room.old below self.old start sets → Rise ends
            → take end room.old ≡ take start room.old ++ form_bytes self.old.order ends
            → end ≡ start + length (form_bytes self.old.order ends)
            → (left : List (List (List ℕ))) × IsPile room.new below self.new result left
            × ((key : List ℕ) → all_have self.old.rule left key ≡ all_have self.old.rule (ends ∷ sets) key) }
        ensures depth { self.new.depth < 24 }
        ensures some { 1 ≤ self.new.depth }
        ensures end { result ≤ end }
        ensures same { (self.new.order ≡ self.old.order) × (self.new.rule ≡ self.old.rule)
            × (length room.new ≡ length room.old) }
    {
        self.begin(start);
        let mut end = end;
        let mut members = self.members;
        while self.is_due(members) {
            end = self.merge(room, end);
            members /= 2;
        }
        end
    }

    // Whether the last two sets stand for as many members each, as how many there are tells; or the pile is full.
    fn is_due(&self, members: u64) -> bool
        ensures yes { result ≡ true → 1 < self.now.depth }
        ensures no { result ≡ false → self.now.depth ≤ 24 → self.now.depth < 24 }
    {
        self.depth > 1 && (members % 2 == 0 || self.depth == DEPTH)
    }

    // Takes the place where a set begins.
    fn begin(&mut self, start: usize)
        requires { self.old.depth < 24 }
        ensures within { self.old.depth < length self.old.starts }
        ensures new { (members : ℕ) × (self.new ≡ record {
          order = self.old.order;
          rule = self.old.rule;
          starts = set self.old.starts self.old.depth start;
          depth = self.old.depth + 1;
          members = members;
        }) }
    {
        self.starts[self.depth] = start;
        self.depth += 1;
        self.members = self.members.saturating_add(1);
    }

    // Makes one set of all, and returns where it ends.
    pub fn collapse(&mut self, room: &mut [u8], end: usize) -> usize
        requires room { 2 * end ≤ length room.old }
        requires rule { ¬ (self.old.rule ≡ FirstAlone) }
        ensures kept { Kept room.old self.old end room.new self.new result }
        ensures depth { self.new.depth ≤ 1 }
        ensures some { 1 ≤ self.old.depth → 1 ≤ self.new.depth }
        ensures end { result ≤ end }
        ensures same { (self.new.order ≡ self.old.order) × (self.new.rule ≡ self.old.rule)
            × (length room.new ≡ length room.old) }
    {
        let mut end = end;
        while self.depth > 1 {
            end = self.merge(room, end);
        }
        end
    }

    // Makes one set of the last two, and returns where it ends.
    fn merge(&mut self, room: &mut [u8], end: usize) -> usize
        requires depth { 1 < self.old.depth }
        requires room { 2 * end ≤ length room.old }
        requires rule { ¬ (self.old.rule ≡ FirstAlone) }
        ensures kept { Kept room.old self.old end room.new self.new result }
        ensures depth { self.new.depth + 1 ≡ self.old.depth }
        ensures end { result ≤ end }
        ensures same { (self.new.order ≡ self.old.order) × (self.new.rule ≡ self.old.rule)
            × (length room.new ≡ length room.old) }
    {
        self.depth -= 1;
        let (sets, free) = room.split_at_mut(end);
        let Some((first, merge)) = self.last_two(sets) else {
            return end;
        };
        let Some((numbers, ends)) = free.split_at_mut_checked(merge.most_numbers()) else {
            return end;
        };
        let Some((count, length)) = write_ends(merge, numbers, ends) else {
            return end;
        };
        let whole = 9 + 8 * count + length;
        if whole > end - first {
            return end;
        }
        let (_, place) = sets.split_at_mut(first);
        let (head, rest) = place.split_at_mut(9);
        write_head(head, self.order, count);
        let (front, rest) = rest.split_at_mut(8 * count);
        front.copy_from_slice(&numbers[..8 * count]);
        let (bytes, _) = rest.split_at_mut(length);
        bytes.copy_from_slice(&ends[..length]);
        first + whole
    }

    // Returns where the last two sets begin, of which the last is out of the pile already, and what the rule makes of
    // them. None where there are none.
    fn last_two<'s>(&self, sets: &'s [u8]) -> Option<(usize, Merge<'s>)>
        ensures within { IfSome result (λ two. two.0 ≤ length sets.now) }
        ensures two { (below : List ℕ) (last first : List (List ℕ)) (before : List (List (List ℕ)))
            → sets.now ≡ through self.now.order below (last ∷ first ∷ before)
            → Begin self.now.order below self.now.starts (self.now.depth + 1) (last ∷ first ∷ before)
            → IsSomeAnd result (λ two. (two.0 ≡ length (through self.now.order below before))
            × (left two.1 ≡ merged (by_rule self.now.rule) false false first last)
            × (both_ends two.1 ≡ length first + length last)) }
    {
        let first = self.start(self.depth.saturating_sub(1));
        let second = self.start(self.depth);
        let one = set_at(sets, first, second)?;
        let other = set_at(sets, second, sets.len())?;
        Some((first, Merge::of(self.rule, one, other)))
    }

    // Returns where a set begins, or 0 where there are fewer.
    fn start(&self, place: usize) -> usize
        ensures { result ≡ get_or self.now.starts place 0 }
    {
        self.starts.get(place).copied().unwrap_or(0)
    }
}

// Returns the set that lies between two places, or None where none does.
fn set_at(sets: &[u8], start: usize, end: usize) -> Option<Form<'_>>
    ensures within { IfSome result (λ _. start ≤ length sets.now) }
    ensures set { (order : ℕ) (before after : List ℕ) (ends : List (List ℕ))
        → sets.now ≡ before ++ (form_bytes order ends ++ after) → start ≡ length before
        → end ≡ start + length (form_bytes order ends)
        → IsSomeAnd result (λ set. ends_of set ≡ ends) }
{
    if start > end || end > sets.len() {
        return None;
    }
    Some(Form::of(&sets[start..end])?.1)
}
