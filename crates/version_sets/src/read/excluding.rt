//! Which members of a set leave a version out.

ghost use Rattle.std.specs.Prelude.{◌≡◌, ◌∷◌, ◌+◌, ◌*◌, ◌≤◌, ◌<◌, ◌^◌, [], length, not, true, Bool, IfErr, IfNone, IfOk, IfSome, List, None, Option, ℕ};
ghost use Rattle.std.proofs.Props.{props};
ghost use Rattle.version_sets.specs.Excluding.{first_out, leave_out, left_read, room_left, steps_left, AreLeft, EndsAt, StandsBefore};
ghost use Rattle.version_sets.specs.Reading.{asked, piece_room, pieces_room, read_set, set_room, Member, Right, With};
ghost use Rattle.version_sets.specs.{Comparison.ends_with, Form.has, Form.form_bytes, Form.Rise, Pieces.pieces, Pieces.Word, declared.read.comparison.Comparison.Comparison as Comparisons, declared.read.steps.State.TheVariants.Wanted};
ghost use Rattle.version_order.specs.{Facts.key_room, Keyed.PlainKeyed, declared.facts.Operators.Operators};

use crate::form::Form;
use crate::read::comparison::Comparison;
use crate::read::member::{asked, write_member};
use crate::read::piece_room;
use crate::read::pieces::Pieces;
use crate::read::steps::{State, Step};
use version_order::SchemeVersion;

/// Where a member of a set stands in its text: from its operator to the end of its version, in bytes from 0.
#[derive(Clone, Copy, Debug, PartialEq, Eq)]
pub struct Span {
    pub start: usize,
    pub end: usize,
}

/// The room is smaller than a set takes.
#[derive(Clone, Copy, Debug, PartialEq, Eq)]
pub struct NoRoom;

/// The alternatives that are left of a set as people write it.
#[derive(Clone, Copy)]
pub struct Alternatives<'t> {
    left: Option<Pieces<'t>>,
    ghost small: { IfSome left (λ pieces. pieces.place + length pieces.left.now < 2 ^ 64) } by { Prim.hlevel props },
}

impl<'t> Alternatives<'t> {
    /// Returns all alternatives of a text.
    pub fn of(text: &'t [u8]) -> Alternatives<'t>
        ensures all { (read_as : List ℕ → Option PlainKeyed) (words : Operators) (first : List Member)
            (others : List (List Member)) → read_set read_as words text.now ≡ Right first others
            → AreLeft read_as words result.left (first ∷ others) }
        ensures end { EndsAt (length text.now) result.left }
        ensures room { (most : ℕ → ℕ) → set_room most text.now ≡ 2 * room_left most result.left }
    {
        Alternatives {
            left: Some(Pieces {
                left: text,
                place: 0,
            }),
        }
    }

    /// Returns the first member that leaves a version out, of the next alternative that does. None where no other one
    /// does: none at all of a set that has the version, of one that has it not as many as it has alternatives. A room in
    /// which the set can be read is enough, and is overwritten.
    pub fn next_excluding<V: SchemeVersion<'t>>(
        &mut self,
        version: &V,
        room: &mut [u8],
    ) -> Result<Option<Span>, NoRoom>
        ensures some { IfOk result (λ found. IfSome found (λ span. (all : List (List Member))
            → AreLeft V.rules.read_as V.rules.facts.operators self.old.left all → (rest : List (List Member))
            × AreLeft V.rules.read_as V.rules.facts.operators self.new.left rest
            × (leave_out (V.plain version.now).key all ≡ span ∷ leave_out (V.plain version.now).key rest))) }
        ensures none { IfOk result (λ found. IfNone found ((all : List (List Member))
            → AreLeft V.rules.read_as V.rules.facts.operators self.old.left all → leave_out (V.plain version.now).key all ≡ [])) }

        // A member stands in the text. After the last one nothing is left, and where the room is too small nothing that
        // leaves the version out is passed.
        ensures within { IfOk result (λ found. IfSome found (λ span. (end : ℕ)
            → EndsAt end self.old.left → StandsBefore end span)) }
        ensures end { (end : ℕ) → EndsAt end self.old.left → EndsAt end self.new.left }
        ensures ended { IfOk result (λ found. IfNone found (self.new.left ≡ None)) }
        ensures stays { IfErr result (λ _. (all : List (List Member))
            → AreLeft V.rules.read_as V.rules.facts.operators self.old.left all → (rest : List (List Member))
            × AreLeft V.rules.read_as V.rules.facts.operators self.new.left rest
            × (leave_out (V.plain version.now).key all ≡ leave_out (V.plain version.now).key rest)) }
        ensures nearer { IfOk result (λ found.
            IfSome found (λ _. steps_left self.new.left < steps_left self.old.left)) }
        ensures room { IfErr result (λ _. length room.old < room_left (key_room V.rules.facts) self.old.left) }
        ensures same { length room.new ≡ length room.old }
    {
        while let Some(pieces) = self.left {
            let (found, left) = first_excluding(pieces, version, room)?;
            self.left = left;
            if found.is_some() {
                return Ok(found);
            }
        }
        Ok(None)
    }
}

// Returns the first member of the next alternative that leaves a version out, if one does, and what is left of the
// text behind that alternative, if others follow.
fn first_excluding<'t, V: SchemeVersion<'t>>(
    left: Pieces<'t>,
    version: &V,
    room: &mut [u8],
) -> Result<(Option<Span>, Option<Pieces<'t>>), NoRoom>
    requires place { left.place + length left.left.now < 2 ^ 64 }
    ensures read { IfOk result (λ found. (first : List Member) (others : List (List Member))
        → left_read V.rules.read_as V.rules.facts.operators Wanted left.entry ≡ Right first others
        → (found.0 ≡ first_out (V.plain version.now).key first)
        × AreLeft V.rules.read_as V.rules.facts.operators found.1 others) }
    ensures end { IfOk result (λ found. IfSome found.1 (λ after. after.place + length after.left.now
        ≡ left.entry.place + length left.entry.left.now)) }
    ensures within { IfOk result (λ found. IfSome found.0
        (StandsBefore (left.entry.place + length left.entry.left.now))) }
    ensures nearer { IfOk result (λ found.
        IfSome found.1 (λ after. length after.left.now < length left.entry.left.now)) }
    ensures room { IfOk result (λ found. IfSome found.1 (λ after. pieces_room (key_room V.rules.facts) (pieces after.place after.left.now)
        ≤ pieces_room (key_room V.rules.facts) (pieces left.entry.place left.entry.left.now))) }
    ensures err { IfErr result (λ _.
        length room.old < pieces_room (key_room V.rules.facts) (pieces left.entry.place left.entry.left.now)) }
    ensures same { length room.new ≡ length room.old }
{
    let mut pieces = left;
    let mut state = State::Wanted;
    let mut found = None;
    while let Some((place, piece)) = pieces.next() {
        if piece_room::<V>(piece) > room.len() {
            return Err(NoRoom);
        }
        match state.step(place, piece) {
            Step::Goes(next) => state = next,
            Step::Closes => return Ok((found, Some(pieces))),
            Step::All(_) => state = State::Come,
            Step::Asks(comparison, start, place, text) => {
                if found.is_none() && excludes(comparison, text, version, room) {
                    found = Some(Span {
                        start,
                        end: place + text.len(),
                    });
                }
                state = State::Come;
            }
            Step::Wrong(_) => return Ok((None, None)),
        }
    }
    Ok((found, None))
}

// Whether a comparison with the version that a text is leaves a version out.
fn excludes<'t, V: SchemeVersion<'t>>(
    comparison: Comparison,
    text: &'t [u8],
    version: &V,
    room: &mut [u8],
) -> bool
    requires room { (word : List ℕ) × (length text.now ≤ length word)
        × (piece_room (key_room V.rules.facts) (Word word) ≤ length room.old) }
    ensures excludes { (c : Comparisons) (other : PlainKeyed)
        → asked V.rules.read_as V.rules.facts.operators comparison text.now ≡ With c other
        → result ≡ not (has (ends_with c other) (V.plain version.now).key) }
    ensures same { length room.new ≡ length room.old }
{
    match asked::<V>(comparison, text) {
        Ok(member) => leaves_out(member, version, room),
        Err(_) => false,
    }
}

// Whether a member leaves a version out.
fn leaves_out<'t, V: SchemeVersion<'t>>(
    member: (Comparison, V),
    version: &V,
    room: &mut [u8],
) -> bool
    requires room { length (form_bytes 0 (ends_with member.0 (V.plain member.1))) ≤ length room.old }
    requires rise { Rise (ends_with member.0 (V.plain member.1)) }
    ensures out { result ≡ not (has (ends_with member.0 (V.plain member.1)) (V.plain version.now).key) }
    ensures same { length room.new ≡ length room.old }
{
    let size = write_member(0, member, room, 0);
    match Form::of(&room[..size]) {
        Some((_, form)) => !form.has(version),
        None => false,
    }
}
