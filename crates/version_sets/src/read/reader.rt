//! A set while it is read: its alternatives that are done, and the members of the one that is not over, one behind
//! another in a room.

ghost use Rattle.std.specs.Prelude.{◌≡◌, ◌∷◌, ◌*◌, ◌+◌, ◌<◌, ◌≤◌, ◌^◌, ◌&&◌, ◌||◌, [], false, length, true, Bool, IfErr, IfOk, List, ℕ};
ghost use Rattle.version_sets.specs.{Form.has, Form.Rise, Form.form_bytes, Pieces.piece_length, Pieces.plain_piece, Reader.Continues, Reader.Fits, Reader.Holds, Reader.IsWrittenSet};
ghost use Rattle.version_sets.specs.{Reading.after_step, Reading.piece_room, Reading.Reading, Reading.Wrong, Steps.step, declared.read.steps.State.State as States, declared.read.steps.State.TheVariants.Come};
ghost use Rattle.version_order.specs.{Facts.key_room, keys.Sinks.put_at};

use crate::merge::Rule;
use crate::read::fault::Fault;
use crate::read::member::{asked, write_all, write_member};
use crate::read::pieces::Piece;
use crate::read::pile::Pile;
use crate::read::steps::{State, Step};
use version_order::SchemeVersion;

/// What is read so far: the alternatives that are done end where the members of the next one begin.
#[derive(Clone, Copy)]
pub(crate) struct Reader {
    pub order: u8,
    pub start: usize,
    pub end: usize,
    pub alternatives: Pile,
    pub members: Pile,
}

impl Reader {
    // Returns a reader of nothing so far.
    pub fn new(order: u8) -> Reader
        ensures fits { Fits result }
        ensures holds { (room : List ℕ) → Holds room result (λ key. false) (λ key. true) }
        ensures end { result.end ≡ 0 }
        ensures order { result.order ≡ order }
    {
        Reader {
            order,
            start: 0,
            end: 0,
            alternatives: Pile::new(order, Rule::Either),
            members: Pile::new(order, Rule::Both),
        }
    }

    // Takes a piece in a state, and returns the next state.
    pub fn take<'t, V: SchemeVersion<'t>>(
        &mut self,
        room: &mut [u8],
        state: State,
        place: usize,
        piece: Piece<'t>,
    ) -> Result<State, Fault>
        requires fits { Fits self.old }
        requires come { state ≡ Come → 1 ≤ self.old.members.depth }
        requires place { place + piece_length (plain_piece piece) < 2 ^ 64 }
        requires room { 2 * (self.old.end + piece_room (key_room V.rules.facts) (plain_piece piece)) ≤ length room.old }
        ensures fits { Fits self.new }
        ensures ok { IfOk result (λ next. (whole : Reading) (rest : States → Reading) (done own : List ℕ → Bool)
            → Holds room.old self.old done own
            → Continues whole done own (after_step V.rules.read_as V.rules.facts.operators rest (step state place (plain_piece piece.entry)))
            → (done_after own_after : List ℕ → Bool) × Holds room.new self.new done_after own_after
            × Continues whole done_after own_after (rest next)) }
        ensures err { IfErr result (λ fault. (whole : Reading) (rest : States → Reading) (done own : List ℕ → Bool)
            → Continues whole done own (after_step V.rules.read_as V.rules.facts.operators rest (step state place (plain_piece piece.entry)))
            → whole ≡ Wrong fault.place fault.reason) }
        ensures come { IfOk result (λ next. next ≡ Come → 1 ≤ self.new.members.depth) }
        ensures end { self.new.end ≤ self.old.end + piece_room (key_room V.rules.facts) (plain_piece piece.entry) }
        ensures same { (length room.new ≡ length room.old) × (self.new.order ≡ self.old.order) }
    {
        match state.step(place, piece) {
            Step::Wrong(fault) => Err(fault),
            Step::Goes(next) => Ok(next),
            Step::Closes => {
                self.close(room);
                Ok(State::Wanted)
            }
            Step::All(_) => {
                let end = write_all(self.order, room, self.end);
                self.add(room, end);
                Ok(State::Come)
            }
            Step::Asks(comparison, _, place, text) => match asked::<V>(comparison, text) {
                Ok(member) => {
                    let end = write_member(self.order, member, room, self.end);
                    self.add(room, end);
                    Ok(State::Come)
                }
                Err(reason) => Err(Fault { place, reason }),
            },
        }
    }

    // Takes the set that was written behind the members as a further one, up to a place.
    fn add(&mut self, room: &mut [u8], end: usize)
        requires fits { Fits self.old }
        requires room { 2 * end ≤ length room.old }
        ensures fits { Fits self.new }
        ensures holds { (before : List ℕ) (ends : List (List ℕ)) (done own : List ℕ → Bool)
            → Holds before self.old done own → Rise ends
            → room.old ≡ put_at before self.old.end (form_bytes self.old.order ends)
            → end ≡ self.old.end + length (form_bytes self.old.order ends)
            → Holds room.new self.new done (λ key. own key && has ends key) }
        ensures some { 1 ≤ self.new.members.depth }
        ensures end { self.new.end ≤ end }
        ensures same { (length room.new ≡ length room.old) × (self.new.order ≡ self.old.order) }
    {
        self.end = self.members.push(room, self.end, end);
    }

    // Ends an alternative.
    fn close(&mut self, room: &mut [u8])
        requires fits { Fits self.old }
        requires some { 1 ≤ self.old.members.depth }
        requires room { 2 * self.old.end ≤ length room.old }
        ensures fits { Fits self.new }
        ensures holds { (done own : List ℕ → Bool) → Holds room.old self.old done own
            → Holds room.new self.new (λ key. done key || own key) (λ key. true) }
        ensures read { 1 ≤ self.new.alternatives.depth }
        ensures over { self.new.start ≡ self.new.end }
        ensures end { self.new.end ≤ self.old.end }
        ensures same { (length room.new ≡ length room.old) × (self.new.order ≡ self.old.order) }
    {
        let end = self.members.collapse(room, self.end);
        self.end = self.alternatives.push(room, self.start, end);
        self.start = self.end;
        self.members.clear();
    }

    // Ends the last alternative, makes one set of all, and returns how many bytes it has.
    pub fn finish(&mut self, room: &mut [u8]) -> usize
        requires fits { Fits self.old }
        requires some { 1 ≤ self.old.members.depth }
        requires room { 2 * self.old.end ≤ length room.old }
        ensures { (done own : List ℕ → Bool) → Holds room.old self.old done own
            → IsWrittenSet room.new self.old.order result (λ key. done key || own key) }
    {
        self.close(room);
        self.alternatives.collapse(room, self.end)
    }
}
