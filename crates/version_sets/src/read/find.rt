//! Where a text is no set, and why.

ghost use Rattle.std.specs.Prelude.{◌≡◌, ◌+◌, ◌<◌, ◌^◌, IfErr, IfOk};
ghost use Rattle.std.specs.Option.{option_map};
ghost use Rattle.version_sets.specs.Reading.{after_step, fault_of, read_set, Reading, Wrong};
ghost use Rattle.version_sets.specs.{Pieces.piece_length, Pieces.plain_piece, Steps.step, declared.read.steps.State.State as States};

use crate::read::fault::Fault;
use crate::read::member::asked;
use crate::read::pieces::{Piece, Pieces};
use crate::read::steps::{State, Step};
use version_order::SchemeVersion;

/// Returns where the first wrong piece of a text begins and why it is no set of an order, or None where it is one. Takes
/// time linear in the text, and no room.
pub fn find_fault<'t, V: SchemeVersion<'t>>(text: &'t [u8]) -> Option<Fault>
    ensures { option_map (λ fault. (fault.place, fault.reason)) result
        ≡ fault_of (read_set V.rules.read_as V.rules.facts.operators text.now) }
{
    let mut pieces = Pieces {
        left: text,
        place: 0,
    };
    let mut state = State::Wanted;
    while let Some((place, piece)) = pieces.next() {
        match after::<V>(state, place, piece) {
            Ok(next) => state = next,
            Err(fault) => return Some(fault),
        }
    }
    match state.unfinished() {
        Some(reason) => Some(Fault {
            place: text.len(),
            reason,
        }),
        None => None,
    }
}

// Returns the state behind a piece, or where and why it is wrong.
fn after<'t, V: SchemeVersion<'t>>(
    state: State,
    place: usize,
    piece: Piece<'t>,
) -> Result<State, Fault>
    requires { place + piece_length (plain_piece piece) < 2 ^ 64 }
    ensures ok { IfOk result (λ next. (rest : States → Reading)
        → fault_of (after_step V.rules.read_as V.rules.facts.operators rest (step state place (plain_piece piece.entry))) ≡ fault_of (rest next)) }
    ensures err { IfErr result (λ fault. (rest : States → Reading)
        → after_step V.rules.read_as V.rules.facts.operators rest (step state place (plain_piece piece.entry)) ≡ Wrong fault.place fault.reason) }
{
    match state.step(place, piece) {
        Step::Wrong(fault) => Err(fault),
        Step::Goes(next) => Ok(next),
        Step::Closes => Ok(State::Wanted),
        Step::All(_) => Ok(State::Come),
        Step::Asks(comparison, _, place, text) => match asked::<V>(comparison, text) {
            Ok(_) => Ok(State::Come),
            Err(reason) => Err(Fault { place, reason }),
        },
    }
}
