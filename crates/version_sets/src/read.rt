//! Sets as people write them.

ghost use Rattle.std.specs.Prelude.{◌≡◌, ◌∷◌, ◌<◌, length, IfErr, IfOk, List, ℕ};
ghost use Rattle.version_sets.specs.Reading.{piece_room, read_set, set_has, set_room, Member, Right};
ghost use Rattle.version_sets.specs.{Pieces.plain_piece, Reader.IsUnread, Reader.IsWrittenSet};
ghost use Rattle.version_order.specs.{Facts.key_room, keys.Sinks.saturated};

pub(crate) mod comparison;
pub(crate) mod excluding;
pub(crate) mod fault;
pub(crate) mod find;
pub(crate) mod member;
pub(crate) mod pieces;
pub(crate) mod pile;
pub(crate) mod reader;
pub(crate) mod slip;
pub(crate) mod steps;

use crate::read::fault::Fault;
use crate::read::pieces::{Piece, Pieces};
use crate::read::reader::Reader;
use crate::read::steps::State;
use version_order::{SchemeVersion, most_key_bytes};

/// Why no set was written.
#[derive(Clone, Copy, Debug, PartialEq, Eq)]
pub enum Unread {
    /// The text is no set.
    Wrong(Fault),
    /// The room is smaller than `set_room` says.
    NoRoom,
}

/// Returns a size of room in which a set of an order is read from a text, whatever it is. It is linear in the text.
pub fn set_room<'t, V: SchemeVersion<'t>>(text: &[u8]) -> usize
    ensures { result ≡ saturated (set_room (key_room V.rules.facts) text.now) }
{
    let mut pieces = Pieces {
        left: text,
        place: 0,
    };
    let mut room: usize = 0;
    while let Some((_, piece)) = pieces.next() {
        room = room.saturating_add(piece_room::<V>(piece));
    }
    room.saturating_mul(2)
}

// Returns how many bytes a member with a piece for its version has at most.
pub(crate) fn piece_room<'t, V: SchemeVersion<'t>>(piece: Piece<'_>) -> usize
    ensures { result ≡ saturated (piece_room (key_room V.rules.facts) (plain_piece piece.entry)) }
{
    match piece {
        Piece::Word(word) => most_key_bytes::<V>(word.len())
            .saturating_add(9)
            .saturating_mul(3)
            .saturating_add(9),
        _ => 0,
    }
}

/// Reads a set of an order from a text, and writes its one form into a room, with a number for the order. Returns how
/// many bytes the form has. A room that is as large as `set_room` says is enough, and a smaller one may be.
///
/// A set is alternatives with `||` between them, and has what one of them has. An alternative is members with a comma,
/// spaces or tabs between them, and has what all of them have. A member is `*`, which has all, or an operator and a
/// version, or `=`, `==` or `!=` and a version with `.*` behind it (`Comparison`). Spaces and tabs may stand around
/// each. Takes time linear in the text times the logarithm of the number of its members.
pub fn read_set<'t, V: SchemeVersion<'t>>(
    order: u8,
    text: &'t [u8],
    room: &mut [u8],
) -> Result<usize, Unread>
    ensures ok { IfOk result (λ size. (first : List Member) × (others : List (List Member))
        × (read_set V.rules.read_as V.rules.facts.operators text.now ≡ Right first others)
        × IsWrittenSet room.new order size (set_has (first ∷ others))) }
    ensures wrong { IfErr result (λ unread. IsUnread unread (read_set V.rules.read_as V.rules.facts.operators text.now)
        (length room.old < set_room (key_room V.rules.facts) text.now)) }
{
    let mut pieces = Pieces {
        left: text,
        place: 0,
    };
    let mut reader = Reader::new(order);
    let mut state = State::Wanted;
    while let Some((place, piece)) = pieces.next() {
        if reader.end.saturating_add(piece_room::<V>(piece)) > room.len() / 2 {
            return Err(Unread::NoRoom);
        }
        match reader.take::<V>(room, state, place, piece) {
            Ok(next) => state = next,
            Err(fault) => return Err(Unread::Wrong(fault)),
        }
    }
    match state.unfinished() {
        Some(reason) => Err(Unread::Wrong(Fault {
            place: text.len(),
            reason,
        })),
        None => Ok(reader.finish(room)),
    }
}
