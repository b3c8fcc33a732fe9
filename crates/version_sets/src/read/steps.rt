//! What a piece of a text does, by what has come before it.

ghost use Rattle.std.specs.Prelude.{◌≡◌, ◌+◌, ◌<◌, ◌^◌, length};
ghost use Rattle.version_sets.specs.{Pieces.piece_length, Pieces.plain_piece, Steps.begin_member, Steps.plain_step, Steps.step, Steps.unfinished};

use crate::read::comparison::Comparison;
use crate::read::fault::{Fault, Reason};
use crate::read::pieces::Piece;

/// What has come of a set.
#[derive(Clone, Copy)]
pub(crate) enum State {
    /// Nothing of a member that has to come.
    Wanted,
    /// The operator of a member that begins at a place, whose version has to come.
    Opened(Comparison, usize),
    /// A member.
    Come,
}

/// What a piece does.
#[derive(Clone, Copy)]
pub(crate) enum Step<'t> {
    /// It is wrong.
    Wrong(Fault),
    /// It leads to another state.
    Goes(State),
    /// It ends an alternative, and another one has to come.
    Closes,
    /// It is a member that holds all versions, at a place.
    All(usize),
    /// It ends a member that begins at a place, by the text of its version, which begins at another.
    Asks(Comparison, usize, usize, &'t [u8]),
}

impl State {
    // Returns what a piece at a place does.
    #[inline(always)]
    pub fn step<'t>(self, place: usize, piece: Piece<'t>) -> Step<'t>
        requires { place + piece_length (plain_piece piece) < 2 ^ 64 }
        ensures { plain_step result ≡ step self place (plain_piece piece.entry) }
    {
        let reason = match (piece, self) {
            (Piece::Bar, _) => Reason::OneBar,
            (Piece::Word(word), State::Opened(comparison, start)) => {
                return Step::Asks(comparison, start, place, word);
            }
            (Piece::Word(word), _) => return begin_member(place, word),
            (Piece::Comma, State::Come) => return Step::Goes(State::Wanted),
            (Piece::Bars, State::Come) => return Step::Closes,
            (_, State::Opened(_, _)) => Reason::NoVersion,
            (_, _) => Reason::NoMember,
        };
        Step::Wrong(Fault { place, reason })
    }

    // Returns why a text may not end here, or None if it may.
    pub fn unfinished(self) -> Option<Reason>
        ensures { result ≡ unfinished self }
    {
        match self {
            State::Wanted => Some(Reason::NoMember),
            State::Opened(_, _) => Some(Reason::NoVersion),
            State::Come => None,
        }
    }
}

// Returns what a word does where a member may begin.
#[inline(always)]
fn begin_member<'t>(place: usize, word: &'t [u8]) -> Step<'t>
    requires { place + length word.now < 2 ^ 64 }
    ensures { plain_step result ≡ begin_member place word.now }
{
    match Comparison::front(word) {
        Some((comparison, [])) => Step::Goes(State::Opened(comparison, place)),
        Some((comparison, rest)) => {
            Step::Asks(comparison, place, place + (word.len() - rest.len()), rest)
        }
        None if matches!(word, [b'*']) => Step::All(place),
        None => Step::Wrong(Fault {
            place,
            reason: Reason::NoOperator,
        }),
    }
}
