//! The current list of a key: the parts of its body or of a section, or the chunks of its release.

ghost use Rattle.std.specs.Prelude.{◌≡◌, ◌++◌, ◌∷◌, []};
ghost use Rattle.version_parts.specs.{Body.plain_chunks, Last.plain_last, Pieces.IsNext};
ghost use Rattle.version_rules.specs.{grammar.Last.last_text, key.PartKey.chunk_parts, key.PartKey.part_key, key.PartKey.parts_bytes};

use std::marker::Model;
use version_parts::key::{ItemsLeft, ListLeft, PieceBytes};
use version_parts::{Chunks, Last, MessyChunk, Part, ReleaseChunk};

/// What remains of a list, with its end.
#[derive(Drop)]
pub enum CurrentList<'a> {
    /// Nothing, not even the end.
    Ended,
    /// Plain numbers.
    One(u32),
    Two(u32, u32),
    Three(u32, u32, u32),
    /// Parts of a body.
    Parts(PartsLeft<'a>),
    /// Parts of a messy section.
    Section(ListLeft<'a, MessyChunk>),
    /// Chunks of a release.
    Chunks(ListLeft<'a, ReleaseChunk>),
}

impl<'a> CurrentList<'a> {
    ghost use Rattle.versions.specs.KeyStream.{list_left};

    /// Sets the piece to the bytes of the next item, or of the end. Returns false if nothing is left.
    #[inline(always)]
    pub fn next_piece(&mut self, piece: &mut PieceBytes<'a>) -> bool
        ensures { IsNext result (list_left self.old) (list_left self.new) piece.old piece.new }
    {
        match self {
            CurrentList::Ended => false,
            CurrentList::Three(first, second, third) => {
                piece.set_plain_part(*first);
                *self = CurrentList::Two(*second, *third);
                true
            }
            CurrentList::Two(first, second) => {
                piece.set_plain_part(*first);
                *self = CurrentList::One(*second);
                true
            }
            CurrentList::One(last) => {
                piece.set_last_plain_part(*last);
                *self = CurrentList::Ended;
                true
            }
            CurrentList::Parts(parts) => parts.next_piece(piece),
            CurrentList::Section(section) => section.next_piece(piece),
            CurrentList::Chunks(chunks) => chunks.next_piece(piece),
        }
    }
}

/// What remains of the parts of a body: some items, perhaps a last part that lies elsewhere, and the end.
#[derive(Drop)]
pub struct PartsLeft<'a> {
    items: ItemsLeft<'a, Part>,
    last: Option<&'a Last>,
    ended: bool,
}

impl<'a> Model for PartsLeft<'a> {
    ghost use Rattle.std.specs.Prelude.{List, ℕ, ◌++◌, [], None, Some, if◌then◌else◌};
    ghost use Rattle.std.specs.Option.{option_map_or};
    ghost use Rattle.version_rules.specs.{grammar.Last.last_text, key.PartKey.part_bytes, key.PartKey.part_key};
    ghost use Rattle.version_parts.specs.Last.{plain_last};

    ghost Value = { List ℕ };

    ghost view = { λ parts. parts.items ++ (option_map_or
        (λ last. part_bytes (Some (part_key (last_text (plain_last last.now))))) parts.last []
        ++ (if parts.ended then [] else part_bytes None)) };
}

impl<'a> PartsLeft<'a> {
    /// Returns the parts of a value: its chunks and its last part.
    #[tactic(auto, using(crate::proofs::lemmas::Keys::parts_written))]
    #[inline(always)]
    pub fn of(chunks: &'a Chunks, last: &'a Last) -> PartsLeft<'a>
        ensures { result ≡ parts_bytes
            (chunk_parts (plain_chunks chunks.now)
            ++ part_key (last_text (plain_last last.now)) ∷ []) }
    {
        PartsLeft {
            items: ItemsLeft::of(chunks.0.as_slice()),
            last: Some(last),
            ended: false,
        }
    }

    // Sets the piece to the bytes of the next part, or of the end. Returns false if nothing is left.
    fn next_piece(&mut self, piece: &mut PieceBytes<'a>) -> bool
        ensures { IsNext result self.old self.new piece.old piece.new }
    {
        if self.items.next_piece(piece) {
            return true;
        }
        if let Some(last) = self.last.take() {
            last.set_piece(piece);
            return true;
        }
        if self.ended {
            return false;
        }
        self.ended = true;
        piece.set_byte(2);
        true
    }
}
