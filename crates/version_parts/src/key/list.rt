//! Lists in keys: the items one after another, and the end of the list.

ghost use Rattle.std.specs.Prelude.{◌≡◌, ◌∷◌, ◌++◌, [], List, ℕ, Option, Some, None, map, if◌then◌else◌};
ghost use Rattle.std.specs.Iterator.{item_count, YieldsFirst};
ghost use Rattle.version_rules.specs.key.PartKey.{chunk_parts, part_bytes, part_key, parts_bytes, section_parts, PartKey};
ghost use Rattle.version_rules.specs.{grammar.Chunk.chunk_text, grammar.Chunk.PlainChunk, grammar.MChunk.mchunk_text, laws.Part.chunk_begins, laws.Part.part_begins, order.Parts.chunk_bytes};
ghost use Rattle.version_parts.specs.{Chunk.plain_chunk, MChunk.plain_mchunk, Pieces.IsNext};
ghost use Rattle.version_order.specs.keys.Codes.{items_bytes, list_bytes};

use crate::chunk::{Chunk, Part, ReleaseChunk};
use crate::key::PieceBytes;
use crate::mchunk::{MChunk, MessyChunk};
use crate::scan::Element;
use std::marker::Model;

/// A kind of element that keys have, written as bytes.
pub trait Code: Element {
    // The key of an item, and the bytes of a key, or of the end of a list.
    ghost Key: { Type 0 };

    ghost key: { Self.Item → Key };

    ghost bytes: { Option Key → List ℕ };

    /// Sets a piece to the bytes of an item.
    fn set_piece<'a>(piece: &mut PieceBytes<'a>, item: &'a Self::Item)
        ensures { piece.new ≡ bytes (Some (key item.now)) };

    /// Returns the byte after the last item.
    fn end() -> u8
        ensures { bytes None ≡ result ∷ [] };

    // Each item has a byte.
    ghost begins: { (key : Key) → ¬ (bytes (Some key) ≡ []) };
}

/// The remaining items of a list.
#[derive(Drop)]
pub struct ItemsLeft<'a, C: Code> {
    items: &'a [C::Item],
}

impl<'a, C: Code> Model for ItemsLeft<'a, C> {
    ghost Value = { List ℕ };

    ghost view = { λ left. items_bytes C.bytes (map C.key left.items.now) };
}

impl<'a, C: Code> ItemsLeft<'a, C> {
    /// Returns the items of a list.
    #[inline(always)]
    pub fn of(items: &'a [C::Item]) -> ItemsLeft<'a, C>
        ensures { result ≡ items_bytes C.bytes (map C.key items.now) }
    {
        ItemsLeft { items }
    }

    /// Sets a piece to the bytes of the next item, and returns whether there was one.
    pub fn next_piece(&mut self, piece: &mut PieceBytes<'a>) -> bool
        ensures { IsNext result self.old self.new piece.old piece.new }
    {
        let Some((first, rest)) = self.items.split_first() else {
            return false;
        };
        self.items = rest;
        C::set_piece(piece, first);
        true
    }
}

/// What remains of a list: its items, and its end.
#[derive(Drop)]
pub struct ListLeft<'a, C: Code> {
    items: ItemsLeft<'a, C>,
    ended: bool,
}

impl<'a, C: Code> Model for ListLeft<'a, C> {
    ghost Value = { List ℕ };

    ghost view = { λ list. list.items ++ (if list.ended then [] else C.bytes None) };
}

impl<'a, C: Code> ListLeft<'a, C> {
    /// Returns some items, and the end of the list after them.
    #[inline(always)]
    pub fn of(items: ItemsLeft<'a, C>) -> ListLeft<'a, C>
        ensures { result ≡ items.entry ++ C.bytes None }
    {
        ListLeft {
            items,
            ended: false,
        }
    }

    /// Sets a piece to the bytes of the next item or of the end, and returns whether there was one of these.
    pub fn next_piece(&mut self, piece: &mut PieceBytes<'a>) -> bool
        ensures { IsNext result self.old self.new piece.old piece.new }
    {
        if self.items.next_piece(piece) {
            return true;
        }
        if self.ended {
            return false;
        }
        self.ended = true;
        piece.set_byte(C::end());
        true
    }
}

impl<'a> ListLeft<'a, MessyChunk> {
    /// Returns the chunks of a messy section as parts, and the end of the list after them.
    #[tactic(auto, using(crate::proofs::lemmas::Keys::section_written))]
    pub fn section(chunks: &'a [MChunk]) -> ListLeft<'a, MessyChunk>
        ensures { result ≡ parts_bytes (section_parts (map plain_mchunk chunks.now)) }
    {
        ListLeft::of(ItemsLeft::of(chunks))
    }
}

/// The remaining bytes of a list: those of the current item, and then those of what remains of the list.
#[derive(Drop)]
pub struct ListBytes<'a, C: Code> {
    piece: PieceBytes<'a>,
    left: ListLeft<'a, C>,
}

impl<'a, C: Code> Model for ListBytes<'a, C> {
    ghost use Rattle.std.specs.Prelude.{List, ℕ, ◌++◌};

    ghost Value = { List ℕ };

    ghost view = { λ list. list.piece ++ list.left };
}

impl<'a, C: Code> ListBytes<'a, C> {
    /// Returns the bytes of the items and of the end of their list.
    #[inline(always)]
    pub fn of(items: &'a [C::Item]) -> ListBytes<'a, C>
        ensures { result ≡ list_bytes C.bytes (map C.key items.now) }
    {
        ListBytes {
            piece: PieceBytes::none(),
            left: ListLeft::of(ItemsLeft::of(items)),
        }
    }
}

impl<'a, C: Code> Iterator for ListBytes<'a, C> {
    type Item = u8;

    ghost next_gives = { YieldsFirst (λ list. list) };

    ghost remaining = { item_count (λ list. list) };

    fn next(&mut self) -> Option<u8> {
        if let Some(byte) = self.piece.next() {
            return Some(byte);
        }
        if !self.left.next_piece(&mut self.piece) {
            return None;
        }
        self.piece.next()
    }
}

impl<'a> ListBytes<'a, Part> {
    /// Returns the bytes of chunks as a list of parts.
    #[tactic(auto, using(crate::proofs::lemmas::Keys::parts_written))]
    pub fn parts(chunks: &'a [Chunk]) -> ListBytes<'a, Part>
        ensures { result ≡ parts_bytes (chunk_parts (map plain_chunk chunks.now)) }
    {
        ListBytes::of(chunks)
    }
}

/// The parts of a general version, by their printed texts.
impl Code for Part {
    ghost Key = { PartKey };

    ghost key = { λ chunk. part_key (chunk_text (plain_chunk chunk)) };

    ghost bytes = { part_bytes };

    ghost begins = { part_begins };

    #[inline(always)]
    fn set_piece<'a>(piece: &mut PieceBytes<'a>, item: &'a Chunk) {
        piece.set_chunk_as_part(item.lent());
    }

    fn end() -> u8 {
        2
    }
}

/// The chunks of a messy section, by their texts.
impl Code for MessyChunk {
    ghost Key = { PartKey };

    ghost key = { λ chunk. part_key (mchunk_text (plain_mchunk chunk)) };

    ghost bytes = { part_bytes };

    ghost begins = { part_begins };

    #[inline(always)]
    fn set_piece<'a>(piece: &mut PieceBytes<'a>, item: &'a MChunk) {
        piece.set_text_part(item.text());
    }

    fn end() -> u8 {
        2
    }
}

/// The chunks of a release.
impl Code for ReleaseChunk {
    ghost Key = { PlainChunk };

    ghost key = { plain_chunk };

    ghost bytes = { chunk_bytes };

    ghost begins = { chunk_begins };

    #[inline(always)]
    fn set_piece<'a>(piece: &mut PieceBytes<'a>, item: &'a Chunk) {
        piece.set_chunk(item.lent());
    }

    fn end() -> u8 {
        1
    }
}
