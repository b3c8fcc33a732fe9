//! The bytes of one piece of a key: of a part, of a number or of a text.

ghost use Rattle.std.specs.Prelude.{◌≡◌, ◌∷◌, ◌++◌, [], Some, None, OnErr, OnOk};
ghost use Rattle.std.specs.Iterator.{item_count, YieldsFirst};
ghost use Rattle.version_rules.specs.{grammar.Chunk.chunk_text, key.PartKey.part_bytes, key.PartKey.part_key, key.PartKey.Number, order.Parts.chunk_bytes};
ghost use Rattle.version_parts.specs.{Chunk.plain_chunk_ref, Pieces.GonePast, Pieces.after_number_bytes, Pieces.place_bytes};
ghost use Rattle.version_order.specs.{keys.Codes.number_bytes, keys.Lists.Growing, keys.Lists.GrowsWithin, texts.Front.run_value};

use crate::chunk::ChunkRef;
use crate::key::PartText;
use crate::key::inline::InlineBytes;
use crate::key::place::{AfterNumber, Place, run_step};
use std::alloc::AllocError;
use std::marker::Model;

/// The remaining bytes of a part, of a number or of a text. The bytes of a number of 32 bits are computed at once, into
/// a small array. A run of a text that stands unchanged in the key is borrowed. Each run of digits
/// is counted once, so all bytes together take time linear in the text.
#[derive(Drop)]
pub struct PieceBytes<'a> {
    ready: InlineBytes,
    run: &'a [u8],
    text: PartText<'a>,
    place: Place,
}

impl<'a> Model for PieceBytes<'a> {
    ghost use Rattle.std.specs.Prelude.{List, ℕ, ◌++◌};

    ghost Value = { List ℕ };

    ghost use Rattle.version_parts.specs.Pieces.{place_bytes};

    ghost view = { λ piece. piece.ready ++ (piece.run.now ++ place_bytes piece.place piece.text) };
}

impl<'a> PieceBytes<'a> {
    /// Returns no bytes.
    #[inline(always)]
    pub fn none() -> PieceBytes<'a>
        ensures { result ≡ [] }
    {
        PieceBytes::of_ready(InlineBytes::none())
    }

    /// Returns the bytes of a part, by its printed text.
    #[tactic(auto, unfolding(crate::specs::Pieces::place_bytes))]
    pub fn part(text: PartText<'a>) -> PieceBytes<'a>
        ensures { result ≡ part_bytes (Some (part_key text.entry)) }
    {
        PieceBytes::at_place(InlineBytes::none(), Place::Part, text)
    }

    /// Returns the bytes of a number: the count of its digits, then the digits.
    #[inline(always)]
    pub fn number(number: u32) -> PieceBytes<'a>
        ensures { result ≡ number_bytes number }
    {
        PieceBytes::of_ready(InlineBytes::number(number))
    }

    /// Returns the bytes of the number that the digits at the start of a text write. The number may be of any size.
    #[tactic(auto, using(crate::proofs::lemmas::Pieces::alone))]
    pub fn digits(text: &'a str) -> PieceBytes<'a>
        ensures { result ≡ number_bytes (run_value text.now) }
    {
        PieceBytes::at_place(
            InlineBytes::none(),
            Place::Number(AfterNumber::Nothing),
            PartText::text(text),
        )
    }

    // Bytes that are ready, and those of a text that is read from a place on.
    #[inline(always)]
    fn at_place(ready: InlineBytes, place: Place, text: PartText<'a>) -> PieceBytes<'a>
        ensures { result ≡ ready ++ place_bytes place text.entry }
    {
        PieceBytes {
            ready,
            run: &[],
            text,
            place,
        }
    }

    // Bytes that are ready, and no others.
    #[tactic(auto, unfolding(crate::specs::Pieces::place_bytes, crate::specs::Pieces::after_number_bytes))]
    #[inline(always)]
    fn of_ready(ready: InlineBytes) -> PieceBytes<'a>
        ensures { result ≡ ready }
    {
        PieceBytes::at_place(ready, Place::Rest(AfterNumber::Nothing), PartText::text(""))
    }

    /// Sets the piece to one byte.
    #[tactic(auto, unfolding(crate::specs::Pieces::place_bytes, crate::specs::Pieces::after_number_bytes))]
    #[inline(always)]
    pub fn set_byte(&mut self, byte: u8)
        ensures { self.new ≡ byte ∷ [] }
    {
        self.ready.set_byte(byte);
        self.run = &[];
        self.place = Place::Rest(AfterNumber::Nothing);
    }

    /// Sets the piece to the bytes of a plain number as a part.
    #[tactic(auto, unfolding(crate::specs::Pieces::place_bytes, crate::specs::Pieces::after_number_bytes))]
    #[inline(always)]
    pub fn set_plain_part(&mut self, number: u32)
        ensures { self.new ≡ part_bytes (Some (Number number None)) }
    {
        self.ready.set_plain_part(number);
        self.run = &[];
        self.place = Place::Rest(AfterNumber::Nothing);
    }

    /// Sets the piece to the bytes of a plain number as the last part of a list, and of the end of the list.
    #[tactic(auto, unfolding(crate::specs::Pieces::place_bytes, crate::specs::Pieces::after_number_bytes))]
    #[inline(always)]
    pub fn set_last_plain_part(&mut self, number: u32)
        ensures { self.new ≡ part_bytes (Some (Number number None)) ++ part_bytes None }
    {
        self.ready.set_last_plain_part(number);
        self.run = &[];
        self.place = Place::Rest(AfterNumber::Nothing);
    }

    /// Sets the piece to the bytes of a part, by its printed text.
    #[tactic(auto, unfolding(crate::specs::Pieces::place_bytes))]
    #[inline(always)]
    pub fn set_part(&mut self, text: PartText<'a>)
        ensures { self.new ≡ part_bytes (Some (part_key text.entry)) }
    {
        self.ready.clear();
        self.run = &[];
        self.text = text;
        self.place = Place::Part;
    }

    // Sets the piece to the bytes of a part that is a text.
    #[tactic(auto, unfolding(crate::specs::Pieces::place_bytes))]
    #[inline(always)]
    pub(crate) fn set_text_part(&mut self, text: &'a str)
        ensures { self.new ≡ part_bytes (Some (part_key text.now)) }
    {
        self.ready.clear();
        self.run = &[];
        self.text.set_text(text);
        self.place = Place::Part;
    }

    // Sets the piece to the bytes of a chunk of a release.
    #[tactic(auto, using(crate::proofs::lemmas::Pieces::alone))]
    #[inline(always)]
    pub(crate) fn set_chunk(&mut self, chunk: ChunkRef<'a>)
        ensures { self.new ≡ chunk_bytes (Some (plain_chunk_ref chunk.entry)) }
    {
        match chunk {
            ChunkRef::Numeric(number) => self.set_numeric_chunk(number),
            ChunkRef::Alphanum(text) => {
                self.ready.set_byte(3);
                self.run = &[];
                self.text.set_text(text);
                self.place = Place::Rest(AfterNumber::Text);
            }
        }
    }

    // Sets the piece to the bytes of a number as a chunk of a release.
    #[tactic(auto, unfolding(crate::specs::Pieces::place_bytes, crate::specs::Pieces::after_number_bytes))]
    #[inline(always)]
    fn set_numeric_chunk(&mut self, number: u32)
        ensures { self.new ≡ 2 ∷ number_bytes number }
    {
        self.ready.set_byte_and_number(2, number);
        self.run = &[];
        self.place = Place::Rest(AfterNumber::Nothing);
    }

    // Sets the piece to the bytes of a chunk as a part.
    #[tactic(auto, using(version_rules::proofs::lemmas::Key::plain_number))]
    #[inline(always)]
    pub(crate) fn set_chunk_as_part(&mut self, chunk: ChunkRef<'a>)
        ensures { self.new ≡ part_bytes
            (Some (part_key (chunk_text (plain_chunk_ref chunk.entry)))) }
    {
        match chunk {
            ChunkRef::Numeric(number) => self.set_plain_part(number),
            ChunkRef::Alphanum(text) => self.set_text_part(text),
        }
    }

    /// Removes the same bytes from the start of both, perhaps not all that are the same.
    #[tactic(auto, using(crate::proofs::lemmas::Compare::past_more))]
    #[inline(always)]
    pub fn pass_same(&mut self, other: &mut PieceBytes<'_>)
        ensures { GonePast self.old other.old self.new other.new }
    {
        self.ready.pass_same(&mut other.ready);
        if self.ready.is_empty() && other.ready.is_empty() {
            pass_same_run(&mut self.run, &mut other.run);
        }
    }

    /// Appends the bytes to a list, and takes them. Fails on allocation failure: then the list is unchanged, and some of
    /// the bytes are taken.
    #[inline(always)]
    pub fn append_to(&mut self, list: &mut Vec<u8>) -> Result<(), AllocError>
        ensures ok { OnOk result (list.new.items ≡ list.old.items ++ self.old) }
        ensures err { OnErr result (list.new.items ≡ list.old.items) }
    {
        let start = list.len();
        let appended = self.append_all(list);
        if appended.is_err() {
            list.truncate(start);
        }
        appended
    }

    // Appends the bytes to a list, and leaves some of them in it if an allocation fails.
    #[inline(always)]
    fn append_all(&mut self, list: &mut Vec<u8>) -> Result<(), AllocError>
        ensures ok { OnOk result (list.new.items ≡ list.old.items ++ self.old) }
        ensures err { OnErr result (GrowsWithin list.old.items list.new.items self.old) }
    {
        self.append_ready(list)?;
        while let Some(byte) = self.next() {
            list.push(byte)?;
            self.append_ready(list)?;
        }
        Ok(())
    }

    // Appends the bytes that are ready, and then the borrowed run, to a list.
    #[inline(always)]
    fn append_ready(&mut self, list: &mut Vec<u8>) -> Result<(), AllocError>
        ensures ok { OnOk result (Growing list.old.items list.new.items self.old self.new) }
        ensures err { OnErr result (GrowsWithin list.old.items list.new.items self.old) }
    {
        list.extend_from_slice(self.ready.as_slice())?;
        self.ready.clear();
        list.extend_from_slice(self.run)?;
        self.run = &[];
        Ok(())
    }
}

impl<'a> Iterator for PieceBytes<'a> {
    type Item = u8;

    ghost next_gives = { YieldsFirst (λ piece. piece) };

    ghost remaining = { item_count (λ piece. piece) };

    fn next(&mut self) -> Option<u8> {
        if let Some(byte) = self.ready.next() {
            return Some(byte);
        }
        if let Some((first, rest)) = self.run.split_first() {
            self.run = rest;
            return Some(*first);
        }
        let step = self.place.step(&mut self.text)?;
        if let Some(byte) = step.then {
            self.ready.put(byte);
        }
        (self.run, self.place) = run_step(step.place, &mut self.text);
        Some(step.byte)
    }
}

// How many bytes of two runs are compared at once. Without this limit, runs that differ far from their start would be
// compared whole again at each byte.
const WINDOW: usize = 64;

// Removes from the start of both runs as many bytes as both have, and at most a window of them, if these bytes are the
// same.
#[tactic(auto, using(crate::proofs::lemmas::Compare::past))]
#[inline(always)]
fn pass_same_run(run: &mut &[u8], other: &mut &[u8])
    ensures { GonePast run.old.now other.old.now run.new.now other.new.now }
{
    let count = run.len().min(other.len()).min(WINDOW);
    let (front, rest) = run.split_at(count);
    let (other_front, other_rest) = other.split_at(count);
    if front == other_front {
        *run = rest;
        *other = other_rest;
    }
}
