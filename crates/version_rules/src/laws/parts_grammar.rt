//! Laws of the grammars: a front reads what the grammar spells, and nothing else, and a value prints its text.

ghost use Rattle.std.specs.Prelude.{◌≡◌, ◌↔◌};
ghost use Rattle.std.specs.{Char.is_ascii_alphanumeric, Char.is_ascii_digit, Fmt.decimal};
ghost use Rattle.version_rules.specs.grammar.Body.{body_front, body_text, SpellsBody, SpellsMetadata, release_text, SpellsRelease};
ghost use Rattle.version_rules.specs.grammar.Chunk.{chunk_front, chunk_text, part_front, PlainChunk, SpellsChunk, SpellsPart, unsigned_front, SpellsNumeral};
ghost use Rattle.version_rules.specs.grammar.{Last.last_of, Last.last_text, Last.IsLastOf, Last.PlainLast, MChunk.mchunk_front, MChunk.mchunk_text, MChunk.EndsChunk, MChunk.SpellsMChunk};
ghost use Rattle.version_order.specs.texts.Grammar.{EndsList, EndsRun, IsComplete, IsKept, IsPrinted, IsSound, IsSoundBefore};
ghost use Rattle.version_order.specs.texts.{Bytes.is_identifier_byte, Bytes.is_metadata_byte, Front.dotted_front, Front.run_front};

// A number parses as numerals are spelled, and prints as its numeral.
fn numerals()
    ensures sound { IsSound SpellsNumeral unsigned_front }
    ensures complete { IsComplete SpellsNumeral (EndsRun is_ascii_digit) unsigned_front }
    ensures printed { IsPrinted SpellsNumeral decimal }
{}

// A chunk parses as chunks are spelled, and prints as its text.
#[tactic(auto, using(crate::proofs::lemmas::Chunk::chunk_complete, crate::proofs::lemmas::Chunk::chunk_printed, crate::proofs::lemmas::Chunk::chunk_sound))]
fn chunks()
    ensures sound { IsSound SpellsChunk chunk_front }
    ensures complete { IsComplete SpellsChunk (EndsRun is_identifier_byte) chunk_front }
    ensures printed { IsPrinted SpellsChunk chunk_text }
{}

// A part of a general version parses as parts are spelled, and prints as its text.
#[tactic(auto, using(crate::proofs::lemmas::Chunk::part_complete, crate::proofs::lemmas::Chunk::part_printed, crate::proofs::lemmas::Chunk::part_sound))]
fn parts()
    ensures sound { IsSound SpellsPart part_front }
    ensures complete { IsComplete SpellsPart (EndsRun is_ascii_alphanumeric) part_front }
    ensures printed { IsPrinted SpellsPart chunk_text }
{}

// The body of a general version parses as bodies are spelled, and prints as its text. A part that stands last is exactly
// one last part, which prints as the part does.
fn bodies()
    ensures sound { IsSound SpellsBody body_front }
    ensures complete { IsComplete SpellsBody (EndsList (EndsRun is_ascii_alphanumeric)) body_front }
    ensures printed { IsPrinted SpellsBody body_text }
    ensures last { (part : PlainChunk) (last : PlainLast)
        → (last_of part ≡ last) ↔ IsLastOf part last }
    ensures last_printed { (part : PlainChunk) → last_text (last_of part) ≡ chunk_text part }
{}

// A release parses after its hyphen as releases are spelled, and prints as its text.
#[tactic(auto, using(crate::proofs::lemmas::Chunk::release_complete, crate::proofs::lemmas::Chunk::release_printed, crate::proofs::lemmas::Chunk::release_sound))]
fn releases()
    ensures sound { IsSound SpellsRelease (dotted_front chunk_front) }
    ensures complete { IsComplete SpellsRelease (EndsList (EndsRun is_identifier_byte))
        (dotted_front chunk_front) }
    ensures printed { IsPrinted SpellsRelease release_text }
{}

// A messy chunk parses as messy chunks are spelled if a dot, a sign or the end follows it, and prints as its text.
// Whatever follows, it prints the text that it was parsed from.
#[tactic(auto, using(crate::proofs::lemmas::MChunk::mchunk_complete, crate::proofs::lemmas::MChunk::mchunk_kept, crate::proofs::lemmas::MChunk::mchunk_printed, crate::proofs::lemmas::MChunk::mchunk_sound))]
fn messy_chunks()
    ensures sound { IsSoundBefore EndsChunk SpellsMChunk mchunk_front }
    ensures complete { IsComplete SpellsMChunk EndsChunk mchunk_front }
    ensures printed { IsPrinted SpellsMChunk mchunk_text }
    ensures kept { IsKept mchunk_text mchunk_front }
{}

// Build metadata parses after its plus as it is spelled.
#[tactic(auto, using(crate::proofs::lemmas::Chunk::metadata_complete, crate::proofs::lemmas::Chunk::metadata_sound))]
fn metadata()
    ensures sound { IsSound SpellsMetadata (run_front is_metadata_byte) }
    ensures complete { IsComplete SpellsMetadata (EndsRun is_metadata_byte)
        (run_front is_metadata_byte) }
{}
