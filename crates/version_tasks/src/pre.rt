//! The pre-release that comes next after a strict version. Nothing here allocates.

ghost use Rattle.std.specs.Prelude.{◌≡◌, ◌≤◌, ◌<◌, ◌^◌, ◌∷◌, ◌++◌, ◌⊎◌, [], ℕ, List, suc, not, true, false, IfNone, IfSome, Some};
ghost use Rattle.std.specs.{List.list_all, Option.option_map, declared.cmp.Ordering.TheVariants.Less};
ghost use Rattle.version_order.specs.texts.{Bytes.dot, Bytes.is_identifier_byte, Cuts.is_dot, Front.is_run};
ghost use Rattle.version_rules.specs.{grammar.Chunk.Numeric, grammar.Chunk.PlainChunk, grammar.Versioning.is_prerelease, grammar.Versioning.versioning_of, grammar.Versioning.versioning_text, order.Parts.release_cmp};
ghost use Rattle.version_tasks.specs.NextPreText.{is_own, is_release, is_word, own_chunks, word_chunks, word_text, IsLeastNumber, IsPlace, NonePass};
ghost use Rattle.version_tasks.specs.NextPre.{AreNamed, IsNextPre, NoNextPre, plain_next_pre};
ghost use Rattle.version_texts.specs.{Scan.is_chunk, VersioningRef.field_text, VersioningRef.plain_versioning_ref, declared.versioning_ref.field.Field.TheVariants.PreRelease};
ghost use Rattle.version_pieces.specs.Pieces.{chunks_of};

mod text;

use crate::next::successor;
use crate::stability::pre_release_text;
use std::cmp::Ordering;
pub use text::NextPre;
use version_order::{Class, after_byte, is_digits, split_piece, split_run};
use version_pieces::compare_releases;
use version_rules::Kind;
use version_texts::{VersioningRef, numeral_value, spells_numeral};

/// Returns the pre-release that comes next after a strict version: the least version after it with the same major and
/// minor numbers, a word and then one number from 1 on as pre-release, and without metadata. A word is one chunk or
/// more, joined by dots. Without a word it is what stands before the last chunk of the version's own pre-release, if
/// that chunk is a number. Returns None if the version isn't strict, if it has no such word, if the given word isn't
/// such chunks, or if that would take a patch past 4294967295.
///
/// | version | word | next |
/// |---|---|---|
/// | `1.2.3` | `rc` | `1.2.4-rc.1` |
/// | `1.2.3-rc.1` | `rc` | `1.2.3-rc.2` |
/// | `1.2.3-alpha.4` | `rc` | `1.2.3-rc.1` |
/// | `1.2.3-rc.1` | `beta` | `1.2.4-beta.1` |
/// | `1.2.3-rc.1` | | `1.2.3-rc.2` |
/// | `1.2.3` | | none |
pub fn next_pre<'a>(version: &VersioningRef<'a>, word: Option<&'a [u8]>) -> Option<NextPre<'a>>
    ensures some { IfSome result (λ next. IsNextPre (plain_versioning_ref version.now)
        (option_map (λ text. text.now) word.entry) (plain_next_pre next)) }
    ensures none { IfNone result (NoNextPre (plain_versioning_ref version.now)
        (option_map (λ text. text.now) word.entry)) }

    // The text that it writes parses as that version, which is a pre-release.
    ensures read { IfSome result (λ next. versioning_of (versioning_text (plain_next_pre next))
        ≡ Some (plain_next_pre next)) }
    ensures pre { IfSome result (λ next. is_prerelease (plain_next_pre next) ≡ true) }
{
    let Kind::Ideal = version.kind() else {
        return None;
    };
    let own = pre_release(version);
    let word = chosen_word(word, own)?;
    let (patch, number) = place_after(version.nth(2)?, word, own)?;
    Some(NextPre {
        major: version.nth(0)?,
        minor: version.nth(1)?,
        patch,
        word,
        number,
    })
}

// The text of the pre-release of a strict version.
fn pre_release<'a>(version: &VersioningRef<'a>) -> Option<&'a [u8]>
    ensures { option_map (λ text. text.now) result
        ≡ field_text PreRelease (plain_versioning_ref version.now) }
{
    if version.is_prerelease() {
        Some(pre_release_text(version))
    } else {
        None
    }
}

// The word that is given, if it is one, or without one what stands before the number of a pre-release.
#[tactic(auto, using(crate::proofs::lemmas::NextPre::Read::chosen_spelled, crate::proofs::lemmas::NextPre::Read::not_chosen))]
fn chosen_word<'a>(word: Option<&'a [u8]>, own: Option<&'a [u8]>) -> Option<&'a [u8]>
    requires { is_own (option_map (λ text. text.now) own) ≡ true }
    ensures word { IfSome result (λ chosen. is_word chosen.now ≡ true) }
    ensures some { IfSome result (λ chosen. AreNamed (option_map (λ text. text.now) word.entry)
        (own_chunks (option_map (λ text. text.now) own.entry)) (word_chunks chosen.now)) }
    ensures none { IfNone result ((chunks : List PlainChunk)
        → ¬ (AreNamed (option_map (λ text. text.now) word.entry)
        (own_chunks (option_map (λ text. text.now) own.entry)) chunks)) }
{
    match word {
        Some(given) if is_release(given) => Some(given),
        Some(_) => None,
        None => own_word(own?),
    }
}

// What stands before the number that a pre-release ends with. None if it does not end with one.
fn own_word(own: &[u8]) -> Option<&[u8]>
    requires { is_release own.now ≡ true }
    ensures word { IfSome result (λ word. is_word word.now ≡ true) }
    ensures some { IfSome result (λ word. (n : ℕ)
        × (chunks_of own.now ≡ word_chunks word.now ++ Numeric n ∷ [])) }
    ensures none { IfNone result ((chunks : List PlainChunk) (n : ℕ)
        → ¬ (chunks_of own.now ≡ chunks ++ Numeric n ∷ [])) }
{
    let (word, last) = split_last_piece(own);
    if spells_numeral(last) {
        Some(word)
    } else {
        None
    }
}

// The text before the last dot of a text, which is empty if there is no dot, and the piece after it.
fn split_last_piece(text: &[u8]) -> (&[u8], &[u8])
    ensures pieces { ((text.now ≡ result.1.now) × (result.0.now ≡ []))
        ⊎ (text.now ≡ result.0.now ++ dot ∷ result.1.now) }
    ensures last { list_all (λ b. not (is_dot b)) result.1.now ≡ true }
{
    let mut place = text.len();
    while place > 0 {
        if text[place - 1] == b'.' {
            return (&text[..place - 1], &text[place..]);
        }
        place -= 1;
    }
    (&[], text)
}

// The patch and the number of what comes next after a patch and a pre-release. None past the largest patch.
fn place_after(patch: u32, word: &[u8], own: Option<&[u8]>) -> Option<(u32, u32)>
    requires word { is_word word.now ≡ true }
    requires own { is_own (option_map (λ text. text.now) own) ≡ true }
    ensures some { IfSome result (λ place. IsPlace word.now
        (option_map (λ text. text.now) own.entry) patch (place.0, place.1)) }
    ensures none { IfNone result ((2 ^ 32 ≤ suc patch)
        × NonePass word.now (option_map (λ text. text.now) own.entry)) }
{
    match number_after(word, own) {
        Some(number) => Some((patch, number)),
        None => Some((successor(patch)?, 1)),
    }
}

// The least number from 1 on with which the pre-release of a word comes after another. None if there is none.
fn number_after(word: &[u8], own: Option<&[u8]>) -> Option<u32>
    requires word { is_word word.now ≡ true }
    requires own { is_own (option_map (λ text. text.now) own) ≡ true }
    ensures some { IfSome result (λ number. IsLeastNumber word.now
        (option_map (λ text. text.now) own.entry) number) }
    ensures none { IfNone result (NonePass word.now (option_map (λ text. text.now) own.entry)) }
{
    let own = own?;
    match after_word(word, own) {
        Some(rest) => successor(numeral_value(split_piece(rest).0)?),
        None => first_unless_below(word, own),
    }
}

// The number 1, unless a word comes before a pre-release.
fn first_unless_below(word: &[u8], own: &[u8]) -> Option<u32>
    ensures some { IfSome result (λ number. (number ≡ 1)
        × ¬ (release_cmp (chunks_of word.now) (chunks_of own.now) ≡ Less)) }
    ensures none { IfNone result (release_cmp (chunks_of word.now) (chunks_of own.now) ≡ Less) }
{
    match compare_releases(word, own) {
        Ordering::Less => None,
        _ => Some(1),
    }
}

// What follows a word and the dot after it, with which a text begins; all of it after an empty word.
fn after_word<'a>(word: &[u8], text: &'a [u8]) -> Option<&'a [u8]>
    ensures some { IfSome result (λ rest. text.now ≡ word_text word.now ++ rest.now) }
    ensures none { IfNone result ((rest : List ℕ) → ¬ (text.now ≡ word_text word.now ++ rest)) }
{
    if word.is_empty() {
        return Some(text);
    }
    after_byte(b'.', text.strip_prefix(word)?)
}

// Whether a text is the chunks of a release, joined by dots.
fn is_release(text: &[u8]) -> bool
    ensures { result ≡ is_release text.now }
{
    text.split(|byte| *byte == b'.')
        .all(|piece| is_chunk(piece))
}

// Whether a text is a chunk of a release: a numeral, or letters, digits and hyphens that are not all digits.
fn is_chunk(text: &[u8]) -> bool
    ensures { result ≡ is_chunk is_identifier_byte text.now }
{
    is_identifier(text) && (spells_numeral(text) || !is_digits(text))
}

// Whether a text is letters, digits and hyphens, one or more.
#[tactic(auto, using(version_order::proofs::lemmas::Runs::run_is))]
fn is_identifier(text: &[u8]) -> bool
    ensures { result ≡ is_run is_identifier_byte text.now }
{
    let (_, rest) = split_run(text, Class::Identifier);
    !text.is_empty() && rest.is_empty()
}
