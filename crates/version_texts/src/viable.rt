//! How far a text could become a version of any kind.

ghost use Rattle.std.specs.Prelude.{◌≡◌, ◌==◌, ◌&&◌, ◌∷◌, false, is_some, true, MatchOption};
ghost use Rattle.std.specs.List.{list_all};
ghost use Rattle.version_order.specs.{Viable.IsLeft, Viable.IsLongestViable, texts.Bytes.colon, texts.Class.contains, texts.Front.is_digits, texts.Front.begins};
ghost use Rattle.version_rules.specs.grammar.Versioning.{versioning_of};
ghost use Rattle.version_texts.specs.Scan.{is_chunk, is_general, is_messy, is_metadata_tail, is_released, is_tail, is_parts};

use crate::scan::numeral::spells_numeral;
use version_order::{Class, after_byte, is_digits, split_byte, split_run};

/// Returns the length in bytes of the longest beginning of a text that some continuation makes a version of any kind
/// (docs/GRAMMAR.md). Takes time linear in the text. Does not allocate.
pub(crate) fn mixed_length(text: &[u8]) -> usize
    ensures { IsLongestViable (λ begun. is_some (versioning_of begun)) text.now result }
{
    let general = left_of_general(text);
    let messy = left_of_messy(text);
    if general.len() < messy.len() {
        text.len() - general.len()
    } else {
        text.len() - messy.len()
    }
}

// What is left of a text as a general version. A strict one is general too.
#[tactic(auto, using(crate::proofs::lemmas::Viable::after_colon, crate::proofs::lemmas::Viable::after_dot, crate::proofs::lemmas::Viable::after_first, crate::proofs::lemmas::Viable::no_first, crate::proofs::lemmas::Library::taken_pass))]
fn left_of_general(text: &[u8]) -> &[u8]
    ensures { IsLeft is_general text.now result.now }
{
    let (first, rest) = split_run(text, Class::Alphanumeric);
    if !is_chunk(first, Class::Alphanumeric) {
        return rest;
    }
    if let Some(behind) = after_epoch(first, rest) {
        return left_of_parts(behind);
    }
    match after_byte(b'.', rest) {
        Some(behind) => left_of_parts(behind),
        None => left_of_tail(rest),
    }
}

// Returns what follows the colon behind an epoch, if the first run is one and a colon follows it.
#[inline(always)]
fn after_epoch<'t>(first: &[u8], rest: &'t [u8]) -> Option<&'t [u8]>
    ensures { MatchOption result ((is_digits first.now && begins (λ b. b == colon) rest.now) ≡ false)
        (λ behind. (is_digits first.now ≡ true) × (rest.now ≡ colon ∷ behind.now)) }
{
    if is_digits(first) {
        after_byte(b':', rest)
    } else {
        None
    }
}

// The same of a general version without an epoch.
#[tactic(auto, using(crate::proofs::lemmas::Viable::last_part, crate::proofs::lemmas::Viable::next_part, crate::proofs::lemmas::Viable::no_part, crate::proofs::lemmas::Library::taken_pass))]
fn left_of_parts(text: &[u8]) -> &[u8]
    ensures { IsLeft is_parts text.now result.now }
{
    let mut left = text;
    'parts: loop {
        let (part, rest) = split_run(left, Class::Alphanumeric);
        if !is_chunk(part, Class::Alphanumeric) {
            return rest;
        }
        match after_byte(b'.', rest) {
            Some(behind) => left = behind,
            None => return left_of_tail(rest),
        }
    }
}

// Returns whether bytes of a class that has the digits are a chunk.
#[inline(always)]
fn is_chunk(run: &[u8], class: Class) -> bool
    requires { list_all (contains class) run.now ≡ true }
    ensures { result ≡ is_chunk (contains class) run.now }
{
    !run.is_empty() && (!is_digits(run) || spells_numeral(run))
}

// The same of what may follow the parts.
#[tactic(auto, using(crate::proofs::lemmas::Viable::released_tail, crate::proofs::lemmas::Viable::unreleased_tail))]
fn left_of_tail(text: &[u8]) -> &[u8]
    ensures { IsLeft is_tail text.now result.now }
{
    match after_byte(b'-', text) {
        Some(behind) => left_of_release(behind),
        None => left_of_metadata(text),
    }
}

// The same of a release, and metadata that may follow it.
#[tactic(auto, using(crate::proofs::lemmas::Viable::last_chunk, crate::proofs::lemmas::Viable::next_chunk, crate::proofs::lemmas::Viable::no_chunk, crate::proofs::lemmas::Library::taken_pass))]
fn left_of_release(text: &[u8]) -> &[u8]
    ensures { IsLeft is_released text.now result.now }
{
    let mut left = text;
    'chunks: loop {
        let (chunk, rest) = split_run(left, Class::Identifier);
        if !is_chunk(chunk, Class::Identifier) {
            return rest;
        }
        match after_byte(b'.', rest) {
            Some(behind) => left = behind,
            None => return left_of_metadata(rest),
        }
    }
}

// The same of nothing, or a plus and metadata.
fn left_of_metadata(text: &[u8]) -> &[u8]
    ensures { IsLeft is_metadata_tail text.now result.now }
{
    match after_byte(b'+', text) {
        Some(behind) => split_run(behind, Class::Metadata).1,
        None => text,
    }
}

// The same of a messy version.
#[tactic(auto, using(crate::proofs::lemmas::Viable::last_run, crate::proofs::lemmas::Viable::next_run, crate::proofs::lemmas::Viable::no_run))]
fn left_of_messy(text: &[u8]) -> &[u8]
    ensures { IsLeft is_messy text.now result.now }
{
    let mut left = text;
    'runs: loop {
        let (run, rest) = split_run(left, Class::Alphanumeric);
        if run.is_empty() {
            return rest;
        }
        match split_byte(rest, Class::Mark) {
            Some((_, behind)) => left = behind,
            None => return rest,
        }
    }
}
