//! Which texts are versions of SemVer 2.0.0, and how far the others could become one.

ghost use Rattle.std.specs.Prelude.{◌≡◌, ◌∷◌, false, suc, IfSome, MatchResult, Some, true, ℕ};
ghost use Rattle.std.specs.{Char.is_ascii_digit, List.list_all, List.take_while};
ghost use Rattle.version_order.specs.{Viable.IsCut, Viable.Stops, texts.Bytes.dot, texts.Bytes.is_identifier_byte, texts.Bytes.is_metadata_byte, texts.Front.behind_digits};
ghost use Rattle.version_pieces.specs.Pieces.{chunks_of};
ghost use Rattle.scheme_semver.specs.Reading.{before_metadata, is_core, is_pre_release, is_tail, tail_of};
ghost use Rattle.scheme_semver.specs.Texts.{allows, has_leading_zero, identifiers_of, is_number, is_section};
ghost use Rattle.scheme_semver.specs.declared.reader.Section.TheVariants.{Metadata};

use version_order::{Class, Stop, after_byte, begins_with, is_digits, split_run};

/// Returns the number before the first dot, and what follows the dot, or else what is left of the text.
#[inline(always)]
pub fn split_number(text: &[u8]) -> Result<(&[u8], &[u8]), &[u8]>
    ensures { MatchResult result
        (λ cut. (is_number cut.0.now ≡ true) × (cut.0.now ≡ take_while is_ascii_digit text.now)
        × (behind_digits text.now ≡ dot ∷ cut.1.now))
        (λ left. (dots : ℕ) → IsCut (is_core (suc dots)) text.now left.now) }
{
    let (number, rest) = split_run(text, Class::Digit);
    if !is_number(number) {
        return Err(left_without_number(text));
    }
    match after_byte(b'.', rest) {
        Some(behind) => Ok((number, behind)),
        None => Err(rest),
    }
}

/// Returns the last number, and what follows it, or else what is left of the text.
#[inline(always)]
pub fn split_last_number(text: &[u8]) -> Result<(&[u8], &[u8]), &[u8]>
    ensures { MatchResult result
        (λ cut. (is_number cut.0.now ≡ true) × (cut.0.now ≡ take_while is_ascii_digit text.now)
        × (cut.1.now ≡ behind_digits text.now))
        (λ left. IsCut (is_core 0) text.now left.now) }
{
    let (number, rest) = split_run(text, Class::Digit);
    if !is_number(number) {
        return Err(left_without_number(text));
    }
    Ok((number, rest))
}

// Returns whether digits are a number.
#[inline(always)]
fn is_number(digits: &[u8]) -> bool
    requires { list_all is_ascii_digit digits.now ≡ true }
    ensures { result ≡ is_number digits.now }
{
    !digits.is_empty() && !has_leading_zero(digits)
}

// Returns what is left of a text that begins with no number: with no digit, or with a zero before other digits.
fn left_without_number(text: &[u8]) -> &[u8]
    requires { is_number (take_while is_ascii_digit text.now) ≡ false }
    ensures { (dots : ℕ) → IsCut (is_core dots) text.now result.now }
{
    if begins_with(text, Class::Digit) {
        &text[1..]
    } else {
        text
    }
}

/// Reads what follows three numbers: returns the pre-release, if there is one, or else what is left of the text.
#[inline(always)]
pub fn split_tail(text: &[u8]) -> Result<Option<&[u8]>, &[u8]>
    ensures { MatchResult result
        (λ pre_release. (tail_of text.now ≡ Some (identifiers_of pre_release))
        × IfSome pre_release (λ text. list_all is_metadata_byte text.now ≡ true))
        (λ left. IsCut is_tail text.now left.now) }
{
    if text.is_empty() {
        return Ok(None);
    }
    if let Some(metadata) = after_byte(b'+', text) {
        walk_metadata(metadata)?;
        return Ok(None);
    }
    match after_byte(b'-', text) {
        Some(behind) => {
            let pre_release = split_pre_release(behind)?;
            Ok(Some(pre_release))
        }
        None => Err(text),
    }
}

// Reads what follows a hyphen: returns the pre-release before the metadata, or else what is left of the text.
fn split_pre_release(text: &[u8]) -> Result<&[u8], &[u8]>
    ensures { MatchResult result
        (λ pre_release. (before_metadata text.now ≡ Some (Some (chunks_of pre_release.now)))
        × (list_all is_metadata_byte pre_release.now ≡ true))
        (λ left. IsCut is_pre_release text.now left.now) }
{
    let stop = walk_section(text, Section::PreRelease);
    if !stop.is_whole {
        return Err(stop.rest);
    }
    if stop.rest.is_empty() {
        return Ok(text);
    }
    match after_byte(b'+', stop.rest) {
        Some(metadata) => {
            walk_metadata(metadata)?;
            Ok(&text[..text.len() - stop.rest.len()])
        }
        None => Err(stop.rest),
    }
}

// Reads what follows a plus, to the end, or else returns what is left of the text.
fn walk_metadata(text: &[u8]) -> Result<(), &[u8]>
    ensures { MatchResult result (λ done. is_section Metadata text.now ≡ true)
        (λ left. IsCut (is_section Metadata) text.now left.now) }
{
    let stop = walk_section(text, Section::Metadata);
    if !stop.is_whole {
        return Err(stop.rest);
    }
    if stop.rest.is_empty() {
        Ok(())
    } else {
        Err(stop.rest)
    }
}

// A part of a version that is identifiers with dots between.
#[derive(Clone, Copy)]
enum Section {
    PreRelease,
    Metadata,
}

impl Section {
    // Returns whether letters, digits and hyphens are an identifier of the section.
    #[inline(always)]
    fn allows(self, identifier: &[u8]) -> bool
        requires { list_all is_identifier_byte identifier.now ≡ true }
        ensures { result ≡ allows self identifier.now }
    {
        match self {
            Section::PreRelease => {
                !identifier.is_empty() && !(has_leading_zero(identifier) && is_digits(identifier))
            }
            Section::Metadata => !identifier.is_empty(),
        }
    }
}

// Returns whether a text begins with a zero and has more bytes.
#[inline(always)]
fn has_leading_zero(text: &[u8]) -> bool
    ensures { result ≡ has_leading_zero text.now }
{
    matches!(text, [b'0', _, ..])
}

// Walks over identifiers with dots between.
fn walk_section(text: &[u8], section: Section) -> Stop<'_>
    ensures { Stops (is_section section) text.now result.rest.now result.is_whole }
{
    let mut left = text;
    'identifiers: loop {
        let (identifier, rest) = split_run(left, Class::Identifier);
        if !section.allows(identifier) {
            return Stop {
                rest,
                is_whole: false,
            };
        }
        match after_byte(b'.', rest) {
            Some(behind) => left = behind,
            None => {
                return Stop {
                    rest,
                    is_whole: true,
                };
            }
        }
    }
}
