//! What the text of a version of Python is made of, piece by piece: PEP 440, appendix B.

ghost use Rattle.std.specs.Prelude.{◌≡◌, ◌∷◌, [], true, IfSome, MatchResult, None, Some};
ghost use Rattle.std.specs.{Char.is_ascii_alphanumeric, Option.option_map};
ghost use Rattle.version_order.specs.texts.Front.{number_front, run_value, starts_with_digit, begins, behind, optional};
ghost use Rattle.version_order.specs.texts.Bytes.{hyphen};
ghost use Rattle.scheme_pypi.specs.Texts.{candidate_words, post_words, after_any, after_letter, after_word, dev_front, epoch_or_zero, is_blank, left_of_word, local_front, number_or_zero, phase_of, pieces_front, pieces_of, post_front, pre_front, release_front, without_blanks, without_separator, without_v};
ghost use Rattle.scheme_pypi.specs.{Order.rank, Pypi.plain_phase};

use crate::walk::{is_separator, next_number, next_piece};
use version_order::{Class, after_byte, begins_with, split_run};

/// The phase of a version: a dev release of its own, a pre-release by its number, or none of these.
#[derive(Clone, Copy)]
pub(crate) enum Phase<'t> {
    DevAlone,
    Alpha(&'t [u8]),
    Beta(&'t [u8]),
    Candidate(&'t [u8]),
    Final,
}

// Returns whether a byte is a blank of ASCII, as Python has them.
#[inline(always)]
fn is_blank(byte: u8) -> bool
    ensures { result ≡ is_blank byte }
{
    (9 <= byte && byte <= 13) || (28 <= byte && byte <= 32)
}

/// The text without the blanks that it begins with.
#[inline(always)]
pub(crate) fn without_blanks(text: &[u8]) -> &[u8]
    ensures { result.now ≡ without_blanks text.now }
{
    let mut left = text;
    'blanks: loop {
        match left {
            [byte, rest @ ..] if is_blank(*byte) => left = rest,
            _ => return left,
        }
    }
}

/// The text without the separator that it may begin with.
#[inline(always)]
pub(crate) fn without_separator(text: &[u8]) -> &[u8]
    ensures { result.now ≡ without_separator text.now }
{
    match text {
        [byte, rest @ ..] if is_separator(*byte) => rest,
        _ => text,
    }
}

// Returns what follows a small letter, if the text begins with it in either case.
#[inline(always)]
fn after_letter(letter: u8, text: &[u8]) -> Option<&[u8]>
    ensures { option_map (λ rest. rest.now) result ≡ after_letter letter text.now }
{
    match text {
        [byte, rest @ ..] if byte.to_ascii_lowercase() == letter => Some(rest),
        _ => None,
    }
}

/// Returns what follows a word in small letters, if the text begins with it in letters of either case, or else what is left
/// of the text behind those letters of the word that it begins with.
#[inline(always)]
pub(crate) fn split_word<'t>(word: &[u8], text: &'t [u8]) -> Result<&'t [u8], &'t [u8]>
    ensures { MatchResult result (λ rest. after_word word.now text.now ≡ Some rest.now)
        (λ left. (after_word word.now text.now ≡ None) × (left.now ≡ left_of_word word.now text.now)) }
{
    let mut left = text;
    for letter in word {
        match after_letter(*letter, left) {
            Some(rest) => left = rest,
            None => return Err(left),
        }
    }
    Ok(left)
}

// Returns what follows a word in small letters, if the text begins with it in letters of either case.
#[inline(always)]
fn after_word<'t>(word: &[u8], text: &'t [u8]) -> Option<&'t [u8]>
    ensures { option_map (λ rest. rest.now) result ≡ after_word word.now text.now }
{
    split_word(word, text).ok()
}

// Returns what follows the first of two words that a text begins with.
#[inline(always)]
fn after_either<'t>(word: &[u8], other: &[u8], text: &'t [u8]) -> Option<&'t [u8]>
    ensures { option_map (λ rest. rest.now) result ≡ after_any (word.now ∷ other.now ∷ []) text.now }
{
    match after_word(word, text) {
        None => after_word(other, text),
        found => found,
    }
}

/// The text without the letter `v` that it may begin with.
#[inline(always)]
pub(crate) fn without_v(text: &[u8]) -> &[u8]
    ensures { result.now ≡ without_v text.now }
{
    match after_word(b"v", text) {
        None => text,
        Some(rest) => rest,
    }
}

/// Returns the digits of the epoch, none where there is none, and the rest.
#[inline(always)]
pub(crate) fn split_epoch(text: &[u8]) -> (&[u8], &[u8])
    ensures { (run_value result.0.now, result.1.now) ≡ epoch_or_zero text.now }
{
    let (digits, rest) = split_run(text, Class::Digit);
    match rest {
        [b'!', release @ ..] if !digits.is_empty() => (text, release),
        _ => (&[], text),
    }
}

/// Returns what follows the release that a text begins with, or None if it begins with no digit.
#[inline(always)]
pub(crate) fn after_release(text: &[u8]) -> Option<&[u8]>
    ensures rest { option_map (λ rest. rest.now) result ≡ option_map (λ read. read.1) (release_front text.now) }
    ensures begins { IfSome result (λ _. starts_with_digit text.now ≡ true) }
{
    if !begins_with(text, Class::Digit) {
        return None;
    }
    let mut left = text;
    'numbers: loop {
        let (_, rest) = split_run(left, Class::Digit);
        left = next_number(rest);
        if left.is_empty() {
            return Some(rest);
        }
    }
}

/// Returns a number after a word, with a separator before it or none, and the rest.
#[inline(always)]
pub(crate) fn split_number(text: &[u8]) -> (&[u8], &[u8])
    ensures { (run_value result.0.now, result.1.now) ≡ number_or_zero (without_separator text.now) }
{
    let digits = without_separator(text);
    let (_, rest) = split_run(digits, Class::Digit);
    (digits, rest)
}

impl<'t> Phase<'t> {
    /// The rank of the phase.
    #[inline(always)]
    pub(crate) fn rank(self) -> u8
        ensures { result ≡ rank (plain_phase self.entry) }
    {
        match self {
            Phase::DevAlone => 1,
            Phase::Alpha(_) => 2,
            Phase::Beta(_) => 3,
            Phase::Candidate(_) => 4,
            Phase::Final => 5,
        }
    }
}

/// Returns the pre-release that a text begins with, and the rest.
#[inline(always)]
pub(crate) fn split_pre(text: &[u8]) -> (Option<Phase<'_>>, &[u8])
    ensures { (option_map plain_phase result.0, result.1.now) ≡ optional pre_front text.now }
{
    let start = without_separator(text);
    if let Some(rest) = after_either(b"alpha", b"a", start) {
        let (digits, rest) = split_number(rest);
        return (Some(Phase::Alpha(digits)), rest);
    }
    if let Some(rest) = after_either(b"beta", b"b", start) {
        let (digits, rest) = split_number(rest);
        return (Some(Phase::Beta(digits)), rest);
    }
    if let Some(rest) = after_candidate(start) {
        let (digits, rest) = split_number(rest);
        return (Some(Phase::Candidate(digits)), rest);
    }
    (None, text)
}

// Returns what follows the words of a release candidate.
#[inline(always)]
fn after_candidate(text: &[u8]) -> Option<&[u8]>
    ensures { option_map (λ rest. rest.now) result
        ≡ after_any candidate_words text.now }
{
    match after_either(b"rc", b"c", text) {
        None => after_either(b"preview", b"pre", text),
        found => found,
    }
}

// Returns the number of a post-release that is a hyphen and digits, and the rest.
#[inline(always)]
fn split_implicit(text: &[u8]) -> Option<(&[u8], &[u8])>
    ensures { option_map (λ read. (run_value read.0.now, read.1.now)) result ≡ behind hyphen number_front text.now }
{
    match text {
        [b'-', digits @ ..] if begins_with(digits, Class::Digit) => {
            let (_, rest) = split_run(digits, Class::Digit);
            Some((digits, rest))
        }
        _ => None,
    }
}

/// Returns the post-release that a text begins with, and the rest.
#[inline(always)]
pub(crate) fn split_post(text: &[u8]) -> (Option<&[u8]>, &[u8])
    ensures { (option_map (λ digits. run_value digits.now) result.0, result.1.now) ≡ optional post_front text.now }
{
    if let Some((digits, rest)) = split_implicit(text) {
        return (Some(digits), rest);
    }
    match after_post(without_separator(text)) {
        None => (None, text),
        Some(rest) => {
            let (digits, rest) = split_number(rest);
            (Some(digits), rest)
        }
    }
}

// Returns what follows the words of a post-release.
#[inline(always)]
fn after_post(text: &[u8]) -> Option<&[u8]>
    ensures { option_map (λ rest. rest.now) result
        ≡ after_any post_words text.now }
{
    match after_word(b"post", text) {
        None => after_either(b"rev", b"r", text),
        found => found,
    }
}

/// Returns the dev release that a text begins with, and the rest.
#[inline(always)]
pub(crate) fn split_dev(text: &[u8]) -> (Option<&[u8]>, &[u8])
    ensures { (option_map (λ digits. run_value digits.now) result.0, result.1.now) ≡ optional dev_front text.now }
{
    match after_word(b"dev", without_separator(text)) {
        None => (None, text),
        Some(rest) => {
            let (digits, rest) = split_number(rest);
            (Some(digits), rest)
        }
    }
}

/// Returns the local version that a text begins with, and the rest.
#[inline(always)]
pub(crate) fn split_local(text: &[u8]) -> (Option<&[u8]>, &[u8])
    ensures { (option_map (λ pieces. pieces_of pieces.now) result.0, result.1.now) ≡ optional local_front text.now }
{
    match after_byte(b'+', text) {
        Some(pieces) if begins_with(pieces, Class::Alphanumeric) => {
            (Some(pieces), after_pieces(pieces))
        }
        _ => (None, text),
    }
}

// Returns what follows the pieces that a text begins with.
#[inline(always)]
fn after_pieces(text: &[u8]) -> &[u8]
    requires { begins is_ascii_alphanumeric text.now ≡ true }
    ensures { pieces_front text.now ≡ Some (pieces_of text.now, result.now) }
{
    let mut left = text;
    'pieces: loop {
        let (_, rest) = split_run(left, Class::Alphanumeric);
        left = next_piece(rest);
        if left.is_empty() {
            return rest;
        }
    }
}

/// Returns the phase of a version: a dev release of its own comes before pre-releases.
#[inline(always)]
pub(crate) fn phase_of<'t>(
    pre: Option<Phase<'t>>,
    post: Option<&[u8]>,
    dev: Option<&[u8]>,
) -> Phase<'t>
    ensures { plain_phase result ≡ phase_of (option_map plain_phase pre.entry)
        (option_map (λ digits. run_value digits.now) post.entry)
        (option_map (λ digits. run_value digits.now) dev.entry) }
{
    match (pre, post, dev) {
        (Some(phase), _, _) => phase,
        (None, None, Some(_)) => Phase::DevAlone,
        _ => Phase::Final,
    }
}
