//! How far a text could become a version of Python.

ghost use Rattle.std.specs.Prelude.{◌≡◌, ◌≢◌, ◌==◌, ◌≤◌, ◌⊎◌, ◌∷◌, IfNone, IfSome, ℕ, Bool, List, [], codes, false, is_some, length, map, true, MatchOption, MatchResult};
ghost use Rattle.std.specs.Char.{to_ascii_lowercase};
ghost use Rattle.version_order.specs.{Viable.IsLeft, Viable.IsLongestViable, texts.Front.begins};
ghost use Rattle.scheme_pypi.specs.Stages.{Follows, after_blanks, after_dev, after_plus, after_post, after_pre, after_release, after_v, is_ended, is_epoch, is_implicit, is_release, word_then, worded};
ghost use Rattle.scheme_pypi.specs.Texts.{is_separator, pypi_of, pypi_rules};

use crate::read::{split_number, split_word, without_blanks, without_separator, without_v};
use crate::walk::is_separator;
use version_order::{Class, after_byte, begins_with, split_run};

/// Returns the length in bytes of the longest beginning of a text that some continuation makes a version of Python (PEP
/// 440). Takes time linear in the text.
#[tactic(auto, using(crate::proofs::lemmas::Viable::Releases::pypi_longest))]
pub(crate) fn pypi_length(text: &[u8]) -> usize
    ensures { IsLongestViable (λ begun. is_some (pypi_rules.read_as begun)) text.now result }
{
    text.len() - left_of_pypi(text).len()
}

// What is left of a text as a version with blanks around it, perhaps with a v before it.
#[tactic(auto, using(crate::proofs::lemmas::Viable::Releases::pypi_left))]
fn left_of_pypi(text: &[u8]) -> &[u8]
    ensures { IsLeft (λ begun. is_some (pypi_of begun)) text.now result.now }
{
    let start = without_v(without_blanks(text));
    shorter(left_of_release(start), left_of_epoch(start))
}

// The same of an epoch and a release.
#[tactic(auto, using(crate::proofs::lemmas::Viable::Releases::no_epoch, crate::proofs::lemmas::Viable::Releases::after_mark_left, crate::proofs::lemmas::Viable::Releases::no_mark_left))]
fn left_of_epoch(text: &[u8]) -> &[u8]
    ensures { IsLeft is_epoch text.now result.now }
{
    let (digits, rest) = split_run(text, Class::Digit);
    if digits.is_empty() {
        return rest;
    }
    match after_byte(b'!', rest) {
        Some(behind) => left_of_release(behind),
        None => rest,
    }
}

// The same of a release.
#[tactic(auto, using(crate::proofs::lemmas::Viable::Releases::no_number, crate::proofs::lemmas::Viable::Releases::next_number_left, crate::proofs::lemmas::Viable::Releases::last_number_left, crate::proofs::lemmas::Viable::Releases::no_dot_left, crate::proofs::lemmas::Viable::Releases::no_digit_left))]
fn left_of_release(text: &[u8]) -> &[u8]
    ensures { IsLeft is_release text.now result.now }
{
    let mut left = text;
    'numbers: loop {
        let (number, rest) = split_run(left, Class::Digit);
        if number.is_empty() {
            return rest;
        }
        match after_byte(b'.', rest) {
            Some(behind) => {
                if !begins_with(behind, Class::Digit) {
                    return left_behind_release(rest);
                }
                left = behind;
            }
            None => return left_behind_release(rest),
        }
    }
}

// The same of what may follow a release.
fn left_behind_release(text: &[u8]) -> &[u8]
    ensures { IsLeft after_release text.now result.now }
{
    let left = shorter(left_of_pre(b"pre", text), left_behind_pre(text));
    let left = shorter(left_of_pre(b"preview", text), left);
    let left = shorter(left_of_pre(b"c", text), left);
    let left = shorter(left_of_pre(b"rc", text), left);
    let left = shorter(left_of_pre(b"b", text), left);
    let left = shorter(left_of_pre(b"beta", text), left);
    let left = shorter(left_of_pre(b"a", text), left);
    shorter(left_of_pre(b"alpha", text), left)
}

// The same of a pre-release by a word.
#[tactic(auto, using(crate::proofs::lemmas::Viable::Stages::pre_follows))]
fn left_of_pre<'t>(word: &[u8], text: &'t [u8]) -> &'t [u8]
    requires small { map to_ascii_lowercase word.now ≡ word.now }
    requires some { word.now ≢ [] }
    requires letter { begins is_separator word.now ≡ false }
    ensures { IsLeft (worded after_pre word.now) text.now result.now }
{
    match after_numbered(word, text) {
        Ok(rest) => left_behind_pre(rest),
        Err(left) => left,
    }
}

// The same of what may follow a pre-release.
fn left_behind_pre(text: &[u8]) -> &[u8]
    ensures { IsLeft after_pre text.now result.now }
{
    let left = shorter(left_of_post(b"r", text), left_behind_post(text));
    let left = shorter(left_of_post(b"rev", text), left);
    let left = shorter(left_of_post(b"post", text), left);
    shorter(left_of_implicit(text), left)
}

// The same of a post-release that is a hyphen and a number.
fn left_of_implicit(text: &[u8]) -> &[u8]
    ensures { IsLeft is_implicit text.now result.now }
{
    let Some(behind) = after_byte(b'-', text) else {
        return text;
    };
    let (digits, rest) = split_run(behind, Class::Digit);
    if digits.is_empty() {
        rest
    } else {
        left_behind_post(rest)
    }
}

// The same of a post-release by a word.
#[tactic(auto, using(crate::proofs::lemmas::Viable::Stages::post_follows))]
fn left_of_post<'t>(word: &[u8], text: &'t [u8]) -> &'t [u8]
    requires small { map to_ascii_lowercase word.now ≡ word.now }
    requires some { word.now ≢ [] }
    requires letter { begins is_separator word.now ≡ false }
    ensures { IsLeft (worded after_post word.now) text.now result.now }
{
    match after_numbered(word, text) {
        Ok(rest) => left_behind_post(rest),
        Err(left) => left,
    }
}

// The same of what may follow a post-release.
fn left_behind_post(text: &[u8]) -> &[u8]
    ensures { IsLeft after_post text.now result.now }
{
    let left = left_behind_dev(text);
    match after_numbered(b"dev", text) {
        Ok(rest) => shorter(left_behind_dev(rest), left),
        Err(stuck) => shorter(stuck, left),
    }
}

// The same of what may follow a dev release.
#[tactic(auto, using(crate::proofs::lemmas::Viable::Ends::at_plus, crate::proofs::lemmas::Viable::Ends::not_plus))]
fn left_behind_dev(text: &[u8]) -> &[u8]
    ensures { IsLeft after_dev text.now result.now }
{
    match after_byte(b'+', text) {
        Some(behind) => left_behind_plus(behind),
        None => without_blanks(text),
    }
}

// The same of what follows the plus of a local version.
#[tactic(auto, using(crate::proofs::lemmas::Viable::Ends::blanks_left, crate::proofs::lemmas::Viable::Ends::last_run, crate::proofs::lemmas::Viable::Ends::next_run, crate::proofs::lemmas::Viable::Ends::no_run))]
fn left_behind_plus(text: &[u8]) -> &[u8]
    ensures { IsLeft after_plus text.now result.now }
{
    let mut left = text;
    'pieces: loop {
        let (piece, rest) = split_run(left, Class::Alphanumeric);
        if piece.is_empty() {
            return rest;
        }
        match after_separator(rest) {
            Some(behind) => left = behind,
            None => return without_blanks(rest),
        }
    }
}

// Returns what follows the separator that a text begins with, or None if it begins with none.
#[inline(always)]
fn after_separator(text: &[u8]) -> Option<&[u8]>
    ensures { MatchOption result (begins is_separator text.now ≡ false)
        (λ behind. (byte : ℕ) × (text.now ≡ byte ∷ behind.now) × (is_separator byte ≡ true)) }
{
    match text {
        [byte, behind @ ..] if is_separator(*byte) => Some(behind),
        _ => None,
    }
}

// Returns what follows a word and a number, perhaps none, each with a separator before it or none; or what is left of the
// text as these and anything.
#[tactic(auto, using(crate::proofs::lemmas::Viable::Words::behind_number, crate::proofs::lemmas::Viable::Words::within_word))]
fn after_numbered<'t>(word: &[u8], text: &'t [u8]) -> Result<&'t [u8], &'t [u8]>
    requires small { map to_ascii_lowercase word.now ≡ word.now }
    requires some { word.now ≢ [] }
    requires letter { begins is_separator word.now ≡ false }
    ensures { MatchResult result
        (λ rest. (test : List ℕ → Bool) (left : List ℕ) → Follows test → IsLeft test rest.now left
        → IsLeft (worded test word.now) text.now left)
        (λ left. (test : List ℕ → Bool) → test [] ≡ true → IsLeft (worded test word.now) text.now left.now) }
{
    match split_word(word, without_separator(text)) {
        Ok(rest) => Ok(split_number(rest).1),
        Err(left) => Err(left),
    }
}

// Returns the shorter of two texts.
#[inline(always)]
fn shorter<'t>(one: &'t [u8], other: &'t [u8]) -> &'t [u8]
    ensures { ((length one.entry.now ≤ length other.entry.now) × (result.now ≡ one.entry.now))
        ⊎ ((length other.entry.now ≤ length one.entry.now) × (result.now ≡ other.entry.now)) }
{
    if one.len() < other.len() { one } else { other }
}
