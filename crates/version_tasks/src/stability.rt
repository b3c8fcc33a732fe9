//! How stable a version is, by the words that stand in it: a rule of habit, as Composer has it, and not of SemVer.
//! Nothing here allocates.

ghost use Rattle.std.specs.Prelude.{◌≡◌, ◌≤◌, length, map};
ghost use Rattle.std.specs.{Char.is_ascii_alphabetic, Char.is_ascii_alphanumeric, Char.is_ascii_digit, List.list_any, List.prefix_len, Str.str_eq_ignore_ascii_case};
ghost use Rattle.version_order.specs.texts.{Cuts.first_piece, Front.is_digits};
ghost use Rattle.version_tasks.specs.Stability.{counted_text, is_early, is_early_access, is_milestone, is_revision, is_short, lower, lowest, of_letter, of_lettered, of_run, of_text, of_word, pre_release_text, runs, stability_of};
ghost use Rattle.version_texts.specs.VersioningRef.{plain_versioning_ref};

use version_order::{Class, is_digits, split_piece, split_run};
use version_texts::{Field, VersioningRef};

/// How stable a version is, from the least stable to the most.
#[derive(Clone, Copy, Debug, PartialEq, Eq, PartialOrd, Ord)]
pub enum Stability {
    /// Work in progress: a snapshot, or a nightly build.
    Dev,
    /// An early preview.
    Alpha,
    /// A later preview.
    Beta,
    /// A candidate for release.
    Rc,
    /// A release.
    Stable,
}

/// Returns how stable a version of any kind is, by the words that stand in it; the lowest counts. A word is a whole run
/// of letters, in upper or lower case. Also the whole runs of letters and digits of the third column count.
///
/// | stability | words | runs |
/// |---|---|---|
/// | `Dev` | `dev`, `devel`, `snapshot`, `nightly`, `canary` | |
/// | `Alpha` | `alpha`, `pre`, `preview`, `prerelease`, `milestone`, `eap` | `0a1`, `m2`, `ea` |
/// | `Beta` | `beta` | `0b1` |
/// | `Rc` | `rc`, `cr` | `0c1` |
///
/// Before `a`, `b` and `c` stand one to three digits, and after them one or two; after `m` one or more.
/// Metadata of strict and general versions does not count. A strict version with a pre-release and none of these is
/// alpha if the first chunk of the pre-release begins with a letter or a hyphen and isn't `r` and digits. Each other
/// version is stable.
pub fn stability_of(version: &VersioningRef<'_>) -> Stability
    ensures { result ≡ stability_of (plain_versioning_ref version.now) }
{
    let stability = stability_of_text(counted_text(version));
    if stability == Stability::Stable && is_early(pre_release_text(version)) {
        return Stability::Alpha;
    }
    stability
}

// The text of a version without metadata, which a messy version does not have.
#[tactic(auto, using(crate::proofs::lemmas::Stability::before_metadata))]
fn counted_text<'a>(version: &VersioningRef<'a>) -> &'a [u8]
    ensures { result.now ≡ counted_text (plain_versioning_ref version.now) }
{
    let text = version.bytes();
    match version.span(Field::Metadata) {
        Some((start, _)) => &text[..start - 1],
        None => text,
    }
}

// The text of the pre-release of a strict version; empty if there is none.
pub(crate) fn pre_release_text<'a>(version: &VersioningRef<'a>) -> &'a [u8]
    ensures { result.now ≡ pre_release_text (plain_versioning_ref version.now) }
{
    match version.span(Field::PreRelease) {
        Some((start, end)) => &version.bytes()[start..end],
        None => &[],
    }
}

// Whether a pre-release begins with a letter or a hyphen, and its first chunk is no revision of a packager's.
fn is_early(text: &[u8]) -> bool
    ensures { result ≡ is_early text.now }
{
    match text {
        [first, ..] => !first.is_ascii_digit() && !is_revision(split_piece(text).0),
        [] => false,
    }
}

/// Returns the lowest stability of the words of a text, and of its runs of letters and digits, as `stability_of` has
/// them.
pub fn stability_of_text(text: &[u8]) -> Stability
    ensures { result ≡ of_text text.now }
{
    lower(of_words(text), of_runs(text))
}

// The less stable one of two.
fn lower(a: Stability, b: Stability) -> Stability
    ensures { result ≡ lower a b }
{
    a.min(b)
}

// The lowest stability of the words of a text.
fn of_words(text: &[u8]) -> Stability
    ensures { result ≡ lowest (map of_word (runs is_ascii_alphabetic text.now)) }
{
    text.split(|byte| !byte.is_ascii_alphabetic()).fold(
        Stability::Stable,
        |lowest, word| lower(lowest, of_word(word)),
    )
}

// The lowest stability of the runs of letters and digits of a text.
fn of_runs(text: &[u8]) -> Stability
    ensures { result ≡ lowest (map of_run (runs is_ascii_alphanumeric text.now)) }
{
    text.split(|byte| !byte.is_ascii_alphanumeric()).fold(
        Stability::Stable,
        |lowest, run| lower(lowest, of_run(run)),
    )
}

// The stability that a word names; `Stable` for any other word.
fn of_word(word: &[u8]) -> Stability
    ensures { result ≡ of_word word.now }
{
    if is_one_of(word, &["dev", "devel", "snapshot", "nightly", "canary"]) {
        return Stability::Dev;
    }
    if is_one_of(
        word,
        &["alpha", "pre", "preview", "prerelease", "milestone", "eap"],
    ) {
        return Stability::Alpha;
    }
    if is_one_of(word, &["beta"]) {
        return Stability::Beta;
    }
    if is_one_of(word, &["rc", "cr"]) {
        return Stability::Rc;
    }
    Stability::Stable
}

// Whether a word is one of these, in upper or lower case.
fn is_one_of(word: &[u8], names: &[&str]) -> bool
    ensures { result ≡ list_any (λ name. str_eq_ignore_ascii_case word.now name.now) names.now }
{
    names
        .iter()
        .any(|name| word.eq_ignore_ascii_case(name.as_bytes()))
}

// The stability of a run of letters and digits, such as `0rc1`.
fn of_run(run: &[u8]) -> Stability
    ensures { result ≡ of_run run.now }
{
    if is_milestone(run) || is_early_access(run) {
        return Stability::Alpha;
    }
    let (digits, rest) = split_run(run, Class::Digit);
    if is_short(digits, 3) {
        of_lettered(rest)
    } else {
        Stability::Stable
    }
}

// The stability of what follows one to three digits: a letter, and then one or two digits.
fn of_lettered(text: &[u8]) -> Stability
    ensures { result ≡ of_lettered text.now }
{
    match text {
        [letter, digits @ ..] if is_short(digits, 2) => of_letter(*letter),
        _ => Stability::Stable,
    }
}

// The stability of the letter `a`, `b` or `c` between two numbers.
fn of_letter(letter: u8) -> Stability
    ensures { result ≡ of_letter letter }
{
    match letter.to_ascii_lowercase() {
        b'a' => Stability::Alpha,
        b'b' => Stability::Beta,
        b'c' => Stability::Rc,
        _ => Stability::Stable,
    }
}

// Whether a run of letters and digits is `ea` alone: a hash such as `1ea1667` has these letters too.
fn is_early_access(run: &[u8]) -> bool
    ensures { result ≡ is_early_access run.now }
{
    run.eq_ignore_ascii_case(b"ea")
}

// Whether a text is an `m` and digits.
fn is_milestone(text: &[u8]) -> bool
    ensures { result ≡ is_milestone text.now }
{
    match text {
        [b'm' | b'M', digits @ ..] => is_digits(digits),
        _ => false,
    }
}

// Whether a text is an `r` and digits.
fn is_revision(text: &[u8]) -> bool
    ensures { result ≡ is_revision text.now }
{
    match text {
        [b'r' | b'R', digits @ ..] => is_digits(digits),
        _ => false,
    }
}

// Whether a text is digits, and at most so many.
fn is_short(text: &[u8], most: usize) -> bool
    ensures { result ≡ is_short most text.now }
{
    text.len() <= most && is_digits(text)
}
