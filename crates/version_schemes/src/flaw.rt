//! Why a text is no version: what stands where it could become one no more.

ghost use Rattle.std.specs.Prelude.{◌≡◌, ◌≤◌, false, length, true, IfNone, IfSome, is_some};
ghost use Rattle.version_schemes.specs.Flaw.{IsFlaw, byte_before, ends_in_zero_led, has_byte, has_late_colon, has_wrong_number, is_mark, is_version, reason_after, reason_at, reason_of_byte, reason_text};
ghost use Rattle.version_schemes.specs.{Scheme.rules, declared.flaw.Reason.TheVariants.Empty, declared.flaw.Reason.TheVariants.NothingAfter};
ghost use Rattle.version_order.specs.Viable.{IsLongestViable};

use crate::by_scheme;
use crate::scheme::Scheme;
use version_order::{SchemeVersion, is_digits};

/// A mark, which stands between the parts of a version.
#[derive(Clone, Copy, Debug, PartialEq, Eq)]
pub enum Mark {
    Hyphen,
    Plus,
    Dot,
    Colon,
    Underscore,
    Tilde,
    Exclamation,
}

/// Why a text is no version of a scheme.
#[derive(Clone, Copy, Debug, PartialEq, Eq)]
pub enum Reason {
    /// It is empty.
    Empty,
    /// It ends after this mark, which something has to follow.
    NothingAfter(Mark),
    /// It ends where something has to follow.
    Unfinished,
    /// A space or a tab.
    Blank,
    /// Another control character.
    Control,
    /// A byte past ASCII.
    NotAscii,
    /// A mark of the scheme at the beginning, or after another.
    EmptyPart,
    /// A digit after a zero that a number can't begin with; or the text ends or has a mark after a number with a leading
    /// zero, which letters may follow.
    LeadingZero,
    /// A colon after a hyphen, or the text ends and has one: what follows the last hyphen has no colon.
    LateColon,
    /// Another byte.
    Other,
}

/// What keeps a text from being a version.
#[derive(Clone, Copy, Debug, PartialEq, Eq)]
pub struct Flaw {
    /// How many of its bytes could begin a version.
    pub place: usize,
    /// What stands there, or that the text ends there.
    pub reason: Reason,
}

impl Flaw {
    /// Returns what keeps a text from being a version of a scheme, for those who mend it; None for a version. In `mixed`
    /// it is of `1.2.3-` at 6 (nothing after the hyphen), of `1..2` at 2 (an empty part), of `1.2.3 ` at 5 (a blank).
    /// Takes time linear in the text.
    pub fn of(scheme: Scheme, text: &[u8]) -> Option<Flaw>
        ensures none { IfNone result (is_version scheme text.now ≡ true) }
        ensures some { IfSome result (λ flaw. IsFlaw scheme text.now flaw.place flaw.reason) }
    {
        if is_version(scheme, text) {
            return None;
        }
        let place = viable_length(scheme, text);
        Some(Flaw {
            place,
            reason: reason_at(scheme, text, place),
        })
    }
}

// Returns whether a text is a version.
fn is_version(scheme: Scheme, text: &[u8]) -> bool
    ensures { result ≡ is_version scheme text.now }
{
    by_scheme!(scheme, is_read(text))
}

// Returns why a text that could become a version up to a place is none.
fn reason_at(scheme: Scheme, text: &[u8], place: usize) -> Reason
    requires { place ≤ length text.now }
    ensures { result ≡ reason_at scheme text.now place }
{
    let last = byte_before(text, place);
    match (text.get(place), last) {
        (Some(byte), last) => reason_of_byte(scheme, &text[..place], last, *byte),
        (None, Some(last)) => reason_after(scheme, text, last),
        (None, None) => Reason::Empty,
    }
}

// Returns the byte before a place.
fn byte_before(text: &[u8], place: usize) -> Option<u8>
    ensures { result ≡ byte_before text.now place }
{
    if place == 0 {
        return None;
    }
    text.get(place - 1).copied()
}

// Returns the reason by the byte that a text can't go on with, what it begins with, and the last byte of that.
fn reason_of_byte(scheme: Scheme, begun: &[u8], last: Option<u8>, byte: u8) -> Reason
    ensures { result ≡ reason_of_byte scheme begun.now last byte }
{
    if byte == b' ' || byte == b'\t' {
        return Reason::Blank;
    }
    if byte < 32 || byte == 127 {
        return Reason::Control;
    }
    if byte >= 128 {
        return Reason::NotAscii;
    }
    if is_mark(scheme, byte) && last.is_none_or(|last| is_mark(scheme, last)) {
        return Reason::EmptyPart;
    }
    if byte.is_ascii_digit() && last == Some(b'0') {
        return Reason::LeadingZero;
    }
    if is_mark(scheme, byte) && has_wrong_number(scheme, begun) {
        return Reason::LeadingZero;
    }
    if is_mark(scheme, byte) && byte == b':' && has_byte(begun, b'-') {
        return Reason::LateColon;
    }
    Reason::Other
}

// Whether a number at its end keeps a text from being a version.
fn has_wrong_number(scheme: Scheme, text: &[u8]) -> bool
    ensures { result ≡ has_wrong_number scheme text.now }
{
    !is_version(scheme, text) && ends_in_zero_led(text)
}

// Whether a text ends in a number with a leading zero. Each run of digits is looked at once more.
fn ends_in_zero_led(text: &[u8]) -> bool
    ensures { result ≡ ends_in_zero_led false text.now }
{
    let mut digit_before = false;
    let mut left = text;
    while let [byte, rest @ ..] = left {
        if !digit_before && *byte == b'0' && is_digits(rest) {
            return true;
        }
        digit_before = byte.is_ascii_digit();
        left = rest;
    }
    false
}

// Whether a text has a byte.
fn has_byte(text: &[u8], wanted: u8) -> bool
    ensures { result ≡ has_byte wanted text.now }
{
    text.iter().any(|byte| *byte == wanted)
}

// Whether a text has a colon after a hyphen.
fn has_late_colon(text: &[u8]) -> bool
    ensures { result ≡ has_late_colon text.now }
{
    let mut left = text;
    while let [byte, rest @ ..] = left {
        if *byte == b'-' {
            return has_byte(rest, b':');
        }
        left = rest;
    }
    false
}

// Whether a byte is a mark of a scheme.
fn is_mark(scheme: Scheme, byte: u8) -> bool
    ensures { result ≡ is_mark scheme byte }
{
    scheme.facts().marks.iter().any(|mark| *mark == byte)
}

// Returns the reason by a text that has to go on, and its last byte.
fn reason_after(scheme: Scheme, text: &[u8], last: u8) -> Reason
    ensures { result ≡ reason_after scheme text.now last }
{
    match last {
        b'-' => Reason::NothingAfter(Mark::Hyphen),
        b'+' => Reason::NothingAfter(Mark::Plus),
        b'.' => Reason::NothingAfter(Mark::Dot),
        b':' => Reason::NothingAfter(Mark::Colon),
        b'_' => Reason::NothingAfter(Mark::Underscore),
        b'~' => Reason::NothingAfter(Mark::Tilde),
        b'!' => Reason::NothingAfter(Mark::Exclamation),
        _ if has_wrong_number(scheme, text) => Reason::LeadingZero,
        _ if has_late_colon(text) => Reason::LateColon,
        _ => Reason::Unfinished,
    }
}

impl Reason {
    /// Returns what is said of the text at that place, in English and without a full stop.
    pub fn text(self) -> &'static str
        ensures { result.now ≡ reason_text self }
    {
        match self {
            Reason::Empty => "nothing",
            Reason::NothingAfter(Mark::Hyphen) => "nothing after the hyphen",
            Reason::NothingAfter(Mark::Plus) => "nothing after the plus",
            Reason::NothingAfter(Mark::Dot) => "nothing after the dot",
            Reason::NothingAfter(Mark::Colon) => "nothing after the colon",
            Reason::NothingAfter(Mark::Underscore) => "nothing after the underscore",
            Reason::NothingAfter(Mark::Tilde) => "nothing after the tilde",
            Reason::NothingAfter(Mark::Exclamation) => "nothing after the exclamation mark",
            Reason::Unfinished => "an end too early",
            Reason::Blank => "a blank",
            Reason::Control => "a control character",
            Reason::NotAscii => "a character past ASCII",
            Reason::EmptyPart => "an empty part",
            Reason::LeadingZero => "a number with a leading zero",
            Reason::LateColon => "a colon after the hyphen",
            Reason::Other => "a character that can't stand there",
        }
    }
}

// Returns whether a text is a version.
fn is_read<'t, V: SchemeVersion<'t>>(text: &'t [u8]) -> bool
    ensures { result ≡ is_some (V.rules.read_as text.now) }
{
    V::read(text).is_some()
}

/// Returns how far a text could still become a version of a scheme: the length in bytes of its longest beginning that
/// some continuation makes one. A version has its own length, and so has what may still become one: `1.2.3-` has 6.
/// Where the text is longer, no continuation repairs the byte at that place: `1..2` has 2, `1.2.3 ` has 5 (of `mixed`).
/// Takes time linear in the text.
pub fn viable_length(scheme: Scheme, text: &[u8]) -> usize
    ensures { IsLongestViable (λ begun. is_some ((rules scheme).read_as begun)) text.now result }
{
    by_scheme!(scheme, length_of(text))
}

// Returns the same for the scheme of versions.
fn length_of<'t, V: SchemeVersion<'t>>(text: &[u8]) -> usize
    ensures { IsLongestViable (λ begun. is_some (V.rules.read_as begun)) text.now result }
{
    V::viable_length(text)
}
