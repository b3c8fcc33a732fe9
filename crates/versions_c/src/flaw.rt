//! Why a text is no version of a scheme, and how far it could become one.

ghost use Rattle.std.specs.Prelude.{◌≡◌, ◌≢◌, None, false, true, IfSome};
ghost use Rattle.version_schemes.specs.{Flaw.is_version, Flaw.reason_at, Scheme.numbered, declared.flaw.Reason.TheVariants.NothingAfter};
ghost use Rattle.version_order.specs.Viable.{IsLongestViable};
ghost use Rattle.versions_c.specs.Schemes.{IsWhyWritten, reason_code, wrong_status};

use crate::schemes::write_text;
use crate::status::{IS_VERSION, NO_ROOM, NO_SCHEME, OK};
use version_schemes::{Flaw, Mark, Reason, Scheme};

/// The text is empty.
pub const EMPTY: u32 = 1;
/// It ends after a hyphen.
pub const AFTER_HYPHEN: u32 = 2;
/// It ends after a plus.
pub const AFTER_PLUS: u32 = 3;
/// It ends after a dot.
pub const AFTER_DOT: u32 = 4;
/// It ends after a colon.
pub const AFTER_COLON: u32 = 5;
/// It ends after an underscore.
pub const AFTER_UNDERSCORE: u32 = 6;
/// It ends after a tilde.
pub const AFTER_TILDE: u32 = 7;
/// It ends after an exclamation mark.
pub const AFTER_EXCLAMATION: u32 = 8;
/// It ends where something else has to follow.
pub const UNFINISHED: u32 = 9;
/// A space or a tab.
pub const BLANK: u32 = 10;
/// Another control character.
pub const CONTROL: u32 = 11;
/// A byte past ASCII.
pub const NOT_ASCII: u32 = 12;
/// A mark at the beginning, or after another.
pub const EMPTY_PART: u32 = 13;
/// A number with a leading zero: a digit stands there, or what ends it.
pub const LEADING_ZERO: u32 = 14;
/// Another byte.
pub const OTHER: u32 = 15;
/// A colon after a hyphen.
pub const LATE_COLON: u32 = 16;

/// Writes how far a text could become a version of a scheme, and why it is none.
#[unsafe(no_mangle)]
pub extern "C" fn versions_wrong(
    scheme: u32,
    text: &[u8],
    place: &mut usize,
    reason: &mut u32,
) -> i32
    ensures status { IfSome (numbered scheme) (λ scheme. result ≡ wrong_status (is_version scheme text.now)) }
    ensures no_scheme { numbered scheme ≡ None → result ≡ NO_SCHEME }
    ensures place { IfSome (numbered scheme)
        (λ scheme. result ≡ OK → IsLongestViable (is_version scheme) text.now place.new) }
    ensures reason { IfSome (numbered scheme)
        (λ scheme. result ≡ OK → reason.new ≡ reason_code (reason_at scheme text.now place.new)) }
    ensures kept_place { result ≢ OK → place.new ≡ place.old }
    ensures kept_reason { result ≢ OK → reason.new ≡ reason.old }
{
    let Some(scheme) = Scheme::of_number(scheme) else {
        return NO_SCHEME;
    };
    let Some(flaw) = Flaw::of(scheme, text) else {
        return IS_VERSION;
    };
    *place = flaw.place;
    *reason = reason_code(flaw.reason);
    OK
}

/// Writes why a text is no version of a scheme, in words.
#[unsafe(no_mangle)]
pub extern "C" fn versions_wrong_text(
    scheme: u32,
    text: &[u8],
    why: &mut [u8],
    why_len: &mut usize,
) -> i32
    ensures why { IfSome (numbered scheme) (λ scheme. is_version scheme text.now ≡ false →
        IsWhyWritten scheme text.now why.old why.new why_len.new result) }
    ensures right { IfSome (numbered scheme)
        (λ scheme. is_version scheme text.now ≡ true → result ≡ IS_VERSION) }
    ensures no_scheme { numbered scheme ≡ None → result ≡ NO_SCHEME }
    ensures kept { result ≢ OK → why.new ≡ why.old }
    ensures no_length { result ≢ OK → result ≢ NO_ROOM → why_len.new ≡ why_len.old }
{
    let Some(scheme) = Scheme::of_number(scheme) else {
        return NO_SCHEME;
    };
    let Some(flaw) = Flaw::of(scheme, text) else {
        return IS_VERSION;
    };
    write_text(flaw.reason.text().as_bytes(), why, why_len)
}

// Returns the number of a reason.
fn reason_code(reason: Reason) -> u32
    ensures { result ≡ reason_code reason }
{
    match reason {
        Reason::Empty => EMPTY,
        Reason::NothingAfter(Mark::Hyphen) => AFTER_HYPHEN,
        Reason::NothingAfter(Mark::Plus) => AFTER_PLUS,
        Reason::NothingAfter(Mark::Dot) => AFTER_DOT,
        Reason::NothingAfter(Mark::Colon) => AFTER_COLON,
        Reason::NothingAfter(Mark::Underscore) => AFTER_UNDERSCORE,
        Reason::NothingAfter(Mark::Tilde) => AFTER_TILDE,
        Reason::NothingAfter(Mark::Exclamation) => AFTER_EXCLAMATION,
        Reason::Unfinished => UNFINISHED,
        Reason::Blank => BLANK,
        Reason::Control => CONTROL,
        Reason::NotAscii => NOT_ASCII,
        Reason::EmptyPart => EMPTY_PART,
        Reason::LeadingZero => LEADING_ZERO,
        Reason::LateColon => LATE_COLON,
        Reason::Other => OTHER,
    }
}
