//! Sets of versions, read from texts: their forms in the caller's buffers, and why a text is none.

ghost use Rattle.std.specs.Prelude.{◌≡◌, ◌≢◌, ◌<◌, None, IfErr, IfOk, IfSome, length};
ghost use Rattle.std.specs.Option.{option_map};
ghost use Rattle.version_schemes.specs.Scheme.{numbered, rules, scheme_number};
ghost use Rattle.version_sets.specs.{Comparison.ends_with, Form.form_bytes, Reader.IsUnread, Reading.fault_of, Set.reason_text, declared.read.comparison.Comparison.TheVariants.Equal};
ghost use Rattle.version_order.specs.keys.Sinks.{saturated};
ghost use Rattle.versions_c.specs.{Schemes.reading_by, Schemes.room_by, Sets.reason_code, Sets.wrong_set_status, Sets.IsForm, Sets.IsRead, Written.IsWritten};

use crate::schemes::write_text;
use crate::status::{NO_ROOM, NO_SCHEME, NO_SET, NO_VERSION, NO_WRONG_MEMBER, OK};
use version_order::SchemeVersion;
use version_schemes::{Scheme, by_scheme};
use version_sets::{Fault, Reason, Slip, Unread, find_fault, read_set, set_room, write_tied};

/// A member has to come.
pub const NO_MEMBER: u32 = 1;
/// A version has to come, after an operator.
pub const NO_VERSION_BEHIND: u32 = 2;
/// A version has no operator before it.
pub const NO_OPERATOR: u32 = 3;
/// A bar stands alone.
pub const ONE_BAR: u32 = 4;
/// What follows an operator is no version.
pub const NOT_VERSION: u32 = 5;
/// `.*` stands after another operator than `=`, `==` and `!=`.
pub const STAR: u32 = 6;
/// `.*` stands behind more than an epoch and parts.
pub const NOT_BARE: u32 = 7;
/// The versions of the scheme have no parts.
pub const NO_PARTS: u32 = 8;
/// The version begins with v and a digit.
pub const LETTER_V: u32 = 9;
/// The version has a part x.
pub const PART_X: u32 = 10;
/// The version has no digit.
pub const NO_DIGIT: u32 = 11;
/// `<<` or `>>` stands in a set of another scheme than Debian's.
pub const NOT_DOUBLED: u32 = 12;

// So many bytes hold most sets while they are read: their texts are read once.
const SHORT: usize = 512;

/// Writes the form of a set of a scheme that a text is.
#[unsafe(no_mangle)]
pub extern "C" fn versions_set(
    scheme: u32,
    text: &[u8],
    form: &mut [u8],
    form_len: &mut usize,
) -> i32
    ensures set { IfSome (numbered scheme) (λ scheme. IsRead (rules scheme) (scheme_number scheme)
        text.now form.old form.new form_len.new result) }
    ensures no_scheme { numbered scheme ≡ None → result ≡ NO_SCHEME }
    ensures kept { result ≢ OK → result ≢ NO_ROOM → form.new ≡ form.old }

    // Where there is no form there is no length.
    ensures no_length { result ≢ OK → result ≢ NO_ROOM → form_len.new ≡ form_len.old }
{
    let Some(scheme) = Scheme::of_number(scheme) else {
        return NO_SCHEME;
    };
    let mut short = [0; SHORT];
    let room = SHORT.min(form.len());
    match read_by(scheme, text, &mut short[..room]) {
        Ok(length) => {
            form[..length].copy_from_slice(&short[..length]);
            *form_len = length;
            OK
        }
        Err(Unread::Wrong(_)) => NO_SET,
        Err(Unread::NoRoom) => read_long(scheme, text, form, form_len),
    }
}

// Writes the form of a set of a scheme that a text is, which is read into the buffer: so a text that is none has to be
// known before.
fn read_long(scheme: Scheme, text: &[u8], form: &mut [u8], form_len: &mut usize) -> i32
    ensures set { IsRead (rules scheme) (scheme_number scheme) text.now form.old form.new form_len.new result }
    ensures kept { result ≢ OK → result ≢ NO_ROOM → form.new ≡ form.old }
    ensures no_length { result ≢ OK → result ≢ NO_ROOM → form_len.new ≡ form_len.old }
{
    if fault_in(scheme, text).is_some() {
        return NO_SET;
    }
    let Ok(length) = read_by(scheme, text, form) else {
        *form_len = room_by(scheme, text);
        return NO_ROOM;
    };
    *form_len = length;
    OK
}

// Reads a set of a scheme into a buffer.
fn read_by(scheme: Scheme, text: &[u8], form: &mut [u8]) -> Result<usize, Unread>
    ensures ok { IfOk result (IsForm (scheme_number scheme) (reading_by (rules scheme) text.now) form.new) }
    ensures wrong { IfErr result (λ unread. IsUnread unread (reading_by (rules scheme) text.now)
        (length form.old < room_by (rules scheme) text.now)) }
{
    by_scheme!(scheme, read_form(text, form))
}

// Reads a set into a buffer.
#[tactic(auto, unfolding(crate::specs::Schemes::reading_by))]
fn read_form<'t, V: SchemeVersion<'t>>(text: &'t [u8], form: &mut [u8]) -> Result<usize, Unread>
    ensures ok { IfOk result (IsForm V.rules.facts.number (reading_by V.rules text.now) form.new) }
    ensures wrong { IfErr result (λ unread. IsUnread unread (reading_by V.rules text.now)
        (length form.old < room_by V.rules text.now)) }
{
    read_set::<V>(V::facts().number, text, form)
}

// Returns a size of buffer that is enough for the form of a text.
fn room_by(scheme: Scheme, text: &[u8]) -> usize
    ensures { result ≡ saturated (room_by (rules scheme) text.now) }
{
    by_scheme!(scheme, set_room(text))
}

/// Writes a size of buffer that is enough for the form of a text.
#[unsafe(no_mangle)]
pub extern "C" fn versions_set_bound(scheme: u32, text: &[u8], bound: &mut usize) -> i32
    ensures bound { IfSome (numbered scheme)
        (λ scheme. (result ≡ OK) × (bound.new ≡ saturated (room_by (rules scheme) text.now))) }
    ensures no_scheme { numbered scheme ≡ None → (result ≡ NO_SCHEME) × (bound.new ≡ bound.old) }
{
    let Some(scheme) = Scheme::of_number(scheme) else {
        return NO_SCHEME;
    };
    *bound = room_by(scheme, text);
    OK
}

/// Writes where a text is no set of a scheme, and why.
#[unsafe(no_mangle)]
pub extern "C" fn versions_set_wrong(
    scheme: u32,
    text: &[u8],
    place: &mut usize,
    reason: &mut u32,
) -> i32
    ensures status { IfSome (numbered scheme)
        (λ scheme. result ≡ wrong_set_status (fault_of (reading_by (rules scheme) text.now))) }
    ensures no_scheme { numbered scheme ≡ None → result ≡ NO_SCHEME }
    ensures wrong { IfSome (numbered scheme) (λ scheme. result ≡ OK → IfSome (fault_of (reading_by (rules scheme) text.now))
        (λ fault. (place.new ≡ fault.0) × (reason.new ≡ reason_code fault.1))) }
    ensures kept_place { result ≢ OK → place.new ≡ place.old }
    ensures kept_reason { result ≢ OK → reason.new ≡ reason.old }
{
    let Some(scheme) = Scheme::of_number(scheme) else {
        return NO_SCHEME;
    };
    let Some(fault) = fault_in(scheme, text) else {
        return NO_WRONG_MEMBER;
    };
    *place = fault.place;
    *reason = reason_code(fault.reason);
    OK
}

// Returns where a text is no set of a scheme, and why, or None if it is one.
fn fault_in(scheme: Scheme, text: &[u8]) -> Option<Fault>
    ensures { option_map (λ fault. (fault.place, fault.reason)) result
        ≡ fault_of (reading_by (rules scheme) text.now) }
{
    by_scheme!(scheme, fault_by(text))
}

// Returns where a text is no set, and why, or None if it is one.
#[tactic(auto, unfolding(crate::specs::Schemes::reading_by))]
fn fault_by<'t, V: SchemeVersion<'t>>(text: &'t [u8]) -> Option<Fault>
    ensures { option_map (λ fault. (fault.place, fault.reason)) result ≡ fault_of (reading_by V.rules text.now) }
{
    find_fault::<V>(text)
}

/// Writes why a text is no set of a scheme, as a sentence.
#[unsafe(no_mangle)]
pub extern "C" fn versions_set_wrong_text(
    scheme: u32,
    text: &[u8],
    why: &mut [u8],
    why_len: &mut usize,
) -> i32
    ensures why { IfSome (numbered scheme) (λ scheme. IfSome (fault_of (reading_by (rules scheme) text.now))
        (λ fault. IsWritten (reason_text fault.1) why.old why.new why_len.new result)) }
    ensures right { IfSome (numbered scheme)
        (λ scheme. fault_of (reading_by (rules scheme) text.now) ≡ None → result ≡ NO_WRONG_MEMBER) }
    ensures no_scheme { numbered scheme ≡ None → result ≡ NO_SCHEME }
    ensures kept { result ≢ OK → why.new ≡ why.old }
    ensures no_length { result ≢ OK → result ≢ NO_ROOM → why_len.new ≡ why_len.old }
{
    let Some(scheme) = Scheme::of_number(scheme) else {
        return NO_SCHEME;
    };
    let Some(fault) = fault_in(scheme, text) else {
        return NO_WRONG_MEMBER;
    };
    write_text(fault.reason.text().as_bytes(), why, why_len)
}

// Returns the number of a reason.
fn reason_code(reason: Reason) -> u32
    ensures { result ≡ reason_code reason }
{
    match reason {
        Reason::NoMember => NO_MEMBER,
        Reason::NoVersion => NO_VERSION_BEHIND,
        Reason::NoOperator => NO_OPERATOR,
        Reason::OneBar => ONE_BAR,
        Reason::NotVersion => NOT_VERSION,
        Reason::StarBehind => STAR,
        Reason::NotBare => NOT_BARE,
        Reason::NoParts => NO_PARTS,
        Reason::NotDoubled => NOT_DOUBLED,
        Reason::Slip(Slip::LetterV) => LETTER_V,
        Reason::Slip(Slip::PartX) => PART_X,
        Reason::Slip(Slip::NoDigit) => NO_DIGIT,
    }
}

/// Writes the form of the set of what ties with a version of a scheme.
#[unsafe(no_mangle)]
pub extern "C" fn versions_set_of_version(
    scheme: u32,
    text: &[u8],
    form: &mut [u8],
    form_len: &mut usize,
) -> i32
    ensures set { IfSome (numbered scheme) (λ scheme. IfSome ((rules scheme).read_as text.now)
        (λ v. IsWritten (form_bytes (scheme_number scheme) (ends_with Equal v)) form.old form.new form_len.new result)) }
    ensures no_version { IfSome (numbered scheme)
        (λ scheme. (rules scheme).read_as text.now ≡ None → result ≡ NO_VERSION) }
    ensures no_scheme { numbered scheme ≡ None → result ≡ NO_SCHEME }
    ensures kept { result ≢ OK → form.new ≡ form.old }
    ensures no_length { result ≢ OK → result ≢ NO_ROOM → form_len.new ≡ form_len.old }
{
    let Some(scheme) = Scheme::of_number(scheme) else {
        return NO_SCHEME;
    };
    by_scheme!(scheme, put_tied(text, form, form_len))
}

// Writes the form of the set of what ties with a version.
fn put_tied<'t, V: SchemeVersion<'t>>(text: &'t [u8], form: &mut [u8], form_len: &mut usize) -> i32
    ensures set { IfSome (V.rules.read_as text.now)
        (λ v. IsWritten (form_bytes V.rules.facts.number (ends_with Equal v)) form.old form.new form_len.new result) }
    ensures no_version { V.rules.read_as text.now ≡ None → result ≡ NO_VERSION }
    ensures kept { result ≢ OK → form.new ≡ form.old }
    ensures no_length { result ≢ OK → result ≢ NO_ROOM → form_len.new ≡ form_len.old }
{
    let Some(version) = V::read(text) else {
        return NO_VERSION;
    };
    *form_len = write_tied(V::facts().number, version, form);
    if *form_len > form.len() {
        return NO_ROOM;
    }
    OK
}
