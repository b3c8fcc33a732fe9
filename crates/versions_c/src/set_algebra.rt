//! Sets of versions by their forms: what is in them, what is made of two, and their intervals.

ghost use Rattle.std.specs.Prelude.{◌≡◌, ◌≢◌, ◌⊎◌, Err, IfErr, IfOk, ◌+◌, ◌≤◌, ◌<◌, ◌&&◌, ◌||◌, List, not, length, slice_index, IfSome, MatchOption, Bool, false, ℕ};
ghost use Rattle.std.specs.Result.{IsOkAnd};
ghost use Rattle.version_schemes.specs.Scheme.{numbered, rules};
ghost use Rattle.version_sets.specs.Form.{has, IsPart, Meet, Rise, ends_early, form_bytes, interval_at, intervals};
ghost use Rattle.version_sets.specs.Set.{by_rule, ends_of, left};
ghost use Rattle.versions_c.specs.Sets.{has_code, has_status, interval_status, scheme_status, IsInterval, IsMade, TellsEarly};
ghost use Rattle.versions_c.specs.{Ranges.one_if, Written.text_at, Written.AreOffsets, Written.IsWritten};

use crate::offsets::{answer_each, are_offsets};
use crate::status::{
    BAD_OFFSETS, NO_FORM, NO_INTERVAL, NO_ROOM, NO_SCHEME, NO_VERSION, OK, OTHER_SCHEME,
};
use version_order::SchemeVersion;
use version_schemes::{Scheme, by_scheme};
use version_sets::{Form, Merge, Rule, write_merge};

/// Writes the number of the scheme of a set.
#[unsafe(no_mangle)]
pub extern "C" fn versions_set_scheme(form: &[u8], scheme: &mut u32) -> i32
    ensures early { TellsEarly (ends_early form.now) result }
    ensures scheme { (number : ℕ) (ends : List (List ℕ)) → form.now ≡ form_bytes number ends
        → (result ≡ scheme_status (numbered number)) × (result ≡ OK → scheme.new ≡ number) }
    ensures kept { result ≢ OK → scheme.new ≡ scheme.old }
{
    let Some((number, _)) = Form::of(form) else {
        return NO_FORM;
    };
    let number = u32::from(number);
    if Scheme::of_number(number).is_none() {
        return NO_SCHEME;
    }
    *scheme = number;
    OK
}

/// Writes whether a version of its scheme is in a set.
#[unsafe(no_mangle)]
pub extern "C" fn versions_set_has(form: &[u8], text: &[u8], answer: &mut u8) -> i32
    ensures early { TellsEarly (ends_early form.now) result }
    ensures status { (scheme : ℕ) (ends : List (List ℕ)) → form.now ≡ form_bytes scheme ends
        → MatchOption (numbered scheme) (result ≡ NO_SCHEME)
        (λ scheme. result ≡ has_status ((rules scheme).read_as text.now)) }
    ensures has { (scheme : ℕ) (ends : List (List ℕ)) → form.now ≡ form_bytes scheme ends → Rise ends → result ≡ OK
        → IfSome (numbered scheme) (λ scheme. IfSome ((rules scheme).read_as text.now)
        (λ v. answer.new ≡ one_if (has ends v.key))) }
    ensures kept { result ≢ OK → answer.new ≡ answer.old }
{
    let Some((number, set)) = Form::of(form) else {
        return NO_FORM;
    };
    let Some(scheme) = Scheme::of_number(u32::from(number)) else {
        return NO_SCHEME;
    };
    by_scheme!(scheme, put_has(&set, text, answer))
}

// Writes whether a version is in a set.
fn put_has<'t, V: SchemeVersion<'t>>(set: &Form<'_>, text: &'t [u8], answer: &mut u8) -> i32
    ensures status { result ≡ has_status (V.rules.read_as text.now) }
    ensures has { Rise (ends_of set.now) → IfSome (V.rules.read_as text.now)
        (λ v. answer.new ≡ one_if (has (ends_of set.now) v.key)) }
    ensures kept { result ≢ OK → answer.new ≡ answer.old }
{
    let Some(version) = V::read(text) else {
        return NO_VERSION;
    };
    *answer = set.has(&version) as u8;
    OK
}

/// Writes whether each version of its scheme is in a set.
#[unsafe(no_mangle)]
pub extern "C" fn versions_set_has_all(
    form: &[u8],
    texts: &[u8],
    offsets: &[u64],
    answers: &mut [u8],
) -> i32
    ensures status { (scheme : ℕ) (ends : List (List ℕ)) → form.now ≡ form_bytes scheme ends
        → AreOffsets offsets.now (length texts.now) (length answers.old) → result ≡ scheme_status (numbered scheme) }
    ensures answers { (scheme : ℕ) (ends : List (List ℕ)) → form.now ≡ form_bytes scheme ends → Rise ends → result ≡ OK
        → IfSome (numbered scheme) (λ scheme. (i : ℕ) → i < length answers.old → slice_index answers.new i
        ≡ has_code ends ((rules scheme).read_as (text_at texts.now offsets.now i))) }
    ensures early { AreOffsets offsets.now (length texts.now) (length answers.old)
        → TellsEarly (ends_early form.now) result }
    ensures bad { ¬ (AreOffsets offsets.now (length texts.now) (length answers.old)) → result ≡ BAD_OFFSETS }
    ensures kept { result ≢ OK → answers.new ≡ answers.old }
{
    if !are_offsets(offsets, texts.len(), answers.len()) {
        return BAD_OFFSETS;
    }
    let Some((number, set)) = Form::of(form) else {
        return NO_FORM;
    };
    let Some(scheme) = Scheme::of_number(u32::from(number)) else {
        return NO_SCHEME;
    };
    answer_each(texts, offsets, answers, |text| has_code(scheme, &set, text));
    OK
}

// Returns the answer for a text: 1 if its version is in a set of its scheme, 0 if not, 2 if it is not a version.
fn has_code(scheme: Scheme, set: &Form<'_>, text: &[u8]) -> u8
    ensures { Rise (ends_of set.now) → result ≡ has_code (ends_of set.now) ((rules scheme).read_as text.now) }
{
    by_scheme!(scheme, answer_for(set, text))
}

// Returns the same for a version of one order.
fn answer_for<'t, V: SchemeVersion<'t>>(set: &Form<'_>, text: &'t [u8]) -> u8
    ensures { Rise (ends_of set.now) → result ≡ has_code (ends_of set.now) (V.rules.read_as text.now) }
{
    match V::read(text) {
        Some(version) => set.has(&version) as u8,
        None => 2,
    }
}

/// Writes the form of the set of what both sets have.
#[unsafe(no_mangle)]
pub extern "C" fn versions_set_and(
    one: &[u8],
    other: &[u8],
    form: &mut [u8],
    form_len: &mut usize,
) -> i32
    ensures early { TellsEarly (ends_early one.now || ends_early other.now) result }
    ensures made { (scheme : ℕ) (first second : List (List ℕ)) → one.now ≡ form_bytes scheme first
        → other.now ≡ form_bytes scheme second → Rise first → Rise second
        → IsMade (λ key. has first key && has second key) (length one.now + length other.now) scheme form.old form.new form_len.new result }
    ensures other { (scheme another : ℕ) (first second : List (List ℕ)) → one.now ≡ form_bytes scheme first
        → other.now ≡ form_bytes another second → scheme ≢ another → result ≡ OTHER_SCHEME }
    ensures kept { result ≢ OK → form.new ≡ form.old }
    ensures no_length { result ≢ OK → result ≢ NO_ROOM → form_len.new ≡ form_len.old }
{
    combine(Rule::Both, one, other, form, form_len)
}

/// Writes the form of the set of what one of two sets has, or both.
#[unsafe(no_mangle)]
pub extern "C" fn versions_set_or(
    one: &[u8],
    other: &[u8],
    form: &mut [u8],
    form_len: &mut usize,
) -> i32
    ensures early { TellsEarly (ends_early one.now || ends_early other.now) result }
    ensures made { (scheme : ℕ) (first second : List (List ℕ)) → one.now ≡ form_bytes scheme first
        → other.now ≡ form_bytes scheme second → Rise first → Rise second
        → IsMade (λ key. has first key || has second key) (length one.now + length other.now) scheme form.old form.new form_len.new result }
    ensures other { (scheme another : ℕ) (first second : List (List ℕ)) → one.now ≡ form_bytes scheme first
        → other.now ≡ form_bytes another second → scheme ≢ another → result ≡ OTHER_SCHEME }
    ensures kept { result ≢ OK → form.new ≡ form.old }
    ensures no_length { result ≢ OK → result ≢ NO_ROOM → form_len.new ≡ form_len.old }
{
    combine(Rule::Either, one, other, form, form_len)
}

// Writes the form of what a rule makes of two sets.
fn combine(rule: Rule, one: &[u8], other: &[u8], form: &mut [u8], form_len: &mut usize) -> i32
    ensures early { TellsEarly (ends_early one.now || ends_early other.now) result }
    ensures made { (scheme : ℕ) (first second : List (List ℕ)) → one.now ≡ form_bytes scheme first
        → other.now ≡ form_bytes scheme second → Rise first → Rise second
        → IsMade (λ key. by_rule rule (has first key) (has second key)) (length one.now + length other.now) scheme form.old form.new form_len.new result }
    ensures other { (scheme another : ℕ) (first second : List (List ℕ)) → one.now ≡ form_bytes scheme first
        → other.now ≡ form_bytes another second → scheme ≢ another → result ≡ OTHER_SCHEME }
    ensures kept { result ≢ OK → form.new ≡ form.old }
    ensures no_length { result ≢ OK → result ≢ NO_ROOM → form_len.new ≡ form_len.old }
{
    match of_one_scheme(one, other) {
        Ok((scheme, first, second)) => {
            write(scheme, Merge::of(rule, first, second), form, form_len)
        }
        Err(status) => status,
    }
}

// Returns the scheme of two sets, and both; or the status where bytes end too early, or the schemes are two.
fn of_one_scheme<'a>(one: &'a [u8], other: &'a [u8]) -> Result<(u8, Form<'a>, Form<'a>), i32>
    ensures ok { (scheme : ℕ) (first second : List (List ℕ)) → one.now ≡ form_bytes scheme first
        → other.now ≡ form_bytes scheme second
        → IsOkAnd result (λ sets. (sets.0 ≡ scheme) × (ends_of sets.1 ≡ first) × (ends_of sets.2 ≡ second)) }
    ensures other { (scheme another : ℕ) (first second : List (List ℕ)) → one.now ≡ form_bytes scheme first
        → other.now ≡ form_bytes another second → scheme ≢ another → result ≡ Err OTHER_SCHEME }
    ensures early { IfErr result (TellsEarly (ends_early one.now || ends_early other.now)) }
    ensures long { IfOk result (λ _. (ends_early one.now || ends_early other.now) ≡ false) }
    ensures err { IfErr result (λ status. (status ≡ NO_FORM) ⊎ (status ≡ OTHER_SCHEME)) }
{
    let Some((scheme, first)) = Form::of(one) else {
        return Err(NO_FORM);
    };
    let Some((another, second)) = Form::of(other) else {
        return Err(NO_FORM);
    };
    if scheme != another {
        return Err(OTHER_SCHEME);
    }
    Ok((scheme, first, second))
}

/// Writes the form of the set of all that a set has not.
#[unsafe(no_mangle)]
pub extern "C" fn versions_set_not(set: &[u8], form: &mut [u8], form_len: &mut usize) -> i32
    ensures early { TellsEarly (ends_early set.now) result }
    ensures made { (scheme : ℕ) (ends : List (List ℕ)) → set.now ≡ form_bytes scheme ends → Rise ends
        → IsMade (λ key. not (has ends key)) (length set.now + 17) scheme form.old form.new form_len.new result }
    ensures kept { result ≢ OK → form.new ≡ form.old }
    ensures no_length { result ≢ OK → result ≢ NO_ROOM → form_len.new ≡ form_len.old }
{
    let Some((scheme, ends)) = Form::of(set) else {
        return NO_FORM;
    };
    write(
        scheme,
        Merge::of(Rule::FirstAlone, Form::all(), ends),
        form,
        form_len,
    )
}

// Writes the form of what is made of two sets.
fn write(scheme: u8, merge: Merge<'_>, form: &mut [u8], form_len: &mut usize) -> i32
    ensures written { IsWritten (form_bytes scheme (left merge.entry)) form.old form.new form_len.new result }
    ensures kept { result ≢ OK → form.new ≡ form.old }
{
    *form_len = write_merge(scheme, merge, form);
    if *form_len > form.len() {
        return NO_ROOM;
    }
    OK
}

/// Writes whether another set has all that a set has.
#[unsafe(no_mangle)]
pub extern "C" fn versions_set_part_of(one: &[u8], other: &[u8], is_part: &mut u8) -> i32
    ensures early { TellsEarly (ends_early one.now || ends_early other.now) result }
    ensures part { (scheme : ℕ) (first second : List (List ℕ)) → one.now ≡ form_bytes scheme first
        → other.now ≡ form_bytes scheme second → Rise first → Rise second
        → (result ≡ OK) × ((b : Bool) × (is_part.new ≡ one_if b) × IsPart b (has first) (has second)) }
    ensures other { (scheme another : ℕ) (first second : List (List ℕ)) → one.now ≡ form_bytes scheme first
        → other.now ≡ form_bytes another second → scheme ≢ another → result ≡ OTHER_SCHEME }
    ensures kept { result ≢ OK → is_part.new ≡ is_part.old }
{
    match of_one_scheme(one, other) {
        Ok((_, first, second)) => *is_part = first.is_part_of(&second) as u8,
        Err(status) => return status,
    }
    OK
}

/// Writes whether two sets have a key in common.
#[unsafe(no_mangle)]
pub extern "C" fn versions_set_meets(one: &[u8], other: &[u8], meet: &mut u8) -> i32
    ensures early { TellsEarly (ends_early one.now || ends_early other.now) result }
    ensures meet { (scheme : ℕ) (first second : List (List ℕ)) → one.now ≡ form_bytes scheme first
        → other.now ≡ form_bytes scheme second → Rise first → Rise second
        → (result ≡ OK) × ((b : Bool) × (meet.new ≡ one_if b) × Meet b (has first) (has second)) }
    ensures other { (scheme another : ℕ) (first second : List (List ℕ)) → one.now ≡ form_bytes scheme first
        → other.now ≡ form_bytes another second → scheme ≢ another → result ≡ OTHER_SCHEME }
    ensures kept { result ≢ OK → meet.new ≡ meet.old }
{
    match of_one_scheme(one, other) {
        Ok((_, first, second)) => *meet = first.meets(&second) as u8,
        Err(status) => return status,
    }
    OK
}

/// Writes how many intervals a set has, whose form is checked whole.
#[unsafe(no_mangle)]
pub extern "C" fn versions_set_count(form: &[u8], count: &mut usize) -> i32
    ensures count { (scheme : ℕ) (ends : List (List ℕ)) → form.now ≡ form_bytes scheme ends → Rise ends
        → (result ≡ scheme_status (numbered scheme)) × (result ≡ OK → count.new ≡ intervals ends) }
    ensures whole { (result ≡ NO_FORM) ⊎ ((scheme : ℕ) × (ends : List (List ℕ)) × (form.now ≡ form_bytes scheme ends) × Rise ends) }
    ensures kept { result ≢ OK → count.new ≡ count.old }
{
    let Some((scheme, set)) = Form::whole(form) else {
        return NO_FORM;
    };
    if Scheme::of_number(u32::from(scheme)).is_none() {
        return NO_SCHEME;
    }
    *count = set.intervals();
    OK
}

/// Writes where the ends of the interval at a place lie in a form.
#[unsafe(no_mangle)]
pub extern "C" fn versions_set_interval(
    form: &[u8],
    place: usize,
    low: &mut usize,
    low_end: &mut usize,
    high: &mut usize,
    high_end: &mut usize,
) -> i32
    ensures early { TellsEarly (ends_early form.now) result }
    ensures interval { (scheme : ℕ) (ends : List (List ℕ)) → form.now ≡ form_bytes scheme ends
        → (result ≡ interval_status (interval_at ends place))
        × IsInterval form.now (interval_at ends place) (low.new, low_end.new) (high.new, high_end.new) }

    // In any bytes the ends lie within these.
    ensures low_within { result ≡ OK → (low.new ≤ low_end.new) × (low_end.new ≤ length form.now) }
    ensures high_within { result ≡ OK → (high.new ≤ high_end.new) × (high_end.new ≤ length form.now) }
    ensures kept_low { result ≢ OK → (low.new ≡ low.old) × (low_end.new ≡ low_end.old) }
    ensures kept_high { result ≢ OK → (high.new ≡ high.old) × (high_end.new ≡ high_end.old) }
{
    let Some((_, set)) = Form::of(form) else {
        return NO_FORM;
    };
    let Some(interval) = set.interval(place) else {
        return NO_INTERVAL;
    };
    let start = set.start();
    let above = interval.high.unwrap_or((0, 0));
    *low = start + interval.low.0;
    *low_end = start + interval.low.1;
    *high = start + above.0;
    *high_end = start + above.1;
    OK
}
