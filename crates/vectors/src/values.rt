//! How values compare, and what they print. Some have no text, and are given by their JSON forms, as serde derives
//! them.

use crate::answers::{Made, Written, compare, formed, hash, print, put, put_form, put_text, sign};
use crate::requirements::{self, by_hand, no_members};
use crate::text::{first_word, put_word};
use serde_json::from_str;
use std::alloc::{AllocError, Global};
use version_rules::Op;
use versions::key::compare_bytes;
use versions::{
    Chunk, Chunks, Last, MChunk, Mess, Release, Requirement, Requirements, SemVer, Sep, Version,
    Versioning,
};

/// Writes the answer to a question.
pub fn answer(alloc: Global, call: &str, given: &str, output: &mut String) -> Written {
    match call {
        "form" => form(alloc, first_word(given), output),
        "order" => order(alloc, first_word(given), output),
        "hashes" => hashes(alloc, first_word(given), output),
        "printed" => print_value(alloc, first_word(given), output),
        "compare_bytes" => compare_streams(alloc, first_word(given), output),
        "options" => options(alloc, given, output),
        _ => of_version(alloc, call, given, output),
    }
}

fn form(alloc: Global, (kind, form): (&str, &str), output: &mut String) -> Written {
    macro_rules! of {
        ($($type:ty),*) => {
            match kind {
                $(stringify!($type) => put_form::<$type>(alloc, form, output),)*
                _ => output.push_str("no such type"),
            }
        };
    }
    of!(Chunk, Chunks, Release, Last, MChunk, Sep, SemVer, Version)
}

// Writes how each value of a type compares with the next.
fn order(alloc: Global, (kind, values): (&str, &str), output: &mut String) -> Written {
    let (_, after) = first_word(values);
    for (one, other) in values.split(' ').zip(after.split(' ')) {
        put_word(output, compared(alloc, kind, one, other))?;
    }
    Ok(())
}

fn compared(alloc: Global, kind: &str, one: &str, other: &str) -> &'static str {
    match kind {
        "SemVer" => compare(SemVer::new(alloc, one), SemVer::new(alloc, other)),
        "Version" => compare(Version::new(alloc, one), Version::new(alloc, other)),
        "Mess" => compare(Mess::new(alloc, one), Mess::new(alloc, other)),
        "Versioning" => compare_both(Versioning::new(alloc, one), Versioning::new(alloc, other)),
        _ => compared_forms(alloc, kind, one, other),
    }
}

fn compare_both(one: Made<Versioning>, other: Made<Versioning>) -> &'static str {
    match (&one, &other) {
        (Ok(Some(one)), Ok(Some(other))) => {
            sign(one.precedence(other), one.cmp(other), one == other)
        }
        _ => "no versions",
    }
}

fn compared_forms(alloc: Global, kind: &str, one: &str, other: &str) -> &'static str {
    macro_rules! of {
        ($type:ty) => {
            compare::<$type>(formed(alloc, one), formed(alloc, other))
        };
    }
    match kind {
        "Chunks" => of!(Chunks),
        "Last" => of!(Last),
        "MChunk" => of!(MChunk),
        _ => of!(SemVer),
    }
}

// Writes for each value of a type the place of the first that has its hash.
fn hashes(alloc: Global, (kind, values): (&str, &str), output: &mut String) -> Written {
    for value in values.split(' ') {
        put_word(output, "")?;
        match hash_of(alloc, kind, value) {
            Some(own) => put_place(alloc, kind, values, own, output)?,
            None => output.push_str("no value")?,
        }
    }
    Ok(())
}

fn put_place(alloc: Global, kind: &str, values: &str, own: u64, output: &mut String) -> Written {
    let mut hashes = values.split(' ').map(|value| hash_of(alloc, kind, value));
    write!(output, "{:?}", hashes.position(|hash| hash == Some(own)))
}

fn hash_of(alloc: Global, kind: &str, value: &str) -> Option<u64> {
    match kind {
        "Op" => hash(Ok(Op::split(value.as_bytes()).map(|(op, _)| op))),
        "SemVer" => hash(SemVer::new(alloc, value)),
        "Version" => hash(Version::new(alloc, value)),
        "Mess" => hash(Mess::new(alloc, value)),
        "Versioning" => hash(Versioning::new(alloc, value)),
        "Requirement" => hash(Requirement::new(alloc, value)),
        "Requirements" => hash(Requirements::new(alloc, value)),
        _ => hash_of_form(alloc, kind, value),
    }
}

fn hash_of_form(alloc: Global, kind: &str, form: &str) -> Option<u64> {
    macro_rules! of {
        ($($type:ty),*) => {
            match kind {
                $(stringify!($type) => hash::<$type>(formed(alloc, form)),)*
                _ => None,
            }
        };
    }
    of!(Chunk, Chunks, Release, Last, MChunk, Sep)
}

fn print_value(alloc: Global, (kind, given): (&str, &str), output: &mut String) -> Written {
    match kind {
        "Op" => print(Ok(Op::split(given.as_bytes()).map(|(op, _)| op)), output),
        "Mess" => print(sections(alloc, given), output),
        "ByHand" => print(by_hand(alloc, given), output),
        "NoMembers" => print(no_members(alloc), output),
        _ => print(Requirements::new(alloc, given), output),
    }
}

// Writes how two streams of bytes compare, which are JSON lists.
fn compare_streams(alloc: Global, (one, other): (&str, &str), output: &mut String) -> Written {
    let (Ok(one), Ok(other)) = (from_str(alloc, one), from_str(alloc, other)) else {
        return output.push_str("no bytes");
    };
    let (one, other): (Vec<u8>, Vec<u8>) = (one, other);
    let order = compare_bytes(&mut one.iter().copied(), &mut other.iter().copied());
    write!(output, "{order:?}")
}

// Writes what `Debug` writes of a messy version, with options for the numbers in it.
fn options(alloc: Global, text: &str, output: &mut String) -> Written {
    match Mess::new(alloc, text) {
        Ok(Some(mess)) => put(
            format!(in alloc;
                "{mess:03?} {mess:#03?} {mess:#3?} {mess:x<#3?} {mess:x^#3?} {mess:x>#3?} {mess:+#?}"
            ),
            output,
        ),
        _ => output.push_str("no version"),
    }
}

// Questions about versions of any kind, each of a text or a form.
fn of_version(alloc: Global, call: &str, given: &str, output: &mut String) -> Written {
    let (kind, texts) = first_word(given);
    let (text, count) = first_word(texts);
    match call {
        "kind" => kinds(alloc, kind, texts, output),
        "key" | "numbers" | "conversions" | "pretty" => match version_of(alloc, kind, text) {
            Ok(Some(version)) => ask(alloc, call, &version, count, output),
            _ => output.push_str("no version"),
        },
        _ => requirements::answer(alloc, call, given, output),
    }
}

fn version_of(alloc: Global, kind: &str, given: &str) -> Made<Versioning> {
    match kind {
        "Version" => general(alloc, given),
        "Mess" => messy(alloc, given),
        _ => Versioning::new(alloc, given),
    }
}

fn general(alloc: Global, form: &str) -> Made<Versioning> {
    match from_str(alloc, form) {
        Ok(general) => Ok(Some(Versioning::General(general))),
        Err(_) => Ok(None),
    }
}

fn messy(alloc: Global, forms: &str) -> Made<Versioning> {
    match sections(alloc, forms)? {
        Some(complex) => Ok(Some(Versioning::Complex(complex))),
        None => Ok(None),
    }
}

// Returns a messy version of the chunks of one section, or of two with a colon between them.
fn sections(alloc: Global, forms: &str) -> Made<Mess> {
    let (first, second) = forms.split_once(';').unwrap_or((forms, ""));
    let Ok(chunks) = from_str(alloc, first) else {
        return Ok(None);
    };
    let next = match from_str(alloc, second) {
        Ok(chunks) => Some((Sep::Colon, Box::new(alloc, Mess { chunks, next: None })?)),
        Err(_) => None,
    };
    Ok(Some(Mess { chunks, next }))
}

// Writes the kinds of versions, and what they print.
fn kinds(alloc: Global, kind: &str, texts: &str, output: &mut String) -> Written {
    for text in texts.split(' ') {
        put_word(output, "")?;
        put_kind(version_of(alloc, kind, text), output)?;
    }
    Ok(())
}

fn put_kind(version: Made<Versioning>, output: &mut String) -> Written {
    match &version {
        Ok(Some(version)) => write!(output, "{:?} {version}", version.kind()),
        _ => output.push_str("no version"),
    }
}

fn ask(
    alloc: Global,
    call: &str,
    version: &Versioning,
    count: &str,
    output: &mut String,
) -> Written {
    match call {
        "key" => put_key(alloc, version, output),
        "numbers" => put_numbers(version, count, output),
        "conversions" => put_conversions(alloc, version, output),
        _ => put(format!(in alloc; "{version:#?}"), output),
    }
}

// Writes the key of a version, whether it is the same byte by byte, and what the version prints, also as a messy
// version.
fn put_key(alloc: Global, version: &Versioning, output: &mut String) -> Written {
    put(version.sort_key(alloc), output)?;
    write!(output, "|{}", is_key(alloc, version))?;
    put_text(alloc, version, output)?;
    let messy = as_messy(alloc, version)?;
    put_text(alloc, &messy, output)
}

fn is_key(alloc: Global, version: &Versioning) -> bool {
    match version.sort_key(alloc) {
        Ok(key) => version.key_bytes().eq(key.iter().copied()),
        Err(_) => false,
    }
}

fn as_messy(alloc: Global, version: &Versioning) -> Result<Mess, AllocError> {
    match version {
        Versioning::Ideal(ideal) => ideal.to_mess(alloc),
        Versioning::General(general) => general.to_mess(alloc),
        Versioning::Complex(complex) => complex.clone(alloc),
    }
}

// Writes how a strict version compares with its general version by precedence and what that prints, and the same of the
// general version and the messy one.
fn put_conversions(alloc: Global, version: &Versioning, output: &mut String) -> Written {
    let messy = Versioning::Complex(as_messy(alloc, version)?);
    match version {
        Versioning::Ideal(ideal) => put_general(ideal.to_version(alloc), version, &messy, output),
        _ => write!(output, "{:?} {messy}", version.precedence(&messy)),
    }
}

fn put_general(
    general: Result<Version, AllocError>,
    version: &Versioning,
    messy: &Versioning,
    output: &mut String,
) -> Written {
    let general = Versioning::General(general?);
    let orders = (version.precedence(&general), general.precedence(messy));
    write!(output, "{:?} {general} {:?} {messy}", orders.0, orders.1)
}

// Writes the numbers at the first places of a version, so many.
fn put_numbers(version: &Versioning, count: &str, output: &mut String) -> Written {
    for place in 0..count.parse().unwrap_or(0) {
        put_word(output, "")?;
        write!(output, "{:?}", version.nth(place))?;
    }
    Ok(())
}
