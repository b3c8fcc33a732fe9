//! What requirements and lists match, asked in every way, and the ranges of lists.

use crate::answers::{Made, Written, equal, put};
use crate::owned::range_of;
use crate::tasks;
use crate::text::{agreed, bytes_of, first_word, put_word};
use std::alloc::Global;
use version_requirements::{RangeRef, RequirementRef, RequirementsRef, list_matches};
use version_texts::VersioningRef;
use versions::{Op, Range, Requirement, Requirements, Versioning};

// Members that match everything.
const MANY: &str =
    "*,*,*,*,*,*,*,*,*,*,*,*,*,*,*,*,*,*,*,*,*,*,*,*,*,*,*,*,*,*,*,*,*,*,*,*,*,*,*,*,";

/// Writes the answer to a question.
pub fn answer(alloc: Global, call: &str, given: &str, output: &mut String) -> Written {
    match call {
        "matches" => matches(alloc, first_word(given), output),
        "matches_by_hand" => matches_by_hand(alloc, first_word(given), output),
        "keeps" => keeps(alloc, first_word(given), output),
        "is_list" => is_list(alloc, given, output),
        "is_requirement" => output.push_str(agreed(&[Some(RequirementRef::new(given).is_some())])),
        "range" => range(alloc, given, output),
        "in_range" => in_range(alloc, first_word(given), output),
        _ => tasks::answer(alloc, call, given, output),
    }
}

// Writes for several versions whether a requirement or a list matches them: an owned one, a borrowed one, a list that
// keeps a text, and a long list, which keeps it or is asked once.
fn matches(alloc: Global, (text, versions): (&str, &str), output: &mut String) -> Written {
    let long = format!(in alloc; "{MANY}{text}")?;
    for version in versions.split(' ') {
        let answers = [
            matches_owned(alloc, text, version),
            matches_borrowed(text, version),
            keeps_bytes(text, version.as_bytes()),
            keeps_bytes(long.as_str(), version.as_bytes()),
            matches_once(long.as_str(), version),
        ];
        put_word(output, agreed(&answers))?;
    }
    Ok(())
}

fn matches_owned(alloc: Global, text: &str, version: &str) -> Option<bool> {
    let version = Versioning::new(alloc, version);
    match text.contains(',') {
        true => matched(
            Requirements::new(alloc, text),
            version,
            Requirements::matches,
        ),
        false => matched(Requirement::new(alloc, text), version, Requirement::matches),
    }
}

// Returns the answer about two values, or None where one isn't there.
fn matched<T, C>(made: Made<T>, version: Made<Versioning>, call: C) -> Option<bool>
where
    T: Drop,
    C: FnOnce(&T, &Versioning) -> bool + Drop,
    requires { C.IsAlwaysCallable call }
{
    match (&made, &version) {
        (Ok(Some(made)), Ok(Some(version))) => Some(call(made, version)),
        _ => None,
    }
}

fn matches_borrowed(text: &str, version: &str) -> Option<bool> {
    let version = VersioningRef::new(version)?;
    match text.contains(',') {
        true => Some(RequirementsRef::new(text)?.matches(&version)),
        false => Some(RequirementRef::new(text)?.matches(&version)),
    }
}

fn keeps_bytes(list: &str, version: &[u8]) -> Option<bool> {
    Some(RequirementsRef::from_bytes(list.as_bytes())?.keeps(version))
}

fn matches_once(list: &str, version: &str) -> Option<bool> {
    list_matches(list.as_bytes(), &VersioningRef::new(version)?)
}

// Writes whether a list keeps some bytes.
fn keeps(alloc: Global, (list, text): (&str, &str), output: &mut String) -> Written {
    let bytes = bytes_of(alloc, text)?;
    output.push_str(agreed(&[keeps_bytes(list, bytes.as_slice())]))
}

// Writes whether a text is a list of requirements.
fn is_list(alloc: Global, text: &str, output: &mut String) -> Written {
    let bytes = bytes_of(alloc, text)?;
    let answers = [
        Some(Requirements::is_spelled_by(text)),
        Some(RequirementsRef::new(text).is_some()),
        Some(RequirementsRef::from_bytes(bytes.as_slice()).is_some()),
    ];
    output.push_str(agreed(&answers))
}

// Writes whether a requirement that is made of an operator and perhaps a version matches a version. Without an operator
// it is the list without members.
fn matches_by_hand(alloc: Global, (text, version): (&str, &str), output: &mut String) -> Written {
    let version = Versioning::new(alloc, version);
    let answer = match text {
        "" => matched(no_members(alloc), version, Requirements::matches),
        _ => matched(by_hand(alloc, text), version, Requirement::matches),
    };
    output.push_str(agreed(&[answer]))
}

/// Returns the list without members, which no text has.
pub fn no_members(alloc: Global) -> Made<Requirements> {
    Ok(Some(Requirements(Vec::new(alloc))))
}

/// Returns the requirement of an operator of one byte, and of the version after it, if there is one.
pub fn by_hand(alloc: Global, text: &str) -> Made<Requirement> {
    let Some((op, _)) = Op::split(text.as_bytes()) else {
        return Ok(None);
    };
    let version = Versioning::new(alloc, text.get(1..).unwrap_or(""))?;
    Ok(Some(Requirement { op, version }))
}

// Writes the range of a list, and whether that of its text is the same.
fn range(alloc: Global, text: &str, output: &mut String) -> Written {
    put(range_of(alloc, text), output)?;
    let is_same = equal(range_of(alloc, text), range_of_text(alloc, text));
    write!(output, "|{is_same}")
}

fn range_of_text(alloc: Global, text: &str) -> Made<Range> {
    let Some(range) = RangeRef::from_bytes(text.as_bytes()) else {
        return Ok(None);
    };
    let mut low = vec![in alloc; 0; range.low_length()]?;
    let mut high = vec![in alloc; 0; range.high_length()]?;
    range.write_low(low.as_mut_slice());
    range.write_high(high.as_mut_slice());
    let high = match range.high {
        Some(_) => Some(high),
        None => None,
    };
    Ok(Some(Range {
        low,
        high,
        kinds: range.kinds,
        is_exact: range.is_exact,
    }))
}

// Writes for several versions whether they are in the range of a list, asked in three ways.
fn in_range(alloc: Global, (text, versions): (&str, &str), output: &mut String) -> Written {
    for version in versions.split(' ') {
        let owned = Versioning::new(alloc, version);
        let answers = [
            matched(range_of(alloc, text), owned, Range::contains),
            is_between(range_of(alloc, text), version),
            is_in_range_of_text(text, version),
        ];
        put_word(output, agreed(&answers))?;
    }
    Ok(())
}

fn is_between(range: Made<Range>, version: &str) -> Option<bool> {
    match (&range, VersioningRef::new(version)) {
        (Ok(Some(range)), Some(version)) => {
            let high = match &range.high {
                Some(high) => Some(high.as_slice()),
                None => None,
            };
            Some(version.is_in(range.low.as_slice(), high, range.kinds))
        }
        _ => None,
    }
}

fn is_in_range_of_text(text: &str, version: &str) -> Option<bool> {
    let version = VersioningRef::new(version)?;
    Some(RangeRef::from_bytes(text.as_bytes())?.has(&version))
}
