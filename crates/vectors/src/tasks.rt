//! What people ask of versions.

use crate::answers::Written;
use crate::text::{bytes_of, first_word, last_word, put_word};
use std::alloc::Global;
use version_requirements::{RequirementsRef, Texts, Wanted, conflict_in, newest_of, why_not};
use version_tasks::{Next, Stability, next_of, stability_of, version_after_prefix, version_in_tag};
use version_texts::VersioningRef;

/// Writes the answer to a question.
pub fn answer(alloc: Global, call: &str, given: &str, output: &mut String) -> Written {
    match call {
        "version_in_tag" => in_tag(alloc, given, output),
        "version_after_prefix" => after_prefix(last_word(given), output),
        "stability_of" => stabilities(given, output),
        "next_of" => next(alloc, last_word(given), output),
        "difference" => difference(first_word(given), output),
        "why_not" => exclude(last_word(given), output),
        "conflict_in" => write!(output, "{:?}", conflict_in(given.as_bytes())),
        "newest_of" => newest(alloc, given, output),
        _ => output.push_str("no such call"),
    }
}

fn in_tag(alloc: Global, text: &str, output: &mut String) -> Written {
    let tag = bytes_of(alloc, text)?;
    put_version(version_in_tag(tag.as_slice()), output)
}

fn after_prefix((prefix, name): (&str, &str), output: &mut String) -> Written {
    put_version(
        version_after_prefix(prefix.as_bytes(), name.as_bytes()),
        output,
    )
}

fn put_version(version: Option<VersioningRef<'_>>, output: &mut String) -> Written {
    match version {
        Some(version) => output.push_str(version.text()),
        None => output.push_str("none"),
    }
}

fn stabilities(texts: &str, output: &mut String) -> Written {
    for text in texts.split(' ') {
        put_word(output, "")?;
        match VersioningRef::new(text) {
            Some(version) => write!(output, "{:?}", stability_of(&version))?,
            None => output.push_str("no version")?,
        }
    }
    Ok(())
}

fn next(alloc: Global, (text, place): (&str, &str), output: &mut String) -> Written {
    let (Some(version), Ok(place)) = (VersioningRef::new(text), place.parse()) else {
        return output.push_str("no version or no place");
    };
    match next_of(&version, place) {
        Some(next) => put_next(alloc, &next, output),
        None => output.push_str("none"),
    }
}

// Writes what a version prints that comes next, and whether it is written the same.
fn put_next(alloc: Global, next: &Next<'_>, output: &mut String) -> Written {
    write!(output, "{next}")?;
    let mut written = vec![in alloc; b'!'; next.length()]?;
    next.write(written.as_mut_slice());
    let is_same = written.as_slice() == output.as_bytes();
    write!(output, "|{is_same}")
}

// Writes where two versions differ, in both directions.
fn difference((one, other): (&str, &str), output: &mut String) -> Written {
    match (VersioningRef::new(one), VersioningRef::new(other)) {
        (Some(one), Some(other)) => {
            let both = (one.difference(&other), other.difference(&one));
            write!(output, "{both:?}")
        }
        _ => output.push_str("no versions"),
    }
}

fn exclude((list, text): (&str, &str), output: &mut String) -> Written {
    match VersioningRef::new(text) {
        Some(version) => write!(output, "{:?}", why_not(list.as_bytes(), &version)),
        None => output.push_str("no version"),
    }
}

// Writes the place of the newest of several texts. Before them stand `tags` or `texts`, a list or `-`, and `Stable` or
// `-`.
fn newest(alloc: Global, given: &str, output: &mut String) -> Written {
    let (place, given) = first_word(given);
    let (list, given) = first_word(given);
    let mut words = given.split(' ');
    let least = match words.next() {
        Some("Stable") => Some(Stability::Stable),
        _ => None,
    };
    let mut texts = Vec::new(alloc);
    for word in words {
        texts.push(word.as_bytes())?;
    }
    let list = RequirementsRef::new(list);
    let wanted = wanted_by(place == "tags", list.as_ref(), least);
    put_newest(texts.as_slice(), wanted, output)
}

fn wanted_by<'a>(
    in_tags: bool,
    list: Option<&'a RequirementsRef<'a>>,
    least: Option<Stability>,
) -> Wanted<'a> {
    Wanted {
        in_tags,
        list,
        least,
    }
}

fn put_newest(texts: &[&[u8]], wanted: Wanted<'_>, output: &mut String) -> Written {
    match newest_of(&Texts { texts, wanted }) {
        Some((place, _)) => write!(output, "{place}"),
        None => output.push_str("none"),
    }
}
