//! The time of each call on one long version, or on a long list and a long version, for each byte of its text. If the work
//! is linear, that time is the same for texts of any length. With the word `check` it makes the same calls and checks more
//! of the texts, and prints no times. Each call goes along a text by a loop, so a program's default stack is enough.

mod calls;
mod checks;
mod watch;

use calls::{on_list, on_tag, on_version};
use checks::{check_list, check_version};
use std::alloc::{AllocError, Global};
use std::io;
use std::num::nearest_usize_to_f64;
use versions::Kind;
use watch::Watch;

const USAGE: &str =
    "usage: vectors [check] SHAPE MEGABYTES; SHAPE is signs, colons, nines, letters, dots, parts, metadata, or of a list \
    zeros, digits, words, epochs, or signs_of_a_tag";

const ROUNDS: u8 = 3;

// The shapes of versions, with their kinds: sections of a messy version, each inside the one before it, with two signs;
// one number, one part of a general version, many parts, parts of letters and digits, and the metadata of a strict
// version. A text begins with the first piece, and goes on with the second.
const VERSIONS: [(&str, Kind, &str, &str); 7] = [
    ("signs", Kind::Complex, "1", "_1"),
    ("colons", Kind::Complex, "1", ":1"),
    ("nines", Kind::Complex, "9", "9"),
    ("letters", Kind::General, "a", "a"),
    ("dots", Kind::General, "1", ".1"),
    ("parts", Kind::General, "1.abcdef2", ".1.abcdef2"),
    ("metadata", Kind::Ideal, "1.2.3+a", "a"),
];

// The shapes of lists, each with a version that all members match: the pieces of both, and the version's end.
const LISTS: [(&str, [&str; 5]); 4] = [
    ("zeros", [">0", ",>0", "0", "0", "1"]),
    ("digits", [">1.0", ",>1.0", "1.9", "9", ""]),
    ("words", [">=1a", ",>=1a", "1a", "a", ""]),
    ("epochs", [">0:0", ",>0:0", "0", "0", "1:1"]),
];

// The shape of a tag in which no version begins.
const TAG: &str = "signs_of_a_tag";

/// Makes the calls that the words of a command name.
pub fn grow(rt: &HostRuntime, words: &[String]) -> io::Result<()> {
    match words {
        [word, shape, megabytes] if word.as_str() == "check" => {
            check(rt, shape.as_str(), bytes_of(megabytes.as_str()))
        }
        [shape, megabytes] => time(rt, shape.as_str(), bytes_of(megabytes.as_str())),
        _ => println!(rt; "{USAGE}"),
    }
}

// Returns how many bytes there are in megabytes.
fn bytes_of(megabytes: &str) -> Option<usize> {
    megabytes.parse::<usize>().ok()?.checked_mul(1_000_000)
}

// Prints a line for each call, with the nanoseconds for each byte of the text.
fn time(rt: &HostRuntime, name: &str, bytes: Option<usize>) -> io::Result<()> {
    let mut watch = Watch::new(rt);
    let mut length = None;
    for _ in 0..ROUNDS {
        length = make_calls(rt, &mut watch, name, bytes, false)?;
    }
    let Some(length) = length else {
        return println!(rt; "{USAGE}");
    };
    watch.check()?;
    for (call, time) in &watch.least {
        let of_a_byte = time.as_secs_f64() * 1e9 / nearest_usize_to_f64(length);
        println!(rt; "{call} {of_a_byte:.2}")?;
    }
    Ok(())
}

// Prints a line for a shape, with the length of a text and the calls whose results were checked.
fn check(rt: &HostRuntime, name: &str, bytes: Option<usize>) -> io::Result<()> {
    let mut watch = Watch::new(rt);
    let Some(length) = make_calls(rt, &mut watch, name, bytes, true)? else {
        return println!(rt; "{USAGE}");
    };
    watch.check()?;
    print!(rt; "{name} of {length} bytes:")?;
    for (call, _) in &watch.least {
        print!(rt; " {call}")?;
    }
    println!(rt)
}

// Makes the calls on a text of the shape, and returns the text's length.
fn make_calls(
    rt: &HostRuntime,
    watch: &mut Watch<'_>,
    name: &str,
    bytes: Option<usize>,
    is_checked: bool,
) -> io::Result<Option<usize>> {
    let Some(bytes) = bytes else {
        return Ok(None);
    };
    for shape in VERSIONS {
        if shape.0 == name {
            return Ok(Some(of_version(rt, watch, shape, bytes, is_checked)?));
        }
    }
    for (shape, pieces) in LISTS {
        if shape == name {
            return Ok(Some(of_list(rt, watch, pieces, bytes, is_checked)?));
        }
    }
    if name == TAG {
        return Ok(Some(of_tag(rt, watch, bytes)?));
    }
    Ok(None)
}

fn of_version(
    rt: &HostRuntime,
    watch: &mut Watch<'_>,
    (_, kind, front, further): (&str, Kind, &str, &str),
    bytes: usize,
    is_checked: bool,
) -> io::Result<usize> {
    let text = filled(rt.alloc(), front, further, bytes)?;
    on_version(rt, watch, text.as_str())?;
    if is_checked {
        check_version(rt, text.as_str(), kind)?;
    }
    Ok(text.len())
}

fn of_list(
    rt: &HostRuntime,
    watch: &mut Watch<'_>,
    [member, further_member, front, further, end]: [&str; 5],
    bytes: usize,
    is_checked: bool,
) -> io::Result<usize> {
    let list = filled(rt.alloc(), member, further_member, bytes)?;
    let mut version = filled(rt.alloc(), front, further, bytes)?;
    version.push_str(end)?;
    on_list(rt, watch, list.as_str(), version.as_str())?;
    if is_checked {
        check_list(rt, list.as_str(), front, end)?;
    }
    Ok(list.len())
}

fn of_tag(rt: &HostRuntime, watch: &mut Watch<'_>, bytes: usize) -> io::Result<usize> {
    let tag = filled(rt.alloc(), "-", "v-", bytes)?;
    on_tag(watch, tag.as_bytes())?;
    Ok(tag.len())
}

// Returns a text that goes on as it began, of as many bytes or a few more.
fn filled(alloc: Global, front: &str, further: &str, bytes: usize) -> Result<String, AllocError> {
    let mut text = String::from_str(alloc, front)?;
    for _ in 0..bytes {
        if text.len() >= bytes {
            break;
        }
        text.push_str(further)?;
    }
    Ok(text)
}
