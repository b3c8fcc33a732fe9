//! Calls that read an input, that append to a list of bytes, or of lines with the keys of their versions.
ghost use Rattle.std.specs.Prelude.{◌≡◌, IfOk, Some};
ghost use Rattle.version_lines.specs.Entry.{AreRead};
ghost use Rattle.version_schemes.specs.{any.AnyVersion.plain_any, any.Order.any_of, declared.scheme.Scheme.TheVariants.Mixed};

use crate::answers::{Made, NOT_BEGUN, Written, lend, put};
use crate::values;
use std::alloc::{AllocError, Global};
use version_lines::{GroupBy, KeyedLines, SortBy, Trouble, WholeLines, make_buffer, read_all};
use version_parts::key::{PartText, PieceBytes};
use version_schemes::{AnyVersion, Scheme};
use version_texts::VersioningRef;
use versions::{End, Kept, Versioning};

/// Writes the answer of a call.
pub fn answer(alloc: Global, call: &str, text: &str, output: &mut String) -> Written {
    match call {
        "read_all" => lend(alloc, line_of(alloc, text), read_line, output),
        "make_buffer" => put(make_buffer(alloc), output),
        "KeyedLines::new" => put(count_none(alloc, text), output),
        "KeyedLines::add" | "KeyedLines::keep_newest" => change_lines(alloc, call, text, output),
        "PieceBytes::append_to" | "KeyBytes::append_to" => append(alloc, call, text, output),
        "VersioningRef::append_key" | "VersioningRef::append_end" | "AnyVersion::append_key" => {
            append(alloc, call, text, output)
        }
        _ => values::answer(alloc, call, text, output),
    }
}

fn line_of(alloc: Global, text: &str) -> Made<String> {
    Ok(Some(format!(in alloc; "{text}\n")?))
}

fn read_line(line: &String, alloc: Global) -> Result<Vec<u8>, AllocError> {
    read_all(alloc, &mut line.as_bytes()).map_err(|_| AllocError)
}

// Writes a list of one byte, and then as a call leaves it that appends to it.
fn append(alloc: Global, call: &str, text: &str, output: &mut String) -> Written {
    let (Ok(Some(line)), Ok(mut list)) = (line_of(alloc, text), vec![in alloc; b'0'; 1]) else {
        return output.push_str(NOT_BEGUN);
    };
    write!(output, "{list:?}|")?;
    match append_to(alloc, call, line.as_str(), &mut list) {
        Ok(()) => write!(output, "{list:?}"),
        Err(trouble) => write!(output, "{trouble:?}|{list:?}"),
    }
}

fn append_to(alloc: Global, call: &str, line: &str, list: &mut Vec<u8>) -> Result<(), Trouble> {
    let text = line.trim_end();
    match (call, VersioningRef::new(text)) {
        ("PieceBytes::append_to", _) => Ok(PieceBytes::part(PartText::text(text)).append_to(list)?),
        ("KeyBytes::append_to", _) => append_owned_key(alloc, text, list),
        ("AnyVersion::append_key", _) => append_key_of_deb(text, list),
        ("VersioningRef::append_key", Some(version)) => Ok(version.append_key(list)?),
        (_, Some(version)) => Ok(version.append_end(End::AboveBegun(Kept::ButLast), list)?),
        (_, None) => Err(Trouble::System),
    }
}

fn append_owned_key(alloc: Global, text: &str, list: &mut Vec<u8>) -> Result<(), Trouble> {
    match Versioning::new(alloc, text)? {
        Some(version) => Ok(version.key_bytes().append_to(list)?),
        None => Err(Trouble::System),
    }
}

fn append_key_of_deb(text: &str, list: &mut Vec<u8>) -> Result<(), Trouble> {
    match AnyVersion::read(Scheme::Deb, text.as_bytes()) {
        Some(version) => Ok(version.append_key(list)?),
        None => Err(Trouble::System),
    }
}

fn count_none(alloc: Global, text: &str) -> Result<usize, AllocError> {
    let lines = KeyedLines::new(alloc, WholeLines, text.len())?;
    Ok(lines.count())
}

// Writes lines that are the same, and then as a call leaves them: it adds one, or keeps one.
fn change_lines(alloc: Global, call: &str, text: &str, output: &mut String) -> Written {
    let line = text.as_bytes();
    let Some(version) = AnyVersion::read(Scheme::Mixed, line) else {
        return output.push_str("no version");
    };
    let Ok(mut lines) = one_line(alloc, &version, line) else {
        return output.push_str(NOT_BEGUN);
    };
    if call == "KeyedLines::add" {
        put_lines(&lines, output)?;
        let answer = lines.add(&version, line);
        return put_changed(answer, &lines, output);
    }
    let Ok(()) = lines.add(&version, line) else {
        return output.push_str(NOT_BEGUN);
    };
    put_lines(&lines, output)?;
    let answer = lines.keep_newest(alloc, 1, &SameLines);
    put_changed(answer, &lines, output)
}

fn one_line<'a>(
    alloc: Global,
    version: &AnyVersion<'_>,
    line: &'a [u8],
) -> Result<KeyedLines<'a, WholeLines>, AllocError>
    requires { any_of Mixed line.now ≡ Some (plain_any version.now) }
    ensures { IfOk result (AreRead ⟦<WholeLines as SortBy>⟧.reads) }
{
    let mut lines = KeyedLines::new(alloc, WholeLines, line.len())?;
    lines.add(version, line)?;
    Ok(lines)
}

fn put_changed(
    answer: Result<(), AllocError>,
    lines: &KeyedLines<'_, WholeLines>,
    output: &mut String,
) -> Written {
    if let Err(refused) = answer {
        write!(output, "|{refused:?}")?;
    }
    output.push_str("|")?;
    put_lines(lines, output)
}

fn put_lines(lines: &KeyedLines<'_, WholeLines>, output: &mut String) -> Written {
    for place in 0..lines.count() {
        write!(output, "{:?}", lines.line(place))?;
    }
    Ok(())
}

// A line is of a group with those that are the same.
#[derive(Clone, Copy)]
struct SameLines;

impl GroupBy for SameLines {
    ghost group_of = { λ _ line. line };

    fn group<'a>(&self, line: &'a [u8]) -> &'a [u8] {
        line
    }
}
