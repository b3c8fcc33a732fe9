//! The fault of lines that have no version.
ghost use Rattle.std.specs.Prelude.{◌≡◌, [], map, string_bytes, IfErr, IfOk, OnOk};
ghost use Rattle.version_commands.specs.{Fault.ends_in_return, Fault.scheme_at, Fault.Tells, Fault.ComesOfBad, lines.Arranged.policy};
ghost use Rattle.version_answers.specs.Message.{shown_front};
ghost use Rattle.version_lines.specs.Inputs.{plain_line};

use crate::lines::by_schemes::scheme_in;
use std::alloc::{AllocError, Global};
use std::fmt;
use version_answers::{NoVersion, Others, Remark, Shown, Spelling, shown_front};
use version_lines::{Column, Invalid, Line};
use version_runs::{Blamed, LineOptions, TaskFault, VersionPlace, column_in, line_text};
use version_schemes::Scheme;

/// Fails with the first of the lines that have no version, if there is one and the options ask for that.
pub fn refuse_bad<'w>(
    alloc: Global,
    options: &LineOptions<'_>,
    bad: &[Line<'_, 'w>],
) -> Result<(), TaskFault<'w>>
    ensures none { OnOk result (policy options.now ≡ Invalid.Fail → bad.now ≡ []) }
    ensures faults { IfErr result (ComesOfBad (policy options.now) options.now.place options.now.scheme_column
        (map plain_line bad.now)) }
{
    match policy(options) {
        Invalid::Fail => refuse_first(alloc, &options.place, options.scheme_column, bad),
        Invalid::Skip | Invalid::First | Invalid::Last => Ok(()),
    }
}

/// Returns what becomes of lines without a version: they are left out of the output where a file takes them.
pub fn policy(options: &LineOptions<'_>) -> Invalid
    ensures { result ≡ policy options.now }
{
    match options.invalid_to {
        Some(_) => Invalid::Skip,
        None => options.invalid,
    }
}

/// Fails with the first of the lines that have no version, if there is one.
pub fn refuse_first<'w>(
    alloc: Global,
    place: &VersionPlace<'_>,
    schemes: Option<Column<'_>>,
    bad: &[Line<'_, 'w>],
) -> Result<(), TaskFault<'w>>
    ensures none { OnOk result (bad.now ≡ []) }
    ensures faults { IfErr result (ComesOfBad Invalid.Fail place.now schemes.entry (map plain_line bad.now)) }
{
    match bad {
        [] => Ok(()),
        [first, others @ ..] => {
            let (text, remark) = told(alloc, place, schemes, first.text)?;
            Err(TaskFault::BadLine(Blamed {
                number: first.number,
                file: first.file,
                text,
                remark,
                ends_in_return: !place.crlf && ends_in_return(first.text),
                more: others.len(),
            }))
        }
    }
}

// Returns what a message shows of a line, and adds to it.
fn told(
    alloc: Global,
    place: &VersionPlace<'_>,
    schemes: Option<Column<'_>>,
    line: &[u8],
) -> Result<(String, Option<Remark>), AllocError>
    ensures { IfOk result (λ told. Tells place.now schemes.entry line.now (string_bytes told.0) told.1) }
{
    let text = column_in(place.column, line_text(place.crlf, line));
    match (scheme_at(place, schemes, line), text) {
        (Some(scheme), Some(text)) => {
            let spelling = Spelling {
                scheme,
                ..place.spelling
            };
            Ok((front(alloc, text)?, spelling.remark(text)))
        }
        (Some(_), None) => Ok((front(alloc, line)?, Some(Remark::NoColumn))),
        (None, _) => Ok((front(alloc, line)?, Some(Remark::NoScheme))),
    }
}

// Returns as much of a text as a message shows.
fn front(alloc: Global, text: &[u8]) -> Result<String, AllocError>
    ensures { IfOk result (λ front. string_bytes front ≡ shown_front text.now) }
{
    String::from_str(alloc, shown_front(text))
}

/// Returns the scheme of a line: that of all, or the one that a column names.
pub fn scheme_at(
    place: &VersionPlace<'_>,
    schemes: Option<Column<'_>>,
    line: &[u8],
) -> Option<Scheme>
    ensures { result ≡ scheme_at place.now schemes.entry line.now }
{
    match schemes {
        None => Some(place.spelling.scheme),
        Some(column) => scheme_in(place, column, line),
    }
}

/// Whether a line ends in a carriage return.
pub fn ends_in_return(line: &[u8]) -> bool
    ensures { result ≡ ends_in_return line.now }
{
    match line.last() {
        Some(byte) => *byte == b'\r',
        None => false,
    }
}
