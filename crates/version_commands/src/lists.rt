//! What differs between two lists of names with versions.
ghost use Rattle.std.specs.Prelude.{◌≡◌, ◌∷◌, ◌++◌, [], length, map, List, IfOk, OnOk};
ghost use Rattle.std.specs.Option.{option_map};
ghost use Rattle.version_commands.specs.Lists.{difference_text, first_rows, bad_lines_of, lines_against, name_line, plain_row, row_text, rows_of, version_of, AreNames, Row};
ghost use Rattle.version_commands.specs.{Hints.repeated};
ghost use Rattle.version_runs.specs.Place.{reads_of};
ghost use Rattle.version_lines.specs.{Inputs.plain_line, Lines.whole_line, Sort.version_in};
ghost use Rattle.version_schemes.specs.any.AnyVersion.{plain_any};

use crate::inputs::count_lines;
use crate::lines::pick::{EveryVersion, Takes, pick};
use std::alloc::{AllocError, Global};
use std::cmp::Ordering;
use std::collections::BTreeMap;
use version_lines::{Line, Lines};
use version_runs::{Lists, column_text, line_text};
use version_schemes::{AnyVersion, Scheme};

/// A name, and the version beside it.
#[derive(Clone, Copy)]
pub struct Named<'a> {
    name: &'a [u8],
    version: AnyVersion<'a>,
}

// Which of the two lists a name stands in.
#[derive(Clone, Copy)]
enum WhichList {
    Old,
    New,
}

/// The names of a list, each with the version of its first line.
#[derive(Drop)]
pub struct Names<'a> {
    // In the order of their first lines.
    rows: Vec<Named<'a>>,
    versions: BTreeMap<&'a [u8], AnyVersion<'a>>,
}

impl<'a> Names<'a> {
    // None yet.
    fn new(alloc: Global) -> Names<'a>
        ensures { AreNames [] result }
    {
        Names {
            rows: Vec::new(alloc),
            versions: BTreeMap::new(alloc),
        }
    }

    // Adds a name with the version of its line, unless an earlier line has the name.
    fn add(&mut self, name: &'a [u8], version: AnyVersion<'a>) -> Result<(), AllocError>
        ensures { OnOk result ((rows : List Row) → AreNames rows self.old
            → AreNames (rows ++ (name.now, plain_any version.entry) ∷ []) self.new) }
    {
        if self.versions.contains_key(name) {
            return Ok(());
        }
        self.versions.insert(name, version)?;
        self.rows.push(Named { name, version })?;
        Ok(())
    }

    /// Returns how many they are.
    pub fn count(&self) -> usize
        ensures { (rows : List Row) → AreNames rows self.now → result ≡ length (first_rows rows) }
    {
        self.rows.len()
    }

    // Returns the version of a name.
    fn version(&self, name: &[u8]) -> Option<&AnyVersion<'a>>
        ensures { (rows : List Row) → AreNames rows self.now
            → option_map (λ version. plain_any version.now) result
            ≡ version_of rows name.now }
    {
        self.versions.get(name)
    }
}

/// Returns the names of a list, which the file of a name holds, and its lines without a version, which have none.
pub fn read_names<'a, 'w: 'a>(
    alloc: Global,
    lists: &Lists<'_>,
    file: &'w str,
    text: &'a [u8],
) -> Result<(Names<'a>, Vec<Line<'a, 'w>>), AllocError>
    ensures names { IfOk result (λ read. AreNames (rows_of lists.now text.now) read.0) }
    ensures bad { IfOk result (λ read. map plain_line read.1.items ≡ bad_lines_of lists.now file.now text.now) }
{
    let mut list = NamedList {
        lists,
        names: Names::new(alloc),
    };
    let lines = Lines::of(lists.end, Some(file), text);
    let picked = pick(alloc, &mut list, &EveryVersion, lines)?;
    Ok((list.names, picked.bad))
}

/// Returns how many lines of a list have a version, and the name of an earlier line, by its names and its lines without
/// a version.
pub fn repeated(
    lists: &Lists<'_>,
    file: &str,
    text: &[u8],
    names: &Names<'_>,
    bad: &[Line<'_, '_>],
) -> usize
    requires names { AreNames (rows_of lists.now text.now) names.now }
    requires bad { map plain_line bad.now ≡ bad_lines_of lists.now file.now text.now }
    ensures { result ≡ repeated (rows_of lists.now text.now) }
{
    count_lines(lists.end, text)
        .saturating_sub(bad.len())
        .saturating_sub(names.count())
}

// A list, as its lines are read.
#[derive(Drop)]
struct NamedList<'l, 'w, 'a> {
    lists: &'l Lists<'w>,
    names: Names<'a>,
}

impl<'a> Takes<'a> for NamedList<'_, '_, 'a> {
    ghost use Rattle.std.specs.Prelude.{◌≡◌, ⊤};
    ghost use Rattle.std.specs.List.{flat_map};
    ghost use Rattle.version_commands.specs.{Lists.rows_of_line, Lists.AreNames};
    ghost use Rattle.version_runs.specs.Place.{reads_of};
    ghost use Rattle.version_lines.specs.Sort.{version_in};

    ghost versions = { λ list. version_in (reads_of list.lists.now.place) };

    ghost IsReady = { λ _. ⊤ };

    ghost HasTaken = { λ first now lines. (now.lists.now ≡ first.lists.now)
        × AreNames (flat_map (rows_of_line first.lists.now) lines) now.names };

    fn text(&self, line: &'a [u8]) -> Option<(Scheme, &'a [u8])> {
        let place = &self.lists.place;
        Some((place.spelling.scheme, place.text(line)))
    }

    fn take(&mut self, version: &AnyVersion<'a>, line: &'a [u8]) -> Result<(), AllocError> {
        let text = line_text(self.lists.place.crlf, line);
        self.names
            .add(column_text(Some(self.lists.name), text), *version)
    }
}

/// Adds what differs between two lists of names.
pub fn add_lists(
    old: &Names<'_>,
    new: &Names<'_>,
    end: u8,
    output: &mut Vec<u8>,
) -> Result<(), AllocError>
    ensures { (before after : List Row) → AreNames before old.now → AreNames after new.now
        → OnOk result (output.new.items ≡ output.old.items ++ difference_text end before after) }
{
    add_names(WhichList::Old, old, new, end, output)?;
    add_names(WhichList::New, new, old, end, output)
}

// Adds the lines for the names of a list, by the other list.
fn add_names(
    side: WhichList,
    names: &Names<'_>,
    others: &Names<'_>,
    end: u8,
    output: &mut Vec<u8>,
) -> Result<(), AllocError>
    ensures { (rows other : List Row) → AreNames rows names.now → AreNames other others.now
        → OnOk result (output.new.items
        ≡ output.old.items ++ lines_against (name_line side end) other (first_rows rows)) }
{
    for row in &names.rows {
        add_name(side, row, others.version(row.name), end, output)?;
    }
    Ok(())
}

// Adds the line for a name of a list, by its version in the other list.
fn add_name(
    side: WhichList,
    row: &Named<'_>,
    other: Option<&AnyVersion<'_>>,
    end: u8,
    output: &mut Vec<u8>,
) -> Result<(), AllocError>
    ensures { OnOk result (output.new.items ≡ output.old.items ++ name_line side end (plain_row row.now)
        (option_map (λ version. plain_any version.now) other.entry)) }
{
    match (side, other) {
        (WhichList::Old, None) => add_whole_row(b"removed ", row, end, output),
        (WhichList::Old, Some(new)) => match row.version.precedence(new) {
            Ordering::Less => add_change(b"raised ", row, new, end, output),
            Ordering::Greater => add_change(b"lowered ", row, new, end, output),
            Ordering::Equal => Ok(()),
        },
        (WhichList::New, None) => add_whole_row(b"added ", row, end, output),
        (WhichList::New, Some(_)) => Ok(()),
    }
}

// Adds the line for a name that one list has alone.
fn add_whole_row(
    word: &[u8],
    row: &Named<'_>,
    end: u8,
    output: &mut Vec<u8>,
) -> Result<(), AllocError>
    ensures { OnOk result (output.new.items
        ≡ output.old.items ++ whole_line end (row_text word.now (plain_row row.now))) }
{
    add_row(word, row, output)?;
    output.push(end)?;
    Ok(())
}

// Adds the line for a name whose version changed.
fn add_change(
    word: &[u8],
    row: &Named<'_>,
    new: &AnyVersion<'_>,
    end: u8,
    output: &mut Vec<u8>,
) -> Result<(), AllocError>
    ensures { OnOk result (output.new.items ≡ output.old.items
        ++ whole_line end (row_text word.now (plain_row row.now)
        ++ 32 ∷ (plain_any new.now).text)) }
{
    add_row(word, row, output)?;
    output.push(b' ')?;
    output.extend_from_slice(new.bytes())?;
    output.push(end)?;
    Ok(())
}

// Adds a word, a name and its version, with spaces between.
fn add_row(word: &[u8], row: &Named<'_>, output: &mut Vec<u8>) -> Result<(), AllocError>
    ensures { OnOk result (output.new.items
        ≡ output.old.items ++ row_text word.now (plain_row row.now)) }
{
    output.extend_from_slice(word)?;
    output.extend_from_slice(row.name)?;
    output.push(b' ')?;
    output.extend_from_slice(row.version.bytes())
}
