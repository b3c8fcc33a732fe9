//! Columns that are asked for by their names in a header.
ghost use Rattle.std.specs.Prelude.{◌≡◌, [], map, None, Some, IfErr, IsSomeAnd, OnOk};
ghost use Rattle.version_commands.specs.lines.Ordered.{arrangement_by, by_name, first_unnamed, last_of, options_by, unless_named};
ghost use Rattle.version_runs.specs.Place.{line_text};
ghost use Rattle.version_lines.specs.Inputs.{plain_line, texts_of};

use version_lines::{Column, Line};
use version_runs::{Arrangement, ColumnNames, LineOptions, TaskFault, VersionPlace, line_text};

/// Fails with the first of the names of which a line has no column.
pub fn refuse_unnamed<'w>(names: &ColumnNames<'w>, line: &[u8]) -> Result<(), TaskFault<'w>>
    ensures none { OnOk result (first_unnamed names.now line.now ≡ None) }
    ensures faults { IfErr result (λ fault. IsSomeAnd (first_unnamed names.now line.now) (λ name. fault ≡ TaskFault.NoColumn name)) }
{
    refuse(names, line, names.version)?;
    refuse(names, line, names.group)?;
    refuse(names, line, names.scheme)
}

// Fails with a name, if a line has no column of it.
fn refuse<'w>(
    names: &ColumnNames<'w>,
    line: &[u8],
    name: Option<&'w str>,
) -> Result<(), TaskFault<'w>>
    ensures none { OnOk result (unless_named names.now line.now name.entry ≡ None) }
    ensures faults { IfErr result (λ fault. IsSomeAnd (unless_named names.now line.now name.entry) (λ name. fault ≡ TaskFault.NoColumn name)) }
{
    let Some(name) = name else {
        return Ok(());
    };
    match names.first.named(name.as_bytes(), line) {
        Some(_) => Ok(()),
        None => Err(TaskFault::NoColumn(name)),
    }
}

// Returns the column of a name in a line, if it has one; without a name the one that is asked for by its number.
fn by_name<'w>(
    names: &ColumnNames<'w>,
    line: &[u8],
    name: Option<&str>,
    by_number: Option<Column<'w>>,
) -> Option<Column<'w>>
    ensures { result ≡ by_name names.now line.now name.entry by_number.entry }
{
    match name {
        Some(name) => names.first.named(name.as_bytes(), line),
        None => by_number,
    }
}

/// Returns the options with the columns of names in a line.
pub fn options_by<'w>(line: &[u8], options: &LineOptions<'w>) -> LineOptions<'w>
    ensures { result ≡ options_by line.now options.now }
{
    let names = &options.names;
    LineOptions {
        arrangement: arrangement_by(line, names, options.arrangement),
        place: VersionPlace {
            column: by_name(names, line, names.version, options.place.column),
            ..options.place
        },
        scheme_column: by_name(names, line, names.scheme, options.scheme_column),
        ..*options
    }
}

// Returns what is written of lines, by the column of the name of groups in a line.
fn arrangement_by<'w>(
    line: &[u8],
    names: &ColumnNames<'w>,
    arrangement: Arrangement<'w>,
) -> Arrangement<'w>
    ensures { result ≡ arrangement_by line.now names.now arrangement.entry }
{
    match arrangement {
        Arrangement::Newest { count, group } => Arrangement::Newest {
            count,
            group: by_name(names, line, names.group, group),
        },
        other => other,
    }
}

/// Returns the line of a header that names its columns: the last one. It is empty where there is none.
pub fn names_line<'a>(options: &LineOptions<'_>, head: &[Line<'a, '_>]) -> &'a [u8]
    ensures { result.now ≡ line_text options.now.place.crlf (last_of [] (texts_of (map plain_line head.now))) }
{
    match head.last() {
        Some(line) => line_text(options.place.crlf, line.text),
        None => &[],
    }
}
