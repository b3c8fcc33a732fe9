//! `sort` and `newest` of a list with versions of many systems, whose schemes a column names.
ghost use Rattle.std.specs.Prelude.{◌≡◌, ◌++◌, [], map, true, IfOk, OnOk};
ghost use Rattle.std.specs.Option.{option_map};
ghost use Rattle.version_commands.specs.lines.Arranged.{is_reversed, arranged_as, arranged_by_schemes, is_among, scheme_in, schemes_after, version_as, version_by, with_scheme};
ghost use Rattle.version_commands.specs.lines.Picked.{kept_lines};
ghost use Rattle.version_runs.specs.Place.{reads_of};
ghost use Rattle.version_lines.specs.Entry.{lines_in, AreRead};
ghost use Rattle.version_schemes.specs.any.AnyVersion.{plain_any};

use crate::lines::arrange::{arrange, is_reversed};
use crate::lines::pick::Takes;
use crate::lines::place::ByVersion;
use std::alloc::{AllocError, Global};
use version_answers::Spelling;
use version_lines::{Column, KeyedLines};
use version_runs::{Arrangement, VersionPlace, column_text, line_text};
use version_schemes::{AnyVersion, Scheme};

/// Lines of many schemes that are kept.
#[derive(Drop)]
pub struct LinesOfSchemes<'w, 'a> {
    pub place: VersionPlace<'w>,
    /// The column that names the scheme of a line.
    pub column: Column<'w>,
    pub lines: Vec<&'a [u8]>,
}

impl<'a> Takes<'a> for LinesOfSchemes<'_, 'a> {
    ghost use Rattle.std.specs.Prelude.{◌≡◌, ⊤, map};
    ghost use Rattle.version_commands.specs.lines.Arranged.{version_by};

    ghost versions = { λ kept. version_by kept.place kept.column };

    ghost IsReady = { λ _. ⊤ };

    ghost HasTaken = { λ _ kept lines. map (λ line. line.now) kept.lines.items ≡ lines };

    fn text(&self, line: &'a [u8]) -> Option<(Scheme, &'a [u8])> {
        let scheme = scheme_in(&self.place, self.column, line)?;
        Some((scheme, self.place.text(line)))
    }

    fn take(&mut self, _version: &AnyVersion<'a>, line: &'a [u8]) -> Result<(), AllocError> {
        self.lines.push(line)?;
        Ok(())
    }
}

/// Arranges the lines of each scheme, one scheme after another, in the order in which these first appear.
pub fn arrange_by_schemes<'a>(
    alloc: Global,
    arrangement: Arrangement<'_>,
    place: &VersionPlace<'_>,
    column: Column<'_>,
    lines: &[&'a [u8]],
) -> Result<Vec<&'a [u8]>, AllocError>
    ensures { IfOk result (λ arranged. map (λ line. line.now) arranged.items
        ≡ arranged_by_schemes place.now column.entry arrangement.entry (map (λ line. line.now) lines.now)) }
{
    let schemes = schemes_in(alloc, place, column, lines)?;
    let mut arranged = Vec::with_capacity(alloc, lines.len())?;
    for scheme in schemes.as_slice() {
        add_scheme(
            alloc,
            arrangement,
            place,
            column,
            *scheme,
            lines,
            &mut arranged,
        )?;
    }
    Ok(arranged)
}

// Returns the schemes of lines in the order in which they first appear.
fn schemes_in(
    alloc: Global,
    place: &VersionPlace<'_>,
    column: Column<'_>,
    lines: &[&[u8]],
) -> Result<Vec<Scheme>, AllocError>
    ensures { IfOk result (λ schemes. schemes.items
        ≡ schemes_after place.now column.entry [] (map (λ line. line.now) lines.now)) }
{
    let mut schemes = Vec::new(alloc);
    for line in lines {
        add_scheme_of(place, column, line, &mut schemes)?;
    }
    Ok(schemes)
}

// Adds the scheme of a line to others, unless it is one of them.
fn add_scheme_of(
    place: &VersionPlace<'_>,
    column: Column<'_>,
    line: &[u8],
    schemes: &mut Vec<Scheme>,
) -> Result<(), AllocError>
    ensures { OnOk result (schemes.new.items ≡ with_scheme schemes.old.items (scheme_in place.now column.entry line.now)) }
{
    let Some(scheme) = scheme_in(place, column, line) else {
        return Ok(());
    };
    if !is_among(scheme, schemes.as_slice()) {
        schemes.push(scheme)?;
    }
    Ok(())
}

// Returns whether a scheme is one of these.
fn is_among(scheme: Scheme, schemes: &[Scheme]) -> bool
    ensures { result ≡ is_among scheme schemes.now }
{
    schemes
        .iter()
        .any(|other| other.number() == scheme.number())
}

// Adds the lines of a scheme, arranged.
fn add_scheme<'a>(
    alloc: Global,
    arrangement: Arrangement<'_>,
    place: &VersionPlace<'_>,
    column: Column<'_>,
    scheme: Scheme,
    lines: &[&'a [u8]],
    arranged: &mut Vec<&'a [u8]>,
) -> Result<(), AllocError>
    ensures { OnOk result (map (λ line. line.now) arranged.new.items
        ≡ map (λ line. line.now) arranged.old.items
        ++ arranged_as place.now column.entry arrangement.entry (map (λ line. line.now) lines.now) scheme) }
{
    let by = ByVersion {
        place: VersionPlace {
            spelling: Spelling {
                scheme,
                ..place.spelling
            },
            ..*place
        },
        reverse: is_reversed(&arrangement),
    };
    let mut of_scheme = lines_of_scheme(alloc, by, column, lines)?;
    arrange(alloc, arrangement, place.crlf, &mut of_scheme)?;
    for number in 0..of_scheme.count() {
        arranged.push(of_scheme.line(number))?;
    }
    Ok(())
}

// Returns the lines of a scheme with their keys.
fn lines_of_scheme<'w, 'a>(
    alloc: Global,
    by: ByVersion<'w>,
    column: Column<'_>,
    lines: &[&'a [u8]],
) -> Result<KeyedLines<'a, ByVersion<'w>>, AllocError>
    ensures read { IfOk result (AreRead (λ by. reads_of by.place)) }
    ensures by { IfOk result (λ of_scheme. of_scheme.by ≡ by.entry) }
    ensures lines { IfOk result (λ of_scheme. lines_in of_scheme
        ≡ kept_lines (version_as by.entry.place column.entry by.entry.place.spelling.scheme) (λ v. true)
        (map (λ line. line.now) lines.now)) }
{
    let mut of_scheme = KeyedLines::new(alloc, by, 0)?;
    for line in lines {
        if let Some(version) = version_as(&by, column, line) {
            of_scheme.add(&version, line)?;
        }
    }
    Ok(of_scheme)
}

// Returns the version of a line whose column names the scheme.
fn version_as<'a>(by: &ByVersion<'_>, column: Column<'_>, line: &'a [u8]) -> Option<AnyVersion<'a>>
    ensures { option_map plain_any result ≡ version_as by.now.place column.entry by.now.place.spelling.scheme line.now }
{
    let named = scheme_in(&by.place, column, line)?;
    if named.number() == by.place.spelling.scheme.number() {
        AnyVersion::read(by.place.spelling.scheme, by.place.text(line))
    } else {
        None
    }
}

/// Returns the scheme of a line, if its column names one.
pub fn scheme_in(place: &VersionPlace<'_>, column: Column<'_>, line: &[u8]) -> Option<Scheme>
    ensures { result ≡ scheme_in place.now column.entry line.now }
{
    Scheme::of_name(column_text(Some(column), line_text(place.crlf, line)))
}
