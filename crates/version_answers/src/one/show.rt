//! The command `show`: the kind of a version, its numbers and its other fields, in lines.

ghost use Rattle.std.specs.Prelude.{◌≡◌, ◌++◌, OnOk};
ghost use Rattle.std.specs.{Fmt.decimal, Option.option_map};
ghost use Rattle.version_answers.specs.One.{field_line, kind_name, show_text, shown_epoch, stability_name};
ghost use Rattle.version_rules.specs.grammar.Versioning.{versioning_nth};
ghost use Rattle.version_texts.specs.VersioningRef.{field_text, plain_versioning_ref};

use crate::pieces::add_pieces;
use itoa::Buffer;
use std::alloc::AllocError;
use std::str;
use version_rules::Kind;
use version_tasks::{Stability, stability_of};
use version_texts::{Field, LARGEST_EPOCH, VersioningRef};

/// Adds the block of lines for a version. What stands between two blocks is left to the caller.
pub fn add_show(
    version: &VersioningRef<'_>,
    end: u8,
    output: &mut Vec<u8>,
) -> Result<(), AllocError>
    ensures { OnOk result (output.new.items
        ≡ output.old.items ++ show_text end (plain_versioning_ref version.now)) }
{
    add_pieces(output, &[version.text().as_bytes(), &[end]])?;
    add_field(output, end, "kind", Some(kind_name(version.kind())))?;
    add_number_field(output, end, "epoch", epoch_of(version))?;
    add_number_field(output, end, "major", number_at(version, 0))?;
    add_number_field(output, end, "minor", number_at(version, 1))?;
    add_number_field(output, end, "patch", number_at(version, 2))?;
    add_field(
        output,
        end,
        "pre-release",
        field_of(version, Field::PreRelease),
    )?;
    add_field(output, end, "release", field_of(version, Field::Release))?;
    add_field(output, end, "metadata", field_of(version, Field::Metadata))?;
    add_field(
        output,
        end,
        "stability",
        Some(stability_name(stability_of(version))),
    )?;
    Ok(())
}

/// Returns the name of a kind.
pub(crate) fn kind_name(kind: Kind) -> &'static str
    ensures { result.now ≡ kind_name kind }
{
    match kind {
        Kind::Ideal => "ideal",
        Kind::General => "general",
        Kind::Complex => "complex",
    }
}

/// Returns the name of a stability.
pub(crate) fn stability_name(stability: Stability) -> &'static str
    ensures { result.now ≡ stability_name stability }
{
    match stability {
        Stability::Dev => "dev",
        Stability::Alpha => "alpha",
        Stability::Beta => "beta",
        Stability::Rc => "rc",
        Stability::Stable => "stable",
    }
}

/// Returns the epoch of a version, or `LARGEST_EPOCH` if it is larger.
pub(crate) fn epoch_of(version: &VersioningRef<'_>) -> Option<u64>
    ensures { result ≡ shown_epoch (plain_versioning_ref version.now) }
{
    Some(version.epoch()?.min(LARGEST_EPOCH))
}

/// Returns the number at a place of a version, counted from 0.
pub(crate) fn number_at(version: &VersioningRef<'_>, place: usize) -> Option<u64>
    ensures { result ≡ versioning_nth (plain_versioning_ref version.now) place }
{
    version.nth(place).map(u64::from)
}

/// Returns the text of a field of a version.
pub(crate) fn field_of<'a>(version: &VersioningRef<'a>, field: Field) -> Option<&'a str>
    ensures { option_map (λ text. text.now) result
        ≡ field_text field (plain_versioning_ref version.now) }
{
    let (start, end) = version.span(field)?;
    Some(str::from_utf8(&version.text().as_bytes()[start..end]).unwrap())
}

// Adds the line of a field, if there is a text for it.
fn add_field(
    output: &mut Vec<u8>,
    end: u8,
    name: &str,
    text: Option<&str>,
) -> Result<(), AllocError>
    ensures { OnOk result (output.new.items ≡ output.old.items
        ++ field_line end name.now (option_map (λ text. text.now) text.entry)) }
{
    match text {
        Some(text) => add_pieces(
            output,
            &[b"  ", name.as_bytes(), b": ", text.as_bytes(), &[end]],
        ),
        None => Ok(()),
    }
}

// Adds the line of a field whose text is a number, if there is one.
fn add_number_field(
    output: &mut Vec<u8>,
    end: u8,
    name: &str,
    number: Option<u64>,
) -> Result<(), AllocError>
    ensures { OnOk result (output.new.items
        ≡ output.old.items ++ field_line end name.now (option_map decimal number)) }
{
    match number {
        Some(number) => {
            let mut digits = Buffer::new();
            add_field(output, end, name, Some(digits.format(number)))
        }
        None => Ok(()),
    }
}
