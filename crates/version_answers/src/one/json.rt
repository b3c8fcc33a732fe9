//! The command `show --json`: a version as a JSON object.

ghost use Rattle.std.specs.Prelude.{◌≡◌, ◌++◌, false, OnOk};
ghost use Rattle.std.specs.Option.{option_map};
ghost use Rattle.serde_json.specs.{View.view, Written.compact_text, Written.has_float};
ghost use Rattle.version_answers.specs.One.{json_line, json_of, number_or_null, text_or_null};
ghost use Rattle.version_texts.specs.VersioningRef.{plain_versioning_ref};

use crate::one::show::{epoch_of, field_of, kind_name, number_at, stability_name};
use crate::pieces::add_pieces;
use serde_json::Value;
use std::alloc::{AllocError, Global};
use version_tasks::stability_of;
use version_texts::{Field, VersioningRef};

/// Adds the line with the JSON object for a version. Members that it does not have are null.
pub fn add_json(
    alloc: Global,
    version: &VersioningRef<'_>,
    end: u8,
    output: &mut Vec<u8>,
) -> Result<(), AllocError>
    ensures { OnOk result (output.new.items
        ≡ output.old.items ++ json_line end (plain_versioning_ref version.now)) }
{
    add_object(alloc, version, output)?;
    output.push(end)?;
    Ok(())
}

// Adds the object.
fn add_object(
    alloc: Global,
    version: &VersioningRef<'_>,
    output: &mut Vec<u8>,
) -> Result<(), AllocError>
    ensures { OnOk result (output.new.items ≡ output.old.items
        ++ compact_text (json_of (plain_versioning_ref version.now))) }
{
    add_text(alloc, output, b"{\"version\":", Some(version.text()))?;
    add_text(
        alloc,
        output,
        b",\"kind\":",
        Some(kind_name(version.kind())),
    )?;
    add_number(alloc, output, b",\"epoch\":", epoch_of(version))?;
    add_number(alloc, output, b",\"major\":", number_at(version, 0))?;
    add_number(alloc, output, b",\"minor\":", number_at(version, 1))?;
    add_number(alloc, output, b",\"patch\":", number_at(version, 2))?;
    add_text(
        alloc,
        output,
        b",\"pre_release\":",
        field_of(version, Field::PreRelease),
    )?;
    add_text(
        alloc,
        output,
        b",\"release\":",
        field_of(version, Field::Release),
    )?;
    add_text(
        alloc,
        output,
        b",\"metadata\":",
        field_of(version, Field::Metadata),
    )?;
    add_text(
        alloc,
        output,
        b",\"stability\":",
        Some(stability_name(stability_of(version))),
    )?;
    output.push(b'}')?;
    Ok(())
}

// Adds the bytes that stand before a value, and the value: a text, or null without one.
fn add_text(
    alloc: Global,
    output: &mut Vec<u8>,
    before: &[u8],
    text: Option<&str>,
) -> Result<(), AllocError>
    ensures { OnOk result (output.new.items ≡ output.old.items ++ (before.now
        ++ compact_text (text_or_null (option_map (λ text. text.now) text.entry)))) }
{
    let value = match text {
        Some(text) => Value::try_from_str(alloc, text)?,
        None => Value::Null,
    };
    add_value(alloc, output, before, &value)
}

// The same of a number.
fn add_number(
    alloc: Global,
    output: &mut Vec<u8>,
    before: &[u8],
    number: Option<u64>,
) -> Result<(), AllocError>
    ensures { OnOk result (output.new.items
        ≡ output.old.items ++ (before.now ++ compact_text (number_or_null number))) }
{
    let value = Value::from(number);
    add_value(alloc, output, before, &value)
}

// The same of any value that has no float.
fn add_value(
    alloc: Global,
    output: &mut Vec<u8>,
    before: &[u8],
    value: &Value,
) -> Result<(), AllocError>
    requires { has_float (view value.now) ≡ false }
    ensures { OnOk result (output.new.items
        ≡ output.old.items ++ (before.now ++ compact_text (view value.now))) }
{
    let text = value.to_string(alloc)?;
    add_pieces(output, &[before, text.as_bytes()])
}
