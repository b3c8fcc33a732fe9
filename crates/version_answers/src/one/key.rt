//! The command `key`: the sort keys of versions.

ghost use Rattle.std.specs.Prelude.{◌≡◌, ◌++◌, OnOk};
ghost use Rattle.version_answers.specs.One.{key_line};
ghost use Rattle.version_schemes.specs.any.AnyVersion.{plain_any};

use crate::pieces::add_pieces;
use std::alloc::{AllocError, Global};
use version_schemes::AnyVersion;

/// Adds the line with the sort key of a version, in hexadecimal.
pub fn add_key_line(
    alloc: Global,
    version: &AnyVersion<'_>,
    end: u8,
    output: &mut Vec<u8>,
) -> Result<(), AllocError>
    ensures { OnOk result (output.new.items
        ≡ output.old.items ++ key_line end (plain_any version.now)) }
{
    let mut key = Vec::new(alloc);
    version.append_key(&mut key)?;
    let digits = hex::encode(alloc, key.as_slice())?;
    add_pieces(output, &[digits.as_bytes(), &[end]])
}
