//! The command `diff`: where two versions differ first.

ghost use Rattle.std.specs.Prelude.{◌≡◌, ◌++◌, OnOk};
ghost use Rattle.version_answers.specs.Two.{difference_line, difference_name};
ghost use Rattle.version_texts.specs.VersioningRef.{plain_versioning_ref};

use crate::pieces::add_pieces;
use itoa::Buffer;
use std::alloc::AllocError;
use version_texts::{Difference, VersioningRef};

/// Adds the line that names where two versions differ first.
pub fn add_difference(
    first: &VersioningRef<'_>,
    second: &VersioningRef<'_>,
    end: u8,
    output: &mut Vec<u8>,
) -> Result<(), AllocError>
    ensures { OnOk result (output.new.items ≡ output.old.items ++ difference_line end
        (plain_versioning_ref first.now) (plain_versioning_ref second.now)) }
{
    add_name(first.difference(second), output)?;
    output.push(end)?;
    Ok(())
}

// Adds the name of where two versions differ first.
fn add_name(difference: Difference, output: &mut Vec<u8>) -> Result<(), AllocError>
    ensures { OnOk result (output.new.items ≡ output.old.items ++ difference_name difference) }
{
    let name: &[u8] = match difference {
        Difference::Epoch => b"epoch",
        Difference::Part(number) => {
            let mut digits = Buffer::new();
            return add_pieces(output, &[b"part ", digits.format(number).as_bytes()]);
        }
        Difference::Tail => b"tail",
        Difference::Tie => b"tie",
        Difference::Same => b"same",
    };
    output.extend_from_slice(name)
}
