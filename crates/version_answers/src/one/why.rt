//! The command `why`: which members of a set leave a version out.

ghost use Rattle.std.specs.Prelude.{◌≡◌, ◌++◌, codes, List, OnOk, Some};
ghost use Rattle.version_answers.specs.One.{head_text, members_text, why_text, Adds, IsWhyLine};
ghost use Rattle.version_answers.specs.Sets.{keys_of, set_of};
ghost use Rattle.version_sets.specs.{Excluding.leave_out, Form.between, Form.has, Reading.Member};
ghost use Rattle.version_schemes.specs.any.AnyVersion.{plain_any};

use crate::pieces::add_pieces;
use crate::set::{Set, next_excluding};
use std::alloc::AllocError;
use version_schemes::AnyVersion;
use version_sets::{Alternatives, Span};

/// Adds the line for a text and its version: that it is in the set that a word is, or which member of each alternative
/// leaves it out. A room in which the set can be read is enough.
pub fn add_why<'t>(
    word: &'t str,
    set: &Set,
    text: &[u8],
    version: &AnyVersion<'t>,
    end: u8,
    room: &mut [u8],
    output: &mut Vec<u8>,
) -> Result<(), AllocError>
    requires { keys_of (plain_any version.now).scheme word.now ≡ Some (has set.now) }
    ensures { OnOk result (Adds (IsWhyLine end word.now text.now (plain_any version.now))
        output.old.items output.new.items) }
{
    output.extend_from_slice(text)?;
    add_verdict(word, set, version, room, output)?;
    output.push(end)?;
    Ok(())
}

// Adds what is said of a version.
fn add_verdict<'t>(
    word: &'t str,
    set: &Set,
    version: &AnyVersion<'t>,
    room: &mut [u8],
    output: &mut Vec<u8>,
) -> Result<(), AllocError>
    requires { keys_of (plain_any version.now).scheme word.now ≡ Some (has set.now) }
    ensures { OnOk result ((alternatives : List (List Member)) → set_of (plain_any version.now).scheme word.now ≡ Some alternatives
        → output.new.items ≡ output.old.items
        ++ why_text word.now alternatives (plain_any version.now)) }
{
    if set.has(version) {
        output.extend_from_slice(b" matches")
    } else {
        add_members(word.as_bytes(), version, room, output)
    }
}

// Adds the first member of each alternative that leaves a version out.
fn add_members<'t>(
    set: &'t [u8],
    version: &AnyVersion<'t>,
    room: &mut [u8],
    output: &mut Vec<u8>,
) -> Result<(), AllocError>
    ensures { OnOk result ((alternatives : List (List Member)) → set_of (plain_any version.now).scheme set.now ≡ Some alternatives
        → output.new.items ≡ output.old.items ++ members_text (codes " is left out by ") set.now
        (leave_out (plain_any version.now).key alternatives)) }
{
    let mut alternatives = Alternatives::of(set);
    let mut word: &[u8] = b" is left out by ";
    loop {
        let Ok(found) = next_excluding(&mut alternatives, version, room) else {
            return Err(AllocError);
        };
        let Some(span) = found else {
            return Ok(());
        };
        output.extend_from_slice(word)?;
        output.extend_from_slice(member_at(set, span))?;
        word = b" and by ";
    }
}

// Returns the member of a set at a place.
fn member_at(set: &[u8], span: Span) -> &[u8]
    ensures { result.now ≡ between set.now span.start span.end }
{
    set.get(span.start..span.end).unwrap_or(&[])
}

/// Adds a line if no version is in a set; else nothing.
pub fn add_head(set: &[u8], has_any: bool, end: u8, output: &mut Vec<u8>) -> Result<(), AllocError>
    ensures { OnOk result (output.new.items ≡ output.old.items ++ head_text end set.now has_any) }
{
    if has_any {
        return Ok(());
    }
    add_pieces(output, &[b"no version is in ", set, &[end]])
}
