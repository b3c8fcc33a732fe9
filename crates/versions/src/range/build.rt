//! Ranges built from the ends that operators ask for.

ghost use Rattle.std.specs.Prelude.{◌≡◌, ◌∷◌, ◌++◌, IfOk, IsTrue, OnOk, Some};
ghost use Rattle.version_order.specs.{declared.ends.Kept.TheVariants.ButLastOrOnly, keys.Codes.items_bytes};
ghost use Rattle.version_rules.specs.requirement.Range.{end_bytes, is_whole, kept_parts, range_from, AreWhole, begun};
ghost use Rattle.version_rules.specs.{declared.kind.Kind.TheVariants.Complex, grammar.Versioning.versioning_kind, key.Key.key_of, key.Key.strict_body, key.PartKey.part_bytes};
ghost use Rattle.versions.specs.{Requirements.plain_range, Version.first_part, Version.more_parts, Versioning.plain_versioning};

use crate::parts::BodyParts;
use crate::range::Range;
use crate::semver::Numbers;
use crate::versioning::Versioning;
use std::alloc::{AllocError, Global};
use version_order::{End, Kept};
use version_parts::key::PieceBytes;
use version_parts::{Chunk, Last};
use version_rules::{Ends, Parts};

// Returns the range that has these ends, by the key of a version.
pub(crate) fn range_from(
    alloc: Global,
    version: &Versioning,
    ends: Ends,
) -> Result<Range, AllocError>
    requires { versioning_kind (plain_versioning version.now) ≡ Complex → AreWhole ends }
    ensures { IfOk result (λ range. plain_range range
        ≡ range_from ends (key_of (plain_versioning version.now))) }
{
    let low = end_list(alloc, version, ends.low)?;
    let high = match ends.high {
        Some(high) => Some(end_list(alloc, version, high)?),
        None => None,
    };
    Ok(Range {
        low,
        high,
        kinds: ends.kinds,
        is_exact: ends.is_exact,
    })
}

// Returns the bytes of an end as a list.
fn end_list(alloc: Global, version: &Versioning, end: End) -> Result<Vec<u8>, AllocError>
    requires { versioning_kind (plain_versioning version.now) ≡ Complex → IsTrue (is_whole end) }
    ensures { IfOk result (λ list. list.items
        ≡ end_bytes end (key_of (plain_versioning version.now))) }
{
    let mut list = Vec::new(alloc);
    append_end(version, end, &mut list)?;
    Ok(list)
}

// Appends the bytes of an end to a list.
fn append_end(version: &Versioning, end: End, list: &mut Vec<u8>) -> Result<(), AllocError>
    requires { versioning_kind (plain_versioning version.now) ≡ Complex → IsTrue (is_whole end) }
    ensures { OnOk result (list.new.items
        ≡ list.old.items ++ end_bytes end (key_of (plain_versioning version.now))) }
{
    match end {
        End::Lowest => {}
        End::Zero => list.push(0)?,
        End::Key => version.key_bytes().append_to(list)?,
        End::AfterKey => {
            version.key_bytes().append_to(list)?;
            list.push(0)?;
        }
        End::Begun(kept) => append_begun(version, kept, list)?,
        End::AboveBegun(kept) => {
            append_begun(version, kept, list)?;
            list.push(4)?;
        }
    }
    Ok(())
}

// Appends the bytes of the epoch of a strict or general version, and of the kept parts, to a list.
fn append_begun(version: &Versioning, kept: Kept, list: &mut Vec<u8>) -> Result<(), AllocError>
    requires { ¬ (versioning_kind (plain_versioning version.now) ≡ Complex) }
    ensures { OnOk result (list.new.items ≡ list.old.items
        ++ begun (key_of (plain_versioning version.now)).epoch
        (kept_parts kept (key_of (plain_versioning version.now)).body)) }
{
    match version {
        Versioning::Ideal(ideal) => {
            append_numbers((ideal.major, ideal.minor, ideal.patch), kept, list)
        }
        Versioning::General(general) => {
            append_parts(general.epoch_number(), general.parts(), kept, list)
        }
        Versioning::Complex(_) => unreachable!(),
    }
}

// Appends the bytes of the epoch 0, and of those of three numbers that are kept as parts, to a list.
#[tactic(auto, using(version_rules::proofs::lemmas::Range::three_parts))]
fn append_numbers(numbers: Numbers, kept: Kept, list: &mut Vec<u8>) -> Result<(), AllocError>
    ensures { OnOk result (list.new.items ≡ list.old.items
        ++ begun 0 (kept_parts kept (strict_body numbers.0 numbers.1 numbers.2))) }
{
    let chunks = [Chunk::Numeric(numbers.0), Chunk::Numeric(numbers.1)];
    let last = Last::Numeric(numbers.2);
    let parts = BodyParts {
        chunks: &chunks,
        last: &last,
    };
    append_parts(0, parts, kept, list)
}

// Appends the bytes of an epoch, and of the parts that are kept, to a list.
fn append_parts(
    epoch: u32,
    parts: BodyParts<'_>,
    kept: Kept,
    list: &mut Vec<u8>,
) -> Result<(), AllocError>
    ensures { OnOk result (list.new.items ≡ list.old.items
        ++ begun epoch (kept_parts kept (first_part parts.entry ∷ more_parts parts.entry))) }
{
    PieceBytes::number(epoch).append_to(list)?;
    let kept = match kept {
        Kept::ButLastOrOnly if parts.rest().is_some() => Kept::ButLast,
        Kept::ButLastOrOnly => Kept::All,
        _ => kept,
    };
    append_kept(parts, kept, list)
}

// Appends the bytes of the parts that are kept to a list.
#[tactic(auto, using(version_rules::proofs::lemmas::Range::last_kept))]
fn append_kept(mut parts: BodyParts<'_>, kept: Kept, list: &mut Vec<u8>) -> Result<(), AllocError>
    requires { ¬ (kept ≡ ButLastOrOnly) }
    ensures { OnOk result (list.new.items ≡ list.old.items ++ items_bytes part_bytes
        (kept_parts kept (first_part parts.entry ∷ more_parts parts.entry))) }
{
    while let Some(rest) = parts.rest() {
        PieceBytes::part(parts.first()).append_to(list)?;
        if kept == Kept::ThroughOther && !parts.begins_with_zero() {
            return Ok(());
        }
        parts = rest;
    }
    if kept == Kept::ButLast {
        return Ok(());
    }
    PieceBytes::part(parts.first()).append_to(list)
}
