//! The optional release and metadata of strict and general versions.

ghost use Rattle.std.specs.Prelude.{◌≡◌, ◌++◌, string_bytes, IfOk, IsSome, OnErr};
ghost use Rattle.std.specs.{Fmt.WritesOnOk, Option.option_map};
ghost use Rattle.version_order.specs.texts.{Bytes.hyphen, Bytes.plus, Front.optional};
ghost use Rattle.version_rules.specs.grammar.{Body.meta_front, Body.release_front, Body.release_text, SemVer.optional_text};
ghost use Rattle.version_parts.specs.Body.{plain_release};

use std::alloc::{AllocError, Global};
use std::fmt;
use version_parts::{Release, ReleaseRef, scan};

// Parses a prefix as a release; returns it and the rest, or None and the whole text.
#[tactic(auto, unfolding(version_order::specs::texts::Front::optional))]
#[inline(always)]
pub(crate) fn optional_release(i: &str) -> (Option<ReleaseRef<'_>>, &str)
    ensures { (result.0, result.1.now) ≡ optional release_front i.now }
{
    match ReleaseRef::scan(i) {
        Some((piece, rest)) => (Some(piece), rest),
        None => (None, i),
    }
}

// Parses a prefix as metadata; returns it and the rest, or None and the whole text.
#[tactic(auto, unfolding(version_order::specs::texts::Front::optional))]
#[inline(always)]
pub(crate) fn optional_meta(i: &str) -> (Option<&str>, &str)
    ensures { (option_map (λ text. text.now) result.0, result.1.now) ≡ optional meta_front i.now }
{
    match scan::metadata(i) {
        Some((text, rest)) => (Some(text), rest),
        None => (None, i),
    }
}

// Copies a scanned release, if there is one, into an owned one.
pub(crate) fn build_release(
    alloc: Global,
    piece: &Option<ReleaseRef<'_>>,
) -> Result<Option<Release>, AllocError>
    ensures ok { IfOk result (λ release. option_map plain_release release ≡ piece.now) }
    ensures err { OnErr result (IsSome piece.now) }
{
    match piece {
        Some(piece) => Ok(Some(piece.build(alloc)?)),
        None => Ok(None),
    }
}

// Returns a copy of a text, if there is one.
pub(crate) fn copy_text(alloc: Global, text: Option<&str>) -> Result<Option<String>, AllocError>
    ensures ok { IfOk result (λ copy. option_map string_bytes copy
        ≡ option_map (λ text. text.now) text.entry) }
    ensures err { OnErr result (IsSome text.entry) }
{
    match text {
        Some(text) => Ok(Some(String::from_str(alloc, text)?)),
        None => Ok(None),
    }
}

// Returns a copy of a release, if there is one.
pub(crate) fn copy_release(
    alloc: Global,
    release: &Option<Release>,
) -> Result<Option<Release>, AllocError>
    ensures ok { IfOk result (λ copy. option_map plain_release copy
        ≡ option_map plain_release release.now) }
    ensures err { OnErr result (IsSome release.now) }
{
    match release {
        Some(release) => Ok(Some(release.clone(alloc)?)),
        None => Ok(None),
    }
}

// Returns a copy of metadata, if there is any.
pub(crate) fn copy_meta(alloc: Global, meta: &Option<String>) -> Result<Option<String>, AllocError>
    ensures ok { IfOk result (λ copy. option_map string_bytes copy
        ≡ option_map string_bytes meta.now) }
    ensures err { OnErr result (IsSome meta.now) }
{
    match meta {
        Some(meta) => Ok(Some(String::from_str(alloc, meta.as_str())?)),
        None => Ok(None),
    }
}

// Writes a hyphen and the release, if there is one, then a plus and the metadata, if there is any.
pub(crate) fn write_tail<W: fmt::Write>(
    f: &mut fmt::Formatter<W>,
    release: &Option<Release>,
    meta: &Option<String>,
) -> fmt::Result
    ensures { WritesOnOk W.write_str_gives f.old result
        (optional_text hyphen release_text (option_map plain_release release.now)
        ++ optional_text plus (λ text. text) (option_map string_bytes meta.now)) f.new }
{
    if let Some(release) = release {
        write!(f, "-{release}")?;
    }
    if let Some(meta) = meta {
        write!(f, "+{meta}")?;
    }
    Ok(())
}
