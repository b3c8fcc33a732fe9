//! Conversions of versions to a more lenient kind.

ghost use Rattle.std.specs.Prelude.{◌≡◌, ◌<◌, ◌^◌, ◌∷◌, [], ◌++◌, if◌then◌else◌, map, string_bytes, IfOk, IfSome};
ghost use Rattle.std.specs.{Option.is_some, Option.option_map, declared.cmp.Ordering.TheVariants.Equal, declared.cmp.Ordering.TheVariants.Less};
ghost use Rattle.version_parts.specs.{Body.plain_release, Chunk.plain_chunk, Last.plain_last, MChunk.plain_mchunk};
ghost use Rattle.version_rules.specs.grammar.Conversions.{behind_epoch, below_sections, digits_of_number, mchunk_of, mchunk_of_last, mess_of_semver, mess_of_version, meta_section, release_section, version_of_semver};
ghost use Rattle.version_rules.specs.{grammar.MChunk.Plain, grammar.Mess.mess_text, grammar.SemVer.semver_text, grammar.Version.version_text, key.Key.key_of_mess, key.Key.key_of_semver, key.Key.key_of_version, key.Key.precedence};
ghost use Rattle.versions.specs.{Mess.plain_mess, Mess.plain_section, SemVer.plain_semver, Version.plain_version};

use crate::mess::{Mess, link};
use crate::optional::{copy_meta, copy_release};
use crate::semver::SemVer;
use crate::version::Version;
use std::alloc::{AllocError, Global};
use version_parts::{Chunk, Chunks, Last, MChunk, Release, Sep};

impl SemVer {
    /// Returns the general version with the same numbers, release and metadata. The first two numbers are its chunks,
    /// the third its last part. `Err` means allocation failure.
    pub fn to_version(&self, alloc: Global) -> Result<Version, AllocError>
        ensures fields { IfOk result (λ v. plain_version v
            ≡ version_of_semver (plain_semver self.now)) }
        // Without a pre-release it ties with this version in precedence; otherwise it comes after.
        ensures precedence { IfOk result (λ v. precedence (key_of_semver (plain_semver self.now))
            (key_of_version (plain_version v))
            ≡ (if is_some (plain_semver self.now).pre_rel then Less else Equal)) }
    {
        numbers_fit(self);
        widen(alloc, self)
    }

    /// Returns the messy version that prints the same text. The three numbers become digits, the release a section
    /// after a hyphen, and the metadata one text after a plus. `Err` means allocation failure.
    pub fn to_mess(&self, alloc: Global) -> Result<Mess, AllocError>
        ensures fields { IfOk result (λ m. plain_mess m ≡ mess_of_semver (plain_semver self.now)) }
        ensures printed { IfOk result (λ m. mess_text (plain_mess m)
            ≡ semver_text (plain_semver self.now)) }
        // Without a pre-release and metadata it ties with this version in precedence; otherwise it comes after.
        ensures precedence { IfOk result (λ m.
            precedence (key_of_semver (plain_semver self.now)) (key_of_mess (plain_mess m))
            ≡ below_sections (plain_semver self.now).pre_rel (plain_semver self.now).meta) }
    {
        numbers_fit(self);
        convert_strict(alloc, self)
    }
}

impl Version {
    /// Returns the messy version that prints the same text. An epoch becomes a section before a colon; the chunks and
    /// the last part the next section; the release a section after a hyphen; the metadata one text after a plus. A
    /// number becomes digits, any other part its printed text. `Err` means allocation failure.
    pub fn to_mess(&self, alloc: Global) -> Result<Mess, AllocError>
        ensures fields { IfOk result (λ m. plain_mess m
            ≡ mess_of_version (plain_version self.now)) }
        ensures printed { IfOk result (λ m. mess_text (plain_mess m)
            ≡ version_text (plain_version self.now)) }
        // Without a release and metadata it ties with this version in precedence; otherwise it comes after.
        ensures precedence { IfOk result (λ m.
            precedence (key_of_version (plain_version self.now)) (key_of_mess (plain_mess m))
            ≡ below_sections (plain_version self.now).release (plain_version self.now).meta) }
    {
        epoch_fits(self);
        convert_general(alloc, self)
    }
}

// Returns a strict version as a general one.
fn widen(alloc: Global, v: &SemVer) -> Result<Version, AllocError>
    ensures { IfOk result (λ general. plain_version general
        ≡ version_of_semver (plain_semver v.now)) }
{
    let mut chunks = Vec::with_capacity(alloc, 2)?;
    chunks.push(Chunk::Numeric(v.major))?;
    chunks.push(Chunk::Numeric(v.minor))?;
    Ok(Version {
        epoch: None,
        chunks: Chunks(chunks),
        last: Last::Numeric(v.patch),
        release: copy_release(alloc, &v.pre_rel)?,
        meta: copy_meta(alloc, &v.meta)?,
    })
}

fn convert_strict(alloc: Global, v: &SemVer) -> Result<Mess, AllocError>
    ensures { IfOk result (λ m. plain_mess m ≡ mess_of_semver (plain_semver v.now)) }
{
    let mut body = Vec::with_capacity(alloc, 3)?;
    body.push(digits(alloc, v.major)?)?;
    body.push(digits(alloc, v.minor)?)?;
    body.push(digits(alloc, v.patch)?)?;
    join(alloc, None, body, &v.pre_rel, &v.meta)
}

fn convert_general(alloc: Global, v: &Version) -> Result<Mess, AllocError>
    ensures { IfOk result (λ m. plain_mess m ≡ mess_of_version (plain_version v.now)) }
{
    let chunks = v.chunks.0.as_slice();
    let mut body = chunk_section(alloc, chunks, chunks.len().saturating_add(1))?;
    body.push(last_chunk(alloc, &v.last)?)?;
    join(alloc, v.epoch, body, &v.release, &v.meta)
}

// Joins an epoch, a body, a release and metadata.
fn join(
    alloc: Global,
    epoch: Option<u32>,
    body: Vec<MChunk>,
    release: &Option<Release>,
    meta: &Option<String>,
) -> Result<Mess, AllocError>
    ensures { IfOk result (λ m. plain_mess m ≡ behind_epoch epoch (plain_section body)
        (release_section (option_map plain_release release.now)
        ++ meta_section (option_map string_bytes meta.now))) }
{
    let mut more = Vec::with_capacity(alloc, 3)?;
    let first = match epoch {
        None => body,
        Some(epoch) => {
            more.push((Sep::Colon, body))?;
            alone(alloc, digits(alloc, epoch)?)?
        }
    };
    if let Some(release) = release {
        let chunks = release.0.as_slice();
        more.push((Sep::Hyphen, chunk_section(alloc, chunks, chunks.len())?))?;
    }
    if let Some(meta) = meta {
        let text = String::from_str(alloc, meta.as_str())?;
        more.push((Sep::Plus, alone(alloc, MChunk::Plain(text))?))?;
    }
    link(alloc, first, more)
}

// Returns a section of one chunk.
fn alone(alloc: Global, chunk: MChunk) -> Result<Vec<MChunk>, AllocError>
    ensures { IfOk result (λ section. plain_section section ≡ plain_mchunk chunk ∷ []) }
{
    let mut section = Vec::with_capacity(alloc, 1)?;
    section.push(chunk)?;
    Ok(section)
}

// Returns a section of these chunks, in a list with this capacity.
fn chunk_section(
    alloc: Global,
    chunks: &[Chunk],
    capacity: usize,
) -> Result<Vec<MChunk>, AllocError>
    ensures { IfOk result (λ section. plain_section section
        ≡ map mchunk_of (map plain_chunk chunks.now)) }
{
    let mut section = Vec::with_capacity(alloc, capacity)?;
    for chunk in chunks {
        section.push(messy_chunk(alloc, chunk)?)?;
    }
    Ok(section)
}

fn messy_chunk(alloc: Global, chunk: &Chunk) -> Result<MChunk, AllocError>
    ensures { IfOk result (λ messy. plain_mchunk messy ≡ mchunk_of (plain_chunk chunk.now)) }
{
    match chunk {
        Chunk::Numeric(number) => digits(alloc, *number),
        Chunk::Alphanum(text) => Ok(MChunk::Plain(String::from_str(alloc, text.as_str())?)),
    }
}

fn last_chunk(alloc: Global, last: &Last) -> Result<MChunk, AllocError>
    ensures { IfOk result (λ messy. plain_mchunk messy ≡ mchunk_of_last (plain_last last.now)) }
{
    match last {
        Last::Numeric(number) => digits(alloc, *number),
        _ => Ok(MChunk::Plain(last.to_string(alloc)?)),
    }
}

// Returns a number as digits.
fn digits(alloc: Global, number: u32) -> Result<MChunk, AllocError>
    ensures { IfOk result (λ messy. plain_mchunk messy ≡ digits_of_number number) }
{
    Ok(MChunk::Digits(number, number.to_string(alloc)?))
}

// Shows what the laws of keys need: the numbers are below 2 ^ 32.
fn numbers_fit(v: &SemVer)
    ensures { (v.now.major < 2 ^ 32) × (v.now.minor < 2 ^ 32) × (v.now.patch < 2 ^ 32) }
{
    fits(v.major);
    fits(v.minor);
    fits(v.patch);
}

fn epoch_fits(v: &Version)
    ensures { IfSome v.now.epoch (λ epoch. epoch < 2 ^ 32) }
{
    if let Some(epoch) = v.epoch {
        fits(epoch);
    }
}

fn fits(number: u32)
    ensures { number < 2 ^ 32 }
{}
