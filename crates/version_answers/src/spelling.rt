//! How a text spells a version.
ghost use Rattle.std.specs.Prelude.{◌≡◌};
ghost use Rattle.std.specs.Option.{option_map};
ghost use Rattle.version_answers.specs.Spelling.{before_named, found_text, mixed_spelling, named_text, spelled, spelled_mixed};
ghost use Rattle.version_schemes.specs.any.AnyVersion.{plain_any};
ghost use Rattle.version_texts.specs.VersioningRef.{plain_versioning_ref};

use version_schemes::{AnyVersion, Scheme};
use version_tasks::{text_after_prefix, text_in_tag};
use version_texts::VersioningRef;

/// How a version stands in its column, or in the whole line.
#[derive(Clone, Copy, Debug)]
pub enum Naming<'w> {
    /// It is the whole text.
    Bare,
    /// It is the version in a tag.
    Tag,
    /// It is the version after this prefix.
    Prefix(&'w str),
}

/// How a text spells a version.
#[derive(Clone, Copy, Debug)]
pub struct Spelling<'w> {
    pub naming: Naming<'w>,
    pub scheme: Scheme,
}

impl Spelling<'_> {
    /// Returns the version that a text spells.
    #[inline(always)]
    pub fn version<'a>(&self, text: &'a [u8]) -> Option<AnyVersion<'a>>
        ensures { option_map plain_any result ≡ spelled self.now text.now }
    {
        AnyVersion::read(self.scheme, self.naming.text(text))
    }
}

impl<'w> Naming<'w> {
    /// Returns how it spells versions of the scheme mixed.
    pub fn mixed_spelling(self) -> Spelling<'w>
        ensures { result ≡ mixed_spelling self.entry }
    {
        Spelling {
            naming: self,
            scheme: Scheme::Mixed,
        }
    }

    /// Returns the version of the scheme mixed that a text spells.
    pub fn mixed<'a>(&self, text: &'a [u8]) -> Option<VersioningRef<'a>>
        ensures { option_map plain_versioning_ref result ≡ spelled_mixed self.now text.now }
    {
        VersioningRef::from_bytes(self.text(text))
    }

    /// Returns what stands before the text of the version in a text.
    pub fn before<'a>(&self, text: &'a [u8]) -> &'a [u8]
        ensures { result.now ≡ before_named self.now text.now }
    {
        &text[..text.len().saturating_sub(self.text(text).len())]
    }

    /// Returns the text of the version in a text, which is empty where none begins.
    #[inline(always)]
    pub fn text<'a>(&self, text: &'a [u8]) -> &'a [u8]
        ensures { result.now ≡ named_text self.now text.now }
    {
        self.found(text).unwrap_or(&[])
    }

    /// Returns the text of the version in a text, or None where none begins.
    #[inline(always)]
    pub fn found<'a>(&self, text: &'a [u8]) -> Option<&'a [u8]>
        ensures { option_map (λ text. text.now) result ≡ found_text self.now text.now }
    {
        match self {
            Naming::Bare => Some(text),
            Naming::Tag => text_in_tag(text),
            Naming::Prefix(prefix) => text_after_prefix(prefix.as_bytes(), text),
        }
    }
}
