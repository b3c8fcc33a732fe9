//! The tail of a key, which follows its body.

ghost use Rattle.std.specs.Prelude.{◌≡◌, ◌∷◌, ◌++◌, [], IfNone, IfSome};
ghost use Rattle.version_rules.specs.key.Key.{sections_tail, tail_bytes};
ghost use Rattle.versions.specs.{KeyStream.release_tail, KeyStream.sections_left, Mess.plain_mess};

use crate::mess::Mess;
use version_parts::key::ListLeft;
use version_parts::{MessyChunk, ReleaseChunk};

/// The mark of a strict pre-release.
pub const PRE_RELEASE: u8 = 1;

/// The mark of an empty tail.
pub const BARE: u8 = 2;

/// The mark of a general release.
pub const RELEASE: u8 = 3;

/// The mark of further sections.
pub const SECTIONS: u8 = 4;

/// What remains of a tail.
#[derive(Drop)]
pub enum TailLeft<'a> {
    /// Nothing, or only the current list.
    Nothing,
    /// The mark of an empty tail.
    Bare,
    /// The mark of a release, and its chunks.
    Release(u8, ListLeft<'a, ReleaseChunk>),
    /// The mark of further sections, and those after the first of a version.
    Sections(&'a Mess),
    /// The further sections after the current one, which is the first of a version.
    AfterSection(&'a Mess),
}

impl<'a> TailLeft<'a> {
    ghost use Rattle.versions.specs.KeyStream.{tail_left};

    /// Returns the mark of a pre-release or release and its chunks, or the mark of an empty tail.
    #[inline(always)]
    pub fn release(mark: u8, chunks: Option<ListLeft<'a, ReleaseChunk>>) -> TailLeft<'a>
        ensures { tail_left result ≡ release_tail mark chunks.entry }
    {
        match chunks {
            Some(chunks) => TailLeft::Release(mark, chunks),
            None => TailLeft::Bare,
        }
    }

    /// Returns the mark of further sections and those of the version, or the mark of an empty tail.
    #[inline(always)]
    pub fn sections(mess: &'a Mess) -> TailLeft<'a>
        ensures { tail_left result ≡ tail_bytes (sections_tail (plain_mess mess.now).more) }
    {
        match mess.next {
            Some(_) => TailLeft::Sections(mess),
            None => TailLeft::Bare,
        }
    }
}

/// Returns the second section of a version, and the version from there on.
pub fn next_section(mess: &Mess) -> Option<(ListLeft<'_, MessyChunk>, &Mess)>
    ensures some { IfSome result
        (λ next. sections_left mess.entry ≡ 2 ∷ (next.0 ++ sections_left next.1)) }
    ensures none { IfNone result (sections_left mess.entry ≡ 1 ∷ []) }
{
    match &mess.next {
        Some((_, section)) => Some((ListLeft::section(section.chunks.as_slice()), section)),
        None => None,
    }
}
