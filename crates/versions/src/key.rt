//! The bytes of the key of a version, by which versions of all kinds compare. docs/ORDER.md has the rules.

ghost use Rattle.std.specs.Prelude.{◌≡◌, ◌++◌, [], map, IfNone, IfOk, IfSome, OnErr, OnOk, List, ℕ};
ghost use Rattle.std.specs.{Iterator.item_count, Iterator.YieldsFirst, Option.option_map, Option.unwrap_or};
ghost use Rattle.version_order.specs.{keys.Lists.bytes_cmp, keys.Lists.GrowsWithin, texts.Front.run_value};
ghost use Rattle.version_parts.specs.{Body.plain_release, MChunk.plain_mchunk, Pieces.IsNext};
ghost use Rattle.version_rules.specs.key.Key.{key_of, key_of_mess, key_of_semver, key_of_version, key_with_epoch, section_epoch, key_bytes};
ghost use Rattle.version_rules.specs.order.Parts.{release_bytes};
ghost use Rattle.versions.specs.{KeyStream.list_left, KeyStream.tail_left, Mess.plain_mess, SemVer.plain_semver, Version.plain_version, Versioning.plain_versioning};

mod list;
mod tail;

use crate::mess::Mess;
use crate::semver::SemVer;
use crate::version::Version;
use crate::versioning::Versioning;
use list::{CurrentList, PartsLeft};
use std::alloc::{AllocError, Global};
use std::cmp::Ordering;
use std::marker::Model;
use std::mem;
use tail::{BARE, PRE_RELEASE, RELEASE, SECTIONS, TailLeft, next_section};
pub use version_parts::key::compare_bytes;
use version_parts::key::{ListLeft, PieceBytes};
use version_parts::{MChunk, MessyChunk, Release, ReleaseChunk, Sep};

// The bytes reserved for a key at first: enough for three numbers and a short pre-release.
const CAPACITY: usize = 32;

/// The bytes of the key of a version that are still to come: of its epoch, of the parts of its body, and of its tail.
/// They compare as the keys do, and `compare_bytes` compares two of them. Only the current piece is made; each further
/// piece is made in turn, from a value or its text. All bytes together take time linear in the
/// version's text.
#[derive(Drop)]
pub struct KeyBytes<'a> {
    piece: PieceBytes<'a>,
    list: CurrentList<'a>,
    tail: TailLeft<'a>,
}

impl<'a> Model for KeyBytes<'a> {
    ghost use Rattle.std.specs.Prelude.{List, ℕ, ◌++◌};
    ghost use Rattle.versions.specs.KeyStream.{list_left, tail_left};

    ghost Value = { List ℕ };

    ghost view = { λ key. key.piece ++ (list_left key.list ++ tail_left key.tail) };
}

impl<'a> KeyBytes<'a> {
    // Returns the bytes of the key of a version of any kind.
    #[inline(always)]
    pub(crate) fn of(version: &'a Versioning) -> KeyBytes<'a>
        ensures { result ≡ key_bytes (key_of (plain_versioning version.now)) }
    {
        match version {
            Versioning::Ideal(ideal) => KeyBytes::of_semver(ideal),
            Versioning::General(general) => KeyBytes::of_version(general),
            Versioning::Complex(complex) => KeyBytes::of_mess(complex),
        }
    }

    // Returns the bytes of the key of a strict version.
    #[tactic(auto, using(crate::proofs::lemmas::Keys::pre_release_written))]
    #[inline(always)]
    fn of_semver(ideal: &'a SemVer) -> KeyBytes<'a>
        ensures { result ≡ key_bytes (key_of_semver (plain_semver ideal.now)) }
    {
        KeyBytes {
            piece: PieceBytes::number(0),
            list: CurrentList::Three(ideal.major, ideal.minor, ideal.patch),
            tail: TailLeft::release(PRE_RELEASE, chunks_left(&ideal.pre_rel)),
        }
    }

    // Returns the bytes of the key of a general version.
    #[tactic(auto, using(crate::proofs::lemmas::Keys::release_written))]
    #[inline(always)]
    pub(crate) fn of_version(general: &'a Version) -> KeyBytes<'a>
        ensures { result ≡ key_bytes (key_of_version (plain_version general.now)) }
    {
        KeyBytes {
            piece: PieceBytes::number(general.epoch.unwrap_or(0)),
            list: CurrentList::Parts(PartsLeft::of(&general.chunks, &general.last)),
            tail: TailLeft::release(RELEASE, chunks_left(&general.release)),
        }
    }

    // Returns the bytes of the key of a messy version.
    #[inline(always)]
    pub(crate) fn of_mess(complex: &'a Mess) -> KeyBytes<'a>
        ensures { result ≡ key_bytes (key_of_mess (plain_mess complex.now)) }
    {
        let (piece, sections) = match epoch_of(complex) {
            Some((digits, sections)) => (PieceBytes::digits(digits), sections),
            None => (PieceBytes::number(0), complex),
        };
        KeyBytes {
            piece,
            list: CurrentList::Section(ListLeft::section(sections.chunks.as_slice())),
            tail: TailLeft::sections(sections),
        }
    }

    /// Appends the bytes to a list, so that one list can hold many keys. `Err` means allocation failure; the list is
    /// then unchanged.
    #[inline(always)]
    pub fn append_to(self, list: &mut Vec<u8>) -> Result<(), AllocError>
        ensures ok { OnOk result (list.new.items ≡ list.old.items ++ self.entry) }
        ensures err { OnErr result (list.new.items ≡ list.old.items) }
    {
        let start = list.len();
        let appended = self.append_pieces(list);
        if appended.is_err() {
            list.truncate(start);
        }
        appended
    }

    // Appends the bytes, and leaves some of them in the list if an allocation fails.
    #[inline(always)]
    fn append_pieces(self, list: &mut Vec<u8>) -> Result<(), AllocError>
        ensures ok { OnOk result (list.new.items ≡ list.old.items ++ self.entry) }
        ensures err { OnErr result (GrowsWithin list.old.items list.new.items self.entry) }
    {
        let KeyBytes {
            mut piece,
            list: mut begun,
            mut tail,
        } = self;
        piece.append_to(list)?;
        while next_piece(&mut begun, &mut tail, &mut piece) {
            piece.append_to(list)?;
        }
        Ok(())
    }

    // Returns the bytes as a list.
    #[inline(always)]
    fn into_vec(self, alloc: Global) -> Result<Vec<u8>, AllocError>
        ensures { IfOk result (λ list. list.items ≡ self.entry) }
    {
        let mut list = Vec::with_capacity(alloc, CAPACITY)?;
        self.append_to(&mut list)?;
        Ok(list)
    }
}

// Returns the chunks of a release for a key, if there is one.
#[inline(always)]
fn chunks_left(release: &Option<Release>) -> Option<ListLeft<'_, ReleaseChunk>>
    ensures { result ≡ option_map release_bytes (option_map plain_release release.now) }
{
    match release {
        Some(release) => Some(release.left()),
        None => None,
    }
}

// Sets the piece to the next of the current list, else to the next of the tail. Returns false if nothing is left.
fn next_piece<'a>(
    list: &mut CurrentList<'a>,
    tail: &mut TailLeft<'a>,
    piece: &mut PieceBytes<'a>,
) -> bool
    ensures { IsNext result (list_left list.old ++ tail_left tail.old)
        (list_left list.new ++ tail_left tail.new) piece.old piece.new }
{
    list.next_piece(piece) || begin_tail(list, tail, piece)
}

// Sets the piece to the next of the tail, which may begin a list. Returns false if nothing is left.
fn begin_tail<'a>(
    list: &mut CurrentList<'a>,
    tail: &mut TailLeft<'a>,
    piece: &mut PieceBytes<'a>,
) -> bool
    requires { list_left list.old ≡ [] }
    ensures { IsNext result (tail_left tail.old)
        (list_left list.new ++ tail_left tail.new) piece.old piece.new }
{
    match mem::replace(tail, TailLeft::Nothing) {
        TailLeft::Nothing => return false,
        TailLeft::Bare => piece.set_byte(BARE),
        TailLeft::Release(rank, chunks) => {
            *list = CurrentList::Chunks(chunks);
            piece.set_byte(rank);
        }
        TailLeft::Sections(mess) => {
            *tail = TailLeft::AfterSection(mess);
            piece.set_byte(SECTIONS);
        }
        TailLeft::AfterSection(mess) => match next_section(mess) {
            Some((section, behind)) => {
                *list = CurrentList::Section(section);
                *tail = TailLeft::AfterSection(behind);
                piece.set_byte(2);
            }
            None => piece.set_byte(1),
        },
    }
    true
}

// Returns the digits of the epoch, and the version after it, if the version has an epoch.
fn epoch_of(mess: &Mess) -> Option<(&str, &Mess)>
    ensures some { IfSome result (λ r. key_of_mess (plain_mess mess.now)
        ≡ key_with_epoch (run_value r.0.now) (plain_mess r.1.now)) }
    ensures none { IfNone result (key_of_mess (plain_mess mess.now)
        ≡ key_with_epoch 0 (plain_mess mess.now)) }
{
    let digits = digits_of(mess.chunks.as_slice())?;
    match &mess.next {
        Some((Sep::Colon, behind)) => Some((digits, behind)),
        _ => None,
    }
}

// Returns the digits of a section that is one chunk of digits.
#[tactic(auto, using(crate::proofs::lemmas::Mess::one_of_digits))]
fn digits_of(section: &[MChunk]) -> Option<&str>
    ensures { option_map (λ digits. run_value digits.now) result
        ≡ section_epoch (map plain_mchunk section.now) }
{
    match section {
        [chunk] if chunk.is_digits() => Some(chunk.text()),
        _ => None,
    }
}

impl<'a> Iterator for KeyBytes<'a> {
    type Item = u8;

    ghost next_gives = { YieldsFirst (λ key. key) };

    ghost remaining = { item_count (λ key. key) };

    fn next(&mut self) -> Option<u8> {
        if let Some(byte) = self.piece.next() {
            return Some(byte);
        }
        if !next_piece(&mut self.list, &mut self.tail, &mut self.piece) {
            return None;
        }
        self.piece.next()
    }
}

// Returns the bytes of the key of a version of any kind as a list.
pub(crate) fn key_list(alloc: Global, version: &Versioning) -> Result<Vec<u8>, AllocError>
    ensures { IfOk result (λ list. list.items ≡ key_bytes (key_of (plain_versioning version.now))) }
{
    match version {
        Versioning::Ideal(ideal) => KeyBytes::of_semver(ideal).into_vec(alloc),
        Versioning::General(general) => KeyBytes::of_version(general).into_vec(alloc),
        Versioning::Complex(complex) => KeyBytes::of_mess(complex).into_vec(alloc),
    }
}

/// Compares two keys byte by byte, as precedence compares their versions. It skips at once what both current pieces
/// have in common, so it is faster than `compare_bytes`, which compares any two streams.
#[inline(always)]
pub fn compare_keys(mut a: KeyBytes<'_>, mut b: KeyBytes<'_>) -> Ordering
    ensures { result ≡ bytes_cmp a.entry b.entry }
{
    while let Some(x) = a.next() {
        let Some(y) = b.next() else {
            return Ordering::Greater;
        };
        if x != y {
            return x.cmp(&y);
        }
        a.piece.pass_same(&mut b.piece);
    }
    match b.next() {
        Some(_) => Ordering::Less,
        None => Ordering::Equal,
    }
}
