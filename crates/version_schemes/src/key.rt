//! Keys in a buffer, and in a list.

ghost use Rattle.std.specs.Prelude.{⊤, ◌≡◌, ◌+◌, ◌≤◌, ◌++◌, None, length, IfSome, OnErr, OnOk};
ghost use Rattle.std.specs.Option.{option_map};
ghost use Rattle.version_order.specs.keys.Sinks.{put_at, saturated, IsWritten};

use std::alloc::AllocError;
use version_order::{Count, Room, SchemeVersion, Sink, most_key_bytes};

/// Writes the key of the version that a text is into a buffer from a place on, if it fits there, and returns the place
/// after it, or None if the text is no version of the order.
#[inline(always)]
pub fn write_key<'t, V: SchemeVersion<'t>>(
    text: &'t [u8],
    room: &mut [u8],
    start: usize,
) -> Option<usize>
    ensures end { result ≡ option_map (λ v. saturated (start + length v.key)) (V.rules.read_as text.now) }
    ensures bytes { IfSome (V.rules.read_as text.now) (λ v. IsWritten room.old start v.key room.new) }
    ensures kept { V.rules.read_as text.now ≡ None → room.new ≡ room.old }
{
    let version = V::read(text)?;
    if start.saturating_add(most_key_bytes::<V>(text.len())) <= room.len() {
        return Some(write_whole(&version, room, start));
    }
    Some(write_if_it_fits(&version, room, start))
}

// Writes the key of a version into a buffer that has room for it from a place on, and returns the place after it.
#[inline(always)]
fn write_whole<'t, V: SchemeVersion<'t>>(version: &V, room: &mut [u8], start: usize) -> usize
    requires { start + length (V.plain version.now).key ≤ length room.old }
    ensures end { result ≡ start + length (V.plain version.now).key }
    ensures bytes { room.new ≡ put_at room.old start (V.plain version.now).key }
{
    let mut sink = Room { room, end: start };
    version.put_key(&mut sink);
    sink.end
}

// Writes the key of a version into a buffer from a place on, if it fits there, and returns the place after it. Its bytes
// are counted first.
fn write_if_it_fits<'t, V: SchemeVersion<'t>>(version: &V, room: &mut [u8], start: usize) -> usize
    ensures end { result ≡ saturated (start + length (V.plain version.now).key) }
    ensures bytes { IsWritten room.old start (V.plain version.now).key room.new }
{
    let mut count = Count { length: start };
    version.put_key(&mut count);
    let end = count.length();
    if end <= room.len() {
        write_whole(version, room, start);
    }
    end
}

/// Appends the key of a version to a list. The room is that of keys of a text, which is to be that of the version.
/// `Err` means allocation failure; the list is then unchanged. Never inlined, so that the call for the scheme mixed is.
#[inline(never)]
pub(crate) fn append_key<'t, V: SchemeVersion<'t>>(
    version: &V,
    text: &[u8],
    list: &mut Vec<u8>,
) -> Result<(), AllocError>
    ensures ok { OnOk result (list.new.items ≡ list.old.items ++ (V.plain version.now).key) }
    ensures err { OnErr result (list.new.items ≡ list.old.items) }
{
    let start = list.len();
    let size = start.saturating_add(most_key_bytes::<V>(text.len()));
    if text.len() > LONGEST_WITH_ROOM || size == usize::MAX {
        return append_counted(version, list);
    }
    list.resize(size, 0)?;
    match write_front(version, list.as_mut_slice(), start) {
        Some(end) => {
            list.truncate(end);
            Ok(())
        }
        None => {
            list.truncate(start);
            append_counted(version, list)
        }
    }
}

// Up to this length a text is given all the room that its key may need, and its key is written once.
const LONGEST_WITH_ROOM: usize = 256;

// Writes the key of a version into a buffer from a place on, as far as it fits, and returns the place after it, or None
// where it doesn't fit.
#[inline(always)]
fn write_front<'t, V: SchemeVersion<'t>>(
    version: &V,
    room: &mut [u8],
    start: usize,
) -> Option<usize>
    requires { start ≤ length room.old }
    ensures bytes { room.new ≡ put_at room.old start (V.plain version.now).key }
    ensures end { IfSome result (λ end. (end ≡ start + length (V.plain version.now).key) × (end ≤ length room.old)) }
{
    let mut front = Front {
        room,
        end: start,
        is_over: false,
    };
    version.put_key(&mut front);
    if front.is_over { None } else { Some(front.end) }
}

// Appends the key of a version, whose bytes are counted first.
fn append_counted<'t, V: SchemeVersion<'t>>(
    version: &V,
    list: &mut Vec<u8>,
) -> Result<(), AllocError>
    ensures ok { OnOk result (list.new.items ≡ list.old.items ++ (V.plain version.now).key) }
    ensures err { OnErr result (list.new.items ≡ list.old.items) }
{
    let start = list.len();
    let mut count = Count { length: start };
    version.put_key(&mut count);
    let end = count.length();
    if end == usize::MAX {
        return Err(AllocError);
    }
    list.resize(end, 0)?;
    write_whole(version, list.as_mut_slice(), start);
    Ok(())
}

// A sink that keeps what fits: a buffer, the place after the bytes written as far as they fit, and whether there were
// more.
#[derive(Drop)]
struct Front<'a> {
    room: &'a mut [u8],
    end: usize,
    is_over: bool,
}

impl<'a> Sink for Front<'a> {
    ghost use Rattle.version_schemes.specs.Front.{front_both, front_none, TakesFront};

    ghost takes = { TakesFront };

    ghost fits = { λ _ _. ⊤ };

    #[inline(always)]
    fn put(&mut self, byte: u8) {
        if self.end < self.room.len() {
            self.room[self.end] = byte;
            self.end += 1;
        } else {
            self.is_over = true;
        }
    }

    #[inline(always)]
    fn is_decided(&self) -> bool {
        false
    }

    ghost fits_first = { λ _ _ _ _. tt };

    ghost fits_then = { λ _ _ _ _ _ _. tt };

    ghost takes_none = { front_none };

    ghost takes_both = { front_both };
}
