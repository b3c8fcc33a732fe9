//! Schemes by their names and numbers, and their texts.

ghost use Rattle.std.specs.Prelude.{◌≡◌, ◌≢◌, IfSome, None, is_some};
ghost use Rattle.version_schemes.specs.Scheme.{numbered, rules, scheme_named, scheme_number};
ghost use Rattle.versions_c.specs.{Ranges.one_if, Written.IsWritten};

use crate::status::{NO_ROOM, NO_SCHEME, OK};
use version_order::SchemeVersion;
use version_schemes::{Scheme, by_scheme};

/// Writes the number of the scheme that a text names.
#[unsafe(no_mangle)]
pub extern "C" fn versions_scheme(name: &[u8], scheme: &mut u32) -> i32
    ensures found { IfSome (scheme_named name.now) (λ found. (result ≡ OK) × (scheme.new ≡ scheme_number found)) }
    ensures none { scheme_named name.now ≡ None → result ≡ NO_SCHEME }
    ensures kept { result ≢ OK → scheme.new ≡ scheme.old }
{
    match Scheme::of_name(name) {
        Some(found) => {
            *scheme = u32::from(found.number());
            OK
        }
        None => NO_SCHEME,
    }
}

/// Writes the name of a scheme.
#[unsafe(no_mangle)]
pub extern "C" fn versions_scheme_name(scheme: u32, name: &mut [u8], name_len: &mut usize) -> i32
    ensures name { IfSome (numbered scheme)
        (λ scheme. IsWritten (rules scheme).facts.name name.old name.new name_len.new result) }
    ensures no_scheme { numbered scheme ≡ None → result ≡ NO_SCHEME }
    ensures kept { result ≢ OK → name.new ≡ name.old }
    ensures no_length { result ≡ NO_SCHEME → name_len.new ≡ name_len.old }
{
    match Scheme::of_number(scheme) {
        Some(scheme) => write_text(scheme.name().as_bytes(), name, name_len),
        None => NO_SCHEME,
    }
}

/// Writes a text into a buffer, if it fits, and its length.
pub(crate) fn write_text(text: &[u8], room: &mut [u8], len: &mut usize) -> i32
    ensures written { IsWritten text.now room.old room.new len.new result }
    ensures status { result ≢ OK → result ≡ NO_ROOM }
    ensures kept { result ≢ OK → room.new ≡ room.old }
{
    *len = text.len();
    if text.len() > room.len() {
        return NO_ROOM;
    }
    let (place, _) = room.split_at_mut(text.len());
    place.copy_from_slice(text);
    OK
}

/// Writes whether a text is a version of a scheme.
#[unsafe(no_mangle)]
pub extern "C" fn versions_has(scheme: u32, text: &[u8], has: &mut u8) -> i32
    ensures has { IfSome (numbered scheme)
        (λ scheme. (result ≡ OK) × (has.new ≡ one_if (is_some ((rules scheme).read_as text.now)))) }
    ensures no_scheme { numbered scheme ≡ None → (result ≡ NO_SCHEME) × (has.new ≡ has.old) }
{
    let Some(scheme) = Scheme::of_number(scheme) else {
        return NO_SCHEME;
    };
    *has = by_scheme!(scheme, is_version(text)) as u8;
    OK
}

// Returns whether a text is a version.
fn is_version<'t, V: SchemeVersion<'t>>(text: &'t [u8]) -> bool
    ensures { result ≡ is_some (V.rules.read_as text.now) }
{
    V::read(text).is_some()
}
