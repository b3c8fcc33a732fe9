//! The version in a tag of git, such as `v1.2.3`, `release-1.2.3` or `pkg@1.2.3`. Nothing here allocates.

ghost use Rattle.std.specs.Prelude.{◌≡◌, ◌<◌, drop, length, Some, IfSome};
ghost use Rattle.std.specs.Option.{option_map};
ghost use Rattle.version_rules.specs.grammar.Versioning.{versioning_text};
ghost use Rattle.version_tasks.specs.Tag.{is_separator, text_after_prefix, text_at_beginning, text_in_tag, version_after_prefix, version_in_tag, without_v};
ghost use Rattle.version_tasks.specs.Next.{after_separator};
ghost use Rattle.version_texts.specs.VersioningRef.{plain_versioning_ref};

use version_order::{Class, begins_with};
use version_texts::VersioningRef;

/// Returns the version in a tag, or in another name of a release. It begins at the first digit that stands at the
/// beginning of the tag, or after a separator, or after one `v` or `V` that stands so; it is the rest of the tag from that
/// digit on. A separator is any byte that is neither a letter, a digit nor a dot; each byte past ASCII is one. Returns None
/// if there is no such digit, if a dot between two digits stands before it, or if the rest is no version.
///
/// | tag | version |
/// |---|---|
/// | `v1.2.3`, `release-1.2.3`, `pkg@1.2.3` | `1.2.3` |
/// | `OpenSSL_1_1_1k` | `1_1_1k` |
/// | `go1.20.3`: its digits follow a letter | none |
/// | `x1.0-2`: a dot between two digits stands before the `2` | none |
pub fn version_in_tag(tag: &[u8]) -> Option<VersioningRef<'_>>
    ensures version { option_map plain_versioning_ref result ≡ version_in_tag tag.now }
    ensures text { IfSome result (λ version. text_in_tag tag.now
        ≡ Some (versioning_text (plain_versioning_ref version))) }
{
    VersioningRef::from_bytes(text_in_tag(tag)?)
}

/// Returns the version that follows a prefix in a tag: of `go1.20.3` with the prefix `go` it is `1.20.3`. It is the
/// whole rest of the tag, without the one `v` or `V` that may stand before it. Returns None if the tag does not begin
/// with the prefix, byte by byte, or if the rest is no version.
pub fn version_after_prefix<'a>(prefix: &[u8], tag: &'a [u8]) -> Option<VersioningRef<'a>>
    ensures version { option_map plain_versioning_ref result
        ≡ version_after_prefix prefix.now tag.now }
    ensures text { IfSome result (λ version. text_after_prefix prefix.now tag.now
        ≡ Some (versioning_text (plain_versioning_ref version))) }
{
    VersioningRef::from_bytes(text_after_prefix(prefix, tag)?)
}

/// Returns the text of the version after a prefix of a tag, as `version_after_prefix` finds it, whether it is a version
/// or not. None if the tag does not begin with the prefix, or no digit follows.
pub fn text_after_prefix<'a>(prefix: &[u8], tag: &'a [u8]) -> Option<&'a [u8]>
    ensures { option_map (λ text. text.now) result ≡ text_after_prefix prefix.now tag.now }
{
    text_at_beginning(tag.strip_prefix(prefix)?)
}

/// Returns where the version in a tag begins, as `version_in_tag` finds it: at a place from which on the rest of the tag
/// is the version. None if there is none.
pub fn start_in_tag(tag: &[u8]) -> Option<usize>
    ensures version { option_map (λ start. drop start tag.now) result
        ≡ option_map versioning_text (version_in_tag tag.now) }
    ensures text { IfSome result (λ start. text_in_tag tag.now ≡ Some (drop start tag.now)) }
    ensures within { IfSome result (λ start. start < length tag.now) }
{
    let version = version_in_tag(tag)?;
    Some(tag.len() - version.bytes().len())
}

/// Returns where the version after a prefix of a tag begins, as `version_after_prefix` finds it. None if there is none.
pub fn start_after_prefix(prefix: &[u8], tag: &[u8]) -> Option<usize>
    ensures version { option_map (λ start. drop start tag.now) result
        ≡ option_map versioning_text (version_after_prefix prefix.now tag.now) }
    ensures text { IfSome result (λ start. text_after_prefix prefix.now tag.now
        ≡ Some (drop start tag.now)) }
    ensures within { IfSome result (λ start. start < length tag.now) }
{
    let version = version_after_prefix(prefix, tag)?;
    Some(tag.len() - version.bytes().len())
}

/// Returns the text of the version in a tag: its rest from the digit on where the version begins, as `version_in_tag`
/// finds it, whether it is a version or not. None if there is no such digit.
pub fn text_in_tag(tag: &[u8]) -> Option<&[u8]>
    ensures { option_map (λ text. text.now) result ≡ text_in_tag tag.now }
{
    let mut left = tag;
    'words: loop {
        let text = text_at_beginning(left);
        if text.is_some() {
            return text;
        }
        left = after_separator(left)?;
    }
}

// A text without the one `v` or `V` that it may begin with, if it begins with a digit then.
fn text_at_beginning(text: &[u8]) -> Option<&[u8]>
    ensures { option_map (λ text. text.now) result ≡ text_at_beginning text.now }
{
    let text = without_v(text);
    if begins_with(text, Class::Digit) {
        Some(text)
    } else {
        None
    }
}

// A text without the one `v` or `V` that it may begin with.
fn without_v(text: &[u8]) -> &[u8]
    ensures { result.now ≡ without_v text.now }
{
    match text {
        [b'v' | b'V', rest @ ..] => rest,
        _ => text,
    }
}

// What follows the first separator of a text, or None if there is none, or if a dot between two digits stands before it.
fn after_separator(text: &[u8]) -> Option<&[u8]>
    ensures { option_map (λ rest. rest.now) result ≡ after_separator text.now }
{
    let mut left = text;
    'bytes: loop {
        match left {
            [] | [b'0'..=b'9', b'.', b'0'..=b'9', ..] => return None,
            [first, rest @ ..] => {
                if is_separator(*first) {
                    return Some(rest);
                }
                left = rest;
            }
        }
    }
}

// Whether a byte is neither a letter, a digit nor a dot.
fn is_separator(byte: u8) -> bool
    ensures { result ≡ is_separator byte }
{
    !(byte.is_ascii_alphanumeric() || byte == b'.')
}
