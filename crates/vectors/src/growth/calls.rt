//! The calls that are timed. All results are checked, so that no call can be optimized away; a wrong result is an error.

use super::checks::holds;
use super::watch::Watch;
use std::hash::{DefaultHasher, Hash, Hasher};
use std::io;
use std::io::ErrorKind;
use version_requirements::{RangeRef, RequirementsRef, conflict_in, list_matches, why_not};
use version_tasks::{Stability, next_of, stability_of, version_after_prefix, version_in_tag};
use version_texts::{Difference, VersioningRef};
use versions::Versioning;
use versions::key::compare_bytes;

/// Times each call on the text of a version.
pub fn on_version(rt: &HostRuntime, watch: &mut Watch<'_>, text: &str) -> io::Result<()> {
    watch.start();
    let version = Versioning::new(rt.alloc(), text)?.ok_or(ErrorKind::InvalidInput)?;
    watch.lap("read");
    let key = on_owned(rt, watch, &version, text)?;
    on_text(rt, watch, text, key.as_slice())
}

// Times each call on a version that owns nothing.
fn on_text(rt: &HostRuntime, watch: &mut Watch<'_>, text: &str, key: &[u8]) -> io::Result<()> {
    watch.go_on();
    let spelled = VersioningRef::new(text).ok_or(ErrorKind::InvalidInput)?;
    let from_text = spelled.compare_key(key).is_eq();
    watch.lap("spelled_key");
    let spelled = VersioningRef::new(text).ok_or(ErrorKind::InvalidInput)?;
    let mut block = Vec::new(rt.alloc());
    spelled.append_key(&mut block)?;
    watch.lap("appended_key");
    let length = spelled.key_length();
    watch.lap("key_length");
    let tagged = version_in_tag(text.as_bytes());
    watch.lap("in_tag");
    let stable = stability_of(&spelled) == Stability::Stable;
    watch.lap("stability");
    let again = String::from_str(rt.alloc(), text)?;
    let difference = VersioningRef::new(again.as_str()).map(|again| spelled.difference(&again));
    watch.lap("difference");
    let following = next_of(&spelled, 0);
    watch.lap("next");
    holds(
        from_text
            && block.as_slice() == key
            && length == key.len()
            && stable
            && difference == Some(Difference::Same)
            && tagged.is_none_or(|found| found == spelled)
            && following.is_none_or(|found| found.length() > 0),
    )
}

/// Times each call on the version of a text, or on its messy version. Returns its key.
pub fn on_owned(
    rt: &HostRuntime,
    watch: &mut Watch<'_>,
    version: &Versioning,
    text: &str,
) -> io::Result<Vec<u8>> {
    watch.go_on();
    let printed = version.to_string(rt.alloc())?;
    watch.lap("printed");
    let key = version.sort_key(rt.alloc())?;
    watch.lap("keyed");
    let keyed = compare_bytes(&mut version.key_bytes(), &mut key.iter().copied()).is_eq();
    watch.lap("key_bytes");
    let copy = version.clone(rt.alloc())?;
    watch.lap("cloned");
    let tie = version.precedence(&copy).is_eq();
    watch.lap("precedence");
    let same = version.cmp(&copy).is_eq();
    watch.lap("cmp");
    let equal = *version == copy;
    watch.lap("equal");
    let hash = hash_of(version);
    watch.lap("hashed");
    let number = version.nth(usize::MAX);
    watch.lap("nth");
    let hashed = hash == hash_of(&copy);
    watch.go_on();
    drop(copy);
    watch.lap("dropped");
    let is_right = keyed && tie && same && equal && number.is_none() && hashed;
    holds(is_right && printed.as_str() == text)?;
    Ok(key)
}

/// Times each call on a list and a version that all its members match.
pub fn on_list(
    rt: &HostRuntime,
    watch: &mut Watch<'_>,
    text: &str,
    version: &str,
) -> io::Result<()> {
    let version = VersioningRef::new(version).ok_or(ErrorKind::InvalidInput)?;
    watch.start();
    let list = RequirementsRef::new(text).ok_or(ErrorKind::InvalidInput)?;
    watch.lap("list_read");
    let all = list.matches(&version);
    watch.lap("list_matches");
    let asked = list_matches(text.as_bytes(), &version);
    watch.lap("list_asked_once");
    let range = RangeRef::from_bytes(text.as_bytes()).ok_or(ErrorKind::InvalidInput)?;
    watch.lap("list_range");
    // The last member excludes the version, and each other member.
    let closed = format!(in rt.alloc(); "{text},<0")?;
    watch.go_on();
    let is_excluded = matches!(why_not(closed.as_bytes(), &version), Some(Some(_)));
    watch.lap("list_why_not");
    let is_empty = matches!(conflict_in(closed.as_bytes()), Some(Some(_)));
    watch.lap("list_conflict");
    holds(all && asked == Some(true) && range.has(&version) && is_excluded && is_empty)
}

/// Times each call on a tag, of which all but the last byte are the prefix. A version is an error.
pub fn on_tag(watch: &mut Watch<'_>, tag: &[u8]) -> io::Result<()> {
    let (_, prefix) = tag.split_last().ok_or(ErrorKind::InvalidInput)?;
    watch.start();
    let found = version_in_tag(tag).is_some();
    watch.lap("in_tag");
    let found_after = version_after_prefix(prefix, tag).is_some();
    watch.lap("after_prefix");
    holds(!found && !found_after)
}

pub fn hash_of(version: &Versioning) -> u64 {
    let mut state = DefaultHasher::new();
    version.hash(&mut state);
    state.finish()
}
