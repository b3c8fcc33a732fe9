//! Where a text that begins with a `v` is a version as a whole, and its tag has another.

ghost use Rattle.std.specs.Prelude.{◌≡◌, ◌<◌, Option, None, Some, IsTrue};
ghost use Rattle.std.specs.Option.{option_map};
ghost use Rattle.version_answers.specs.Tags.{begins_with_number, begins_with_v, compare_otherwise, is_bare, is_tested_otherwise, order_of_tags, tagged, HasNextInTag};
ghost use Rattle.version_schemes.specs.any.AnyVersion.{plain_any};

use crate::one::next::{Step, has_next};
use crate::spelling::{Naming, Spelling};
use crate::two::compare::{Operator, holds};
use std::cmp::Ordering;
use version_schemes::{AnyVersion, Scheme};
use version_tasks::version_in_tag;
use version_texts::VersioningRef;

impl Naming<'_> {
    /// Whether a text is to be a version as a whole.
    pub fn is_bare(self) -> bool
        ensures { result ≡ is_bare self.entry }
    {
        matches!(self, Naming::Bare)
    }
}

/// Returns how two texts compare by the versions in their tags, if one of them begins with a `v` and both have one.
pub fn order_of_tags(scheme: Scheme, first: &[u8], second: &[u8]) -> Option<Ordering>
    ensures { result ≡ order_of_tags scheme first.now second.now }
{
    if !begins_with_v(first) && !begins_with_v(second) {
        return None;
    }
    let (first, second) = (tagged(scheme, first)?, tagged(scheme, second)?);
    Some(first.precedence(&second))
}

/// Whether two texts, one of which begins with a `v`, are versions and compare otherwise by those in their tags.
pub fn compare_otherwise(scheme: Scheme, first: &[u8], second: &[u8]) -> bool
    ensures { result ≡ compare_otherwise scheme first.now second.now }
{
    match (
        order_of_tags(scheme, first, second),
        AnyVersion::read(scheme, first),
        AnyVersion::read(scheme, second),
    ) {
        (Some(tags), Some(first), Some(second)) => tags != first.precedence(&second),
        _ => false,
    }
}

/// Whether one of two texts begins with a `v`, and the answer about the versions in their tags is another.
pub fn is_tested_otherwise(
    scheme: Scheme,
    first: &[u8],
    operator: Operator,
    second: &[u8],
    answer: bool,
) -> bool
    ensures { result ≡ is_tested_otherwise scheme first.now operator second.now answer }
{
    match order_of_tags(scheme, first, second) {
        Some(order) => holds(operator, order) != answer,
        None => false,
    }
}

/// Whether a text begins with a `v`, and no version comes next to it and one does to the version in its tag.
pub fn has_next_in_tag(step: Step<'_>, text: &[u8]) -> bool
    ensures { IsTrue result → HasNextInTag step.entry text.now }
{
    if !begins_with_v(text) {
        return false;
    }
    match (VersioningRef::from_bytes(text), version_in_tag(text)) {
        (Some(whole), Some(tag)) => !has_next(&whole, step) && has_next(&tag, step),
        _ => false,
    }
}

/// Returns the version in a tag.
pub fn tagged(scheme: Scheme, text: &[u8]) -> Option<AnyVersion<'_>>
    ensures { option_map plain_any result ≡ tagged scheme text.now }
{
    let spelling = Spelling {
        naming: Naming::Tag,
        scheme,
    };
    spelling.version(text)
}

/// Whether a text begins with a `v` and a digit.
pub fn begins_with_v(text: &[u8]) -> bool
    ensures { result ≡ begins_with_v text.now }
{
    matches!(text, [b'v' | b'V', b'0'..=b'9', ..])
}

/// Whether a text begins with a number, perhaps behind a `v`.
pub fn begins_with_number(text: &[u8]) -> bool
    ensures { result ≡ begins_with_number text.now }
{
    matches!(text, [b'0'..=b'9', ..]) || begins_with_v(text)
}
