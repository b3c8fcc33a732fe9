//! The scheme mixed: all versions, in one order.

ghost use Rattle.std.specs.Prelude.{◌≡◌, is_some};
ghost use Rattle.version_order.specs.{Facts.key_room, Facts.plain_facts, Keyed.AreWithin, Viable.IsLongestViable};

use crate::versioning_ref::VersioningRef;
use crate::viable::mixed_length;
use std::cmp::Ordering;
use version_order::{Facts, Kept, Operators, SchemeVersion, Sink};

/// The order of all versions (docs/ORDER.md).
impl<'t> SchemeVersion<'t> for VersioningRef<'t> {
    ghost use Rattle.std.specs.Ordering.{on};
    ghost use Rattle.version_rules.specs.key.Key.{key_of, precedence};
    ghost use Rattle.version_texts.specs.Mixed.{mixed, mixed_begins, mixed_facts, mixed_rules, mixed_some, mixed_writes};
    ghost use Rattle.version_texts.specs.VersioningRef.{plain_versioning_ref};

    ghost rules = { mixed_rules };

    ghost plain = { λ version. mixed (plain_versioning_ref version) };

    ghost order = { on (λ version. key_of (plain_versioning_ref version)) precedence };

    fn facts() -> Facts
        ensures facts { plain_facts result ≡ mixed_facts }
        ensures within { AreWithin mixed_rules.read_as (key_room mixed_facts) }
    {
        Facts {
            number: 1,
            name: "mixed",
            aliases: &[],
            operators: Operators::Parts,
            per_byte: 3,
            beside: 5,
            marks: b"-+.:_~",
        }
    }

    #[inline(always)]
    fn read(text: &'t [u8]) -> Option<VersioningRef<'t>> {
        VersioningRef::from_bytes(text)
    }

    fn viable_length(text: &[u8]) -> usize
        ensures { IsLongestViable (λ begun. is_some (mixed_rules.read_as begun)) text.now result }
    {
        mixed_length(text)
    }

    #[inline(always)]
    fn compare(&self, other: &VersioningRef<'t>) -> Ordering {
        VersioningRef::precedence(self, other)
    }

    #[inline(always)]
    fn put_key<S: Sink>(&self, sink: &mut S) {
        VersioningRef::put_key(self, sink);
    }

    #[inline(always)]
    fn put_begun<S: Sink>(&self, kept: Kept, sink: &mut S) {
        VersioningRef::put_begun(self, kept, sink);
    }

    fn is_bare(&self) -> bool {
        VersioningRef::is_bare(self)
    }

    #[inline(always)]
    fn compare_key(&self, bytes: &[u8]) -> Ordering {
        VersioningRef::compare_key(self, bytes)
    }

    ghost writes = { mixed_writes plain_versioning_ref };

    ghost some = { λ version. mixed_some (plain_versioning_ref version) };

    ghost begins = { λ is version. mixed_begins (plain_versioning_ref version) };
}
