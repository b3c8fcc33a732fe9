//! What a version of a scheme gives, from which all else follows: keys, sets, sorts, indexes.

ghost use Rattle.std.specs.Prelude.{◌≡◌, [], is_some};
ghost use Rattle.std.specs.{Option.option_map, declared.cmp.Ordering.Ordering as Compared};
ghost use Rattle.version_order.specs.{Facts.key_room, Facts.plain_facts, Keyed.end_of, Keyed.AreWithin, Keyed.BeginsKey, Keyed.PlainKeyed, Rules.Rules, Viable.IsLongestViable, declared.ends.Kept.Kept as PlainKept};
ghost use Rattle.version_order.specs.{declared.facts.Operators.TheVariants.Parts, keys.Codes.Writes, keys.Lists.bytes_cmp, keys.Sinks.saturated};

use crate::ends::{End, Kept};
use crate::facts::Facts;
use crate::sink::Sink;
use std::cmp::Ordering;

/// A version of a scheme, read from a text: it has a key, and keys compare byte by byte as the scheme has it. Each call
/// takes time at most linear in the text.
pub trait SchemeVersion<'t>: Copy {
    // What is fixed for the scheme, what a text is read as, and how texts compare.
    ghost rules: { Rules };

    ghost plain: { Self → PlainKeyed };

    // The order, by the words of the system that has it.
    ghost order: { Self → Self → Compared };

    /// Returns what is fixed for the scheme.
    fn facts() -> Facts
        ensures facts { plain_facts result ≡ rules.facts }

        // No end of a version has more than a byte more than its scheme says of keys.
        ensures within { AreWithin rules.read_as (key_room rules.facts) };

    /// Reads a whole text, or returns None if it is no version of the scheme.
    fn read(text: &'t [u8]) -> Option<Self>
        ensures { option_map plain result ≡ rules.read_as text.now };

    /// Returns the length in bytes of the longest beginning of a text that some continuation makes a version.
    fn viable_length(text: &[u8]) -> usize
        ensures { IsLongestViable (λ begun. is_some (rules.read_as begun)) text.now result };

    /// Compares it with another version.
    fn compare(&self, other: &Self) -> Ordering
        ensures { result ≡ order self.now other.now };

    /// Writes its key into a sink.
    fn put_key<S: Sink>(&self, sink: &mut S)
        requires { S.fits sink.old (plain self.now).key }
        ensures { S.takes sink.old (plain self.now).key sink.new };

    /// Writes the bytes of its epoch and of the parts that are kept into a sink: none, where it has no parts.
    fn put_begun<S: Sink>(&self, kept: Kept, sink: &mut S)
        requires { S.fits sink.old ((plain self.now).begun kept) }
        ensures { S.takes sink.old ((plain self.now).begun kept) sink.new };

    /// Returns whether it has an epoch and parts alone.
    fn is_bare(&self) -> bool
        ensures { result ≡ (plain self.now).is_bare };

    /// Compares the bytes of its key with given bytes, up to the first difference.
    fn compare_key(&self, bytes: &[u8]) -> Ordering
        ensures { result ≡ bytes_cmp (plain self.now).key bytes.now };

    // Keys compare as the order does, whatever bytes follow them.
    ghost writes: { Writes order (λ version. (plain version).key) };

    // No key is empty.
    ghost some: { (version : Self) → ¬ ((plain version).key ≡ []) };

    // Where there are comparisons by parts, a key begins with the bytes of its epoch and any parts that are kept.
    ghost begins: { rules.facts.operators ≡ Parts → (version : Self) (kept : PlainKept)
        → BeginsKey ((plain version).begun kept) (plain version).key };
}

/// Returns how many bytes the key of a text of a length has at most; an end of a range has one more.
#[inline(always)]
pub fn most_key_bytes<'t, V: SchemeVersion<'t>>(text_len: usize) -> usize
    ensures room { result ≡ saturated (key_room V.rules.facts text_len) }
    ensures within { AreWithin V.rules.read_as (key_room V.rules.facts) }
{
    V::facts().key_room(text_len)
}

/// Writes the bytes of an end of a range by a version into a sink.
#[inline(always)]
pub fn put_end<'t, V: SchemeVersion<'t>, S: Sink>(version: &V, end: End, sink: &mut S)
    requires { S.fits sink.old (end_of end (V.plain version.now)) }
    ensures { S.takes sink.old (end_of end (V.plain version.now)) sink.new }
{
    match end {
        End::Lowest => {}
        End::Zero => sink.put(0),
        End::Key => version.put_key(sink),
        End::AfterKey => {
            version.put_key(sink);
            sink.put(0);
        }
        End::Begun(kept) => version.put_begun(kept, sink),
        End::AboveBegun(kept) => {
            version.put_begun(kept, sink);
            sink.put(4);
        }
    }
}
