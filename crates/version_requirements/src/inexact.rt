//! The members of a list of requirements that its range leaves open.

ghost use Rattle.std.specs.Prelude.{◌≡◌, ◌↔◌, ◌∷◌, [], IfNone, IfSome, IsTrue, length};
ghost use Rattle.std.specs.{List.join_with_byte, List.All, Option.IsSomeAnd};
ghost use Rattle.version_rules.specs.requirement.{Matching.MatchesAll, Range.requirement_range, Range.IsIn, Requirements.comma, Requirements.requirements_of};
ghost use Rattle.version_requirements.specs.Requirement.{inexact_part, inexact_pieces, is_inexact, cut_at_commas, pieces_of};
ghost use Rattle.version_texts.specs.VersioningRef.{plain_versioning_ref};
ghost use Rattle.version_order.specs.keys.Sinks.{saturated, IsWritten};

use crate::members::Members;
use crate::requirement_ref::RequirementRef;
use version_order::{Count, Room, Sink, put_all};
use version_texts::VersioningRef;

/// Writes the members of a list that need not match each version in their range, joined by commas, into a buffer, if
/// they fit there. Returns how many bytes they are. For a version in the range of the list these members decide. Does
/// not allocate.
#[tactic(auto, using(version_order::proofs::lemmas::Sinks::counted))]
pub fn write_inexact(list: &[u8], room: &mut [u8]) -> usize
    ensures bytes { IsWritten room.old 0 (inexact_part list.now) room.new }
    ensures length { result ≡ saturated (length (inexact_part list.now)) }
{
    let mut count = Count { length: 0 };
    put_inexact(&mut count, list);
    let length = count.length();
    if length <= room.len() {
        put_inexact(&mut Room { room, end: 0 }, list);
    }
    length
}

// Writes these members, joined by commas.
#[tactic(auto, using(crate::proofs::lemmas::Members::after_commas, crate::proofs::lemmas::Members::joined_after, version_order::proofs::lemmas::Sinks::next_fits, version_order::proofs::lemmas::Sinks::owes_all, version_order::proofs::lemmas::Sinks::owes_rest, version_order::proofs::lemmas::Sinks::owes_same))]
fn put_inexact<S: Sink>(sink: &mut S, list: &[u8])
    requires { S.fits sink.old (inexact_part list.now) }
    ensures { S.takes sink.old (inexact_part list.now) sink.new }
{
    let mut members = Members::of(list);
    let Some(first) = next_inexact(&mut members) else {
        return;
    };
    put_all(sink, first);
    while let Some(member) = next_inexact(&mut members) {
        sink.put(b',');
        put_all(sink, member);
    }
}

// Returns the next of these members, or None if none is left.
fn next_inexact<'a>(members: &mut Members<'a>) -> Option<&'a [u8]>
    ensures some { IfSome result (λ piece. inexact_pieces (pieces_of members.old.left)
        ≡ piece.now ∷ inexact_pieces (pieces_of members.new.left)) }
    ensures none { IfNone result (inexact_pieces (pieces_of members.old.left) ≡ []) }
{
    while let Some(member) = members.next() {
        if is_inexact(member) {
            return Some(member);
        }
    }
    None
}

// Returns whether a piece is one of these members.
fn is_inexact(piece: &[u8]) -> bool
    ensures { result ≡ is_inexact piece.now }
{
    match RequirementRef::from_bytes(piece) {
        Some(member) => !member.is_exact(),
        None => false,
    }
}

// Returns whether each member of a text matches a version that is in the range of each: members that every version in
// their range matches are not asked.
pub(crate) fn inexact_match(text: &[u8], version: &VersioningRef<'_>) -> bool
    requires { IfSome (requirements_of text.now)
        (All (λ r. IsIn (requirement_range r) (plain_versioning_ref version.now))) }
    ensures { IsTrue result ↔ IsSomeAnd (requirements_of text.now)
        (λ list. MatchesAll list (plain_versioning_ref version.now)) }
{
    let mut members = Members::of(text);
    while let Some(member) = members.next() {
        let Some(member) = RequirementRef::from_bytes(member) else {
            return false;
        };
        if !member.is_exact() && !member.matches(version) {
            return false;
        }
    }
    true
}
