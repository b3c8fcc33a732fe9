//! Sets of versions that words are.

ghost use Rattle.std.specs.Prelude.{◌≡◌, ◌<◌, ◌∷◌, [], get_or, length, List, Some, IfErr, IfNone, IfOk, IfSome, ℕ};
ghost use Rattle.version_answers.specs.Sets.{keys_of, reading_of, HasAny, IsWrongSet, LeavesOut};
ghost use Rattle.version_schemes.specs.{Scheme.rules, Scheme.scheme_number, any.AnyVersion.plain_any};
ghost use Rattle.version_sets.specs.Form.{has, IsPart, Meet, Rise, form_bytes, form_ends};
ghost use Rattle.version_sets.specs.Reading.{read_set, set_has, set_room, Member, Right};
ghost use Rattle.version_sets.specs.{Excluding.leave_out, Excluding.steps_left, Excluding.AreLeft, Reader.IsUnread, Reader.IsWrittenSet, Set.ends_of};
ghost use Rattle.version_order.specs.{Facts.key_room, keys.Sinks.saturated};

use crate::message::quote::Shown;
use std::alloc::{AllocError, Global};
use std::fmt;
use std::marker::Model;
use version_order::SchemeVersion;
use version_schemes::{AnyVersion, Scheme, by_scheme, by_version};
use version_sets::{Alternatives, Form, NoRoom, Reason, Span, Unread, read_set, set_room};

/// A set of versions of a scheme, by the bytes of its form.
#[derive(Drop)]
pub struct Set {
    bytes: Vec<u8>,
}

impl Model for Set {
    ghost Value = { List (List ℕ) };

    ghost view = { λ set. form_ends set.bytes.items };

    ghost invariant = { λ set. (set.bytes.items ≡ form_bytes (get_or set.bytes.items 0 0) (form_ends set.bytes.items))
        × Rise (form_ends set.bytes.items) };
}

impl Set {
    /// Reads the set of a scheme that a word is. It allocates as much as `set_room` says, and keeps that.
    pub fn read<'w>(
        alloc: Global,
        scheme: Scheme,
        word: &'w str,
    ) -> Result<Result<Set, WrongSet<'w>>, AllocError>
        ensures set { IfOk result (λ read. IfOk read (λ set. keys_of scheme word.now ≡ Some (has set))) }
        ensures wrong { IfOk result (λ read. IfErr read (IsWrongSet scheme word.now)) }
    {
        let text = word.as_bytes();
        let mut bytes = room_of(alloc, scheme, text)?;
        match read_by(scheme, text, bytes.as_mut_slice()) {
            Ok(size) => {
                bytes.truncate(size);
                Ok(Ok(Set { bytes }))
            }
            Err(Unread::Wrong(fault)) => Ok(Err(WrongSet {
                word,
                place: fault.place,
                reason: fault.reason,
            })),
            Err(Unread::NoRoom) => Err(AllocError),
        }
    }

    /// Returns whether a version, which is to be of its scheme, is in it.
    pub fn has(&self, version: &AnyVersion<'_>) -> bool
        ensures { result ≡ has self.now (plain_any version.now).key }
    {
        let form = self.form();
        by_version!(version, is_in(&form))
    }

    /// Returns whether it has any key.
    #[tactic(auto, using(crate::proofs::lemmas::One::has_one))]
    pub fn has_any(&self) -> bool
        ensures { HasAny result (has self.now) }
    {
        self.form().count() > 0
    }

    /// Returns whether another set has all that it has.
    pub fn is_part_of(&self, other: &Set) -> bool
        ensures { IsPart result (has self.now) (has other.now) }
    {
        self.form().is_part_of(&other.form())
    }

    /// Returns whether both have a key.
    pub fn meets(&self, other: &Set) -> bool
        ensures { Meet result (has self.now) (has other.now) }
    {
        self.form().meets(&other.form())
    }

    // Returns its form.
    fn form(&self) -> Form<'_>
        ensures ends { ends_of result ≡ self.now }
        ensures rise { Rise (ends_of result) }
    {
        let (_, form) = Form::of(self.bytes.as_slice()).unwrap();
        form
    }
}

// Returns whether a version is in a form.
fn is_in<'t, V: SchemeVersion<'t>>(version: &V, form: &Form<'_>) -> bool
    requires { Rise (ends_of form.now) }
    ensures { result ≡ has (ends_of form.now) (V.plain version.now).key }
{
    form.has(version)
}

// Reads a set of a scheme into a room.
fn read_by(scheme: Scheme, text: &[u8], room: &mut [u8]) -> Result<usize, Unread>
    ensures ok { IfOk result (λ size. (first : List Member) × (others : List (List Member))
        × (reading_of scheme text.now ≡ Right first others)
        × IsWrittenSet room.new (scheme_number scheme) size (set_has (first ∷ others))) }
    ensures wrong { IfErr result (λ unread. IsUnread unread (reading_of scheme text.now)
        (length room.old < set_room (key_room (rules scheme).facts) text.now)) }
{
    by_scheme!(scheme, read_form(text, room))
}

// Reads a set into a room.
fn read_form<'t, V: SchemeVersion<'t>>(text: &'t [u8], room: &mut [u8]) -> Result<usize, Unread>
    ensures ok { IfOk result (λ size. (first : List Member) × (others : List (List Member))
        × (read_set V.rules.read_as V.rules.facts.operators text.now ≡ Right first others)
        × IsWrittenSet room.new V.rules.facts.number size (set_has (first ∷ others))) }
    ensures wrong { IfErr result (λ unread. IsUnread unread (read_set V.rules.read_as V.rules.facts.operators text.now)
        (length room.old < set_room (key_room V.rules.facts) text.now)) }
{
    read_set::<V>(V::facts().number, text, room)
}

/// Returns room in which a set of a scheme can be read, and its members asked.
pub fn room_of(alloc: Global, scheme: Scheme, text: &[u8]) -> Result<Vec<u8>, AllocError>
    ensures { IfOk result (λ room. length room.items ≡ saturated (set_room (key_room (rules scheme).facts) text.now)) }
{
    let size = by_scheme!(scheme, set_room(text));
    vec![in alloc; 0; size]
}

/// Returns the first member that leaves a version out of the next alternative that does, as `Alternatives` finds it by
/// the version's scheme.
pub(crate) fn next_excluding<'t>(
    alternatives: &mut Alternatives<'t>,
    version: &AnyVersion<'t>,
    room: &mut [u8],
) -> Result<Option<Span>, NoRoom>
    ensures some { IfOk result (λ found. IfSome found (LeavesOut (rules (plain_any version.now).scheme)
        (plain_any version.now).key alternatives.old.left alternatives.new.left)) }
    ensures none { IfOk result (λ found. IfNone found ((all : List (List Member))
        → AreLeft (rules (plain_any version.now).scheme).read_as (rules (plain_any version.now).scheme).facts.operators
        alternatives.old.left all → leave_out (plain_any version.now).key all ≡ [])) }
    ensures nearer { IfOk result (λ found.
        IfSome found (λ _. steps_left alternatives.new.left < steps_left alternatives.old.left)) }
    ensures same { length room.new ≡ length room.old }
{
    by_version!(version, next_of(alternatives, room))
}

// Returns the same by a version that was read.
fn next_of<'t, V: SchemeVersion<'t>>(
    version: &V,
    alternatives: &mut Alternatives<'t>,
    room: &mut [u8],
) -> Result<Option<Span>, NoRoom>
    ensures some { IfOk result (λ found. IfSome found (LeavesOut V.rules (V.plain version.now).key
        alternatives.old.left alternatives.new.left)) }
    ensures none { IfOk result (λ found. IfNone found ((all : List (List Member))
        → AreLeft V.rules.read_as V.rules.facts.operators alternatives.old.left all
        → leave_out (V.plain version.now).key all ≡ [])) }
    ensures nearer { IfOk result (λ found.
        IfSome found (λ _. steps_left alternatives.new.left < steps_left alternatives.old.left)) }
    ensures same { length room.new ≡ length room.old }
{
    alternatives.next_excluding(version, room)
}

/// A word that is no set: where its first wrong piece begins, in bytes from 0, and why it is wrong.
#[derive(Clone, Copy, Debug, PartialEq, Eq)]
pub struct WrongSet<'w> {
    pub word: &'w str,
    pub place: usize,
    pub reason: Reason,
}

impl fmt::Display for WrongSet<'_> {
    ghost use Rattle.std.specs.Prelude.{Some};
    ghost use Rattle.version_answers.specs.Sets.{wrong_set_text};

    ghost output = { λ wrong. Some (wrong_set_text wrong) };

    fn fmt<W: fmt::Write>(&self, f: &mut fmt::Formatter<W>) -> fmt::Result {
        let shown = Shown {
            text: self.word.as_bytes(),
        };
        let place = self.place.saturating_add(1);
        let reason = self.reason.text();
        write!(f, "not a set: {shown}; at byte {place}: {reason}")
    }
}
