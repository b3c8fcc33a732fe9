//! The newest of many texts.

ghost use Rattle.std.specs.Prelude.{◌≡◌, ◌≢◌, ◌↔◌, ◌-◌, ◌+◌, ◌<◌, ◌≤◌, ℕ, length, IfNone, IfSome, List, None};
ghost use Rattle.version_rules.specs.{grammar.Versioning.PlainVersioning, requirement.Requirements.requirements_of};
ghost use Rattle.version_tasks.specs.{Stability.rank, declared.stability.Stability.Stability};
ghost use Rattle.version_requirements.specs.Newest.{IsWanted, NoVersion};
ghost use Rattle.versions_c.specs.{Newest.asked_at, Newest.IsAsked, Newest.IsNewestPlace, Written.text_at, Written.AreOffsets, declared.stabilities.TheConstants.STABLE};

use crate::offsets::{are_offsets, text_at};
use crate::stabilities::{ALPHA, BETA, RC, STABLE};
use crate::status::{BAD_OFFSETS, NO_REQUIREMENTS, NO_VERSION, OK};
use version_requirements::{Candidates, RequirementsRef, Wanted, newest_of};
use version_tasks::Stability;
use version_texts::VersioningRef;

/// Each text has its version as a tag has it.
pub const TAGS: u32 = 1;

/// Writes the place of the newest of many texts that are asked for.
#[unsafe(no_mangle)]
pub extern "C" fn versions_newest(
    texts: &[u8],
    offsets: &[u64],
    list: &[u8],
    least: u32,
    flags: u32,
    place: &mut usize,
) -> i32
    ensures newest { result ≡ OK → IfSome (requirements_of list.now)
        (λ wanted. IsNewestPlace (asked_at wanted least flags texts.now offsets.now)
        (length offsets.now - 1) place.new) }

    // It is found exactly where a text is asked for.
    ensures some { AreOffsets offsets.now (length texts.now) (length offsets.now - 1)
        → IfSome (requirements_of list.now) (λ wanted. (i : ℕ) (v : PlainVersioning)
        → i < length offsets.now - 1
        → asked_at wanted least flags texts.now offsets.now i v
        → result ≡ OK) }
    ensures none { AreOffsets offsets.now (length texts.now) (length offsets.now - 1)
        → IfSome (requirements_of list.now) (λ wanted.
        NoVersion (asked_at wanted least flags texts.now offsets.now) (length offsets.now - 1)
        → result ≡ NO_VERSION) }

    // Otherwise nothing is written.
    ensures no_list { AreOffsets offsets.now (length texts.now) (length offsets.now - 1)
        → requirements_of list.now ≡ None → result ≡ NO_REQUIREMENTS }
    ensures bad { ¬ (AreOffsets offsets.now (length texts.now) (length offsets.now - 1))
        → result ≡ BAD_OFFSETS }
    ensures kept { result ≢ OK → place.new ≡ place.old }
{
    let Some(count) = offsets.len().checked_sub(1) else {
        return BAD_OFFSETS;
    };
    if !are_offsets(offsets, texts.len(), count) {
        return BAD_OFFSETS;
    }
    let Some(list) = RequirementsRef::from_bytes(list) else {
        return NO_REQUIREMENTS;
    };
    if least > STABLE as u32 {
        return NO_VERSION;
    }
    let wanted = wanted_by(&list, least as u8, flags);
    let Some(newest) = newest_place(texts, offsets, count, &wanted) else {
        return NO_VERSION;
    };
    *place = newest;
    OK
}

// Returns the place of the newest of the texts that are wanted.
fn newest_place<'a>(
    texts: &'a [u8],
    offsets: &'a [u64],
    count: usize,
    wanted: &Wanted<'a>,
) -> Option<usize>
    requires { AreOffsets offsets.now (length texts.now) count }
    ensures some { IfSome result (λ place. IsNewestPlace
        (λ i. IsWanted wanted.now (text_at texts.now offsets.now i)) count place) }
    ensures none { IfNone result
        (NoVersion (λ i. IsWanted wanted.now (text_at texts.now offsets.now i)) count) }
{
    let asked = CandidateTexts {
        texts,
        offsets,
        count,
        wanted: *wanted,
    };
    let (place, _) = newest_of(&asked)?;
    Some(place)
}

// The texts, of which those that are asked for are candidates.
#[derive(Clone, Copy)]
struct CandidateTexts<'a> {
    texts: &'a [u8],
    offsets: &'a [u64],
    count: usize,
    wanted: Wanted<'a>,
    ghost fit: { AreOffsets offsets.now (length texts.now) count },
}

impl<'a> Candidates for CandidateTexts<'a> {
    ghost length = { λ asked. asked.count };

    ghost has = { λ asked place v. IsWanted asked.wanted
        (text_at asked.texts.now asked.offsets.now place) v };

    fn count(&self) -> usize {
        self.count
    }

    fn version(&self, place: usize) -> Option<VersioningRef<'_>> {
        self.wanted
            .version(text_at(self.texts, self.offsets, self.count, place))
    }
}

// Returns what is asked for by a list, the number of a stability and flags.
fn wanted_by<'a>(list: &'a RequirementsRef<'a>, least: u8, flags: u32) -> Wanted<'a>
    requires { least ≤ STABLE }
    ensures { (text : List ℕ) (v : PlainVersioning) → IsWanted result text v
        ↔ IsAsked list.now least flags text v }
{
    Wanted {
        in_tags: flags & TAGS != 0,
        list: Some(list),
        least: least_of(least),
    }
}

// Returns the stability that a number asks for at least, or None if each stability is enough.
fn least_of(least: u8) -> Option<Stability>
    requires { least ≤ STABLE }
    ensures { (s : Stability) → IfSome result (λ floor. rank floor ≤ rank s)
        ↔ (least ≤ rank s + 1) }
{
    match least {
        ALPHA => Some(Stability::Alpha),
        BETA => Some(Stability::Beta),
        RC => Some(Stability::Rc),
        STABLE => Some(Stability::Stable),
        _ => None,
    }
}
