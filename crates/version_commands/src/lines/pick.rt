//! Which lines of an input are kept, and which have no version.
ghost use Rattle.std.specs.Prelude.{◌≡◌, ◌++◌, ◌∷◌, ℕ, Bool, List, [], is_some, map, option_and_then, true, Some, IfOk, IsTrue, OnOk};
ghost use Rattle.version_commands.specs.lines.Picked.{bad_lines, kept_lines, kept_of, Versions};
ghost use Rattle.version_lines.specs.Inputs.{lines_left, plain_line};
ghost use Rattle.version_schemes.specs.any.{AnyVersion.plain_any, Order.PlainAny, Order.any_of};

use std::alloc::{AllocError, Global};
use version_answers::begins_with_v;
use version_lines::{KeyedLines, Line, Lines, NewestLine, SortBy};
use version_order::SchemeVersion;
use version_schemes::{AnyVersion, Scheme, with_version};

/// Which versions are kept.
pub trait Chooses {
    // Whether a version is kept.
    ghost keeps: { Self → PlainAny → Bool };

    /// Whether each version is kept, as where nothing is asked.
    fn keeps_all(&self) -> bool
        ensures { IsTrue result → (v : PlainAny) → keeps self.now v ≡ true };

    /// Returns whether a version is kept.
    fn keeps(&self, version: &AnyVersion<'_>) -> bool
        ensures { result ≡ keeps self.now (plain_any version.now) };
}

/// Each version is kept.
#[derive(Clone, Copy)]
pub struct EveryVersion;

impl Chooses for EveryVersion {
    ghost use Rattle.std.specs.Prelude.{true};

    ghost keeps = { λ _ _. true };

    fn keeps_all(&self) -> bool {
        true
    }

    #[inline(always)]
    fn keeps(&self, _version: &AnyVersion<'_>) -> bool {
        true
    }
}

/// What was seen of the lines of an input.
#[derive(Drop)]
pub struct Picked<'a, 'w> {
    /// Those that have no version, in their order.
    pub bad: Vec<Line<'a, 'w>>,
    /// Whether a text that is to be a version begins with a `v` and a digit: else versions in tags are those of whole texts.
    pub may_have_tags: bool,
}

/// What takes lines that have a version, one after another.
pub trait Takes<'a> {
    // The version of each line that has one.
    ghost versions: { Self → Versions };

    // Whether it can take a line.
    ghost IsReady: { Self → Type 0 };

    // Since the first state these lines were taken, in their order.
    ghost HasTaken: { Self → Self → List (List ℕ) → Type 0 };

    /// Returns the text in a line that is to be its version, and the scheme of which it is to be one, or None where the
    /// line names no scheme.
    fn text(&self, line: &'a [u8]) -> Option<(Scheme, &'a [u8])>
        ensures { versions self.now line.now ≡ option_and_then (λ found. any_of found.0 found.1.now) result };

    /// Takes a line, whose version this is.
    fn take(&mut self, version: &AnyVersion<'a>, line: &'a [u8]) -> Result<(), AllocError>
        requires ready { IsReady self.old }
        requires version { versions self.old line.now ≡ Some (plain_any version.now) }
        ensures ready { IsReady self.new }
        ensures versions { versions self.new ≡ versions self.old }
        ensures taken { OnOk result ((first : Self) → (lines : List (List ℕ))
            → HasTaken first self.old lines → HasTaken first self.new (lines ++ line.now ∷ [])) };
}

/// Gives the taker those of some lines whose versions are kept, and returns the lines that have no version.
pub fn pick<'a, 'w, T: Takes<'a>, C: Chooses>(
    alloc: Global,
    taker: &mut T,
    chooser: &C,
    lines: Lines<'a, 'w>,
) -> Result<Picked<'a, 'w>, AllocError>
    requires ready { T.IsReady taker.old }
    requires none { T.HasTaken taker.old taker.old [] }
    ensures ready { OnOk result (T.IsReady taker.new) }
    ensures taken { OnOk result (T.HasTaken taker.old taker.new
        (kept_of (T.versions taker.old) (C.keeps chooser.now) (lines_left lines.entry))) }
    ensures bad { IfOk result (λ picked.
        map plain_line picked.bad.items ≡ bad_lines (T.versions taker.old) (lines_left lines.entry)) }
{
    let mut picked = Picked {
        bad: Vec::new(alloc),
        may_have_tags: false,
    };
    let mut left = lines;
    while let Some(line) = left.next() {
        if let Some((scheme, text)) = taker.text(line.text) {
            picked.may_have_tags |= begins_with_v(text);
            if pick_text(taker, chooser, scheme, text, line.text)? {
                continue;
            }
        }
        picked.bad.push(line)?;
    }
    Ok(picked)
}

// Gives the taker a line in which this text is to be the version, if it has one that is kept. Returns whether it has one.
#[inline(always)]
#[tactic(auto, using(version_schemes::proofs::lemmas::Any::mixed_is))]
fn pick_text<'a, T: Takes<'a>, C: Chooses>(
    taker: &mut T,
    chooser: &C,
    scheme: Scheme,
    text: &'a [u8],
    line: &'a [u8],
) -> Result<bool, AllocError>
    requires ready { T.IsReady taker.old }
    requires version { T.versions taker.old line.now ≡ any_of scheme text.now }
    ensures ready { T.IsReady taker.new }
    ensures versions { T.versions taker.new ≡ T.versions taker.old }
    ensures found { IfOk result (λ found. found ≡ is_some (T.versions taker.old line.now)) }
    ensures taken { OnOk result ((first : T) → (lines : List (List ℕ)) → T.HasTaken first taker.old lines
        → T.HasTaken first taker.new
        (lines ++ kept_lines (T.versions taker.old) (C.keeps chooser.now) (line.now ∷ []))) }
{
    with_version!(
        scheme,
        text,
        version => {
            take_kept(taker, chooser, version, line)?;
            Ok(true)
        },
        Ok(false)
    )
}

// Gives the taker a line that has this version, if it is kept. By value, so that each scheme's version is made where it
// stays.
#[inline(always)]
fn take_kept<'a, T: Takes<'a>, C: Chooses>(
    taker: &mut T,
    chooser: &C,
    version: AnyVersion<'a>,
    line: &'a [u8],
) -> Result<(), AllocError>
    requires ready { T.IsReady taker.old }
    requires version { T.versions taker.old line.now ≡ Some (plain_any version) }
    ensures ready { T.IsReady taker.new }
    ensures versions { T.versions taker.new ≡ T.versions taker.old }
    ensures taken { OnOk result ((first : T) → (lines : List (List ℕ)) → T.HasTaken first taker.old lines
        → T.HasTaken first taker.new
        (lines ++ kept_lines (T.versions taker.old) (C.keeps chooser.now) (line.now ∷ []))) }
{
    if chooser.keeps(&version) {
        taker.take(&version, line)?;
    }
    Ok(())
}

impl<'a, B: SortBy> Takes<'a> for KeyedLines<'a, B> {
    ghost use Rattle.std.specs.Prelude.{◌≡◌};
    ghost use Rattle.version_lines.specs.{Entry.lines_in, Entry.AreRead, Sort.version_in};

    ghost versions = { λ lines. version_in (B.reads lines.by) };

    ghost IsReady = { λ lines. AreRead B.reads lines };

    ghost HasTaken = { λ first now lines. (lines_in now ≡ lines) × (now.by ≡ first.by) };

    #[inline(always)]
    fn text(&self, line: &'a [u8]) -> Option<(Scheme, &'a [u8])> {
        Some(KeyedLines::text(self, line))
    }

    #[inline(always)]
    fn take(&mut self, version: &AnyVersion<'a>, line: &'a [u8]) -> Result<(), AllocError> {
        self.add(version, line)
    }
}

impl<'a, B: SortBy> Takes<'a> for NewestLine<'a, B> {
    ghost use Rattle.std.specs.Prelude.{◌≡◌, ⊤};
    ghost use Rattle.version_lines.specs.{Newest.IsNewestOf, Sort.version_in};

    ghost versions = { λ newest. version_in (B.reads newest.by) };

    ghost IsReady = { λ _. ⊤ };

    ghost HasTaken = { λ first now lines. IsNewestOf (B.reads now.by) lines now.newest
        × (now.by ≡ first.by) };

    #[inline(always)]
    fn text(&self, line: &'a [u8]) -> Option<(Scheme, &'a [u8])> {
        Some(NewestLine::text(self, line))
    }

    #[inline(always)]
    fn take(&mut self, version: &AnyVersion<'a>, line: &'a [u8]) -> Result<(), AllocError> {
        self.add(version, line);
        Ok(())
    }
}
