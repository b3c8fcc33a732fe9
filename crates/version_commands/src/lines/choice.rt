//! Which lines that have a version are kept.
ghost use Rattle.std.specs.Prelude.{◌≡◌, true, None, Some, IfErr, IfOk, IsTrue, OnOk};
ghost use Rattle.version_commands.specs.lines.Choice.{filter_word, is_kept, is_stable_enough, is_wanted, keeps_of, passes, passes_of, stability_by, wanted_of, wrong_set, wrong_word};
ghost use Rattle.version_commands.specs.Fault.{ComesOfSets};
ghost use Rattle.version_schemes.specs.any.{AnyVersion.plain_any, Order.PlainAny};

use crate::lines::pick::Chooses;
use crate::words::word::set_of_word;
use std::alloc::Global;
use version_answers::Set;
use version_runs::{Arrangement, Choice, TaskFault};
use version_schemes::{AnyVersion, Scheme};
use version_tasks::{Stability, stability_of, stability_of_text};
use version_texts::VersioningRef;

/// The set of `filter`.
#[derive(Drop)]
pub struct Filter {
    pub set: Set,
    /// Whether the lines that it has not are kept, in place of those that it has.
    pub inverted: bool,
}

/// Which versions are kept: a choice, and the set of `filter`, read.
#[derive(Drop)]
pub struct Chooser {
    /// No less stable ones.
    pub least: Stability,
    /// Only those of this set.
    pub wanted: Option<Set>,
    pub filter: Option<Filter>,
}

impl Chooser {
    /// Reads the sets of a choice and of an arrangement. Otherwise the fault has the first word of theirs that is none;
    /// the one of `filter` comes first.
    pub fn new<'w>(
        alloc: Global,
        scheme: Scheme,
        choice: &Choice<'w>,
        arrangement: &Arrangement<'w>,
    ) -> Result<Chooser, TaskFault<'w>>
        ensures ok { IfOk result (λ chooser.
            keeps_of scheme choice.now arrangement.now ≡ Some (is_kept chooser)) }
        ensures faults { IfErr result (ComesOfSets scheme (wrong_set scheme choice.now arrangement.now)) }
    {
        let filter = filter_of(alloc, scheme, arrangement)?;
        let wanted = wanted_of(alloc, scheme, choice.wanted)?;
        Ok(Chooser {
            least: choice.least,
            wanted,
            filter,
        })
    }

    /// Whether each version is kept, as where nothing is asked.
    pub fn keeps_all(&self) -> bool
        ensures { IsTrue result → (v : PlainAny) → is_kept self.now v ≡ true }
    {
        matches!(
            self,
            Chooser {
                least: Stability::Dev,
                wanted: None,
                filter: None,
            }
        )
    }

    /// Returns whether a version is kept.
    #[inline(always)]
    pub fn keeps(&self, version: &AnyVersion<'_>) -> bool
        ensures { result ≡ is_kept self.now (plain_any version.now) }
    {
        is_stable_enough(self.least, version)
            && is_wanted(&self.wanted, version)
            && passes(&self.filter, version)
    }
}

// Reads the set of `filter`, if the arrangement is one with a set.
fn filter_of<'w>(
    alloc: Global,
    scheme: Scheme,
    arrangement: &Arrangement<'w>,
) -> Result<Option<Filter>, TaskFault<'w>>
    ensures ok { IfOk result (λ filter. passes_of scheme arrangement.now ≡ Some (passes filter)) }
    ensures right { OnOk result (wrong_word scheme (filter_word arrangement.now) ≡ None) }
    ensures faults { IfErr result (ComesOfSets scheme (wrong_word scheme (filter_word arrangement.now))) }
{
    match arrangement {
        Arrangement::Filter {
            set: Some(word),
            inverted,
        } => Ok(Some(Filter {
            set: set_of_word(alloc, scheme, word)?,
            inverted: *inverted,
        })),
        _ => Ok(None),
    }
}

// Reads the set that a word is, if there is a word.
fn wanted_of<'w>(
    alloc: Global,
    scheme: Scheme,
    word: Option<&'w str>,
) -> Result<Option<Set>, TaskFault<'w>>
    ensures ok { IfOk result (λ wanted. wanted_of scheme word.entry ≡ Some (is_wanted wanted)) }
    ensures faults { IfErr result (ComesOfSets scheme (wrong_word scheme word.entry)) }
{
    match word {
        Some(word) => Ok(Some(set_of_word(alloc, scheme, word)?)),
        None => Ok(None),
    }
}

// Whether a version is as stable as this, or more.
#[inline(always)]
fn is_stable_enough(least: Stability, version: &AnyVersion<'_>) -> bool
    ensures { result ≡ is_stable_enough least (plain_any version.now) }
{
    least == Stability::Dev || least <= stability_by(version)
}

// Returns how stable a version is.
fn stability_by(version: &AnyVersion<'_>) -> Stability
    ensures { result ≡ stability_by (plain_any version.now).scheme (plain_any version.now).text }
{
    match version.scheme() {
        Scheme::Mixed | Scheme::SemVer => match VersioningRef::from_bytes(version.bytes()) {
            Some(version) => stability_of(&version),
            None => stability_of_text(version.bytes()),
        },
        _ => stability_of_text(version.bytes()),
    }
}

// Whether a version is in a set, if there is a set.
fn is_wanted(wanted: &Option<Set>, version: &AnyVersion<'_>) -> bool
    ensures { result ≡ is_wanted wanted.now (plain_any version.now) }
{
    match wanted {
        Some(wanted) => wanted.has(version),
        None => true,
    }
}

// Whether a filter keeps a version, if there is a filter.
fn passes(filter: &Option<Filter>, version: &AnyVersion<'_>) -> bool
    ensures { result ≡ passes filter.now (plain_any version.now) }
{
    match filter {
        Some(filter) => filter.set.has(version) != filter.inverted,
        None => true,
    }
}

impl Chooses for Set {
    ghost use Rattle.version_commands.specs.lines.Choice.{is_of};
    ghost use Rattle.version_sets.specs.Form.{has};

    ghost keeps = { λ set. is_of (has set) };

    fn keeps_all(&self) -> bool {
        false
    }

    fn keeps(&self, version: &AnyVersion<'_>) -> bool {
        self.has(version)
    }
}

impl Chooses for Chooser {
    ghost use Rattle.version_commands.specs.lines.Choice.{is_kept};

    ghost keeps = { λ chooser. is_kept chooser };

    fn keeps_all(&self) -> bool {
        Chooser::keeps_all(self)
    }

    #[inline(always)]
    fn keeps(&self, version: &AnyVersion<'_>) -> bool {
        Chooser::keeps(self, version)
    }
}
