//! Words that should be versions or sets.
ghost use Rattle.std.specs.Prelude.{◌≡◌, Option, Some, None, IfErr, IfOk};
ghost use Rattle.version_commands.specs.Fault.{unless_version, ComesOfSet, ComesOfTestedSet, ComesOfWords};
ghost use Rattle.version_answers.specs.{Message.IsRemark, Sets.keys_of, Spelling.mixed_spelling, Spelling.spelled, Spelling.spelled_mixed, declared.message.remark.Remark.Remark};
ghost use Rattle.version_schemes.specs.any.AnyVersion.{plain_any};
ghost use Rattle.version_sets.specs.Form.{has};
ghost use Rattle.version_texts.specs.VersioningRef.{plain_versioning_ref};

use std::alloc::Global;
use version_answers::{Naming, Set, Spelling};
use version_runs::TaskFault;
use version_schemes::{AnyVersion, Scheme};
use version_texts::VersioningRef;

/// Reads the version that a word spells. Otherwise the fault has the word.
pub fn version_of_word<'w>(
    spelling: &Spelling<'_>,
    word: &'w str,
) -> Result<AnyVersion<'w>, TaskFault<'w>>
    ensures ok { IfOk result (λ v. spelled spelling.now word.now ≡ Some (plain_any v)) }
    ensures faults { IfErr result (ComesOfWords spelling.now (unless_version (spelled spelling.now) word.now)) }
{
    match spelling.version(word.as_bytes()) {
        Some(version) => Ok(version),
        None => Err(TaskFault::NotVersion(word, spelling.remark(word.as_bytes()))),
    }
}

/// The same of the scheme mixed.
pub fn mixed_of_word<'w>(
    naming: &Naming<'_>,
    word: &'w str,
) -> Result<VersioningRef<'w>, TaskFault<'w>>
    ensures ok { IfOk result (λ v. spelled_mixed naming.now word.now ≡ Some (plain_versioning_ref v)) }
    ensures faults { IfErr result (ComesOfWords (mixed_spelling naming.now) (unless_version (spelled_mixed naming.now) word.now)) }
{
    match naming.mixed(word.as_bytes()) {
        Some(version) => Ok(version),
        None => {
            let remark = naming.mixed_spelling().remark(word.as_bytes());
            Err(TaskFault::NotVersion(word, remark))
        }
    }
}

/// Reads the version that a word spells, for a task that answers by its status.
pub fn tested_version<'w>(
    spelling: &Spelling<'_>,
    word: &'w str,
) -> Result<AnyVersion<'w>, TaskFault<'w>>
    ensures ok { IfOk result (λ v. spelled spelling.now word.now ≡ Some (plain_any v)) }
    ensures word { IfErr result (λ fault. (remark : Option Remark)
        × (fault ≡ TaskFault.NotTested word.entry remark) × (spelled spelling.now word.now ≡ None)
        × IsRemark spelling.now word.now remark) }
{
    match spelling.version(word.as_bytes()) {
        Some(version) => Ok(version),
        None => Err(TaskFault::NotTested(word, spelling.remark(word.as_bytes()))),
    }
}

/// Reads a word as a set of a scheme. Otherwise the fault has the word, and why it is none.
pub fn set_of_word<'w>(alloc: Global, scheme: Scheme, word: &'w str) -> Result<Set, TaskFault<'w>>
    ensures ok { IfOk result (λ set. keys_of scheme word.now ≡ Some (has set)) }
    ensures faults { IfErr result (ComesOfSet scheme word.now) }
{
    Set::read(alloc, scheme, word)?.map_err(TaskFault::NotSet)
}

/// The same for a task that answers by its status.
pub fn tested_set<'w>(alloc: Global, scheme: Scheme, word: &'w str) -> Result<Set, TaskFault<'w>>
    ensures ok { IfOk result (λ set. keys_of scheme word.now ≡ Some (has set)) }
    ensures faults { IfErr result (ComesOfTestedSet scheme word.now) }
{
    Set::read(alloc, scheme, word)?.map_err(TaskFault::NotTestedSet)
}
