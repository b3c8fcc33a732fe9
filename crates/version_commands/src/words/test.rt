//! The commands `test`, `implies` and `meets`, which answer by their status.

ghost use Rattle.std.specs.Prelude.{◌≡◌, ◌∷◌, [], Bool, Some, true, IfErr, IfOk};
ghost use Rattle.version_commands.specs.{Fault.first_wrong, Fault.ComesOfTestOfSet, Fault.ComesOfTestOfSets, Fault.ComesOfTestOfTwo, Hints.HasOtherwise, Hints.IfTags, Hints.MayTell};
ghost use Rattle.version_commands.specs.Output.{answer_line, answer_of_set, answer_of_two, AreSetsSo};
ghost use Rattle.version_answers.specs.{Spelling.spelled, Tags.is_bare, Tags.is_tested_otherwise};
ghost use Rattle.version_sets.specs.Form.{IsPart, Meet};

use crate::hints::of_words::{tell_of_set, tell_of_test};
use crate::words::word::{tested_set, tested_version};
use std::alloc::Global;
use version_answers::{Operator, Spelling, holds};
use version_runs::{Files, TaskFault};
use version_schemes::Scheme;

/// Returns whether an operator holds between two versions by their precedence. Otherwise the fault has the first word
/// that is none.
pub(crate) fn test_two<'w, F: Files>(
    spelling: &Spelling<'_>,
    first: &'w str,
    operator: Operator,
    second: &'w str,
    files: &F,
) -> Result<bool, TaskFault<'w>>
    requires hints { MayTell (IfTags ((answer : Bool)
        × (answer_of_two spelling.now operator first.now second.now ≡ Some answer) × (is_bare spelling.now.naming ≡ true)
        × (is_tested_otherwise spelling.now.scheme first.now operator second.now answer ≡ true))) F.may_hint }
    ensures answer { IfOk result (λ yes. answer_of_two spelling.now operator first.now second.now ≡ Some yes) }
    ensures faults { IfErr result (ComesOfTestOfTwo spelling.now (first_wrong (spelled spelling.now) (first.now ∷ second.now ∷ []))) }
{
    let version = tested_version(spelling, first)?;
    let other = tested_version(spelling, second)?;
    let answer = holds(operator, version.precedence(&other));
    tell_of_test(spelling, first, operator, second, answer, files);
    Ok(answer)
}

/// Returns whether a set has a version. Otherwise the fault has the first word that is wrong.
pub(crate) fn test_set<'w, F: Files>(
    alloc: Global,
    spelling: &Spelling<'_>,
    word: &'w str,
    set: &'w str,
    files: &F,
) -> Result<bool, TaskFault<'w>>
    requires hints { MayTell (IfTags (HasOtherwise spelling.now.naming spelling.now.scheme set.now (word ∷ []))) F.may_hint }
    ensures answer { IfOk result (λ yes. answer_of_set spelling.now word.now set.now ≡ Some yes) }
    ensures faults { IfErr result (ComesOfTestOfSet spelling.now word.now set.now) }
{
    let version = tested_version(spelling, word)?;
    let set = tested_set(alloc, spelling.scheme, set)?;
    tell_of_set(spelling, &[word], &set, files);
    Ok(set.has(&version))
}

/// Returns whether another set has all that a set has. Otherwise the fault has the first word that is none.
pub(crate) fn implies<'w>(
    alloc: Global,
    scheme: Scheme,
    one: &'w str,
    other: &'w str,
) -> Result<bool, TaskFault<'w>>
    ensures answer { IfOk result (λ yes. AreSetsSo scheme (IsPart yes) one.now other.now) }
    ensures faults { IfErr result (ComesOfTestOfSets scheme one.now other.now) }
{
    let one = tested_set(alloc, scheme, one)?;
    let other = tested_set(alloc, scheme, other)?;
    Ok(one.is_part_of(&other))
}

/// Returns whether two sets have a key in common. Otherwise the fault has the first word that is none.
pub(crate) fn meets<'w>(
    alloc: Global,
    scheme: Scheme,
    one: &'w str,
    other: &'w str,
) -> Result<bool, TaskFault<'w>>
    ensures answer { IfOk result (λ yes. AreSetsSo scheme (Meet yes) one.now other.now) }
    ensures faults { IfErr result (ComesOfTestOfSets scheme one.now other.now) }
{
    let one = tested_set(alloc, scheme, one)?;
    let other = tested_set(alloc, scheme, other)?;
    Ok(one.meets(&other))
}

/// Returns the line for an answer.
pub(crate) fn answer_line(yes: bool) -> &'static [u8]
    ensures { result.now ≡ answer_line yes }
{
    if yes { b"yes\n" } else { b"no\n" }
}
