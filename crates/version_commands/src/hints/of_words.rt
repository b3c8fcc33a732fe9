//! What a run over words tells beside: it may not have done what was meant.

ghost use Rattle.std.specs.Prelude.{◌≡◌, ◌<◌, ℕ, List, Option, Some, map, true};
ghost use Rattle.std.proofs.Common.{Bor};
ghost use Rattle.std.specs.List.{list_any};
ghost use Rattle.version_commands.specs.{Each.HasSet, Hints.is_kept_otherwise, Hints.IfTags, Hints.IsOfEach, Hints.MayTell, lines.Choice.is_of};
ghost use Rattle.version_answers.specs.{Message.IsRemark, Spelling.spelled, Tags.begins_with_v, Tags.compare_otherwise, Tags.is_bare, Tags.is_tested_otherwise, declared.message.remark.Remark.Remark};
ghost use Rattle.version_sets.specs.Form.{has};

use crate::hints::of_lines::is_kept_otherwise;
use std::alloc::{AllocError, Global};
use version_answers::{
    Naming, Operator, Set, Spelling, begins_with_v, compare_otherwise, has_next_in_tag,
    is_tested_otherwise,
};
use version_runs::{EachOptions, Files, Hint, Question, TaskFault};
use version_schemes::Scheme;

/// Tells where two versions compare otherwise by the versions in their tags.
pub fn tell_of_two<F: Files>(
    naming: Naming<'_>,
    scheme: Scheme,
    first: &str,
    second: &str,
    files: &F,
)
    requires hints { MayTell (IfTags ((is_bare naming ≡ true) × (compare_otherwise scheme first.now second.now ≡ true))) F.may_hint }
{
    if naming.is_bare() && compare_otherwise(scheme, first.as_bytes(), second.as_bytes()) {
        files.hint(Hint::Tags);
    }
}

/// Tells where `test` would answer otherwise of two versions by those in their tags.
pub fn tell_of_test<F: Files>(
    spelling: &Spelling<'_>,
    first: &str,
    operator: Operator,
    second: &str,
    answer: bool,
    files: &F,
)
    requires hints { MayTell (IfTags ((is_bare spelling.now.naming ≡ true)
        × (is_tested_otherwise spelling.now.scheme first.now operator second.now answer ≡ true))) F.may_hint }
{
    if spelling.naming.is_bare()
        && is_tested_otherwise(
            spelling.scheme,
            first.as_bytes(),
            operator,
            second.as_bytes(),
            answer,
        )
    {
        files.hint(Hint::Tags);
    }
}

/// Tells where a set has the version in the tag of one of some words and hasn't the word, or the other way round.
pub fn tell_of_set<F: Files>(spelling: &Spelling<'_>, words: &[&str], set: &Set, files: &F)
    requires hints { MayTell (IfTags ((is_bare spelling.now.naming ≡ true)
        × (list_any (λ word. is_kept_otherwise (is_of (has set.now)) spelling.now.scheme word.now) words.now ≡ true)))
        F.may_hint }
{
    if spelling.naming.is_bare() && any_had_otherwise(spelling.scheme, words, set) {
        files.hint(Hint::Tags);
    }
}

// Whether a set has the version in the tag of one of some words and hasn't the word, or the other way round.
fn any_had_otherwise(scheme: Scheme, words: &[&str], set: &Set) -> bool
    ensures { result ≡ list_any (λ word. is_kept_otherwise (is_of (has set.now)) scheme word.now) words.now }
{
    for word in words {
        if is_kept_otherwise(set, scheme, word.as_bytes()) {
            return true;
        }
    }
    false
}

/// Tells where `why` would answer otherwise of one of the words by the version in its tag. Of lines it tells nothing.
pub fn tell_of_why<F: Files>(
    alloc: Global,
    question: Question<'_>,
    options: &EachOptions<'_>,
    files: &F,
) -> Result<(), AllocError>
    requires hints { MayTell (IsOfEach question options.now) F.may_hint }
{
    let Question::Why(scheme, word) = question else {
        return Ok(());
    };
    if !options
        .versions
        .iter()
        .any(|word| begins_with_v(word.as_bytes()))
    {
        return Ok(());
    }
    if let Ok(set) = Set::read(alloc, scheme, word)? {
        tell_of_asked(question, options, &set, files);
    }
    Ok(())
}

// The same by the set that the question's word is.
fn tell_of_asked<F: Files>(question: Question<'_>, options: &EachOptions<'_>, set: &Set, files: &F)
    requires set { HasSet question (Some set.now) }
    requires hints { MayTell (IsOfEach question options.now) F.may_hint }
{
    if let Question::Why(_, _) = question {
        let spelling = question.spelling(options.naming);
        tell_of_set(&spelling, options.versions.as_slice(), set, files);
    }
}

/// Tells where no version comes next to one of the words, and one does to the version in its tag.
pub fn tell_of_next<T, F: Files>(
    question: Question<'_>,
    options: &EachOptions<'_>,
    answered: &Result<T, TaskFault<'_>>,
    files: &F,
)
    requires hints { MayTell (IsOfEach question options.now) F.may_hint }
{
    if let (Question::Next(step), Err(TaskFault::NoNext(_))) = (question, answered) {
        for word in &options.versions {
            if options.naming.is_bare() && has_next_in_tag(step, word.as_bytes()) {
                files.hint(Hint::Tags);
                return;
            }
        }
    }
}

/// Tells which words are no versions.
pub fn tell_others<F: Files>(spelling: &Spelling<'_>, words: &[&str], files: &F)
    requires hints { (word : Bor (List ℕ)) (remark : Option Remark) → spelled spelling.now word.now ≡ None
        → IsRemark spelling.now word.now remark → F.may_hint (Hint.NotVersion word remark) }
{
    for word in words {
        if spelling.version(word.as_bytes()).is_none() {
            files.hint(Hint::NotVersion(word, spelling.remark(word.as_bytes())));
        }
    }
}
