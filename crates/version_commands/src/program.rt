//! What a task does over any files, reader and writer.
ghost use Rattle.std.specs.Prelude.{◌≡◌, ◌∷◌, ◌++◌, [], map, None, false, true, IfErr, IfOk, OnOk};
ghost use Rattle.version_commands.specs.Output.{asks_reader, file_of, answer_line, Answers, AreChanges, IsLineOfTwo, IsOutput};
ghost use Rattle.version_commands.specs.{Cause.ComesOf, Cause.ComesOfChanges, Fault.first_wrong, Fault.ComesOfBad, Fault.ComesOfWords, Files.AltersAtMost, Files.Leaves, Files.reads_standard, Hints.IsHint, Hints.IsOfLists, Hints.MayTell};
ghost use Rattle.version_commands.specs.{Lists.names_of, Run.IfOfWord, Run.UnlessLate, Run.Ends};
ghost use Rattle.version_answers.specs.{Spelling.mixed_spelling, Spelling.spelled, Spelling.spelled_mixed, Two.comparison_line, Two.sign_text, Two.explained_line, Two.difference_line};
ghost use Rattle.version_lines.specs.{Inputs.plain_line, Lines.line_feed};

use crate::bad::refuse_first;
use crate::hints::of_lines::{tell_of_fault, tell_of_repeated, tell_of_separators};
use crate::hints::of_words::{tell_of_next, tell_of_two, tell_of_why, tell_others};
use crate::inputs::read_input;
use crate::lines::first_word::serve_by_words;
use crate::lines::standard::{write_labels, write_matched};
use crate::lines::write::write_answer;
use crate::lists::{add_lists, read_names, repeated};
use crate::words::each::answer_each;
use crate::words::test::{answer_line, implies, meets, test_set, test_two};
use crate::words::word::{mixed_of_word, version_of_word};
use std::alloc::Global;
use std::cmp::Ordering;
use std::io::Write;
use version_answers::{Naming, Spelling, add_difference, add_explained};
use version_lines::{Invalid, Line, Source};
use version_runs::{Files, Lists, Task, TaskFault};
use version_schemes::Scheme;

/// Does a task, and returns whether it answers yes: one that answers by its output alone does. What it writes is
/// `IsOutput` of the task and of what its files and the reader hold, a fault `ComesOf` the same, and each hint that it
/// tells is an `IsHint` of them. At a fault the writer got nothing, or a proper beginning if it takes no more. A task that doesn't
/// read standard input leaves the reader as it is. Each leaves all files as they are but the one for lines without a
/// version, at a fault too.
pub fn serve<'w, F: Files, R: Source, W: Write>(
    alloc: Global,
    task: &Task<'w>,
    files: &mut F,
    reader: &mut R,
    writer: &mut W,
) -> Result<bool, TaskFault<'w>>
    requires hints { MayTell (IsHint task.now (F.reads files.old) (F.finds files.old) (F.refuses files.old) (R.may_fail reader.old)
        (R.remaining reader.old)) F.may_hint }
    ensures answers { IfOk result (Answers task.now) }
    ensures ends { Ends (IsOutput task.now (F.reads files.old) (F.finds files.old) (R.remaining reader.old)
        (R.remaining reader.new) (Leaves F.puts files.old files.new))
        (ComesOf task.now (F.reads files.old) (F.finds files.old) (F.refuses files.old)
        (R.may_fail reader.old) (R.remaining reader.old))
        (W.contents writer.old) (W.contents writer.new) result }
    ensures unread { asks_reader task.now ≡ false → reader.new ≡ reader.old }
    ensures files { AltersAtMost F.alters (file_of task.now) files.old files.new }
    ensures kept { UnlessLate (files.new ≡ files.old) result }
    ensures early { IfOfWord (reader.new ≡ reader.old) result }
{
    match task {
        Task::Lines(options, names) => {
            let served = serve_by_words(alloc, options, names.as_slice(), files, reader, writer);
            tell_of_separators(options, &served, files);
            tell_of_fault(options, &served, files);
            served?;
            Ok(true)
        }
        Task::Each(question, options) => {
            let answered = answer_each(alloc, *question, options, files, reader);
            tell_of_next(*question, options, &answered, files);
            let answered = answered?;
            tell_of_why(alloc, *question, options, files)?;
            write_answer(writer, answered.output.as_slice())?;
            let spelling = question.spelling(options.naming);
            tell_others(&spelling, answered.others.as_slice(), files);
            Ok(answered.others.is_empty())
        }
        Task::TestTwo(spelling, first, operator, second) => {
            test_two(spelling, first, *operator, second, files)
        }
        Task::TestSet(spelling, version, set) => test_set(alloc, spelling, version, set, files),
        Task::Implies(scheme, one, other) => {
            write_yes_or_no(writer, implies(alloc, *scheme, one, other)?)
        }
        Task::Meets(scheme, one, other) => {
            write_yes_or_no(writer, meets(alloc, *scheme, one, other)?)
        }
        Task::Compare(spelling, first, second) => {
            write_answer(writer, comparison(spelling, first, second)?)?;
            tell_of_two(spelling.naming, spelling.scheme, first, second, files);
            Ok(true)
        }
        Task::Explain(naming, first, second) => {
            let output = explanation(alloc, naming, first, second)?;
            write_answer(writer, output.as_slice())?;
            tell_of_two(*naming, Scheme::Mixed, first, second, files);
            Ok(true)
        }
        Task::Difference(naming, first, second) => {
            let output = difference(alloc, naming, first, second)?;
            write_text(writer, output.as_slice())
        }
        Task::Lists(lists) => {
            let output = changes(alloc, lists, files, reader)?;
            write_text(writer, output.as_slice())
        }
        Task::Label(labels) => {
            write_labels(alloc, *labels, reader, writer)?;
            Ok(true)
        }
        Task::Match(list) => {
            write_matched(alloc, list, reader, writer)?;
            Ok(true)
        }
        Task::Say(text) => write_text(writer, text.as_bytes()),
    }
}

// Writes what a task answers by its output alone.
fn write_text<'w, W: Write>(writer: &mut W, text: &[u8]) -> Result<bool, TaskFault<'w>>
    ensures ends { Ends (λ output. output ≡ text.now) (λ _. ⊥)
        (W.contents writer.old) (W.contents writer.new) result }
    ensures yes { IfOk result (λ answer. answer ≡ true) }
{
    write_answer(writer, text)?;
    Ok(true)
}

// Writes the line for an answer, and returns the answer.
fn write_yes_or_no<'w, W: Write>(writer: &mut W, yes: bool) -> Result<bool, TaskFault<'w>>
    ensures ends { Ends (λ output. output ≡ answer_line yes) (λ _. ⊥)
        (W.contents writer.old) (W.contents writer.new) result }
    ensures same { IfOk result (λ answer. answer ≡ yes) }
{
    write_answer(writer, answer_line(yes))?;
    Ok(yes)
}

// Returns the line of `compare`.
fn comparison<'w>(
    spelling: &Spelling<'_>,
    first: &'w str,
    second: &'w str,
) -> Result<&'static [u8], TaskFault<'w>>
    ensures output { IfOk result (λ line.
        IsLineOfTwo (spelled spelling.now) (comparison_line line_feed) first.now second.now line.now) }
    ensures faults { IfErr result (ComesOfWords spelling.now (first_wrong (spelled spelling.now) (first.now ∷ second.now ∷ []))) }
{
    let first = version_of_word(spelling, first)?;
    let second = version_of_word(spelling, second)?;
    Ok(sign_line(first.precedence(&second)))
}

// Returns the line of the sign of an ordering.
fn sign_line(order: Ordering) -> &'static [u8]
    ensures { result.now ≡ sign_text order ++ line_feed ∷ [] }
{
    match order {
        Ordering::Less => b"<\n",
        Ordering::Equal => b"=\n",
        Ordering::Greater => b">\n",
    }
}

// Returns the line of `compare --explain`.
fn explanation<'w>(
    alloc: Global,
    naming: &Naming<'_>,
    first: &'w str,
    second: &'w str,
) -> Result<Vec<u8>, TaskFault<'w>>
    ensures output { IfOk result (λ output.
        IsLineOfTwo (spelled_mixed naming.now) (explained_line line_feed) first.now second.now output.items) }
    ensures faults { IfErr result (ComesOfWords (mixed_spelling naming.now) (first_wrong (spelled_mixed naming.now) (first.now ∷ second.now ∷ []))) }
{
    let first = mixed_of_word(naming, first)?;
    let second = mixed_of_word(naming, second)?;
    let mut output = Vec::new(alloc);
    add_explained(&first, &second, b'\n', &mut output)?;
    Ok(output)
}

// Returns the line of `diff`.
fn difference<'w>(
    alloc: Global,
    naming: &Naming<'_>,
    first: &'w str,
    second: &'w str,
) -> Result<Vec<u8>, TaskFault<'w>>
    ensures output { IfOk result (λ output.
        IsLineOfTwo (spelled_mixed naming.now) (difference_line line_feed) first.now second.now output.items) }
    ensures faults { IfErr result (ComesOfWords (mixed_spelling naming.now) (first_wrong (spelled_mixed naming.now) (first.now ∷ second.now ∷ []))) }
{
    let first = mixed_of_word(naming, first)?;
    let second = mixed_of_word(naming, second)?;
    let mut output = Vec::new(alloc);
    add_difference(&first, &second, b'\n', &mut output)?;
    Ok(output)
}

// Returns the lines of `diff --lists`.
fn changes<'w, F: Files, R: Source>(
    alloc: Global,
    lists: &Lists<'w>,
    files: &F,
    reader: &mut R,
) -> Result<Vec<u8>, TaskFault<'w>>
    requires hints { MayTell (IsOfLists lists.now (F.reads files.now) (R.remaining reader.old)) F.may_hint }
    ensures output { IfOk result (λ output. AreChanges lists.now (F.reads files.now)
        (R.remaining reader.old) (R.remaining reader.new) output.items) }
    ensures unread { reads_standard (names_of lists.now) ≡ false → reader.new ≡ reader.old }
    ensures faults { IfErr result (ComesOfChanges lists.now (F.reads files.now) (R.may_fail reader.old)
        (R.remaining reader.old)) }
{
    let old = read_input(alloc, lists.old, lists.end, files, reader)?;
    let new = read_input(alloc, lists.new, lists.end, files, reader)?;
    let (old_text, new_text) = (old.as_slice(), new.as_slice());
    let (old_names, old_bad) = read_names(alloc, lists, lists.old, old_text)?;
    let (new_names, new_bad) = read_names(alloc, lists, lists.new, new_text)?;
    refuse_of_list(alloc, lists, old_bad.as_slice())?;
    refuse_of_list(alloc, lists, new_bad.as_slice())?;
    let repeated_old = repeated(lists, lists.old, old_text, &old_names, old_bad.as_slice());
    tell_of_repeated(lists.old, repeated_old, files);
    let repeated_new = repeated(lists, lists.new, new_text, &new_names, new_bad.as_slice());
    tell_of_repeated(lists.new, repeated_new, files);
    let mut output = Vec::new(alloc);
    add_lists(&old_names, &new_names, lists.end.byte, &mut output)?;
    Ok(output)
}

// Fails with the first of the lines of a list that have no version, if there is one and the options ask for that.
fn refuse_of_list<'w>(
    alloc: Global,
    lists: &Lists<'_>,
    bad: &[Line<'_, 'w>],
) -> Result<(), TaskFault<'w>>
    ensures none { OnOk result (lists.now.invalid ≡ Invalid.Fail → bad.now ≡ []) }
    ensures faults { IfErr result (ComesOfBad lists.now.invalid lists.now.place None (map plain_line bad.now)) }
{
    match lists.invalid {
        Invalid::Fail => refuse_first(alloc, &lists.place, None, bad),
        Invalid::Skip | Invalid::First | Invalid::Last => Ok(()),
    }
}
