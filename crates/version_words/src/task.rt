//! Which task the words mean.

ghost use Rattle.std.specs.Prelude.{◌≡◌, ◌⊎◌, None, Some, IfErr, IfOk, true, false};
ghost use Rattle.clap.specs.Words.{all_of, subcommand_rows_of};
ghost use Rattle.version_usage.specs.Rows.{column_of, is_given, is_set, rows_in, word_of};
ghost use Rattle.version_words.specs.Task.{AreColumnNames, AreEachOptions, AreLineOptions, HasWrongCompare, HasWrongDiff, HasNoStep, HasWrongFilter, HasWrongLines, HasWrongNaming, HasWrongPlace, HasWrongSpelling, IsArrangement, IsNaming, IsPlace, IsQuestion, IsSpelling, IsStep, IsTaskOf, IsWrong};
ghost use Rattle.version_words.specs.{Words.IsTaskIn, Words.IsWrongIn};
ghost use Rattle.version_usage.specs.Named.{place_named};
ghost use Rattle.version_usage.specs.Rows.{command_in};
ghost use Rattle.version_usage.specs.Wrong.{ComesOfWrong};

use clap::ArgMatches;
use std::alloc::Global;
use version_answers::{Naming, Spelling, Step};
use version_lines::{Column, Separators};
use version_runs::{
    Arrangement, Choice, ColumnNames, EachOptions, LineOptions, Lists, Question, Task, VersionPlace,
};
use version_usage::faults::WordsFault;
use version_usage::named::{Verb, operator_named, place_named};
use version_usage::rows::{
    column_at, column_of, command_in, end_of, has_option_of_lists, header_of, invalid_of, is_crlf,
    is_given, is_set, key_column, lacks_set, level_of, line_end, name_of_column, number_of,
    refuse_columns, scheme_column_of, scheme_of, separators_of, text_of, texts_of, word_of,
    words_of,
};
use version_usage::table::{
    A, B, COUNT, CRLF, EXPLAIN, GROUP, INVALID_TO, INVERT_MATCH, JSON, KEY_COLUMN, LISTS, MATCH,
    OTHER, PLACE, PRE_WORD, PREFIX, PROGRESS, REVERSE, SCHEME, SCHEME_COLUMN, SET, TAGS, UNIQUE,
    WORDS_OF_TEST,
};
use version_usage::wrong::{wrong, wrong_operator, wrong_place};

/// Returns the task that the words parse as.
pub fn task_of<'w>(alloc: Global, matches: &ArgMatches<'w>) -> Result<Task<'w>, WordsFault>
    ensures task { IfOk result (IsTaskIn (command_in (subcommand_rows_of matches.now))) }
    ensures faults { IfErr result
        (ComesOfWrong (IsWrongIn (command_in (subcommand_rows_of matches.now)))) }
{
    let Some((command, options)) = command_in(matches) else {
        return Err(wrong(alloc, "a command is missing"));
    };
    match command {
        Verb::Sort => sort_task(alloc, options),
        Verb::Newest => newest_task(alloc, options),
        Verb::Filter => filter_task(alloc, options),
        Verb::Show => show_task(alloc, options),
        Verb::Key => key_task(alloc, options),
        Verb::Why => why_task(alloc, options),
        Verb::Next => next_task(alloc, options),
        Verb::Test => test_task(alloc, options),
        Verb::Compare => compare_task(alloc, options),
        Verb::Implies => Ok(Task::Implies(
            scheme_of(alloc, options)?,
            word_of(options, SET.name),
            word_of(options, OTHER.name),
        )),
        Verb::Meets => Ok(Task::Meets(
            scheme_of(alloc, options)?,
            word_of(options, SET.name),
            word_of(options, OTHER.name),
        )),
        Verb::Diff => diff_task(alloc, options),
    }
}

fn sort_task<'w>(alloc: Global, options: &ArgMatches<'w>) -> Result<Task<'w>, WordsFault>
    ensures task { IfOk result (IsTaskOf Verb.Sort (rows_in options.now)) }
    ensures faults { IfErr result (ComesOfWrong (HasWrongLines Verb.Sort (rows_in options.now))) }
{
    let separators = separators_of(alloc, options)?;
    let arrangement = Arrangement::Sort {
        reverse: is_set(options, REVERSE.name),
        unique: is_set(options, UNIQUE.name),
    };
    let line_options = line_options(alloc, Verb::Sort, arrangement, separators, options)?;
    Ok(Task::Lines(line_options, words_of(alloc, options)?))
}

fn newest_task<'w>(alloc: Global, options: &ArgMatches<'w>) -> Result<Task<'w>, WordsFault>
    ensures task { IfOk result (IsTaskOf Verb.Newest (rows_in options.now)) }
    ensures faults { IfErr result (ComesOfWrong (HasWrongLines Verb.Newest (rows_in options.now))) }
{
    let separators = separators_of(alloc, options)?;
    let arrangement = Arrangement::Newest {
        count: number_of(options, COUNT.name).unwrap_or(1),
        group: column_of(options, GROUP.name, separators),
    };
    let line_options = line_options(alloc, Verb::Newest, arrangement, separators, options)?;
    Ok(Task::Lines(line_options, words_of(alloc, options)?))
}

fn filter_task<'w>(alloc: Global, options: &ArgMatches<'w>) -> Result<Task<'w>, WordsFault>
    ensures task { IfOk result (IsTaskOf Verb.Filter (rows_in options.now)) }
    ensures faults { IfErr result (ComesOfWrong (HasWrongFilter (rows_in options.now))) }
{
    if lacks_set(options) {
        let what = "the following required arguments were not provided:\n  <SET>";
        return Err(wrong(alloc, what));
    }
    let separators = separators_of(alloc, options)?;
    let arrangement = Arrangement::Filter {
        set: text_of(options, SET.name),
        inverted: is_set(options, INVERT_MATCH.name),
    };
    let line_options = line_options(alloc, Verb::Filter, arrangement, separators, options)?;
    Ok(Task::Lines(line_options, words_of(alloc, options)?))
}

// Returns the columns that are asked for by their names, with this between columns.
fn column_names<'w>(separators: Separators<'w>, options: &ArgMatches<'w>) -> ColumnNames<'w>
    ensures { AreColumnNames separators.entry (rows_in options.now) result }
{
    ColumnNames {
        first: column_at(separators, 1),
        version: name_of_column(options, KEY_COLUMN.name),
        group: name_of_column(options, GROUP.name),
        scheme: name_of_column(options, SCHEME_COLUMN.name),
    }
}

// Returns what is asked of lines that are arranged so, with this between columns.
fn line_options<'w>(
    alloc: Global,
    command: Verb,
    arrangement: Arrangement<'w>,
    separators: Separators<'w>,
    options: &ArgMatches<'w>,
) -> Result<LineOptions<'w>, WordsFault>
    requires { IsArrangement command separators (rows_in options.now) arrangement }
    ensures options { IfOk result (AreLineOptions command separators.entry (rows_in options.now)) }
    ensures faults { IfErr result (ComesOfWrong (HasWrongLines command (rows_in options.now))) }
{
    let place = place_of(alloc, key_column(separators, options), options)?;
    let scheme_column = scheme_column_of(alloc, separators, options)?;
    refuse_columns(alloc, options)?;
    let least = level_of(alloc, options)?;
    let invalid = invalid_of(alloc, command, options)?;
    Ok(LineOptions {
        arrangement,
        end: line_end(separators, options),
        header: header_of(options),
        place,
        scheme_column,
        names: column_names(separators, options),
        choice: Choice {
            least,
            wanted: text_of(options, MATCH.name),
        },
        invalid,
        invalid_to: text_of(options, INVALID_TO.name),
        progress: is_set(options, PROGRESS.name),
    })
}

// Returns where a version is in a line.
fn place_of<'w>(
    alloc: Global,
    column: Option<Column<'w>>,
    options: &ArgMatches<'w>,
) -> Result<VersionPlace<'w>, WordsFault>
    ensures place { IfOk result (IsPlace (rows_in options.now) column.entry) }
    ensures faults { IfErr result (ComesOfWrong (HasWrongPlace (rows_in options.now))) }
{
    Ok(VersionPlace {
        crlf: is_crlf(options),
        column,
        spelling: spelling_of(alloc, options)?,
    })
}

// Returns how a text spells a version.
fn spelling_of<'w>(alloc: Global, options: &ArgMatches<'w>) -> Result<Spelling<'w>, WordsFault>
    ensures spelling { IfOk result (IsSpelling (rows_in options.now)) }
    ensures faults { IfErr result (ComesOfWrong (HasWrongSpelling (rows_in options.now))) }
{
    Ok(Spelling {
        naming: naming_of(alloc, options)?,
        scheme: scheme_of(alloc, options)?,
    })
}

// Returns how a version stands in its column.
fn naming_of<'w>(alloc: Global, options: &ArgMatches<'w>) -> Result<Naming<'w>, WordsFault>
    ensures naming { IfOk result (IsNaming (rows_in options.now)) }
    ensures faults { IfErr result (ComesOfWrong (HasWrongNaming (rows_in options.now))) }
{
    match (is_set(options, TAGS.name), text_of(options, PREFIX.name)) {
        (false, None) => Ok(Naming::Bare),
        (true, None) => Ok(Naming::Tag),
        (false, Some(prefix)) => Ok(Naming::Prefix(prefix)),
        (true, Some(_)) => {
            let what = "the argument '--tags' cannot be used with '--prefix <P>'";
            Err(wrong(alloc, what))
        }
    }
}

// Returns which versions are asked.
fn each_options<'w>(alloc: Global, options: &ArgMatches<'w>) -> Result<EachOptions<'w>, WordsFault>
    ensures options { IfOk result (AreEachOptions (rows_in options.now)) }
    ensures faults { IfErr result (ComesOfWrong (HasWrongNaming (rows_in options.now))) }
{
    let words = words_of(alloc, options)?;
    let versions = match words.as_slice() {
        ["-"] => Vec::new(alloc),
        _ => words,
    };
    Ok(EachOptions {
        versions,
        naming: naming_of(alloc, options)?,
        end: end_of(options),
        crlf: is_set(options, CRLF.name),
    })
}

fn show_task<'w>(alloc: Global, options: &ArgMatches<'w>) -> Result<Task<'w>, WordsFault>
    ensures task { IfOk result (IsTaskOf Verb.Show (rows_in options.now)) }
    ensures faults { IfErr result (ComesOfWrong (HasWrongNaming (rows_in options.now))) }
{
    let each_options = each_options(alloc, options)?;
    Ok(Task::Each(show_question(options), each_options))
}

// Returns what `show` asks.
fn show_question<'w>(options: &ArgMatches<'_>) -> Question<'w>
    ensures { IsQuestion Verb.Show (rows_in options.now) result }
{
    if is_set(options, JSON.name) {
        Question::Json
    } else {
        Question::Show
    }
}

fn key_task<'w>(alloc: Global, options: &ArgMatches<'w>) -> Result<Task<'w>, WordsFault>
    ensures task { IfOk result (IsTaskOf Verb.Key (rows_in options.now)) }
    ensures faults { IfErr result (ComesOfWrong (HasWrongSpelling (rows_in options.now))) }
{
    let question = Question::Key(scheme_of(alloc, options)?);
    Ok(Task::Each(question, each_options(alloc, options)?))
}

fn why_task<'w>(alloc: Global, options: &ArgMatches<'w>) -> Result<Task<'w>, WordsFault>
    ensures task { IfOk result (IsTaskOf Verb.Why (rows_in options.now)) }
    ensures faults { IfErr result (ComesOfWrong (HasWrongSpelling (rows_in options.now))) }
{
    let question = Question::Why(scheme_of(alloc, options)?, word_of(options, SET.name));
    Ok(Task::Each(question, each_options(alloc, options)?))
}

fn compare_task<'w>(alloc: Global, options: &ArgMatches<'w>) -> Result<Task<'w>, WordsFault>
    ensures task { IfOk result (IsTaskOf Verb.Compare (rows_in options.now)) }
    ensures faults { IfErr result (ComesOfWrong (HasWrongCompare (rows_in options.now))) }
{
    let (first, second) = (word_of(options, A.name), word_of(options, B.name));
    match (
        is_set(options, EXPLAIN.name),
        is_given(options, SCHEME.name),
    ) {
        (true, true) => {
            let what = "the argument '--explain' cannot be used with '--scheme <NAME>'";
            Err(wrong(alloc, what))
        }
        (true, false) => Ok(Task::Explain(naming_of(alloc, options)?, first, second)),
        (false, _) => Ok(Task::Compare(spelling_of(alloc, options)?, first, second)),
    }
}

fn next_task<'w>(alloc: Global, options: &ArgMatches<'w>) -> Result<Task<'w>, WordsFault>
    ensures task { IfOk result (IsTaskOf Verb.Next (rows_in options.now)) }
    ensures faults { IfErr result
        (ComesOfWrong (IsWrong Verb.Next (rows_in options.now))) }
{
    let question = Question::Next(step_of(alloc, options)?);
    Ok(Task::Each(question, each_options(alloc, options)?))
}

// Returns which version `next` is asked for.
fn step_of<'w>(alloc: Global, options: &ArgMatches<'w>) -> Result<Step<'w>, WordsFault>
    ensures step { IfOk result (IsStep (rows_in options.now)) }
    ensures faults { IfErr result (ComesOfWrong (HasNoStep (rows_in options.now))) }
{
    let word = word_of(options, PLACE.name);
    if word == "pre" {
        return Ok(Step::Pre(text_of(options, PRE_WORD.name)));
    }
    if is_given(options, PRE_WORD.name) {
        let what = "the argument '--word <W>' takes the place 'pre' alone";
        return Err(wrong(alloc, what));
    }
    if word == "release" {
        return Ok(Step::Release);
    }
    match place_named(word) {
        Some(place) => Ok(Step::Place(place)),
        None => Err(wrong_place(alloc, word)),
    }
}

fn test_task<'w>(alloc: Global, options: &ArgMatches<'w>) -> Result<Task<'w>, WordsFault>
    ensures task { IfOk result (IsTaskOf Verb.Test (rows_in options.now)) }
    ensures faults { IfErr result
        (ComesOfWrong (IsWrong Verb.Test (rows_in options.now))) }
{
    let spelling = spelling_of(alloc, options)?;
    match texts_of(options, WORDS_OF_TEST.name) {
        Some([version, set]) => Ok(Task::TestSet(spelling, version, set)),
        Some([first, word, second]) => match operator_named(word) {
            Some(operator) => Ok(Task::TestTwo(spelling, first, operator, second)),
            None => Err(wrong_operator(alloc, word)),
        },
        _ => Err(wrong(alloc, "two or three words are needed")),
    }
}

fn diff_task<'w>(alloc: Global, options: &ArgMatches<'w>) -> Result<Task<'w>, WordsFault>
    ensures task { IfOk result (IsTaskOf Verb.Diff (rows_in options.now)) }
    ensures faults { IfErr result (ComesOfWrong (HasWrongDiff (rows_in options.now))) }
{
    if is_set(options, LISTS.name) {
        return lists_task(alloc, options);
    }
    if has_option_of_lists(options) {
        return Err(wrong(alloc, what_lists_lack(options)));
    }
    Ok(Task::Difference(
        naming_of(alloc, options)?,
        word_of(options, A.name),
        word_of(options, B.name),
    ))
}

// Returns what is wrong with options for lists where none are compared.
fn what_lists_lack(options: &ArgMatches<'_>) -> &'static str {
    if is_given(options, SCHEME.name) {
        "the argument '--scheme <NAME>' takes '--lists' alone: two versions are compared by mixed"
    } else {
        "the following required arguments were not provided:\n  --lists"
    }
}

// Returns the task of `diff --lists`.
fn lists_task<'w>(alloc: Global, options: &ArgMatches<'w>) -> Result<Task<'w>, WordsFault>
    requires { is_set LISTS.name.now (rows_in options.now) ≡ true }
    ensures task { IfOk result (IsTaskOf Verb.Diff (rows_in options.now)) }
    ensures faults { IfErr result (ComesOfWrong (HasWrongDiff (rows_in options.now))) }
{
    let separators = separators_of(alloc, options)?;
    let name = number_of(options, GROUP.name).unwrap_or(1);
    let version = number_of(options, KEY_COLUMN.name).unwrap_or(2);
    let place = place_of(alloc, Some(column_at(separators, version)), options)?;
    let invalid = invalid_of(alloc, Verb::Diff, options)?;
    Ok(Task::Lists(Lists {
        old: word_of(options, A.name),
        new: word_of(options, B.name),
        end: line_end(separators, options),
        name: column_at(separators, name),
        place,
        invalid,
    }))
}
