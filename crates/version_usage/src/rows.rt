//! What the words say to a command.
#![tactic(auto, using(crate::proofs::lemmas::Words::word_wrong, crate::proofs::lemmas::Words::rows_found))]

ghost use Rattle.std.specs.Prelude.{◌≡◌, ◌⊎◌, None, Some, false, true, map, option_map, IfErr, IfOk, OnOk, unwrap_or};
ghost use Rattle.clap.specs.Words.{all_of, first_of, subcommand_rows_of};
ghost use Rattle.version_usage.specs.Rows.{column_at, column_of, csv_separator, end_of, has_no_column, has_option_of_lists, has_two_schemes, has_wrong_column, header_of, invalid_of, invalid_unasked, invalid_word, is_crlf, is_csv, is_given, is_named, is_set, key_of, lacks_header, lacks_set, level_of, line_end, name_of_column, number_of, rows_in, scheme_of, separators_asked, word_of, words_of, AreSeparators, HasNoSeparators};
ghost use Rattle.version_usage.specs.Rows.{HasNoColumn, HasWrongColumn, HasWrongInvalid, HasWrongLevel, HasWrongScheme};
ghost use Rattle.version_usage.specs.Wrong.{Quotes};
ghost use Rattle.version_usage.specs.Rows.{command_in};
ghost use Rattle.version_usage.specs.Wrong.{ComesOfWrong};

use crate::faults::WordsFault;
use crate::named::{
    Verb, count_named, invalid_asked, invalid_named, is_no_column, is_number, may_ask,
    separators_named, stability_named, verb_named,
};
use crate::table::{
    CRLF, CSV, FIELD_SEPARATOR, GROUP, HEADER, HEADER_LINES, INVALID, INVALID_TO, INVERT_MATCH,
    KEY_COLUMN, MATCH, MIN_STABILITY, SCHEME, SCHEME_COLUMN, SET, ZERO_TERMINATED,
};
use crate::wrong::{
    wrong, wrong_column, wrong_csv_separator, wrong_invalid, wrong_scheme, wrong_separators,
    wrong_stability,
};
use clap::ArgMatches;
use std::alloc::{AllocError, Global};
use version_lines::{Column, Invalid, LineEnd, Separators};
use version_schemes::Scheme;
use version_tasks::Stability;

/// Returns the command that the words name, and what they say to it.
pub fn command_in<'m, 'w>(matches: &'m ArgMatches<'w>) -> Option<(Verb, &'m ArgMatches<'w>)>
    ensures { option_map (λ found. (found.0, rows_in found.1.now)) result
        ≡ command_in (subcommand_rows_of matches.now) }
{
    let (name, options) = matches.subcommand()?;
    Some((verb_named(name)?, options))
}

/// Returns the text of an argument, if it is given.
pub fn text_of<'w>(options: &ArgMatches<'w>, name: &str) -> Option<&'w str>
    ensures { option_map (λ text. text.now) result ≡ first_of name.now (rows_in options.now) }
{
    options.get_str(name)
}

/// Returns the texts of an argument, if it is given.
pub fn texts_of<'m, 'w>(options: &'m ArgMatches<'w>, name: &str) -> Option<&'m [&'w str]>
    ensures { option_map (λ texts. map (λ text. text.now) texts.now) result
        ≡ all_of name.now (rows_in options.now) }
{
    options.get_strs(name)
}

/// Returns whether a flag is given.
pub fn is_set(options: &ArgMatches<'_>, name: &str) -> bool
    ensures { result ≡ is_set name.now (rows_in options.now) }
{
    match text_of(options, name) {
        Some(text) => text == "true",
        None => false,
    }
}

/// Returns whether an option with a value is given.
pub fn is_given(options: &ArgMatches<'_>, name: &str) -> bool
    ensures { result ≡ is_given name.now (rows_in options.now) }
{
    text_of(options, name).is_some()
}

/// Returns the word of an argument that has to be there.
pub fn word_of<'w>(options: &ArgMatches<'w>, name: &str) -> &'w str
    ensures { result.now ≡ word_of name.now (rows_in options.now) }
{
    text_of(options, name).unwrap_or("")
}

/// Returns the files or the versions.
pub fn words_of<'w>(alloc: Global, options: &ArgMatches<'w>) -> Result<Vec<&'w str>, AllocError>
    ensures { IfOk result (λ words. map (λ word. word.now) words.items ≡ words_of (rows_in options.now)) }
{
    match texts_of(options, "WORDS") {
        Some(words) => Vec::from_slice(alloc, words),
        None => Ok(Vec::new(alloc)),
    }
}

/// Returns the number of an option.
pub fn number_of(options: &ArgMatches<'_>, name: &str) -> Option<usize>
    ensures { result ≡ number_of name.now (rows_in options.now) }
{
    count_named(text_of(options, name)?)
}

/// Returns the byte that ends lines.
pub fn end_of(options: &ArgMatches<'_>) -> u8
    ensures { result ≡ end_of (rows_in options.now) }
{
    if is_set(options, ZERO_TERMINATED.name) {
        0
    } else {
        b'\n'
    }
}

/// Returns how many lines stay on top: so many, one, or none.
pub fn header_of(options: &ArgMatches<'_>) -> usize
    ensures { result ≡ header_of (rows_in options.now) }
{
    match number_of(options, HEADER_LINES.name) {
        Some(count) => count,
        None => usize::from(is_set(options, HEADER.name)),
    }
}

/// Returns what stands between columns.
pub fn separators_of<'w>(
    alloc: Global,
    options: &ArgMatches<'w>,
) -> Result<Separators<'w>, WordsFault>
    ensures ok { IfOk result (AreSeparators (rows_in options.now)) }
    ensures faults { IfErr result (ComesOfWrong (HasNoSeparators (rows_in options.now))) }
{
    let asked = separators_asked(alloc, options)?;
    if is_csv(options) {
        return match csv_separator(end_of(options), asked) {
            Some(separator) => Ok(Separators::Csv(separator)),
            None => Err(wrong_csv_separator(alloc, word_of(options, FIELD_SEPARATOR.name))),
        };
    }
    match asked {
        Some(bytes) => Ok(Separators::Bytes(bytes)),
        None => Ok(Separators::Blanks),
    }
}

// Returns the bytes between columns, if they are asked for.
fn separators_asked<'w>(
    alloc: Global,
    options: &ArgMatches<'w>,
) -> Result<Option<&'w [u8]>, WordsFault>
    ensures ok { IfOk result (λ asked. separators_asked (rows_in options.now)
        ≡ Some (option_map (λ bytes. bytes.now) asked)) }
    ensures faults { IfErr result (ComesOfWrong (λ fault. (separators_asked (rows_in options.now) ≡ None)
        × Quotes (word_of FIELD_SEPARATOR.name.now (rows_in options.now)) fault)) }
{
    let Some(word) = text_of(options, FIELD_SEPARATOR.name) else {
        return Ok(None);
    };
    match separators_named(word) {
        Some(bytes) => Ok(Some(bytes)),
        None => Err(wrong_separators(alloc, word)),
    }
}

// Returns the byte between the fields of CSV.
fn csv_separator(end: u8, asked: Option<&[u8]>) -> Option<u8>
    ensures { result ≡ csv_separator end (option_map (λ bytes. bytes.now) asked.entry) }
{
    match asked {
        None => Some(b','),
        Some([byte]) if *byte != b'"' && *byte != end => Some(*byte),
        Some(_) => None,
    }
}

// Whether columns are the fields of CSV.
fn is_csv(options: &ArgMatches<'_>) -> bool
    ensures { result ≡ is_csv (rows_in options.now) }
{
    is_set(options, CSV.name)
}

/// Returns how lines end.
pub fn line_end(separators: Separators<'_>, options: &ArgMatches<'_>) -> LineEnd
    ensures { result ≡ line_end separators.entry (rows_in options.now) }
{
    let csv = match separators {
        Separators::Csv(separator) => Some(separator),
        Separators::Blanks | Separators::Bytes(_) => None,
    };
    LineEnd {
        byte: end_of(options),
        csv,
    }
}

/// Whether a carriage return at the end of a line belongs to the line's end.
pub fn is_crlf(options: &ArgMatches<'_>) -> bool
    ensures { result ≡ is_crlf (rows_in options.now) }
{
    is_set(options, CRLF.name) || is_csv(options)
}

/// Returns the column that an option names.
pub fn column_of<'w>(
    options: &ArgMatches<'_>,
    name: &str,
    separators: Separators<'w>,
) -> Option<Column<'w>>
    ensures { result ≡ column_of name.now separators.entry (rows_in options.now) }
{
    Some(column_at(separators, number_of(options, name)?))
}

/// Returns the column of a number that counts from 1.
pub fn column_at(separators: Separators<'_>, number: usize) -> Column<'_>
    ensures { result ≡ column_at separators.entry number }
{
    Column {
        number: number.saturating_sub(1),
        separators,
    }
}

/// Returns the column of the version, or None for the whole line.
pub fn key_column<'w>(separators: Separators<'w>, options: &ArgMatches<'_>) -> Option<Column<'w>>
    ensures { result ≡ option_map (column_at separators.entry) (key_of (rows_in options.now)) }
{
    match number_of(options, KEY_COLUMN.name) {
        Some(number) => Some(column_at(separators, number)),
        None if is_csv(options) => Some(column_at(separators, 1)),
        None => None,
    }
}

/// Returns the name of the column that an option asks for, if its word is one.
pub fn name_of_column<'w>(options: &ArgMatches<'w>, option: &str) -> Option<&'w str>
    ensures { option_map (λ name. name.now) result ≡ name_of_column option.now (rows_in options.now) }
{
    let word = text_of(options, option)?;
    if is_number(word) {
        return None;
    }
    Some(word)
}

// Returns whether an option asks for a column by its name.
fn is_named(options: &ArgMatches<'_>, option: &str) -> bool
    ensures { result ≡ is_named option.now (rows_in options.now) }
{
    name_of_column(options, option).is_some()
}

// Returns whether a column is asked for by its name where no line has names.
fn lacks_header(options: &ArgMatches<'_>) -> bool
    ensures { result ≡ lacks_header (rows_in options.now) }
{
    header_of(options) == 0
        && (is_named(options, KEY_COLUMN.name)
            || is_named(options, GROUP.name)
            || is_named(options, SCHEME_COLUMN.name))
}

// Fails where an option asks for a column by the number of none.
fn refuse_number(alloc: Global, options: &ArgMatches<'_>, option: &str) -> Result<(), WordsFault>
    ensures ok { OnOk result (has_no_column option.now (rows_in options.now) ≡ false) }
    ensures faults { IfErr result (ComesOfWrong (HasNoColumn option.now (rows_in options.now))) }
{
    match text_of(options, option) {
        Some(word) if is_no_column(word) => Err(wrong_column(alloc, word, option)),
        _ => Ok(()),
    }
}

/// Fails where a column is asked for that can't be: by the number of none, or by its name without a header.
pub fn refuse_columns(alloc: Global, options: &ArgMatches<'_>) -> Result<(), WordsFault>
    ensures ok { OnOk result (has_wrong_column (rows_in options.now) ≡ false) }
    ensures faults { IfErr result (ComesOfWrong (HasWrongColumn (rows_in options.now))) }
{
    refuse_number(alloc, options, KEY_COLUMN.name)?;
    refuse_number(alloc, options, GROUP.name)?;
    refuse_number(alloc, options, SCHEME_COLUMN.name)?;
    if lacks_header(options) {
        return Err(wrong(alloc, "a column by its name needs --header"));
    }
    Ok(())
}

/// Returns the level of the versions that are kept.
pub fn level_of(alloc: Global, options: &ArgMatches<'_>) -> Result<Stability, WordsFault>
    ensures ok { IfOk result (λ level. level_of (rows_in options.now) ≡ Some level) }
    ensures faults { IfErr result (ComesOfWrong (HasWrongLevel (rows_in options.now))) }
{
    let Some(word) = text_of(options, MIN_STABILITY.name) else {
        return Ok(Stability::Dev);
    };
    match stability_named(word) {
        Some(level) => Ok(level),
        None => Err(wrong_stability(alloc, word)),
    }
}

/// Returns the scheme that is asked for, or else mixed.
pub fn scheme_of(alloc: Global, options: &ArgMatches<'_>) -> Result<Scheme, WordsFault>
    ensures ok { IfOk result (λ scheme. scheme_of (rows_in options.now) ≡ Some scheme) }
    ensures faults { IfErr result (ComesOfWrong (HasWrongScheme (rows_in options.now))) }
{
    let Some(word) = text_of(options, SCHEME.name) else {
        return Ok(Scheme::Mixed);
    };
    match Scheme::of_name(word.as_bytes()) {
        Some(scheme) => Ok(scheme),
        None => Err(wrong_scheme(alloc, word)),
    }
}

/// Returns the column that names the scheme of a line, if it is asked for.
pub fn scheme_column_of<'w>(
    alloc: Global,
    separators: Separators<'w>,
    options: &ArgMatches<'_>,
) -> Result<Option<Column<'w>>, WordsFault>
    ensures column { IfOk result (λ column. column
        ≡ column_of SCHEME_COLUMN.name.now separators.entry (rows_in options.now)) }
    ensures one { IfOk result (λ _. has_two_schemes (rows_in options.now) ≡ false) }
    ensures faults { IfErr result (ComesOfWrong (λ _. has_two_schemes (rows_in options.now) ≡ true)) }
{
    if has_two_schemes(options) {
        let what =
            "the argument '--scheme-column <COLUMN>' cannot be used with '--scheme <NAME>' or '--match <SET>'";
        return Err(wrong(alloc, what));
    }
    Ok(column_of(options, SCHEME_COLUMN.name, separators))
}

// Returns whether a column of schemes is given beside a scheme or a set.
fn has_two_schemes(options: &ArgMatches<'_>) -> bool
    ensures { result ≡ has_two_schemes (rows_in options.now) }
{
    is_given(options, SCHEME_COLUMN.name)
        && (is_given(options, SCHEME.name) || is_given(options, MATCH.name))
}

/// Returns what becomes of lines without a version.
pub fn invalid_of(
    alloc: Global,
    command: Verb,
    options: &ArgMatches<'_>,
) -> Result<Invalid, WordsFault>
    ensures ok { IfOk result (λ invalid. invalid_of command (rows_in options.now) ≡ Some invalid) }
    ensures faults { IfErr result (ComesOfWrong (HasWrongInvalid command (rows_in options.now))) }
{
    let asked = invalid_word(alloc, command, options)?;
    match invalid_asked(
        asked,
        is_given(options, INVALID_TO.name),
        invalid_unasked(command),
    ) {
        Some(invalid) => Ok(invalid),
        None => {
            let what = "the argument '--invalid-to <FILE>' takes '--invalid skip' alone";
            Err(wrong(alloc, what))
        }
    }
}

// Returns what is asked of lines without a version, if it is.
fn invalid_word(
    alloc: Global,
    command: Verb,
    options: &ArgMatches<'_>,
) -> Result<Option<Invalid>, WordsFault>
    ensures ok { IfOk result (λ asked. invalid_word command (rows_in options.now) ≡ Some asked) }
    ensures faults { IfErr result (ComesOfWrong (λ fault. (invalid_word command (rows_in options.now) ≡ None)
        × Quotes (word_of INVALID.name.now (rows_in options.now)) fault)) }
{
    let Some(word) = text_of(options, INVALID.name) else {
        return Ok(None);
    };
    match invalid_named(word) {
        Some(asked) if may_ask(command, asked) => Ok(Some(asked)),
        _ => Err(wrong_invalid(alloc, command, word)),
    }
}

// Returns what becomes of lines without a version where nothing is asked.
fn invalid_unasked(command: Verb) -> Invalid
    ensures { result ≡ invalid_unasked command }
{
    match command {
        Verb::Filter => Invalid::Skip,
        _ => Invalid::Fail,
    }
}

/// Returns whether `diff` is given what is for lists alone.
pub fn has_option_of_lists(options: &ArgMatches<'_>) -> bool
    ensures { result ≡ has_option_of_lists (rows_in options.now) }
{
    is_given(options, GROUP.name)
        || is_given(options, KEY_COLUMN.name)
        || is_given(options, FIELD_SEPARATOR.name)
        || is_given(options, SCHEME.name)
        || is_given(options, INVALID.name)
        || is_set(options, ZERO_TERMINATED.name)
        || is_crlf(options)
}

/// Returns whether `filter` has no set where it needs one: no stability is asked for, or the set is to be inverted.
pub fn lacks_set(options: &ArgMatches<'_>) -> bool
    ensures { result ≡ lacks_set (rows_in options.now) }
{
    !is_given(options, SET.name)
        && (!is_given(options, MIN_STABILITY.name) || is_set(options, INVERT_MATCH.name))
}
