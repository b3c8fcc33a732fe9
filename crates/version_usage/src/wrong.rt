//! The faults of words that `clap` lets through.

ghost use Rattle.std.specs.Prelude.{◌≡◌, ◌++◌, codes, string_bytes, IfOk, MatchResult};
ghost use Rattle.version_usage.specs.Wrong.{in_quotes, wrong_text, Holds, Quotes, Says};
ghost use Rattle.version_usage.specs.Wrong.{ComesOfWrong};

use crate::faults::WordsFault;
use crate::named::{INVALIDS, LEVELS, Verb, may_ask, names_of};
use crate::near::similar;
use std::alloc::{AllocError, Global};
use version_answers::quoted;
use version_schemes::Scheme;

/// How the text of wrong words ends.
pub const MORE: &str = "\n\nFor more information, try '--help'.\n";

/// Returns the fault of words with which this is wrong.
pub fn wrong(alloc: Global, what: &str) -> WordsFault
    ensures { ComesOfWrong (Says (wrong_text what.now)) result }
{
    fault_of(["error: ", what, MORE].concat(alloc))
}

/// Returns the fault of a word of `test` that is no operator.
pub fn wrong_operator(alloc: Global, word: &str) -> WordsFault
    ensures { ComesOfWrong (Quotes word.now) result }
{
    let argument = "'<OP>'\n  [possible values: <, <=, =, >=, >, lt, le, eq, ge, gt]";
    wrong_value(alloc, word, argument, operator_meant(word))
}

// Returns the operator that a word of another language stands for.
fn operator_meant(word: &str) -> Option<&'static str> {
    match word {
        "==" | "===" => Some("="),
        "=<" => Some("<="),
        "=>" => Some(">="),
        "lte" => Some("le"),
        "gte" => Some("ge"),
        _ => None,
    }
}

/// Returns the fault of a word of `next` that is no place.
pub fn wrong_place(alloc: Global, word: &str) -> WordsFault
    ensures { ComesOfWrong (Quotes word.now) result }
{
    let listed = "major, minor, patch, release, pre, a number from 0";
    let names = ["major", "minor", "patch", "release", "pre"];
    fault_of(text_of_listed(alloc, word, "'<PLACE>'", listed, &names))
}

/// Returns the fault of a word that is no level of stability.
pub fn wrong_stability(alloc: Global, word: &str) -> WordsFault
    ensures { ComesOfWrong (Quotes word.now) result }
{
    wrong_name(
        alloc,
        word,
        "'--min-stability <LEVEL>'",
        names_of(alloc, &LEVELS),
    )
}

/// Returns the fault of a word that is no scheme.
pub fn wrong_scheme(alloc: Global, word: &str) -> WordsFault
    ensures { ComesOfWrong (Quotes word.now) result }
{
    fault_of(text_of_scheme(alloc, word))
}

// Returns the text of that fault.
fn text_of_scheme(alloc: Global, word: &str) -> Result<String, AllocError>
    ensures { IfOk result (λ text. Holds (in_quotes word.now) (string_bytes text)) }
{
    let listed = listed_schemes(alloc)?;
    let mut names = names_of_schemes(alloc)?;
    for scheme in Scheme::all() {
        names.extend_from_slice(scheme.aliases())?;
    }
    text_of_listed(
        alloc,
        word,
        "'--scheme <NAME>'",
        listed.as_str(),
        names.as_slice(),
    )
}

// Returns the names of the schemes, each with what else people call it.
fn listed_schemes(alloc: Global) -> Result<String, AllocError> {
    let mut listed = String::new(alloc);
    for scheme in Scheme::all() {
        if !listed.is_empty() {
            listed.push_str(", ")?;
        }
        listed.push_str(scheme.name())?;
        if !scheme.aliases().is_empty() {
            let aliases = scheme.aliases().join(alloc, ", ")?;
            listed.push_str(" (")?;
            listed.push_str(aliases.as_str())?;
            listed.push_str(")")?;
        }
    }
    Ok(listed)
}

/// Returns the names of the schemes.
pub fn names_of_schemes(alloc: Global) -> Result<Vec<&'static str>, AllocError> {
    Scheme::all().map(Scheme::name).collect(alloc)
}

/// Returns the fault of a word that doesn't name what a command can do with lines without a version.
pub fn wrong_invalid(alloc: Global, command: Verb, word: &str) -> WordsFault
    ensures { ComesOfWrong (Quotes word.now) result }
{
    let names = INVALIDS
        .iter()
        .filter(|row| may_ask(command, row.1))
        .map(|row| row.0)
        .collect(alloc);
    wrong_name(alloc, word, "'--invalid <WHAT>'", names)
}

/// Returns the fault of a word that names no bytes between columns.
pub fn wrong_separators(alloc: Global, word: &str) -> WordsFault
    ensures { ComesOfWrong (Quotes word.now) result }
{
    let argument = match word {
        "" =>
            "'--field-separator <SEP>': it is ASCII, \\t or \\0; an equals sign is written -t '='",
        _ => "'--field-separator <SEP>': it is ASCII, \\t or \\0",
    };
    wrong_value(alloc, word, argument, None)
}

/// Returns the fault of a word that names no byte between the fields of CSV.
pub fn wrong_csv_separator(alloc: Global, word: &str) -> WordsFault
    ensures { ComesOfWrong (Quotes word.now) result }
{
    let argument =
        "'--field-separator <SEP>': with --csv it is one byte, but no quote and no line's end";
    wrong_value(alloc, word, argument, None)
}

/// Returns the fault of a word of an option for a column that is the number of none.
pub fn wrong_column(alloc: Global, word: &str, option: &str) -> WordsFault
    ensures { ComesOfWrong (Quotes word.now) result }
{
    fault_of(text_of_column(alloc, word, option))
}

// Returns the text of that fault.
fn text_of_column(alloc: Global, word: &str, option: &str) -> Result<String, AllocError>
    ensures { IfOk result (λ text. Holds (in_quotes word.now) (string_bytes text)) }
{
    let argument = format!(in alloc;
        "'--{option} <COLUMN>': it is a number from 1 to 18446744073709551615, or a name"
    )?;
    text_of_value(alloc, word, argument.as_str(), None)
}

// Returns the fault of a word that is none of these names, if there was memory for them.
fn wrong_name(
    alloc: Global,
    word: &str,
    argument: &str,
    names: Result<Vec<&'static str>, AllocError>,
) -> WordsFault
    ensures { ComesOfWrong (Quotes word.now) result }
{
    fault_of(text_of_names(alloc, word, argument, names))
}

// Returns the text of that fault.
fn text_of_names(
    alloc: Global,
    word: &str,
    argument: &str,
    names: Result<Vec<&'static str>, AllocError>,
) -> Result<String, AllocError>
    ensures { IfOk result (λ text. Holds (in_quotes word.now) (string_bytes text)) }
{
    let names = names?;
    let listed = names.join(alloc, ", ")?;
    text_of_listed(alloc, word, argument, listed.as_str(), names.as_slice())
}

// Returns the text of the fault of a word that is none of these names, which are listed so.
fn text_of_listed(
    alloc: Global,
    word: &str,
    argument: &str,
    listed: &str,
    names: &[&'static str],
) -> Result<String, AllocError>
    ensures { IfOk result (λ text. Holds (in_quotes word.now) (string_bytes text)) }
{
    let argument = [argument, "\n  [possible values: ", listed, "]"].concat(alloc)?;
    let meant = similar(alloc, word, names)?;
    text_of_value(alloc, word, argument.as_str(), meant)
}

// Returns the fault of a word that an argument can't take: the argument's name and values, and which of them may be
// meant.
fn wrong_value(alloc: Global, word: &str, argument: &str, meant: Option<&'static str>) -> WordsFault
    ensures { ComesOfWrong (Quotes word.now) result }
{
    fault_of(text_of_value(alloc, word, argument, meant))
}

// Returns the text of that fault.
fn text_of_value(
    alloc: Global,
    word: &str,
    argument: &str,
    meant: Option<&'static str>,
) -> Result<String, AllocError>
    ensures { IfOk result (λ text. Holds (in_quotes word.now) (string_bytes text)) }
{
    let shown = quoted(alloc, word.as_bytes())?;
    text_of_shown(alloc, shown.as_str(), argument, meant)
}

// Returns that text for a word as a message shows it.
fn text_of_shown<'t>(
    alloc: Global,
    shown: &'t str,
    argument: &'t str,
    meant: Option<&'t str>,
) -> Result<String, AllocError>
    ensures { IfOk result (λ text. Holds (codes "'" ++ (shown.now ++ codes "'")) (string_bytes text)) }
{
    let (start, end) = ("error: invalid value '", "' for ");
    match meant {
        Some(name) => {
            let tip = "\n\n  tip: a similar value exists: '";
            [start, shown, end, argument, tip, name, "'", MORE].concat(alloc)
        }
        None => [start, shown, end, argument, MORE].concat(alloc),
    }
}

// Returns the fault of wrong words by its text, if there is memory for that.
fn fault_of(text: Result<String, AllocError>) -> WordsFault
    ensures { MatchResult text (λ text. result ≡ WordsFault.Usage text) (λ _. result ≡ WordsFault.Memory) }
{
    match text {
        Ok(text) => WordsFault::Usage(text),
        Err(_) => WordsFault::Memory,
    }
}
