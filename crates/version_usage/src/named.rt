//! What single words name.

ghost use Rattle.std.specs.Prelude.{◌≡◌, find, option_map};
ghost use Rattle.std.specs.{Char.is_ascii, List.list_all, Str.bytes_eq};
ghost use Rattle.version_usage.specs.Named.{count_named, invalid_asked, invalid_named, is_no_column, is_number, may_ask, number_named, operator_named, place_named, separators_named, stability_named, texts_in, value_named, verb_named};

use crate::table::COMMANDS;
use std::alloc::{AllocError, Global};
use version_answers::Operator;
use version_lines::Invalid;
use version_order::is_digits;
use version_tasks::Stability;

/// The command that words name.
#[derive(Clone, Copy, Debug)]
pub enum Verb {
    Sort,
    Newest,
    Filter,
    Show,
    Key,
    Test,
    Compare,
    Why,
    Implies,
    Meets,
    Diff,
    Next,
}

/// What a word of `--invalid` names.
pub const INVALIDS: [(&str, Invalid); 4] = [
    ("fail", Invalid::Fail),
    ("skip", Invalid::Skip),
    ("first", Invalid::First),
    ("last", Invalid::Last),
];

/// What a word of `--min-stability` names.
pub const LEVELS: [(&str, Stability); 5] = [
    ("dev", Stability::Dev),
    ("alpha", Stability::Alpha),
    ("beta", Stability::Beta),
    ("rc", Stability::Rc),
    ("stable", Stability::Stable),
];

/// The operator that a word of `test` names, by its sign or by its two letters.
pub const OPERATORS: [(&str, Operator); 10] = [
    ("<", Operator::Less),
    ("<=", Operator::LessOrEqual),
    ("=", Operator::Equal),
    (">=", Operator::GreaterOrEqual),
    (">", Operator::Greater),
    ("lt", Operator::Less),
    ("le", Operator::LessOrEqual),
    ("eq", Operator::Equal),
    ("ge", Operator::GreaterOrEqual),
    ("gt", Operator::Greater),
];

// Returns what a word names in a table.
fn value_named<V: Copy>(table: &[(&'static str, V)], word: &str) -> Option<V>
    ensures { result ≡ value_named (texts_in (λ name. name.now) table.now) word.now }
{
    first_named(table, word)
}

// Returns what stands in the first row of this name.
fn first_named<V: Copy>(table: &[(&'static str, V)], word: &str) -> Option<V>
    ensures { result ≡ option_map (λ row. row.1) (find (λ row. bytes_eq row.0.now word.now) table.now) }
{
    let (_, value) = table.iter().find(|row| row.0 == word)?;
    Some(*value)
}

/// Returns the names in a table.
pub fn names_of<V>(
    alloc: Global,
    table: &[(&'static str, V)],
) -> Result<Vec<&'static str>, AllocError> {
    table.iter().map(|row| row.0).collect(alloc)
}

/// Returns the command of a name.
pub fn verb_named(word: &str) -> Option<Verb>
    ensures { result ≡ verb_named word.now }
{
    value_named(&COMMANDS, word)
}

/// Returns what becomes of lines without a version, or None if that is not to be had.
pub fn invalid_asked(asked: Option<Invalid>, to_file: bool, by_default: Invalid) -> Option<Invalid>
    ensures { result ≡ invalid_asked asked to_file by_default }
{
    match (asked, to_file) {
        (None, false) => Some(by_default),
        (Some(invalid), false) => Some(invalid),
        (None | Some(Invalid::Skip), true) => Some(Invalid::Skip),
        (Some(_), true) => None,
    }
}

/// Returns what a word of `--invalid` names.
pub fn invalid_named(word: &str) -> Option<Invalid>
    ensures { result ≡ invalid_named word.now }
{
    value_named(&INVALIDS, word)
}

/// Returns whether a command can do this with lines that have no version.
pub fn may_ask(command: Verb, asked: Invalid) -> bool
    ensures { result ≡ may_ask command asked }
{
    matches!(
        (command, asked),
        (Verb::Sort | Verb::Filter, _) | (_, Invalid::Fail | Invalid::Skip)
    )
}

/// Returns what a word of `--min-stability` names.
pub fn stability_named(word: &str) -> Option<Stability>
    ensures { result ≡ stability_named word.now }
{
    value_named(&LEVELS, word)
}

/// Returns the operator that a word of `test` names.
pub fn operator_named(word: &str) -> Option<Operator>
    ensures { result ≡ operator_named word.now }
{
    value_named(&OPERATORS, word)
}

/// Returns the bytes that a word of `-t` names.
pub fn separators_named(word: &str) -> Option<&[u8]>
    ensures { option_map (λ bytes. bytes.now) result ≡ separators_named word.now }
{
    match word {
        "\\t" => Some(b"\t"),
        "\\0" => Some(b"\0"),
        _ if is_ascii(word) && !word.is_empty() => Some(word.as_bytes()),
        _ => None,
    }
}

// Whether each byte of a word is ASCII.
fn is_ascii(word: &str) -> bool
    ensures { result ≡ list_all is_ascii word.now }
{
    word.as_bytes().iter().all(|byte| byte.is_ascii())
}

/// Returns the place of a number that a word of `next` names, counted from 0: by its name, or by digits.
pub fn place_named(word: &str) -> Option<usize>
    ensures { result ≡ place_named word.now }
{
    match word {
        "major" => Some(0),
        "minor" => Some(1),
        "patch" => Some(2),
        _ => number_named(word),
    }
}

/// Returns the number that the word of an option is: digits, perhaps after a plus.
pub fn count_named(word: &str) -> Option<usize>
    ensures { result ≡ count_named word.now }
{
    match word.strip_prefix("+") {
        Some(digits) => number_named(digits),
        None => number_named(word),
    }
}

/// Returns whether the word of a column is its number: digits, perhaps after a plus. It is a name else.
pub fn is_number(word: &str) -> bool
    ensures { result ≡ is_number word.now }
{
    match word.strip_prefix("+") {
        Some(digits) => is_digits(digits.as_bytes()),
        None => is_digits(word.as_bytes()),
    }
}

/// Returns whether the word of a column is the number of none: 0, or one that doesn't fit.
pub fn is_no_column(word: &str) -> bool
    ensures { result ≡ is_no_column word.now }
{
    is_number(word) && count_named(word).unwrap_or(0) == 0
}

// Returns the number that a word is, if it is all digits and fits.
fn number_named(word: &str) -> Option<usize>
    ensures { result ≡ number_named word.now }
{
    if is_digits(word.as_bytes()) {
        word.parse::<usize>().ok()
    } else {
        None
    }
}
