//! Reads the words of a run.

ghost use Rattle.std.specs.Prelude.{map, string_bytes, IfErr, IfOk};
ghost use Rattle.clap.specs.Words.{kind_of};
ghost use Rattle.version_words.specs.Words.{ComesOfWords, IsMistake, Means, Shows};
ghost use Rattle.version_usage.specs.Wrong.{ComesOfWrong};
ghost use Rattle.version_usage.specs.Wrong.{HasText};

use crate::task::task_of;
use clap::Error;
use clap::error::ErrorKind;
use std::alloc::{AllocError, Global};
use version_answers::quoted;
use version_runs::Task;
use version_usage::faults::WordsFault;
use version_usage::grammar::{ABOUT, program};
use version_usage::named::{LEVELS, names_of};
use version_usage::near::{similar, with_tip, without_tip};
use version_usage::table::COMMANDS;
use version_usage::wrong::{MORE, names_of_schemes};

/// Reads the words after the program's name: a task, or what is wrong with them and how they are used.
pub fn read_words<'w>(alloc: Global, words: &'w [String]) -> Result<Task<'w>, WordsFault>
    ensures task { IfOk result (Means (map string_bytes words.now)) }
    ensures faults { IfErr result (ComesOfWords (map string_bytes words.now)) }
{
    let program = program(alloc)?;
    match program.try_get_matches_from(words) {
        Ok(matches) => task_of(alloc, &matches),
        Err(error) => answer_to(alloc, &error, words),
    }
}

// Returns what a parse without matches asks for: a text, if the words ask for help or the version.
fn answer_to<'w>(alloc: Global, error: &Error, words: &[String]) -> Result<Task<'w>, WordsFault>
    ensures task { IfOk result (Shows (kind_of error.now)) }
    ensures faults { IfErr result (ComesOfWrong (λ _. IsMistake (kind_of error.now))) }
{
    match error.kind() {
        ErrorKind::DisplayHelp | ErrorKind::DisplayVersion => {
            Ok(Task::Say(text_shown(alloc, error)?))
        }
        ErrorKind::OutOfMemory => Err(WordsFault::Memory),
        kind => Err(WordsFault::Usage(what_is_wrong(alloc, kind, words)?)),
    }
}

// Returns the text of help or of the version, as the error prints it, and never an empty one.
fn text_shown(alloc: Global, error: &Error) -> Result<String, AllocError>
    ensures { IfOk result (λ text. HasText (string_bytes text)) }
{
    let text = format!(in alloc; "{error}")?;
    if text.is_empty() {
        [ABOUT, "\n"].concat(alloc)
    } else {
        let text = with_names(alloc, text, "[schemes]", names_of_schemes(alloc)?)?;
        with_names(alloc, text, "[levels]", names_of(alloc, &LEVELS)?)
    }
}

// Returns a text of help with these names where it lists them.
fn with_names(
    alloc: Global,
    text: String,
    list: &str,
    names: Vec<&'static str>,
) -> Result<String, AllocError>
    ensures { HasText (string_bytes text) → IfOk result (λ made. HasText (string_bytes made)) }
{
    match text.as_str().split_once(list) {
        Some((before, after)) => {
            let names = names.join(alloc, ", ")?;
            [before, "[possible values: ", names.as_str(), "]", after].concat(alloc)
        }
        None => Ok(text),
    }
}

// Returns what is wrong with words, and which were meant.
fn what_is_wrong(alloc: Global, kind: ErrorKind, words: &[String]) -> Result<String, AllocError>
    ensures { IfOk result (λ text. HasText (string_bytes text)) }
{
    let text = text_of(alloc, kind, words)?;
    match kind {
        ErrorKind::InvalidSubcommand => meant_command(alloc, text, words),
        ErrorKind::UnknownArgument => without_tip(alloc, text),
        _ => Ok(text),
    }
}

// Returns the text of an error of this kind. Since errors hold words whole, it is that of the words as they are quoted.
fn text_of(alloc: Global, kind: ErrorKind, words: &[String]) -> Result<String, AllocError>
    ensures { IfOk result (λ text. HasText (string_bytes text)) }
{
    let mut shown = Vec::with_capacity(alloc, words.len())?;
    for word in words {
        shown.push(quoted(alloc, word.as_bytes())?)?;
    }
    text_of_parse(alloc, kind, shown.as_slice())
}

// Returns the text of the error of these words, if it is of this kind.
fn text_of_parse(alloc: Global, kind: ErrorKind, words: &[String]) -> Result<String, AllocError>
    ensures { IfOk result (λ text. HasText (string_bytes text)) }
{
    match program(alloc)?.try_get_matches_from(words) {
        Err(error) => text_of_error(alloc, kind, &error),
        Ok(_matches) => text_of_kind(alloc, kind),
    }
}

// Returns the text of an error, if it is of this kind, and never an empty one.
fn text_of_error(alloc: Global, kind: ErrorKind, error: &Error) -> Result<String, AllocError>
    ensures { IfOk result (λ text. HasText (string_bytes text)) }
{
    let found = error.kind();
    if found == ErrorKind::OutOfMemory {
        return Err(AllocError);
    }
    let text = format!(in alloc; "{error}")?;
    if found == kind && !text.is_empty() {
        Ok(text)
    } else {
        text_of_kind(alloc, kind)
    }
}

// Returns a text that quotes nothing.
fn text_of_kind(alloc: Global, kind: ErrorKind) -> Result<String, AllocError>
    ensures { IfOk result (λ text. HasText (string_bytes text)) }
{
    let what = kind.as_str().unwrap_or("the words are no command");
    ["error: ", what, MORE].concat(alloc)
}

// Adds to the text of a fault which command was meant.
fn meant_command(alloc: Global, text: String, words: &[String]) -> Result<String, AllocError>
    ensures { HasText (string_bytes text) → IfOk result (λ made. HasText (string_bytes made)) }
{
    let [word, ..] = words else {
        return Ok(text);
    };
    let name = match word.as_str() {
        "match" => Some("filter"),
        word => similar(alloc, word, names_of(alloc, &COMMANDS)?.as_slice())?,
    };
    with_tip(alloc, text, name)
}
