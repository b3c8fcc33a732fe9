//! What was meant where one letter of a word is wrong, beside what `clap` finds itself.

ghost use Rattle.std.specs.Prelude.{string_bytes, IfOk};
ghost use Rattle.version_usage.specs.Wrong.{HasText};

use std::alloc::{AllocError, Global};
use strsim::osa_distance;

/// Adds to the text of a fault the command that a word may stand for, if it names none yet: before how it is used.
pub fn with_tip(
    alloc: Global,
    text: String,
    name: Option<&'static str>,
) -> Result<String, AllocError>
    ensures { HasText (string_bytes text) → IfOk result (λ made. HasText (string_bytes made)) }
{
    let usage = "\n\nUsage:";
    match (text.as_str().split_once(usage), name) {
        (Some((before, after)), Some(name)) if !before.contains("  tip: ") => {
            let tip = "\n\n  tip: a similar subcommand exists: '";
            [before, tip, name, "'", usage, after].concat(alloc)
        }
        _ => Ok(text),
    }
}

/// Takes from the text of a fault the tip to put an unknown option behind `--`, where it would be a file or a version.
pub fn without_tip(alloc: Global, text: String) -> Result<String, AllocError>
    ensures { HasText (string_bytes text) → IfOk result (λ made. HasText (string_bytes made)) }
{
    match beside_tip(text.as_str()) {
        Some((before, after)) => [before, "\n\n", after].concat(alloc),
        None => Ok(text),
    }
}

// Returns what stands before and behind that tip.
fn beside_tip(text: &str) -> Option<(&str, &str)> {
    let (before, tip) = text.split_once("\n\n  tip: to pass ")?;
    let (_, after) = tip.split_once("\n\n")?;
    Some((before, after))
}

/// Returns the first name that the word becomes if one letter is put in, left out or changed, or two beside each other
/// change places.
pub fn similar<'n>(
    alloc: Global,
    word: &str,
    names: &[&'n str],
) -> Result<Option<&'n str>, AllocError> {
    for name in names {
        if osa_distance(alloc, word, name)? == 1 {
            return Ok(Some(*name));
        }
    }
    Ok(None)
}
