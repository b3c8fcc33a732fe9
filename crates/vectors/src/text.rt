//! The texts of rows, and pieces of answers.

use crate::answers::Written;
use std::alloc::{AllocError, Global};

/// Returns a text in which `[1.*3]` stands for `1.1.1.`.
pub fn expanded(alloc: Global, text: &str) -> Result<String, AllocError> {
    let mut long = String::with_capacity(alloc, text.len())?;
    for (at, piece) in text.split('[').enumerate() {
        match repeated(piece) {
            Some((unit, count, rest)) => {
                for _ in 0..count {
                    long.push_str(unit)?;
                }
                long.push_str(rest)?;
            }
            None => {
                long.push_str(if at > 0 { "[" } else { "" })?;
                long.push_str(piece)?;
            }
        }
    }
    Ok(long)
}

// Splits `1.*3] and more` into what is repeated, how often, and the rest.
fn repeated(piece: &str) -> Option<(&str, u32, &str)> {
    let (inner, rest) = piece.split_once(']')?;
    let (unit, count) = inner.split_once('*')?;
    Some((unit, count.parse().ok()?, rest))
}

/// Returns the bytes of a text, in which `ÿ` stands for the byte FF.
pub fn bytes_of(alloc: Global, text: &str) -> Result<Vec<u8>, AllocError> {
    let mut bytes = Vec::with_capacity(alloc, text.len())?;
    for (at, piece) in text.split('ÿ').enumerate() {
        bytes.extend_from_slice(if at > 0 { b"\xFF" } else { b"" })?;
        bytes.extend_from_slice(piece.as_bytes())?;
    }
    Ok(bytes)
}

/// Splits a text at the first blank.
pub fn first_word(text: &str) -> (&str, &str) {
    text.split_once(' ').unwrap_or((text, ""))
}

/// Splits a text at the last blank.
pub fn last_word(text: &str) -> (&str, &str) {
    text.rsplit_once(' ').unwrap_or((text, ""))
}

/// Writes a word, after a blank if it isn't the first.
pub fn put_word(output: &mut String, word: &str) -> Written {
    if !output.is_empty() {
        output.push_str(" ")?;
    }
    output.push_str(word)
}

/// Returns the word for several answers to one question, of which None is no answer.
pub fn agreed(answers: &[Option<bool>]) -> &'static str {
    let [yes, no, none] = [Some(true), Some(false), None];
    match (
        answers.contains(&yes),
        answers.contains(&no),
        answers.contains(&none),
    ) {
        (true, false, false) => "yes",
        (false, true, false) => "no",
        _ => "otherwise",
    }
}
