//! What a message shows of a text that it quotes: a line, a word or the name of a file.
ghost use Rattle.std.specs.Prelude.{◌≡◌, Some, string_bytes, IfOk};
ghost use Rattle.std.specs.Fmt.{DisplaysOnOk};
ghost use Rattle.version_answers.specs.Message.{quoted, quoted_character, shown_front, text_in_front};

use std::alloc::{AllocError, Global};
use std::fmt;

/// How many bytes of a text a message shows.
pub const SHOWN: usize = 60;

/// A text that prints as a message shows it: as much of its first sixty bytes as is UTF-8, with control characters
/// escaped.
#[derive(Clone, Copy)]
pub struct Shown<'a> {
    pub text: &'a [u8],
}

impl fmt::Display for Shown<'_> {
    ghost output = { λ shown. Some (quoted shown.text.now) };

    fn fmt<W: fmt::Write>(&self, f: &mut fmt::Formatter<W>) -> fmt::Result {
        for character in shown_front(self.text).chars() {
            write_quoted(f, character)?;
        }
        Ok(())
    }
}

/// Returns a text as a message shows it.
pub fn quoted(alloc: Global, text: &[u8]) -> Result<String, AllocError>
    ensures { IfOk result (λ shown. string_bytes shown ≡ quoted text.now) }
{
    format!(in alloc; "{}", Shown { text })
}

/// Returns as much of a text as a message shows.
#[tactic(auto, using(std::proofs::lemmas::List::take_min))]
pub fn shown_front(text: &[u8]) -> &str
    ensures { result.now ≡ shown_front text.now }
{
    text_in_front(&text[..SHOWN.min(text.len())])
}

// Returns as much of the front of some bytes as is UTF-8.
fn text_in_front(bytes: &[u8]) -> &str
    ensures { result.now ≡ text_in_front bytes.now }
{
    match bytes.utf8_chunks().next() {
        Some(chunk) => chunk.valid(),
        None => "",
    }
}

// Writes a character as a message shows it.
fn write_quoted<W: fmt::Write>(f: &mut fmt::Formatter<W>, character: char) -> fmt::Result
    ensures { DisplaysOnOk W.write_str_gives f.old result (Some (quoted_character character)) f.new }
{
    if character.is_control() {
        for escaped in character.escape_default() {
            f.write_char(escaped)?;
        }
        return Ok(());
    }
    f.write_char(character)
}
