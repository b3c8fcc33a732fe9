//! The lines of an input, and outputs in which what is written for a line depends on that line alone.
ghost use Rattle.std.specs.Prelude.{◌≡◌, ℕ, ◌<◌, ◌≤◌, ◌+◌, List, [], ◌∷◌, ◌++◌, drop, length, take, OnOk, OnErr};
ghost use Rattle.std.specs.Io.KnownBytes.{Appends};
ghost use Rattle.version_lines.specs.Lines.{answer_text, ends_quoted, lines_of, output_by, plain_end, AppendsProperBeginning, AppendsUpTo};

use crate::csv::{FieldState, length_before};
use crate::output::{NotWritten, put_line, write_whole};
use memchr::memchr;
use std::io::Write;

/// What ends lines.
#[derive(Clone, Copy, Debug, PartialEq, Eq)]
pub struct LineEnd {
    /// The byte that ends a line.
    pub byte: u8,
    /// The byte between two fields of CSV, in whose quotes the other is a byte of the line; None if lines are no CSV.
    pub csv: Option<u8>,
}

impl LineEnd {
    /// Returns that each such byte ends a line.
    pub fn plain(byte: u8) -> LineEnd
        ensures { result ≡ plain_end byte }
    {
        LineEnd { byte, csv: None }
    }
}

/// What becomes of the lines that have no version.
#[derive(Clone, Copy, Debug)]
pub enum Invalid {
    /// The first of them is a fault.
    Fail,
    /// They are left out.
    Skip,
    /// They stand before all others, in the order of the input.
    First,
    /// They stand after all others, in the order of the input.
    Last,
}

/// What is written for a line.
#[derive(Clone, Copy)]
pub enum Answer {
    /// The line behind this label.
    Line(&'static [u8]),
    /// This text in place of the line.
    Text(&'static [u8]),
    /// Nothing.
    Nothing,
}

/// A command whose output for a line depends on that line alone.
pub trait LineCommand {
    // The output for a line, by the byte that ends lines.
    ghost line_output: { Self → ℕ → List ℕ → List ℕ };

    /// Returns the answer for a line.
    fn answer(&self, line: &[u8]) -> Answer
        ensures { (end : ℕ) → answer_text end result line.now ≡ line_output self.now end line.now };
}

/// Writes the answer for each line of the input, each ended by a byte, through an empty buffer. Does not allocate.
pub fn answer_lines<C: LineCommand, W: Write>(
    command: &C,
    end: u8,
    input: &[u8],
    writer: &mut W,
    buffer: &mut Vec<u8>,
) -> Result<(), NotWritten>
    requires { buffer.old.items ≡ [] }
    ensures ok { OnOk result (Appends (W.contents writer.old) (W.contents writer.new)
        (output_by (plain_end end) (C.line_output command.now end) input.now)) }
    ensures err { OnErr result (AppendsProperBeginning (W.contents writer.old) (W.contents writer.new)
        (output_by (plain_end end) (C.line_output command.now end) input.now)) }
{
    let mut rest = input;
    while !rest.is_empty() {
        let (line, after) = split_line(LineEnd::plain(end), rest);
        put_answer(command.answer(line), end, line, writer, buffer)?;
        rest = after;
    }
    write_whole(writer, buffer.as_slice())
}

/// Splits off the first line and the byte that ends it, and returns the line and the rest. A line of CSV whose quotes
/// never close goes to the end of the text.
#[inline(always)]
pub fn split_line(end: LineEnd, text: &[u8]) -> (&[u8], &[u8])
    requires { 0 < length text.now }
    ensures lines { lines_of end text.now ≡ result.0.now ∷ lines_of end result.1.now }
    ensures shorter { length result.1.now < length text.now }
{
    let line = line_length(end, text);
    (&text[..line], &text[text.len().min(line + 1)..])
}

// Returns the length of the first line.
#[inline(always)]
#[tactic(auto, using(crate::proofs::lemmas::Lines::line_found))]
fn line_length(end: LineEnd, text: &[u8]) -> usize
    requires { 0 < length text.now }
    ensures lines { lines_of end text.now ≡ take result text.now ∷ lines_of end (drop (result + 1) text.now) }
    ensures within { result ≤ length text.now }
{
    match end.csv {
        Some(separator) => length_before(end.byte, separator, text),
        None => memchr(end.byte, text).unwrap_or(text.len()),
    }
}

/// Whether a text ends in quotes of CSV that never close.
#[tactic(auto, using(crate::proofs::lemmas::Lines::never_open))]
pub fn ends_quoted(end: LineEnd, text: &[u8]) -> bool
    ensures { result ≡ ends_quoted end text.now }
{
    let Some(separator) = end.csv else {
        return false;
    };
    let mut state = FieldState::Start;
    for byte in text {
        state = if *byte == end.byte && !state.is_quoted() {
            FieldState::Start
        } else {
            state.next(separator, *byte)
        };
    }
    state.is_quoted()
}

// Adds the answer for a line to the buffer.
#[inline(always)]
fn put_answer<W: Write>(
    answer: Answer,
    end: u8,
    line: &[u8],
    writer: &mut W,
    buffer: &mut Vec<u8>,
) -> Result<(), NotWritten>
    ensures ok { OnOk result (AppendsUpTo (W.contents writer.old) (W.contents writer.new)
        buffer.new.items (buffer.old.items ++ answer_text end answer line.now)) }
    ensures err { OnErr result (AppendsProperBeginning (W.contents writer.old)
        (W.contents writer.new) (buffer.old.items ++ answer_text end answer line.now)) }
{
    match answer {
        Answer::Line(label) => put_line(writer, buffer, end, label, line),
        Answer::Text(text) => put_line(writer, buffer, end, b"", text),
        Answer::Nothing => Ok(()),
    }
}
