//! Writing what a command answers.
ghost use Rattle.std.specs.Prelude.{◌≡◌, ◌++◌, [], ℕ, List, map, if◌then◌else◌, IfErr, IfOk, OnErr, OnOk};
ghost use Rattle.std.specs.Io.KnownBytes.{Appends};
ghost use Rattle.version_commands.specs.{Fault.ComesOfPut, Files.AltersAtMost, Files.Leaves, Run.Ends, Run.Finishes, lines.Arranged.placed, lines.Arranged.policy, lines.Ordered.bad_file, lines.Ordered.put_of, lines.Ordered.IsPlaced};
ghost use Rattle.version_lines.specs.Lines.{answer_text, lines_output, output_by, plain_end, whole_line, AppendsProperBeginning, AppendsUpTo};

use crate::bad::policy;
use crate::lines::rows::{Rows, put_rows};
use crate::lines::run::LineRun;
use std::alloc::{AllocError, Global};
use std::io::Write;
use version_lines::{
    Answer, Invalid, Line, LineCommand, NotWritten, Trouble, answer_lines, make_buffer, write_whole,
};
use version_runs::{Files, LineOptions, TaskFault};

impl<'w, C> LineRun<'_, 'w, C> {
    /// Writes the lines in their order behind the head, with those that have no version before or after them, or into the
    /// file for these. All memory is taken before anything is written.
    pub fn write_lines<L: Rows, F: Files, W: Write>(
        &self,
        bad: &[Line<'_, '_>],
        rows: &L,
        files: &mut F,
        writer: &mut W,
    ) -> Result<(), TaskFault<'w>>
        ensures { Finishes F.puts F.refuses F.alters files.old files.new (W.contents writer.old) (W.contents writer.new)
            self.now.options (IsPlaced self.now.options (map (λ line. line.text.now) self.now.input.head.now)
            (map (λ line. line.text.now) bad.now) (L.lines rows.now)) (ComesOfPut self.now.options) result }
    {
        let options = &self.options;
        let mut buffer = make_buffer(self.alloc)?;
        put_bad(self.alloc, options, bad, files)?;
        let (end, invalid) = (options.end.byte, policy(options));
        write_placed(
            invalid,
            end,
            self.input.head,
            bad,
            rows,
            writer,
            &mut buffer,
        )?;
        Ok(())
    }
}

// Writes the lines that stay on top and the others in their order, through an empty buffer.
fn write_placed<L: Rows, W: Write>(
    invalid: Invalid,
    end: u8,
    head: &[Line<'_, '_>],
    bad: &[Line<'_, '_>],
    rows: &L,
    writer: &mut W,
    buffer: &mut Vec<u8>,
) -> Result<(), NotWritten>
    requires { buffer.old.items ≡ [] }
    ensures ok { OnOk result (Appends (W.contents writer.old) (W.contents writer.new)
        (lines_output (whole_line end) (map (λ line. line.text.now) head.now ++ placed invalid
        (map (λ line. line.text.now) bad.now) (L.lines rows.now)))) }
    ensures err { OnErr result (AppendsProperBeginning (W.contents writer.old)
        (W.contents writer.new) (lines_output (whole_line end) (map (λ line. line.text.now) head.now
        ++ placed invalid (map (λ line. line.text.now) bad.now) (L.lines rows.now)))) }
{
    put_rows(writer, buffer, end, &head)?;
    put_placed(invalid, end, bad, rows, writer, buffer)?;
    write_whole(writer, buffer.as_slice())
}

// Adds the lines in their order to the buffer.
fn put_placed<L: Rows, W: Write>(
    invalid: Invalid,
    end: u8,
    bad: &[Line<'_, '_>],
    rows: &L,
    writer: &mut W,
    buffer: &mut Vec<u8>,
) -> Result<(), NotWritten>
    ensures ok { OnOk result (AppendsUpTo (W.contents writer.old) (W.contents writer.new)
        buffer.new.items (buffer.old.items ++ lines_output (whole_line end) (placed invalid
        (map (λ line. line.text.now) bad.now) (L.lines rows.now)))) }
    ensures err { OnErr result (AppendsProperBeginning (W.contents writer.old)
        (W.contents writer.new) (buffer.old.items ++ lines_output (whole_line end) (placed invalid
        (map (λ line. line.text.now) bad.now) (L.lines rows.now)))) }
{
    match invalid {
        Invalid::First => put_both(end, &bad, rows, writer, buffer),
        Invalid::Last => put_both(end, rows, &bad, writer, buffer),
        Invalid::Fail | Invalid::Skip => put_rows(writer, buffer, end, rows),
    }
}

// Adds lines and then others to the buffer.
fn put_both<A: Rows, B: Rows, W: Write>(
    end: u8,
    first: &A,
    second: &B,
    writer: &mut W,
    buffer: &mut Vec<u8>,
) -> Result<(), NotWritten>
    ensures ok { OnOk result (AppendsUpTo (W.contents writer.old) (W.contents writer.new)
        buffer.new.items (buffer.old.items
        ++ lines_output (whole_line end) (A.lines first.now ++ B.lines second.now))) }
    ensures err { OnErr result (AppendsProperBeginning (W.contents writer.old)
        (W.contents writer.new) (buffer.old.items
        ++ lines_output (whole_line end) (A.lines first.now ++ B.lines second.now))) }
{
    put_rows(writer, buffer, end, first)?;
    put_rows(writer, buffer, end, second)
}

// Writes the lines that have no version into the file for these, if there is one.
fn put_bad<'w, F: Files>(
    alloc: Global,
    options: &LineOptions<'w>,
    bad: &[Line<'_, '_>],
    files: &mut F,
) -> Result<(), TaskFault<'w>>
    ensures put { OnOk result (Leaves F.puts files.old files.new
        (put_of options.now (map (λ line. line.text.now) bad.now))) }
    ensures files { AltersAtMost F.alters (bad_file options.now) files.old files.new }
    ensures faults { IfErr result (ComesOfPut options.now (F.refuses files.old)) }
{
    let Some(name) = options.invalid_to else {
        return Ok(());
    };
    let bytes = joined_lines(alloc, options.end.byte, bad)?;
    match files.put(name, bytes.as_slice()) {
        Ok(()) => Ok(()),
        Err(Trouble::Memory) => Err(TaskFault::Memory),
        Err(Trouble::System) => Err(TaskFault::Write(Some(name))),
    }
}

// Returns the lines, each with the byte that ends it.
fn joined_lines(alloc: Global, end: u8, lines: &[Line<'_, '_>]) -> Result<Vec<u8>, AllocError>
    ensures { IfOk result (λ bytes. bytes.items
        ≡ lines_output (whole_line end) (map (λ line. line.text.now) lines.now)) }
{
    let mut bytes = Vec::new(alloc);
    for line in lines {
        bytes.extend_from_slice(line.text)?;
        bytes.push(end)?;
    }
    Ok(bytes)
}

/// Writes what a command answers for each line, each ended by a byte. Not inlined, so that each of its forms has the
/// registers for itself.
#[inline(never)]
pub fn write_answers<'w, C: LineCommand, W: Write>(
    alloc: Global,
    command: &C,
    end: u8,
    input: &[u8],
    writer: &mut W,
) -> Result<(), TaskFault<'w>>
    ensures { Ends (λ output. output ≡ output_by (plain_end end) (C.line_output command.now end) input.now)
        (λ fault. fault ≡ TaskFault.Memory) (W.contents writer.old) (W.contents writer.new) result }
{
    let mut buffer = make_buffer(alloc)?;
    answer_lines(command, end, input, writer, &mut buffer)?;
    Ok(())
}

/// Returns the answer for a line: all of it, if it is kept.
#[inline(always)]
pub fn whole_if(kept: bool) -> Answer
    ensures { (end : ℕ) → (line : List ℕ) → answer_text end result line
        ≡ if kept then whole_line end line else [] }
{
    if kept {
        Answer::Line(b"")
    } else {
        Answer::Nothing
    }
}

/// Writes an answer that was gathered.
pub fn write_answer<'w, W: Write>(writer: &mut W, answer: &[u8]) -> Result<(), TaskFault<'w>>
    ensures { Ends (λ output. output ≡ answer.now) (λ _. ⊥)
        (W.contents writer.old) (W.contents writer.new) result }
{
    write_whole(writer, answer)?;
    Ok(())
}
