//! Reading the inputs in turn.
ghost use Rattle.std.specs.Prelude.{◌≡◌, ◌++◌, ◌∷◌, [], ℕ, List, false, length, map, true, IfErr, IfOk, OnOk};
ghost use Rattle.std.specs.{Io.KnownBytes.Consumes, Io.KnownBytes.IsAtEnd, List.list_any, Option.option_map};
ghost use Rattle.version_commands.specs.Fault.{not_read, ComesOfReading, ComesOfReadingOne, ComesOfStandard, ComesOfText};
ghost use Rattle.version_commands.specs.Files.{inputs_named, inputs_of, is_standard, names_read, reads_standard, AreInputs, IsInput};
ghost use Rattle.version_lines.specs.{Inputs.plain_input, Lines.ends_quoted, Lines.lines_of};

use std::alloc::{AllocError, Global};
use version_lines::{InputText, LineEnd, Lines, Source, Trouble, ends_quoted, read_all};
use version_runs::{Files, TaskFault};

/// Reads the files in turn, each to its end; `-` is the reader, and so is no name at all. An input that ends within quotes
/// is a fault.
pub fn read_inputs<'w, F: Files, R: Source>(
    alloc: Global,
    names: &[&'w str],
    end: LineEnd,
    files: &F,
    reader: &mut R,
) -> Result<Vec<InputText<'w>>, TaskFault<'w>>
    ensures inputs { IfOk result (λ inputs. (texts : List (List ℕ))
        × AreInputs (F.reads files.now) (R.remaining reader.old) (R.remaining reader.new)
        (names_read (map (λ name. name.now) names.now)) texts × (list_any (ends_quoted end) texts ≡ false)
        × (map plain_input inputs.items ≡ inputs_of (map (λ name. name.now) names.now) texts)) }
    ensures unread { reads_standard (names_read (map (λ name. name.now) names.now)) ≡ false
        → reader.new ≡ reader.old }
    ensures faults { IfErr result (ComesOfReading end (F.reads files.now) (R.may_fail reader.old) (R.remaining reader.old)
        (names_read (map (λ name. name.now) names.now))) }
{
    match names {
        [] => {
            let text = read_input(alloc, "-", end, files, reader)?;
            let mut inputs = Vec::with_capacity(alloc, 1)?;
            add_input(&mut inputs, None, text)?;
            Ok(inputs)
        }
        [_, ..] => read_named(alloc, names, end, files, reader),
    }
}

// Reads the files of these names in turn.
fn read_named<'w, F: Files, R: Source>(
    alloc: Global,
    names: &[&'w str],
    end: LineEnd,
    files: &F,
    reader: &mut R,
) -> Result<Vec<InputText<'w>>, TaskFault<'w>>
    ensures inputs { IfOk result (λ inputs. (texts : List (List ℕ))
        × AreInputs (F.reads files.now) (R.remaining reader.old) (R.remaining reader.new)
        (map (λ name. name.now) names.now) texts × (list_any (ends_quoted end) texts ≡ false)
        × (map plain_input inputs.items ≡ inputs_named (map (λ name. name.now) names.now) texts)) }
    ensures unread { reads_standard (map (λ name. name.now) names.now) ≡ false → reader.new ≡ reader.old }
    ensures faults { IfErr result (ComesOfReading end (F.reads files.now) (R.may_fail reader.old) (R.remaining reader.old)
        (map (λ name. name.now) names.now)) }
{
    let mut inputs = Vec::with_capacity(alloc, names.len())?;
    for name in names {
        let text = read_input(alloc, name, end, files, reader)?;
        add_input(&mut inputs, Some(name), text)?;
    }
    Ok(inputs)
}

// Adds the text of a file to other inputs.
fn add_input<'w>(
    inputs: &mut Vec<InputText<'w>>,
    file: Option<&'w str>,
    text: Vec<u8>,
) -> Result<(), AllocError>
    ensures { OnOk result (map plain_input inputs.new.items
        ≡ map plain_input inputs.old.items ++ (option_map (λ name. name.now) file.entry, text.items) ∷ []) }
{
    inputs.push(InputText { file, text })?;
    Ok(())
}

/// Reads one input to its end. One that ends within quotes is a fault.
pub fn read_input<'w, F: Files, R: Source>(
    alloc: Global,
    name: &'w str,
    end: LineEnd,
    files: &F,
    reader: &mut R,
) -> Result<Vec<u8>, TaskFault<'w>>
    ensures text { IfOk result (λ text.
        IsInput (F.reads files.now) (R.remaining reader.old) (R.remaining reader.new) name.now text.items
        × (ends_quoted end text.items ≡ false)) }
    ensures stays { R.may_fail reader.new ≡ R.may_fail reader.old }
    ensures unread { is_standard name.now ≡ false → reader.new ≡ reader.old }
    ensures faults { IfErr result (ComesOfReadingOne end (F.reads files.now) (R.may_fail reader.old)
        (R.remaining reader.old) name.now) }
{
    let text = read_text(alloc, name, files, reader)?;
    refuse_open(name, end, text.as_slice())?;
    Ok(text)
}

// Fails with an input that ends within quotes, and with the number of its last line.
fn refuse_open<'w>(name: &'w str, end: LineEnd, text: &[u8]) -> Result<(), TaskFault<'w>>
    ensures closed { OnOk result (ends_quoted end text.now ≡ false) }
    ensures open { IfErr result (λ fault. (ends_quoted end text.now ≡ true)
        × (fault ≡ TaskFault.Unclosed name.entry (length (lines_of end text.now)))) }
{
    if ends_quoted(end, text) {
        return Err(TaskFault::Unclosed(name, count_lines(end, text)));
    }
    Ok(())
}

/// Returns how many lines a text has.
pub fn count_lines(end: LineEnd, text: &[u8]) -> usize
    ensures { result ≡ length (lines_of end text.now) }
{
    let mut count = 0;
    let mut lines = Lines::of(end, None, text);
    while let Some(line) = lines.next() {
        count = line.number;
    }
    count
}

// Reads what an input holds.
fn read_text<'w, F: Files, R: Source>(
    alloc: Global,
    name: &'w str,
    files: &F,
    reader: &mut R,
) -> Result<Vec<u8>, TaskFault<'w>>
    ensures text { IfOk result (λ text.
        IsInput (F.reads files.now) (R.remaining reader.old) (R.remaining reader.new) name.now text.items) }
    ensures stays { R.may_fail reader.new ≡ R.may_fail reader.old }
    ensures unread { is_standard name.now ≡ false → reader.new ≡ reader.old }
    ensures faults { IfErr result (ComesOfText (F.reads files.now) (R.may_fail reader.old) name.now) }
{
    let read = if name == "-" {
        read_all(alloc, reader)
    } else {
        files.read(alloc, name)
    };
    read.map_err(|trouble| not_read(name, trouble))
}

/// Reads standard input to its end.
pub fn read_standard<'w, R: Source>(alloc: Global, reader: &mut R) -> Result<Vec<u8>, TaskFault<'w>>
    ensures input { IfOk result (λ input.
        Consumes (R.remaining reader.old) (R.remaining reader.new) input.items) }
    ensures end { OnOk result (IsAtEnd (R.remaining reader.new)) }
    ensures faults { IfErr result (ComesOfStandard (R.may_fail reader.old)) }
{
    match read_all(alloc, reader) {
        Ok(input) => Ok(input),
        Err(trouble) => Err(not_read("-", trouble)),
    }
}

// Returns the fault of an input of this name that can't be read for this reason.
fn not_read(name: &str, trouble: Trouble) -> TaskFault<'_>
    ensures { result ≡ not_read name.entry trouble }
{
    match trouble {
        Trouble::Memory => TaskFault::Memory,
        Trouble::System => TaskFault::Read(name),
    }
}
