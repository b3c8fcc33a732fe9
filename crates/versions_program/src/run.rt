//! A run of the program over any files, reader and writer.

ghost use Rattle.std.specs.Prelude.{map, string_bytes};
ghost use Rattle.version_words.specs.declared.faults.Fault.TheVariants as fault;
ghost use Rattle.version_commands.specs.{Hints.IsHint, Hints.MayTell, Run.RunsBy};
ghost use Rattle.version_runs.specs.{declared.options.Task.Task};
ghost use Rattle.version_words.specs.Words.{IsOfWords, Means};

use std::alloc::Global;
use std::io::Write;
use version_commands::serve;
use version_lines::Source;
use version_runs::Files;
use version_words::{Fault, read_words};

/// Does what the words ask for, and returns whether the answer is yes: a command that answers by its output alone does.
/// docs/VERSIONS.md has the commands.
///
/// The words are read first, and each that should be a version or a set is checked before anything is read. The inputs are read to their ends and checked before anything is written, and all memory is taken before. So at
/// a fault the writer got nothing, unless it takes no more; the file for lines without a version may have been written.
pub fn run<'w, F: Files, R: Source, W: Write>(
    alloc: Global,
    words: &'w [String],
    files: &mut F,
    reader: &mut R,
    writer: &mut W,
) -> Result<bool, Fault<'w>>
    requires hints { (task : Task) → Means (map string_bytes words.now) task → MayTell (IsHint task (F.reads files.old)
        (F.finds files.old) (F.refuses files.old) (R.may_fail reader.old) (R.remaining reader.old)) F.may_hint }
    ensures { RunsBy F.reads F.finds F.puts F.refuses F.alters R.remaining R.may_fail files.old files.new reader.old reader.new
        (W.contents writer.old) (W.contents writer.new) (Means (map string_bytes words.now))
        (IsOfWords (map string_bytes words.now)) fault.Task result }
{
    let task = read_words(alloc, words)?;
    Ok(serve(alloc, &task, files, reader, writer)?)
}
