//! A run of `vers` over any reader and writer.
ghost use Rattle.std.specs.Prelude.{map, string_bytes};
ghost use Rattle.version_commands.specs.Run.{RunsBy};
ghost use Rattle.vers_words.specs.{Words.no_files, Words.IsOfWords, Words.Means, declared.faults.Fault.TheVariants.Task};

use std::alloc::Global;
use std::io::Write;
use vers_words::{Fault, task_of};
use version_commands::serve;
use version_lines::Source;
use version_runs::{Files, NoFiles};

/// Runs the command that the words name. `ideal`, `show`, `sort` and `match R` read the whole input and write their
/// output for its lines; without words, the command is `ideal`. `cmp A B` and `key V` compare and key their words, and
/// read nothing. docs/VERS.md has their rules. None answers no.
///
/// It fails before it reads anything with [`Fault::Usage`] if the words are not a command, and with the first word that
/// is not what it should be. The whole input is read and checked before anything is written, and all memory is taken
/// before. So after a fault of the writer a proper prefix of the output was written, and after every other fault nothing
/// was.
///
/// A call of `read` or `write` that fails is not retried, even if it was interrupted; a `write` that writes nothing has
/// failed. Nothing is flushed.
///
/// It allocates the whole input and two buffers of 64 KiB. `sort` also allocates the sort keys of all lines, in one
/// list, and 48 bytes a line; `key` the sort key and the line.
pub fn run<'w, R: Source, W: Write>(
    alloc: Global,
    words: &'w [String],
    reader: &mut R,
    writer: &mut W,
) -> Result<bool, Fault<'w>>
    ensures { RunsBy ⟦<NoFiles as Files>⟧.reads ⟦<NoFiles as Files>⟧.finds ⟦<NoFiles as Files>⟧.puts
        ⟦<NoFiles as Files>⟧.refuses ⟦<NoFiles as Files>⟧.alters R.remaining R.may_fail no_files no_files reader.old reader.new
        (W.contents writer.old) (W.contents writer.new) (Means (map string_bytes words.now))
        (IsOfWords (map string_bytes words.now)) Task result }
{
    let Some(task) = task_of(alloc, words)? else {
        return Err(Fault::Usage);
    };
    Ok(serve(alloc, &task, &mut NoFiles, reader, writer)?)
}
