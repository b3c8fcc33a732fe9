//! A first word of `filter` that is no set, and names a file.
ghost use Rattle.std.specs.Prelude.{◌≡◌, ◌∷◌, false, map, IfNone, IfOk, IfSome};
ghost use Rattle.version_commands.specs.lines.Choice.{asks, may_be_standard, without_set, word_for_file, HoldsByWords, IsFirstFile, StaysWord};
ghost use Rattle.version_commands.specs.{Cause.ComesOfFirst, Files.names_read, Files.reads_standard, Hints.IsOfRun, Hints.MayTell, Run.IfOfWord, Run.Finishes, lines.Ordered.IsOrdered};

use crate::lines::arrange::serve_lines;
use std::alloc::{AllocError, Global};
use std::io::Write;
use version_answers::Set;
use version_lines::Source;
use version_runs::{Arrangement, Choice, Files, LineOptions, TaskFault};
use version_tasks::Stability;

/// Reads the inputs, and writes those of their lines that the arrangement asks for. Where the first word of `filter` is no
/// set and names a file that is there, and something else says which versions are kept, it is the first input.
pub fn serve_by_words<'w, F: Files, R: Source, W: Write>(
    alloc: Global,
    options: &LineOptions<'w>,
    names: &[&'w str],
    files: &mut F,
    reader: &mut R,
    writer: &mut W,
) -> Result<(), TaskFault<'w>>
    requires hints { MayTell (λ hint. HoldsByWords (F.finds files.old) (λ with given. IsOfRun with given (F.reads files.old)
        (R.remaining reader.old) hint) options.now (map (λ name. name.now) names.now)) F.may_hint }
    ensures served { Finishes F.puts F.refuses F.alters files.old files.new (W.contents writer.old) (W.contents writer.new)
        options.now (λ leaves output. HoldsByWords (F.finds files.old) (λ with given. IsOrdered with given (F.reads files.old)
        (R.remaining reader.old) (R.remaining reader.new) leaves output) options.now (map (λ name. name.now) names.now))
        (λ Refuses fault. ComesOfFirst (F.finds files.old) options.now (map (λ name. name.now) names.now) (F.reads files.old)
        (R.may_fail reader.old) (R.remaining reader.old) Refuses fault) result }
    ensures unread { reads_standard (names_read (map (λ name. name.now) names.now)) ≡ false
        → may_be_standard options.now.arrangement options.now.choice ≡ false → reader.new ≡ reader.old }
    ensures early { IfOfWord (reader.new ≡ reader.old) result }
{
    match file_named(alloc, options, files)? {
        Some(name) => {
            let names = with_file(alloc, name, names)?;
            let options = without_set(options);
            serve_lines(alloc, &options, names.as_slice(), files, reader, writer)
        }
        None => serve_lines(alloc, options, names, files, reader, writer),
    }
}

// Returns the first word of `filter`, if it is no set and names a file that is there.
fn file_named<'w, F: Files>(
    alloc: Global,
    options: &LineOptions<'w>,
    files: &F,
) -> Result<Option<&'w str>, AllocError>
    ensures file { IfOk result (λ found. IfSome found (IsFirstFile (F.finds files.now) options.now)) }
    ensures word { IfOk result (λ found. IfNone found (StaysWord (F.finds files.now) options.now)) }
{
    let Some(word) = word_for_file(&options.arrangement, &options.choice) else {
        return Ok(None);
    };
    match Set::read(alloc, options.place.spelling.scheme, word)? {
        Err(_wrong) if word == "-" || files.has(word) => Ok(Some(word)),
        _ => Ok(None),
    }
}

// Returns the first word of `filter`, if it may name a file in place of a set.
fn word_for_file<'w>(arrangement: &Arrangement<'w>, choice: &Choice<'_>) -> Option<&'w str>
    ensures { result ≡ word_for_file arrangement.now choice.now }
{
    match arrangement {
        Arrangement::Filter {
            set,
            inverted: false,
        } if asks(choice) => *set,
        _ => None,
    }
}

// Whether a choice asks for some versions alone.
fn asks(choice: &Choice<'_>) -> bool
    ensures { result ≡ asks choice.now }
{
    choice.wanted.is_some() || !matches!(choice.least, Stability::Dev)
}

// Returns the names of files with one before the others.
fn with_file<'w>(
    alloc: Global,
    name: &'w str,
    names: &[&'w str],
) -> Result<Vec<&'w str>, AllocError>
    ensures { IfOk result (λ files. map (λ name. name.now) files.items ≡ name.now ∷ map (λ name. name.now) names.now) }
{
    let mut files = Vec::with_capacity(alloc, 1)?;
    files.push(name)?;
    files.extend_from_slice(names)?;
    Ok(files)
}

// Returns the options without a set.
fn without_set<'w>(options: &LineOptions<'w>) -> LineOptions<'w>
    ensures { result ≡ without_set options.now }
{
    LineOptions {
        arrangement: Arrangement::Filter {
            set: None,
            inverted: false,
        },
        ..*options
    }
}
