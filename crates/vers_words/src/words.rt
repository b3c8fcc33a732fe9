//! The task that the words of a run mean.
ghost use Rattle.std.specs.Prelude.{◌≡◌, ◌∷◌, [], codes, false, map, string_bytes, IfOk, MatchOption};
ghost use Rattle.vers_words.specs.Words.{are_command, ArePlain, Means};

use std::alloc::{AllocError, Global};
use version_answers::{Naming, Spelling};
use version_lines::{Column, Invalid, LineEnd, Separators};
use version_runs::{
    Arrangement, Choice, ColumnNames, EachOptions, Labels, LineOptions, Question, Task,
    VersionPlace,
};
use version_schemes::Scheme;
use version_tasks::Stability;

/// Returns the task that the words mean, or None if they mean none.
pub fn task_of<'w>(alloc: Global, words: &'w [String]) -> Result<Option<Task<'w>>, AllocError>
    ensures { IfOk result (λ found. MatchOption found
        (are_command (map string_bytes words.now) ≡ false) (Means (map string_bytes words.now))) }
{
    match words {
        [] => Ok(Some(Task::Label(Labels::Strict))),
        [name] => Ok(task_of_name(alloc, name.as_str())),
        [name, word] if name.as_str() == "key" => Ok(Some(key_task(alloc, word.as_str())?)),
        [name, word] if name.as_str() == "match" => Ok(Some(Task::Match(word.as_str()))),
        [name, first, second] if name.as_str() == "cmp" => Ok(Some(Task::Compare(
            Spelling {
                naming: Naming::Bare,
                scheme: Scheme::Mixed,
            },
            first.as_str(),
            second.as_str(),
        ))),
        _ => Ok(None),
    }
}

// Returns the task of a single word.
fn task_of_name<'w>(alloc: Global, name: &str) -> Option<Task<'w>>
    ensures { MatchOption result (are_command (name.now ∷ []) ≡ false) (Means (name.now ∷ [])) }
{
    match name {
        "ideal" => Some(Task::Label(Labels::Strict)),
        "show" => Some(Task::Label(Labels::Every)),
        "sort" => Some(Task::Lines(sort_options(), Vec::new(alloc))),
        _ => None,
    }
}

// Returns the task to write the sort key of a version.
fn key_task<'w>(alloc: Global, version: &'w str) -> Result<Task<'w>, AllocError>
    ensures { IfOk result (Means (codes "key" ∷ version.now ∷ [])) }
{
    let mut versions = Vec::new(alloc);
    versions.push(version)?;
    let options = EachOptions {
        versions,
        naming: Naming::Bare,
        end: b'\n',
        crlf: false,
    };
    Ok(Task::Each(Question::Key(Scheme::Mixed), options))
}

// Returns the options of a command that sorts lines, each of which has to be a version.
fn sort_options<'w>() -> LineOptions<'w>
    ensures { ArePlain result }
{
    LineOptions {
        arrangement: Arrangement::Sort {
            reverse: false,
            unique: false,
        },
        end: LineEnd {
            byte: b'\n',
            csv: None,
        },
        header: 0,
        place: VersionPlace {
            crlf: false,
            column: None,
            spelling: Spelling {
                naming: Naming::Bare,
                scheme: Scheme::Mixed,
            },
        },
        scheme_column: None,
        names: ColumnNames {
            first: Column {
                number: 0,
                separators: Separators::Blanks,
            },
            version: None,
            group: None,
            scheme: None,
        },
        choice: Choice {
            least: Stability::Dev,
            wanted: None,
        },
        invalid: Invalid::Fail,
        invalid_to: None,
        progress: false,
    }
}
