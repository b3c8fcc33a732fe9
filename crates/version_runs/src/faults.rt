//! Why a task fails.
ghost use Rattle.std.specs.Prelude.{◌++◌, Some};
ghost use Rattle.std.specs.Fmt.{DisplaysOnOk};
ghost use Rattle.version_answers.specs.Message.{quoted};

use std::alloc::AllocError;
use std::error::Error;
use std::fmt;
use version_answers::{NoVersion, Others, Remark, Shown, WrongSet};
use version_lines::NotWritten;

/// Why a task failed. It prints as what the program `versions` writes to standard error, after its name. Of a word, a
/// line or the name of a file a message shows what is UTF-8 in front of the first sixty bytes, with control characters
/// escaped.
#[derive(Debug, Drop)]
pub enum TaskFault<'w> {
    /// The first word that should be a version but is not.
    NotVersion(&'w str, Option<Remark>),
    /// The word that should be a list of requirements but is not.
    NotRequirement(&'w str),
    /// The word that should be a set but is not.
    NotSet(WrongSet<'w>),
    /// The first word that should be a version but is not, of a task that answers by its status.
    NotTested(&'w str, Option<Remark>),
    /// The word that should be a set but is not, of such a task.
    NotTestedSet(WrongSet<'w>),
    /// The first line that has no version.
    BadLine(Blamed<'w>),
    /// The first version that none comes next to at the place, as a message shows it.
    NoNext(String),
    /// The first name of a column that the header has not.
    NoColumn(&'w str),
    /// The first input in which quotes of CSV never close, by its name, and the number of the line that they open in; `-`
    /// is standard input.
    Unclosed(&'w str, usize),
    /// An allocation failed.
    Memory,
    /// The file that could not be read to its end; `-` is standard input.
    Read(&'w str),
    /// The file that could not be written to its end, or None for standard output.
    Write(Option<&'w str>),
}

impl TaskFault<'_> {
    ghost use Rattle.std.specs.Prelude.{◌≡◌};
    ghost use Rattle.version_runs.specs.Fault.{status_of};

    /// Returns the exit status: 1 for an input that is not a version, a requirement or a set, has no such
    /// column, or doesn't close its quotes; 2 for such words of a task that answers by its status; 3 for a failure of the
    /// system.
    pub fn status(&self) -> u8
        ensures { result ≡ status_of self.now }
    {
        match self {
            TaskFault::NotVersion(..)
            | TaskFault::NotRequirement(_)
            | TaskFault::NotSet(_)
            | TaskFault::BadLine(_)
            | TaskFault::NoNext(_)
            | TaskFault::NoColumn(_)
            | TaskFault::Unclosed(..) => 1,
            TaskFault::NotTested(..) | TaskFault::NotTestedSet(_) => 2,
            TaskFault::Memory | TaskFault::Read(_) | TaskFault::Write(_) => 3,
        }
    }
}

impl fmt::Display for TaskFault<'_> {
    ghost use Rattle.std.specs.Prelude.{Some};
    ghost use Rattle.version_runs.specs.Fault.{fault_text};

    ghost output = { λ fault. Some (fault_text fault) };

    fn fmt<W: fmt::Write>(&self, f: &mut fmt::Formatter<W>) -> fmt::Result {
        match self {
            TaskFault::NotVersion(word, remark) | TaskFault::NotTested(word, remark) => {
                let text = NoVersion {
                    text: word,
                    remark: *remark,
                    more: 0,
                };
                write!(f, "not a version: {text}")
            }
            TaskFault::NotRequirement(word) => write_word(f, "not a requirement: ", word),
            TaskFault::NotSet(wrong) | TaskFault::NotTestedSet(wrong) => write!(f, "{wrong}"),
            TaskFault::BadLine(bad) => write!(f, "{bad}"),
            TaskFault::NoNext(text) => write!(f, "no version comes next at that place: {text}"),
            TaskFault::NoColumn(name) => write_word(f, "no column is named ", name),
            TaskFault::Unclosed(name, number) => {
                let shown = Shown {
                    text: name.as_bytes(),
                };
                write!(f, "line {number} of {shown}: its quotes never close")
            }
            TaskFault::Memory => write!(f, "no memory"),
            TaskFault::Read(name) => write_word(f, "cannot be read: ", name),
            TaskFault::Write(Some(name)) => write_word(f, "cannot be written: ", name),
            TaskFault::Write(None) => write!(f, "write failed"),
        }
    }
}

// Writes what is wrong with a word, and the word as a message shows it.
fn write_word<W: fmt::Write>(
    f: &mut fmt::Formatter<W>,
    wrong: &'static str,
    word: &str,
) -> fmt::Result
    ensures { DisplaysOnOk W.write_str_gives f.old result (Some (wrong.now ++ quoted word.now)) f.new }
{
    let shown = Shown {
        text: word.as_bytes(),
    };
    write!(f, "{wrong}{shown}")
}

impl Error for TaskFault<'_> {}

impl From<AllocError> for TaskFault<'_> {
    ghost use Rattle.std.specs.Prelude.{◌≡◌};
    ghost use Rattle.version_runs.specs.declared.faults.TaskFault.TheVariants.{Memory};

    ghost from_gives = { λ _ fault. fault ≡ Memory };

    fn from(_refused: AllocError) -> Self {
        TaskFault::Memory
    }
}

impl From<NotWritten> for TaskFault<'_> {
    ghost use Rattle.std.specs.Prelude.{◌≡◌, None};
    ghost use Rattle.version_runs.specs.declared.faults.TaskFault.TheVariants.{Write};

    ghost from_gives = { λ _ fault. fault ≡ Write None };

    fn from(_refused: NotWritten) -> Self {
        TaskFault::Write(None)
    }
}

/// The first line that has no version, as a message tells of it.
#[derive(Debug, Drop)]
pub struct Blamed<'w> {
    /// Its number in its file, counted from 1.
    pub number: usize,
    /// The name of its file, if it has one.
    pub file: Option<&'w str>,
    /// As much as a message shows of the text that should name its version, or of the line where it has no such text.
    pub text: String,
    /// What is added to that.
    pub remark: Option<Remark>,
    /// Whether it ends in a carriage return that belongs to its end: `--crlf` is missing.
    pub ends_in_return: bool,
    /// How many more such lines there are.
    pub more: usize,
}

impl fmt::Display for Blamed<'_> {
    ghost use Rattle.std.specs.Prelude.{Some};
    ghost use Rattle.version_runs.specs.Fault.{bad_line_text};

    ghost output = { λ bad. Some (bad_line_text bad) };

    fn fmt<W: fmt::Write>(&self, f: &mut fmt::Formatter<W>) -> fmt::Result {
        let (number, file) = (self.number, OfFile { file: self.file });
        if self.ends_in_return {
            let others = Others { more: self.more };
            return write!(
                f,
                "line {number}{file} ends in a carriage return: --crlf{others}"
            );
        }
        let text = NoVersion {
            text: self.text.as_str(),
            remark: self.remark,
            more: self.more,
        };
        write!(f, "line {number}{file} is not a version: {text}")
    }
}

// Of which file a line is.
#[derive(Clone, Copy)]
struct OfFile<'w> {
    file: Option<&'w str>,
}

impl fmt::Display for OfFile<'_> {
    ghost use Rattle.std.specs.Prelude.{Some};
    ghost use Rattle.version_runs.specs.Fault.{file_text};

    ghost output = { λ of. Some (file_text of.file) };

    fn fmt<W: fmt::Write>(&self, f: &mut fmt::Formatter<W>) -> fmt::Result {
        match self.file {
            Some(name) => {
                let shown = Shown {
                    text: name.as_bytes(),
                };
                write!(f, " of {shown}")
            }
            None => Ok(()),
        }
    }
}
