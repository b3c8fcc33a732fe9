//! What a command is asked to do: the words of a run, read.

use version_answers::{Naming, Operator, Spelling, Step};
use version_lines::{Column, Invalid, LineEnd};
use version_schemes::Scheme;
use version_tasks::Stability;

/// Where the version of a line stands.
#[derive(Clone, Copy, Debug)]
pub struct VersionPlace<'w> {
    /// Whether a carriage return at the end of a line belongs to the line's end.
    pub crlf: bool,
    /// The column, or None for the whole line.
    pub column: Option<Column<'w>>,
    /// How the text there spells it.
    pub spelling: Spelling<'w>,
}

/// Which lines that have a version are left out before all else.
#[derive(Clone, Copy, Debug)]
pub struct Choice<'w> {
    /// Those whose version is less stable.
    pub least: Stability,
    /// Those whose version is not in this set.
    pub wanted: Option<&'w str>,
}

/// What is written of the lines that have a version and are not left out.
#[derive(Clone, Copy, Debug)]
pub enum Arrangement<'w> {
    /// All of them in the order of their versions.
    Sort {
        /// From the last to the first. Lines that compare equal keep their order.
        reverse: bool,
        /// Of lines whose versions tie in precedence, the first of the input alone.
        unique: bool,
    },
    /// The newest, the newest first; of each group, in the order in which groups first appear.
    Newest {
        /// How many.
        count: usize,
        /// The column whose text is the group of a line. Without one, all lines are of one group.
        group: Option<Column<'w>>,
    },
    /// Those whose versions are in a set, or are not, in the order of the input; without a set all of them.
    Filter {
        set: Option<&'w str>,
        inverted: bool,
    },
}

/// The columns that are asked for by their names in the header, each in the place of the one by its number.
#[derive(Clone, Copy, Debug)]
pub struct ColumnNames<'w> {
    /// The first column, between which and the next stands what separates columns.
    pub first: Column<'w>,
    pub version: Option<&'w str>,
    pub group: Option<&'w str>,
    pub scheme: Option<&'w str>,
}

/// What `sort`, `newest` and `filter` are asked.
#[derive(Clone, Copy, Debug)]
pub struct LineOptions<'w> {
    pub arrangement: Arrangement<'w>,
    pub end: LineEnd,
    /// How many lines at the beginning of the input stay on top, as they came.
    pub header: usize,
    pub place: VersionPlace<'w>,
    /// The column that names the scheme of a line, in place of the one scheme of all; None where all are of one.
    pub scheme_column: Option<Column<'w>>,
    pub names: ColumnNames<'w>,
    pub choice: Choice<'w>,
    pub invalid: Invalid,
    /// The file that lines without a version are written to, in place of the output.
    pub invalid_to: Option<&'w str>,
    pub progress: bool,
}

/// What is asked of each of several versions: by a scheme, where one is named, else by mixed.
#[derive(Clone, Copy, Debug)]
pub enum Question<'w> {
    /// Its kind, numbers and other fields, in lines.
    Show,
    /// The same as a JSON object.
    Json,
    /// Its sort key, in hexadecimal.
    Key(Scheme),
    /// Whether it is in a set, or which members leave it out.
    Why(Scheme, &'w str),
    /// Which version comes next.
    Next(Step<'w>),
}

/// Which versions are asked: the words that are versions, or without any word the lines of standard input.
#[derive(Debug, Drop)]
pub struct EachOptions<'w> {
    pub versions: Vec<&'w str>,
    /// How a version stands in each.
    pub naming: Naming<'w>,
    /// The byte that ends a line.
    pub end: u8,
    /// Whether a carriage return at the end of a line belongs to the line's end.
    pub crlf: bool,
}

/// Two lists of names with versions.
#[derive(Clone, Copy, Debug)]
pub struct Lists<'w> {
    /// The files; `-` is standard input.
    pub old: &'w str,
    pub new: &'w str,
    pub end: LineEnd,
    /// The column of the name.
    pub name: Column<'w>,
    /// Where the version stands.
    pub place: VersionPlace<'w>,
    pub invalid: Invalid,
}

/// Which lines of standard input are labelled with their kind; `none` stands for all others.
#[derive(Clone, Copy, Debug)]
pub enum Labels {
    /// Strict versions.
    Strict,
    /// Versions of every kind.
    Every,
}

/// What a run is asked to do.
#[derive(Debug, Drop)]
pub enum Task<'w> {
    /// `sort`, `newest` and `filter` of the files that are read in turn; `-` is standard input. Without any, standard input
    /// is read.
    Lines(LineOptions<'w>, Vec<&'w str>),
    /// `show`, `key`, `why` and `next`.
    Each(Question<'w>, EachOptions<'w>),
    /// `test A OP B`.
    TestTwo(Spelling<'w>, &'w str, Operator, &'w str),
    /// `test VERSION SET`.
    TestSet(Spelling<'w>, &'w str, &'w str),
    /// `implies SET SET`.
    Implies(Scheme, &'w str, &'w str),
    /// `meets SET SET`.
    Meets(Scheme, &'w str, &'w str),
    /// `compare A B`.
    Compare(Spelling<'w>, &'w str, &'w str),
    /// `compare --explain A B`.
    Explain(Naming<'w>, &'w str, &'w str),
    /// `diff A B`.
    Difference(Naming<'w>, &'w str, &'w str),
    /// `diff --lists OLD NEW`.
    Lists(Lists<'w>),
    /// `ideal` and `show` of `vers`.
    Label(Labels),
    /// `match LIST` of `vers`.
    Match(&'w str),
    /// `--help` and `--version`: the text that is written.
    Say(String),
}
