//! The commands, the arguments that they take, and what help says of them. Definitions read the names and the arguments
//! here.

ghost use Rattle.std.specs.Prelude.{◌≡◌, ◌++◌, map};
ghost use Rattle.version_usage.specs.Grammar.{rule_of_row, rules_of};

use crate::named::Verb;

/// What an argument is.
#[derive(Clone, Copy)]
pub enum Form<T> {
    /// A word that has to be there.
    Word,
    /// A word that may be there.
    FirstWord,
    /// Two or three words.
    TwoOrThree,
    /// Any number of words.
    Words,
    /// An option that takes nothing.
    Flag,
    /// An option with a number from 1 on.
    Number,
    /// An option with a text, which help names so.
    Text(T),
}

/// An argument: its form, the letter of an option that has one, its name, and what help says of it, where `[schemes]`
/// and `[levels]` stand for their names. Definitions see a text in a constant only where its type is a parameter.
#[derive(Clone, Copy)]
pub struct Row<T> {
    pub form: Form<T>,
    pub letter: Option<char>,
    pub name: T,
    pub help: T,
}

pub type Argument = Row<&'static str>;

// A row: what it is, the letter of an option that has one, its name, and what help says of it.
macro_rules! row {
    ($form:ident $(($value:literal))? $name:literal: $help:literal) => {
        Row {
            form: Form::$form $(($value))?,
            letter: None,
            name: $name,
            help: $help,
        }
    };
    ($form:ident $(($value:literal))? -$letter:literal $name:literal: $help:literal) => {
        Row {
            form: Form::$form $(($value))?,
            letter: Some($letter),
            name: $name,
            help: $help,
        }
    };
}

/// A command: what help says of it, with an example, and its arguments, the last of which it shares with others.
#[derive(Clone, Copy)]
pub struct Entry {
    pub about: &'static str,
    /// How it is used, if its arguments don't show that.
    pub usage: Option<&'static str>,
    pub example: &'static str,
    pub own: &'static [Argument],
    pub shared: &'static [Argument],
}

/// The commands by their names, in the order in which help has them.
pub const COMMANDS: [(&str, Verb); 12] = [
    ("sort", Verb::Sort),
    ("newest", Verb::Newest),
    ("filter", Verb::Filter),
    ("show", Verb::Show),
    ("key", Verb::Key),
    ("test", Verb::Test),
    ("compare", Verb::Compare),
    ("why", Verb::Why),
    ("implies", Verb::Implies),
    ("meets", Verb::Meets),
    ("diff", Verb::Diff),
    ("next", Verb::Next),
];

/// Returns what the table has of a command.
pub fn entry_of(command: Verb) -> Entry
    ensures { map (rule_of_row (λ name. name.now)) result.own.now ++ map (rule_of_row (λ name. name.now)) result.shared.now
        ≡ rules_of command }
{
    match command {
        Verb::Sort => Entry {
            about: "Write lines in the order of their versions",
            usage: None,
            example: "Example:
  $ printf '%s\\n' 'tool 1.10' 'tool 1.9' 'tool 1.10rc1' | versions sort -k 2
  tool 1.9
  tool 1.10rc1
  tool 1.10",
            own: &SORT,
            shared: &LINES,
        },
        Verb::Newest => Entry {
            about: "Write the line with the newest version, or that of each group",
            usage: None,
            example: "Example:
  $ printf '%s\\n' v1.9.0 v1.10.0 v2.0.0-rc.1 | versions newest --tags --min-stability stable
  v1.10.0
  $ printf '%s\\n' name,version left,1.9 up,2.0 left,1.10 | versions newest --header -t, -k version -g name
  name,version
  left,1.10
  up,2.0",
            own: &NEWEST,
            shared: &LINES,
        },
        Verb::Filter => Entry {
            about: "Write lines whose versions are in a set",
            usage: None,
            example: "Example:
  $ printf '%s\\n' 1.1.9 1.2 1.10.0 2.0.0 | versions filter '>=1.2, <2'
  1.2
  1.10.0",
            own: &FILTER,
            shared: &LINES,
        },
        Verb::Show => Entry {
            about: "Write the kind of versions, their numbers and other fields",
            usage: None,
            example: "Example:
  $ versions show 1.2.0-rc.1
  1.2.0-rc.1
    kind: ideal
    major: 1
    minor: 2
    patch: 0
    pre-release: rc.1
    stability: rc",
            own: &SHOW,
            shared: &ENDS,
        },
        Verb::Key => Entry {
            about: "Write sort keys in hexadecimal, whose order as bytes is that of the versions",
            usage: None,
            example: "Example:
  $ versions key 1.9 1.10 | sort -c && echo in order
  in order",
            own: &KEY,
            shared: &ENDS,
        },
        Verb::Test => Entry {
            about: "End with 0 if it is so, 1 if not, and 2 if a word is wrong; write nothing",
            usage: Some(
                "versions test A OP B
       versions test VERSION SET",
            ),
            example: "Example:
  $ versions test 1.10 gt 1.9 && versions test 1.10 '^1.2' && echo yes
  yes",
            own: &TEST,
            shared: &NOTHING,
        },
        Verb::Compare => Entry {
            about: "Write <, = or > between two versions",
            usage: None,
            example: "Example:
  $ versions compare --explain 1.10 1.9
  1.10 > 1.9: the second number, 10 > 9",
            own: &COMPARE,
            shared: &NOTHING,
        },
        Verb::Why => Entry {
            about: "Write whether each version is in a set, or which members leave it out",
            usage: None,
            example: "Example:
  $ versions why '>=1.5, <2 || ^3' 1.4 1.6 2.0
  1.4 is left out by >=1.5 and by ^3
  1.6 matches
  2.0 is left out by <2 and by ^3",
            own: &WHY,
            shared: &ENDS,
        },
        Verb::Implies => Entry {
            about: "Write yes, and end with 0, if all that is in a set is in another; else no and 1",
            usage: None,
            example: "Example:
  $ versions implies '^1.2' '>=1, <3'
  yes",
            own: &SETS,
            shared: &NOTHING,
        },
        Verb::Meets => Entry {
            about: "Write yes, and end with 0, if two sets have something in common; else no and 1",
            usage: None,
            example: "Example:
  $ versions meets '^1.2' '<1.1 || >=2'
  no",
            own: &SETS,
            shared: &NOTHING,
        },
        Verb::Diff => Entry {
            about: "Write where two versions differ first, or what changed between two lists of names",
            usage: None,
            example: "Example:
  $ versions diff 1.2.5 1.3.0
  part 1",
            own: &DIFF,
            shared: &ENDS,
        },
        Verb::Next => Entry {
            about: "Write the version that comes next, and what stands before it in a tag",
            usage: None,
            example: "Example:
  $ versions next minor --tags tool-1.2.5 v2.0
  tool-1.3.0
  v2.1
  $ versions next pre --word rc 1.2.3 1.2.4-rc.1
  1.2.4-rc.1
  1.2.4-rc.2",
            own: &NEXT,
            shared: &ENDS,
        },
    }
}

/// What the commands take, each of its own.
pub static SORT: [Argument; 5] = [FILES, REVERSE, UNIQUE, SCHEME_COLUMN, INVALID];

pub static NEWEST: [Argument; 5] = [FILES, COUNT, GROUP, SCHEME_COLUMN, FAIL_OR_SKIP];

pub static FILTER: [Argument; 4] = [SET_OR_NONE, FILES, INVERT_MATCH, SKIP_OR_OTHER];

pub static SHOW: [Argument; 4] = [VERSIONS, JSON, TAGS, PREFIX];

pub static KEY: [Argument; 4] = [VERSIONS, TAGS, PREFIX, SCHEME];

pub static TEST: [Argument; 4] = [WORDS_OF_TEST, TAGS, PREFIX, SCHEME];

pub static COMPARE: [Argument; 6] = [A, B, EXPLAIN, TAGS, PREFIX, SCHEME];

pub static WHY: [Argument; 5] = [SET, VERSIONS, TAGS, PREFIX, SCHEME];

pub static SETS: [Argument; 3] = [SET, OTHER, SCHEME];

pub static DIFF: [Argument; 11] = [
    OLD,
    NEW,
    LISTS,
    NAME_COLUMN,
    VERSION_COLUMN,
    FIELD_SEPARATOR,
    CSV,
    TAGS,
    PREFIX,
    SCHEME,
    FAIL_OR_SKIP,
];

pub static NEXT: [Argument; 5] = [PLACE, VERSIONS, PRE_WORD, TAGS, PREFIX];

/// What the commands take that answer with lines of their input, after their own arguments.
pub static LINES: [Argument; 14] = [
    INVALID_TO,
    KEY_COLUMN,
    FIELD_SEPARATOR,
    CSV,
    TAGS,
    PREFIX,
    SCHEME,
    MIN_STABILITY,
    MATCH,
    HEADER,
    HEADER_LINES,
    ZERO_TERMINATED,
    CRLF,
    PROGRESS,
];

/// How lines end.
pub static ENDS: [Argument; 2] = [ZERO_TERMINATED, CRLF];

static NOTHING: [Argument; 0] = [];

pub const FILES: Argument = row!(Words "FILE":
    "Files that are read in turn; - is standard input, which is read without any");

pub const REVERSE: Argument = row!(Flag -'r' "reverse":
    "From the last to the first; lines that compare equal keep their order");

pub const UNIQUE: Argument = row!(Flag -'u' "unique":
    "Of lines whose versions tie in precedence, the first of the input alone");

pub const SCHEME_COLUMN: Argument = row!(Text("COLUMN") "scheme-column":
    "The column names the scheme of a line; the lines of each scheme together, as schemes first appear");

pub const INVALID: Argument = row!(Text("WHAT") "invalid":
    "What becomes of lines without a version; fail unless it is given [possible values: fail, skip, first, last]");

pub const COUNT: Argument =
    row!(Number -'n' "count": "How many, the newest first; 1 unless it is given");

pub const GROUP: Argument = row!(Text("COLUMN") -'g' "group":
    "Of each value of the column, the groups as they first appear");

const FAIL_OR_SKIP: Argument = Row {
    help: "What becomes of lines without a version; fail unless it is given [possible values: fail, skip]",
    ..INVALID
};

pub const SET: Argument = row!(Word "SET": "Which versions, such as '>=1.2, <2 || ^3'");

const SET_OR_NONE: Argument = Row {
    form: Form::FirstWord,
    help: "Which versions, such as '>=1.2, <2 || ^3'; --min-stability alone needs none",
    ..SET
};

pub const INVERT_MATCH: Argument =
    row!(Flag -'v' "invert-match": "Write the lines whose versions are not in the set");

const SKIP_OR_OTHER: Argument = Row {
    help: "What becomes of lines without a version; skip unless it is given [possible values: fail, skip, first, last]",
    ..INVALID
};

pub const INVALID_TO: Argument = row!(Text("FILE") "invalid-to":
    "Write lines without a version to this file, and leave them out");

pub const KEY_COLUMN: Argument = row!(Text("COLUMN") -'k' "key":
    "The column of the version: a number, from 1 on, or with --header a name");

pub const FIELD_SEPARATOR: Argument = row!(Text("SEP") -'t' "field-separator":
    "The bytes between columns, each alone, \\t or \\0 too; runs of spaces and tabs unless they are given");

pub const CSV: Argument = row!(Flag "csv":
    "Lines are records of CSV and columns their fields: column 1 without -k, a comma between them without -t");

pub const TAGS: Argument =
    row!(Flag "tags": "The version is that of a tag, such as v1.2.0 or tool-1.2.0");

pub const PREFIX: Argument = row!(Text("P") "prefix": "The version is what follows the prefix P");

pub const SCHEME: Argument =
    row!(Text("NAME") "scheme": "Whose order it goes by; mixed unless it is given [schemes]");

pub const MIN_STABILITY: Argument = row!(Text("LEVEL") "min-stability":
    "Leave out versions that are less stable [levels]");

pub const MATCH: Argument =
    row!(Text("SET") "match": "Leave out versions that are not in this set");

pub const HEADER: Argument = row!(Flag "header": "The first line stays on top, as it is");

pub const HEADER_LINES: Argument = row!(Number "header-lines": "So many lines stay on top");

pub const ZERO_TERMINATED: Argument =
    row!(Flag -'z' "zero-terminated": "Lines end with NUL, and not with a line feed");

pub const CRLF: Argument =
    row!(Flag "crlf": "A carriage return at a line's end belongs to the end");

pub const PROGRESS: Argument = row!(Flag "progress": "Tell on standard error how far the work is");

pub const VERSIONS: Argument = row!(Words "VERSION":
    "Versions; without any, or with - alone, the lines of standard input");

pub const JSON: Argument = row!(Flag "json": "Write a JSON object for each");

pub const WORDS_OF_TEST: Argument = row!(TwoOrThree "WORD":
    "Two versions with <, <=, =, >=, > or lt, le, eq, ge, gt between them, or a version and a set");

pub const A: Argument = row!(Word "A": "A version");

pub const B: Argument = row!(Word "B": "Another");

pub const EXPLAIN: Argument =
    row!(Flag "explain": "Write where they differ first, and what they have there");

pub const OTHER: Argument = row!(Word "OTHER": "Another");

const OLD: Argument = Row {
    help: "A version, or with --lists the file with the old names and versions",
    ..A
};

const NEW: Argument = Row {
    help: "Another, or the file with the new ones; - is standard input",
    ..B
};

pub const LISTS: Argument =
    row!(Flag "lists": "Write which names were added, removed, raised or lowered");

const NAME_COLUMN: Argument = Row {
    form: Form::Number,
    help: "The name is column N; 1 unless it is given",
    ..GROUP
};

const VERSION_COLUMN: Argument = Row {
    form: Form::Number,
    help: "The version is column N; 2 unless it is given",
    ..KEY_COLUMN
};

pub const PLACE: Argument = row!(Word "PLACE":
    "major, minor, patch, release, pre, or the place of a number, counted from 0");

pub const PRE_WORD: Argument = row!(Text("W") "word":
    "What the pre-release of pre begins with, such as rc, where the version has none of its own");
