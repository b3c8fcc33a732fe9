//! Lines by their versions and by their groups.
use version_lines::{Column, GroupBy, SortBy};
use version_runs::{VersionPlace, column_text, line_text};
use version_schemes::Scheme;

/// What lines are sorted by: the version that stands at a place in each of them.
#[derive(Clone, Copy)]
pub struct ByVersion<'w> {
    pub place: VersionPlace<'w>,
    /// Whether the highest version comes first.
    pub reverse: bool,
}

impl SortBy for ByVersion<'_> {
    ghost use Rattle.version_runs.specs.Place.{reads_of};

    ghost reads = { λ by. reads_of by.place };

    ghost is_reversed = { λ by. by.reverse };

    fn text<'a>(&self, line: &'a [u8]) -> &'a [u8] {
        self.place.text(line)
    }

    #[inline(always)]
    fn scheme(&self) -> Scheme {
        self.place.spelling.scheme
    }

    fn is_reversed(&self) -> bool {
        self.reverse
    }
}

/// The group of a line: the text of a column, or all lines are of one group.
#[derive(Clone, Copy)]
pub struct ByColumn<'w> {
    /// Whether a carriage return at the end of a line belongs to the line's end.
    pub crlf: bool,
    /// The column. Lines without it are of the group of the empty text.
    pub column: Option<Column<'w>>,
}

impl GroupBy for ByColumn<'_> {
    ghost use Rattle.version_commands.specs.lines.Picked.{group_text};

    ghost group_of = { λ by. group_text by.crlf by.column };

    fn group<'a>(&self, line: &'a [u8]) -> &'a [u8] {
        match self.column {
            Some(column) => column_text(Some(column), line_text(self.crlf, line)),
            None => &[],
        }
    }
}
