//! Where the version of a line stands, and how a question reads one.
ghost use Rattle.std.specs.Prelude.{◌≡◌, IsTrue};
ghost use Rattle.std.specs.Option.{option_map};
ghost use Rattle.version_runs.specs.Place.{column_in, column_text, line_text, place_of, place_text, reads_of, scheme_of, spelling_of, text_of};
ghost use Rattle.version_schemes.specs.declared.scheme.Scheme.TheVariants.{Mixed};

use crate::options::{Question, VersionPlace};
use version_answers::{Naming, Spelling};
use version_lines::Column;
use version_schemes::Scheme;

impl VersionPlace<'_> {
    /// Whether each line is its version, of the scheme mixed.
    pub fn is_whole(&self) -> bool
        ensures { IsTrue result → reads_of self.now ≡ record { scheme = Mixed; text_of = λ line. line } }
    {
        matches!(
            self,
            VersionPlace {
                crlf: false,
                column: None,
                spelling: Spelling {
                    naming: Naming::Bare,
                    scheme: Scheme::Mixed,
                },
            }
        )
    }

    /// Returns the text in a line that is to be its version. It is empty where the line has no such column, and where
    /// no version begins in the tag.
    #[inline(always)]
    pub fn text<'a>(&self, line: &'a [u8]) -> &'a [u8]
        ensures { result.now ≡ text_of self.now line.now }
    {
        self.spelling.naming.text(self.place_text(line))
    }

    // Returns the text that names the version of a line.
    #[inline(always)]
    fn place_text<'a>(&self, line: &'a [u8]) -> &'a [u8]
        ensures { result.now ≡ place_text self.now line.now }
    {
        column_text(self.column, line_text(self.crlf, line))
    }
}

impl<'w> Question<'w> {
    /// Returns how a text spells a version to it.
    pub fn spelling(self, naming: Naming<'w>) -> Spelling<'w>
        ensures { result ≡ spelling_of self.entry naming.entry }
    {
        Spelling {
            naming,
            scheme: self.scheme(),
        }
    }

    /// Returns where the version of a line stands: the whole line spells it.
    pub fn place(self, naming: Naming<'w>, crlf: bool) -> VersionPlace<'w>
        ensures { result ≡ place_of self.entry naming.entry crlf }
    {
        VersionPlace {
            crlf,
            column: None,
            spelling: self.spelling(naming),
        }
    }

    /// Returns the scheme by which it reads versions.
    pub fn scheme(self) -> Scheme
        ensures { result ≡ scheme_of self.entry }
    {
        match self {
            Question::Key(scheme) | Question::Why(scheme, _) => scheme,
            Question::Show | Question::Json | Question::Next(_) => Scheme::Mixed,
        }
    }
}

/// Returns the text of a column of a line, or of the whole line. It is empty where the line has no such column.
#[inline(always)]
pub fn column_text<'a>(column: Option<Column<'_>>, line: &'a [u8]) -> &'a [u8]
    ensures { result.now ≡ column_text column.entry line.now }
{
    column_in(column, line).unwrap_or(&[])
}

/// Returns the text of a column of a line, or of the whole line; None where the line has no such column.
#[inline(always)]
pub fn column_in<'a>(column: Option<Column<'_>>, line: &'a [u8]) -> Option<&'a [u8]>
    ensures { option_map (λ text. text.now) result ≡ column_in column.entry line.now }
{
    match column {
        Some(column) => column.of(line),
        None => Some(line),
    }
}

/// Returns a line without the carriage return that it may end in, if that belongs to its end.
#[inline(always)]
pub fn line_text(crlf: bool, line: &[u8]) -> &[u8]
    ensures { result.now ≡ line_text crlf line.now }
{
    if !crlf {
        return line;
    }
    match line {
        [front @ .., b'\r'] => front,
        _ => line,
    }
}
