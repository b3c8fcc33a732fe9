//! Writing lines that stand in their order.
ghost use Rattle.std.specs.Prelude.{◌≡◌, ◌<◌, ◌++◌, ℕ, List, [], get_or, length, OnErr, OnOk};
ghost use Rattle.version_lines.specs.Lines.{lines_output, whole_line, AppendsProperBeginning, AppendsUpTo};

use std::io::Write;
use version_lines::{KeyedLines, Line, NotWritten, SortBy, put_line};

/// Lines in an order.
pub trait Rows {
    // The lines.
    ghost lines: { Self → List (List ℕ) };

    /// Returns how many they are.
    fn count(&self) -> usize
        ensures { result ≡ length (lines self.now) };

    /// Returns the line at a place, counted from 0.
    fn row(&self, place: usize) -> &[u8]
        requires { place < length (lines self.now) }
        ensures { result.now ≡ get_or (lines self.now) place [] };
}

impl<B: SortBy> Rows for KeyedLines<'_, B> {
    ghost use Rattle.version_lines.specs.Entry.{lines_in};

    ghost lines = { λ rows. lines_in rows };

    fn count(&self) -> usize {
        KeyedLines::count(self)
    }

    fn row(&self, place: usize) -> &[u8] {
        self.line(place)
    }
}

impl Rows for Option<&[u8]> {
    ghost use Rattle.version_lines.specs.Newest.{rows_in};

    ghost lines = { rows_in };

    fn count(&self) -> usize {
        usize::from(self.is_some())
    }

    fn row(&self, _place: usize) -> &[u8] {
        match self {
            Some(line) => line,
            None => &[],
        }
    }
}

impl Rows for Vec<&[u8]> {
    ghost use Rattle.std.specs.Prelude.{map};

    ghost lines = { λ rows. map (λ row. row.now) rows.items };

    fn count(&self) -> usize {
        self.len()
    }

    fn row(&self, place: usize) -> &[u8] {
        self[place]
    }
}

impl Rows for &[Line<'_, '_>] {
    ghost use Rattle.std.specs.Prelude.{map};

    ghost lines = { λ rows. map (λ row. row.text.now) rows.now };

    fn count(&self) -> usize {
        self.len()
    }

    fn row(&self, place: usize) -> &[u8] {
        self[place].text
    }
}

/// Adds lines to the buffer, each with the byte that ends it.
pub fn put_rows<L: Rows, W: Write>(
    writer: &mut W,
    buffer: &mut Vec<u8>,
    end: u8,
    rows: &L,
) -> Result<(), NotWritten>
    ensures ok { OnOk result (AppendsUpTo (W.contents writer.old) (W.contents writer.new)
        buffer.new.items
        (buffer.old.items ++ lines_output (whole_line end) (L.lines rows.now))) }
    ensures err { OnErr result (AppendsProperBeginning (W.contents writer.old)
        (W.contents writer.new)
        (buffer.old.items ++ lines_output (whole_line end) (L.lines rows.now))) }
{
    for place in 0..rows.count() {
        put_line(writer, buffer, end, b"", rows.row(place))?;
    }
    Ok(())
}
