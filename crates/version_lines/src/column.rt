//! The columns of a line.
ghost use Rattle.std.specs.Prelude.{◌≡◌, ◌==◌, ◌<◌, ◌≤◌, ◌+◌, [], ◌∷◌, drop, length, option_map, IfSome};
ghost use Rattle.std.specs.{List.prefix_len, List.slice_split, Option.option_map_or};
ghost use Rattle.memchr.specs.Find.{IsFirstByte};
ghost use Rattle.version_lines.specs.Column.{column_named, column_of, has_columns, is_among, is_blank_or_not, raw_columns, raw_text, words_of};
ghost use Rattle.version_lines.specs.Csv.{raw_fields};

use crate::csv::{FieldState, field_text, is_whole, length_before};
use memchr::{memchr, memchr2, memchr3};

/// What stands between the columns of a line.
#[derive(Clone, Copy, Debug)]
pub enum Separators<'s> {
    /// Runs of spaces and tabs. Those at the line's beginning are left out.
    Blanks,
    /// Each of these bytes, so a column may be empty.
    Bytes(&'s [u8]),
    /// This byte, where it stands in no quotes of CSV. The quotes around a column are no part of it, and two quotes in
    /// them stay two. A line has no column at all where one goes on after its quotes, or where quotes never close.
    Csv(u8),
}

/// A column of a line.
#[derive(Clone, Copy, Debug)]
pub struct Column<'s> {
    /// Its number, counted from 0.
    pub number: usize,
    pub separators: Separators<'s>,
}

impl Column<'_> {
    /// Returns the text of the column in a line, or None if the line has fewer columns. Does not allocate.
    pub fn of<'a>(&self, line: &'a [u8]) -> Option<&'a [u8]>
        ensures { option_map (λ text. text.now) result ≡ column_of self.now line.now }
    {
        if !self.has_columns(line) {
            return None;
        }
        let mut rest = line;
        for _ in 0..self.number {
            let (_, after) = self.cut(rest)?;
            rest = after?;
        }
        let (column, _) = self.cut(rest)?;
        Some(self.raw_text(column))
    }

    /// Returns the first column of a header whose text is this name, or None if it has none. The columns of a line are
    /// those of this column, whatever its number. Does not allocate.
    #[tactic(auto, using(crate::proofs::lemmas::Column::found_from_zero))]
    pub fn named(&self, name: &[u8], header: &[u8]) -> Option<Self>
        ensures { result ≡ column_named self.now name.now header.now }
    {
        if !self.has_columns(header) {
            return None;
        }
        let mut rest = header;
        let mut number = 0;
        loop {
            let (column, after) = self.cut(rest)?;
            if self.raw_text(column) == name {
                return Some(Column { number, ..*self });
            }
            rest = after?;
            number += 1;
        }
    }

    // Whether a line has columns.
    fn has_columns(&self, line: &[u8]) -> bool
        ensures { result ≡ has_columns self.now.separators line.now }
    {
        match self.separators {
            Separators::Blanks | Separators::Bytes(_) => true,
            Separators::Csv(separator) => is_whole(separator, line),
        }
    }

    // Returns the text of a column as it stands in its line.
    fn raw_text<'a>(&self, column: &'a [u8]) -> &'a [u8]
        ensures { result.now ≡ raw_text self.now.separators column.now }
    {
        match self.separators {
            Separators::Blanks | Separators::Bytes(_) => column,
            Separators::Csv(_) => field_text(column),
        }
    }

    // Cuts off the first column of a text. Returns it and what follows it, if anything does, or None if the text has no
    // column.
    #[inline(always)]
    fn cut<'a>(&self, text: &'a [u8]) -> Option<(&'a [u8], Option<&'a [u8]>)>
        ensures columns { raw_columns self.now.separators text.now
            ≡ option_map_or (λ cut. cut.0.now
            ∷ option_map_or (λ rest. raw_columns self.now.separators rest.now) cut.1 []) result [] }
        ensures shorter { IfSome result (λ cut. IfSome cut.1 (λ rest. length rest.now < length text.now)) }
    {
        match self.separators {
            Separators::Blanks => {
                let (word, after) = cut_word(text)?;
                Some((word, Some(after)))
            }
            Separators::Bytes(bytes) => Some(cut_piece(text, bytes)),
            Separators::Csv(separator) => Some(cut_field(text, separator)),
        }
    }
}

// Cuts a text at its first byte that is among these. Returns what stands before it, and what follows it, if there is one.
#[tactic(auto, using(crate::proofs::lemmas::Column::pieces_cut))]
fn cut_piece<'a>(text: &'a [u8], bytes: &[u8]) -> (&'a [u8], Option<&'a [u8]>)
    ensures pieces { slice_split (is_among bytes.now) text.now ≡ result.0.now
        ∷ option_map_or (λ rest. slice_split (is_among bytes.now) rest.now) result.1 [] }
    ensures shorter { IfSome result.1 (λ rest. length rest.now < length text.now) }
{
    match find_among(bytes, text) {
        Some(end) => (&text[..end], Some(&text[end + 1..])),
        None => (text, None),
    }
}

// Returns where the first byte of a text stands that is among these.
fn find_among(bytes: &[u8], text: &[u8]) -> Option<usize>
    ensures { IsFirstByte (is_among bytes.now) text.now result }
{
    match bytes {
        [one] => memchr(*one, text),
        [one, other] => memchr2(*one, *other, text),
        [one, other, third] => memchr3(*one, *other, *third, text),
        _ => find_of_many(bytes, text),
    }
}

// The same of more bytes, or of none.
fn find_of_many(bytes: &[u8], text: &[u8]) -> Option<usize>
    ensures { IsFirstByte (is_among bytes.now) text.now result }
{
    for (place, byte) in text.iter().enumerate() {
        if is_among(bytes, *byte) {
            return Some(place);
        }
    }
    None
}

// Whether a byte is one of these.
fn is_among(bytes: &[u8], byte: u8) -> bool
    ensures { result ≡ is_among bytes.now byte }
{
    bytes.iter().any(|b| byte == *b)
}

// Cuts a text at its first separator that stands in no quotes. Returns what stands before it, and what follows it, if
// there is one.
#[tactic(auto, using(crate::proofs::lemmas::Column::fields_cut))]
fn cut_field(text: &[u8], separator: u8) -> (&[u8], Option<&[u8]>)
    ensures fields { raw_fields separator FieldState.Start text.now ≡ result.0.now
        ∷ option_map_or (λ rest. raw_fields separator FieldState.Start rest.now) result.1 [] }
    ensures shorter { IfSome result.1 (λ rest. length rest.now < length text.now) }
{
    let end = length_before(separator, separator, text);
    if end < text.len() {
        (&text[..end], Some(&text[end + 1..]))
    } else {
        (text, None)
    }
}

// Returns the first piece between the runs of blanks of a text and what follows it, or None if the text is blank.
#[tactic(auto, using(crate::proofs::lemmas::Column::words_cut))]
fn cut_word(text: &[u8]) -> Option<(&[u8], &[u8])>
    ensures words { words_of text.now
        ≡ option_map_or (λ cut. cut.0.now ∷ words_of cut.1.now) result [] }
    ensures shorter { IfSome result (λ cut. length cut.1.now < length text.now) }
{
    let start = run_end(text, 0, true);
    if start == text.len() {
        return None;
    }
    let end = run_end(text, start, false);
    Some((&text[start..end], &text[end..]))
}

// Returns where the run of bytes from a place on ends that are blanks, or that are not.
fn run_end(text: &[u8], start: usize, blank: bool) -> usize
    requires { start ≤ length text.now }
    ensures end { result ≡ start + prefix_len (is_blank_or_not blank) (drop start text.now) }
    ensures within { result ≤ length text.now }
{
    let mut end = start;
    while end < text.len() && is_blank_or_not(text[end], blank) {
        end += 1;
    }
    end
}

// Whether a byte is a space or a tab, or whether it is neither.
fn is_blank_or_not(byte: u8, blank: bool) -> bool
    ensures { result ≡ is_blank_or_not blank byte }
{
    matches!(byte, b' ' | b'\t') == blank
}
