//! What a message adds to a text that has no version: why, and where it points at that, or the option that finds one.
ghost use Rattle.std.specs.Prelude.{◌≡◌, ◌≤◌, length, Some};
ghost use Rattle.std.specs.{Fmt.DisplaysOnOk, List.list_all};
ghost use Rattle.std.proofs.Math.ListN.{replicate};
ghost use Rattle.version_answers.specs.Message.{begins_plain, digit_place, is_plain, no_version_text, others_text, pointed_place, pointer_line, prefix_length, remark_on_none, IsFlawOfRest, IsRemark};

use crate::message::quote::{SHOWN, Shown};
use crate::message::schemes::SchemeNames;
use crate::spelling::{Naming, Spelling};
use std::fmt;
use version_schemes::{AnyVersion, Flaw, Reason, Scheme};

/// What a message adds to a text that has no version.
#[derive(Clone, Copy, Debug, PartialEq, Eq)]
pub enum Remark {
    /// Why it is none.
    Flaw {
        reason: Reason,
        /// How many characters stand before what is wrong, where all of them are shown as they are.
        pointed: Option<usize>,
    },
    /// The version of the tag would be found behind a prefix of so many bytes.
    Prefix(usize),
    /// The line has no column where its version should stand.
    NoColumn,
    /// The column of the line names no scheme.
    NoScheme,
}

impl Spelling<'_> {
    /// Returns what a message adds to a text that spells no version.
    pub fn remark(&self, text: &[u8]) -> Option<Remark>
        ensures { IsRemark self.now text.now result }
    {
        match self.naming.found(text) {
            Some(rest) => flaw_of_rest(self.scheme, text, rest),
            None => remark_on_none(&self.naming, self.scheme, text),
        }
    }
}

// Returns what is added to a text whose rest should be a version of a scheme.
fn flaw_of_rest(scheme: Scheme, text: &[u8], rest: &[u8]) -> Option<Remark>
    ensures { IsFlawOfRest scheme text.now rest.now result }
{
    let flaw = Flaw::of(scheme, rest)?;
    let before = text.len().saturating_sub(rest.len());
    Some(Remark::Flaw {
        reason: flaw.reason,
        pointed: pointed_place(text, before.saturating_add(flaw.place)),
    })
}

// Returns what is added to a text in which no version begins.
fn remark_on_none(naming: &Naming<'_>, scheme: Scheme, text: &[u8]) -> Option<Remark>
    ensures { result ≡ remark_on_none naming.now scheme text.now }
{
    match naming {
        Naming::Tag => Some(Remark::Prefix(prefix_length(scheme, text)?)),
        Naming::Bare | Naming::Prefix(_) => None,
    }
}

// Returns how long the prefix of a tag is, if its digits begin a version.
fn prefix_length(scheme: Scheme, tag: &[u8]) -> Option<usize>
    ensures { result ≡ prefix_length scheme tag.now }
{
    let place = digit_place(tag);
    if begins_plain(tag, place) && AnyVersion::read(scheme, &tag[place..]).is_some() {
        Some(place)
    } else {
        None
    }
}

// Returns how many bytes stand before the first digit of a text.
fn digit_place(text: &[u8]) -> usize
    ensures place { result ≡ digit_place text.now }
    ensures within { result ≤ length text.now }
{
    let mut place = 0;
    while place < text.len() && !text[place].is_ascii_digit() {
        place += 1;
    }
    place
}

// Returns the place of a text that is pointed at, where all before it is shown as it is.
fn pointed_place(text: &[u8], place: usize) -> Option<usize>
    ensures { result ≡ pointed_place text.now place }
{
    if begins_plain(text, place) {
        Some(place)
    } else {
        None
    }
}

// Whether a message shows so many bytes at the beginning of a text as they are.
fn begins_plain(text: &[u8], count: usize) -> bool
    ensures { result ≡ begins_plain text.now count }
{
    count <= SHOWN && are_plain(text.get(..count).unwrap_or(text))
}

// Whether a message shows each byte of a text as it is.
fn are_plain(text: &[u8]) -> bool
    ensures { result ≡ list_all is_plain text.now }
{
    text.iter().all(|byte| is_plain(*byte))
}

// Whether a message shows a byte as it is.
fn is_plain(byte: u8) -> bool
    ensures { result ≡ is_plain byte }
{
    matches!(byte, b' '..=b'~')
}

/// What a message says of a text that has no version, and of how many more.
#[derive(Clone, Copy)]
pub struct NoVersion<'a> {
    pub text: &'a str,
    pub remark: Option<Remark>,
    pub more: usize,
}

impl fmt::Display for NoVersion<'_> {
    ghost output = { λ text. Some (no_version_text text.remark text.text.now (others_text text.more)) };

    fn fmt<W: fmt::Write>(&self, f: &mut fmt::Formatter<W>) -> fmt::Result {
        let text = self.text.as_bytes();
        let (shown, others) = (Shown { text }, Others { more: self.more });
        match self.remark {
            None => write!(f, "{shown}{others}"),
            Some(Remark::Prefix(count)) => {
                let prefix = Shown {
                    text: text.get(..count).unwrap_or(text),
                };
                write!(f, "{shown}: --prefix {prefix}{others}")
            }
            Some(Remark::NoColumn) => write!(f, "{shown}: no such column{others}"),
            Some(Remark::NoScheme) => {
                let names = SchemeNames;
                write!(f, "{shown}: no scheme is named, of {names}{others}")
            }
            Some(Remark::Flaw { reason, pointed }) => {
                let (why, pointer) = (reason.text(), Pointer { place: pointed });
                write!(f, "{why}{others}\n  {shown}{pointer}")
            }
        }
    }
}

/// How many other lines have no version.
#[derive(Clone, Copy)]
pub struct Others {
    pub more: usize,
}

impl fmt::Display for Others {
    ghost output = { λ others. Some (others_text others.more) };

    fn fmt<W: fmt::Write>(&self, f: &mut fmt::Formatter<W>) -> fmt::Result {
        match self.more {
            0 => Ok(()),
            more => write!(f, " (and {more} more)"),
        }
    }
}

// The line that points at a place of the text above it.
#[derive(Clone, Copy)]
struct Pointer {
    place: Option<usize>,
}

impl fmt::Display for Pointer {
    ghost output = { λ pointer. Some (pointer_line pointer.place) };

    fn fmt<W: fmt::Write>(&self, f: &mut fmt::Formatter<W>) -> fmt::Result {
        match self.place {
            Some(place) => {
                write!(f, "\n  ")?;
                write_blanks(f, place)?;
                write!(f, "^")
            }
            None => Ok(()),
        }
    }
}

// Writes so many blanks.
fn write_blanks<W: fmt::Write>(f: &mut fmt::Formatter<W>, count: usize) -> fmt::Result
    ensures { DisplaysOnOk W.write_str_gives f.old result (Some (replicate count 32)) f.new }
{
    for _blank in 0..count {
        f.write_char(' ')?;
    }
    Ok(())
}
