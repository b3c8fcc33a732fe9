//! What is checked of a text and isn't timed. A wrong result is an error.

use super::calls::{hash_of, on_owned};
use super::watch::Watch;
use std::fmt::{self, Write};
use std::io;
use std::io::ErrorKind;
use version_texts::VersioningRef;
use versions::key::compare_bytes;
use versions::{Kind, Mess, Requirements, Versioning};

/// Checks the kind of a version, what it is converted to, what `Debug` writes where its sections are ones, and the
/// versions of longer texts.
pub fn check_version(rt: &HostRuntime, text: &str, kind: Kind) -> io::Result<()> {
    let version = Versioning::new(rt.alloc(), text)?.ok_or(ErrorKind::InvalidInput)?;
    holds(version.kind() == kind)?;
    let messy = match &version {
        Versioning::Ideal(ideal) => {
            let general = ideal.to_version(rt.alloc())?;
            holds(general.to_string(rt.alloc())?.as_str() == text)?;
            ideal.to_mess(rt.alloc())?
        }
        Versioning::General(general) => general.to_mess(rt.alloc())?,
        Versioning::Complex(mess) => mess.clone(rt.alloc())?,
    };
    on_owned(rt, &mut Watch::new(rt), &Versioning::Complex(messy), text)?;
    if text.starts_with("1_") {
        check_debug(rt, &version, text)?;
    }
    check_ends(rt, text)
}

/// Checks that the first member of a list decides, and the last, where all others match a version.
pub fn check_list(rt: &HostRuntime, text: &str, front: &str, end: &str) -> io::Result<()> {
    let version = format!(in rt.alloc(); "{front}{end}")?;
    let version = Versioning::new(rt.alloc(), version.as_str())?.ok_or(ErrorKind::InvalidInput)?;
    for (before, behind, matches) in [("", "", true), ("<0,", "", false), ("", ",<0", false)] {
        let text = format!(in rt.alloc(); "{before}{text}{behind}")?;
        check_members(rt, text.as_str(), &version, matches)?;
    }
    let open = format!(in rt.alloc(); "{text},")?;
    holds(Requirements::new(rt.alloc(), open.as_str())?.is_none())
}

fn check_members(
    rt: &HostRuntime,
    text: &str,
    version: &Versioning,
    matches: bool,
) -> io::Result<()> {
    let list = Requirements::new(rt.alloc(), text)?.ok_or(ErrorKind::InvalidData)?;
    let printed = list.to_string(rt.alloc())?;
    let copy = list.clone(rt.alloc())?;
    holds(
        list.0.len() == text.split(',').count()
            && printed.as_str() == text
            && copy == list
            && list.matches(version) == matches,
    )
}

// `Debug` nests each section in the one before it. Pretty, it goes on for far longer than the writer takes.
fn check_debug(rt: &HostRuntime, version: &Versioning, text: &str) -> io::Result<()> {
    let mut wanted = String::from_str(rt.alloc(), "Complex(")?;
    for _ in text.split('_').skip(1) {
        wanted.push_str("Mess { chunks: [Digits(1, \"1\")], next: Some((Underscore, ")?;
    }
    wanted.push_str("Mess { chunks: [Digits(1, \"1\")], next: None }")?;
    for _ in text.split('_').skip(1) {
        wanted.push_str(")) }")?;
    }
    wanted.push_str(")")?;
    holds(format!(in rt.alloc(); "{version:?}")? == wanted)?;
    let mut page = Page {
        room: text.len().saturating_mul(5),
    };
    holds(write!(page, "{version:#?}").is_err() && page.room == 0)
}

// A digit more at the end decides, and what is no version ends there.
fn check_ends(rt: &HostRuntime, text: &str) -> io::Result<()> {
    let mut longer = format!(in rt.alloc(); "{text}1")?;
    let lower = Versioning::new(rt.alloc(), longer.as_str())?.ok_or(ErrorKind::InvalidData)?;
    longer.pop();
    longer.push_str("2!")?;
    holds(Versioning::new(rt.alloc(), longer.as_str())?.is_none())?;
    holds(VersioningRef::new(longer.as_str()).is_none())?;
    let (upper, rest) = Mess::parse(rt.alloc(), longer.as_str())?.ok_or(ErrorKind::InvalidData)?;
    holds(rest == "!")?;
    is_below(rt, &lower, &Versioning::Complex(upper))
}

fn is_below(rt: &HostRuntime, lower: &Versioning, upper: &Versioning) -> io::Result<()> {
    holds(lower.precedence(upper).is_lt() && lower.cmp(upper).is_lt() && lower != upper)?;
    holds(hash_of(lower) != hash_of(upper))?;
    holds(compare_bytes(&mut lower.key_bytes(), &mut upper.key_bytes()).is_lt())?;
    holds(lower.sort_key(rt.alloc())? < upper.sort_key(rt.alloc())?)
}

/// Fails where a result is wrong.
pub fn holds(right: bool) -> io::Result<()> {
    if right {
        return Ok(());
    }
    Err(ErrorKind::InvalidData.into())
}

// A writer for so many more bytes, which fails after them.
#[derive(Drop)]
struct Page {
    room: usize,
}

impl fmt::Write for Page {
    fn write_str(&mut self, s: &str) -> fmt::Result {
        let fits = s.len() <= self.room;
        self.room = self.room.saturating_sub(s.len());
        if fits { Ok(()) } else { Err(fmt::Error) }
    }
}
