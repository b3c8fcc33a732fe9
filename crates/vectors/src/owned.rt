//! Calls of values that own their fields.

use crate::answers::{Made, NOT_BEGUN, Written, front, lend, put, put_taken};
use crate::lists;
use crate::text::first_word;
use serde_json::{Category, Value};
use std::alloc::{AllocError, Global};
use version_parts::lists::{ListItem, copy_list};
use version_parts::scan::{Dotted, Element};
use version_parts::{BodyRef, LastRef, MessyChunk, Part, ReleaseChunk, ReleaseRef, SectionRef};
use versions::parsers::{alphanums, hyphenated_alphanums, meta, unsigned};
use versions::{
    Chunk, Chunks, Error, Last, MChunk, Mess, Range, Release, Requirement, Requirements, SemVer,
    Version, Versioning, VersioningRef,
};

// The answers of calls that read a text, or of other calls.
macro_rules! reads {
    ($alloc:ident, $call:ident, $text:ident, $output:ident; $($path:path),*; $other:ident) => {
        match $call {
            $(stringify!($path) => put($path($alloc, $text), $output),)*
            _ => $other($alloc, $call, $text, $output),
        }
    };
}

// The answers of calls that borrow a value of a text, or of other calls.
macro_rules! borrows {
    ($alloc:ident, $call:ident, $text:ident, $output:ident; $($path:path => $lent:expr),*; $other:ident) => {
        match $call {
            $(stringify!($path) => lend($alloc, $lent, $path, $output),)*
            _ => $other($alloc, $call, $text, $output),
        }
    };
}

/// Writes the answer of a call.
pub fn answer(alloc: Global, call: &str, text: &str, output: &mut String) -> Written {
    reads!(alloc, call, text, output; meta, Chunk::parse, Chunk::parse_without_hyphens, Chunks::parse,
        Release::parse, MChunk::parse; read_strict)
}

fn read_strict(alloc: Global, call: &str, text: &str, output: &mut String) -> Written {
    reads!(alloc, call, text, output; SemVer::new, SemVer::parse, SemVer::from_str, Version::new,
        Version::parse, Version::from_str; read_messy)
}

fn read_messy(alloc: Global, call: &str, text: &str, output: &mut String) -> Written {
    reads!(alloc, call, text, output; Mess::new, Mess::parse, Mess::from_str, Versioning::new,
        Versioning::parse, Versioning::from_str; read_requirement)
}

fn read_requirement(alloc: Global, call: &str, text: &str, output: &mut String) -> Written {
    reads!(alloc, call, text, output; Requirement::new, Requirement::parse, Requirement::from_str,
        Requirements::new, Requirements::from_str; build)
}

// The calls that build a value of what is scanned at the front of a text.
fn build(alloc: Global, call: &str, text: &str, output: &mut String) -> Written {
    macro_rules! built {
        ($scanned:expr) => {
            match $scanned {
                Some((it, _)) => put(it.build(alloc), output),
                None => output.push_str("None"),
            }
        };
    }
    match call {
        "LastRef::build" => built!(LastRef::scan(text)),
        "ReleaseRef::build" => built!(ReleaseRef::scan(text)),
        "BodyRef::build" => built!(BodyRef::scan(text)),
        "SectionRef::build" => built!(SectionRef::scan(text)),
        "Dotted::build" => match Dotted::scan::<MessyChunk>(text) {
            Some((list, _)) => put(list.build::<MessyChunk>(alloc, list.count), output),
            None => output.push_str("None"),
        },
        "Versioning::of" => match VersioningRef::new(text) {
            Some(version) => put(Versioning::of(alloc, &version), output),
            None => output.push_str("None"),
        },
        _ => make_of_nothing(alloc, call, text, output),
    }
}

// The calls that make a value of nothing, or of an element of a list.
fn make_of_nothing(alloc: Global, call: &str, text: &str, output: &mut String) -> Written {
    match call {
        "Chunks::default_in" => write!(output, "{:?}", Chunks::default_in(alloc)),
        "Version::default_in" => write!(output, "{:?}", Version::default_in(alloc)),
        "Mess::default_in" => write!(output, "{:?}", Mess::default_in(alloc)),
        "Range::everything" => write!(output, "{:?}", Range::everything(alloc)),
        "Element::read" => read_element(alloc, first_word(text), output),
        _ => borrow_part(alloc, call, text, output),
    }
}

fn read_element(alloc: Global, (of, text): (&str, &str), output: &mut String) -> Written {
    match of {
        "ReleaseChunk" => put(ReleaseChunk::read(alloc, text), output),
        "Part" => put(Part::read(alloc, text), output),
        _ => put(MessyChunk::read(alloc, text), output),
    }
}

fn borrow_part(alloc: Global, call: &str, text: &str, output: &mut String) -> Written {
    borrows!(alloc, call, text, output; Chunk::clone => front(Chunk::parse(alloc, text)),
        Chunks::clone => front(Chunks::parse(alloc, text)),
        Release::clone => front(Release::parse(alloc, text)),
        MChunk::clone => front(MChunk::parse(alloc, text)), Last::clone => last_part(alloc, text),
        Error::clone => error(alloc, text); borrow_version)
}

fn borrow_version(alloc: Global, call: &str, text: &str, output: &mut String) -> Written {
    borrows!(alloc, call, text, output; SemVer::clone => SemVer::new(alloc, text),
        SemVer::to_version => SemVer::new(alloc, text), SemVer::to_mess => SemVer::new(alloc, text),
        Version::clone => Version::new(alloc, text), Version::to_mess => Version::new(alloc, text),
        Mess::clone => Mess::new(alloc, text), Versioning::clone => Versioning::new(alloc, text);
        borrow_requirement)
}

fn borrow_requirement(alloc: Global, call: &str, text: &str, output: &mut String) -> Written {
    borrows!(alloc, call, text, output; Requirement::clone => Requirement::new(alloc, text),
        Requirement::range => Requirement::new(alloc, text),
        Requirements::clone => Requirements::new(alloc, text),
        Requirements::range => Requirements::new(alloc, text),
        Range::clone => range_of(alloc, text),
        Versioning::sort_key => Versioning::new(alloc, text); in_document)
}

fn in_document(alloc: Global, call: &str, text: &str, output: &mut String) -> Written {
    borrows!(alloc, call, text, output; Versioning::serialize_pretty => Versioning::new(alloc, text),
        Requirement::serialize => Requirement::new(alloc, text),
        Requirements::serialize => Requirements::new(alloc, text); of_document)
}

fn of_document(alloc: Global, call: &str, text: &str, output: &mut String) -> Written {
    macro_rules! read {
        ($path:path) => {
            lend(alloc, document(alloc, text), |value: &Value, alloc| $path(alloc, value), output)
        };
    }
    match call {
        "Versioning::deserialize_pretty" => read!(Versioning::deserialize_pretty),
        "Requirement::deserialize" => read!(Requirement::deserialize),
        "Requirements::deserialize" => read!(Requirements::deserialize),
        _ => of_parts(alloc, call, text, output),
    }
}

fn of_parts(alloc: Global, call: &str, text: &str, output: &mut String) -> Written {
    match call {
        "Last::from_chunk" => from_chunk(alloc, text, output),
        "copy_list" => lend(alloc, front(Chunks::parse(alloc, text)), copied, output),
        "ListItem::copy" => copy_item(alloc, first_word(text), output),
        _ => of_chunk(alloc, call, text, output),
    }
}

// The numbers of a chunk, and the calls that scan a text.
fn of_chunk(alloc: Global, call: &str, text: &str, output: &mut String) -> Written {
    macro_rules! number {
        ($method:ident) => {
            lend(
                alloc,
                front(Chunk::parse(alloc, text)),
                |chunk: &Chunk, _| Ok::<_, AllocError>(chunk.$method()),
                output,
            )
        };
    }
    match call {
        "Chunk::single_digit" => number!(single_digit),
        "Chunk::single_digit_lenient" => number!(single_digit_lenient),
        "Chunk::single_digit_lenient_post" => number!(single_digit_lenient_post),
        "unsigned" => write!(output, "{:?}", unsigned(text)),
        "alphanums" => write!(output, "{:?}", alphanums(text)),
        "hyphenated_alphanums" => write!(output, "{:?}", hyphenated_alphanums(text)),
        _ => lists::answer(alloc, call, text, output),
    }
}

// Writes a chunk, and the last part that is made of it, or the chunk again if memory is refused.
fn from_chunk(alloc: Global, text: &str, output: &mut String) -> Written {
    match front(Chunk::parse(alloc, text)) {
        Ok(Some(chunk)) => {
            let shown = write!(output, "{chunk:?}|");
            let last = Last::from_chunk(alloc, chunk);
            put_taken(shown, last, output)
        }
        _ => output.push_str(NOT_BEGUN),
    }
}

fn copy_item(alloc: Global, (of, text): (&str, &str), output: &mut String) -> Written {
    match of {
        "Chunk" => lend(alloc, front(Chunk::parse(alloc, text)), Chunk::copy, output),
        "Last" => lend(alloc, last_part(alloc, text), Last::copy, output),
        _ => lend(
            alloc,
            front(MChunk::parse(alloc, text)),
            MChunk::copy,
            output,
        ),
    }
}

fn copied(chunks: &Chunks, alloc: Global) -> Result<Vec<Chunk>, AllocError> {
    copy_list(alloc, chunks.0.as_slice())
}

fn last_part(alloc: Global, text: &str) -> Made<Last> {
    match LastRef::scan(text) {
        Some((last, _)) => Ok(Some(last.build(alloc)?)),
        None => Ok(None),
    }
}

// Returns the error of that number, with it as its text.
fn error(alloc: Global, number: &str) -> Made<Error> {
    let text = String::from_str(alloc, number)?;
    Ok(Some(match number {
        "1" => Error::IllegalSemver(text),
        "2" => Error::IllegalVersion(text),
        "3" => Error::IllegalMess(text),
        "4" => Error::IllegalVersioning(text),
        _ => Error::IllegalOp(text),
    }))
}

/// Returns the range of a list.
pub fn range_of(alloc: Global, list: &str) -> Made<Range> {
    match Requirements::new(alloc, list)? {
        Some(list) => Ok(Some(list.range(alloc)?)),
        None => Ok(None),
    }
}

fn document(alloc: Global, text: &str) -> Made<Value> {
    match Value::from_str(alloc, text) {
        Ok(value) => Ok(Some(value)),
        Err(error) if error.classify() == Category::Memory => Err(AllocError),
        Err(_) => Ok(None),
    }
}
