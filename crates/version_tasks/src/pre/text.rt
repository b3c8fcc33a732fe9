//! A pre-release that comes next after another version: three numbers, a word and a number.

ghost use Rattle.std.specs.Prelude.{◌≡◌, ◌++◌, Some};
ghost use Rattle.std.specs.Fmt.{decimal};
ghost use Rattle.version_rules.specs.grammar.Versioning.{Ideal, versioning_of};
ghost use Rattle.version_tasks.specs.NextPreText.{numbers_text, pre_text, pre_version, word_text};

use itoa::Buffer;
use std::{fmt, str};
use version_order::{Count, Room, Sink, put_all};

/// A pre-release that comes next after another version, which borrows its word. It writes its own text.
#[derive(Clone, Copy)]
pub struct NextPre<'a> {
    pub(crate) major: u32,
    pub(crate) minor: u32,
    pub(crate) patch: u32,
    // The chunks before the number, which may be none.
    pub(crate) word: &'a [u8],
    // The number at the end.
    pub(crate) number: u32,
    ghost read: { versioning_of (pre_text major minor patch word.now number)
        ≡ Some (Ideal (pre_version major minor patch word.now number)) },
}

impl<'a> NextPre<'a> {
    ghost use Rattle.std.specs.Prelude.{length};
    ghost use Rattle.version_rules.specs.grammar.Versioning.{versioning_text};
    ghost use Rattle.version_tasks.specs.NextPre.{plain_next_pre};
    ghost use Rattle.version_order.specs.keys.Sinks.{saturated, IsWritten};

    /// Returns how many bytes its text has.
    pub fn length(&self) -> usize
        ensures { result ≡ saturated (length (versioning_text (plain_next_pre self.now))) }
    {
        let mut sink = Count { length: 0 };
        self.put(&mut sink);
        sink.length()
    }

    /// Writes its text into a buffer, if it fits there, and returns how many bytes it has.
    pub fn write(&self, room: &mut [u8]) -> usize
        ensures bytes { IsWritten room.old 0 (versioning_text (plain_next_pre self.now)) room.new }
        ensures length { result ≡ saturated (length (versioning_text (plain_next_pre self.now))) }
    {
        let length = self.length();
        if length <= room.len() {
            self.put(&mut Room { room, end: 0 });
        }
        length
    }

    // Writes its text into a sink.
    fn put<S: Sink>(&self, sink: &mut S)
        requires { S.fits sink.old (versioning_text (plain_next_pre self.now)) }
        ensures { S.takes sink.old (versioning_text (plain_next_pre self.now)) sink.new }
    {
        put_numbers(sink, self.major, self.minor, self.patch);
        put_all(sink, b"-");
        put_word(sink, self.word);
        put_decimal(sink, self.number);
    }
}

// Writes three numbers with dots between.
fn put_numbers<S: Sink>(sink: &mut S, major: u32, minor: u32, patch: u32)
    requires { S.fits sink.old (numbers_text major minor patch) }
    ensures { S.takes sink.old (numbers_text major minor patch) sink.new }
{
    put_decimal(sink, major);
    put_all(sink, b".");
    put_decimal(sink, minor);
    put_all(sink, b".");
    put_decimal(sink, patch);
}

// Writes a word with a dot after it, or nothing if it is empty.
fn put_word<S: Sink>(sink: &mut S, word: &[u8])
    requires { S.fits sink.old (word_text word.now) }
    ensures { S.takes sink.old (word_text word.now) sink.new }
{
    put_all(sink, word);
    put_all(sink, dot_after(word).as_bytes());
}

// The dot after a word, unless the word is empty.
fn dot_after(word: &[u8]) -> &'static str
    ensures { word.now ++ result.now ≡ word_text word.now }
{
    if word.is_empty() { "" } else { "." }
}

// Writes a number in decimal.
fn put_decimal<S: Sink>(sink: &mut S, number: u32)
    requires { S.fits sink.old (decimal number) }
    ensures { S.takes sink.old (decimal number) sink.new }
{
    let mut buffer = Buffer::new();
    put_all(sink, buffer.format(number).as_bytes());
}

/// Writes its text.
impl<'a> fmt::Display for NextPre<'a> {
    ghost use Rattle.version_rules.specs.grammar.Versioning.{versioning_text};
    ghost use Rattle.version_tasks.specs.NextPre.{plain_next_pre};

    ghost output = { λ next. Some (versioning_text (plain_next_pre next)) };

    fn fmt<W: fmt::Write>(&self, f: &mut fmt::Formatter<W>) -> fmt::Result {
        let word = str::from_utf8(self.word).unwrap();
        let dot = dot_after(self.word);
        write!(
            f,
            "{}.{}.{}-{word}{dot}{}",
            self.major, self.minor, self.patch, self.number
        )
    }
}
