//! A version that comes next after another: pieces of that one's text, and numbers.

ghost use Rattle.std.specs.Prelude.{◌≡◌, Some};
ghost use Rattle.version_rules.specs.grammar.Versioning.{versioning_of};
ghost use Rattle.version_tasks.specs.NextText.{next_text, zeros_text};
ghost use Rattle.version_texts.specs.VersioningRef.{version_in};

use itoa::Buffer;
use std::{fmt, str};
use version_order::{Count, Room, Sink, put_all};

/// A version that comes next after another, which borrows from the text of that one. It writes its own text.
#[derive(Clone, Copy)]
pub struct Next<'a> {
    // The epoch with its colon.
    pub(crate) epoch: &'a [u8],
    // The parts before the place, each with a dot after it.
    pub(crate) front: &'a [u8],
    // The number at the place.
    pub(crate) number: u32,
    // How many zeros follow the place.
    pub(crate) zeros: usize,
    ghost read: { versioning_of (next_text epoch.now front.now number zeros)
        ≡ Some (version_in (next_text epoch.now front.now number zeros)) },
}

impl<'a> Next<'a> {
    ghost use Rattle.std.specs.Prelude.{length};
    ghost use Rattle.version_rules.specs.grammar.Versioning.{versioning_text};
    ghost use Rattle.version_tasks.specs.Next.{plain_next};
    ghost use Rattle.version_order.specs.keys.Sinks.{saturated, IsWritten};

    /// Returns how many bytes its text has.
    pub fn length(&self) -> usize
        ensures { result ≡ saturated (length (versioning_text (plain_next self.now))) }
    {
        let mut sink = Count { length: 0 };
        self.put(&mut sink);
        sink.length()
    }

    /// Writes its text into a buffer, if it fits there, and returns how many bytes it has.
    pub fn write(&self, room: &mut [u8]) -> usize
        ensures bytes { IsWritten room.old 0 (versioning_text (plain_next self.now)) room.new }
        ensures length { result ≡ saturated (length (versioning_text (plain_next self.now))) }
    {
        let length = self.length();
        if length <= room.len() {
            self.put(&mut Room { room, end: 0 });
        }
        length
    }

    // Writes its text into a sink.
    fn put<S: Sink>(&self, sink: &mut S)
        requires { S.fits sink.old (versioning_text (plain_next self.now)) }
        ensures { S.takes sink.old (versioning_text (plain_next self.now)) sink.new }
    {
        let mut buffer = Buffer::new();
        put_all(sink, self.epoch);
        put_all(sink, self.front);
        put_all(sink, buffer.format(self.number).as_bytes());
        put_zeros(sink, self.zeros);
    }
}

// Writes zeros, each after a dot.
fn put_zeros<S: Sink>(sink: &mut S, zeros: usize)
    requires { S.fits sink.old (zeros_text zeros) }
    ensures { S.takes sink.old (zeros_text zeros) sink.new }
{
    for _ in 0..zeros {
        put_all(sink, b".0");
    }
}

/// Writes its text.
impl<'a> fmt::Display for Next<'a> {
    ghost use Rattle.version_rules.specs.grammar.Versioning.{versioning_text};
    ghost use Rattle.version_tasks.specs.Next.{plain_next};

    ghost output = { λ next. Some (versioning_text (plain_next next)) };

    fn fmt<W: fmt::Write>(&self, f: &mut fmt::Formatter<W>) -> fmt::Result {
        let epoch = str::from_utf8(self.epoch).unwrap();
        let front = str::from_utf8(self.front).unwrap();
        write!(f, "{epoch}{front}{}", self.number)?;
        for _ in 0..self.zeros {
            write!(f, ".0")?;
        }
        Ok(())
    }
}
