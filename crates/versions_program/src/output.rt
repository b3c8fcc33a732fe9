//! Standard output, and whether its reader has gone.

use std::io::{self, ErrorKind, Write};

/// A writer that knows whether a write failed because nobody reads any more.
#[derive(Drop)]
pub struct Output<W> {
    writer: W,
    has_no_reader: bool,
}

impl<W> Output<W> {
    /// Returns the writer, whose reader has not gone yet.
    pub fn new(writer: W) -> Output<W> {
        Output {
            writer,
            has_no_reader: false,
        }
    }

    /// Returns whether a write failed because nobody reads any more.
    pub fn has_no_reader(&self) -> bool {
        self.has_no_reader
    }
}

impl<W: Write> Write for Output<W> {
    ghost contents = { λ output. W.contents output.writer };

    fn write(&mut self, bytes: &[u8]) -> io::Result<usize> {
        let written = self.writer.write(bytes);
        if let Err(error) = &written {
            self.has_no_reader = error.kind() == ErrorKind::BrokenPipe;
        }
        written
    }

    fn flush(&mut self) -> io::Result<()> {
        self.writer.flush()
    }
}
