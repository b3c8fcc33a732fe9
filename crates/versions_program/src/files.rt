//! The files of the system, as the program reads and writes them.

use std::alloc::Global;
use std::cell::Cell;
use std::fs;
use std::io::{self, Read, Write};
use version_answers::Shown;
use version_lines::{Trouble, read_all, write_whole};
use version_runs::{Files, Hint, Stage, TaskFault};

/// The files of the system, and why it refused one. What they hold is not known to any contract.
#[derive(Drop)]
pub struct SystemFiles<'r> {
    pub rt: &'r HostRuntime,
    /// The system's number for why it refused a file, if it did.
    pub refused: Cell<Option<i32>>,
}

/// A file that keeps why the system refuses to read or to write it.
#[derive(Drop)]
struct Watched<'c, T> {
    file: T,
    refused: &'c Cell<Option<i32>>,
}

impl<T: Read> Read for Watched<'_, T> {
    ghost remaining = { λ watched. T.remaining watched.file };

    fn read(&mut self, bytes: &mut [u8]) -> io::Result<usize> {
        let given = self.file.read(bytes);
        if let Err(error) = &given {
            self.refused.set(error.raw_os_error());
        }
        given
    }
}

impl<T: Write> Write for Watched<'_, T> {
    ghost contents = { λ watched. T.contents watched.file };

    fn write(&mut self, bytes: &[u8]) -> io::Result<usize> {
        let written = self.file.write(bytes);
        if let Err(error) = &written {
            self.refused.set(error.raw_os_error());
        }
        written
    }

    fn flush(&mut self) -> io::Result<()> {
        self.file.flush()
    }
}

impl SystemFiles<'_> {
    // Watches a file that the system opens, or keeps why it refuses to.
    fn watched<T>(&self, opened: io::Result<T>) -> Result<Watched<'_, T>, Trouble> {
        match opened {
            Ok(file) => Ok(Watched {
                file,
                refused: &self.refused,
            }),
            Err(error) => {
                self.refused.set(error.raw_os_error());
                Err(Trouble::System)
            }
        }
    }
}

impl Files for SystemFiles<'_> {
    ghost use Rattle.std.specs.Prelude.{⊤};

    ghost reads = { λ _ _ _. ⊤ };

    ghost finds = { λ _ _ _. ⊤ };

    ghost puts = { λ _ _ _ _. ⊤ };

    ghost refuses = { λ _ _. ⊤ };

    ghost alters = { λ _ _ _. ⊤ };

    fn read(&self, alloc: Global, name: &str) -> Result<Vec<u8>, Trouble> {
        let mut file = self.watched(fs::File::open(self.rt, name))?;
        read_all(alloc, &mut file)
    }

    fn put(&mut self, name: &str, bytes: &[u8]) -> Result<(), Trouble> {
        let mut file = self.watched(fs::File::create(self.rt, name))?;
        match write_whole(&mut file, bytes) {
            Ok(()) => Ok(()),
            Err(_) => Err(Trouble::System),
        }
    }

    fn has(&self, name: &str) -> bool {
        fs::File::open(self.rt, name).is_ok()
    }

    fn tell(&self, stage: Stage) {
        let _ = match stage {
            Stage::Read(bytes) => eprintln!(self.rt; "versions: {bytes} bytes read"),
            Stage::Kept(lines) => eprintln!(self.rt; "versions: {lines} lines kept"),
            Stage::Ordered(lines) => eprintln!(self.rt; "versions: {lines} lines in order"),
        };
    }

    fn hint(&self, hint: Hint<'_>) {
        let _ = match hint {
            Hint::NotVersion(word, remark) => {
                let fault = TaskFault::NotVersion(word, remark);
                eprintln!(self.rt; "versions: {fault}")
            }
            Hint::NoFile(word) => {
                let shown = Shown {
                    text: word.as_bytes(),
                };
                eprintln!(self.rt; "versions: {shown} is a version: versions test {shown} SET")
            }
            Hint::Tags => eprintln!(self.rt;
                "versions: a version begins with v: with --tags the answer is another"
            ),
            Hint::WholeLines => eprintln!(self.rt;
                "versions: each line is taken for its version: -k names a column between -t"
            ),
            Hint::Repeated(name, count) => {
                let shown = Shown {
                    text: name.as_bytes(),
                };
                eprintln!(self.rt;
                    "versions: lines left out of {shown}, since an earlier one has their name: {count}"
                )
            }
            Hint::NothingKept { has_returns: false } => eprintln!(self.rt;
                "versions: no line was kept"
            ),
            Hint::NothingKept { has_returns: true } => {
                eprintln!(self.rt;
                    "versions: no line was kept: they end in carriage returns: --crlf"
                )
            }
        };
    }
}
