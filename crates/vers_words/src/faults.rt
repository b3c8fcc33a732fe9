//! Why a run of `vers` fails.
ghost use Rattle.std.specs.Prelude.{Some};
ghost use Rattle.std.specs.Fmt.{DisplaysOnOk};
ghost use Rattle.vers_words.specs.Fault.{task_fault_text};

use std::alloc::AllocError;
use std::error::Error;
use std::fmt;

/// Why a run failed. It prints as the line that the program writes to standard error. Neither printing nor
/// [`Fault::status`] allocates.
#[derive(Debug, Drop)]
pub enum Fault<'w> {
    /// The words are not a command of the program.
    Usage,
    /// The task of the words failed.
    Task(version_runs::TaskFault<'w>),
}

impl Fault<'_> {
    ghost use Rattle.std.specs.Prelude.{◌≡◌};
    ghost use Rattle.vers_words.specs.Fault.{status_of};

    /// Returns the exit status: 1 for an input that is not a version or a requirement, 2 for wrong words, 3 for a
    /// failure of the system.
    pub fn status(&self) -> u8
        ensures { result ≡ status_of self.now }
    {
        match self {
            Fault::Usage => 2,
            Fault::Task(fault) => fault.status(),
        }
    }
}

impl fmt::Display for Fault<'_> {
    ghost use Rattle.std.specs.Prelude.{Some};
    ghost use Rattle.vers_words.specs.Fault.{fault_text};

    ghost output = { λ fault. Some (fault_text fault) };

    fn fmt<W: fmt::Write>(&self, f: &mut fmt::Formatter<W>) -> fmt::Result {
        match self {
            Fault::Usage => write!(f, "usage: vers ideal, show, sort, cmp A B, key V, match R"),
            Fault::Task(fault) => write_fault(f, fault),
        }
    }
}

// Writes the fault of a task. Words stand there whole, and nothing more of a line than its number.
fn write_fault<W: fmt::Write>(
    f: &mut fmt::Formatter<W>,
    fault: &version_runs::TaskFault<'_>,
) -> fmt::Result
    ensures { DisplaysOnOk W.write_str_gives f.old result (Some (task_fault_text fault.now)) f.new }
{
    match fault {
        version_runs::TaskFault::NotVersion(word, _) => write!(f, "not a version: {word}"),
        version_runs::TaskFault::NotRequirement(word) => write!(f, "not a requirement: {word}"),
        version_runs::TaskFault::BadLine(bad) => {
            let number = bad.number;
            write!(f, "line {number} is not a version")
        }
        version_runs::TaskFault::Read(_) => write!(f, "read failed"),
        fault => write!(f, "{fault}"),
    }
}

impl Error for Fault<'_> {}

impl<'w> From<version_runs::TaskFault<'w>> for Fault<'w> {
    ghost use Rattle.std.specs.Prelude.{◌≡◌};
    ghost use Rattle.vers_words.specs.declared.faults.Fault.TheVariants.{Task};

    ghost from_gives = { λ of fault. fault ≡ Task of };

    fn from(fault: version_runs::TaskFault<'w>) -> Fault<'w> {
        Fault::Task(fault)
    }
}

impl From<AllocError> for Fault<'_> {
    ghost use Rattle.std.specs.Prelude.{◌≡◌};
    ghost use Rattle.version_runs.specs.declared.faults.TaskFault.TheVariants.{Memory};
    ghost use Rattle.vers_words.specs.declared.faults.Fault.TheVariants.{Task};

    ghost from_gives = { λ _ fault. fault ≡ Task Memory };

    fn from(_refused: AllocError) -> Self {
        Fault::Task(version_runs::TaskFault::Memory)
    }
}
