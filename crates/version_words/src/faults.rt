//! Why a run fails.

use std::error::Error;
use std::fmt;
use version_runs::TaskFault;
use version_usage::faults::WordsFault;

/// Why a run failed. It prints as the program writes it to standard error.
#[derive(Debug, Drop)]
pub enum Fault<'w> {
    /// The words mean no task.
    Words(WordsFault),
    /// The task of the words failed.
    Task(TaskFault<'w>),
}

impl Fault<'_> {
    ghost use Rattle.std.specs.Prelude.{◌≡◌};
    ghost use Rattle.version_words.specs.Wrong.{status_of};

    /// Returns the exit status: 2 for words that are not a command, 3 where an allocation failed, and that of a task's
    /// fault.
    pub fn status(&self) -> u8
        ensures { result ≡ status_of self.now }
    {
        match self {
            Fault::Words(WordsFault::Usage(_)) => 2,
            Fault::Words(WordsFault::Memory) => 3,
            Fault::Task(fault) => fault.status(),
        }
    }
}

impl fmt::Display for Fault<'_> {
    ghost use Rattle.std.specs.Prelude.{Some};
    ghost use Rattle.version_words.specs.Wrong.{fault_text};

    ghost output = { λ fault. Some (fault_text fault) };

    fn fmt<W: fmt::Write>(&self, f: &mut fmt::Formatter<W>) -> fmt::Result {
        match self {
            Fault::Words(WordsFault::Usage(text)) => write!(f, "{text}"),
            Fault::Words(WordsFault::Memory) => write!(f, "no memory"),
            Fault::Task(fault) => write!(f, "{fault}"),
        }
    }
}

impl Error for Fault<'_> {}

impl From<WordsFault> for Fault<'_> {
    ghost use Rattle.std.specs.Prelude.{◌≡◌};
    ghost use Rattle.version_words.specs.declared.faults.Fault.TheVariants.{Words};

    ghost from_gives = { λ words fault. fault ≡ Words words };

    fn from(fault: WordsFault) -> Self {
        Fault::Words(fault)
    }
}

impl<'w> From<TaskFault<'w>> for Fault<'w> {
    ghost use Rattle.std.specs.Prelude.{◌≡◌};
    ghost use Rattle.version_words.specs.declared.faults.Fault.TheVariants.{Task};

    ghost from_gives = { λ of fault. fault ≡ Task of };

    fn from(fault: TaskFault<'w>) -> Fault<'w> {
        Fault::Task(fault)
    }
}
