//! Why words mean no task.

use std::alloc::AllocError;

/// Why words mean no task.
#[derive(Debug, PartialEq, Eq, Drop)]
pub enum WordsFault {
    /// They are not a command. What was meant, and how the command is used.
    Usage(String),
    /// An allocation failed.
    Memory,
}

impl From<AllocError> for WordsFault {
    ghost use Rattle.std.specs.Prelude.{◌≡◌};
    ghost use Rattle.version_usage.specs.declared.faults.WordsFault.TheVariants.{Memory};

    ghost from_gives = { λ _ fault. fault ≡ Memory };

    fn from(_refused: AllocError) -> WordsFault {
        WordsFault::Memory
    }
}
