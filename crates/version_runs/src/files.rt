//! The files of a run, and what it tells while it works.

ghost use Rattle.std.specs.Prelude.{◌≡◌, ⊤, ℕ, Bool, List, Option, None, Some, IfErr, IfOk, OnOk};
ghost use Rattle.version_runs.specs.declared.files.Hint.{Hint as Told};

use std::alloc::Global;
use version_answers::Remark;
use version_lines::Trouble;

/// How far a run is.
#[derive(Clone, Copy, Debug)]
pub enum Stage {
    /// So many bytes were read.
    Read(usize),
    /// So many lines have a version and are not left out.
    Kept(usize),
    /// So many lines stand in order.
    Ordered(usize),
}

/// What a run tells beside: it may not have done what was meant.
#[derive(Clone, Copy, Debug)]
pub enum Hint<'w> {
    /// This word is no version, and was left out.
    NotVersion(&'w str, Option<Remark>),
    /// This word of `filter` looks like a version, and there is no file of that name.
    NoFile(&'w str),
    /// A version begins with a `v` and a digit and was taken as a whole, and with `--tags` the answer would be another.
    Tags,
    /// Bytes between columns are named and no column is asked for, so that each line is its version.
    WholeLines,
    /// In the list of this name so many lines have the name of an earlier line, which counts in their place.
    Repeated(&'w str, usize),
    /// The input has lines, and none was kept.
    NothingKept {
        /// Whether the first of them ends in a carriage return that was taken for a part of it.
        has_returns: bool,
    },
}

/// The files that a run may read and write by their names.
pub trait Files {
    // Reading the file of this name may give these bytes, or none and fail.
    ghost reads: { Self → List ℕ → Option (List ℕ) → Type 0 };

    // Asking whether the file of this name is there may give this answer.
    ghost finds: { Self → List ℕ → Bool → Type 0 };

    // Between the two states the bytes were written to the file of this name, in place of what it held.
    ghost puts: { Self → Self → List ℕ → List ℕ → Type 0 };

    // Writing the file of this name may fail.
    ghost refuses: { Self → List ℕ → Type 0 };

    // Between the two states at most the file of this name changed.
    ghost alters: { Self → Self → List ℕ → Type 0 };

    // The hints that may be told: those that are so, as who calls a task says of it.
    ghost may_hint: { Told → Type 0 } = { λ _. ⊤ };

    /// Returns what the file holds.
    fn read(&self, alloc: Global, name: &str) -> Result<Vec<u8>, Trouble>
        ensures text { IfOk result (λ text. reads self.now name.now (Some text.items)) }
        ensures failed { IfErr result
            (λ trouble. trouble ≡ Trouble.System → reads self.now name.now None) };

    /// Writes the bytes to the file, in place of what it holds. After an error, it may hold anything.
    fn put(&mut self, name: &str, bytes: &[u8]) -> Result<(), Trouble>
        ensures put { OnOk result (puts self.old self.new name.now bytes.now) }
        ensures failed { IfErr result
            (λ trouble. trouble ≡ Trouble.System → refuses self.old name.now) }
        ensures others { alters self.old self.new name.now };

    /// Returns whether the file of this name is there.
    fn has(&self, name: &str) -> bool
        ensures { finds self.now name.now result };

    /// Tells how far the run is. Only `--progress` asks for it.
    fn tell(&self, stage: Stage);

    /// Tells what may not have been meant.
    fn hint(&self, hint: Hint<'_>)
        requires { may_hint hint };
}

/// No files: none can be read or written.
#[derive(Clone, Copy)]
pub struct NoFiles;

impl Files for NoFiles {
    ghost use Rattle.std.specs.Prelude.{◌≡◌, ⊤, false, None};

    ghost reads = { λ _ _ text. text ≡ None };

    ghost finds = { λ _ _ there. there ≡ false };

    ghost puts = { λ _ _ _ _. ⊥ };

    ghost refuses = { λ _ _. ⊤ };

    ghost alters = { λ old new _. new ≡ old };

    fn read(&self, _alloc: Global, _name: &str) -> Result<Vec<u8>, Trouble> {
        Err(Trouble::System)
    }

    fn put(&mut self, _name: &str, _bytes: &[u8]) -> Result<(), Trouble> {
        Err(Trouble::System)
    }

    fn has(&self, _name: &str) -> bool {
        false
    }

    fn tell(&self, _stage: Stage) {}

    fn hint(&self, _hint: Hint<'_>) {}
}
