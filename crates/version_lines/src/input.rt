//! Reading the whole input.
ghost use Rattle.std.specs.Prelude.{◌≡◌, ℕ, Bool, true, List, Option, vec_len, IfErr, IfOk, OnErr, OnOk};
ghost use Rattle.std.specs.{Io.ReadsAtMost, Io.KnownBytes.Consumes, Io.KnownBytes.IsAtEnd, Io.KnownBytes.ReadConsumes};

use std::alloc::{AllocError, Global};
use std::io::Read;

/// Why an input could not be read, or a file written.
#[derive(Clone, Copy, Debug, PartialEq, Eq)]
pub enum Trouble {
    /// An allocation failed.
    Memory,
    /// The system refused.
    System,
}

impl From<AllocError> for Trouble {
    ghost use Rattle.version_lines.specs.declared.input.Trouble.TheVariants.{Memory};

    ghost from_gives = { λ _ trouble. trouble ≡ Memory };

    fn from(_refused: AllocError) -> Trouble {
        Trouble::Memory
    }
}

/// What an input is read from.
pub trait Source {
    // The bytes that it will give from here on, where they are known.
    ghost remaining: { Self → Option (List ℕ) };

    // Whether the system may refuse to read it.
    ghost may_fail: { Self → Bool };

    /// Reads bytes into a piece, and returns how many: none at the end, or if the piece has no room.
    fn read_piece(&mut self, piece: &mut [u8]) -> Result<usize, Trouble>
        ensures bound { ReadsAtMost result piece.new }
        ensures bytes { ReadConsumes (remaining self.old) (remaining self.new) result piece.new }
        ensures failed { OnErr result (may_fail self.old ≡ true) }
        ensures stays { may_fail self.new ≡ may_fail self.old };
}

impl<R: Read> Source for R {
    ghost use Rattle.std.specs.Prelude.{true};

    ghost remaining = { λ reader. R.remaining reader };

    ghost may_fail = { λ _. true };

    #[inline(always)]
    fn read_piece(&mut self, piece: &mut [u8]) -> Result<usize, Trouble> {
        match self.read(piece) {
            Ok(given) => Ok(given),
            Err(_) => Err(Trouble::System),
        }
    }
}

// How many bytes one call of `read_piece` may return.
const PIECE: usize = 64 * 1024;

// Returns `count` zero bytes.
fn zeros(alloc: Global, count: usize) -> Result<Vec<u8>, AllocError>
    ensures { IfOk result (λ zeros. vec_len zeros ≡ count) }
{
    vec![in alloc; 0; count]
}

/// Reads to the end of the reader. It stops at the first call of `read` that fails, interrupted calls included.
pub fn read_all<R: Source>(alloc: Global, reader: &mut R) -> Result<Vec<u8>, Trouble>
    ensures bytes { IfOk result (λ input.
        Consumes (R.remaining reader.old) (R.remaining reader.new) input.items) }
    ensures end { OnOk result (IsAtEnd (R.remaining reader.new)) }
    ensures failed { IfErr result (λ trouble. trouble ≡ Trouble.System → R.may_fail reader.old ≡ true) }
    ensures stays { R.may_fail reader.new ≡ R.may_fail reader.old }
{
    let mut input = Vec::new(alloc);
    let mut piece = zeros(alloc, PIECE)?;
    for _ in 0..u64::MAX {
        let given = reader.read_piece(piece.as_mut_slice())?;
        if given == 0 {
            return Ok(input);
        }
        input.extend_from_slice(&piece[..given])?;
    }
    // Each piece had a byte, and no memory holds so many.
    Err(Trouble::Memory)
}
