//! Texts that are written piece by piece.

ghost use Rattle.std.specs.Prelude.{◌≡◌, ◌++◌, OnOk};
ghost use Rattle.std.specs.List.{flat_map};

use std::alloc::AllocError;

/// Adds pieces of a text.
#[tactic(auto, using(crate::proofs::lemmas::One::one_more))]
pub(crate) fn add_pieces(output: &mut Vec<u8>, pieces: &[&[u8]]) -> Result<(), AllocError>
    ensures { OnOk result (output.new.items
        ≡ output.old.items ++ flat_map (λ piece. piece.now) pieces.now) }
{
    for piece in pieces {
        output.extend_from_slice(piece)?;
    }
    Ok(())
}
