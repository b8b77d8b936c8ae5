ghost use Rattle.std.specs.Prelude.{◌≡◌, ◌↔◌, IfOk, IfErr, IsTrue};
ghost use Rattle.tag.specs.declared.refusal.Refusal.TheVariants.{NoMemory};

use piece::Piece;
use std::alloc::{AllocError, Global};
use std::marker::Model;
use tag::Refusal;

/// A piece on the heap, so that an answer without a piece takes little room.
#[derive(Debug)]
pub struct HeldPiece {
    piece: Box<Piece>,
}

impl Drop for HeldPiece {
    fn drop(self) {
        let Self { piece: _ } = self;
    }
}

impl Model for HeldPiece {
    ghost use Rattle.piece.specs.declared.piece.Piece.{Piece as Fragment};

    ghost Value = { Fragment };

    ghost view = { λ h. h.piece.value };
}

impl HeldPiece {
    /// Moves a piece to the heap. `NoMemory` is the only refusal.
    pub fn new(alloc: Global, piece: Piece) -> Result<HeldPiece, Refusal>
        ensures piece { IfOk result (λ h. h ≡ piece) }
        ensures refused { IfErr result (λ e. e ≡ NoMemory) }
    {
        match Box::new(alloc, piece) {
            Ok(piece) => Ok(HeldPiece { piece }),
            Err(_) => Err(Refusal::NoMemory),
        }
    }

    /// Returns the piece.
    pub fn piece(&self) -> &Piece
        ensures { result.now ≡ self.now }
    {
        &self.piece
    }
}

impl Clone for HeldPiece {
    ghost is_clone = { λ held copy. copy ≡ held };

    fn clone(&self) -> Result<HeldPiece, AllocError> {
        let piece = self.piece.as_ref().clone()?;
        Ok(HeldPiece {
            piece: Box::new(*Box::allocator(&self.piece), piece)?,
        })
    }
}

impl PartialEq for HeldPiece {
    ghost use Rattle.piece.specs.contracts.piece.PiecePartialEq.TheImpl.Laws as pieces;

    ghost eq = { ⟦<Piece as PartialEq>⟧.eq };

    ghost laws = { pieces.laws-law };

    fn eq(&self, other: &HeldPiece) -> bool {
        *self.piece == *other.piece
    }
}

impl Eq for HeldPiece {
    ghost use Rattle.piece.specs.contracts.piece.PieceEq.TheImpl.Laws as pieces;

    ghost laws = { pieces.laws-law };
}
