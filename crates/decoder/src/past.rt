//! Bad pieces, by the bytes that they would give past the value's end.
ghost use Rattle.std.specs.Prelude.{◌↔◌, ℕ, List};
ghost use Rattle.piece.specs.declared.piece.Piece.{Piece};
ghost use Rattle.decoder.specs.Padding.{AreBlocks, HasBytePast};
ghost use Rattle.decoder.specs.Pieces.{AreLawful, AreOfBytes, HaveNoValue};

/// A law: lawful pieces determine one list of k whole blocks, and no value has the pieces exactly if a byte past the
/// length in these blocks is not 0. So `decode` refuses lawful pieces with BadPieces exactly if there is such a byte.
pub fn bad_pieces_give_a_byte_past_the_length()
    ensures { (k len : ℕ) (pieces : List Piece) → AreLawful k len pieces → AreOfBytes pieces
        → (blocks : List ℕ) × AreBlocks k len pieces blocks
        × (HaveNoValue k len pieces ↔ HasBytePast len blocks) }
{}
