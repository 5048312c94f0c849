//! What holds of every board, as a theorem: the contract states it, and the function does nothing.

ghost use Rattle.matching.specs.Board.{BlockRefutes};

/// A blocking group and a seating exclude each other.
pub fn blocks_refute()
    ensures { BlockRefutes }
{}
