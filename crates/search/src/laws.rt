//! What holds of every seating and every blocking group, as a theorem: the contract states it, and its function does nothing.

ghost use Rattle.search.specs.Carrying.{BlockRefutes};

/// A blocking group and a seating exclude each other.
#[tactic(auto, using(crate::proofs::Bridge::blocks_refute))]
pub fn block_refutes()
    ensures { BlockRefutes }
{}
