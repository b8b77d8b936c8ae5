//! How an object's start grows at a node.
ghost use Rattle.refinement.specs.Starting.{StartsGrow};

/// A law: if a call of a node has spread a final pointer at a start, and a quorum replied, then the next position is a
/// start.
pub fn starts_grow()
    ensures { StartsGrow }
{}
