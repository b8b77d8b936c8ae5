//! What each run of a cluster of nodes promises.
ghost use Rattle.refinement.specs.ClusterLaws.{ClustersAreAtomic, ClustersHaveSystems, ClustersKeepValues};
ghost use Rattle.refinement.specs.ClusterLaws.{SeenHistoriesAreAtomic};

/// A law: whatever nodes do with all their objects, and however often they stop and start again, for each name they do
/// what nodes would do that keep that object alone.
pub fn clusters_have_systems()
    ensures { ClustersHaveSystems }
{}

/// A law: the history of each object, made of the calls that clients began and of the answers that they were told, is
/// atomic.
pub fn clusters_are_atomic()
    ensures { ClustersAreAtomic }
{}

/// A law: for each name there is an atomic history, which has each answer that a client was told, at its own call.
pub fn seen_histories_are_atomic()
    ensures { SeenHistoriesAreAtomic }
{}

/// A law: each piece that a node keeps, sends or tells is its member's fragment of its tag's value.
pub fn clusters_keep_values()
    ensures { ClustersKeepValues }
{}
