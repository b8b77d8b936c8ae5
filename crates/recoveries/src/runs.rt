//! What a node gets back from its log when it starts again.
ghost use Rattle.recoveries.specs.Laws.{CopiesRestart, MoreIsRecorded, NewIsRecorded, RecoveredNodesRestart};
ghost use Rattle.recoveries.specs.Laws.{TwoAreLogged, TwoAreRecovered};

/// A law: records that are enough for one thing that a node does, and then records that are enough for the next, are
/// enough for both.
pub fn two_are_logged()
    ensures { TwoAreLogged }
{}

/// A law: carrying out two lists of records one after the other is carrying out the joined list.
pub fn two_are_recovered()
    ensures { TwoAreRecovered }
{}

/// A law: for a new node, the empty log is enough.
pub fn new_is_recorded()
    ensures { NewIsRecorded }
{}

/// A law: if a log is enough for what a node keeps, it still is after the node does something and adds the records of
/// that.
pub fn more_is_recorded()
    ensures { MoreIsRecorded }
{}

/// A law: if a copy of a node begins an epoch, the node has started again as `IsRestarted` says.
pub fn copies_restart()
    ensures { CopiesRestart }
{}

/// A law: a node that carries out all records of its log again, and then begins an epoch, has started again as
/// `IsRestarted` says, and its log is enough for what it keeps then.
pub fn recovered_nodes_restart()
    ensures { RecoveredNodesRestart }
{}
