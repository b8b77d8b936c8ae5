//! That no two open calls of one object have the same id, nor two moves of a log.
ghost use Rattle.recoveries.specs.LoggedIds.{LoggedIdsDiffer};
ghost use Rattle.recoveries.specs.OwnCalls.{HandlingKeepsOwnCalls, NewNodesHaveOwnCalls, RestartingKeepsOwnCalls};

/// A law: the open calls of a new node have ids that it gave, and no two of one object the same, since none is open.
pub fn new_nodes_have_own_calls()
    ensures { NewNodesHaveOwnCalls }
{}

/// A law: this stays so, whatever the node handles.
pub fn handling_keeps_own_calls()
    ensures { HandlingKeepsOwnCalls }
{}

/// A law: it stays so if the node stops and starts again.
pub fn restarting_keeps_own_calls()
    ensures { RestartingKeepsOwnCalls }
{}

/// A law: no two moves of the records that a node logs have the same id, and none has one that the node gave before.
pub fn logged_ids_differ()
    ensures { LoggedIdsDiffer }
{}
