//! That a log which is written anew records what the node keeps.
ghost use Rattle.recoveries.specs.RewrittenLaws.{HandlingKeepsOwn, NewNodesHaveOwn, RecoveringKeepsOwn};
ghost use Rattle.recoveries.specs.RewrittenLaws.{RewrittenLogsRecord, StartsKeepOwn};

/// A law: if letters can lead back to all objects of a node, the records of `rewritten_records` record what it keeps.
/// So whatever comes of them, as a new node carries them out again, is a copy of the node.
pub fn rewritten_logs_record()
    ensures { RewrittenLogsRecord }
{}

/// A law: all objects of a new node are its own.
pub fn new_nodes_have_own()
    ensures { NewNodesHaveOwn }
{}

/// A law: all objects of a node stay its own, whatever it does with letters that have come and have lawful layouts.
pub fn handling_keeps_own()
    ensures { HandlingKeepsOwn }
{}

/// A law: all objects of a node stay its own, where it carries out again what a log records.
pub fn recovering_keeps_own()
    ensures { RecoveringKeepsOwn }
{}

/// A law: all objects of a node stay its own, where nothing happens to them, or an epoch begins.
pub fn starts_keep_own()
    ensures { StartsKeepOwn }
{}
