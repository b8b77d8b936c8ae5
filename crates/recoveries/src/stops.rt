//! A node that stops before it has done everything.
ghost use Rattle.recoveries.specs.Stops.{MoreIsSafe, OneRecordIsSafe, StoppedNodesRestart, TwoAreSafe};
ghost use Rattle.recoveries.specs.Stops.{UnloggedIsSafe};

/// A law: what needs no record is handled safely.
pub fn unlogged_is_safe()
    ensures { UnloggedIsSafe }
{}

/// A law: what needs one record is handled safely: the log has it, or nothing was done yet.
pub fn one_record_is_safe()
    ensures { OneRecordIsSafe }
{}

/// A law: two things that a node handles safely, one after the other, it handles safely together.
pub fn two_are_safe()
    ensures { TwoAreSafe }
{}

/// A law: a node need not use all letters that have come.
pub fn more_is_safe()
    ensures { MoreIsSafe }
{}

/// A law: if a node stops before all of its records were written, it is as if it had handled a part of what came, and
/// had then started again as `IsRestarted` says.
pub fn stopped_nodes_restart()
    ensures { StoppedNodesRestart }
{}
