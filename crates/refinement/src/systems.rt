//! What worlds promise holds of all nodes together.
ghost use Rattle.refinement.specs.Laws.{AnsweredReadsHaveValues, AnswersAreInHistory, EarlyAnswersAreInHistory};
ghost use Rattle.refinement.specs.Laws.{EventsInARowAreEvents, SystemsAreAtomic, SystemsHaveWorlds, SystemsKeepValues};

/// A law: whatever nodes do, and however often they stop and start again, there is a run in turns to a world of which
/// each node keeps its part. What letters tell is true in the run, calls that ended early were answered early in it,
/// and each call that reads first has room for a query.
pub fn systems_have_worlds()
    ensures { SystemsHaveWorlds }
{}

/// A law: the history of the calls of all nodes is atomic.
pub fn systems_are_atomic()
    ensures { SystemsAreAtomic }
{}

/// A law: a tag has one value. Each piece in a bank that a node keeps, and each piece in a letter ever sent or told by
/// one, is its member's fragment of its tag's value, and each answered read returned the value of a tag.
pub fn systems_keep_values()
    ensures { SystemsKeepValues }
{}

/// A law: a read that a node may answer has settled a value.
pub fn answered_reads_have_values()
    ensures { AnsweredReadsHaveValues }
{}

/// A law: after a node answers a call, the history has the answer, with the value that the client is told.
pub fn answers_are_in_history()
    ensures { AnswersAreInHistory }
{}

/// A law: after a call ends early, the history has its answer, with the value that the client is told.
pub fn early_answers_are_in_history()
    ensures { EarlyAnswersAreInHistory }
{}

/// A law: several things that a node does in a row, each allowed by what it keeps at that moment, are events of all
/// nodes. They lead to what the node itself keeps and sends.
pub fn events_in_a_row_are_events()
    ensures { EventsInARowAreEvents }
{}
