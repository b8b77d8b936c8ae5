//! Why the first reading of a call may stand for its query too: members told their greatest finalized tags with the
//! replies.
//!
//! The definitions are in `specs/`. The law is the contract of a function with an empty body.
#![tactic(auto)]

ghost use Rattle.told_queries.specs.Laws.{ReadingsMayQuery};

/// A law: where an open read or write was told, with replies to its first reading, unset pointers and greatest
/// finalized tags by a quorum, there is a run in which the call queried that quorum and was told these tags, and which
/// leads to the same world but for the call, for more messages, and for the number of events. Events that were kept in
/// reserve are those of the query.
pub fn readings_may_query()
    ensures { ReadingsMayQuery }
{}
