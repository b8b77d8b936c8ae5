//! Starts: a call may leave out positions whose pointers are final at a quorum, if the pointers of all positions before
//! them are too. Whatever it does then, it could have done by events of the world of separate nodes.
//!
//! The definitions are in `specs/`. Each law is the contract of a function with an empty body.
#![tactic(auto)]

ghost use Rattle.starts.specs.Laws.{
  BegunCallsRead,
  CallsReadOn,
  CompleteSpreadsAreFinal,
  FinalsStay,
  MembersWereAsked,
};

/// A law: once the pointer of a position is final at a quorum, it is so after any number of events that may happen and
/// meet the premises. So a start stays a start.
pub fn finals_stay()
    ensures { FinalsStay }
{}

/// A law: in a world that is reached, let a call read the sequence of layouts at a position before a start. There are
/// events of the world that may happen, after which the call has just begun to read at the start. They change nothing
/// but this call, the messages that were sent, and the number of events. The number of the call's phase grows by two
/// for each position that it leaves behind.
pub fn calls_read_on()
    ensures { CallsReadOn }
{}

/// A law: in a world that is reached, a read or a write that a node begins with a new id reads at position 0. So it may
/// go on at a start.
pub fn begun_calls_read()
    ensures { BegunCallsRead }
{}

/// A law: in a world that is reached, if an open call has spread a final pointer at a position, and a quorum replied,
/// the pointer of the position is final at a quorum. So a node learns from its own calls where it may begin later.
pub fn complete_spreads_are_final()
    ensures { CompleteSpreadsAreFinal }
{}

/// A law: in a world that is reached, at each position before a start, a request to raise the pointer to final was sent
/// to each member. So a member whose own pointer is not final yet may serve this request, as if it only came now.
pub fn members_were_asked()
    ensures { MembersWereAsked }
{}
