//! One call that is not answered, and the order of a call's phases: which phase is due at each stage, and where its
//! replies lead.
//!
//! A `Call` keeps only its current phase, and the stage at which that phase began. It never looks at other calls, at
//! messages that wait, or at a bank: its caller passes it each reply, and sends its requests. A `Reading` is the
//! reading of the sequence of layouts; its rules are after ARES (Nicolaou, Cadambe, Prakash, Trigeorgi, Konwar, Médard
//! and Lynch, 2019).
#![tactic(auto)]

ghost use Rattle.call.specs.Laws.{ReadingsLeadToTheEnd, ReadingsAreStages};
ghost use Rattle.call.specs.Moves.{MovesAreInOrder};

pub use call::Call;
pub use course::{begun_at, due, first_stage, passed, stage_tag};
pub use messages::{request_to, requests};
pub use next::Next;
pub use order::next_phase;
pub use reading::Reading;
pub use receipt::{CallView, Receipt};
pub use replies::{greatest_status, greatest_tag};

mod after_replies;
mod call;
mod course;
mod messages;
mod next;
mod order;
mod reading;
mod receipt;
mod replies;

/// A law: phases are a reading of the sequence, as `record` defines it, from a position up to a last one exactly if
/// they lead a `Reading` from there to its end. Each is then the phase that was next, and the statuses that were found
/// end the reading at that last position, with that last finalized one.
pub fn readings_lead_to_the_end()
    ensures { ReadingsLeadToTheEnd }
{}

/// A law: complete phases lead the stage of the call that made them to where they lead its `Reading`, in its first
/// reading and in a later one.
pub fn readings_are_stages()
    ensures { ReadingsAreStages }
{}

/// A law: a move that may be answered has made six phases. It spread that the next position is pending, asked for the
/// greatest tag, fetched it, pre-wrote and finalized it at the next position, and spread that this position is final.
/// Any other phases of the move are queries between these, each with a fetch that lacked pieces.
pub fn moves_are_in_order()
    ensures { MovesAreInOrder }
{}
