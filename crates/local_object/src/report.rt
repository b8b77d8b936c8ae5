use letter::Telling;
use tag::CallId;

/// What a member told a call of this node, with a reply to one of the call's phases.
#[derive(Debug, Drop)]
pub struct Report {
    /// The id of the call.
    pub call: CallId,
    /// The number of the phase.
    pub phase: u32,
    /// The number of the member, from 0.
    pub member: u8,
    /// What the member told.
    pub telling: Telling,
}
