//! What a picture reads of an object.
use bank::Bank;
use layout::Layout;
use mail::Phase;
use tag::{CallId, Stamp};

/// An object, as a picture reads it. Positions and members count from 0, and calls from 1.
pub trait ObjectView {
    /// Returns the number of the object's last step.
    fn last(&self) -> Stamp;

    /// Returns how many phases the call of this number has: 0 if there is no such call.
    fn phase_count(&self, call: CallId) -> usize;

    /// Returns the phase at an index, from 0, of the call of this number, or none if there is no such call or phase.
    fn phase_view(&self, call: CallId, index: usize) -> Option<&Phase>;

    /// Returns the layout of a position, or none if there is no such position.
    fn layout_view(&self, position: u32) -> Option<&Layout>;

    /// Returns the server that is this member of a position, or none if there is no such position or member.
    fn server(&self, position: u32, member: u8) -> Option<u8>;

    /// Returns the bank of a member of a position, or none if there is no such position or member.
    fn bank_view(&self, position: u32, member: u8) -> Option<&Bank>;
}
