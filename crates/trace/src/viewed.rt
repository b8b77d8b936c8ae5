//! An object of a cluster, as a picture reads it.
use bank::Bank;
use exports::ObjectView;
use layout::Layout;
use mail::Phase;
use register::Register;
use tag::{CallId, Stamp};

/// An object of a cluster, as a picture reads it.
#[derive(Clone, Copy)]
pub struct Viewed<'a>(pub &'a Register);

impl ObjectView for Viewed<'_> {
    fn last(&self) -> Stamp {
        self.0.last()
    }

    fn phase_count(&self, call: CallId) -> usize {
        self.0.phase_count(call)
    }

    fn phase_view(&self, call: CallId, index: usize) -> Option<&Phase> {
        self.0.phase_view(call, index)
    }

    fn layout_view(&self, position: u32) -> Option<&Layout> {
        self.0.layout_view(position)
    }

    fn server(&self, position: u32, member: u8) -> Option<u8> {
        self.0.server(position, member)
    }

    fn bank_view(&self, position: u32, member: u8) -> Option<&Bank> {
        self.0.bank_view(position, member)
    }
}
