//! A gate that prints what it is told.

use coding_pool::Gate;

/// Prints each job as it is entered and left.
#[derive(Clone, Copy)]
pub(crate) struct PrintingGate<'a> {
    pub(crate) host: &'a HostRuntime,
}

impl<'a> Gate for PrintingGate<'a> {
    fn enter(&self, job: usize) {
        let _ = println!(self.host; "enter {job}");
    }

    fn leave(&self, job: usize) {
        let _ = println!(self.host; "leave {job}");
    }
}
