use std::marker::Sync;

/// A gate is called for each piece that a worker makes, on the worker's thread. `job` is the number of the piece's job,
/// which is the point of the piece.
pub trait Gate: Sync {
    /// The worker has taken the job. It makes the piece once this returns.
    fn enter(&self, job: usize);

    /// The worker has made the piece, or was refused the memory for it.
    fn leave(&self, job: usize);
}

/// The gate that never blocks.
#[derive(Clone, Copy)]
pub struct NoGate;

impl Gate for NoGate {
    fn enter(&self, _job: usize) {}

    fn leave(&self, _job: usize) {}
}
