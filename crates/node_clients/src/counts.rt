//! What a node counts from its start on. Only the answer to `INFO` shows these counts.

/// What a node has counted since its start. A count stops at 2^64 - 1.
#[derive(Clone, Copy, Debug, PartialEq, Eq)]
pub struct Counts {
    /// Commands of clients that were answered, except `QUIT`.
    pub answered: u64,
    /// Reads and writes that were given up.
    pub given_up: u64,
    /// The length of the log in bytes, as the node was last told.
    pub log_bytes: u64,
}

impl Counts {
    pub const ZERO: Counts = Counts {
        answered: 0,
        given_up: 0,
        log_bytes: 0,
    };
}
