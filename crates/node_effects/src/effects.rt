use crate::notice::Notice;
use crate::output::Output;
use frames::Frame;

/// What a node wants done after a frame.
///
/// The outputs stand in the order in which the node wants them, and behind them come the answers. A frame may go out as
/// soon as the log has all entries that stand before it, and is synced.
#[derive(Debug, Drop)]
pub struct Effects {
    /// Entries for the log, and frames to nodes.
    pub outputs: Vec<Output>,
    /// Frames to clients, each with its address in front.
    pub answers: Vec<Frame>,
    /// What clients see: calls that began, and answers, in this order.
    pub notices: Vec<Notice>,
}
