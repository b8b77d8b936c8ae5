use frames::Frame;
use node_log::Entry;

/// What leaves a node: an entry, which its log gets, or a frame, which is sent.
#[derive(Debug, Drop)]
pub enum Output {
    /// The log gets this entry.
    Log(Entry),
    /// This frame goes out, with its address in front.
    Send(Frame),
}
