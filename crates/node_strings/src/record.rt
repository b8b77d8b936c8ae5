use bytes::Bytes;
use cluster_file::DIGEST_LENGTH;
use frames::Frame;
use layout::Layout;
use tag::CallId;

/// What an entry of a node's log records.
#[derive(Debug, Drop)]
pub enum Record {
    /// The log is that of this node of the cluster whose file has this digest. A log begins with this entry, and has no
    /// other of this kind.
    Cluster {
        digest: [u8; DIGEST_LENGTH],
        node: u8,
    },
    /// The node began an epoch, in which the ids of its calls count from 0 again.
    Start,
    /// The node served this request.
    Serve(Frame),
    /// The node took this reply.
    Take(Frame),
    /// The node began a move of the object of this name to this layout.
    Move {
        id: CallId,
        name: Bytes,
        layout: Layout,
    },
    /// The node had heard of this position of the object of this name, with this layout. Only a log that was rewritten
    /// has entries of this kind.
    Hear {
        position: u32,
        name: Bytes,
        layout: Layout,
    },
    /// The node closed its bank of this position of the object of this name: it dropped the pieces that it kept there.
    Close {
        position: u32,
        name: Bytes,
    },
}
