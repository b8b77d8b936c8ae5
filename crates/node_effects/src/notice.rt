use bytes::Bytes;
use layout::Layout;
use local_object::Ended;
use tag::CallId;

/// Something that clients of a node see: a call begins, or it is answered.
#[derive(Debug, Drop)]
pub enum Notice {
    /// A read of the object of this name began.
    Reads {
        name: Bytes,
        id: CallId,
    },
    /// A write of this value began.
    Writes {
        name: Bytes,
        id: CallId,
        value: Bytes,
    },
    /// A move to this layout began.
    Moves {
        name: Bytes,
        id: CallId,
        layout: Layout,
    },
    /// A call was answered.
    Tells {
        name: Bytes,
        ended: Ended,
    },
}
