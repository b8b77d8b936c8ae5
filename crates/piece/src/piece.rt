use bytes::Bytes;

/// A fragment of a value, with what a decoder has to know about it.
#[derive(Clone, Debug, PartialEq, Eq, Drop)]
pub struct Piece {
    /// The point of the fragment: the place of its member in the layout, from 0.
    pub point: u8,
    /// The length of the whole value, in bytes.
    pub len: u32,
    /// The fragment: `len` over `k` bytes, rounded up.
    pub bytes: Bytes,
}
