//! Frames that are made of parts written by hand, and what they say.
use bytes::Bytes;
use frames::Frame;
use node_messages::{NodeMessage, read_message};
use std::alloc::Global;
use std::process::Abort;

/// What a frame says besides `FRONT`, the digest, the layout of the position and the name.
#[derive(Clone, Copy)]
pub(crate) struct Sample {
    /// Request or reply, kind, and status.
    pub(crate) codes: [u8; 3],
    /// The number and the call of a tag.
    pub(crate) tag: [u8; 16],
    /// The step of a reply.
    pub(crate) step: [u8; 8],
    /// Whether there is a piece, its point, and the length of its value.
    pub(crate) piece: [u8; 6],
    /// What is asked and told besides the message: the mark, the status, the tag, the point, and the length of a value.
    pub(crate) besides: [u8; 23],
    /// The bytes of the next layout.
    pub(crate) next: &'static [u8],
    /// The bytes of the start.
    pub(crate) start: &'static [u8],
    /// The bytes of the piece.
    pub(crate) bytes: Option<&'static [u8]>,
    /// The bytes of the piece that is told.
    pub(crate) told: Option<&'static [u8]>,
}

/// Form 5, call 7, phase 2, position 1 and member 3.
const FRONT: [u8; 18] = [5, 0, 0, 0, 0, 0, 0, 0, 7, 0, 0, 0, 2, 0, 0, 0, 1, 3];

const DIGEST: [u8; 16] = *b"0123456789abcdef";

/// Four members, k = 2, and the members 3, 4, 5 and 6.
const LAYOUT: [u8; 6] = [4, 2, 3, 4, 5, 6];

const NAME: &[u8] = b"photo";

/// Two members, k = 1, and the members 9 and 0.
pub(crate) const NEXT: &[u8] = &[2, 1, 9, 0];

/// The start at position 5, whose layout has three members, k = 2, and the members 7, 8 and 9.
pub(crate) const START: &[u8] = &[0, 0, 0, 5, 3, 2, 7, 8, 9];

/// The tag with the number 12 and the call 345.
pub(crate) const TAG: [u8; 16] = [0, 0, 0, 0, 0, 0, 0, 12, 0, 0, 0, 0, 0, 0, 1, 89];

/// The step 99.
pub(crate) const STEP: [u8; 8] = [0, 0, 0, 0, 0, 0, 0, 99];

/// A piece with the point 3, of a value of 11 bytes.
pub(crate) const PIECE: [u8; 6] = [1, 3, 0, 0, 0, 11];

/// A request Next.
pub(crate) const ASK_NEXT: Sample = Sample {
    codes: [0, 0, 0],
    tag: [0; 16],
    step: [0; 8],
    piece: [0; 6],
    besides: [0; 23],
    next: b"",
    start: b"",
    bytes: None,
    told: None,
};

/// Returns the head of a sample.
pub(crate) fn head<R: Abort>(rt: &R, alloc: Global, sample: &Sample) -> Vec<u8> {
    let mut head = Vec::new(alloc);
    push(rt, &mut head, &FRONT);
    push(rt, &mut head, &sample.codes);
    push(rt, &mut head, &sample.tag);
    push(rt, &mut head, &sample.step);
    push(rt, &mut head, &sample.piece);
    push(rt, &mut head, &sample.besides);
    push(rt, &mut head, &DIGEST);
    push(rt, &mut head, &LAYOUT);
    push(rt, &mut head, sample.next);
    push(rt, &mut head, sample.start);
    head
}

// Appends a part of a head.
fn push<R: Abort>(rt: &R, head: &mut Vec<u8>, part: &[u8]) {
    head.extend_from_slice(part).expect(rt, "memory");
}

/// Returns the strings of a message with this head and this name, and the bytes of its piece if it has one.
pub(crate) fn strings<R: Abort>(
    rt: &R,
    alloc: Global,
    head: Vec<u8>,
    name: &'static [u8],
    bytes: Option<&'static [u8]>,
) -> Vec<Bytes> {
    let mut list = Vec::new(alloc);
    let head = Bytes::from_vec(head).expect(rt, "memory");
    list.push(head).expect(rt, "memory");
    list.push(Bytes::from_static(name)).expect(rt, "memory");
    if let Some(bytes) = bytes {
        list.push(Bytes::from_static(bytes)).expect(rt, "memory");
    }
    list
}

/// Returns the strings of a sample.
pub(crate) fn sample_strings<R: Abort>(rt: &R, alloc: Global, sample: &Sample) -> Vec<Bytes> {
    let mut list = strings(rt, alloc, head(rt, alloc, sample), NAME, sample.bytes);
    if let Some(told) = sample.told {
        list.push(Bytes::from_static(told)).expect(rt, "memory");
    }
    list
}

/// Returns the frame of a sample.
pub(crate) fn frame<R: Abort>(rt: &R, alloc: Global, sample: &Sample) -> Frame {
    Frame::new(sample_strings(rt, alloc, sample)).expect(rt, "a frame")
}

/// Returns the message of a sample.
pub(crate) fn message<R: Abort>(rt: &R, alloc: Global, sample: &Sample) -> NodeMessage {
    read_message(alloc, &frame(rt, alloc, sample)).expect(rt, "a message")
}
