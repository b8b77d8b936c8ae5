//! Heads of which one byte is another, and why they are none.
use super::faults::assert_fault;
use super::samples::{ASK_NEXT, head, strings};
use node_messages::Fault;

/// The place of a byte in the head of `ASK_NEXT`, another byte, and the fault.
struct Change(usize, u8, Fault);

static CHANGES: [Change; 34] = [
    Change(0, 0, Fault::OtherForm),
    Change(0, 2, Fault::OtherForm),
    Change(0, 3, Fault::OtherForm),
    Change(0, 4, Fault::OtherForm),
    Change(0, 6, Fault::OtherForm),
    Change(0, b'0', Fault::OtherForm),
    Change(17, 4, Fault::NoMember),
    Change(17, 255, Fault::NoMember),
    Change(18, 2, Fault::UnknownCode),
    Change(18, 255, Fault::UnknownCode),
    Change(19, 3, Fault::NoPiece),
    Change(19, 6, Fault::UnknownCode),
    Change(19, 255, Fault::UnknownCode),
    Change(20, 1, Fault::UnusedPlace),
    Change(28, 1, Fault::UnusedPlace),
    Change(36, 1, Fault::UnusedPlace),
    Change(44, 1, Fault::UnusedPlace),
    Change(45, 1, Fault::WrongCount),
    Change(45, 2, Fault::UnknownCode),
    Change(46, 1, Fault::UnusedPlace),
    Change(50, 1, Fault::UnusedPlace),
    Change(51, 2, Fault::BadTelling),
    Change(51, 3, Fault::WrongCount),
    Change(51, 4, Fault::UnknownCode),
    Change(52, 1, Fault::UnusedPlace),
    Change(60, 1, Fault::UnusedPlace),
    Change(68, 1, Fault::UnusedPlace),
    Change(69, 1, Fault::UnusedPlace),
    Change(73, 1, Fault::UnusedPlace),
    Change(90, 5, Fault::BadLayout),
    Change(90, 3, Fault::BadLayout),
    Change(91, 0, Fault::BadLayout),
    Change(91, 5, Fault::BadLayout),
    Change(92, 6, Fault::BadLayout),
];

fn put(head: &mut [u8], change: &Change) {
    if let Some(byte) = head.get_mut(change.0) {
        *byte = change.1;
    }
}

#[test]
fn a_byte_of_the_head(rt: HostRuntime) {
    for change in &CHANGES {
        let mut head = head(&rt, rt.alloc(), &ASK_NEXT);
        put(&mut head, change);
        let list = strings(&rt, rt.alloc(), head, b"photo", None);
        assert_fault(&rt, rt.alloc(), list, change.2);
    }
}
