//! The command `MOVE`, which Redis has with other arguments.
use super::samples::assert_fault;
use client_commands::CommandFault;

/// A k and a node, and their fault.
static NUMBERS: [(&[u8], &[u8], CommandFault); 20] = [
    (b"", b"3", CommandFault::BadNumber),
    (b"-1", b"3", CommandFault::BadNumber),
    (b"+1", b"3", CommandFault::BadNumber),
    (b" 1", b"3", CommandFault::BadNumber),
    (b"1 ", b"3", CommandFault::BadNumber),
    (b"01", b"3", CommandFault::BadNumber),
    (b"00", b"3", CommandFault::BadNumber),
    (b"one", b"256", CommandFault::BadNumber),
    (b"\xc2\xb2", b"3", CommandFault::BadNumber),
    (b"256", b"x", CommandFault::OutOfRange),
    (b"1000", b"3", CommandFault::OutOfRange),
    (b"18446744073709551617", b"3", CommandFault::OutOfRange),
    (b"1", b"3x", CommandFault::BadNumber),
    (b"1", b"0x3", CommandFault::BadNumber),
    (b"1", b"256", CommandFault::OutOfRange),
    (b"256x", b"3", CommandFault::OutOfRange),
    (b"25x6", b"3", CommandFault::BadNumber),
    (b"0256", b"3", CommandFault::BadNumber),
    (b"0", b"3", CommandFault::BadLayout),
    (b"2", b"3", CommandFault::BadLayout),
];

#[test]
fn numbers(rt: HostRuntime) {
    for &(k, node, fault) in &NUMBERS {
        assert_fault(&rt, rt.alloc(), &[b"MOVE", b"photo", k, node], fault);
    }
}
