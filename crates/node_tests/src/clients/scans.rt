//! What follows a `SCAN` that is none, and why.
use super::samples::assert_fault;
use client_commands::{CommandFault, CommandName};

/// A pattern of a byte more than is allowed.
const LONG_PATTERN: &[u8] = &[b'*'; 256];

/// What follows a `SCAN`, and why it is refused.
static SCANS: [(&[&[u8]], CommandFault); 17] = [
    (&[b"SCAN"], CommandFault::WrongCount(CommandName::Scan)),
    (&[b"SCAN", b""], CommandFault::BadCursor),
    (&[b"SCAN", b"-1", b"FAST"], CommandFault::BadCursor),
    (&[b"SCAN", b"00"], CommandFault::BadCursor),
    (&[b"SCAN", b"18446744073709551616"], CommandFault::BadCursor),
    (&[b"SCAN", b"0", b"COUNT"], CommandFault::SyntaxError),
    (&[b"SCAN", b"0", b"COUNT", b"0"], CommandFault::SyntaxError),
    (&[b"SCAN", b"0", b"COUNT", b"ten"], CommandFault::NotInteger),
    (&[b"SCAN", b"0", b"COUNT", b"-1"], CommandFault::NotInteger),
    (
        &[b"SCAN", b"0", b"COUNT", b"9223372036854775808"],
        CommandFault::NotInteger,
    ),
    (
        &[b"SCAN", b"0", b"TYPE", b"string"],
        CommandFault::SyntaxError,
    ),
    (
        &[b"SCAN", b"0", b"COUNT", b"x", b"MATCH", b"[ab]"],
        CommandFault::NotInteger,
    ),
    (&[b"SCAN", b"0", b"MATCH"], CommandFault::SyntaxError),
    (&[b"SCAN", b"0", b"MATCH", b"a[bc]"], CommandFault::NoSets),
    (
        &[b"SCAN", b"0", b"MATCH", b"a\\\\[bc]"],
        CommandFault::NoSets,
    ),
    (
        &[b"SCAN", b"0", b"match", LONG_PATTERN],
        CommandFault::PatternTooLong,
    ),
    (
        &[b"SCAN", b"0", b"MATCH", b"[", b"COUNT", b"x"],
        CommandFault::NoSets,
    ),
];

#[test]
fn scans(rt: HostRuntime) {
    for &(texts, fault) in &SCANS {
        assert_fault(&rt, rt.alloc(), texts, fault);
    }
}
