//! Patterns of a `SCAN`, as the documentation of Redis shows them, and the names that they match.
use crate::checks::{assert_strings, strings};
use client_commands::matching_names;
use std::alloc::Global;
use std::process::Abort;

/// All names among which there is a choice.
static NAMES: [&[u8]; 9] = [
    b"hello",
    b"hallo",
    b"hllo",
    b"heeeello",
    b"h*llo",
    b"hello?",
    b"",
    b"user:17:name",
    b"a\\b[c\r\n",
];

/// A pattern, and the names that it matches.
static PATTERNS: [(&[u8], &[&[u8]]); 14] = [
    (b"h?llo", &[b"hello", b"hallo", b"h*llo"]),
    (
        b"h*llo",
        &[b"hello", b"hallo", b"hllo", b"heeeello", b"h*llo"],
    ),
    (b"h\\*llo", &[b"h*llo"]),
    (b"hello\\?", &[b"hello?"]),
    (b"hello", &[b"hello"]),
    (b"", &[b""]),
    (b"?", &[]),
    (b"user:*:name", &[b"user:17:name"]),
    (b"*:*:*:*", &[]),
    (
        b"*l*l*o*",
        &[
            b"hello",
            b"hallo",
            b"hllo",
            b"heeeello",
            b"h*llo",
            b"hello?",
        ],
    ),
    (b"a\\\\b\\[c*", &[b"a\\b[c\r\n"]),
    (b"\\h\\e\\l\\l\\o", &[b"hello"]),
    (b"*\\", &[]),
    (
        b"**?**?**?**?**?**?**",
        &[b"heeeello", b"hello?", b"user:17:name", b"a\\b[c\r\n"],
    ),
];

#[test]
fn patterns(rt: HostRuntime) {
    for &(pattern, wanted) in &PATTERNS {
        assert_matches(&rt, rt.alloc(), pattern, wanted);
    }
}

/// These are those of all names that match the pattern.
fn assert_matches<R: Abort>(rt: &R, alloc: Global, pattern: &[u8], wanted: &[&[u8]]) {
    let names = strings(rt, alloc, &NAMES);
    let told = matching_names(alloc, pattern, &names).expect(rt, "memory");
    assert_strings(rt, &told, &strings(rt, alloc, wanted));
}

#[test]
fn all_names(rt: HostRuntime) {
    assert_matches(&rt, rt.alloc(), b"*", &NAMES);
}
