//! Digests, computed with Python's `hashlib`.
use super::read::read;

const DIGEST: [u8; 16] = *b"\x76\x8c\x59\x74\x2f\x99\x3b\xd5\xc3\xd1\x31\x8d\x04\xb3\x20\x72";

const WITH_MOVER_9: [u8; 16] = *b"\xc5\xac\x60\xe9\x02\xe8\xc5\x42\xf9\x7b\x0e\xe1\x27\x77\x27\xec";

const WITH_DELTA_7: [u8; 16] = *b"\x7d\xc5\xef\x1f\xfa\xea\xbe\x93\x26\xa6\xa4\xab\x85\x38\xde\xeb";

/// What is fixed, with other later nodes and other ticks, with another delta, and with a mover that joined later.
static DIGESTS: [(&str, &[u8], [u8; 16]); 5] = [
    (
        "what is fixed",
        b"nodes 0 1 2 3 4 5\nn 4\nk 2\ndelta none\nmover 3\nlater\nticks 50\n",
        DIGEST,
    ),
    (
        "later nodes and ticks do not matter",
        b"nodes 0 1 2 3 4 5\nn 4\nk 2\ndelta none\nmover 3\nlater 6 7\nticks 9\n",
        DIGEST,
    ),
    (
        "another delta",
        b"nodes 0 1 2 3 4 5\nn 4\nk 2\ndelta 7\nmover 3\nlater\nticks 50\n",
        WITH_DELTA_7,
    ),
    (
        "a mover that joined later",
        b"nodes 0 1 2 3 4 5\nn 4\nk 2\ndelta none\nmover 9\nlater 9\nticks 50\n",
        WITH_MOVER_9,
    ),
    (
        "more nodes beside such a mover do not matter",
        b"nodes 0 1 2 3 4 5\nn 4\nk 2\ndelta none\nmover 9\nlater 6 9 7\nticks 50\n",
        WITH_MOVER_9,
    ),
];

#[test]
fn of_what_is_fixed(rt: HostRuntime) {
    for &(story, text, digest) in &DIGESTS {
        assert!(rt; read(&rt, rt.alloc(), text).digest() == digest, "{story}");
    }
}
