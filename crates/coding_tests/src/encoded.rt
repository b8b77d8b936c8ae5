//! Fragments of values, by hand and beside Intel's ISA-L.

ghost use Rattle.std.specs.Prelude.{◌≡◌};

use crate::same::assert_row;
use bytes::Bytes;
use encoder::{Coded, assemble, encode, encode_into, fragment_into, piece};
use piece::Piece;
use std::alloc::Global;
use std::process::Abort;
use std::test::Fail;
use tag::{LONGEST_VALUE, Refusal};

/// A value in k blocks, and its n fragments.
struct Coding {
    k: u8,
    n: u8,
    value: &'static [u8],
    fragments: &'static [&'static [u8]],
}

fn is_piece(piece: &Piece, point: u8, fragment: &[u8]) -> bool {
    piece.point == point && piece.bytes.as_slice() == fragment
}

/// Returns whether the pieces are these fragments, each with its point.
fn are_pieces(coded: &Coded, fragments: &[&[u8]]) -> bool {
    for i in 0..coded.n() {
        match fragments.get(i as usize) {
            Some(fragment) if is_piece(coded.piece_at(i), i, fragment) => {}
            _ => return false,
        }
    }
    coded.n() as usize == fragments.len()
}

fn encodes(alloc: Global, row: &Coding) -> bool {
    match encode(alloc, row.k, row.n, Bytes::from_static(row.value)) {
        Ok(coded) => are_pieces(&coded, row.fragments),
        Err(_) => false,
    }
}

fn assert_table(rt: &impl Abort, alloc: Global, table: &[Coding]) {
    for place in 0..table.len() {
        assert_row(rt, place, encodes(alloc, &table[place]));
    }
}

/// Worked out by hand from the definition of a fragment.
static SMALL: [Coding; 5] = [
    Coding {
        k: 2,
        n: 4,
        value: b"hello",
        fragments: &[b"hel", b"\x04\x0a\x6c", b"\xb0\xbb\x6c", b"\xdc\xd4\x6c"],
    },
    Coding {
        k: 2,
        n: 3,
        value: b"",
        fragments: &[b"", b"", b""],
    },
    Coding {
        k: 3,
        n: 3,
        value: b"A",
        fragments: &[b"A", b"A", b"A"],
    },
    Coding {
        k: 3,
        n: 4,
        value: b"ABC",
        fragments: &[b"A", b"@", b"\xd4", b"\xd5"],
    },
    Coding {
        k: 1,
        n: 3,
        value: b"AB",
        fragments: &[b"AB", b"AB", b"AB"],
    },
];

#[test]
fn cuts_small_values(rt: HostRuntime) {
    assert_table(&rt, rt.alloc(), &SMALL);
}

/// What Intel ISA-L's `ec_encode_data` gives for the rows `i^0, i^1, .. i^(k-1)` and the value padded with zeros.
static ISA_L: [Coding; 5] = [
    Coding {
        k: 3,
        n: 5,
        value: b"Coded atomic storage",
        fragments: &[
            b"Coded a",
            b"\x43\x6f\x7b\x6d\x60\x65\x12",
            b"\x66\x10\x6b\x2e\x23\xe9\x87",
            b"\x66\x10\x74\x26\x27\xac\xf4",
            b"\x9d\x70\xbe\x82\xcb\xbe\xb0",
        ],
    },
    Coding {
        k: 4,
        n: 7,
        value: b"any k of n pieces determine the value",
        fragments: &[
            b"any k of n",
            b"\x50\x5b\x14\x49\x0d\x5e\x1c\x66\x30\x63",
            b"\xe3\x1a\xe9\x6c\x53\xc0\x0f\xa6\x25\x19",
            b"\x91\xef\xad\x5e\x40\x9d\x3f\xa6\x35\x14",
            b"\x8a\x45\x7f\x52\x26\x0b\xd8\xdc\xbe\x29",
            b"\x2c\xca\xe4\xfc\x63\xbf\x3c\xdc\xae\x24",
            b"\x2a\x7f\xba\xfc\x91\xee\x9a\x1c\xbb\x5e",
        ],
    },
    Coding {
        k: 10,
        n: 12,
        value: b"\x80\x91\xa2\xb3\xc4\xd5\xe6\xf7\x08\x19\xff",
        fragments: &[
            b"\x80\x91",
            b"\xf7\x19",
            b"\x9b\xff",
            b"\x2a\x7f",
            b"\x0e\x85",
            b"\x1f\x3d",
            b"\xe6\xab",
            b"\x31\x1b",
            b"\xc3\xfc",
            b"\x9f\x94",
            b"\xf0\x0f",
            b"jo",
        ],
    },
    Coding {
        k: 10,
        n: 11,
        value: b"A quorum of servers answers, and any k of its fragments give a value",
        fragments: &[
            b"A quoru",
            b"\x76\x55\x05\x1e\x56\x35\x72",
            b"\xe3\x96\x90\x75\x52\xce\xae",
            b"\xea\xfa\x97\x04\x7d\x46\x87",
            b"\xf9\x8c\x1a\x72\x62\x95\x2e",
            b"\x23\x41\x94\xc3\x11\x24\xd8",
            b"\x6f\x4c\x4e\x44\x64\x17\xc1",
            b"\x5e\x0e\x20\x1c\xbb\x3a\x0d",
            b"\x79\x85\x09\xb6\x7d\x0b\xc7",
            b"\x93\x9f\xac\x42\x98\xb0\xe9",
            b"\xe7\xd8\xf7\x7c\x0f\xfc\xd6",
        ],
    },
    Coding {
        k: 2,
        n: 3,
        value: b"A quorum of servers answers, and any k of its fragments give a value",
        fragments: &[
            b"A quorum of servers answers, and a",
            b"\x2f\x59\x51\x1e\x4f\x1d\x13\x4d\x49\x1b\x15\x00\x15\x17\x13\x11\x08\
            \x17\x1d\x54\x12\x4e\x14\x1e\x13\x17\x53\x4d\x00\x17\x0f\x08\x55\x04",
            b"\x9d\xd2\x31\xa3\x2f\xac\xb9\x2d\xf2\x87\x80\x60\xbf\x81\xb0\xb8\xbf\
            \xb8\xaf\xc8\x87\x2e\xbd\xa5\x89\xb8\x33\xee\x60\x8d\xac\xbc\xca\xab",
        ],
    },
];

#[test]
fn codes_as_isa_l_does(rt: HostRuntime) {
    assert_table(&rt, rt.alloc(), &ISA_L);
}

// By `cuts_small_values`.
#[test]
fn encodes_into_the_caller_s_bytes(rt: HostRuntime) {
    let mut out = [0xAA; 12];
    encode_into(2, 4, b"hello", &mut out);
    assert!(rt; out == *b"hel\x04\x0a\x6c\xb0\xbb\x6c\xdc\xd4\x6c");
}

// By `cuts_small_values`.
#[test]
fn writes_one_fragment(rt: HostRuntime) {
    let mut out = [0xAA; 3];
    fragment_into(2, 3, b"hello", &mut out);
    assert!(rt; out == *b"\xdc\xd4\x6c");
}

fn is_refused(alloc: Global, k: u8, n: u8, value: Bytes, expected: Refusal) -> bool {
    match encode(alloc, k, n, value).err() {
        Some(refusal) => refusal == expected,
        None => false,
    }
}

#[test]
fn refuses_bad_numbers(rt: HostRuntime) {
    for (k, n) in [(0, 3), (4, 3), (0, 0)] {
        let value = Bytes::from_static(b"A");
        assert!(rt; is_refused(rt.alloc(), k, n, value, Refusal::BadLayout));
    }
}

fn zeros(rt: &impl Abort, alloc: Global, len: usize) -> Bytes {
    let bytes = vec![in alloc; 0; len].expect(rt, "so many bytes");
    Bytes::from_vec(bytes).expect(rt, "so many bytes")
}

#[test]
fn refuses_a_long_value(rt: HostRuntime) {
    let value = zeros(&rt, rt.alloc(), LONGEST_VALUE + 1);
    assert!(rt; is_refused(rt.alloc(), 1, 1, value, Refusal::TooLong));
}

fn is_hello(coded: &Coded) -> bool
    requires { coded.now.n ≡ 4 }
{
    coded.k() == 2
        && coded.n() == 4
        && coded.value().as_slice() == b"hello".as_slice()
        && coded.piece_at(3).bytes.as_slice() == b"\xdc\xd4\x6c".as_slice()
}

fn assert_hello(rt: &impl Abort, coded: &Coded)
    requires { coded.now.n ≡ 4 }
{
    assert!(rt; is_hello(coded));
}

#[test]
fn assembles_pieces_made_apart(rt: HostRuntime) -> Result<(), Fail> {
    let value = b"hello";
    let mut pieces = Vec::new(rt.alloc());
    for i in 0..4 {
        pieces.push(piece(rt.alloc(), 2, i, value)?)?;
    }
    assert_hello(&rt, &assemble(2, 4, Bytes::from_static(value), pieces));
    Ok(())
}
