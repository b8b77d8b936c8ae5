//! Fragments that were made by hand or by Intel's ISA-L, and those that give no value.

/// How many fragments give a value, their points, the fragments, and the value.
pub(crate) struct Row {
    pub(crate) k: u8,
    pub(crate) points: &'static [u8],
    pub(crate) fragments: &'static [&'static [u8]],
    pub(crate) value: &'static [u8],
}

// The fragments of `hello` in two blocks.
pub(crate) const ZERO: &[u8] = b"\x68\x65\x6c";

pub(crate) const ONE: &[u8] = b"\x04\x0a\x6c";

pub(crate) const TWO: &[u8] = b"\xb0\xbb\x6c";

pub(crate) const THREE: &[u8] = b"\xdc\xd4\x6c";

/// Worked out by hand from the definition of a fragment.
pub(crate) static SMALL: [Row; 10] = [
    Row {
        k: 2,
        points: &[0, 1],
        fragments: &[ZERO, ONE],
        value: b"hello",
    },
    Row {
        k: 2,
        points: &[2, 0],
        fragments: &[TWO, ZERO],
        value: b"hello",
    },
    Row {
        k: 2,
        points: &[0, 3],
        fragments: &[ZERO, THREE],
        value: b"hello",
    },
    Row {
        k: 2,
        points: &[1, 2],
        fragments: &[ONE, TWO],
        value: b"hello",
    },
    Row {
        k: 2,
        points: &[3, 1],
        fragments: &[THREE, ONE],
        value: b"hello",
    },
    Row {
        k: 2,
        points: &[3, 2],
        fragments: &[THREE, TWO],
        value: b"hello",
    },
    Row {
        k: 2,
        points: &[0, 2],
        fragments: &[b"", b""],
        value: b"",
    },
    Row {
        k: 3,
        points: &[3, 0, 2],
        fragments: &[b"\xd5", b"\x41", b"\xd4"],
        value: b"ABC",
    },
    Row {
        k: 3,
        points: &[0, 1, 2],
        fragments: &[b"A", b"A", b"A"],
        value: b"A",
    },
    Row {
        k: 1,
        points: &[2],
        fragments: &[b"AB"],
        value: b"AB",
    },
];

/// What Intel ISA-L's `ec_encode_data` gives for the rows `i^0, i^1, .. i^(k-1)` of each point `i` and the value padded
/// with zeros; ISA-L gives the value back by the inverse of that matrix, from `gf_invert_matrix`.
pub(crate) static ISA_L: [Row; 6] = [
    Row {
        k: 2,
        points: &[200, 254],
        fragments: &[b"\x8c", b"\xe0"],
        value: b"\x01\x02",
    },
    Row {
        k: 3,
        points: &[254, 3, 17],
        fragments: &[
            b"\x62\xe6\xcb\x1e\xdc\xd1\xf2\x85\xd3",
            b"\x34\x78\x4c\xb7\x3a\x69\x30\x50\x05",
            b"\x54\x4c\xce\xf6\xda\x47\x05\x1d\x7f",
        ],
        value: b"Any k pieces give it back.",
    },
    Row {
        k: 5,
        points: &[9, 0, 200, 31, 4],
        fragments: &[
            b"\x38\x9f",
            b"\x71\x75",
            b"\xc2\x8a",
            b"\x03\xff",
            b"\xd3\x3e",
        ],
        value: b"quorum",
    },
    Row {
        k: 7,
        points: &[6, 5, 4, 3, 2, 1, 0],
        fragments: &[
            b"\x7f", b"\x7a", b"\xea", b"\x70", b"\x48", b"\x00", b"\x00",
        ],
        value: b"\x00\xff\x00\xff",
    },
    Row {
        k: 10,
        points: &[11, 2, 254, 7, 0, 200, 5, 1, 128, 9],
        fragments: &[
            b"\xb3\x06\x4b\xae",
            b"\x2c\x29\x1c\xd7",
            b"\xe3\x32\xeb\x59",
            b"\x90\x3c\x80\x9b",
            b"\x41\x20\x76\x61",
            b"\xf5\x04\xaf\x89",
            b"\xcc\x5c\x3e\x87",
            b"\x62\x57\x7c\x3f",
            b"\x23\xe6\xf9\xb3",
            b"\x9c\x8f\x11\x1e",
        ],
        value: b"A value of ten blocks, and a half more",
    },
    Row {
        k: 10,
        points: &[255, 254, 253, 252, 251, 250, 249, 248, 247, 246],
        fragments: &[
            b"\xd8\x99",
            b"\xd6\x3d",
            b"\x5a\x04",
            b"\x92\xa8",
            b"\x30\xe0",
            b"\x58\x74",
            b"\x41\x3d",
            b"\xef\xa1",
            b"\x55\x4c",
            b"\x70\x08",
        ],
        value: b"\x80\x91\xa2\xb3\xc4\xd5\xe6\xf7\x08\x19\xff",
    },
];

/// Fragments that are not those of a value of this length in k blocks.
pub(crate) struct Bad {
    pub(crate) k: u8,
    pub(crate) len: usize,
    pub(crate) points: &'static [u8],
    pub(crate) fragments: &'static [&'static [u8]],
}

pub(crate) static BAD: [Bad; 8] = [
    // One point twice, another length, too few fragments, and too many.
    Bad {
        k: 2,
        len: 5,
        points: &[1, 1],
        fragments: &[ONE, ONE],
    },
    Bad {
        k: 2,
        len: 5,
        points: &[0, 1],
        fragments: &[b"\x68\x65", ONE],
    },
    Bad {
        k: 2,
        len: 5,
        points: &[0],
        fragments: &[ZERO],
    },
    Bad {
        k: 2,
        len: 5,
        points: &[0, 1, 2],
        fragments: &[ZERO, ONE, TWO],
    },
    Bad {
        k: 1,
        len: 1,
        points: &[0, 1],
        fragments: &[b"A", b"A"],
    },
    // The sixth byte would be 01.
    Bad {
        k: 2,
        len: 5,
        points: &[0, 1],
        fragments: &[ZERO, b"\x04\x0a\x6d"],
    },
    // The polynomial that is 1 at one of k points and 0 at the others has the degree k - 1.
    Bad {
        k: 3,
        len: 1,
        points: &[0, 1, 2],
        fragments: &[b"A", b"A", b"B"],
    },
    Bad {
        k: 4,
        len: 3,
        points: &[9, 8, 0, 7],
        fragments: &[b"\x00", b"\x01", b"\x00", b"\x00"],
    },
];
