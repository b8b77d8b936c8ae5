//! Sums that were published elsewhere.
use node_log::checksum;

/// The bytes from 0 to 31.
const ASCENDING: [u8; 32] = [
    0, 1, 2, 3, 4, 5, 6, 7, 8, 9, 10, 11, 12, 13, 14, 15, 16, 17, 18, 19, 20, 21, 22, 23, 24, 25,
    26, 27, 28, 29, 30, 31,
];

/// The examples of RFC 3720, B.4: 32 bytes of zeros, of ones, and in ascending order; the check value of the catalogue
/// of parametrised CRC algorithms, of nine bytes: one more than eight; and the sum of no bytes.
static SUMS: [(&[u8], u32); 5] = [
    (&[0; 32], 0x8A9136AA),
    (&[255; 32], 0x62A8AB43),
    (&ASCENDING, 0x46DD794E),
    (b"123456789", 0xE3069283),
    (b"", 0),
];

#[test]
fn published_sums(rt: HostRuntime) {
    for &(bytes, sum) in &SUMS {
        assert_eq!(rt; checksum(bytes), sum);
    }
}
