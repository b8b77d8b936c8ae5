//! 300 bytes in 100 blocks, given back by the last 100 of their 255 fragments.

ghost use Rattle.std.specs.Prelude.{◌≡◌};

use crate::made::keeps;
use crate::same::byte_at;
use bytes::Bytes;
use encoder::{Coded, encode};
use std::alloc::Global;
use std::process::Abort;

/// The fragments at the points 155 to 254, of three bytes each. A program in Python computed them from the definition.
static LAST: &[u8] = b"\
    \x08\x72\x60\x75\xec\xbb\x13\xd0\xce\xb2\x81\x50\xd7\x58\xd3\xa3\xc0\x2b\x1f\x48\x23\xd0\xab\xb9\x70\
    \xe6\x3e\x8f\x81\x48\x46\xbf\x61\x42\x94\xb5\x0f\x0c\x85\x4c\x96\x87\xf5\x3c\x3b\x26\x94\xae\x92\x5c\
    \x3e\x52\x22\x3b\x42\xb6\xec\x80\x4a\xb9\xcd\x5c\xae\x71\x1f\xe4\x24\xd5\xab\x78\x3c\x47\x25\xe2\x72\
    \xe0\x39\x43\x13\xf2\x88\x41\xd2\x09\x00\x5a\x4c\x60\x31\xa8\x94\xf3\x84\x10\xe5\xc7\xd7\x71\x57\xdb\
    \x13\x61\xe3\xf4\x20\xa9\x43\x5c\x04\x17\xc4\xb4\x75\x54\x28\x86\x6c\xcd\xaf\x7e\x09\xd3\xe1\xb3\xd1\
    \x26\x29\xd3\x32\xa0\x17\xea\x2e\x67\xaa\xd0\x07\x6e\xf5\xf8\xfa\x1b\xc6\x01\x4f\x56\xb1\xb8\x87\x90\
    \xa5\x19\xf5\xf1\x22\x69\x2a\x4d\xf4\x21\x0f\x2e\xfe\xc5\xd1\x2b\x74\xb5\xe3\x13\xbb\xa0\x57\x87\xbf\
    \xc4\xcb\xb1\xc4\xe8\x82\xf9\x24\x8c\x20\xa9\x2e\x4d\xef\xfa\xc7\xe3\x28\x43\xa5\x0c\x3d\x9d\x07\xaa\
    \xcb\x76\xc0\x33\x38\x8c\x57\x6a\x6e\x32\xe3\x3b\x2b\x52\x73\xad\xa2\x6e\xf5\x35\xda\xe8\x14\xbe\xe5\
    \x9d\x08\x31\x96\xde\x91\x45\xf4\x3a\x93\x83\xd8\xdd\x91\x17\x54\x68\x41\xd4\x78\xe5\x11\x5b\x58\xa6\
    \xfa\x8c\x2f\x46\xce\x75\xfe\xfd\x02\xf3\xdd\x85\x7f\x3a\x47\x84\x31\xe8\xed\xda\x56\x22\xd1\xd3\x38\
    \xe2\x83\x7b\x1f\xb1\x24\x23\x3e\xac\x85\xba\x1b\x19\xea\x14\xd3\x4a\x3f\xc4\x70\x9b\x45\xc9\xd3\x3d";

/// Returns the bytes 0 to 250 again and again, 300 in all.
fn counted(rt: &impl Abort, alloc: Global) -> Bytes {
    let mut bytes = vec![in alloc; 0; 300].expect(rt, "so many bytes");
    let mut next = 0u8;
    for byte in bytes.iter_mut() {
        *byte = next;
        next = if next == 250 { 0 } else { next.wrapping_add(1) };
    }
    Bytes::from_vec(bytes).expect(rt, "so many bytes")
}

/// Returns whether the last 100 fragments of 255 are `LAST`.
fn are_the_last(coded: &Coded) -> bool
    requires { coded.now.n ≡ 255 }
{
    for i in 0..100u8 {
        let start = 3 * usize::from(i);
        let fragment = [
            byte_at(LAST, start),
            byte_at(LAST, start + 1),
            byte_at(LAST, start + 2),
        ];
        if coded.piece_at(155 + i).bytes.as_slice() != fragment.as_slice() {
            return false;
        }
    }
    true
}

fn assert_last(rt: &impl Abort, coded: &Coded) {
    assert!(rt; coded.n() == 255);
    assert!(rt; are_the_last(coded));
}

#[test]
fn gives_back_300_bytes_from_the_last_100_of_255_fragments(rt: HostRuntime) {
    let coded = encode(rt.alloc(), 100, 255, counted(&rt, rt.alloc())).expect(&rt, "fragments");
    assert_last(&rt, &coded);
    let value = counted(&rt, rt.alloc());
    assert!(rt; keeps(&rt, rt.alloc(), 100, value.as_slice(), &coded));
}
