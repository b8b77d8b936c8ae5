//! The rows of interpolation.

ghost use Rattle.gf256.specs.Polynomial.{AreDistinct};
ghost use Rattle.std.specs.Prelude.{◌≤◌, length};

use poly::{basis, fill_rows};

fn are_rows(points: &[u8], expected: &[&[u8]]) -> bool
    requires distinct { AreDistinct points.now }
    requires few { length points.now ≤ 3 }
{
    for i in 0..points.len() {
        match expected.get(i) {
            Some(row) if basis(points, i).as_slice() == *row => {}
            _ => return false,
        }
    }
    points.len() == expected.len()
}

// By hand, with a product at a time: each row is 1 at its own point and 0 at the others.
#[test]
fn gives_the_rows_of_lagrange(rt: HostRuntime) {
    assert!(rt; are_rows(&[0x05], &[&[0x01]]));
    assert!(rt; are_rows(&[0x00, 0x01], &[&[0x01, 0x01], &[0x00, 0x01]]));
    assert!(rt; are_rows(&[0x03, 0x02], &[&[0x02, 0x01], &[0x03, 0x01]]));
    let three: [&[u8]; 3] = [
        &[0x01, 0x8f, 0x8e],
        &[0x00, 0xf5, 0xf4],
        &[0x00, 0x7a, 0x7a],
    ];
    assert!(rt; are_rows(&[0x00, 0x01, 0x02], &three));
}

// The same rows of two points, one after another.
#[test]
fn fills_a_table_with_rows(rt: HostRuntime) {
    let mut table = [0; 4];
    fill_rows(&mut table, &[0x03, 0x02]);
    assert!(rt; table == [0x02, 0x01, 0x03, 0x01]);
}
