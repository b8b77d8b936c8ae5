//! Whole calls whose messages are chosen out of their range.
use crate::acts::{assert_steps, assert_value, one_object, read, write};
use driver::{Chooser, First};

/// Returns the greatest number there is.
#[derive(Clone, Copy)]
struct Greatest;

impl Chooser for Greatest {
    fn choose(&mut self, _below: usize) -> usize {
        usize::MAX
    }
}

#[test]
fn a_write_and_a_read(rt: HostRuntime) {
    let mut cluster = one_object(&rt, rt.alloc(), 1, 1, &[0]);
    let written = write(&rt, rt.alloc(), &mut cluster, "a", b"A", &mut First);
    assert_steps(&rt, &written, 3, 18);
    let answered = read(&rt, rt.alloc(), &mut cluster, "a", &mut Greatest);
    assert_steps(&rt, &answered, 19, 32);
    assert_value(&rt, answered.value.as_ref(), b"A");
}

#[test]
fn a_write_and_a_read_of_many_servers(rt: HostRuntime) {
    let mut cluster = one_object(&rt, rt.alloc(), 7, 3, &[0, 1, 2, 3, 4, 5, 6]);
    write(&rt, rt.alloc(), &mut cluster, "a", b"A", &mut Greatest);
    let answered = read(&rt, rt.alloc(), &mut cluster, "a", &mut Greatest);
    assert_value(&rt, answered.value.as_ref(), b"A");
}
