//! The assertion of a table's row. A call costs a check far less than the macro written out in each test.
use std::process::Abort;

/// What is tested of the row of this place in its table holds; if not, the message has the place.
pub(crate) fn assert_row(rt: &impl Abort, place: usize, holds: bool) {
    assert!(rt; holds, "row {place}");
}
