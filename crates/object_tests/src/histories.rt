//! Histories made by hand, what `check` returns for them, and what `order_by_tags` returns for calls made by hand.
ghost use Rattle.std.specs.Prelude.{◌≡◌};

use bytes::Bytes;
use history::{check, order_by_tags};
use record::{Entry, Operation, TaggedCall};
use std::alloc::Global;
use std::process::Abort;
use tag::{CallId, Stamp, Tag};

/// What is seen of a call: its operation, the steps of its call and its answer, and its value.
type Seen = (Operation, Stamp, Option<Stamp>, &'static [u8]);

const READ: Operation = Operation::Read;

const WRITE: Operation = Operation::Write;

/// Returns the entries of these calls, numbered from 1.
fn entries_of(rt: &impl Abort, alloc: Global, calls: &[Seen]) -> Vec<Entry> {
    let mut entries = Vec::new(alloc);
    for (place, seen) in calls.iter().enumerate() {
        let (operation, called, answered, value) = *seen;
        let entry = Entry {
            call: place as u64 + 1,
            kind: operation,
            called,
            answered,
            value: Some(Bytes::from_static(value)),
        };
        entries.push(entry).expect(rt, "room for an entry");
    }
    entries
}

/// Returns the list of at most four of the calls 1 to 4 whose digits to the base 5 these are. A digit 0 names no call.
fn list_of(rt: &impl Abort, alloc: Global, code: u64) -> Vec<u64> {
    let mut list = Vec::new(alloc);
    for digit in [code % 5, code / 5 % 5, code / 25 % 5, code / 125] {
        if digit > 0 {
            list.push(digit).expect(rt, "room for a call");
        }
    }
    list
}

/// Returns whether some list of at most four of these calls passes.
fn is_atomic(rt: &impl Abort, alloc: Global, calls: &[Seen]) -> bool {
    let entries = entries_of(rt, alloc, calls);
    let mut found = false;
    for code in 0..625u64 {
        found = found || check(&entries, &list_of(rt, alloc, code));
    }
    found
}

/// Histories of four calls, and whether each is atomic.
const HISTORIES: &[(&str, &[Seen], bool)] = &[
    (
        "a stale read",
        &[
            (WRITE, 1, Some(2), b"A"),
            (WRITE, 3, Some(4), b"B"),
            (READ, 5, Some(6), b"A"),
            (READ, 7, Some(8), b"B"),
        ],
        false,
    ),
    (
        "a lost acknowledged write",
        &[
            (WRITE, 1, Some(2), b"A"),
            (READ, 3, Some(4), b""),
            (READ, 5, Some(6), b""),
            (WRITE, 7, None, b"B"),
        ],
        false,
    ),
    (
        "a new value and then an old one",
        &[
            (WRITE, 1, Some(2), b"A"),
            (WRITE, 3, None, b"B"),
            (READ, 4, Some(5), b"B"),
            (READ, 6, Some(7), b"A"),
        ],
        false,
    ),
    (
        "a value never written",
        &[
            (WRITE, 1, Some(2), b"A"),
            (WRITE, 3, Some(4), b"B"),
            (READ, 5, Some(6), b"C"),
            (WRITE, 7, None, b"D"),
        ],
        false,
    ),
    (
        "an old value and then a new one",
        &[
            (WRITE, 1, Some(2), b"A"),
            (WRITE, 3, None, b"B"),
            (READ, 4, Some(5), b"A"),
            (READ, 6, Some(7), b"B"),
        ],
        true,
    ),
];

fn assert_atomic(rt: &impl Abort, alloc: Global, name: &str, calls: &[Seen], expected: bool) {
    let is_atomic = is_atomic(rt, alloc, calls);
    assert!(rt; is_atomic == expected, "{name}");
}

fn assert_each(rt: &impl Abort, alloc: Global, histories: &[(&str, &[Seen], bool)]) {
    for (name, calls, expected) in histories {
        assert_atomic(rt, alloc, name, calls, *expected);
    }
}

#[test]
fn tells_atomic_histories_from_others(rt: HostRuntime) {
    assert_each(&rt, rt.alloc(), HISTORIES);
}

fn tagged(
    call: CallId,
    kind: Operation,
    tag: Option<Tag>,
    called: Stamp,
    is_answered: bool,
) -> TaggedCall
    ensures call { result.call ≡ call }
    ensures called { result.called ≡ called }
{
    TaggedCall {
        call,
        kind,
        tag,
        called,
        is_answered,
    }
}

#[test]
fn orders_by_tags(rt: HostRuntime) {
    let first = Some(Tag { number: 1, call: 1 });
    let lost = Some(Tag { number: 2, call: 4 });
    let calls = [
        tagged(1, WRITE, first, 1, false), // call 3 returned its value
        tagged(2, READ, Some(Tag::OPENING), 2, true),
        tagged(3, READ, first, 4, true),
        tagged(4, WRITE, lost, 5, false),
        tagged(5, READ, lost, 7, false),
        tagged(6, Operation::Move, first, 8, true),
        tagged(7, WRITE, Some(Tag { number: 2, call: 3 }), 9, true),
        tagged(8, WRITE, None, 10, false),
    ];
    let order = order_by_tags(rt.alloc(), &calls).expect(&rt, "an order");
    assert!(rt; order.as_slice() == [2, 1, 3, 7].as_slice());
}
