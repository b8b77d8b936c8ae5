//! Tags in their order, and refusals as they are printed.
use std::alloc::Global;
use std::process::Abort;
use tag::{Refusal, Tag};

fn prints_tag(rt: &impl Abort, alloc: Global, tag: Tag, expected: &str) -> bool {
    let text = format!(in alloc; "{tag}").expect(rt, "a text");
    text.as_str() == expected
}

#[test]
fn orders_tags_by_number_and_then_by_call(rt: HostRuntime) {
    let first = Tag { number: 1, call: 9 };
    let second = first.next(1);
    assert!(rt; Tag::OPENING.is_below(first) && !second.is_below(first));
    assert!(rt; first.later(second) == second && first.is(first));
    assert!(rt; prints_tag(&rt, rt.alloc(), second, "2.1"));
}

fn prints_refusal(rt: &impl Abort, alloc: Global, refusal: Refusal, expected: &str) -> bool {
    let text = format!(in alloc; "{refusal}").expect(rt, "a text");
    text.as_str() == expected
}

#[test]
fn prints_refusals(rt: HostRuntime) {
    assert!(rt; prints_refusal(&rt, rt.alloc(), Refusal::BadPieces, "15 BadPieces"));
    assert!(rt; Refusal::Stranger.number() == 17 && Refusal::Full.name() == "Full");
}
