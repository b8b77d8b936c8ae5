//! A reading over three positions, and what replies show.
use bank::{Answer, Kind, Reply, Status};
use call::{Reading, greatest_status, greatest_tag};
use mail::Taken;
use tag::Tag;

fn reply(member: u8, answer: Answer) -> Taken {
    Taken {
        member,
        reply: Reply { step: 5, answer },
        step: 6,
    }
}

fn asks(reading: Reading, kind: Kind, position: u32) -> bool {
    reading.next_phase() == Some((kind, position))
}

#[test]
fn reads_three_positions(rt: HostRuntime) {
    let first = Reading::start(0);
    assert!(rt; asks(first, Kind::Next, 0));
    let second = first.found(Status::Final);
    assert!(rt; asks(second, Kind::Spread(Status::Final), 0));
    let third = second.spread().found(Status::Pending);
    assert!(rt; asks(third, Kind::Spread(Status::Pending), 1) && third.last() == None);
    let last = third.spread().found(Status::Unset);
    assert!(rt; last.next_phase() == None && last.last_final() == 1 && last.last() == Some(2));
}

fn pointers() -> [Taken; 3] {
    [
        reply(2, Answer::Pointer(Status::Pending)),
        reply(0, Answer::Pointer(Status::Final)),
        reply(1, Answer::Pointer(Status::Unset)),
    ]
}

const LATER: Tag = Tag { number: 2, call: 1 };

fn tags() -> [Taken; 3] {
    [
        reply(0, Answer::Greatest(Tag { number: 1, call: 7 })),
        reply(1, Answer::Greatest(LATER)),
        reply(3, Answer::Greatest(Tag::OPENING)),
    ]
}

fn show(replies: &[Taken], status: Status, tag: Tag) -> bool {
    greatest_status(replies) == status && greatest_tag(replies).is(tag)
}

#[test]
fn finds_the_greatest_that_replies_show(rt: HostRuntime) {
    assert!(rt; show(&pointers(), Status::Final, Tag::OPENING));
    assert!(rt; show(&tags(), Status::Unset, LATER));
    assert!(rt; show(&[], Status::Unset, Tag::OPENING));
}
