//! The phases of a move, of a write with the next tag, and of a read that goes on.
use crate::same::assert_row;
use bank::{Answer, Kind, Reply, Status};
use bytes::Bytes;
use call::{begun_at, due, first_stage, greatest_tag, next_phase, passed, stage_tag};
use mail::{Ask, Body, Message, Phase};
use record::{CallKind, Stage};
use std::alloc::Global;
use std::process::Abort;
use tag::Tag;

const FIRST: Tag = Tag { number: 1, call: 1 };

// What a member answers that knows the first tag, without its piece, and a final pointer.
fn answer_to(kind: Kind) -> Answer {
    match kind {
        Kind::Next => Answer::Pointer(Status::Final),
        Kind::Query => Answer::Greatest(FIRST),
        Kind::Fetch(_) => Answer::Piece(None),
        Kind::Spread(_) | Kind::PreWrite(_) | Kind::Finalize(_) => Answer::Done,
    }
}

// The only member's reply to a phase of this kind.
fn reply_to(kind: Kind, position: u32) -> Message {
    Message {
        call: 2,
        phase: 1,
        position,
        member: 0,
        body: Body::Reply {
            kind,
            reply: Reply {
                step: 6,
                answer: answer_to(kind),
            },
        },
    }
}

// A phase that this member's reply completes; a fetch needs so many pieces.
fn complete(rt: &impl Abort, alloc: Global, kind: Kind, position: u32, needed: u8) -> Phase {
    let ask = Ask {
        call: 2,
        number: 1,
        kind,
        position,
    };
    let mut phase = Phase::new(alloc, ask, 1, 1, needed, 5).expect(rt, "a phase");
    phase.take(reply_to(kind, position), 7);
    phase
}

// One more phase of a move is done, which needs no pieces.
fn add(rt: &impl Abort, alloc: Global, done: &mut Vec<Phase>, kind: Kind, position: u32) {
    done.push(complete(rt, alloc, kind, position, 0))
        .expect(rt, "room for a phase");
}

// Whether this is what is due.
fn is_phase(due: Option<(Kind, u32)>, kind: Kind, position: u32) -> bool {
    due == Some((kind, position))
}

// Whether this is the stage, and its tag.
fn is_stage(stage: Stage, expected: Stage, tag: Option<Tag>) -> bool {
    stage == expected && stage_tag(stage) == tag
}

// Whether a move from this position, of which these phases are done, has this phase next.
fn goes_on(from: u32, done: &[Phase], kind: Kind, position: u32) -> bool {
    from < 9 && is_phase(next_phase(from, done), kind, position)
}

static PHASES: [(Kind, u32); 6] = [
    (Kind::Spread(Status::Pending), 4),
    (Kind::Query, 4),
    (Kind::Fetch(FIRST), 4),
    (Kind::PreWrite(FIRST), 5),
    (Kind::Finalize(FIRST), 5),
    (Kind::Spread(Status::Final), 4),
];

#[test]
fn moves_in_six_phases(rt: HostRuntime) {
    let mut done = Vec::new(rt.alloc());
    for place in 0..PHASES.len() {
        let (kind, position) = PHASES[place];
        assert_row(&rt, place, goes_on(4, &done, kind, position));
        add(&rt, rt.alloc(), &mut done, kind, position);
    }
    assert!(rt; next_phase(4, &done) == None);
}

const QUERY: Stage = Stage::QueryFrom {
    position: 0,
    last: 0,
    greatest: Tag::OPENING,
    shown_at: 0,
};

#[test]
fn writes_with_the_next_tag(rt: HostRuntime) {
    let write = CallKind::Write(Bytes::new());
    let query = complete(&rt, rt.alloc(), Kind::Query, 0, 0);
    assert!(rt; greatest_tag(query.replies()).number < 9);
    let stage = passed(&write, 2, QUERY, &query);
    let tag = Tag { number: 2, call: 2 };
    assert!(rt; is_stage(stage, Stage::PreWriteAt { last: 0, tag }, Some(tag)));
    assert!(rt; is_phase(due(stage), Kind::PreWrite(tag), 0));
}

const SPREAD: Stage = Stage::ReadSpread {
    position: 5,
    finalized: 5,
    status: Status::Final,
};

#[test]
fn reads_on_where_a_pointer_was_found(rt: HostRuntime) {
    let stage = first_stage(&CallKind::Read, 0);
    assert!(rt; is_phase(due(begun_at(stage, 5)), Kind::Next, 5));
    let next = complete(&rt, rt.alloc(), Kind::Next, 5, 0);
    assert!(rt;
        is_stage(
            passed(&CallKind::Read, 2, begun_at(stage, 5), &next),
            SPREAD,
            None
        )
    );
}

#[test]
fn reads_the_next_position_once_it_has_spread(rt: HostRuntime) {
    let told = complete(&rt, rt.alloc(), Kind::Spread(Status::Final), 5, 0);
    let next = Stage::ReadNext {
        position: 6,
        finalized: 6,
    };
    assert!(rt; is_stage(passed(&CallKind::Read, 2, SPREAD, &told), next, None));
}

const FETCH: Stage = Stage::FetchAt {
    shown_at: 3,
    last: 4,
    tag: FIRST,
};

#[test]
fn begins_anew_where_pieces_are_lacking(rt: HostRuntime) {
    let fetch = complete(&rt, rt.alloc(), Kind::Fetch(FIRST), 3, 1);
    let stage = passed(&CallKind::Read, 2, FETCH, &fetch);
    assert!(rt; is_stage(stage, Stage::ReadBegin, None));
    assert!(rt; is_phase(due(begun_at(stage, 3)), Kind::Next, 3));
}

// A move from position 3, whose fetch lacks pieces, queries anew.
#[test]
fn queries_anew_where_pieces_are_lacking(rt: HostRuntime) {
    let mut done = Vec::new(rt.alloc());
    add(&rt, rt.alloc(), &mut done, Kind::Spread(Status::Pending), 3);
    add(&rt, rt.alloc(), &mut done, Kind::Query, 3);
    let fetch = complete(&rt, rt.alloc(), Kind::Fetch(FIRST), 3, 1);
    done.push(fetch).expect(&rt, "room for a phase");
    assert!(rt; goes_on(3, &done, Kind::Query, 3));
}
