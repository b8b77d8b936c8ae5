use crate::acts::{assert_value, object};
use acts::{Action, deliver, go_on, play};
use register::Register;
use std::alloc::Global;
use std::process::Abort;
use tag::{CallId, LONGEST_VALUE, Refusal, Tag};

mod acts;

const HELLO: &[u8] = b"hello";

/// Returns an object whose servers 0 to 3 hold a piece each, any two of which give the value.
fn four_servers(rt: &impl Abort, alloc: Global) -> Register {
    object(rt, alloc, 2, &[0, 1, 2, 3])
}

const IN_ORDER: &[(Action, Option<Refusal>)] = &[
    (Action::Serve, Some(Refusal::NoMessage)),
    (Action::Take, Some(Refusal::NoMessage)),
    (Action::Lose, Some(Refusal::NoMessage)),
    (Action::Repeat, Some(Refusal::NoMessage)),
    (Action::Advance(0), Some(Refusal::NoCall)),
    (
        Action::WriteZeros(LONGEST_VALUE + 1),
        Some(Refusal::TooLong),
    ),
    (Action::Turn(1), Some(Refusal::NoCall)),
    (Action::Post(1), Some(Refusal::NoCall)),
    (Action::Supply(1, 2, 4, HELLO), Some(Refusal::NoCall)),
    (Action::Settle(1, HELLO, 0), Some(Refusal::NoCall)),
    (Action::Answer(1), Some(Refusal::NoCall)),
    (Action::Write(HELLO), None),
    (Action::Take, Some(Refusal::NotNow)),
    (Action::Advance(1), Some(Refusal::NotNow)),
    (Action::Supply(1, 2, 4, b"hellO"), Some(Refusal::NotNow)),
    (Action::Settle(1, b"hellO", 0), Some(Refusal::NotNow)),
    (Action::Answer(1), Some(Refusal::NotNow)),
    (Action::Move(3, &[0, 1, 2, 3, 4]), None),
    (Action::Move(1, &[0]), Some(Refusal::MovePending)),
    (Action::Serve, None),
    (Action::Serve, Some(Refusal::NotNow)),
    (Action::Take, None),
];

#[test]
fn refuses_in_order(rt: HostRuntime) {
    let mut object = four_servers(&rt, rt.alloc());
    play(&rt, rt.alloc(), &mut object, IN_ORDER);
}

const OPEN_WRITE_AND_MOVE: &[(Action, Option<Refusal>)] = &[
    (Action::Write(HELLO), None),
    (Action::Move(3, &[0, 1, 2, 3, 4]), None),
];

const OTHER_PIECES: &[(Action, Option<Refusal>)] = &[
    (Action::Advance(1), Some(Refusal::NotNow)),
    (Action::Post(1), Some(Refusal::NotNow)),
    (Action::Supply(1, 2, 4, b"hellO"), Some(Refusal::WrongCode)),
    (Action::Supply(1, 1, 4, HELLO), Some(Refusal::WrongCode)),
    (Action::Supply(1, 2, 5, HELLO), Some(Refusal::WrongCode)),
    (Action::Supply(1, 3, 5, HELLO), Some(Refusal::WrongCode)),
    (Action::Supply(1, 2, 4, HELLO), None),
    (Action::Post(1), Some(Refusal::NotNow)),
];

/// The next position has a fifth member, there is no third position, and the write has its tag.
fn assert_moving(rt: &impl Abort, object: &Register) {
    assert!(rt; object.is_moving());
    assert!(rt; object.server(1, 4) == Some(4) && object.server(2, 0) == None);
    assert!(rt; object.tag_view(1) == Some(Tag { number: 1, call: 1 }));
}

#[test]
fn refuses_pieces_of_another_value(rt: HostRuntime) {
    let mut object = four_servers(&rt, rt.alloc());
    play(&rt, rt.alloc(), &mut object, OPEN_WRITE_AND_MOVE);
    go_on(&rt, rt.alloc(), &mut object, 1, 1);
    deliver(&rt, rt.alloc(), &mut object);
    play(&rt, rt.alloc(), &mut object, OTHER_PIECES);
    assert_moving(&rt, &object);
}

/// Returns whether nothing is shown of this call.
fn shows_nothing(object: &Register, call: CallId) -> bool {
    matches!(object.want(call), Err(Refusal::NoCall))
        && matches!(object.call_view(call), Err(Refusal::NoCall))
        && object.value_view(call).is_none()
}

/// Returns whether nothing is made of this call.
fn makes_nothing(object: &Register, call: CallId) -> bool {
    matches!(object.value_to_code(call), Err(Refusal::NoCall))
        && matches!(object.pieces(call), Err(Refusal::NoCall))
}

#[test]
fn shows_nothing_of_no_call(rt: HostRuntime) {
    let object = four_servers(&rt, rt.alloc());
    for call in 0..2u64 {
        assert!(rt; shows_nothing(&object, call));
        assert!(rt; makes_nothing(&object, call));
    }
}

const SETTLES: &[(Action, Option<Refusal>)] = &[
    (Action::Advance(2), Some(Refusal::NotNow)),
    (Action::Settle(2, b"hellO", 0), Some(Refusal::WrongCode)),
    // The reply of member 3 came when the quorum was there.
    (Action::Settle(2, HELLO, 2), Some(Refusal::WrongCode)),
    // Pieces made elsewhere that equal those that were fetched.
    (Action::Settle(2, HELLO, 1), None),
    (Action::Settle(2, HELLO, 1), Some(Refusal::NotNow)),
];

/// A write up to its answer, and the read behind it up to its fetch.
fn fetched(rt: &impl Abort, alloc: Global) -> Register {
    let mut object = four_servers(rt, alloc);
    play(rt, alloc, &mut object, &[(Action::Write(HELLO), None)]);
    go_on(rt, alloc, &mut object, 1, 5);
    play(rt, alloc, &mut object, &[(Action::Read, None)]);
    go_on(rt, alloc, &mut object, 2, 2);
    deliver(rt, alloc, &mut object);
    object
}

#[test]
fn settles_what_was_fetched(rt: HostRuntime) {
    let mut object = fetched(&rt, rt.alloc());
    play(&rt, rt.alloc(), &mut object, SETTLES);
    assert_value(&rt, object.value_view(2), HELLO);
}
