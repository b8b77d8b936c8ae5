//! What tests do to an object, step by step.

use bytes::Bytes;
use decoder::decode;
use encoder::{Coded, encode};
use layout::Layout;
use piece::Piece;
use record::Want;
use register::{Act, Register};
use std::alloc::Global;
use std::process::Abort;
use tag::{CallId, Refusal, Stamp};

// What is done to an object, each at a step of its own.
#[derive(Clone, Copy)]
pub(crate) enum Action {
    Read,
    Write(&'static [u8]),
    // A write of so many zeros.
    WriteZeros(usize),
    Move(u8, &'static [u8]),
    Advance(u64),
    Post(u64),
    // The pieces of this text for a layout of this k and n.
    Supply(u64, u8, u8, &'static [u8]),
    // What two of four pieces of this text give, those of the members from this one on.
    Settle(u64, &'static [u8], u8),
    Answer(u64),
    Serve,
    Take,
    Lose,
    Repeat,
    // What the call wants.
    Turn(u64),
}

fn write_zeros(alloc: Global, len: usize) -> Result<Act, Refusal> {
    Ok(Act::CallWrite(Bytes::from_vec(vec![in alloc; 0; len]?)?))
}

fn move_to(k: u8, members: &[u8]) -> Result<Act, Refusal> {
    Ok(Act::CallMove(Layout::new(k, members)?))
}

fn supply(alloc: Global, call: CallId, k: u8, n: u8, value: Bytes) -> Result<Act, Refusal> {
    Ok(Act::Supply(call, encode(alloc, k, n, value)?))
}

fn push_two(pieces: &mut Vec<Piece>, coded: &Coded, first: u8) -> Result<(), Refusal> {
    for member in first..coded.n() {
        if pieces.len() < 2 {
            pieces.push(coded.piece_at(member).clone()?)?;
        }
    }
    Ok(())
}

fn two_pieces(alloc: Global, text: &'static [u8], first: u8) -> Result<Vec<Piece>, Refusal> {
    let coded = encode(alloc, 2, 4, Bytes::from_static(text))?;
    let mut pieces = Vec::new(alloc);
    push_two(&mut pieces, &coded, first)?;
    Ok(pieces)
}

fn settle(alloc: Global, call: CallId, text: &'static [u8], first: u8) -> Result<Act, Refusal> {
    let Ok(len) = u32::try_from(text.len()) else {
        return Err(Refusal::TooLong);
    };
    let pieces = two_pieces(alloc, text, first)?;
    Ok(Act::Settle(call, decode(alloc, 2, len, pieces)?))
}

fn settle_fetched(
    alloc: Global,
    object: &Register,
    call: CallId,
    k: u8,
    len: u32,
) -> Result<Act, Refusal> {
    Ok(Act::Settle(call, decode(alloc, k, len, object.pieces(call)?)?))
}

fn wanted(alloc: Global, object: &Register, call: CallId) -> Result<Act, Refusal> {
    match object.want(call)? {
        Want::Advance => Ok(Act::Advance(call)),
        Want::Supply { .. } => {
            let (value, k, n) = object.value_to_code(call)?;
            supply(alloc, call, k, n, value)
        }
        Want::Settle { k, len } => settle_fetched(alloc, object, call, k, len),
        Want::Answer => Ok(Act::Answer(call)),
        Want::Again => Ok(Act::Again(call)),
        Want::Replies | Want::Done => Err(Refusal::Stuck),
    }
}

fn act_of(alloc: Global, object: &Register, action: Action) -> Result<Act, Refusal> {
    match action {
        Action::Read => Ok(Act::CallRead),
        Action::Write(text) => Ok(Act::CallWrite(Bytes::from_static(text))),
        Action::WriteZeros(len) => write_zeros(alloc, len),
        Action::Move(k, members) => move_to(k, members),
        Action::Advance(call) => Ok(Act::Advance(call)),
        Action::Post(call) => Ok(Act::Post(call)),
        Action::Supply(call, k, n, text) => supply(alloc, call, k, n, Bytes::from_static(text)),
        Action::Settle(call, text, first) => settle(alloc, call, text, first),
        Action::Answer(call) => Ok(Act::Answer(call)),
        Action::Serve => Ok(Act::Serve(0)),
        Action::Take => Ok(Act::Take(0)),
        Action::Lose => Ok(Act::Lose(0)),
        Action::Repeat => Ok(Act::Repeat(0)),
        Action::Turn(call) => wanted(alloc, object, call),
    }
}

// Does this, as its own step, and answers the refusal that it met.
fn carry_out(
    rt: &impl Abort,
    alloc: Global,
    object: &mut Register,
    action: Action,
) -> Option<Refusal> {
    match act_of(alloc, object, action) {
        Ok(act) => take_step(rt, object, act),
        Err(refusal) => Some(refusal),
    }
}

fn take_step(rt: &impl Abort, object: &mut Register, act: Act) -> Option<Refusal> {
    assert!(rt; object.last() < 1_000_000);
    let now = object.last() + 1;
    object.act(act, 7, now).err()
}

// The last step, how many messages wait, and the bytes that wait and are stored.
fn shown(object: &Register) -> (Stamp, usize, u64, u64) {
    (
        object.last(),
        object.mail_view().len(),
        object.mailed(),
        object.stored_in_all(),
    )
}

// Does this. Where memory is refused nothing has changed, and it is done again.
fn insist(
    rt: &impl Abort,
    alloc: Global,
    object: &mut Register,
    action: Action,
) -> Option<Refusal> {
    let before = shown(object);
    let met = carry_out(rt, alloc, object, action);
    if met != Some(Refusal::NoMemory) {
        return met;
    }
    assert_eq!(rt; shown(object), before);
    carry_out(rt, alloc, object, action)
}

// Does one after another, each with the refusal that is written beside it.
pub(crate) fn play(
    rt: &impl Abort,
    alloc: Global,
    object: &mut Register,
    actions: &[(Action, Option<Refusal>)],
) {
    for (action, expected) in actions {
        let met = insist(rt, alloc, object, *action);
        assert_eq!(rt; met, *expected);
    }
}

// Serves and takes what waits at the head of the mail, until nothing waits.
pub(crate) fn deliver(rt: &impl Abort, alloc: Global, object: &mut Register) {
    for _ in 0..64 {
        if object.mail_view().is_empty() {
            break;
        }
        play(
            rt,
            alloc,
            object,
            &[(Action::Serve, None), (Action::Take, None)],
        );
    }
}

// So many turns of a call, each once all is delivered.
pub(crate) fn go_on(
    rt: &impl Abort,
    alloc: Global,
    object: &mut Register,
    call: CallId,
    turns: u32,
) {
    for _ in 0..turns {
        deliver(rt, alloc, object);
        play(rt, alloc, object, &[(Action::Turn(call), None)]);
    }
}
