//! What the receipt of a move tells.

use crate::acts::{ENOUGH_TURNS, HELLO, put_seat, take_seat, write};
use crate::ends::is_answered;
use crate::scene::{Play, Scene, perform};
use crate::servers::Servers;
use bytes::Bytes;
use client::{Admin, First, Operation, Receipt, Seat, Store, StoreName};
use std::process::Abort;
use std::sync::Wait;
use std::thread::Threads;

// Four steps made the servers. With one member each phase has two messages, a request and a reply, and each is handled
// in one step. The write has five phases, of which the first begins with the call: it is called at step 5, and its
// phases end at the steps 7, 10, 13, 16 and 19; it is answered at step 20. The move has six phases, and settles a value
// after the third: it is called at step 21, its phases end at the steps 23, 26, 29, 33, 36 and 39, and it is answered
// at step 40.
fn tells<L: StoreName, R: Threads + Wait + Abort + Sync>(
    rt: &R,
    store: &Store<L>,
    admin: &mut Admin<L>,
) {
    let told = store.move_object(rt, admin, "a", 1, &mut First, ENOUGH_TURNS);
    let expected = Receipt {
        object: 1,
        kind: Operation::Move,
        call: 2,
        called: 21,
        answered: 40,
        value: None,
    };
    assert_eq!(rt; told, Ok(expected));
}

pub(crate) fn tells_of_a_move<L: StoreName, R: Threads + Wait + Abort + Sync>(
    rt: &R,
    store: &Store<L>,
    admin: &mut Admin<L>,
    seats: &mut Vec<Seat<L>>,
) {
    let mut seat = take_seat(rt, seats);
    let hello = Bytes::from_static(HELLO);
    is_answered(
        rt,
        write(rt, store, &mut seat, hello, &mut First, ENOUGH_TURNS),
    );
    tells(rt, store, admin);
    put_seat(rt, seats, seat);
}

#[test]
fn the_receipt_of_a_move(rt: HostRuntime) {
    perform(
        &rt,
        rt.alloc(),
        Play {
            scene: Scene::TellsOfAMove,
            servers: Servers::Single,
            seats: 1,
            workers: 0,
            closing: Ok(1),
            calls: 2,
        },
    );
}
