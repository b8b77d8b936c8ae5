//! A write and a read whose messages are all chosen out of their range.

use crate::acts::{ENOUGH_TURNS, HELLO, put_seat, read, take_seat, write};
use crate::ends::{has_value, is_answered};
use crate::scene::{Play, Scene, perform};
use crate::servers::Servers;
use bytes::Bytes;
use client::{Chooser, Seat, Store, StoreName};
use std::process::Abort;
use std::sync::Wait;
use std::thread::Threads;

/// Returns the greatest number there is.
#[derive(Clone, Copy)]
struct Greatest;

impl Chooser for Greatest {
    fn choose(&mut self, _below: usize) -> usize {
        usize::MAX
    }
}

fn writes_and_reads<L: StoreName, R: Threads + Wait + Abort + Sync>(
    rt: &R,
    store: &Store<L>,
    seat: &mut Seat<L>,
) {
    let value = Bytes::from_static(HELLO);
    is_answered(
        rt,
        write(rt, store, seat, value, &mut Greatest, ENOUGH_TURNS),
    );
    has_value(
        rt,
        read(rt, store, seat, &mut Greatest, ENOUGH_TURNS),
        HELLO,
    );
}

pub(crate) fn chooses_the_greatest<L: StoreName, R: Threads + Wait + Abort + Sync>(
    rt: &R,
    store: &Store<L>,
    seats: &mut Vec<Seat<L>>,
) {
    let mut seat = take_seat(rt, seats);
    writes_and_reads(rt, store, &mut seat);
    put_seat(rt, seats, seat);
}

#[test]
fn a_store_of_the_greatest_choices(rt: HostRuntime) {
    perform(
        &rt,
        rt.alloc(),
        Play {
            scene: Scene::ChoosesTheGreatest,
            servers: Servers::KeepAll,
            seats: 1,
            workers: 0,
            closing: Ok(2),
            calls: 2,
        },
    );
}
