//! How a call and a test end.

use crate::acts::Answer;
use bytes::Bytes;
use client::{Receipt, Seat, Store, StoreName};
use cluster::Cluster;
use std::process::Abort;
use tag::Refusal;

/// What a close tells: so many receipts, or why it is refused and how many seats it gives back.
pub(crate) type Closing = Result<u64, (Refusal, usize)>;

fn close_all<L: StoreName>(store: Store<L>, seats: Vec<Seat<L>>) -> (Closing, Cluster) {
    match store.close(seats) {
        Ok(closed) => (Ok(closed.receipts), closed.cluster),
        Err(left) => (Err((left.refusal, left.seats.len())), left.cluster),
    }
}

/// Closes a store. Checks that the close returns `closing`, and that the cluster then has this many calls.
pub(crate) fn close<L: StoreName>(
    rt: &impl Abort,
    store: Store<L>,
    seats: Vec<Seat<L>>,
    closing: Closing,
    calls: u64,
) -> Cluster {
    let (told, cluster) = close_all(store, seats);
    assert!(rt; told == closing);
    are_equal(rt, cluster.calls(), calls);
    cluster
}

pub(crate) fn are_equal(rt: &impl Abort, number: u64, expected: u64) {
    assert_eq!(rt; number, expected);
}

pub(crate) fn is_refused(rt: &impl Abort, answer: Answer, refusal: Refusal) {
    assert_eq!(rt; answer, Err(refusal));
}

pub(crate) fn receipt_of(rt: &impl Abort, answer: Answer) -> Receipt {
    answer.expect(rt, "an answer")
}

pub(crate) fn is_answered(rt: &impl Abort, answer: Answer) {
    let _receipt = receipt_of(rt, answer);
}

/// Returns the step at which a call began that was answered with this value.
pub(crate) fn called_with(rt: &impl Abort, answer: Answer, value: &'static [u8]) -> u64 {
    let receipt = receipt_of(rt, answer);
    is_value(rt, &receipt.value, &Some(Bytes::from_static(value)));
    receipt.called
}

pub(crate) fn has_value(rt: &impl Abort, answer: Answer, value: &'static [u8]) {
    called_with(rt, answer, value);
}

fn is_value(rt: &impl Abort, value: &Option<Bytes>, expected: &Option<Bytes>) {
    assert_eq!(rt; *value, *expected);
}
