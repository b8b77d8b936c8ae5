//! Each text that is no cluster file is refused with its first fault.
use super::movers::MOVERS;
use super::rows::{ROWS, Row};
use crate::checks::assert_text;
use cluster_file::{FileError, FileFault, read_cluster_file};
use std::alloc::Global;
use std::process::Abort;

fn fault_of(alloc: Global, text: &[u8]) -> Option<FileFault> {
    match read_cluster_file(alloc, text).err() {
        Some(FileError::Fault(fault)) => Some(fault),
        _ => None,
    }
}

fn assert_refused(rt: &impl Abort, alloc: Global, row: &Row) {
    let wanted = FileFault {
        line: row.line,
        word: row.word,
        fault: row.fault,
    };
    assert!(rt; fault_of(alloc, row.text) == Some(wanted), "{}", row.story);
}

#[test]
fn each_is_refused_at_its_place(rt: HostRuntime) {
    for row in &ROWS {
        assert_refused(&rt, rt.alloc(), row);
    }
}

#[test]
fn movers_are_refused_at_their_place(rt: HostRuntime) {
    for row in &MOVERS {
        assert_refused(&rt, rt.alloc(), row);
    }
}

#[test]
fn a_fault_is_printed_with_its_place(rt: HostRuntime) {
    let read = read_cluster_file(rt.alloc(), b"nodes 1 2\nk 2\n");
    let error = read.err().expect(&rt, "a fault");
    let text = format!(in rt.alloc(); "{error}").expect(&rt, "memory");
    assert_text(&rt, text.as_str(), "line 2, word 1: setting `n` missing");
}

#[test]
fn a_mover_that_is_no_node_is_named_so(rt: HostRuntime) {
    let read = read_cluster_file(
        rt.alloc(),
        b"nodes 1\nn 1\nk 1\ndelta 0\nmover 2\nlater\nticks 1\n",
    );
    let error = read.err().expect(&rt, "a fault");
    let text = format!(in rt.alloc(); "{error}").expect(&rt, "memory");
    assert_text(
        &rt,
        text.as_str(),
        "line 5, word 2: the mover is named neither under nodes nor under later",
    );
}
