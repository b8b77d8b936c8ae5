//! The log in a folder, over a folder in memory; a log of a machine that goes on; and a log and a writer that stop
//! after so many calls.
use crate::memory::MemoryFolder;
use node_store::{
    FolderLog, Log, RewritableLog, StoppingLog, StoppingWriter, StoredLog, SurvivingLog,
};
use std::alloc::Global;
use std::io::{Read, Write};
use std::process::Abort;

// A log with these bytes.
fn opened<R: Abort>(
    rt: &R,
    alloc: Global,
    bytes: &[u8],
    keeps_renames: bool,
) -> FolderLog<MemoryFolder> {
    let mut found = Vec::new(alloc);
    found.extend_from_slice(bytes).expect(rt, "memory");
    let folder = MemoryFolder::new(alloc, found, keeps_renames);
    FolderLog::open(folder).expect(rt, "memory")
}

// The log has these bytes.
fn has<R: Abort>(rt: &R, alloc: Global, log: &FolderLog<MemoryFolder>, bytes: &[u8]) {
    let mut reader = log.read().expect(rt, "memory");
    let mut all = Vec::new(alloc);
    let _ = reader.read_to_end(&mut all).expect(rt, "memory");
    assert_eq!(rt; all.as_slice(), bytes);
}

#[test]
fn cuts_and_appends(rt: HostRuntime) {
    let mut log = opened(&rt, rt.alloc(), b"first, second", false);
    assert_eq!(&rt; log.cut(7).expect(&rt, "memory"), 6);
    assert_eq!(&rt; log.cut(20).expect(&rt, "memory"), 0);
    log.append(b"third").expect(&rt, "memory");
    log.sync().expect(&rt, "memory");
    has(&rt, rt.alloc(), &log, b"first, third");
}

// A log is exchanged for one with other bytes.
fn exchange<R: Abort>(rt: &R, alloc: Global, keeps_renames: bool) {
    let mut log = opened(rt, alloc, b"old", keeps_renames);
    let mut second = log.begin_second().expect(rt, "memory");
    second.append(b"new").expect(rt, "memory");
    second.sync().expect(rt, "memory");
    log.put_second(second).expect(rt, "memory");
    has(rt, alloc, &log, b"new");
}

#[test]
fn exchanges(rt: HostRuntime) {
    exchange(&rt, rt.alloc(), false);
    exchange(&rt, rt.alloc(), true);
}

#[test]
fn a_log_survives(rt: HostRuntime) {
    let mut log = SurvivingLog {
        log: opened(&rt, rt.alloc(), b"one, two", false),
    };
    assert_eq!(&rt; log.cut(5).expect(&rt, "memory"), 3);
    log.append(b"three").expect(&rt, "memory");
    log.sync().expect(&rt, "memory");
    has(&rt, rt.alloc(), &log.log, b"one, three");
}

#[test]
fn a_log_survives_an_exchange(rt: HostRuntime) {
    let mut log = SurvivingLog {
        log: opened(&rt, rt.alloc(), b"old", false),
    };
    let mut second = log.begin_second().expect(&rt, "memory");
    second.append(b"new").expect(&rt, "memory");
    second.sync().expect(&rt, "memory");
    log.put_second(second).expect(&rt, "memory");
    log.remove_second().expect(&rt, "memory");
    has(&rt, rt.alloc(), &log.log, b"new");
}

// A log that carries out so many calls, of two appends, a sync and a cut.
fn stop<R: Abort>(rt: &R, alloc: Global, left: u64, bytes: &[u8]) {
    let mut log = StoppingLog {
        log: opened(rt, alloc, b"one", false),
        left,
    };
    assert_eq!(rt; log.append(b", two").is_ok(), left > 0);
    assert_eq!(rt; log.append(b", three").is_ok(), left > 1);
    assert_eq!(rt; log.sync().is_ok(), left > 2);
    assert_eq!(rt; log.cut(2).is_ok(), left > 3);
    has(rt, alloc, &log.log, bytes);
}

#[test]
fn a_log_stops(rt: HostRuntime) {
    stop(&rt, rt.alloc(), 0, b"one");
    stop(&rt, rt.alloc(), 1, b"one, two");
    stop(&rt, rt.alloc(), 3, b"one, two, three");
    stop(&rt, rt.alloc(), 4, b"on");
}

// A log that carries out so many calls is exchanged for one with other bytes.
fn stop_exchange<R: Abort>(rt: &R, alloc: Global, left: u64, bytes: &[u8]) {
    let mut log = StoppingLog {
        log: opened(rt, alloc, b"old", false),
        left,
    };
    let mut second = log.begin_second().expect(rt, "memory");
    second.append(b"new").expect(rt, "memory");
    second.sync().expect(rt, "memory");
    assert_eq!(rt; log.put_second(second).is_ok(), left > 1);
    assert_eq!(rt; log.remove_second().is_ok(), left > 2);
    has(rt, alloc, &log.log, bytes);
}

#[test]
fn an_exchange_stops(rt: HostRuntime) {
    stop_exchange(&rt, rt.alloc(), 1, b"old");
    stop_exchange(&rt, rt.alloc(), 2, b"new");
    stop_exchange(&rt, rt.alloc(), 3, b"new");
}

#[test]
fn a_writer_stops(rt: HostRuntime) {
    let mut output = StoppingWriter {
        writer: Vec::new(rt.alloc()),
        left: 2,
    };
    assert_eq!(&rt; output.write(b"one").expect(&rt, "memory"), 3);
    output.flush().expect(&rt, "memory");
    assert_eq!(&rt; output.write(b"two").is_err(), true);
    assert_eq!(&rt; output.flush().is_err(), true);
    assert_eq!(&rt; output.writer.as_slice(), b"one".as_slice());
}
