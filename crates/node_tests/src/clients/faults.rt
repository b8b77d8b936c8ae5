//! Frames that ask for no command, and why.
use super::samples::{assert_asks, assert_fault, fault_of, frame_of};
use client_commands::{Command, CommandFault, CommandName, read_command};
use frames::Frame;
use std::alloc::Global;
use std::process::Abort;

/// A name of a byte more than is allowed.
const LONG: &[u8] = &[b'n'; 256];

/// Strings, and the fault of their frame.
static FAULTS: [(&[&[u8]], CommandFault); 33] = [
    (&[], CommandFault::UnknownCommand),
    (&[b""], CommandFault::UnknownCommand),
    (&[b"GETS", b"photo"], CommandFault::UnknownCommand),
    (&[b"GE", b"photo"], CommandFault::UnknownCommand),
    (&[b" GET", b"photo"], CommandFault::UnknownCommand),
    (&[b"GET\0", b"photo"], CommandFault::UnknownCommand),
    (&[b"GET"], CommandFault::WrongCount(CommandName::Get)),
    (
        &[b"get", b"photo", b"photo"],
        CommandFault::WrongCount(CommandName::Get),
    ),
    (&[b"SET"], CommandFault::WrongCount(CommandName::Set)),
    (
        &[b"SET", b"photo"],
        CommandFault::WrongCount(CommandName::Set),
    ),
    (
        &[b"SET", b"photo", b"hello", b"FAST"],
        CommandFault::SyntaxError,
    ),
    (
        &[b"PING", b"one", b"two"],
        CommandFault::WrongCount(CommandName::Ping),
    ),
    (&[b"ECHO"], CommandFault::WrongCount(CommandName::Echo)),
    (
        &[b"ECHO", b"one", b"two"],
        CommandFault::WrongCount(CommandName::Echo),
    ),
    (
        &[b"DBSIZE", b"0"],
        CommandFault::WrongCount(CommandName::Dbsize),
    ),
    (&[b"LAYOUT"], CommandFault::WrongCount(CommandName::Layout)),
    (
        &[b"layout", b"one", b"two"],
        CommandFault::WrongCount(CommandName::Layout),
    ),
    (&[b"DEL"], CommandFault::WrongCount(CommandName::Del)),
    (&[b"DEL", LONG], CommandFault::NameTooLong),
    (&[b"del", b"photo", LONG], CommandFault::NameTooLong),
    (&[b"DELE", b"photo"], CommandFault::UnknownCommand),
    (&[b"CLIENT"], CommandFault::WrongCount(CommandName::Client)),
    (
        &[b"CLIENT", b"ID", b"17"],
        CommandFault::WrongCount(CommandName::Client),
    ),
    (
        &[b"CLIENT", b"SETNAME"],
        CommandFault::WrongCount(CommandName::Client),
    ),
    (
        &[b"CLIENT", b"SETINFO", b"LIB-NAME"],
        CommandFault::WrongCount(CommandName::Client),
    ),
    (
        &[b"CLIENT", b"TRACKING", b"ON"],
        CommandFault::UnknownSubcommand,
    ),
    (&[b"MOVE"], CommandFault::WrongCount(CommandName::Move)),
    (
        &[b"MOVE", b"photo"],
        CommandFault::WrongCount(CommandName::Move),
    ),
    (
        &[b"MOVE", b"photo", b"1"],
        CommandFault::WrongCount(CommandName::Move),
    ),
    (
        &[b"MOVE", b"photo", b"1", b"3", b"4", b"3"],
        CommandFault::BadLayout,
    ),
    (&[b"GET", LONG], CommandFault::NameTooLong),
    (&[b"SET", LONG, b"hello"], CommandFault::NameTooLong),
    (&[b"MOVE", LONG, b"x", b"3"], CommandFault::NameTooLong),
];

#[test]
fn faults(rt: HostRuntime) {
    for &(texts, fault) in &FAULTS {
        assert_fault(&rt, rt.alloc(), texts, fault);
    }
}

/// Strings that Redis takes, which a node refuses, and why.
static REFUSED: [(&[&[u8]], CommandFault); 28] = [
    (&[b"SETEX", b"photo", b"10", b"x"], CommandFault::NoExpiry),
    (&[b"psetex"], CommandFault::NoExpiry),
    (&[b"Expire", b"photo", b"10"], CommandFault::NoExpiry),
    (&[b"GETEX", b"photo"], CommandFault::NoExpiry),
    (
        &[b"SET", b"photo", b"x", b"ex", b"10"],
        CommandFault::NoExpiry,
    ),
    (
        &[b"SET", b"photo", b"x", b"KEEPTTL"],
        CommandFault::NoExpiry,
    ),
    (&[b"SET", b"photo", b"x", b"NX"], CommandFault::NoCondition),
    (&[b"SET", b"photo", b"x", b"get"], CommandFault::NoCondition),
    (&[b"SETNX", b"photo", b"x"], CommandFault::NoCondition),
    (&[b"getset", b"photo", b"x"], CommandFault::NoCondition),
    (&[b"APPEND", b"photo", b"x"], CommandFault::NoCondition),
    (&[b"INCR", b"photo"], CommandFault::NoCondition),
    (&[b"MGET", b"photo"], CommandFault::SeveralNames),
    (&[b"MSET", b"photo", b"x"], CommandFault::SeveralNames),
    (&[b"EXISTS", b"a", b"b"], CommandFault::SeveralNames),
    (&[b"HELLO", b"3"], CommandFault::NoProtocol),
    (&[b"HELLO", b"02"], CommandFault::NoProtocol),
    (
        &[b"HELLO", b"2", b"AUTH", b"default"],
        CommandFault::SyntaxError,
    ),
    (
        &[b"HELLO", b"2", b"AUTH", b"nobody", b"word"],
        CommandFault::WrongUser,
    ),
    (
        &[b"HELLO", b"2", b"AUTH", b"default", b"word", b"SETNAME"],
        CommandFault::SyntaxError,
    ),
    (&[b"SELECT", b"1"], CommandFault::NoDatabase),
    (&[b"SELECT", b"00"], CommandFault::NoDatabase),
    (&[b"AUTH", b"word"], CommandFault::NoPassword),
    (&[b"AUTH", b"Default", b"word"], CommandFault::WrongUser),
    (
        &[b"AUTH", b"default", b"word", b"word"],
        CommandFault::SyntaxError,
    ),
    (&[b"AUTH"], CommandFault::WrongCount(CommandName::Auth)),
    (
        &[b"STRLEN", b"a", b"b"],
        CommandFault::WrongCount(CommandName::Strlen),
    ),
    (
        &[b"COMMAND", b"COUNT", b"x"],
        CommandFault::WrongCount(CommandName::Command),
    ),
];

#[test]
fn refused(rt: HostRuntime) {
    for &(texts, fault) in &REFUSED {
        assert_fault(&rt, rt.alloc(), texts, fault);
    }
}

/// Three rows of 85 bytes.
const GET_LONGEST: &str = "Ok(Read { wanted: Value, name: b\"\
    nnnnnnnnnnnnnnnnnnnnnnnnnnnnnnnnnnnnnnnnnnnnnnnnnnnnnnnnnnnnnnnnnnnnnnnnnnnnnnnnnnnnn\
    nnnnnnnnnnnnnnnnnnnnnnnnnnnnnnnnnnnnnnnnnnnnnnnnnnnnnnnnnnnnnnnnnnnnnnnnnnnnnnnnnnnnn\
    nnnnnnnnnnnnnnnnnnnnnnnnnnnnnnnnnnnnnnnnnnnnnnnnnnnnnnnnnnnnnnnnnnnnnnnnnnnnnnnnnnnnn\" })";

/// A name of 255 bytes is short enough.
#[test]
fn the_longest_name(rt: HostRuntime) {
    let frame = frame_of(&rt, rt.alloc(), &[b"GET", &[b'n'; 255]]);
    assert_asks(&rt, rt.alloc(), frame, GET_LONGEST);
}

// The frame of a `SET` of this name and of a value of so many bytes.
fn set_of<R: Abort>(rt: &R, alloc: Global, name: &[u8], len: usize) -> Frame {
    let value = vec![in alloc; b'v'; len].expect(rt, "memory");
    frame_of(rt, alloc, &[b"SET", name, &value])
}

fn is_set(asked: &Result<Command, CommandFault>) -> bool {
    matches!(asked, Ok(Command::Set { .. }))
}

/// A value of 16 MiB is short enough.
#[test]
fn longest_value(rt: HostRuntime) {
    let frame = set_of(&rt, rt.alloc(), b"photo", 16_777_216);
    assert!(rt; is_set(&read_command(frame)));
}

/// A byte more is not. A name that is too long comes first.
#[test]
fn long_values(rt: HostRuntime) {
    let fault = fault_of(set_of(&rt, rt.alloc(), b"photo", 16_777_217));
    assert!(rt; fault == Some(CommandFault::ValueTooLong));
    let fault = fault_of(set_of(&rt, rt.alloc(), LONG, 16_777_217));
    assert!(rt; fault == Some(CommandFault::NameTooLong));
}

/// A `MOVE` has from 1 to 255 nodes, whatever they are.
#[test]
fn many_nodes(rt: HostRuntime) {
    let mut texts: [&[u8]; 259] = [b"1"; 259];
    texts[0] = b"MOVE";
    texts[1] = b"photo";
    texts[258] = b"x";
    assert_fault(&rt, rt.alloc(), &texts[..258], CommandFault::BadLayout);
    let fault = CommandFault::WrongCount(CommandName::Move);
    assert_fault(&rt, rt.alloc(), &texts, fault);
}
