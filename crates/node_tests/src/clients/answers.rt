//! Answers, as the documentation of Redis shows them, and the texts of errors.
use crate::checks::{assert_strings, strings};
use bytes::Bytes;
use client_commands::{Answer, AnswerError, CommandFault, CommandName, push_answer};
use std::alloc::Global;
use std::process::Abort;
use tag::Refusal;

const ADDRESS: &[u8] = b"client 17";

/// The frame with an address and this answer has these strings.
fn assert_answer<R: Abort>(rt: &R, alloc: Global, answer: Answer, wanted: &[&[u8]]) {
    let mut answered = strings(rt, alloc, &[ADDRESS]);
    push_answer(alloc, &mut answered, answer).expect(rt, "memory");
    assert_strings(rt, &answered, &strings(rt, alloc, wanted));
}

fn assert_line<R: Abort>(rt: &R, alloc: Global, answer: Answer, line: &[u8]) {
    assert_answer(rt, alloc, answer, &[ADDRESS, line]);
}

#[test]
fn plain(rt: HostRuntime) {
    let alloc = rt.alloc();
    assert_line(&rt, alloc, Answer::Ok, b"+OK\r\n");
    assert_line(&rt, alloc, Answer::Pong, b"+PONG\r\n");
    assert_line(&rt, alloc, Answer::NoCommands, b"*0\r\n");
    assert_line(&rt, alloc, Answer::Number(1000), b":1000\r\n");
    assert_line(&rt, alloc, Answer::Number(0), b":0\r\n");
    assert_line(&rt, alloc, Answer::Nil, b"$-1\r\n");
}

/// What Redis documents of `HELLO`: keys, each with its value behind it.
const GREETING: &[u8] =
    b"*14\r\n$6\r\nserver\r\n$4\r\ncasd\r\n$7\r\nversion\r\n$5\r\n1.0.0\r\n$5\r\nproto\r\n:2\r\n\
    $2\r\nid\r\n:17\r\n$4\r\nmode\r\n$10\r\nstandalone\r\n$4\r\nrole\r\n$6\r\nmaster\r\n$7\r\nmodules\r\n*0\r\n";

#[test]
fn a_greeting(rt: HostRuntime) {
    assert_line(&rt, rt.alloc(), Answer::Greeting(17), GREETING);
}

#[test]
fn pages(rt: HostRuntime) {
    let alloc = rt.alloc();
    let names = strings(&rt, alloc, &[b"photo", b"", b"a\r\n\xff"]);
    let line = b"*2\r\n$2\r\n17\r\n*3\r\n$5\r\nphoto\r\n$0\r\n\r\n$4\r\na\r\n\xff\r\n";
    assert_line(&rt, alloc, Answer::Page { next: 17, names }, line);
    let names = Vec::new(alloc);
    let line = b"*2\r\n$1\r\n0\r\n*0\r\n";
    assert_line(&rt, alloc, Answer::Page { next: 0, names }, line);
}

/// Values, and what stands before them. Behind them stands a line end.
static VALUES: [(&[u8], &[u8]); 3] = [
    (b"hello", b"$5\r\n"),
    (b"", b"$0\r\n"),
    (b"a\r\n\x00\xff$3\r\n", b"$9\r\n"),
];

#[test]
fn values(rt: HostRuntime) {
    for &(value, head) in &VALUES {
        let answer = Answer::Value(Bytes::from_static(value));
        assert_answer(&rt, rt.alloc(), answer, &[ADDRESS, head, value, b"\r\n"]);
    }
}

/// Errors, and their lines.
static ERRORS: [(AnswerError, &[u8]); 32] = [
    (
        AnswerError::Fault(CommandFault::UnknownCommand),
        b"-ERR unknown command\r\n",
    ),
    (
        AnswerError::Fault(CommandFault::UnknownSubcommand),
        b"-ERR unknown subcommand\r\n",
    ),
    (
        AnswerError::Fault(CommandFault::WrongCount(CommandName::Get)),
        b"-ERR wrong number of arguments for 'get' command\r\n",
    ),
    (
        AnswerError::Fault(CommandFault::WrongCount(CommandName::Client)),
        b"-ERR wrong number of arguments for 'client' command\r\n",
    ),
    (
        AnswerError::Fault(CommandFault::NoDatabase),
        b"-ERR DB index is out of range\r\n",
    ),
    (
        AnswerError::Fault(CommandFault::NoProtocol),
        b"-NOPROTO unsupported protocol version\r\n",
    ),
    (
        AnswerError::Fault(CommandFault::NoPassword),
        b"-ERR AUTH <password> called without any password configured for the default user. \
        Are you sure your configuration is correct?\r\n",
    ),
    (
        AnswerError::Fault(CommandFault::WrongUser),
        b"-WRONGPASS invalid username-password pair or user is disabled.\r\n",
    ),
    (
        AnswerError::Fault(CommandFault::NoExpiry),
        b"-ERR values do not expire in this store; nothing was changed\r\n",
    ),
    (
        AnswerError::Fault(CommandFault::NoCondition),
        b"-ERR a write does not depend on the value before it in this store; nothing was changed\r\n",
    ),
    (
        AnswerError::Fault(CommandFault::SeveralNames),
        b"-ERR a command has one name in this store; nothing was done\r\n",
    ),
    (
        AnswerError::Fault(CommandFault::SyntaxError),
        b"-ERR syntax error\r\n",
    ),
    (
        AnswerError::Fault(CommandFault::BadCursor),
        b"-ERR invalid cursor\r\n",
    ),
    (
        AnswerError::Fault(CommandFault::NotInteger),
        b"-ERR value is not an integer or out of range\r\n",
    ),
    (
        AnswerError::Fault(CommandFault::PatternTooLong),
        b"-ERR pattern too long\r\n",
    ),
    (
        AnswerError::Fault(CommandFault::NoSets),
        b"-ERR a pattern has no sets in this store; write \\[ for the byte\r\n",
    ),
    (
        AnswerError::Fault(CommandFault::NameTooLong),
        b"-ERR name too long\r\n",
    ),
    (
        AnswerError::Fault(CommandFault::ValueTooLong),
        b"-ERR value too long\r\n",
    ),
    (
        AnswerError::Fault(CommandFault::BadNumber),
        b"-ERR bad number\r\n",
    ),
    (
        AnswerError::Fault(CommandFault::OutOfRange),
        b"-ERR number out of range\r\n",
    ),
    (
        AnswerError::Fault(CommandFault::BadLayout),
        b"-ERR bad layout\r\n",
    ),
    (
        AnswerError::Fault(CommandFault::WrongCount(CommandName::Move)),
        b"-ERR wrong number of arguments for 'move' command\r\n",
    ),
    (
        AnswerError::NoQuorum,
        b"-ERR no quorum answered in time\r\n",
    ),
    (AnswerError::Protocol, b"-ERR protocol\r\n"),
    (
        AnswerError::NotMover,
        b"-ERR only the mover moves objects\r\n",
    ),
    (
        AnswerError::NoSuchNode(9),
        b"-ERR node 9 is not in the cluster file\r\n",
    ),
    (
        AnswerError::TooFewHeard(255),
        b"-ERR fewer than a quorum of the new nodes answer: node 255 is not heard\r\n",
    ),
    (
        AnswerError::Refused(Refusal::Full),
        b"-ERR this name has been moved as often as is possible\r\n",
    ),
    (
        AnswerError::Refused(Refusal::MovePending),
        b"-ERR another move of this name is under way\r\n",
    ),
    (
        AnswerError::Refused(Refusal::TooLong),
        b"-ERR value too long\r\n",
    ),
    (
        AnswerError::Refused(Refusal::NotNow),
        b"-ERR a call with this number is under way\r\n",
    ),
    (
        AnswerError::Refused(Refusal::NoCall),
        b"-ERR refused: 6 NoCall\r\n",
    ),
];

#[test]
fn errors(rt: HostRuntime) {
    for &(error, line) in &ERRORS {
        assert_line(&rt, rt.alloc(), Answer::Error(error), line);
    }
}
