//! Messages that wait, in their places, and the bytes that they carry.
use crate::pieces::{held, piece};
use bank::{Answer, Reply, Request, Status};
use mail::{Body, Mail, Message};
use std::alloc::Global;
use std::process::Abort;
use tag::{MOST_BYTES, Tag};

const FIRST: Tag = Tag { number: 1, call: 1 };

fn request_to(member: u8, request: Request) -> Message {
    Message {
        call: 1,
        phase: 1,
        position: 0,
        member,
        body: Body::Request(request),
    }
}

fn post(rt: &impl Abort, messages: &mut Vec<Message>, member: u8, request: Request) {
    messages
        .push(request_to(member, request))
        .expect(rt, "room for a message");
}

// A mail in which these messages wait.
fn mail_of(rt: &impl Abort, alloc: Global, messages: Vec<Message>) -> Mail {
    let mut mail = Mail::new(alloc);
    assert!(rt; mail.is_empty());
    mail.post_all(messages).expect(rt, "room for messages");
    mail
}

fn answer_at(rt: &impl Abort, mail: &mut Mail, place: usize, answer: Answer) {
    let reply = Reply { step: 3, answer };
    assert!(rt; place < mail.len() && mail.bytes() + reply.answer.bytes() <= MOST_BYTES);
    mail.reply_in_place(place, reply);
}

// Whether this member is asked for its next pointer.
fn asks(message: &Message, member: u8) -> bool {
    message.call == 1
        && message.phase == 1
        && message.position == 0
        && message.member == member
        && matches!(message.body, Body::Request(Request::Next))
}

// Whether these members are asked for their next pointer, in the order of the messages' places.
fn are_asked(mail: &Mail, members: &[u8]) -> bool {
    for place in 0..mail.len() {
        match members.get(place) {
            Some(member) if asks(mail.at(place), *member) => {}
            _ => return false,
        }
    }
    mail.len() == members.len()
}

fn asking(rt: &impl Abort, alloc: Global, members: u8) -> Vec<Message> {
    let mut requests = Vec::new(alloc);
    for member in 0..members {
        post(rt, &mut requests, member, Request::Next);
    }
    requests
}

fn take_out_the_answer(rt: &impl Abort, mail: &mut Mail) {
    answer_at(rt, mail, 2, Answer::Pointer(Status::Unset));
    assert!(rt; 2 < mail.len());
    assert!(rt; mail.take_out(2).member == 2);
}

#[test]
fn keeps_the_order_of_places(rt: HostRuntime) {
    let mut mail = mail_of(&rt, rt.alloc(), asking(&rt, rt.alloc(), 4));
    take_out_the_answer(&rt, &mut mail);
    assert!(rt; 0 < mail.len());
    mail.repeat(0).expect(&rt, "room for a message");
    assert!(rt; are_asked(&mail, &[0, 1, 3, 0]));
}

fn has(mail: &Mail, len: usize, bytes: u64) -> bool {
    mail.len() == len && mail.bytes() == bytes
}

fn pieces_asked(rt: &impl Abort, alloc: Global) -> Vec<Message> {
    let mut requests = Vec::new(alloc);
    post(rt, &mut requests, 0, Request::PreWrite(FIRST, piece()));
    post(rt, &mut requests, 1, Request::Fetch(FIRST));
    requests
}

fn answer_both(rt: &impl Abort, alloc: Global, mail: &mut Mail) {
    answer_at(rt, mail, 1, Answer::Piece(Some(held(rt, alloc))));
    assert!(rt; has(mail, 2, 6));
    answer_at(rt, mail, 0, Answer::Done);
    assert!(rt; has(mail, 2, 3));
}

#[test]
fn counts_the_bytes_of_pieces(rt: HostRuntime) {
    let mut mail = mail_of(&rt, rt.alloc(), pieces_asked(&rt, rt.alloc()));
    assert!(rt; has(&mail, 2, 3));
    answer_both(&rt, rt.alloc(), &mut mail);
    assert!(rt; 0 < mail.len());
    mail.lose(0);
    assert!(rt; has(&mail, 1, 3));
}
