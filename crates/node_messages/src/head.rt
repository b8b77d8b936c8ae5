//! The head of a message.
ghost use Rattle.std.specs.Prelude.{◌≡◌, ◌++◌, ◌<◌, ◌≤◌, ◌^◌, IfOk, IfSome, OnOk, length};
ghost use Rattle.std.specs.Int.{w32, to_be_bytes};
ghost use Rattle.layout.specs.Layout.{IsLawful};
ghost use Rattle.cluster_file.specs.declared.file.TheConstants.{DIGEST_LENGTH};
ghost use Rattle.node_messages.specs.Head.{head_of, layout_bytes, next_bytes, number_bytes, numbers_of, start_bytes};
ghost use Rattle.node_messages.specs.Message.{HasTypedFields, IsStart, IsTelling, IsWithinBits};

use crate::message::NodeMessage;
use crate::places::{FORM, NUMBERS_LENGTH, Numbers};
use crate::said::{Said, said_of};
use crate::said_besides::{SaidBesides, said_besides};
use bytes::Bytes;
use cluster_file::DIGEST_LENGTH;
use layout::Layout;
use letter::{Letter, SharedLayout, Start};
use mail::Message;
use std::alloc::{AllocError, Global};
use tag::CallId;

// These numbers, which are within their bits.
fn within_bits(call: CallId, phase: u32, position: u32) -> (CallId, u32, u32)
    ensures value { result ≡ (call, phase, position) }
    ensures call { call < 2 ^ 64 }
    ensures phase { phase < 2 ^ 32 }
    ensures position { position < 2 ^ 32 }
{
    (call, phase, position)
}

// The numbers of a message of whose body, and of what is asked and told besides it, a head says this.
fn number_bytes(message: &Message, said: Said, more: SaidBesides) -> Numbers
    ensures bytes { result ≡ number_bytes message.now said more }
    ensures call { message.now.call < 2 ^ 64 }
    ensures phase { message.now.phase < 2 ^ 32 }
    ensures position { message.now.position < 2 ^ 32 }
{
    let (call, phase, position) = within_bits(message.call, message.phase, message.position);
    let [a0, a1, a2, a3, a4, a5, a6, a7] = call.to_be_bytes();
    let [b0, b1, b2, b3] = phase.to_be_bytes();
    let [c0, c1, c2, c3] = position.to_be_bytes();
    let [d0, d1, d2, d3, d4, d5, d6, d7] = said.tag.number.to_be_bytes();
    let [e0, e1, e2, e3, e4, e5, e6, e7] = said.tag.call.to_be_bytes();
    let [f0, f1, f2, f3, f4, f5, f6, f7] = said.step.to_be_bytes();
    let [g0, g1, g2, g3] = said.len.to_be_bytes();
    let [h0, h1, h2, h3, h4, h5, h6, h7] = more.greatest.number.to_be_bytes();
    let [i0, i1, i2, i3, i4, i5, i6, i7] = more.greatest.call.to_be_bytes();
    let [j0, j1, j2, j3] = more.len.to_be_bytes();
    let member = message.member;
    let (is_reply, status, is_piece) = (said.is_reply, said.status, said.is_piece);
    [
        FORM,
        a0,
        a1,
        a2,
        a3,
        a4,
        a5,
        a6,
        a7,
        b0,
        b1,
        b2,
        b3,
        c0,
        c1,
        c2,
        c3,
        member,
        is_reply,
        said.kind,
        status,
        d0,
        d1,
        d2,
        d3,
        d4,
        d5,
        d6,
        d7,
        e0,
        e1,
        e2,
        e3,
        e4,
        e5,
        e6,
        e7,
        f0,
        f1,
        f2,
        f3,
        f4,
        f5,
        f6,
        f7,
        is_piece,
        said.point,
        g0,
        g1,
        g2,
        g3,
        more.mark,
        more.status,
        h0,
        h1,
        h2,
        h3,
        h4,
        h5,
        h6,
        h7,
        i0,
        i1,
        i2,
        i3,
        i4,
        i5,
        i6,
        i7,
        more.point,
        j0,
        j1,
        j2,
        j3,
    ]
}

/// Returns the numbers of a letter.
pub(crate) fn numbers_of(letter: &Letter) -> Numbers
    ensures bytes { result ≡ numbers_of letter.now }
    ensures call { letter.now.message.call < 2 ^ 64 }
    ensures phase { letter.now.message.phase < 2 ^ 32 }
    ensures position { letter.now.message.position < 2 ^ 32 }
    ensures body { IsWithinBits letter.now.message.body }
    ensures told { IfSome letter.now.told IsTelling }
{
    let (message, told) = (&letter.message, &letter.told);
    number_bytes(
        message,
        said_of(&message.body),
        said_besides(letter.asks_piece, told),
    )
}

// Appends a layout: the number of its members, k, and the members.
fn push_layout(head: &mut Vec<u8>, layout: &Layout) -> Result<(), AllocError>
    ensures pushed { OnOk result (head.new.items ≡ head.old.items ++ layout_bytes layout.now) }
    ensures lawful { OnOk result (IsLawful layout.now) }
{
    head.push(layout.n())?;
    head.push(layout.k())?;
    for i in 0..layout.n() {
        head.push(layout.member(i))?;
    }
    Ok(())
}

// Appends the layout of the next position, if there is one.
fn push_next(head: &mut Vec<u8>, next: &Option<SharedLayout>) -> Result<(), AllocError>
    ensures pushed { OnOk result (head.new.items ≡ head.old.items ++ next_bytes next.now) }
    ensures lawful { OnOk result (IfSome next.now IsLawful) }
{
    match next {
        Some(layout) => push_layout(head, layout.layout()),
        None => Ok(()),
    }
}

// Appends the start that a letter tells, if it tells one: its position, and its layout.
fn push_start(head: &mut Vec<u8>, start: &Option<Start>) -> Result<(), AllocError>
    ensures pushed { OnOk result (head.new.items ≡ head.old.items ++ start_bytes start.now) }
    ensures fits { OnOk result (IfSome start.now IsStart) }
{
    let Some(start) = start else {
        return Ok(());
    };
    push_number(head, start.position)?;
    push_layout(head, start.layout.layout())
}

// Appends a number, high byte first.
fn push_number(head: &mut Vec<u8>, number: u32) -> Result<(), AllocError>
    ensures pushed { OnOk result (head.new.items ≡ head.old.items ++ to_be_bytes w32 number) }
    ensures fits { number < 2 ^ 32 }
{
    head.extend_from_slice(&number.to_be_bytes())
}

// The number of bytes of a layout.
fn layout_length(layout: &SharedLayout) -> usize
    ensures { result ≤ 257 }
{
    2 + usize::from(layout.layout().n())
}

// The number of bytes of the head of a message with this letter.
fn length_with(letter: &Letter) -> usize {
    let next = match &letter.next {
        Some(next) => layout_length(next),
        None => 0,
    };
    let start = match &letter.start {
        Some(start) => 4 + layout_length(&start.layout),
        None => 0,
    };
    NUMBERS_LENGTH + DIGEST_LENGTH + layout_length(&letter.layout) + next + start
}

// The bytes of a head.
fn bytes_of(alloc: Global, message: &NodeMessage) -> Result<Vec<u8>, AllocError>
    ensures made { IfOk result (λ head. head.items ≡ head_of message.now) }
    ensures fits { OnOk result (HasTypedFields message.now) }
{
    let letter = &message.named.letter;
    let mut head = Vec::with_capacity(alloc, length_with(letter))?;
    head.extend_from_slice(&numbers_of(letter))?;
    head.extend_from_slice(&message.digest)?;
    push_layout(&mut head, letter.layout.layout())?;
    push_next(&mut head, &letter.next)?;
    push_start(&mut head, &letter.start)?;
    Ok(head)
}

/// Returns the head of a message.
pub(crate) fn head_of(alloc: Global, message: &NodeMessage) -> Result<Bytes, AllocError>
    ensures made { IfOk result (λ head. head ≡ head_of message.now) }
    ensures fits { OnOk result (HasTypedFields message.now) }
{
    Ok(Bytes::from_vec(bytes_of(alloc, message)?)?)
}
