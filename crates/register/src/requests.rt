//! The requests of a phase that are resent.

ghost use Rattle.std.specs.Prelude.{◌≡◌, ◌+◌, ◌++◌, ◌==◌, ◌&&◌, ◌||◌, nat_le, ℕ, List, length, option_copied, None};
ghost use Rattle.std.specs.Prelude.{IfOk, IfErr, OnOk, OnErr};
ghost use Rattle.tag.specs.declared.limits.TheConstants.{MOST_MESSAGES};
ghost use Rattle.tag.specs.declared.refusal.Refusal.TheVariants.{NoMemory};
ghost use Rattle.piece.specs.declared.piece.Piece.{Piece};
ghost use Rattle.mail.specs.Mail.{mail_cause};
ghost use Rattle.mail.specs.Phase.{has_taken, members_of};
ghost use Rattle.record.specs.Sending.{requests, missing, waits};
ghost use Rattle.call.specs.Pieces.{piece_from, HavePieces};

use call::{request_to, requests};
use encoder::Coded;
use layout::Layout;
use mail::{Ask, Mail, Message, Phase};
use std::alloc::Global;
use tag::{CallId, MOST_MESSAGES, Refusal};

/// Posts the requests of a phase to all members of a position with this layout. There must be room for them. If memory
/// is refused, the mail does not change.
pub(crate) fn post_requests(
    alloc: Global,
    ask: Ask,
    layout: &Layout,
    coded: Option<&Coded>,
    mail: &mut Mail,
) -> Result<(), Refusal>
    requires pieces { HavePieces ask.kind (length layout.now.members) (option_copied coded) }
    requires room { mail_cause (mail.old ++ requests ask.call ask.number ask.kind ask.position
        layout.now.members 0 (piece_from (option_copied coded))) ≡ None }

    ensures posted { OnOk result (mail.new ≡ mail.old ++ requests ask.call ask.number ask.kind ask.position
        layout.now.members 0 (piece_from (option_copied coded.entry))) }

    ensures refused { IfErr result (λ e. e ≡ NoMemory) }
    ensures kept { OnErr result (mail.new ≡ mail.old) }
{
    let messages = requests(alloc, ask, layout.n(), coded)?;
    mail.post_all(messages)
}

/// Returns the requests of a phase that are resent: those to members that have no recorded reply and no waiting message
/// of it.
pub(crate) fn missing(
    alloc: Global,
    ask: Ask,
    phase: &Phase,
    mail: &Mail,
    coded: Option<&Coded>,
) -> Result<Vec<Message>, Refusal>
    requires { HavePieces ask.kind phase.now.members (option_copied coded) }
    ensures requests { (servers : List ℕ) → length servers ≡ phase.now.members
        → IfOk result (λ ms. ms.items ≡ missing mail.now (members_of phase.now.replies)
        (requests ask.call ask.number ask.kind ask.position servers 0 (piece_from (option_copied coded.entry)))) }

    ensures refused { IfErr result (λ e. e ≡ NoMemory) }
{
    let mut messages = Vec::with_capacity(alloc, usize::from(phase.members()))?;
    for member in 0..phase.members() {
        if !is_there(ask, phase, mail, member) {
            messages.push(request_to(ask, member, coded)?)?;
        }
    }
    Ok(messages)
}

/// Returns how many requests of a phase are resent.
pub(crate) fn missing_count(ask: Ask, phase: &Phase, mail: &Mail) -> usize
    ensures { (servers : List ℕ) (piece : ℕ → Piece) → length servers ≡ phase.now.members
        → result ≡ length (missing mail.now (members_of phase.now.replies)
        (requests ask.call ask.number ask.kind ask.position servers 0 piece)) }
{
    let mut count = 0;
    for member in 0..phase.members() {
        if !is_there(ask, phase, mail, member) {
            count += 1;
        }
    }
    count
}

/// Returns whether `count` more messages may wait.
pub(crate) fn has_room(mail: &Mail, count: usize) -> bool
    ensures { result ≡ nat_le (length mail.now + count) MOST_MESSAGES }
{
    count <= MOST_MESSAGES - mail.len()
}

// Whether a reply of the member is recorded, or a message of this phase to or from it waits.
fn is_there(ask: Ask, phase: &Phase, mail: &Mail, member: u8) -> bool
    ensures { result ≡ (has_taken phase.now.replies member || waits mail.now ask.call ask.number member) }
{
    phase.has_taken(member) || waits(mail, ask.call, ask.number, member)
}

// Whether a message of this phase to or from the member waits.
fn waits(mail: &Mail, call: CallId, phase: u32, member: u8) -> bool
    ensures { result ≡ waits mail.now call phase member }
{
    for place in mail.first_place(call)..mail.len() {
        if is_of(mail.at(place), call, phase, member) {
            return true;
        }
    }
    false
}

// Whether a message is of this phase, to or from the member.
fn is_of(message: &Message, call: CallId, phase: u32, member: u8) -> bool
    ensures { result ≡ (message.now.call == call && (message.now.phase == phase && message.now.member == member)) }
{
    message.call == call && message.phase == phase && message.member == member
}
