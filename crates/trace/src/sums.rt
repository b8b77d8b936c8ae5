//! The sums over the phases of a call.
ghost use Rattle.std.specs.Prelude.{◌≡◌, ◌<◌, Some, length, slice_get, sum_by};
ghost use Rattle.record.specs.Accounts.{member_sum};
ghost use Rattle.register.specs.View.{phases_at};
ghost use Rattle.trace.specs.Cost.{bytes_for, came_at, fragment_at, returned_in, sent_in_phase, taken_bytes};
ghost use Rattle.std.specs.FinMap as map;
ghost use Rattle.std.specs.Io.Iter.{u64_saturate};

use bank::{Bank, Kind, Row};
use mail::{Phase, Taken};
use register::Register;
use tag::{CallId, Tag};

/// Returns the number of requests of the call: one to each member that a phase asks.
pub fn requests(register: &Register, call: CallId) -> u64
    ensures { result ≡ u64_saturate (sum_by (λ p. p.members) (phases_at register.now.object call)) }
{
    let mut total: u64 = 0;
    for index in 0..register.phase_count(call) {
        let phase = phase_at(register, call, index);
        total = total.saturating_add(asked_in(phase));
    }
    total
}

/// Returns the number of replies that the call took.
pub fn replies(register: &Register, call: CallId) -> u64
    ensures { result ≡ u64_saturate (sum_by (λ p. length p.replies) (phases_at register.now.object call)) }
{
    let mut total: u64 = 0;
    for index in 0..register.phase_count(call) {
        let phase = phase_at(register, call, index);
        total = total.saturating_add(taken_in(phase));
    }
    total
}

/// Returns the bytes of the fragments in the replies that the call took.
pub fn returned(register: &Register, call: CallId) -> u64
    ensures { result ≡ u64_saturate (sum_by returned_in (phases_at register.now.object call)) }
{
    let mut total: u64 = 0;
    for index in 0..register.phase_count(call) {
        let phase = phase_at(register, call, index);
        total = total.saturating_add(returned_in(phase));
    }
    total
}

// The phase at an index, which is below the number of the call's phases.
fn phase_at(register: &Register, call: CallId, index: usize) -> &Phase
    requires { index < length (phases_at register.now.object call) }
    ensures { slice_get (phases_at register.now.object call) index ≡ Some result.now }
{
    let Some(phase) = register.phase_view(call, index) else {
        unreachable!();
    };
    phase
}

// How many members a phase asks.
fn asked_in(phase: &Phase) -> u64
    ensures { result ≡ u64_saturate phase.now.members }
{
    u64::from(phase.members())
}

// How many replies a phase took.
fn taken_in(phase: &Phase) -> u64
    ensures { result ≡ u64_saturate (length phase.now.replies) }
{
    phase.replies().len() as u64
}

// The bytes of the fragments in the replies that a phase took.
fn returned_in(phase: &Phase) -> u64
    ensures { result ≡ u64_saturate (returned_in phase.now) }
{
    bytes_of(phase.replies())
}

fn bytes_of(replies: &[Taken]) -> u64
    ensures { result ≡ u64_saturate (sum_by taken_bytes replies.now) }
{
    let mut total: u64 = 0;
    for taken in replies {
        total = total.saturating_add(taken.reply.answer.bytes());
    }
    total
}

/// Returns the bytes of the fragments that the pre-writes of the call send.
pub fn sent(register: &Register, call: CallId) -> u64
    ensures { result
        ≡ u64_saturate (sum_by (sent_in_phase register.now.object call) (phases_at register.now.object call)) }
{
    let mut total: u64 = 0;
    for index in 0..register.phase_count(call) {
        let phase = phase_at(register, call, index);
        total = total.saturating_add(sent_in_phase(register, call, phase));
    }
    total
}

fn sent_in_phase(register: &Register, call: CallId, phase: &Phase) -> u64
    ensures { result ≡ u64_saturate (sent_in_phase register.now.object call phase.now) }
{
    let position = phase.position();
    match phase.kind() {
        Kind::PreWrite(tag) => {
            let fragment = fragment_at(register, call, position);
            came_to_all(register, fragment, tag, position, phase.members())
        }
        _ => 0,
    }
}

// The bytes of a fragment of the call's value under the layout of a position.
fn fragment_at(register: &Register, call: CallId, position: u32) -> u64
    ensures { result ≡ fragment_at register.now.object call position }
{
    match (register.value_view(call), register.layout_view(position)) {
        (Some(value), Some(layout)) => (value.len() as u64).div_ceil(u64::from(layout.k())),
        _ => 0,
    }
}

fn came_to_all(register: &Register, fragment: u64, tag: Tag, position: u32, members: u8) -> u64
    ensures { result ≡ u64_saturate (member_sum (came_at register.now.object fragment tag position) 0 members) }
{
    let mut total: u64 = 0;
    for member in 0..members {
        total = total.saturating_add(came_at(register, fragment, tag, position, member));
    }
    total
}

fn came_at(register: &Register, fragment: u64, tag: Tag, position: u32, member: u8) -> u64
    ensures { result ≡ u64_saturate (came_at register.now.object fragment tag position member) }
{
    match register.bank_view(position, member) {
        Some(bank) => came_bytes(bank, fragment, tag),
        None => 0,
    }
}

// The bytes of a fragment where one came to a bank for the tag, even if the bank dropped it since; otherwise 0.
fn came_bytes(bank: &Bank, fragment: u64, tag: Tag) -> u64
    ensures { result ≡ u64_saturate (sum_by (bytes_for fragment tag) (map.entries bank.now.rows)) }
{
    let mut total: u64 = 0;
    for (known, row) in bank.rows() {
        total = total.saturating_add(bytes_for(fragment, tag, *known, row));
    }
    total
}

fn bytes_for(fragment: u64, tag: Tag, known: Tag, row: &Row) -> u64
    ensures { result ≡ u64_saturate (bytes_for fragment tag (known, row.now)) }
{
    if known == tag && row.arrival.is_some() {
        fragment
    } else {
        0
    }
}
