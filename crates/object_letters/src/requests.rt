ghost use Rattle.std.specs.Prelude.{◌≡◌, ℕ, ◌+◌, ◌*◌, ◌≤◌, ◌++◌, sum_by, length, IfOk, IfErr, OnOk};
ghost use Rattle.tag.specs.declared.refusal.Refusal.TheVariants.{NoMemory};
ghost use Rattle.bank.specs.Bank.{opened_bank};
ghost use Rattle.bank.specs.Bytes.{bank_bytes};
ghost use Rattle.object_letters.specs.Reached.{IsReachedBank, after_requests};
ghost use Rattle.object_letters.specs.Requests.{requests_to, brought_bytes, pointer_requests, label_requests};
ghost use Rattle.object_letters.specs.Requests.{arrival_requests, row_requests};
ghost use Rattle.std.specs.FinMap as map;

use bank::{Arrival, Bank, Label, Pointer, Request, Row, Status};
use bytes::Bytes;
use piece::Piece;
use std::alloc::Global;
use tag::{Refusal, Tag};

/// The requests that lead a newly opened bank to this bank, if it serves them in their order and each at step 0.
///
/// This holds of each bank that some requests have led to, all at step 0. The pieces in the requests share their bytes
/// with those of the bank. Where the bank dropped a piece, an empty one stands for it, which is dropped again. So the
/// requests bring no more bytes than the bank stores. There are at most two of them for each tag, and one for the
/// pointer. `NoMemory` is the only refusal.
///
/// It takes time linear in the number of tags.
pub fn requests_of(alloc: Global, bank: &Bank) -> Result<Vec<Request>, Refusal>
    ensures requests { IfOk result (λ v. v.items ≡ requests_to bank.now) }
    ensures lead { IfOk result (λ v. (point : ℕ) → IsReachedBank point bank.now
        → after_requests (opened_bank point bank.now.delta 0) v.items ≡ bank.now) }

    ensures bytes { IfOk result (λ v. sum_by brought_bytes v.items ≤ bank_bytes bank.now) }
    ensures count { IfOk result (λ v. length v.items ≤ 2 * map.len bank.now.rows + 1) }
    ensures refused { IfErr result (λ e. e ≡ NoMemory) }
{
    let mut requests = Vec::new(alloc);
    push_pointer(&mut requests, bank.pointer())?;
    for (tag, row) in bank.rows() {
        push_row(&mut requests, *tag, row)?;
    }
    Ok(requests)
}

// Appends the request that raises an unset pointer to this one, if it is not unset.
fn push_pointer(requests: &mut Vec<Request>, pointer: Pointer) -> Result<(), Refusal>
    ensures requests { OnOk result (requests.new.items ≡ requests.old.items ++ pointer_requests pointer) }
    ensures refused { IfErr result (λ e. e ≡ NoMemory) }
{
    match pointer {
        Pointer::Unset => {}
        Pointer::Pending { since: _ } => requests.push(Request::Spread(Status::Pending))?,
        Pointer::Final {
            pending: _,
            since: _,
        } => requests.push(Request::Spread(Status::Final))?,
    }
    Ok(())
}

// Appends the requests that lead to the row of a tag. The row of the opening tag is there from the beginning.
fn push_row(requests: &mut Vec<Request>, tag: Tag, row: &Row) -> Result<(), Refusal>
    ensures requests { OnOk result (requests.new.items ≡ requests.old.items ++ row_requests tag row.now) }
    ensures refused { IfErr result (λ e. e ≡ NoMemory) }
{
    if tag.is(Tag::OPENING) {
        return Ok(());
    }
    push_label(requests, tag, row.label)?;
    push_arrival(requests, tag, &row.arrival)
}

// Appends the request that finalizes the tag, if it is finalized.
fn push_label(requests: &mut Vec<Request>, tag: Tag, label: Label) -> Result<(), Refusal>
    ensures requests { OnOk result (requests.new.items ≡ requests.old.items ++ label_requests tag label) }
    ensures refused { IfErr result (λ e. e ≡ NoMemory) }
{
    if let Label::Finalized { since: _ } = label {
        requests.push(Request::Finalize(tag))?;
    }
    Ok(())
}

// Appends the request that brings the piece of the tag, if one arrived.
fn push_arrival(
    requests: &mut Vec<Request>,
    tag: Tag,
    arrival: &Option<Arrival>,
) -> Result<(), Refusal>
    ensures requests { OnOk result (requests.new.items ≡ requests.old.items ++ arrival_requests tag arrival.now) }
    ensures refused { IfErr result (λ e. e ≡ NoMemory) }
{
    if let Some(arrival) = arrival {
        let piece = piece_or_empty(&arrival.piece)?;
        requests.push(Request::PreWrite(tag, piece))?;
    }
    Ok(())
}

// A copy of the piece, which shares its bytes, or an empty piece where there is none.
fn piece_or_empty(piece: &Option<Piece>) -> Result<Piece, Refusal>
    ensures piece { IfOk result (λ p. p ≡ Rattle.object_letters.specs.Requests.piece_or_empty piece.now) }
    ensures refused { IfErr result (λ e. e ≡ NoMemory) }
{
    match piece {
        Some(piece) => Ok(piece.clone()?),
        None => Ok(Piece {
            point: 0,
            len: 0,
            bytes: Bytes::new(),
        }),
    }
}
