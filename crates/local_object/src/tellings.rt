//! What a node tells of its banks with its replies.

ghost use Rattle.std.specs.Prelude.{◌≡◌, ℕ, Option, IfOk, IfErr, option_copied};
ghost use Rattle.tag.specs.declared.refusal.Refusal.TheVariants.{NoMemory};
ghost use Rattle.bank.specs.Bank.{opened_bank, piece_of};
ghost use Rattle.bank.specs.Serve.{greatest_final};
ghost use Rattle.local_object.specs.Reports.{piece_if, telling_if, told_by};

use crate::kept_bank::KeptBank;
use bank::{Answer, Bank, Status};
use bytes::Bytes;
use letter::Telling;
use piece::Piece;
use tag::{Refusal, Tag};

/// What a node tells of a bank that it keeps, if it tells anything. `NoMemory` is the only refusal.
pub(crate) fn told_of(bank: &KeptBank, asks_piece: bool) -> Result<Option<Telling>, Refusal>
    ensures told { IfOk result (λ t. t ≡ told_by bank.now asks_piece) }
    ensures refused { IfErr result (λ e. e ≡ NoMemory) }
{
    match bank {
        KeptBank::Open(bank) => Ok(Some(telling_of(bank, asks_piece)?)),
        KeptBank::Closed(_) => Ok(None),
    }
}

// What a node tells of an open bank. `NoMemory` is the only refusal.
fn telling_of(bank: &Bank, asks_piece: bool) -> Result<Telling, Refusal>
    ensures told { IfOk result (λ t. t ≡ telling_if asks_piece bank.now) }
    ensures refused { IfErr result (λ e. e ≡ NoMemory) }
{
    let greatest = greatest_final(bank);
    Ok(Telling {
        status: bank.pointer().status(),
        greatest,
        piece: piece_if(bank, greatest, asks_piece)?,
    })
}

// The piece of its greatest finalized tag that a bank keeps, if it is asked for. `NoMemory` is the only refusal.
fn piece_if(bank: &Bank, greatest: Tag, asks_piece: bool) -> Result<Option<Piece>, Refusal>
    requires { greatest ≡ greatest_final bank.now }
    ensures piece { IfOk result (λ p. p ≡ piece_if asks_piece bank.now) }
    ensures refused { IfErr result (λ e. e ≡ NoMemory) }
{
    if asks_piece {
        piece_of(bank, greatest)
    } else {
        Ok(None)
    }
}

// The piece of a tag that a bank keeps. `NoMemory` is the only refusal.
fn piece_of(bank: &Bank, tag: Tag) -> Result<Option<Piece>, Refusal>
    ensures piece { IfOk result (λ p. p ≡ piece_of bank.now tag) }
    ensures refused { IfErr result (λ e. e ≡ NoMemory) }
{
    for (known, row) in bank.rows() {
        if tag.is(*known) {
            return copied(row.piece());
        }
    }
    Ok(None)
}

// The same piece, which shares its bytes. `NoMemory` is the only refusal.
fn copied(piece: Option<&Piece>) -> Result<Option<Piece>, Refusal>
    ensures piece { IfOk result (λ p. p ≡ option_copied piece.entry) }
    ensures refused { IfErr result (λ e. e ≡ NoMemory) }
{
    match piece {
        Some(piece) => Ok(Some(piece.clone()?)),
        None => Ok(None),
    }
}

// The greatest finalized tag of a bank.
fn greatest_final(bank: &Bank) -> Tag
    ensures { result ≡ greatest_final bank.now }
{
    match bank.query(0).answer {
        Answer::Greatest(tag) => tag,
        _ => Tag::OPENING,
    }
}

/// What a node tells of a newly opened bank of this member.
pub(crate) fn opened_telling(member: u8, delta: Option<u32>, asks_piece: bool) -> Telling
    ensures { result ≡ telling_if asks_piece (opened_bank member delta 0) }
{
    let _delta = delta;
    Telling {
        status: Status::Unset,
        greatest: Tag::OPENING,
        piece: opening_piece(member, asks_piece),
    }
}

// The piece of the empty value, if it is asked for.
fn opening_piece(member: u8, asks_piece: bool) -> Option<Piece>
    ensures { (delta : Option ℕ) → result ≡ piece_if asks_piece (opened_bank member delta 0) }
{
    if asks_piece {
        Some(Piece {
            point: member,
            len: 0,
            bytes: Bytes::new(),
        })
    } else {
        None
    }
}
