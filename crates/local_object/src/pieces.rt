//! The pieces from which a call decodes the value that it fetched.

ghost use Rattle.std.specs.Prelude.{◌≡◌, ◌++◌, List, take, IfOk, IfErr, OnOk, option_copied, option_to_list};
ghost use Rattle.tag.specs.declared.refusal.Refusal.TheVariants.{NoMemory};
ghost use Rattle.piece.specs.declared.piece.Piece.{Piece as Fragment};
ghost use Rattle.local_object.specs.Pieces.{first_pieces, own_piece};
ghost use Rattle.local_object.specs.Reports.{first_told, told_of_tag, told_piece};

use crate::report::Report;
use crate::reports::is_of;
use bank::Answer;
use mail::Taken;
use piece::Piece;
use std::alloc::Global;
use tag::{CallId, Refusal, Tag};

/// The first `k` pieces that the replies carry. A piece counts only if its point is that of the member that replied.
///
/// `NoMemory` is the only refusal.
pub(crate) fn first_pieces(alloc: Global, k: u8, replies: &[Taken]) -> Result<Vec<Piece>, Refusal>
    ensures pieces { IfOk result (λ ps. ps.items ≡ first_pieces k replies.now) }
    ensures refused { IfErr result (λ e. e ≡ NoMemory) }
{
    let mut pieces = Vec::with_capacity(alloc, usize::from(k))?;
    for taken in replies {
        add_own(&mut pieces, k, taken)?;
    }
    Ok(pieces)
}

// Adds the piece that a reply carries at the point of its member, if it carries one and there are not `k` yet.
fn add_own(pieces: &mut Vec<Piece>, k: u8, taken: &Taken) -> Result<(), Refusal>
    ensures added { OnOk result ((before : List Fragment) → pieces.old.items ≡ take k before
        → pieces.new.items ≡ take k (before ++ option_to_list (own_piece taken.now))) }

    ensures refused { IfErr result (λ e. e ≡ NoMemory) }
{
    let Some(piece) = own_piece(taken) else {
        return Ok(());
    };
    if pieces.len() >= usize::from(k) {
        return Ok(());
    }
    pieces.push(piece.clone()?)?;
    Ok(())
}

// The piece that a reply carries, if it carries one at the point of its member.
fn own_piece(taken: &Taken) -> Option<&Piece>
    ensures { option_copied result ≡ own_piece taken.now }
{
    match &taken.reply.answer {
        Answer::Piece(Some(held)) if held.piece().point == taken.member => Some(held.piece()),
        _ => None,
    }
}

/// The first `k` pieces of this tag that members told this phase of a call. A piece counts only if its point is that of
/// the member that told it.
///
/// `NoMemory` is the only refusal.
pub(crate) fn first_told(
    alloc: Global,
    k: u8,
    tag: Tag,
    call: CallId,
    phase: u32,
    reports: &[Report],
) -> Result<Vec<Piece>, Refusal>
    ensures pieces { IfOk result (λ ps. ps.items ≡ first_told k tag call phase reports.now) }
    ensures refused { IfErr result (λ e. e ≡ NoMemory) }
{
    let mut pieces = Vec::with_capacity(alloc, usize::from(k))?;
    for report in reports {
        add_piece(&mut pieces, k, told_piece(tag, call, phase, report))?;
    }
    Ok(pieces)
}

// Adds a piece, if there is one and there are not `k` yet.
fn add_piece(pieces: &mut Vec<Piece>, k: u8, piece: Option<&Piece>) -> Result<(), Refusal>
    ensures added { OnOk result ((before : List Fragment) → pieces.old.items ≡ take k before
        → pieces.new.items ≡ take k (before ++ option_to_list (option_copied piece.entry))) }

    ensures refused { IfErr result (λ e. e ≡ NoMemory) }
{
    let Some(piece) = piece else {
        return Ok(());
    };
    if pieces.len() >= usize::from(k) {
        return Ok(());
    }
    pieces.push(piece.clone()?)?;
    Ok(())
}

// The piece of this tag that a member told this phase of a call, if its point is the member's own.
fn told_piece(tag: Tag, call: CallId, phase: u32, report: &Report) -> Option<&Piece>
    ensures { option_copied result ≡ told_piece tag call phase report.now }
{
    match told_of_tag(tag, call, phase, report) {
        Some(piece) if piece.point == report.member => Some(piece),
        _ => None,
    }
}

// The piece of this tag that a member told this phase of a call, if it did so.
fn told_of_tag(tag: Tag, call: CallId, phase: u32, report: &Report) -> Option<&Piece>
    ensures { option_copied result ≡ told_of_tag tag call phase report.now }
{
    if is_of(call, phase, report) && report.telling.greatest.is(tag) {
        report.telling.piece.as_ref()
    } else {
        None
    }
}
