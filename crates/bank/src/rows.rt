ghost use Rattle.std.specs.Prelude.{◌≡◌, ◌-◌, ◌^◌, min, sum_by, length, is_some, not, if◌then◌else◌, Some, None, IfOk};
ghost use Rattle.std.specs.Prelude.{IfErr, OnOk, OnErr, map};
ghost use Rattle.std.specs.BTreeMap.{get, Updates, IsOrdered, IsUnchanged};
ghost use Rattle.tag.specs.Tag.{tag_cmp};
ghost use Rattle.tag.specs.declared.refusal.Refusal.TheVariants.{NoMemory};
ghost use Rattle.std.specs.BTreeMap.{values};
ghost use Rattle.bank.specs.Bank.{row_after_pre_write, row_after_finalize};
ghost use Rattle.bank.specs.Bytes.{row_bytes};
ghost use Rattle.bank.specs.Collect.{emptied_entry};
ghost use Rattle.bank.specs.Knowledge.{row_finalized, row_arrived};
ghost use Rattle.bank.specs.Window.{final_after, without_piece, piece_bytes_at};

use crate::{Arrival, Label, Row};
use piece::Piece;
use std::collections::BTreeMap;
use tag::{Refusal, Stamp, Tag};

// Sets the row of `tag`.
pub fn put(rows: &mut BTreeMap<Tag, Row>, tag: Tag, row: Row) -> Result<(), Refusal>
    ensures rows { OnOk result (Updates tag_cmp rows.old rows.new tag (Some row)) }
    ensures refused { IfErr result (λ e. e ≡ NoMemory) }
    ensures unchanged { OnErr result (IsUnchanged rows.old rows.new) }
    ensures absent { OnErr result (get tag_cmp rows.old tag ≡ None) }
    ensures ordered { IsOrdered tag_cmp rows.new }
{
    rows.insert(tag, row)?;
    Ok(())
}

// Keeps `piece` for `tag`, unless a piece arrived for it before. Returns how many bytes this adds.
pub fn fill(
    rows: &mut BTreeMap<Tag, Row>,
    tag: Tag,
    piece: Piece,
    now: Stamp,
) -> Result<u64, Refusal>
    ensures rows { OnOk result (Updates tag_cmp rows.old rows.new tag
        (Some (row_after_pre_write (get tag_cmp rows.old tag) piece now))) }

    ensures added { IfOk result (λ n.
        n ≡ (if is_some (row_arrived (get tag_cmp rows.old tag)) then 0 else length piece.bytes)) }

    ensures refused { IfErr result (λ e. e ≡ NoMemory) }
    ensures unchanged { OnErr result (IsUnchanged rows.old rows.new) }
    ensures absent { OnErr result (get tag_cmp rows.old tag ≡ None) }
    ensures ordered { IsOrdered tag_cmp rows.new }
{
    if let Some(row) = rows.get_mut(&tag) {
        return Ok(row.fill(piece, now));
    }
    let added = piece.bytes.len() as u64;
    let row = Row {
        label: Label::PreWritten { since: now },
        arrival: Some(Arrival {
            piece: Some(piece),
            step: now,
        }),
    };
    put(rows, tag, row)?;
    Ok(added)
}

// Finalizes `tag`. A new tag is finalized without a piece. Returns whether the tag was not finalized before.
pub fn finalize(rows: &mut BTreeMap<Tag, Row>, tag: Tag, now: Stamp) -> Result<bool, Refusal>
    ensures rows { OnOk result (Updates tag_cmp rows.old rows.new tag
        (Some (row_after_finalize (get tag_cmp rows.old tag) now))) }

    ensures anew { IfOk result (λ anew. anew ≡ not (is_some (row_finalized (get tag_cmp rows.old tag)))) }
    ensures refused { IfErr result (λ e. e ≡ NoMemory) }
    ensures unchanged { OnErr result (IsUnchanged rows.old rows.new) }
    ensures absent { OnErr result (get tag_cmp rows.old tag ≡ None) }
    ensures ordered { IsOrdered tag_cmp rows.new }
{
    if let Some(row) = rows.get_mut(&tag) {
        return Ok(row.finalize(now));
    }
    let row = Row {
        label: Label::Finalized { since: now },
        arrival: None,
    };
    put(rows, tag, row)?;
    Ok(true)
}

// Whether `tag` is finalized.
pub fn is_final(rows: &BTreeMap<Tag, Row>, tag: Tag) -> bool
    ensures { result ≡ is_some (row_finalized (get tag_cmp rows.now tag)) }
{
    match rows.get(&tag) {
        Some(row) => row.is_finalized(),
        None => false,
    }
}

// The least finalized tag above `tag`, if there is one. It is found by a search for `tag` and a walk over the
// pre-written tags that follow it.
pub fn next_final(rows: &BTreeMap<Tag, Row>, tag: Tag) -> Option<Tag>
    ensures next { result ≡ final_after tag rows.now.entries }
    ensures ordered { IsOrdered tag_cmp rows.now }
{
    rows.range(tag..)
        .find(|(other, row)| tag < **other && row.is_finalized())
        .map(|(other, _)| *other)
}

// Drops the piece of `tag`, if there is one. Returns how many bytes this frees.
pub fn empty(rows: &mut BTreeMap<Tag, Row>, tag: Option<Tag>) -> u64
    ensures rows { (q : Tag) → get tag_cmp rows.new q ≡ without_piece tag q (get tag_cmp rows.old q) }
    ensures freed { result ≡ piece_bytes_at tag rows.old.entries }
    ensures ordered { IsOrdered tag_cmp rows.old → IsOrdered tag_cmp rows.new }
{
    let Some(tag) = tag else {
        return 0;
    };
    match rows.get_mut(&tag) {
        Some(row) => row.empty(),
        None => 0,
    }
}

// Drops all pieces.
pub fn empty_all(rows: &mut BTreeMap<Tag, Row>)
    ensures { rows.new.entries ≡ map emptied_entry rows.old.entries }
{
    rows.retain(|_, row| {
        row.empty();
        true
    });
}

// The number of bytes of all pieces, or `u64::MAX` where it is greater.
pub fn bytes(rows: &BTreeMap<Tag, Row>) -> u64
    ensures { result ≡ min (sum_by row_bytes (values rows.now)) (2 ^ 64 - 1) }
{
    let mut total: u64 = 0;
    for row in rows.values() {
        total = total.saturating_add(row.bytes());
    }
    total
}
