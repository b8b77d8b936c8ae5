ghost use Rattle.std.specs.Prelude.{◌≡◌, ◌+◌, ◌≤◌, ◌%◌, ◌^◌, true, sum_by, is_some, IsSome, IfSome, IfNone, Some, None};
ghost use Rattle.std.specs.Prelude.{if◌then◌else◌};
ghost use Rattle.std.specs.BTreeMap.{get, is_at, btree_map_len, IsOrdered};
ghost use Rattle.tag.specs.Tag.{tag_cmp};
ghost use Rattle.bank.specs.Bytes.{entry_bytes};
ghost use Rattle.bank.specs.Floor.{is_under};

use super::Bank;
use crate::{Row, window};
use std::collections::BTreeMap;
use std::ops::Bound;
use tag::Tag;

impl Bank {
    ghost use Rattle.bank.specs.Bytes.{bank_bytes};
    ghost use Rattle.bank.specs.Floor.{remembered};

    /// Forgets the tags below the floor, with their rows and pieces. These are all tags, except the opening tag, that
    /// have at least `delta` + 1 finalized tags above them. Without `delta` the bank forgets nothing.
    ///
    /// No answer depends on what is forgotten, now or later. A query returns the greatest finalized tag, and this tag
    /// is never forgotten. A fetch of a tag below the floor returns no piece, since so many greater tags are finalized,
    /// whether the bank knows the tag or not. The floor never falls, and no other answer depends on a row.
    ///
    /// What is forgotten can't be asked for later: the bank no longer says when such a tag was finalized, or when its
    /// piece came.
    ///
    /// It takes no memory. Each row is removed once, by a search in the map. One search more finds that no row is left
    /// to remove, so a call that removes nothing takes time logarithmic in the number of tags.
    pub fn forget(&mut self)
        ensures bank { self.new ≡ remembered self.old }
        ensures fewer { bank_bytes self.new ≤ bank_bytes self.old }
    {
        let Some(floor) = window::floor(self.window) else {
            return;
        };
        let freed = remove_under(&mut self.rows, floor);
        self.bytes = self.bytes.wrapping_sub(freed);
    }
}

// Removes the rows of all tags below `floor` but the opening tag. Returns how many bytes of pieces this frees, modulo
// 2^64.
fn remove_under(rows: &mut BTreeMap<Tag, Row>, floor: Tag) -> u64
    ensures rows { (q : Tag) → get tag_cmp rows.new q ≡ (if is_under floor q then None else get tag_cmp rows.old q) }
    ensures freed { (sum_by entry_bytes rows.new.entries + result) % 2 ^ 64
        ≡ sum_by entry_bytes rows.old.entries % 2 ^ 64 }

    ensures ordered { IsOrdered tag_cmp rows.old → IsOrdered tag_cmp rows.new }
{
    let mut freed: u64 = 0;
    while let Some(tag) = first_under(rows, floor) {
        freed = freed.wrapping_add(remove(rows, tag));
    }
    freed
}

// The first tag below `floor` after the opening tag, if there is one.
fn first_under(rows: &BTreeMap<Tag, Row>, floor: Tag) -> Option<Tag>
    ensures under { IfSome result (λ tag. is_under floor tag ≡ true) }
    ensures known { IfSome result (λ tag. IsSome (get tag_cmp rows.now tag)) }
    ensures none { IfNone result ((q : Tag) → is_under floor q ≡ true → get tag_cmp rows.now q ≡ None) }
{
    let (tag, _) = rows
        .range((Bound::Excluded(Tag::OPENING), Bound::Unbounded))
        .next()?;
    if *tag < floor { Some(*tag) } else { None }
}

// Removes the row of `tag`, if there is one. Returns how many bytes its piece has.
fn remove(rows: &mut BTreeMap<Tag, Row>, tag: Tag) -> u64
    ensures rows { (q : Tag)
        → get tag_cmp rows.new q ≡ (if is_at (tag_cmp tag) q then None else get tag_cmp rows.old q) }

    ensures freed { sum_by entry_bytes rows.new.entries + result ≡ sum_by entry_bytes rows.old.entries }
    ensures count { btree_map_len rows.new + (if is_some (get tag_cmp rows.old tag) then 1 else 0)
        ≡ btree_map_len rows.old }

    ensures ordered { IsOrdered tag_cmp rows.new }
{
    match rows.remove(&tag) {
        Some(row) => row.bytes(),
        None => 0,
    }
}
