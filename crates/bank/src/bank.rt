ghost use Rattle.std.specs.Prelude.{◌≡◌, ℕ, ◌<◌, ◌^◌, IsTrue};
ghost use Rattle.std.specs.Prelude.{IfOk, IfErr, OnOk, OnErr, IsOk, IsNone};
ghost use Rattle.tag.specs.declared.refusal.Refusal.TheVariants.{NoMemory};

use crate::window::{self, Window};
use crate::{Answer, Arrival, Label, Pointer, Reply, Row, Status, rows};
use bytes::Bytes;
use piece::Piece;
use std::alloc::Global;
use std::collections::BTreeMap;
use std::marker::Model;
use tag::{Refusal, Stamp, Tag};

mod forgetting;
mod reading;

/// A bank: the state that one server keeps for one position of an object.
///
/// Each request takes the number `now` of the step that serves it, and its reply records this number. If everything
/// that the bank has recorded happened before `now`, the clause `served` says that the request changes nothing of what
/// the bank says about earlier steps, and that the reply is true. `NoMemory` is the only refusal: an allocation for a
/// new tag, or for one more owner of a piece, was refused.
///
/// A request that names a tag takes time logarithmic in the number of tags, and any other request takes constant time.
/// With `delta`, a request that finalizes a tag may also scan pre-written tags that come to lie below all tags whose
/// pieces are kept. Amortised over all requests, each tag is scanned at most once.
#[derive(Debug)]
pub struct Bank {
    rows: BTreeMap<Tag, Row>,
    // The greatest finalized tag.
    greatest: Tag,
    // The number of bytes of all pieces, modulo 2^64.
    bytes: u64,
    pointer: Pointer,
    // The finalized tags whose pieces are kept. None if there is no `delta`.
    window: Option<Window>,
    // The step at which the bank was retired. It keeps no piece from then on.
    retired: Option<Stamp>,
    alloc: Global,
}

impl Drop for Bank {
    fn drop(self) {
        let Self {
            rows: _,
            greatest: _,
            bytes: _,
            pointer: _,
            window: _,
            retired: _,
            alloc: _,
        } = self;
    }
}

impl Model for Bank {
    ghost use Rattle.std.specs.Coded.{codes};
    ghost use Rattle.bank.specs.Bank.{Bank as Table, bank_code};
    ghost use Rattle.bank.specs.Kept.{bank_of, IsKeptBank};

    ghost Value = { Table };

    ghost coded = { bank_code (Prim.hlevel codes) (Prim.hlevel codes) (Prim.hlevel codes) };

    ghost view = { λ b. bank_of b.rows.entries b.pointer b.window b.retired };

    ghost invariant = { λ b.
        IsKeptBank b.rows.entries b.pointer b.window b.retired b.greatest b.bytes };
}

impl Bank {
    ghost use Rattle.bank.specs.Bank.{opened_bank, pre_written, finalized, with_pointer, knows};
    ghost use Rattle.bank.specs.Bytes.{bank_bytes};
    ghost use Rattle.bank.specs.Collect.{collected, fetched_piece, retired_bank};
    ghost use Rattle.bank.specs.Facts.{IsBefore, IsGreatest, IsServed};
    ghost use Rattle.bank.specs.Pointer.{status_of, raised};
    ghost use Rattle.bank.specs.Serve.{greatest_final};
    ghost use Rattle.bank.specs.declared.kind.Kind.TheVariants as kind;
    ghost use Rattle.bank.specs.declared.reply.Answer.TheVariants as answer;

    /// Opens a bank at step `now`. The opening tag is finalized, with the fragment of the empty value at `point`, and
    /// the pointer is unset.
    ///
    /// The bank keeps the pieces of its `delta` + 1 greatest finalized tags, and those of all tags that are not
    /// finalized. Without `delta` it keeps all pieces.
    pub fn new(alloc: Global, point: u8, delta: Option<u32>, now: Stamp) -> Result<Bank, Refusal>
        ensures bank { IfOk result (λ b. b ≡ opened_bank point delta now) }
        ensures order { (later : ℕ) → now < later → IfOk result (λ b. IsBefore b later) }
        ensures bytes { IfOk result (λ b. bank_bytes b ≡ 0) }
        ensures refused { IfErr result (λ e. e ≡ NoMemory) }
    {
        let piece = Piece {
            point,
            len: 0,
            bytes: Bytes::new(),
        };
        let row = Row {
            label: Label::Finalized { since: now },
            arrival: Some(Arrival {
                piece: Some(piece),
                step: now,
            }),
        };
        let mut rows = BTreeMap::new(alloc);
        rows::put(&mut rows, Tag::OPENING, row)?;
        Ok(Bank {
            rows,
            greatest: Tag::OPENING,
            bytes: 0,
            pointer: Pointer::Unset,
            window: window::opened(delta),
            retired: None,
            alloc,
        })
    }

    /// Serves a request Next: returns the status of the pointer, and changes nothing.
    pub fn ask_next(&self, now: Stamp) -> Reply
        ensures reply { result ≡ record { step = now; answer = answer.Pointer (status_of self.now.pointer) } }
        ensures served { IsBefore self.now now → IsServed self.now self.now now kind.Next result.answer }
    {
        Reply {
            step: now,
            answer: Answer::Pointer(self.pointer.status()),
        }
    }

    /// Serves a request Spread: raises the pointer to `status` if that is greater.
    pub fn put_next(&mut self, status: Status, now: Stamp) -> Reply
        ensures bank { self.new ≡ with_pointer self.old (raised self.old.pointer status now) }
        ensures reply { result ≡ record { step = now; answer = answer.Done } }
        ensures served { IsBefore self.old now → IsServed self.old self.new now (kind.Spread status) result.answer }
    {
        self.pointer = self.pointer.raised(status, now);
        Reply {
            step: now,
            answer: Answer::Done,
        }
    }

    /// Serves a request Query: returns the greatest finalized tag, and changes nothing.
    pub fn query(&self, now: Stamp) -> Reply
        ensures reply { result ≡ record { step = now; answer = answer.Greatest (greatest_final self.now) } }
        ensures greatest { IsGreatest self.now (greatest_final self.now) }
        ensures served { IsBefore self.now now → IsServed self.now self.now now kind.Query result.answer }
    {
        Reply {
            step: now,
            answer: Answer::Greatest(self.greatest),
        }
    }

    /// Serves a request PreWrite: keeps `piece` for `tag`, unless a piece arrived for it before. A new tag becomes
    /// pre-written, and a known tag keeps its label. If the piece is not to be kept, it is dropped at once, but the
    /// bank records that it arrived. `NoMemory` comes only if the tag is new.
    pub fn pre_write(&mut self, tag: Tag, piece: Piece, now: Stamp) -> Result<Reply, Refusal>
        ensures bank { OnOk result (self.new ≡ collected (pre_written self.old tag piece now)) }
        ensures reply { IfOk result (λ r. r ≡ record { step = now; answer = answer.Done }) }
        ensures served { IsBefore self.old now
            → IfOk result (λ r. IsServed self.old self.new now (kind.PreWrite tag) r.answer) }

        ensures refused { IfErr result (λ e. e ≡ NoMemory) }
        ensures unchanged { OnErr result (self.new ≡ self.old) }
        ensures known { IsTrue (knows self.old tag) → IsOk result }
    {
        let added = rows::fill(&mut self.rows, tag, piece, now)?;
        let late = window::late(self.window, self.retired, &self.rows, tag);
        let freed = rows::empty(&mut self.rows, late);
        self.bytes = self.bytes.wrapping_add(added).wrapping_sub(freed);
        Ok(Reply {
            step: now,
            answer: Answer::Done,
        })
    }

    /// Serves a request Finalize: the label of `tag` becomes finalized, and the piece that is then no longer to be kept
    /// is dropped. A new tag becomes finalized without a piece. `NoMemory` comes only if the tag is new.
    pub fn finalize(&mut self, tag: Tag, now: Stamp) -> Result<Reply, Refusal>
        ensures bank { OnOk result (self.new ≡ collected (finalized self.old tag now)) }
        ensures reply { IfOk result (λ r. r ≡ record { step = now; answer = answer.Done }) }
        ensures served { IsBefore self.old now
            → IfOk result (λ r. IsServed self.old self.new now (kind.Finalize tag) r.answer) }

        ensures refused { IfErr result (λ e. e ≡ NoMemory) }
        ensures unchanged { OnErr result (self.new ≡ self.old) }
        ensures known { IsTrue (knows self.old tag) → IsOk result }
    {
        let anew = rows::finalize(&mut self.rows, tag, now)?;
        self.greatest = self.greatest.later(tag);
        let fallen = window::admit(&mut self.window, anew, &self.rows, tag);
        let freed = rows::empty(&mut self.rows, fallen);
        self.bytes = self.bytes.wrapping_sub(freed);
        Ok(Reply {
            step: now,
            answer: Answer::Done,
        })
    }

    /// Serves a request Fetch: finalizes `tag` as `finalize` does, and returns its piece if the bank still keeps it.
    /// The returned piece shares its bytes with the kept one. `NoMemory` comes only if the tag is new or a piece is
    /// returned.
    pub fn fetch(&mut self, tag: Tag, now: Stamp) -> Result<Reply, Refusal>
        ensures bank { OnOk result (self.new ≡ collected (finalized self.old tag now)) }
        ensures reply { IfOk result (λ r.
            r ≡ record { step = now; answer = answer.Piece (fetched_piece self.old tag) }) }

        ensures served { IsBefore self.old now
            → IfOk result (λ r. IsServed self.old self.new now (kind.Fetch tag) r.answer) }

        ensures refused { IfErr result (λ e. e ≡ NoMemory) }
        ensures unchanged { OnErr result (self.new ≡ self.old) }
        ensures known { IsTrue (knows self.old tag) → IsNone (fetched_piece self.old tag) → IsOk result }
    {
        let piece = self.copy_to_answer(tag)?;
        self.finalize(tag, now)?;
        Ok(Reply {
            step: now,
            answer: Answer::Piece(piece),
        })
    }

    /// Retires the bank: drops all pieces, and from now on each piece that arrives. Returns how many bytes this frees.
    ///
    /// It takes time linear in the number of tags.
    pub fn retire(&mut self, now: Stamp) -> u64
        ensures bank { self.new ≡ retired_bank self.old now }
        ensures freed { bank_bytes self.old < 2 ^ 64 → result ≡ bank_bytes self.old }
        ensures none { bank_bytes self.new ≡ 0 }
    {
        let freed = self.bytes;
        rows::empty_all(&mut self.rows);
        self.bytes = 0;
        if self.retired.is_none() {
            self.retired = Some(now);
        }
        freed
    }
}
