//! Calls that begin.

ghost use Rattle.std.specs.Prelude.{◌≡◌, ℕ, ◌+◌, ◌<◌, ◌^◌, ◌∷◌, [], false, None, IfOk, IfErr, OnOk, IsSome, length};
ghost use Rattle.std.specs.Prelude.{◌⊎◌, nat_le};
ghost use Rattle.tag.specs.Refusal.{IsByCause, IsExactlyByCause};
ghost use Rattle.tag.specs.declared.refusal.Refusal.TheVariants.{NoMemory};
ghost use Rattle.record.specs.Fragments.{AreBytes};
ghost use Rattle.record.specs.PhaseOrder.{begun_at};
ghost use Rattle.call.specs.Pieces.{HavePieces};
ghost use Rattle.open_calls.specs.OpenCalls.{open_call};
ghost use Rattle.local_object.specs.Local.{last_position, layout_here};
ghost use Rattle.local_object.specs.Events.{LocalEvent, called_here};
ghost use Rattle.local_object.specs.Outcomes.{begun_here, is_read};
ghost use Rattle.local_object.specs.Doing.{IsOutcome, is_moving, move_refusal, read_refusal, unless_open};
ghost use Rattle.local_object.specs.Doing.{write_refusal};

use crate::LocalObject;
use crate::letters::letters_of;
use crate::reading::first_number;
use bank::{Kind, Status};
use bytes::Bytes;
use call::{Call, requests};
use layout::Layout;
use letter::{Letter, SharedLayout};
use mail::Ask;
use record::{CallKind, Stage};
use tag::{CallId, LONGEST_VALUE, Refusal};

impl LocalObject {
    /// Begins a read, with an id that no other call of the object has in the whole cluster. Returns the read's requests
    /// to the members of the object's start.
    ///
    /// `NotNow` if a call with this id is open here, and `NoMemory`.
    pub fn begin_read(&mut self, id: CallId) -> Result<Vec<Letter>, Refusal>
        ensures done { IfOk result (λ letters.
            IsOutcome self.old (LocalEvent.BeginRead id ∷ []) self.new letters.items) }

        ensures cause { IsByCause (read_refusal self.old id) result }
        ensures unchanged { IfErr result (λ e. (e ≡ NoMemory) ⊎ (self.new ≡ self.old)) }
    {
        self.refuse_open(id)?;
        self.begin_at_start(id, CallKind::Read)
    }

    /// The node begins a write of this value, with an id that no other call of the object has in the whole cluster. The
    /// letters are its requests to the members of the object's start.
    ///
    /// `NotNow` if a call with this id is open here, `TooLong` if the value has more than `LONGEST_VALUE` bytes, and
    /// `NoMemory`.
    pub fn begin_write(&mut self, id: CallId, value: Bytes) -> Result<Vec<Letter>, Refusal>
        ensures done { IfOk result (λ letters.
            IsOutcome self.old (LocalEvent.BeginWrite id value ∷ []) self.new letters.items) }

        ensures cause { IsByCause (write_refusal self.old id value) result }
        ensures unchanged { IfErr result (λ e. (e ≡ NoMemory) ⊎ (self.new ≡ self.old)) }
    {
        self.refuse_open(id)?;
        if !is_short(value.as_slice()) {
            return Err(Refusal::TooLong);
        }
        self.begin_at_start(id, CallKind::Write(value))
    }

    /// Begins a move from the last position of which the node has heard to a new one with this layout. Returns the
    /// move's requests to the members of that last position.
    ///
    /// `NotNow` if a call with this id is open here, `MovePending` if a move is, `Full` if there are no numbers for the
    /// new position and the one after it, and `NoMemory`.
    pub fn begin_move(&mut self, id: CallId, layout: Layout) -> Result<Vec<Letter>, Refusal>
        ensures done { IfOk result (λ letters.
            IsOutcome self.old (LocalEvent.BeginMove id layout ∷ []) self.new letters.items) }

        ensures cause { IsByCause (move_refusal self.old id) result }
        ensures unchanged { IfErr result (λ e. (e ≡ NoMemory) ⊎ (self.new ≡ self.old)) }
    {
        self.refuse_open(id)?;
        if self.is_moving() {
            return Err(Refusal::MovePending);
        }
        let last = self.places.last();
        if last >= u32::MAX - 1 {
            return Err(Refusal::Full);
        }
        let layout = SharedLayout::new(self.alloc, layout)?;
        self.begin_from(id, last, &layout)
    }

    // Begins a move from the last position to a new one with this layout.
    fn begin_from(
        &mut self,
        id: CallId,
        last: u32,
        layout: &SharedLayout,
    ) -> Result<Vec<Letter>, Refusal>
        requires last { last ≡ last_position self.old }
        requires known { IsSome (layout_here self.old last) }
        requires room { last + 2 < 2 ^ 32 }
        requires new { open_call self.old.calls id ≡ None }
        requires still { is_moving self.old ≡ false }
        ensures done { IfOk result (λ letters.
            IsOutcome self.old (LocalEvent.BeginMove id layout.now ∷ []) self.new letters.items) }

        ensures refused { IfErr result (λ e. e ≡ NoMemory) }
    {
        prove!(layout.layout().k() >= 1);
        self.places.learn(last + 1, layout)?;
        let stage = Stage::MoveSpread { position: last };
        let ask = Ask {
            call: id,
            number: 1,
            position: last,
            kind: Kind::Spread(Status::Pending),
        };
        self.begin(ask, CallKind::Move, stage)
    }

    // Begins a read or a write at the object's start.
    fn begin_at_start(&mut self, id: CallId, kind: CallKind) -> Result<Vec<Letter>, Refusal>
        requires new { open_call self.old.calls id ≡ None }
        ensures known { IsSome (layout_here self.old self.old.start) }
        ensures local { OnOk result (self.new ≡ (called_here self.old id kind).local) }
        ensures letters { IfOk result (λ letters. letters.items ≡ (called_here self.old id kind).sent) }
        ensures refused { IfErr result (λ e. e ≡ NoMemory) }
    {
        let ask = Ask {
            call: id,
            number: first_number(self.start),
            position: self.start,
            kind: Kind::Next,
        };
        self.begin(ask, kind, Stage::ReadBegin)
    }

    // Refused with `NotNow` where a call with this id is open here.
    fn refuse_open(&self, id: CallId) -> Result<(), Refusal>
        ensures cause { IsExactlyByCause (unless_open self.now id None) result }
        ensures new { OnOk result (open_call self.now.calls id ≡ None) }
    {
        match self.calls.index_of(id) {
            Some(_) => Err(Refusal::NotNow),
            None => Ok(()),
        }
    }

    // Begins a call with a first phase that asks this and sends no pieces.
    fn begin(&mut self, ask: Ask, kind: CallKind, stage: Stage) -> Result<Vec<Letter>, Refusal>
        requires known { IsSome (layout_here self.old ask.position) }
        requires new { open_call self.old.calls ask.call ≡ None }
        requires plain { (members : ℕ) → HavePieces ask.kind members None }
        ensures local { OnOk result (self.new ≡ (begun_here self.old ask.call kind (begun_at stage ask.position)
            ask.kind ask.number ask.position (layout_here self.old ask.position)).local) }

        ensures letters { IfOk result (λ letters. letters.items
            ≡ (begun_here self.old ask.call kind (begun_at stage ask.position) ask.kind ask.number ask.position
            (layout_here self.old ask.position)).sent) }

        ensures refused { IfErr result (λ e. e ≡ NoMemory) }
    {
        let Some(layout) = self.places.shared_layout_of(u64::from(ask.position)) else {
            unreachable!();
        };
        let messages = requests(self.alloc, ask, layout.layout().n(), None)?;
        let asks_piece = is_read(&kind);
        let letters = letters_of(
            self.alloc,
            &self.places,
            self.start,
            asks_piece,
            layout,
            messages,
        )?;
        let call = Call::begin(self.alloc, ask, kind, stage, layout.layout(), 0)?;
        self.calls.add(call)?;
        Ok(letters)
    }
}

// Whether this is a read.
fn is_read(kind: &CallKind) -> bool
    ensures { result ≡ is_read kind.now }
{
    match kind {
        CallKind::Read => true,
        CallKind::Write(_) | CallKind::Move => false,
    }
}

// Whether the value is within the limit on its length.
fn is_short(value: &[u8]) -> bool
    ensures short { result ≡ nat_le (length value.now) LONGEST_VALUE }
    ensures bytes { AreBytes value.now }
{
    value.len() <= LONGEST_VALUE
}
