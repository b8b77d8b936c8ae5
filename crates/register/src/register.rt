ghost use Rattle.std.specs.Prelude.{◌≡◌, IfOk, IfErr};
ghost use Rattle.tag.specs.declared.refusal.Refusal.TheVariants.{NoMemory};

use crate::position::Position;
use crate::tracked_call::TrackedCall;
use layout::Layout;
use mail::Mail;
use std::alloc::Global;
use std::marker::Model;
use tag::{Refusal, Stamp};

mod calls;
mod checks;
mod coding;
mod laws;
mod messages;
mod phases;
mod retiring;
mod room;
mod views;

/// One object, with the number of its last step.
///
/// Each method that changes the object is one step. It takes the number `now` of that step, which must be greater than
/// the number of the last step; numbers need not be consecutive. A method that is refused changes nothing. If several
/// refusals apply, it returns the first of them in the order NoCall, NoMessage, NotNow, MovePending, TooLong,
/// Collected, WrongCode, Full, NoMemory. `NoMemory` means that an allocation was refused; a method whose comment says
/// that it allocates no memory never returns it.
#[derive(Debug)]
pub struct Register {
    // How many finalized versions the banks keep beside the newest. None where they keep all.
    delta: Option<u32>,
    positions: Vec<Position>,
    // The first position that is not retired.
    base: u32,
    mail: Mail,
    // In the order of their numbers, from 1.
    calls: Vec<TrackedCall>,
    // Whether a move is open, which means not answered.
    is_moving: bool,
    // The number of bytes of all pieces in all banks.
    stored: u64,
    last: Stamp,
}

impl Drop for Register {
    fn drop(self) {
        let Self {
            delta: _,
            positions: _,
            base: _,
            mail: _,
            calls: _,
            is_moving: _,
            stored: _,
            last: _,
        } = self;
    }
}

impl Model for Register {
    ghost use Rattle.std.specs.Coded.{codes};
    ghost use Rattle.layout.specs.contracts.layout.Layout as arrangement;
    ghost use Rattle.bank.specs.contracts.bank.Bank as table;
    ghost use Rattle.register.specs.State.{State, state_code, state_of};
    ghost use Rattle.register.specs.Kept.{IsKept};

    ghost Value = { State };

    ghost coded = { state_code arrangement.the_row.coded table.the_row.coded (Prim.hlevel codes) (Prim.hlevel codes) };

    ghost view = { λ r. state_of (record {
      delta = r.delta;
      positions = r.positions.items;
      base = r.base;
      mail = r.mail;
      calls = r.calls.items;
      is_moving = r.is_moving;
      stored = r.stored;
      last = r.last;
    }) };

    ghost invariant = { λ r. IsKept (record {
      delta = r.delta;
      positions = r.positions.items;
      base = r.base;
      mail = r.mail;
      calls = r.calls.items;
      is_moving = r.is_moving;
      stored = r.stored;
      last = r.last;
    }) };
}

impl Register {
    ghost use Rattle.record.specs.Steps.{opened_object};

    /// Makes an object with one position, of this layout, and no calls. Step `now` opens the n banks of the position.
    ///
    /// `delta` is how many finalized versions the banks of all positions keep besides the newest; without it they keep
    /// all pieces. `NoMemory` is the only refusal.
    pub fn new(
        alloc: Global,
        layout: Layout,
        delta: Option<u32>,
        now: Stamp,
    ) -> Result<Register, Refusal>
        ensures made { IfOk result (λ r. r ≡ record { object = opened_object layout delta now; last = now }) }
        ensures refused { IfErr result (λ e. e ≡ NoMemory) }
    {
        let position = Position::new(alloc, layout, delta, now)?;
        let mut positions = Vec::new(alloc);
        positions.push(position)?;
        Ok(Register {
            delta,
            positions,
            base: 0,
            mail: Mail::new(alloc),
            calls: Vec::new(alloc),
            is_moving: false,
            stored: 0,
            last: now,
        })
    }

    /// Returns the number of the object's last step.
    pub fn last(&self) -> Stamp
        ensures { result ≡ self.now.last }
    {
        self.last
    }
}
