//! Whether calls may begin.

ghost use Rattle.std.specs.Prelude.{◌<◌};
ghost use Rattle.tag.specs.Refusal.{IsExactlyByCause};
ghost use Rattle.layout.specs.Layout.{Layout as Arrangement};
ghost use Rattle.register.specs.Causes.{move_cause, read_cause};

use crate::register::Register;
use crate::requests::has_room;
use tag::{MOST_CALLS, MOST_POSITIONS, MOST_STEPS, Refusal, Stamp};

impl Register {
    /// Returns whether a read may begin at step `now`, or a write of at most `LONGEST_VALUE` bytes. It changes nothing
    /// and allocates no memory.
    ///
    /// Is refused with `Full` as for `call_read`.
    pub fn may_call(&self, now: Stamp) -> Result<(), Refusal>
        requires after { self.now.last < now }
        ensures cause { IsExactlyByCause (read_cause now self.now.object) result }
    {
        let members = usize::from(self.positions[self.base as usize].layout().n());
        if now > MOST_STEPS {
            return Err(Refusal::Full);
        }
        if self.calls.len() >= MOST_CALLS {
            return Err(Refusal::Full);
        }
        if !has_room(&self.mail, members) {
            return Err(Refusal::Full);
        }
        Ok(())
    }

    /// Returns whether a move may begin at step `now`, whatever its layout. It changes nothing and allocates no memory.
    ///
    /// Is refused with `MovePending` and `Full` as for `call_move`.
    pub fn may_move(&self, now: Stamp) -> Result<(), Refusal>
        requires after { self.now.last < now }
        ensures cause { (layout : Arrangement) → IsExactlyByCause (move_cause layout now self.now.object) result }
    {
        if self.is_moving {
            return Err(Refusal::MovePending);
        }
        let positions = self.positions.len();
        let posted = usize::from(self.positions[positions - 1].layout().n());
        if now > MOST_STEPS {
            return Err(Refusal::Full);
        }
        if positions >= MOST_POSITIONS {
            return Err(Refusal::Full);
        }
        if self.calls.len() >= MOST_CALLS {
            return Err(Refusal::Full);
        }
        if !has_room(&self.mail, posted) {
            return Err(Refusal::Full);
        }
        Ok(())
    }
}
