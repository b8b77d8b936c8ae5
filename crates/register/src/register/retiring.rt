//! How positions are retired.

ghost use Rattle.std.specs.Prelude.{◌≡◌, ◌≤◌, ◌<◌, nat_lt, if◌then◌else◌, OnOk, OnErr, IfOk};
ghost use Rattle.tag.specs.Refusal.{IsExactlyByCause};
ghost use Rattle.tag.specs.declared.limits.TheConstants.{MOST_BYTES};
ghost use Rattle.record.specs.Accounts.{base_bytes, base_bytes_of};
ghost use Rattle.record.specs.Steps.{Step};
ghost use Rattle.register.specs.State.{made};
ghost use Rattle.register.specs.Retiring.{retire_cause};

use crate::register::Register;
use tag::{MOST_STEPS, Refusal, Stamp};

impl Register {
    /// Returns how many bytes of pieces this server stores at the base: 0 if it is no member there. It allocates no
    /// memory.
    pub fn stored_at_base(&self, server: u8) -> u64
        ensures value { result ≡ base_bytes_of self.now.object server }
        ensures within { result ≤ MOST_BYTES }
    {
        self.positions[self.base as usize].stored(server)
    }

    /// Returns whether a position may be retired at step `now`. It changes nothing and allocates no memory.
    ///
    /// Is refused with `NotNow` unless the position is the base and the move out of it was answered, and with `Full` if
    /// `now` is above `MOST_STEPS`.
    pub fn may_retire(&self, position: u64, now: Stamp) -> Result<(), Refusal>
        requires after { self.now.last < now }
        ensures cause { IsExactlyByCause (retire_cause now self.now.object position) result }
    {
        if position != u64::from(self.base) {
            return Err(Refusal::NotNow);
        }
        let behind = self.positions.len() - 1 - self.base as usize;
        if !is_left(behind, self.is_moving) {
            return Err(Refusal::NotNow);
        }
        if now > MOST_STEPS {
            return Err(Refusal::Full);
        }
        Ok(())
    }

    /// Retires a position, which must be the base. Its banks drop all pieces, and drop those that come later; the next
    /// position becomes the base. Returns how many bytes this frees. It allocates no memory.
    ///
    /// It is refused as `may_retire` is.
    pub fn retire(&mut self, position: u64, now: Stamp) -> Result<u64, Refusal>
        requires after { self.old.last < now }
        ensures step { OnOk result (self.new ≡ made Step.Retire now self.old) }
        ensures freed { IfOk result (λ bytes. bytes ≡ base_bytes self.old.object) }
        ensures cause { IsExactlyByCause (retire_cause now self.old.object position) result }
        ensures unchanged { OnErr result (self.new ≡ self.old) }
    {
        self.may_retire(position, now)?;
        let freed = self.positions[self.base as usize].retire(now);
        self.stored -= freed;
        self.base += 1;
        self.last = now;
        Ok(freed)
    }
}

// Whether the move out of a position was answered, where `behind` positions come after this one. Only the last move may
// be open.
fn is_left(behind: usize, is_moving: bool) -> bool
    ensures { result ≡ nat_lt (if is_moving then 1 else 0) behind }
{
    if is_moving { behind > 1 } else { behind > 0 }
}
