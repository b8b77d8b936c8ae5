//! Requests that are sent again, and calls that are given up.

ghost use Rattle.std.specs.Prelude.{◌≡◌, [], IfOk, IfErr};
ghost use Rattle.std.specs.List.{AllByRecursion};
ghost use Rattle.tag.specs.declared.refusal.Refusal.TheVariants.{NoMemory};
ghost use Rattle.encoder.specs.Fragment.{fragment};
ghost use Rattle.local_object.specs.Doing.{IsOutcome, give_up_events, gives_up};
ghost use Rattle.local_object.specs.Resent.{IsResent, letters_again};

use crate::LocalObject;
use crate::calls::is_move;
use crate::coding::is_sendable;
use crate::missing::missing;
use letter::Letter;
use tag::{CallId, Refusal};

impl LocalObject {
    /// The requests of the current phase of the call with this id, as they were sent, to the members whose replies are
    /// not recorded, in the order of the members. If the phase is a complete fetch that lacks pieces, they are those to
    /// all members: the call begins anew once a member replies again. No letters where no call with this id is open
    /// here.
    ///
    /// `NoMemory` is the only refusal.
    pub fn resend(&self, id: CallId) -> Result<Vec<Letter>, Refusal>
        ensures letters { IfOk result (λ letters. letters.items ≡ letters_again fragment self.now id) }
        ensures resent { IfOk result (λ letters. AllByRecursion (IsResent fragment self.now) letters.items) }
        ensures refused { IfErr result (λ e. e ≡ NoMemory) }
    {
        let Some(index) = self.calls.index_of(id) else {
            return Ok(Vec::new(self.alloc));
        };
        let call = self.calls.at(index);
        let phase = call.phase();
        let Some(layout) = self.places.shared_layout_of(u64::from(phase.position())) else {
            return Ok(Vec::new(self.alloc));
        };
        if !is_sendable(phase.kind(), call) {
            return Ok(Vec::new(self.alloc));
        }
        missing(self.alloc, &self.places, self.start, call, layout)
    }

    /// Ends the read or the write with this id without an answer, if one is open here. A write may still take effect.
    /// Returns whether a call was given up. A move goes on until it is answered. It allocates no memory.
    pub fn give_up(&mut self, id: CallId) -> bool
        ensures done { IsOutcome self.old (give_up_events self.old id) self.new [] }
        ensures given_up { result ≡ gives_up self.old id }
    {
        let Some(index) = self.calls.index_of(id) else {
            return false;
        };
        if is_move(self.calls.at(index)) {
            return false;
        }
        self.calls.remove(index);
        self.reports.forget(id);
        true
    }
}
