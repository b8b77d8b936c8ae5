//! Banks of positions before an object's start, and how they are closed.
ghost use Rattle.std.specs.Prelude.{◌≡◌, ◌+◌, ◌<◌, ◌^◌, [], IfErr, IfOk, IfSome, OnOk};
ghost use Rattle.tag.specs.declared.refusal.Refusal.TheVariants.{NoMemory};
ghost use Rattle.local_object.specs.Doing.{can_close, close_events};
ghost use Rattle.local_object.specs.Passed.{passed_positions, raise_events};
ghost use Rattle.object_letters.specs.Raising.{raising_letter};
ghost use Rattle.node_keeper.specs.Doing.{IsOutcomeAt};
ghost use Rattle.node_keeper.specs.Objects.{objects_of};

use super::Objects;
use bytes::Bytes;
use letter::Letter;
use object_letters::raising_letter;
use tag::Refusal;

impl Objects {
    /// Returns the positions before the start of the object of a name at which the node keeps an open bank, in the
    /// order in which it heard of them. It allocates no memory if there are none.
    ///
    /// `NoMemory` is the only refusal.
    pub fn passed_positions(&self, name: &Bytes) -> Result<Vec<u32>, Refusal>
        ensures positions { IfOk result (λ positions.
            positions.items ≡ passed_positions (objects_of self.now name.now)) }

        ensures refused { IfErr result (λ e. e ≡ NoMemory) }
    {
        match self.by_name.get(name) {
            Some(object) => object.passed_positions(),
            None => Ok(Vec::new(self.alloc)),
        }
    }

    /// Returns the letter with which the node asks itself to raise the pointer of its bank of a position of the object
    /// of a name to final. There is none if the node cannot raise the pointer.
    ///
    /// `NoMemory` is the only refusal.
    pub fn raising_letter(&self, name: &Bytes, position: u32) -> Result<Option<Letter>, Refusal>
        ensures letter { IfOk result (λ letter.
            letter ≡ raising_letter (objects_of self.now name.now) position) }

        ensures next { IfOk result (λ letter. IfSome letter (λ letter. position + 1 < 2 ^ 32)) }
        ensures refused { IfErr result (λ e. e ≡ NoMemory) }
    {
        match self.by_name.get(name) {
            Some(object) => raising_letter(object, position),
            None => Ok(None),
        }
    }

    /// The node raises the pointer of its bank of a position of the object of a name to final. If it cannot do so,
    /// nothing changes.
    ///
    /// `NoMemory` is the only refusal.
    pub fn raise(&mut self, name: &Bytes, position: u32) -> Result<(), Refusal>
        ensures done { OnOk result (IsOutcomeAt self.old name.now
            (raise_events (objects_of self.old name.now) position) self.new []) }

        ensures refused { IfErr result (λ e. e ≡ NoMemory) }
    {
        match self.by_name.get_mut(name) {
            Some(object) => object.raise(position),
            None => Ok(()),
        }
    }

    /// Returns whether the node can close its bank of a position of the object of a name: whether the bank is open, and
    /// its pointer is final. It allocates no memory.
    pub fn can_close(&self, name: &Bytes, position: u32) -> bool
        ensures { result ≡ can_close (objects_of self.now name.now) position }
    {
        match self.by_name.get(name) {
            Some(object) => object.can_close(position),
            None => false,
        }
    }

    /// The node closes its bank of a position of the object of a name, which then has no piece any more. Returns
    /// whether it did so: if it cannot close the bank, nothing changes. It allocates no memory.
    pub fn close(&mut self, name: &Bytes, position: u32) -> bool
        ensures done { IsOutcomeAt self.old name.now
            (close_events (objects_of self.old name.now) position) self.new [] }
        ensures closed { result ≡ can_close (objects_of self.old name.now) position }
    {
        match self.by_name.get_mut(name) {
            Some(object) => object.close(position),
            None => false,
        }
    }
}
