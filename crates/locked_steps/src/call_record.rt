//! What a seat keeps of its calls.

ghost use Rattle.std.specs.Prelude.{◌≡◌, IfOk, IfErr};
ghost use Rattle.tag.specs.declared.refusal.Refusal.TheVariants.{NoMemory};
ghost use Rattle.locked_steps.specs.Seats.{begun_operation, written_len, written_of};

use bytes::Bytes;
use record::Operation;
use register::Receipt;
use tag::{CallId, Refusal, Stamp};

/// The call that a client asks for.
#[derive(Debug, Drop)]
pub enum Begin {
    /// A read.
    Read,
    /// A write of this value.
    Write(Bytes),
}

/// A call that a seat began.
#[derive(Debug)]
pub struct CallRecord {
    /// The object's place in the order of creation, from 0.
    pub object: u32,
    /// The call's number in its object, from 1.
    pub call: CallId,
    /// What the call does: it reads or it writes.
    pub kind: Operation,
    /// The value of a write; none for a read.
    pub written: Option<Bytes>,
    /// The seat's floor when the call began: the greatest answer step that the seat had seen.
    pub floor: Stamp,
    /// The number of the step that began the call.
    pub called: Stamp,
    /// The receipt; none before the answer.
    pub receipt: Option<Receipt>,
}

impl Drop for CallRecord {
    fn drop(self) {
        let Self {
            object: _,
            call: _,
            kind: _,
            written: _,
            floor: _,
            called: _,
            receipt: _,
        } = self;
    }
}

impl Begin {
    /// Returns what the call does.
    pub(crate) fn operation(&self) -> Operation
        ensures { result ≡ begun_operation self.now }
    {
        match self {
            Begin::Read => Operation::Read,
            Begin::Write(_) => Operation::Write,
        }
    }

    /// Returns a copy of the value that a write brings, which shares its bytes; none for a read. `NoMemory` is the only
    /// refusal.
    pub(crate) fn written(&self) -> Result<Option<Bytes>, Refusal>
        ensures value { IfOk result (λ w. w ≡ written_of self.now) }
        ensures refused { IfErr result (λ r. r ≡ NoMemory) }
    {
        match self {
            Begin::Read => Ok(None),
            Begin::Write(value) => Ok(Some(value.clone()?)),
        }
    }

    /// Returns the length in bytes of the value that a write brings; 0 for a read.
    pub(crate) fn len(&self) -> usize
        ensures { result ≡ written_len self.now }
    {
        match self {
            Begin::Read => 0,
            Begin::Write(value) => value.len(),
        }
    }
}
