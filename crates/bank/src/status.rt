ghost use Rattle.std.specs.Prelude.{◌≡◌};
ghost use Rattle.bank.specs.Pointer.{status_of, raised};

use tag::Stamp;

/// The status of a bank's pointer: what the bank knows about the next position.
#[derive(Clone, Copy, Debug, PartialEq, Eq, PartialOrd, Ord, Hash)]
pub enum Status {
    /// The bank knows of no next position.
    Unset,
    /// A move to the next position has begun.
    Pending,
    /// The move to the next position has finished copying the value there.
    Final,
}

/// The pointer of a bank: a status, with the steps at which it stopped being unset and became final.
#[derive(Clone, Copy, Debug, PartialEq, Eq, Hash)]
pub enum Pointer {
    /// The pointer is unset.
    Unset,
    /// The pointer has been pending since step `since`.
    Pending { since: Stamp },
    /// The pointer stopped being unset at step `pending`, and became final at step `since`.
    Final { pending: Stamp, since: Stamp },
}

impl Pointer {
    /// Returns the status without its steps.
    pub fn status(self) -> Status
        ensures { result ≡ status_of self }
    {
        match self {
            Pointer::Unset => Status::Unset,
            Pointer::Pending { since: _ } => Status::Pending,
            Pointer::Final {
                pending: _,
                since: _,
            } => Status::Final,
        }
    }

    /// Returns the pointer raised to `status` at step `now` if that is greater, and otherwise the same pointer.
    pub(crate) fn raised(self, status: Status, now: Stamp) -> Pointer
        ensures { result ≡ raised self status now }
    {
        match (self, status) {
            (Pointer::Unset, Status::Pending) => Pointer::Pending { since: now },
            (Pointer::Unset, Status::Final) => Pointer::Final {
                pending: now,
                since: now,
            },
            (Pointer::Pending { since }, Status::Final) => Pointer::Final {
                pending: since,
                since: now,
            },
            _ => self,
        }
    }
}
