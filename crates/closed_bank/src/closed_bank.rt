ghost use Rattle.std.specs.Prelude.{◌≡◌, ◌↔◌, IsSome};
ghost use Rattle.bank.specs.declared.status.Status.TheVariants as status;

use bank::{Answer, Bank, Status};
use std::marker::Model;
use tag::Tag;

mod serving;

/// What a member keeps of a position whose pointer is final: the greatest tag that its bank has finalized. A final
/// pointer never changes again, so the closed bank need not store it. It has no pieces.
///
/// It answers all requests but fetches as the whole bank would, and declines each fetch, as if the request had been
/// lost: a fetch that was answered with no piece would say that the member had none.
#[derive(Debug)]
pub struct ClosedBank {
    greatest: Tag,
}

impl Drop for ClosedBank {
    fn drop(self) {
        let Self { greatest: _ } = self;
    }
}

impl Model for ClosedBank {
    ghost use Rattle.closed_bank.specs.ClosedBank.{ClosedBank as Closed};

    ghost Value = { Closed };

    ghost view = { λ c. record { greatest = c.greatest } };
}

impl ClosedBank {
    ghost use Rattle.bank.specs.Pointer.{status_of};
    ghost use Rattle.closed_bank.specs.ClosedBank.{closed_of};

    /// Closes a bank: returns what is kept of it if its pointer is final, and otherwise none.
    pub fn of(bank: &Bank) -> Option<ClosedBank>
        ensures closed { result ≡ closed_of bank.now }
        ensures some { IsSome result ↔ (status_of bank.now.pointer ≡ status.Final) }
    {
        if bank.pointer().status() != Status::Final {
            return None;
        }
        match bank.query(0).answer {
            Answer::Greatest(greatest) => Some(ClosedBank { greatest }),
            _ => unreachable!(),
        }
    }

    /// Returns the greatest tag that was finalized.
    pub fn greatest(&self) -> Tag
        ensures { result ≡ self.now.greatest }
    {
        self.greatest
    }
}
