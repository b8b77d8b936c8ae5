ghost use Rattle.std.specs.Prelude.{◌≡◌, false, IfOk, IfErr, OnOk, OnErr, IsOk};
ghost use Rattle.tag.specs.declared.refusal.Refusal.TheVariants.{NoMemory};

use crate::{Bank, Reply, Request};
use tag::{Refusal, Stamp};

impl Bank {
    ghost use Rattle.bank.specs.Facts.{IsBefore, IsServed};
    ghost use Rattle.bank.specs.Serve.{served_bank, reply_to, kind_of, takes_memory};

    /// Serves a request of any kind, as the method for that kind does. A piece that the bank keeps shares its bytes
    /// with the one in the request. `NoMemory` is the only refusal.
    pub fn serve(&mut self, request: &Request, now: Stamp) -> Result<Reply, Refusal>
        ensures bank { OnOk result (self.new ≡ served_bank self.old request.now now) }
        ensures reply { IfOk result (λ r. r ≡ reply_to self.old request.now now) }
        ensures served { IsBefore self.old now
            → IfOk result (λ r. IsServed self.old self.new now (kind_of request.now) r.answer) }

        ensures refused { IfErr result (λ e. e ≡ NoMemory) }
        ensures unchanged { OnErr result (self.new ≡ self.old) }
        ensures spared { takes_memory self.old request.now ≡ false → IsOk result }
    {
        match request {
            Request::Next => Ok(self.ask_next(now)),
            Request::Spread(status) => Ok(self.put_next(*status, now)),
            Request::Query => Ok(self.query(now)),
            Request::PreWrite(tag, piece) => {
                let piece = piece.clone()?;
                self.pre_write(*tag, piece, now)
            }
            Request::Finalize(tag) => self.finalize(*tag, now),
            Request::Fetch(tag) => self.fetch(*tag, now),
        }
    }
}
