//! What a node keeps of its bank for a position.

ghost use Rattle.std.specs.Prelude.{◌≡◌, ◌-◌, ◌^◌, min, is_some, IfOk, IfErr, OnErr, OnOk, Some};
ghost use Rattle.tag.specs.declared.refusal.Refusal.TheVariants.{NoMemory};
ghost use Rattle.bank.specs.Serve.{reply_to};
ghost use Rattle.local_object.specs.ChangedBanks.{bank_after, changes_kept, kept_after};
ghost use Rattle.local_object.specs.Changing.{kept_bytes};
ghost use Rattle.local_object.specs.KeptBanks.{closing, kept_reply};

use crate::changes::is_whole_changed;
use bank::{Bank, Reply, Request, Status};
use closed_bank::ClosedBank;
use tag::Refusal;

/// What a node keeps of its bank for a position.
#[derive(Debug, Drop)]
pub enum KeptBank {
    /// The bank itself.
    Open(Bank),
    /// What is left of a bank whose pointer is final, once the node closed it.
    Closed(ClosedBank),
}

impl KeptBank {
    /// The bank serves a request. Returns none if the bank is closed and declines the request.
    ///
    /// `NoMemory` is the only refusal.
    pub(crate) fn serve(&mut self, request: &Request) -> Result<Option<Reply>, Refusal>
        ensures bank { OnOk result (self.new ≡ kept_after self.old request.now) }
        ensures reply { IfOk result (λ r. r ≡ kept_reply self.old request.now) }
        ensures refused { IfErr result (λ e. e ≡ NoMemory) }
        ensures unchanged { OnErr result (self.new ≡ self.old) }
    {
        match self {
            KeptBank::Open(bank) => {
                let reply = serve_short(bank, request)?;
                Ok(Some(reply))
            }
            KeptBank::Closed(closed) => Ok(closed.serve(request, 0)),
        }
    }

    /// Returns whether a request may change the bank.
    pub(crate) fn is_changed_by(&self, request: &Request) -> bool
        ensures { result ≡ changes_kept self.now request.now }
    {
        match self {
            KeptBank::Open(bank) => is_whole_changed(Some(bank), request),
            KeptBank::Closed(closed) => closed.is_changed_by(request),
        }
    }

    /// Returns whether the bank can be closed: whether it is open, and its pointer is final.
    pub(crate) fn can_close(&self) -> bool
        ensures { result ≡ is_some (closing (Some self.now)) }
    {
        match self {
            KeptBank::Open(bank) => bank.pointer().status() == Status::Final,
            KeptBank::Closed(_) => false,
        }
    }

    /// The number of bytes of all pieces in the bank, or `u64::MAX` if there are more.
    pub(crate) fn bytes(&self) -> u64
        ensures { result ≡ min (kept_bytes self.now) (2 ^ 64 - 1) }
    {
        match self {
            KeptBank::Open(bank) => bank.bytes_anew(),
            KeptBank::Closed(_) => 0,
        }
    }
}

/// The bank serves a request, and then forgets the tags on which no answer depends any more.
pub(crate) fn serve_short(bank: &mut Bank, request: &Request) -> Result<Reply, Refusal>
    ensures bank { OnOk result (bank.new ≡ bank_after bank.old request.now) }
    ensures reply { IfOk result (λ r. r ≡ reply_to bank.old request.now 0) }
    ensures refused { IfErr result (λ e. e ≡ NoMemory) }
    ensures unchanged { OnErr result (bank.new ≡ bank.old) }
{
    let reply = bank.serve(request, 0)?;
    bank.forget();
    Ok(reply)
}
