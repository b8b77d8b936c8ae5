//! What a node keeps for one position.

ghost use Rattle.std.specs.Prelude.{◌≡◌, ◌-◌, ◌^◌, min, IfOk, IfErr, OnOk, None, IsSome, option_copied};
ghost use Rattle.tag.specs.declared.refusal.Refusal.TheVariants.{NoMemory};
ghost use Rattle.bank.specs.Bank.{opened_bank};
ghost use Rattle.bank.specs.Serve.{reply_to};
ghost use Rattle.local_object.specs.ChangedBanks.{kept_bank};
ghost use Rattle.local_object.specs.KeptBanks.{after_closing, closing, kept_reply};

use crate::changes::is_changed;
use crate::kept_bank::{KeptBank, serve_short};
use bank::{Bank, Reply, Request};
use closed_bank::ClosedBank;
use layout::Layout;
use letter::SharedLayout;
use std::alloc::Global;
use std::marker::Model;
use tag::Refusal;

/// A position that a node has heard of.
#[derive(Debug, Drop)]
pub struct Place {
    position: u32,
    layout: SharedLayout,
    // The node's bank for this position. None before a request has changed it.
    bank: Option<KeptBank>,
}

impl Model for Place {
    ghost use Rattle.layout.specs.contracts.layout.Layout as arrangement;
    ghost use Rattle.bank.specs.contracts.bank.Bank as table;
    ghost use Rattle.closed_bank.specs.contracts.closed_bank.ClosedBank as closed;
    ghost use Rattle.local_object.specs.Local.{Place as Heard};
    ghost use Rattle.local_object.specs.Codes.{kept_code, place_code};
    ghost use Rattle.local_object.specs.Distinct.{IsBankInOrderIfOpen};

    ghost Value = { Heard };

    ghost coded = { place_code arrangement.the_row.coded (kept_code table.the_row.coded closed.the_row.coded) };

    ghost view = { λ p. record { position = p.position; layout = p.layout; bank = p.bank } };

    ghost invariant = { λ p. IsBankInOrderIfOpen p.bank };
}

impl Place {
    ghost use Rattle.local_object.specs.Changing.{place_bytes};
    ghost use Rattle.local_object.specs.Distinct.{IsBankInOrderIfOpen};
    ghost use Rattle.local_object.specs.Local.{bank_or_opened};
    ghost use Rattle.local_object.specs.New.{is_new_place};

    /// Makes a position of this layout, without a bank.
    pub(crate) fn new(position: u32, layout: SharedLayout) -> Place
        ensures { result ≡ record { position = position; layout = layout; bank = None } }
    {
        Place {
            position,
            layout,
            bank: None,
        }
    }

    /// Returns the number of the position, from 0.
    pub fn position(&self) -> u32
        ensures { result ≡ self.now.position }
    {
        self.position
    }

    /// Returns the layout of the position.
    pub fn layout(&self) -> &Layout
        ensures { result.now ≡ self.now.layout }
    {
        self.layout.layout()
    }

    /// Returns the layout of the position, to be shared.
    pub fn shared_layout(&self) -> &SharedLayout
        ensures { result.now ≡ self.now.layout }
    {
        &self.layout
    }

    /// The bank, open or closed, once a request has changed it.
    pub fn bank(&self) -> Option<&KeptBank>
        ensures bank { option_copied result ≡ self.now.bank }
        ensures order { IsBankInOrderIfOpen self.now.bank }
    {
        self.bank.as_ref()
    }

    /// Returns whether the place is position 0 with this layout, and without a bank.
    pub(crate) fn is_new(&self, first: &Layout) -> bool
        ensures { result ≡ is_new_place first.now self.now }
    {
        let is_first = self.position == 0;
        is_first && self.bank.is_none() && *self.layout() == *first
    }

    /// The number of bytes of all pieces in the bank, or `u64::MAX` if there are more.
    pub(crate) fn bytes(&self) -> u64
        ensures { result ≡ min (place_bytes self.now) (2 ^ 64 - 1) }
    {
        match &self.bank {
            Some(bank) => bank.bytes(),
            None => 0,
        }
    }

    /// The node's bank serves a request as this member. If the bank is not there, a newly opened one serves the
    /// request, and is kept if the request may change it. Returns none if the bank is closed and declines the request.
    ///
    /// `NoMemory` is the only refusal.
    pub(crate) fn serve(
        &mut self,
        alloc: Global,
        member: u8,
        delta: Option<u32>,
        request: &Request,
    ) -> Result<Option<Reply>, Refusal>
        ensures bank { OnOk result (self.new ≡ record self.old {
          bank = kept_bank self.old.bank member delta request.now;
        }) }

        ensures reply { IfOk result (λ r. r ≡ kept_reply (bank_or_opened self.old.bank member delta) request.now) }
        ensures refused { IfErr result (λ e. e ≡ NoMemory) }
        ensures same { self.new.position ≡ self.old.position }
    {
        match &mut self.bank {
            Some(bank) => bank.serve(request),
            None => {
                let (reply, bank) = serve_opened(alloc, member, delta, request)?;
                self.bank = bank;
                Ok(Some(reply))
            }
        }
    }

    /// The node closes its bank, which is open and has a final pointer.
    pub(crate) fn close(&mut self)
        requires open { IsSome (closing self.old.bank) }
        ensures bank { self.new ≡ record self.old { bank = after_closing self.old.bank } }
        ensures same { self.new.position ≡ self.old.position }
    {
        let closed = match &self.bank {
            Some(KeptBank::Open(bank)) => ClosedBank::of(bank),
            _ => None,
        };
        if let Some(closed) = closed {
            self.bank = Some(KeptBank::Closed(closed));
        }
    }
}

// A newly opened bank serves a request as this member. Returns the reply, and the bank if the request may change it.
fn serve_opened(
    alloc: Global,
    member: u8,
    delta: Option<u32>,
    request: &Request,
) -> Result<(Reply, Option<KeptBank>), Refusal>
    ensures reply { IfOk result (λ it. it.0 ≡ reply_to (opened_bank member delta 0) request.now 0) }
    ensures bank { IfOk result (λ it. it.1 ≡ kept_bank None member delta request.now) }
    ensures refused { IfErr result (λ e. e ≡ NoMemory) }
{
    let mut bank = Bank::new(alloc, member, delta, 0)?;
    let reply = serve_short(&mut bank, request)?;
    if is_changed(None, request) {
        Ok((reply, Some(KeptBank::Open(bank))))
    } else {
        Ok((reply, None))
    }
}
