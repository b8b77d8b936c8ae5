ghost use Rattle.std.specs.Prelude.{◌≡◌, ◌<◌, ◌^◌, length, map, slice_get, slice_set, slice_index, option_copied, Some};
ghost use Rattle.std.specs.Prelude.{IfOk, IfErr, OnOk, OnErr, IfSome};
ghost use Rattle.tag.specs.declared.refusal.Refusal.TheVariants.{NoMemory};
ghost use Rattle.bank.specs.Collect.{retired_bank};
ghost use Rattle.register.specs.Position.{banks_bytes};

use bank::{Bank, Reply, Request};
use layout::Layout;
use std::alloc::Global;
use std::marker::Model;
use tag::{Refusal, Stamp};

/// A position of an object: its layout, and a bank for each member.
#[derive(Debug)]
pub struct Position {
    layout: Layout,
    banks: Vec<Bank>,
}

impl Drop for Position {
    fn drop(self) {
        let Self {
            layout: _,
            banks: _,
        } = self;
    }
}

impl Model for Position {
    ghost use Rattle.layout.specs.contracts.layout.Layout as arrangement;
    ghost use Rattle.bank.specs.contracts.bank.Bank as table;
    ghost use Rattle.register.specs.Position.{Position as Place, position_code};

    ghost Value = { Place };

    ghost coded = { position_code arrangement.the_row.coded table.the_row.coded };

    ghost view = { λ p. record { layout = p.layout; banks = p.banks.items } };
}

impl Position {
    ghost use Rattle.layout.specs.Layout.{IsLawful};
    ghost use Rattle.bank.specs.Bank.{Bank as Table};
    ghost use Rattle.bank.specs.Bytes.{bank_bytes};
    ghost use Rattle.bank.specs.Serve.{served_bank, reply_to};
    ghost use Rattle.record.specs.Accounts.{position_bytes};
    ghost use Rattle.record.specs.Steps.{opened_banks};

    /// Makes a position whose banks are opened at step `now`, and keep `delta` finalized versions besides the newest,
    /// or all without `delta`. `NoMemory` is the only refusal.
    pub(crate) fn new(
        alloc: Global,
        layout: Layout,
        delta: Option<u32>,
        now: Stamp,
    ) -> Result<Position, Refusal>
        ensures opened { IfOk result (λ p. p ≡ record {
          layout = layout;
          banks = opened_banks layout.members 0 delta now;
        }) }
        ensures lawful { IfOk result (λ p. IsLawful p.layout) }
        ensures refused { IfErr result (λ e. e ≡ NoMemory) }
    {
        let mut banks = Vec::with_capacity(alloc, usize::from(layout.n()))?;
        for member in 0..layout.n() {
            banks.push(Bank::new(alloc, member, delta, now)?)?;
        }
        Ok(Position { layout, banks })
    }

    /// Returns the layout.
    pub(crate) fn layout(&self) -> &Layout
        ensures { result.now ≡ self.now.layout }
    {
        &self.layout
    }

    /// Returns the bank of a member.
    pub(crate) fn bank(&self, member: u8) -> Option<&Bank>
        ensures { option_copied result ≡ slice_get self.now.banks member }
    {
        self.banks.get(usize::from(member))
    }

    /// Returns how many bytes of pieces the bank of a member stores.
    pub(crate) fn bytes(&self, member: u8) -> u64
        requires there { member < length self.now.banks }
        requires room { (b : Table) → slice_get self.now.banks member ≡ Some b → bank_bytes b < 2 ^ 64 }
        ensures { (b : Table) → slice_get self.now.banks member ≡ Some b → result ≡ bank_bytes b }
    {
        self.banks[usize::from(member)].bytes()
    }

    /// A member's bank serves a request at step `now`.
    pub(crate) fn serve(
        &mut self,
        member: u8,
        request: &Request,
        now: Stamp,
    ) -> Result<Reply, Refusal>
        requires { member < length self.old.banks }
        ensures layout { self.new.layout ≡ self.old.layout }
        ensures bank { OnOk result ((b : Table) → slice_get self.old.banks member ≡ Some b
            → self.new.banks ≡ slice_set self.old.banks member (served_bank b request.now now)) }

        ensures reply { IfOk result (λ r. (b : Table) → slice_get self.old.banks member ≡ Some b
            → r ≡ reply_to b request.now now) }

        ensures refused { IfErr result (λ e. e ≡ NoMemory) }
        ensures unchanged { OnErr result (self.new ≡ self.old) }
    {
        self.banks[usize::from(member)].serve(request, now)
    }

    /// Retires the banks at step `now`: they drop all pieces, and each piece that comes later. Returns how many bytes
    /// this frees.
    pub(crate) fn retire(&mut self, now: Stamp) -> u64
        requires room { banks_bytes self.old.banks < 2 ^ 64 }
        ensures layout { self.new.layout ≡ self.old.layout }
        ensures banks { self.new.banks ≡ map (λ bank. retired_bank bank now) self.old.banks }
        ensures freed { result ≡ banks_bytes self.old.banks }
    {
        retire_all(&mut self.banks, now)
    }

    /// Returns how many bytes of pieces this server stores at the position: 0 if it is no member.
    pub(crate) fn stored(&self, server: u8) -> u64
        requires lawful { IsLawful self.now.layout }
        requires room { position_bytes server self.now.layout.members self.now.banks < 2 ^ 64 }
        ensures { result ≡ position_bytes server self.now.layout.members self.now.banks }
    {
        // The layout names no server twice.
        match self.layout.point_of(server) {
            Some(member) => match self.bank(member) {
                Some(bank) => bank.bytes(),
                None => 0,
            },
            None => 0,
        }
    }
}

// Retires these banks at step `now`. Returns how many bytes this frees.
fn retire_all(banks: &mut [Bank], now: Stamp) -> u64
    requires room { banks_bytes banks.old < 2 ^ 64 }
    ensures banks { banks.new ≡ map (λ bank. retired_bank bank now) banks.old }
    ensures freed { result ≡ banks_bytes banks.old }
{
    let mut freed = 0;
    for member in 0..banks.len() {
        freed += banks[member].retire(now);
    }
    freed
}
