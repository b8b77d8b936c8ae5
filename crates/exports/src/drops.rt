//! When the pieces of a bank were dropped.
use bank::{Bank, Label, Row};
use std::alloc::{AllocError, Global};
use std::collections::BTreeSet;
use tag::Stamp;

/// For each tag of a bank, from the greatest down, the step at which its piece was dropped; none if it was not, or was
/// never kept.
#[derive(Drop)]
pub(crate) struct Drops(Vec<Option<Stamp>>);

impl Drops {
    /// When the pieces of this bank were dropped. A retired bank keeps no piece, and a bank with `delta` keeps none of
    /// a finalized tag once `delta` + 1 greater tags are finalized.
    pub(crate) fn of(alloc: Global, bank: &Bank) -> Result<Drops, AllocError> {
        let mut steps = Vec::new(alloc);
        if bank.delta().is_none() && bank.retired().is_none() {
            return Ok(Drops(steps));
        }
        let mut above = FinalsAbove::new(alloc, bank.delta());
        for i in (0..bank.count()).rev() {
            let row = bank.kept(i).1;
            let finalized = finalized_at(row);
            let step = earlier(bank.retired(), later(finalized, above.full()));
            steps.push(kept_until(row, step))?;
            above.add(finalized)?;
        }
        Ok(Drops(steps))
    }

    /// Returns the step for a tag, where `i` tags of the bank are below it.
    pub(crate) fn step(&self, i: usize) -> Option<Stamp> {
        *self.0.get(self.0.len().checked_sub(i)?.checked_sub(1)?)?
    }

    /// Returns whether a piece was dropped, other than that of the opening tag.
    pub(crate) fn any(&self) -> bool {
        for i in 1..self.0.len() {
            if self.step(i).is_some() {
                return true;
            }
        }
        false
    }
}

// The first steps at which greater tags were finalized, at most `delta` + 1 of them. It stays empty without `delta`.
#[derive(Drop)]
struct FinalsAbove {
    steps: BTreeSet<Stamp>,
    most: usize,
}

impl FinalsAbove {
    fn new(alloc: Global, delta: Option<u32>) -> FinalsAbove {
        let most = match delta {
            Some(delta) => (delta as usize).saturating_add(1),
            None => 0,
        };
        FinalsAbove {
            steps: BTreeSet::new(alloc),
            most,
        }
    }

    // The step by which `delta` + 1 greater tags were finalized; none where fewer are.
    fn full(&self) -> Option<Stamp> {
        if self.most > 0 && self.steps.len() == self.most {
            self.steps.last().copied()
        } else {
            None
        }
    }

    fn add(&mut self, finalized: Option<Stamp>) -> Result<(), AllocError> {
        if let Some(step) = finalized {
            self.steps.insert(step)?;
        }
        if self.steps.len() > self.most {
            self.steps.pop_last();
        }
        Ok(())
    }
}

// The step, where the piece came before it; otherwise none.
fn kept_until(row: &Row, step: Option<Stamp>) -> Option<Stamp> {
    let arrival = row.arrival.as_ref()?;
    if arrival.step < step? { step } else { None }
}

fn finalized_at(row: &Row) -> Option<Stamp> {
    match row.label {
        Label::Finalized { since } => Some(since),
        Label::PreWritten { .. } => None,
    }
}

// The later of two steps; none unless both are there.
fn later(a: Option<Stamp>, b: Option<Stamp>) -> Option<Stamp> {
    Some(a?.max(b?))
}

// The earlier of two steps, either of which may be missing; none if both are.
fn earlier(a: Option<Stamp>, b: Option<Stamp>) -> Option<Stamp> {
    match (a, b) {
        (Some(a), Some(b)) => Some(a.min(b)),
        (Some(step), None) | (None, Some(step)) => Some(step),
        (None, None) => None,
    }
}
