//! Where the servers of a position are drawn.
use crate::drops::Drops;
use crate::object_view::ObjectView;
use bank::{Bank, Label};
use std::alloc::{AllocError, Global};
use tag::Stamp;

/// The lanes of the servers of a position, and what happened to their banks.
#[derive(Drop)]
pub(crate) struct Place {
    pub(crate) position: u32,
    /// The upper edge of the first lane.
    pub(crate) top: u64,
    pub(crate) members: u8,
    /// The step at which the banks of the position were opened.
    pub(crate) opened: Stamp,
    /// The step at which the position was retired; none if it was not.
    pub(crate) retired: Option<Stamp>,
    /// For each member, when its pieces were dropped.
    pub(crate) drops: Vec<Drops>,
}

impl Place {
    /// Returns the lanes of a position from the line `top` down; none if there is no such position.
    pub(crate) fn of<O: ObjectView>(
        alloc: Global,
        object: &O,
        position: u32,
        top: u64,
    ) -> Result<Option<Place>, AllocError> {
        let Some(first) = object.bank_view(position, 0) else {
            return Ok(None);
        };
        let members = match object.layout_view(position) {
            Some(layout) => layout.n(),
            None => 0,
        };
        let mut drops = Vec::new(alloc);
        for member in 0..members {
            if let Some(bank) = object.bank_view(position, member) {
                drops.push(Drops::of(alloc, bank)?)?;
            }
        }
        Ok(Some(Place {
            position,
            top,
            members,
            opened: opened_at(first),
            retired: first.retired(),
            drops,
        }))
    }
}

// The step at which a bank was opened. It is known from the opening tag, which is the least one.
fn opened_at(bank: &Bank) -> Stamp {
    if bank.count() == 0 {
        return 0;
    }
    match bank.kept(0).1.label {
        Label::PreWritten { since } | Label::Finalized { since } => since,
    }
}
