//! The layouts at the end of a head, and the start.
ghost use Rattle.std.specs.Prelude.{◌≡◌, ◌%◌, ◌^◌};
ghost use Rattle.std.specs.Int.{w32, from_be_bytes, to_be_bytes};
ghost use Rattle.node_messages.specs.Gives.{Agrees, AgreesAtBytes, AgreesBefore};
ghost use Rattle.node_messages.specs.Layouts.{
  first_byte,
  first_layout,
  first_members,
  first_next,
  first_position,
  first_start,
  last_start,
  layouts_from,
  whole_head,
};

use crate::error::{Fault, MessageError};
use layout::Layout;
use letter::{SharedLayout, Start};
use node_strings::checked_layout;
use std::alloc::Global;

/// The layout of a message's position, that of the next position if there is one, and the start that the letter tells,
/// if it tells one.
#[derive(Drop)]
pub struct Layouts {
    pub layout: SharedLayout,
    pub next: Option<SharedLayout>,
    pub start: Option<Start>,
}

// The first byte.
#[tactic(auto, unfolding(crate::specs::Layouts::first_byte))]
fn byte_of(bytes: &[u8]) -> Result<(u8, &[u8]), Fault>
    ensures { AgreesAtBytes result (first_byte bytes.now) }
{
    match bytes {
        [first, rest @ ..] => Ok((*first, rest)),
        [] => Err(Fault::BadLayout),
    }
}

// The layout with this k, whose n members are the first bytes.
#[tactic(auto, unfolding(crate::specs::Layouts::first_members))]
fn members_of(n: u8, k: u8, bytes: &[u8]) -> Result<(Layout, &[u8]), Fault>
    ensures { AgreesAtBytes result (first_members n k bytes.now) }
{
    if bytes.len() < usize::from(n) {
        return Err(Fault::BadLayout);
    }
    let (members, rest) = bytes.split_at(usize::from(n));
    let layout = checked_layout(k, members, Fault::BadLayout)?;
    Ok((layout, rest))
}

// The layout in the first bytes.
#[tactic(auto, unfolding(crate::specs::Layouts::first_layout))]
fn layout_of(bytes: &[u8]) -> Result<(Layout, &[u8]), Fault>
    ensures { AgreesAtBytes result (first_layout bytes.now) }
{
    let (n, rest) = byte_of(bytes)?;
    let (k, rest) = byte_of(rest)?;
    members_of(n, k, rest)
}

// The layout in the first bytes, to be shared.
fn shared_of(alloc: Global, bytes: &[u8]) -> Result<(SharedLayout, &[u8]), MessageError>
    ensures { AgreesBefore result (first_layout bytes.now) }
{
    let (layout, rest) = layout_of(bytes)?;
    Ok((SharedLayout::new(alloc, layout)?, rest))
}

// The layout of the next position, where there is to be one.
#[tactic(auto, unfolding(crate::specs::Layouts::first_next))]
fn next_of(
    alloc: Global,
    is_named: bool,
    bytes: &[u8],
) -> Result<(Option<SharedLayout>, &[u8]), MessageError>
    ensures { AgreesBefore result (first_next is_named bytes.now) }
{
    if !is_named {
        return Ok((None, bytes));
    }
    let (layout, rest) = shared_of(alloc, bytes)?;
    Ok((Some(layout), rest))
}

// The number that four bytes write, high byte first.
fn number_of(bytes: &[u8; 4]) -> u32
    ensures value { result ≡ from_be_bytes w32 bytes.now % 2 ^ 32 }
    ensures bytes { to_be_bytes w32 result ≡ bytes.now }
{
    u32::from_be_bytes(*bytes)
}

// The position in the first bytes.
#[tactic(auto, unfolding(crate::specs::Layouts::first_position))]
fn position_of(bytes: &[u8]) -> Result<(u32, &[u8]), Fault>
    ensures { AgreesAtBytes result (first_position bytes.now) }
{
    match bytes.split_first_chunk::<4>() {
        Some((first, rest)) => Ok((number_of(first), rest)),
        None => Err(Fault::BadLayout),
    }
}

// The start in the first bytes.
#[tactic(auto, unfolding(crate::specs::Layouts::first_start))]
fn start_of(alloc: Global, bytes: &[u8]) -> Result<(Start, &[u8]), MessageError>
    ensures { AgreesBefore result (first_start bytes.now) }
{
    let (position, rest) = position_of(bytes)?;
    let (layout, rest) = shared_of(alloc, rest)?;
    Ok((Start { position, layout }, rest))
}

// This start, unless bytes are left behind it.
fn whole_head(start: Start, rest: &[u8]) -> Result<Option<Start>, MessageError>
    ensures { Agrees result (whole_head start rest.now) }
{
    match rest {
        [] => Ok(Some(start)),
        [_, ..] => Err(MessageError::Fault(Fault::LongHead)),
    }
}

// The start whose bytes these are, or none if there are no bytes.
#[tactic(auto, unfolding(crate::specs::Layouts::last_start))]
fn last_start(alloc: Global, bytes: &[u8]) -> Result<Option<Start>, MessageError>
    ensures { Agrees result (last_start bytes.now) }
{
    match bytes {
        [] => Ok(None),
        [_, ..] => {
            let (start, rest) = start_of(alloc, bytes)?;
            whole_head(start, rest)
        }
    }
}

/// Reads the layouts and the start of a head, where a next layout is named or not.
#[tactic(auto, unfolding(crate::specs::Layouts::layouts_from))]
pub(crate) fn layouts_of(
    alloc: Global,
    is_named: bool,
    bytes: &[u8],
) -> Result<Layouts, MessageError>
    ensures { Agrees result (layouts_from is_named bytes.now) }
{
    let (layout, rest) = shared_of(alloc, bytes)?;
    let (next, rest) = next_of(alloc, is_named, rest)?;
    let start = last_start(alloc, rest)?;
    Ok(Layouts {
        layout,
        next,
        start,
    })
}
