//! The arguments of a `MOVE`.
ghost use Rattle.std.specs.Prelude.{◌≡◌, ◌≤◌, ◌<◌, length, IfOk};
ghost use Rattle.tag.specs.declared.limits.TheConstants.{MOST_MEMBERS};
ghost use Rattle.client_commands.specs.Layouts.{small_number, small_numbers, move_layout, layout_from};
ghost use Rattle.words.specs.Parts.{Sees};

use crate::command::CommandName;
use crate::fault::CommandFault;
use arrayvec::ArrayVec;
use bytes::Bytes;
use layout::Layout;
use node_strings::{checked_layout, read_number};
use tag::{LONGEST_NAME, MOST_MEMBERS};

/// Returns the layout of a `MOVE`, whose arguments are a name, a k and the nodes.
#[tactic(auto, unfolding(crate::specs::Layouts::layout_from))]
pub(crate) fn read_layout(arguments: &[Bytes]) -> Result<Layout, CommandFault>
    ensures some { IfOk result (λ _. 0 < length arguments.now) }
    ensures exact { result ≡ layout_from arguments.now }
{
    match arguments {
        [name, k, nodes @ ..] => move_layout(name, k, nodes),
        [_] => Err(CommandFault::WrongCount(CommandName::Move)),
        [] => Err(CommandFault::WrongCount(CommandName::Move)),
    }
}

#[tactic(auto, unfolding(crate::specs::Layouts::move_layout))]
fn move_layout(name: &[u8], k: &[u8], nodes: &[Bytes]) -> Result<Layout, CommandFault>
    ensures { result ≡ move_layout name.now k.now nodes.now }
{
    if nodes.is_empty() || nodes.len() > MOST_MEMBERS {
        return Err(CommandFault::WrongCount(CommandName::Move));
    }
    if name.len() > LONGEST_NAME {
        return Err(CommandFault::NameTooLong);
    }
    let k = small_number(k)?;
    let members = small_numbers(nodes)?;
    checked_layout(k, &members, CommandFault::BadLayout)
}

// The number from 0 to 255 that the string writes.
fn small_number(string: &[u8]) -> Result<u8, CommandFault>
    ensures { result ≡ small_number string.now }
{
    let number = read_number(
        string,
        255,
        CommandFault::BadNumber,
        CommandFault::OutOfRange,
    )?;
    Ok(number as u8)
}

// The numbers from 0 to 255 that the strings write.
fn small_numbers(strings: &[Bytes]) -> Result<ArrayVec<u8, MOST_MEMBERS>, CommandFault>
    requires { length strings.now ≤ MOST_MEMBERS }
    ensures { Sees (λ numbers. numbers.items) result (small_numbers strings.now) }
{
    let mut numbers = ArrayVec::new();
    for string in strings {
        let number = small_number(string)?;
        numbers.push(number);
    }
    Ok(numbers)
}
