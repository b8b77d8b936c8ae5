//! Commands that begin a call, and `supply-as`. Each function reads the words after those that name its command.
ghost use Rattle.std.specs.Prelude.{◌∷◌, codes, map};
ghost use Rattle.script.specs.Command.{ParsesToCommand};

use crate::arguments::{name_and_bytes, name_and_number, name_number_and_bytes, one_name};
use crate::change::Change;
use crate::command::Command;
use crate::error::LineError;
use std::alloc::Global;

/// `call read`, `call write` or `call move`, from the words after `call`.
pub(crate) fn call<'a>(alloc: Global, words: &[&'a str]) -> Result<Command<'a>, LineError>
    ensures { ParsesToCommand (codes "call" ∷ map (λ w. w.now) words.now) result }
{
    let Some((kind, rest)) = words.split_first() else {
        return Err(LineError::Bad);
    };
    match *kind {
        "read" => call_read(rest),
        "write" => call_write(alloc, rest),
        "move" => call_move(rest),
        _ => Err(LineError::Bad),
    }
}

fn call_read<'a>(words: &[&'a str]) -> Result<Command<'a>, LineError>
    ensures { ParsesToCommand (codes "call" ∷ codes "read" ∷ map (λ w. w.now) words.now) result }
{
    let name = one_name(words)?;
    Ok(Command::Change(Change::CallRead { name }))
}

fn call_write<'a>(alloc: Global, words: &[&'a str]) -> Result<Command<'a>, LineError>
    ensures { ParsesToCommand (codes "call" ∷ codes "write" ∷ map (λ w. w.now) words.now) result }
{
    let (name, value) = name_and_bytes(alloc, words)?;
    Ok(Command::Change(Change::CallWrite { name, value }))
}

fn call_move<'a>(words: &[&'a str]) -> Result<Command<'a>, LineError>
    ensures { ParsesToCommand (codes "call" ∷ codes "move" ∷ map (λ w. w.now) words.now) result }
{
    let (name, layout) = name_and_number(words)?;
    Ok(Command::Change(Change::CallMove { name, layout }))
}

pub(crate) fn supply_as<'a>(alloc: Global, words: &[&'a str]) -> Result<Command<'a>, LineError>
    ensures { ParsesToCommand (codes "supply-as" ∷ map (λ w. w.now) words.now) result }
{
    let (name, call, value) = name_number_and_bytes(alloc, words)?;
    Ok(Command::Change(Change::SupplyAs { name, call, value }))
}
