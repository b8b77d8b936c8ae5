//! Commands that make a whole call, and those about the history of an object. Each function reads the words after those
//! that name its command.
ghost use Rattle.std.specs.Prelude.{◌∷◌, codes, map};
ghost use Rattle.script.specs.Command.{ParsesToCommand};

use crate::arguments::{
    name_and_numbers, name_and_turns, name_bytes_and_turns, name_number_and_turns, one_name,
};
use crate::change::Change;
use crate::command::Command;
use crate::error::LineError;
use std::alloc::Global;

pub(crate) fn read<'a>(words: &[&'a str]) -> Result<Command<'a>, LineError>
    ensures { ParsesToCommand (codes "read" ∷ map (λ w. w.now) words.now) result }
{
    let (name, turns) = name_and_turns(words)?;
    Ok(Command::Change(Change::Read { name, turns }))
}

pub(crate) fn write<'a>(alloc: Global, words: &[&'a str]) -> Result<Command<'a>, LineError>
    ensures { ParsesToCommand (codes "write" ∷ map (λ w. w.now) words.now) result }
{
    let (name, value, turns) = name_bytes_and_turns(alloc, words)?;
    Ok(Command::Change(Change::Write { name, value, turns }))
}

pub(crate) fn move_to<'a>(words: &[&'a str]) -> Result<Command<'a>, LineError>
    ensures { ParsesToCommand (codes "move" ∷ map (λ w. w.now) words.now) result }
{
    let (name, layout, turns) = name_number_and_turns(words)?;
    Ok(Command::Change(Change::Move {
        name,
        layout,
        turns,
    }))
}

pub(crate) fn resume<'a>(words: &[&'a str]) -> Result<Command<'a>, LineError>
    ensures { ParsesToCommand (codes "resume" ∷ map (λ w. w.now) words.now) result }
{
    let (name, call, turns) = name_number_and_turns(words)?;
    Ok(Command::Change(Change::Resume { name, call, turns }))
}

pub(crate) fn history<'a>(words: &[&'a str]) -> Result<Command<'a>, LineError>
    ensures { ParsesToCommand (codes "history" ∷ map (λ w. w.now) words.now) result }
{
    let name = one_name(words)?;
    Ok(Command::History { name })
}

pub(crate) fn sequence<'a>(words: &[&'a str]) -> Result<Command<'a>, LineError>
    ensures { ParsesToCommand (codes "sequence" ∷ map (λ w. w.now) words.now) result }
{
    let name = one_name(words)?;
    Ok(Command::Sequence { name })
}

pub(crate) fn check<'a>(alloc: Global, words: &[&'a str]) -> Result<Command<'a>, LineError>
    ensures { ParsesToCommand (codes "check" ∷ map (λ w. w.now) words.now) result }
{
    let (name, calls) = name_and_numbers(alloc, words)?;
    Ok(Command::Check { name, calls })
}
