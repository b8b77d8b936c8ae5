//! Commands about the mail and the banks of an object. Each function reads the words after those that name its command.
ghost use Rattle.std.specs.Prelude.{◌∷◌, codes, map};
ghost use Rattle.script.specs.Command.{ParsesToCommand};

use crate::arguments::{name_and_two_numbers, one_name};
use crate::change::Change;
use crate::command::Command;
use crate::error::LineError;

pub(crate) fn deliver<'a>(words: &[&'a str]) -> Result<Command<'a>, LineError>
    ensures { ParsesToCommand (codes "deliver" ∷ map (λ w. w.now) words.now) result }
{
    let name = one_name(words)?;
    Ok(Command::Change(Change::Deliver { name }))
}

pub(crate) fn mail<'a>(words: &[&'a str]) -> Result<Command<'a>, LineError>
    ensures { ParsesToCommand (codes "mail" ∷ map (λ w. w.now) words.now) result }
{
    let name = one_name(words)?;
    Ok(Command::Mail { name })
}

pub(crate) fn bank<'a>(words: &[&'a str]) -> Result<Command<'a>, LineError>
    ensures { ParsesToCommand (codes "bank" ∷ map (λ w. w.now) words.now) result }
{
    let (name, position, member) = name_and_two_numbers(words)?;
    Ok(Command::Bank {
        name,
        position,
        member,
    })
}
