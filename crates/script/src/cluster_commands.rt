//! Commands about the cluster as a whole. Each function reads the words after those that name its command.
ghost use Rattle.std.specs.Prelude.{◌∷◌, codes, map};
ghost use Rattle.script.specs.Command.{ParsesToCommand};

use crate::arguments::{
    name_number_and_delta, no_words, number_and_members, one_number, servers_count,
};
use crate::change::Change;
use crate::command::Command;
use crate::error::LineError;
use std::alloc::Global;

pub(crate) fn servers<'a>(words: &[&'a str]) -> Result<Command<'a>, LineError>
    ensures { ParsesToCommand (codes "servers" ∷ map (λ w. w.now) words.now) result }
{
    let count = servers_count(words)?;
    Ok(Command::Servers { count })
}

pub(crate) fn layout<'a>(alloc: Global, words: &[&'a str]) -> Result<Command<'a>, LineError>
    ensures { ParsesToCommand (codes "layout" ∷ map (λ w. w.now) words.now) result }
{
    let (k, members) = number_and_members(alloc, words)?;
    Ok(Command::Change(Change::Layout { k, members }))
}

pub(crate) fn object<'a>(words: &[&'a str]) -> Result<Command<'a>, LineError>
    ensures { ParsesToCommand (codes "object" ∷ map (λ w. w.now) words.now) result }
{
    let (name, layout, delta) = name_number_and_delta(words)?;
    Ok(Command::Change(Change::Object {
        name,
        layout,
        delta,
    }))
}

pub(crate) fn down<'a>(words: &[&'a str]) -> Result<Command<'a>, LineError>
    ensures { ParsesToCommand (codes "down" ∷ map (λ w. w.now) words.now) result }
{
    let server = one_number(words)?;
    Ok(Command::Change(Change::Down { server }))
}

pub(crate) fn up<'a>(words: &[&'a str]) -> Result<Command<'a>, LineError>
    ensures { ParsesToCommand (codes "up" ∷ map (λ w. w.now) words.now) result }
{
    let server = one_number(words)?;
    Ok(Command::Change(Change::Up { server }))
}

pub(crate) fn account<'a>(words: &[&'a str]) -> Result<Command<'a>, LineError>
    ensures { ParsesToCommand (codes "account" ∷ map (λ w. w.now) words.now) result }
{
    no_words(words)?;
    Ok(Command::Account)
}
