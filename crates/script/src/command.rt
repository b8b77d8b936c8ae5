//! The commands of a script, and the words that spell them.
ghost use Rattle.std.specs.Prelude.{◌∷◌, map};
ghost use Rattle.script.specs.Command.{ParsesToCommand};
ghost use Rattle.script.specs.FirstWord.{IsNoneOf, call_words, cluster_words, number_words};

use crate::change::Change;
use crate::error::LineError;
use crate::number_commands::{number_command, parse_number_command};
use crate::{call_commands, cluster_commands, mail_commands, object_commands};
use std::alloc::Global;

/// A command of a script. Each number is the one on the line, even if there is nothing of that number. A name is a word
/// of any length.
#[derive(Drop)]
pub enum Command<'a> {
    /// `servers S`: makes the cluster, with this many servers.
    Servers {
        count: u8,
    },
    /// A command that may change the cluster.
    Change(Change<'a>),
    /// `show NAME C`: prints how far a call has come.
    Show {
        name: &'a str,
        call: u64,
    },
    /// `mail NAME`: prints the waiting messages of an object.
    Mail {
        name: &'a str,
    },
    /// `bank NAME P I`: prints the bank of a member at a position. Members count in the order of the layout.
    Bank {
        name: &'a str,
        position: u64,
        member: u64,
    },
    /// `account`: prints the accounts of the cluster.
    Account,
    /// `history NAME`: prints the history of an object.
    History {
        name: &'a str,
    },
    /// `sequence NAME`: prints a register sequence of an object's calls.
    Sequence {
        name: &'a str,
    },
    /// `check NAME C1 C2 ..`: prints whether these calls, in this order, are a register sequence. The list may be
    /// empty.
    Check {
        name: &'a str,
        calls: Vec<u64>,
    },
}

/// Returns the command that the words of a line spell. It fails with `Bad` if they spell none, and with `NoMemory` if
/// memory is refused for the command's bytes or numbers.
pub fn parse_command<'a>(alloc: Global, words: &[&'a str]) -> Result<Command<'a>, LineError>
    ensures { ParsesToCommand (map (λ w. w.now) words.now) result }
{
    let Some((first, rest)) = words.split_first() else {
        return Err(LineError::Bad);
    };
    match number_command(first) {
        Some(kind) => parse_number_command(kind, rest),
        None => parse_cluster_command(alloc, first, rest),
    }
}

// Each of the functions below goes on where the first word begins no command of the groups before. One `match` of all
// words would take far longer to prove.
fn parse_cluster_command<'a>(
    alloc: Global,
    first: &'a str,
    rest: &[&'a str],
) -> Result<Command<'a>, LineError>
    requires { IsNoneOf number_words first.now }
    ensures { ParsesToCommand (first.entry.now ∷ map (λ w. w.now) rest.entry.now) result }
{
    match first {
        "servers" => cluster_commands::servers(rest),
        "layout" => cluster_commands::layout(alloc, rest),
        "object" => cluster_commands::object(rest),
        "down" => cluster_commands::down(rest),
        "up" => cluster_commands::up(rest),
        "account" => cluster_commands::account(rest),
        _ => parse_call_command(alloc, first, rest),
    }
}

fn parse_call_command<'a>(
    alloc: Global,
    first: &'a str,
    rest: &[&'a str],
) -> Result<Command<'a>, LineError>
    requires numbers { IsNoneOf number_words first.now }
    requires cluster { IsNoneOf cluster_words first.now }
    ensures { ParsesToCommand (first.entry.now ∷ map (λ w. w.now) rest.entry.now) result }
{
    match first {
        "call" => call_commands::call(alloc, rest),
        "supply-as" => call_commands::supply_as(alloc, rest),
        "deliver" => mail_commands::deliver(rest),
        "mail" => mail_commands::mail(rest),
        "bank" => mail_commands::bank(rest),
        _ => parse_object_command(alloc, first, rest),
    }
}

fn parse_object_command<'a>(
    alloc: Global,
    first: &'a str,
    rest: &[&'a str],
) -> Result<Command<'a>, LineError>
    requires numbers { IsNoneOf number_words first.now }
    requires cluster { IsNoneOf cluster_words first.now }
    requires calls { IsNoneOf call_words first.now }
    ensures { ParsesToCommand (first.entry.now ∷ map (λ w. w.now) rest.entry.now) result }
{
    match first {
        "read" => object_commands::read(rest),
        "write" => object_commands::write(alloc, rest),
        "move" => object_commands::move_to(rest),
        "resume" => object_commands::resume(rest),
        "history" => object_commands::history(rest),
        "sequence" => object_commands::sequence(rest),
        "check" => object_commands::check(alloc, rest),
        _ => Err(LineError::Bad),
    }
}
