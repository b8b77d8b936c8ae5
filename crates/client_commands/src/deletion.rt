//! What a `DEL` has to do.
ghost use Rattle.std.specs.Prelude.{◌≡◌, IfOk};
ghost use Rattle.std.specs.List.{list_any};
ghost use Rattle.client_commands.specs.Deletion.{count_of, is_written_again, left_over, name_now, whole_deletion};
ghost use Rattle.client_commands.specs.Deleting.{delete_from, is_long};

use crate::command::{Command, CommandName};
use crate::fault::CommandFault;
use bytes::Bytes;
use std::alloc::AllocError;
use std::marker::Model;
use tag::LONGEST_NAME;

/// The names of a `DEL`, and how far it was carried out. The empty value is written to one name after another, to each
/// of them as often as `left` says.
#[derive(Debug, Drop)]
pub struct Deletion {
    // All names of the command, in its order.
    names: Vec<Bytes>,
    // How many of these names are deleted, from the first on.
    done: usize,
    // How many times the empty value was written to the name behind them.
    made: u32,
}

impl Model for Deletion {
    ghost use Rattle.client_commands.specs.Deletion.{Deletion as Removal};

    ghost Value = { Removal };

    ghost view = { λ it. record { names = it.names.items; done = it.done; made = it.made } };
}

impl Deletion {
    /// The `DEL` of these names, of which nothing is done yet.
    pub fn new(names: Vec<Bytes>) -> Deletion
        ensures { result ≡ whole_deletion names.items }
    {
        Deletion {
            names,
            done: 0,
            made: 0,
        }
    }

    /// Returns the name to which the empty value is written next. No byte of it is copied. If all names are deleted,
    /// it is the empty name. It fails only if there is no memory.
    pub fn name(&self) -> Result<Bytes, AllocError>
        ensures { IfOk result (λ name. name ≡ name_now self.now) }
    {
        match self.names.get(self.done) {
            Some(name) => Ok(name.clone()?),
            None => Ok(Bytes::new()),
        }
    }

    /// Returns how many names the command has, which is its answer at the end.
    pub fn count(&self) -> u64
        ensures { result ≡ count_of self.now }
    {
        self.names.len() as u64
    }

    /// Returns what is left when the next write has ended, if anything is left. With the bound `delta`, the empty value
    /// is written to each name `delta` + 1 times, so that the versions before it are no longer kept. Without a bound,
    /// it is written once.
    pub fn left(self, delta: Option<u32>) -> Option<Deletion>
        ensures { result ≡ left_over delta self }
    {
        if is_written_again(delta, self.made) {
            return Some(Deletion {
                names: self.names,
                done: self.done,
                made: self.made + 1,
            });
        }
        if self.names.len().saturating_sub(self.done) <= 1 {
            return None;
        }
        Some(Deletion {
            names: self.names,
            done: self.done + 1,
            made: 0,
        })
    }
}

// Whether the empty value is written to the same name once more.
fn is_written_again(delta: Option<u32>, made: u32) -> bool
    ensures { result ≡ is_written_again delta made }
{
    match delta {
        Some(delta) => made < delta,
        None => false,
    }
}

/// Returns the `DEL` with these arguments.
#[tactic(auto, unfolding(crate::specs::Deleting::delete_from))]
pub(crate) fn read_delete(arguments: Vec<Bytes>) -> Result<Command, CommandFault>
    ensures { result ≡ delete_from arguments.items }
{
    if arguments.is_empty() {
        return Err(CommandFault::WrongCount(CommandName::Del));
    }
    if has_long(&arguments) {
        return Err(CommandFault::NameTooLong);
    }
    Ok(Command::Delete(Deletion::new(arguments)))
}

// Whether one of these names is too long.
fn has_long(names: &[Bytes]) -> bool
    ensures { result ≡ list_any is_long names.now }
{
    names.iter().any(|name| name.len() > LONGEST_NAME)
}
