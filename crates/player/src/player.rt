//! What each command does, and what it prints.
ghost use Rattle.std.specs.Prelude.{◌≡◌, ◌≢◌, ℕ, List, Some, OnOk, IfErr};
ghost use Rattle.std.specs.Io.KnownBytes.{Keeps};
ghost use Rattle.player.specs.declared.player.Stop.TheVariants.{Bad};
ghost use Rattle.player.specs.Play.{Prints, IsPlayed, IsBad, Plays, IsBadAt, Changes};
ghost use Rattle.player.specs.Shown.{refusal_line, line_of};

use crate::report::Report;
use crate::whole_calls::{move_to, read, resume, write};
use crate::{call_commands, cluster_commands, mail_commands, shown};
use cluster::Cluster;
use printing::Outcome;
use script::{Change, Command};
use std::alloc::Global;
use std::fmt::Display;
use std::io;
use std::io::{ErrorKind, Write};
use tag::Refusal;

/// Why a script ends at a command.
#[derive(Clone, Copy, Debug, PartialEq, Eq)]
pub enum Stop {
    /// The command comes at the wrong place, or names something that is not there. It was not carried out.
    Bad,
    /// Memory is refused for the text that the command prints. The command was carried out.
    NoMemory,
    /// The text that the command prints could not be written. The command was carried out.
    OutputLost,
}

/// Carries out a command, and prints its lines. The first command must make the cluster, and no later one may.
pub(crate) fn play<W: Write>(
    alloc: Global,
    cluster: &mut Option<Cluster>,
    command: Command,
    out: &mut W,
) -> Result<(), Stop>
    ensures { Prints (W.contents out.old) (W.contents out.new) (Plays cluster.old command.entry cluster.new)
        (IsBadAt cluster.old command.entry × (cluster.new ≡ cluster.old)) result }
{
    if let Some(cluster) = cluster {
        return carry_out(alloc, cluster, command, out);
    }
    let Command::Servers { count } = command else {
        return Err(Stop::Bad);
    };
    *cluster = Some(Cluster::new(alloc, count));
    print_line(out, Outcome::Done)
}

// Carries out a command after the first.
fn carry_out<W: Write>(
    alloc: Global,
    cluster: &mut Cluster,
    command: Command,
    out: &mut W,
) -> Result<(), Stop>
    ensures { Prints (W.contents out.old) (W.contents out.new) (IsPlayed cluster.old command.entry cluster.new)
        (IsBad cluster.old command.entry × (cluster.new ≡ cluster.old)) result }
{
    match command {
        Command::Servers { count: _ } => Err(Stop::Bad),
        Command::Change(asked) => print_line(out, change(alloc, cluster, asked)),
        Command::Show { name, call } => shown::call(cluster, name, call, out),
        Command::Mail { name } => shown::mail(cluster, name, out),
        Command::Bank {
            name,
            position,
            member,
        } => shown::bank(cluster, name, position, member, out),
        Command::Account => shown::account(cluster, out),
        Command::History { name } => shown::history(cluster, name, out),
        Command::Sequence { name } => shown::sequence_of(alloc, cluster, name, out),
        Command::Check { name, calls } => shown::check_of(cluster, name, &calls, out),
    }
}

// Carries out a command that may change the cluster.
fn change(alloc: Global, cluster: &mut Cluster, asked: Change) -> Report
    ensures { Changes cluster.old asked.entry cluster.new result }
{
    match asked {
        Change::Layout { k, members } => cluster_commands::layout(cluster, k, &members),
        Change::Object {
            name,
            layout,
            delta,
        } => cluster_commands::object(cluster, name, layout, delta),
        Change::Retire { name, position } => cluster_commands::retire(cluster, name, position),
        Change::Down { server } => cluster_commands::server(cluster, server, false),
        Change::Up { server } => cluster_commands::server(cluster, server, true),
        Change::CallRead { name } => call_commands::call_read(cluster, name),
        Change::CallWrite { name, value } => call_commands::call_write(cluster, name, value),
        Change::CallMove { name, layout } => call_commands::call_move(cluster, name, layout),
        Change::Advance { name, call } => call_commands::advance(cluster, name, call),
        Change::Supply { name, call } => call_commands::supply(alloc, cluster, name, call),
        Change::SupplyAs { name, call, value } => call_commands::supply_as(
            alloc, cluster, name, call, value,
        ),
        Change::Settle { name, call } => call_commands::settle(alloc, cluster, name, call),
        Change::Post { name, call } => call_commands::post(cluster, name, call),
        Change::Again { name, call } => call_commands::again(cluster, name, call),
        Change::Answer { name, call } => call_commands::answer(cluster, name, call),
        Change::Serve { name, place } => mail_commands::serve(cluster, name, place),
        Change::Take { name, place } => mail_commands::take(cluster, name, place),
        Change::Lose { name, place } => mail_commands::lose(cluster, name, place),
        Change::Repeat { name, place } => mail_commands::repeat(cluster, name, place),
        Change::Deliver { name } => mail_commands::deliver(cluster, name),
        Change::Read { name, turns } => read(alloc, cluster, name, turns),
        Change::Write { name, value, turns } => write(alloc, cluster, name, value, turns),
        Change::Move {
            name,
            layout,
            turns,
        } => move_to(alloc, cluster, name, layout, turns),
        Change::Resume { name, call, turns } => resume(alloc, cluster, name, call, turns),
    }
}

/// Prints the line of a refusal.
pub(crate) fn refuse<W: Write>(out: &mut W, refusal: Refusal) -> Result<(), Stop>
    ensures { Prints (W.contents out.old) (W.contents out.new) (λ text. text ≡ refusal_line refusal) ⊥ result }
{
    print_line(out, Outcome::Refused(refusal))
}

/// Prints a line, and adds the line feed.
pub(crate) fn print_line<W: Write, D: Display + Drop>(out: &mut W, line: D) -> Result<(), Stop>
    ensures { (text : List ℕ) → D.output line ≡ Some text
        → Prints (W.contents out.old) (W.contents out.new) (λ t. t ≡ line_of text) ⊥ result }
{
    match out.writeln(line) {
        Ok(()) => flushed(out),
        Err(error) => Err(lost(error)),
    }
}

/// Prints lines that have their line feeds.
pub(crate) fn print<W: Write, D: Display + Drop>(out: &mut W, lines: D) -> Result<(), Stop>
    ensures { (text : List ℕ) → D.output lines ≡ Some text
        → Prints (W.contents out.old) (W.contents out.new) (λ t. t ≡ text) ⊥ result }
{
    match out.write_fmt(lines) {
        Ok(()) => flushed(out),
        Err(error) => Err(lost(error)),
    }
}

fn flushed<W: Write>(out: &mut W) -> Result<(), Stop>
    ensures kept { OnOk result (Keeps (W.contents out.old) (W.contents out.new)) }
    ensures lost { IfErr result (λ e. e ≢ Bad) }
{
    match out.flush() {
        Ok(()) => Ok(()),
        Err(error) => Err(lost(error)),
    }
}

fn lost(error: io::Error) -> Stop
    ensures { result ≢ Bad }
{
    match error.kind() {
        ErrorKind::OutOfMemory => Stop::NoMemory,
        _ => Stop::OutputLost,
    }
}
