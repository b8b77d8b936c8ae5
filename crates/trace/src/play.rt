//! Playing a script line by line.
ghost use Rattle.std.specs.Prelude.{◌≡◌, ℕ, List, None, map, IfErr, MatchResult};
ghost use Rattle.std.specs.Str.Lines.{lines as lines_of};
ghost use Rattle.tag.specs.declared.refusal.Refusal.TheVariants.{NoMemory};
ghost use Rattle.player.specs.Script.{IsPlayedFrom};
ghost use Rattle.trace.specs.Played.{EndsAtLine, EndsEarly, IsUnplayed, LeadsTo, LeadsThrough};
ghost use Rattle.trace.specs.declared.fault.Fault.TheVariants.{Refused};

use crate::fault::Fault;
use cluster::Cluster;
use exports::Loss;
use player::{End, play_line, read_script};
use script::{Change, Command, Line, parse_line};
use std::alloc::Global;
use std::io;
use std::io::Read;
use words::split_lines;

/// What a script leaves behind.
#[derive(Drop)]
pub struct Played {
    /// The cluster; none if the script has no command.
    pub cluster: Option<Cluster>,
    /// The messages of the shown object that the script loses.
    pub losses: Vec<Loss>,
}

/// Plays the script that the reader gives, and notes which messages of the object of this name it loses. The output of
/// its commands is discarded.
pub fn play_script<R: Read>(alloc: Global, reader: &mut R, name: &str) -> Result<Played, Fault>
    ensures { MatchResult result (λ played. LeadsTo (R.remaining reader.old) played.cluster)
        (IsUnplayed (R.remaining reader.old)) }
{
    let text = match read_script(alloc, reader) {
        Ok(text) => text,
        Err(end) => return Err(Fault::Ended(end)),
    };
    let Ok(lines) = split_lines(alloc, &text) else {
        return Err(Fault::Ended(End::NoRoom));
    };
    play_lines(alloc, &lines, name)
}

fn play_lines(alloc: Global, lines: &[&[u8]], name: &str) -> Result<Played, Fault>
    ensures { (script : List ℕ) → map (λ line. line.now) lines.now ≡ lines_of script
        → MatchResult result (λ played. LeadsThrough script played.cluster) (EndsEarly script) }
{
    let mut cluster = None;
    let mut losses = Vec::new(alloc);
    for (index, line) in lines.iter().enumerate() {
        let lost = lost_by(alloc, &cluster, name, line);
        play_numbered(alloc, &mut cluster, index + 1, line)?;
        note(&mut losses, lost)?;
    }
    Ok(Played { cluster, losses })
}

fn play_numbered(
    alloc: Global,
    cluster: &mut Option<Cluster>,
    number: usize,
    line: &[u8],
) -> Result<(), Fault>
    ensures { MatchResult result (λ _. IsPlayedFrom cluster.old line.now cluster.new None None)
        (EndsAtLine number cluster.old line.now) }
{
    match play_line(alloc, cluster, number, line, &mut io::sink()) {
        Ok(()) => Ok(()),
        Err(end) => Err(Fault::Ended(end)),
    }
}

fn note(losses: &mut Vec<Loss>, lost: Option<Loss>) -> Result<(), Fault>
    ensures { IfErr result (λ why. why ≡ Refused NoMemory) }
{
    if let Some(lost) = lost {
        losses.push(lost)?;
    }
    Ok(())
}

// The message of the named object that this line loses, if it loses one.
fn lost_by(alloc: Global, cluster: &Option<Cluster>, name: &str, line: &[u8]) -> Option<Loss> {
    let cluster = cluster.as_ref()?;
    let Ok(Line::Command(Command::Change(Change::Lose { name: of, place }))) = parse_line(
        alloc, line,
    ) else {
        return None;
    };
    let register = cluster.register(name).ok()?;
    if of != name || place >= register.mail_view().len() as u64 {
        return None;
    }
    Some(Loss::of(
        register.mail_view().at(place as usize),
        cluster.counter().saturating_add(1),
    ))
}
