//! Running a soak of the store.
ghost use Rattle.std.specs.Prelude.{◌≡◌, ◌⊎◌, ◌++◌, ◌∷◌, [], IfErr, OnOk};
ghost use Rattle.tag.specs.declared.refusal.Refusal.TheVariants.{NoMemory};
ghost use Rattle.std.specs.Io.KnownBytes.{Appends};
ghost use Rattle.soak_parts.specs.Summary.{summary_text};
ghost use Rattle.command_line.specs.Program.{Soaks};
ghost use Rattle.coding_commands.specs.declared.fault.Fault.TheVariants.{OutputLost, Refused};

use coding_commands::Fault;
use soak::run_plan;
use soak_parts::Summary;
use soak_plan::Plan;
use std::io::Write;
use std::sync::Wait;
use std::thread::Threads;
use std::time::Clock;

/// Runs a soak by this plan, prints its summary, and returns the exit status. If a call is refused or a thread cannot
/// be started, a text on `err` says so. If `shows_progress` is true, a line there shows how far a long soak has come.
pub(crate) fn run_soak<R: AllocGlobal + Threads + Wait + Clock + Sync, O: Write, E: Write>(
    rt: &R,
    plan: Plan,
    out: &mut O,
    err: &mut E,
    shows_progress: bool,
) -> u8
    ensures { Soaks plan (O.contents out.old) (O.contents out.new) result }
{
    let screen = if shows_progress {
        Some(&mut *err)
    } else {
        None
    };
    match run_plan(rt, rt.alloc(), plan, screen) {
        Ok(summary) => match print_summary(out, &summary) {
            Ok(()) => summary.status(),
            Err(fault) => fault.report(err),
        },
        Err(refusal) => Fault::Refused(refusal).report(err),
    }
}

fn print_summary<W: Write>(out: &mut W, summary: &Summary) -> Result<(), Fault>
    ensures printed { OnOk result
        (Appends (W.contents out.old) (W.contents out.new) (summary_text summary.now ++ 10 ∷ [])) }
    ensures lost { IfErr result (λ e. (e ≡ Refused NoMemory) ⊎ (e ≡ OutputLost)) }
{
    match out.writeln(summary) {
        Ok(()) => out.flush().map_err(Fault::from_output),
        Err(error) => Err(Fault::from_output(error)),
    }
}
