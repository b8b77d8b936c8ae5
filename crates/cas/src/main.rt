//! The program `cas`: from the command line it codes a value into fragments, decodes a value from fragments, runs a
//! script, and soaks the store.
#![tactic(auto)]

use coding_commands::Fault;
use command_line::run_words_with_progress;
use std::io::{BufWriter, IsTerminal};
use std::process::ExitCode;
use std::rt::Stdout;
use std::{env, io};
use tag::Refusal;

fn main(rt: HostRuntime) -> ExitCode {
    let mut err = rt.stderr();
    let is_terminal = err.is_terminal();
    let status = match begun(&rt) {
        Ok((words, mut out)) => {
            run_words_with_progress(&rt, words.as_slice(), &mut out, &mut err, is_terminal)
        }
        Err(fault) => fault.report(&mut err),
    };
    ExitCode::from(status)
}

/// Returns the words after the program's name, and a buffered standard output.
fn begun(rt: &HostRuntime) -> Result<(Vec<String>, BufWriter<Stdout>), Fault> {
    let mut arguments = env::args(rt).map_err(Fault::from_arguments)?;
    let _program = arguments.next();
    let words = arguments.collect(rt.alloc())?;
    let Ok(out) = BufWriter::new(rt.alloc(), rt.stdout()) else {
        return Err(Fault::Refused(Refusal::NoMemory));
    };
    Ok((words, out))
}
