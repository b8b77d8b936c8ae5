//! The program `trace`: it plays a script and then shows one object, as a picture, as a history that other checkers
//! read, or as the costs of its calls.
#![tactic(auto)]

mod cost;
mod cost_lines;
mod fault;
mod play;
mod program;
mod request;
mod show;
mod sums;
mod viewed;

use fault::Fault;
use program::run_words;
use std::io::BufWriter;
use std::process::ExitCode;
use std::rt::Stdout;
use std::{env, io};

fn main(rt: HostRuntime) -> ExitCode {
    let mut err = rt.stderr();
    let status = match begun(&rt) {
        Ok((words, mut out)) => run_words(&rt, words.as_slice(), &mut out, &mut err),
        Err(fault) => fault.report("", &mut err),
    };
    ExitCode::from(status)
}

/// Returns the words after the program's name, and a buffered standard output.
fn begun(rt: &HostRuntime) -> Result<(Vec<String>, BufWriter<Stdout>), Fault> {
    let mut arguments = env::args(rt).map_err(Fault::from_arguments)?;
    let _program = arguments.next();
    let words = arguments.collect(rt.alloc())?;
    let out = BufWriter::new(rt.alloc(), rt.stdout()).map_err(Fault::from_output)?;
    Ok((words, out))
}
