//! The coding requests of the program `cas` as a program of their own: it codes a value into fragments and decodes a
//! value from fragments. `./cas` runs it for these two requests until the whole program is built.
#![tactic(auto)]

use coding_commands::{Fault, run_words};
use std::env;
use std::io::BufWriter;
use std::process::ExitCode;
use tag::Refusal;

fn main(rt: HostRuntime) -> ExitCode {
    let mut err = rt.stderr();
    let status = match answered(&rt) {
        Ok(status) => status,
        Err(fault) => fault.report(&mut err),
    };
    ExitCode::from(status)
}

/// Carries out the words after the program's name, and returns the exit status.
fn answered(rt: &HostRuntime) -> Result<u8, Fault> {
    let mut arguments = env::args(rt).map_err(Fault::from_arguments)?;
    let _program = arguments.next();
    let words: Vec<String> = arguments.collect(rt.alloc())?;
    let mut texts = Vec::new(rt.alloc());
    for word in &words {
        texts.push(word.as_str())?;
    }
    let Ok(mut out) = BufWriter::new(rt.alloc(), rt.stdout()) else {
        return Err(Fault::Refused(Refusal::NoMemory));
    };
    Ok(run_words(rt.alloc(), texts.as_slice(), &mut out, &mut rt.stderr()))
}
