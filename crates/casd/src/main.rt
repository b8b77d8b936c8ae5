//! The program `casd`: one node of a cluster, over frames on its standard input and output.
#![tactic(auto)]

use fault::Fault;
use given_words::run_given;
use std::fs;
use std::process::ExitCode;
use system::{SystemFiles, SystemWords};

mod arguments;
mod fault;
mod files;
mod folder;
mod given_words;
mod kills;
mod lock;
mod opening;
mod program;
mod serving;
mod system;

fn main(rt: HostRuntime) -> ExitCode {
    let status = match run(&rt) {
        Ok(status) => status,
        Err(fault) => fault.report(&mut rt.stderr()),
    };
    ExitCode::from(status)
}

// Where a standard stream is closed, the next file that is opened takes its number, and what is written to the stream
// would go into that file. So three files are opened first, which cannot be written and are read to their end at once.
fn run(rt: &HostRuntime) -> Result<u8, Fault> {
    let _first = fs::open(rt, "/dev/null").map_err(Fault::NoNull)?;
    let _second = fs::open(rt, "/dev/null").map_err(Fault::NoNull)?;
    let _third = fs::open(rt, "/dev/null").map_err(Fault::NoNull)?;
    Ok(run_given(
        rt.alloc(),
        &SystemWords::new(rt),
        &mut SystemFiles::new(rt),
        rt.stdin(),
        &mut rt.stdout(),
        &mut rt.stderr(),
    ))
}
