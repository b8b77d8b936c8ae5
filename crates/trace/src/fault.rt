//! Why the program ends with a status other than 0.
ghost use Rattle.std.specs.Prelude.{◌≡◌, ◌≢◌};
ghost use Rattle.std.specs.IoError.{error_kind};
ghost use Rattle.tag.specs.declared.refusal.Refusal.TheVariants.{NoMemory};
ghost use Rattle.trace.specs.Fault.{exit_status_of_fault};
ghost use Rattle.trace.specs.declared.fault.Fault.TheVariants as fault;

use player::{End, report_end};
use std::alloc::{AllocError, AllocFailed};
use std::io;
use std::io::{ErrorKind, Write};
use tag::Refusal;

/// Why the program ended early. The object is not shown.
#[derive(Clone, Copy)]
pub enum Fault {
    /// A word of the command line is not UTF-8.
    NotText,
    /// The words of the command line spell no request.
    Usage,
    /// The script was not played to its end.
    Ended(End),
    /// No object has the name, or memory is refused.
    Refused(Refusal),
    /// A write of output failed for another reason than a lack of memory.
    OutputLost,
}

const USAGE: &str = "usage: trace picture SCRIPT NAME\n       \
    trace history SCRIPT NAME edn\n       \
    trace history SCRIPT NAME json\n       \
    trace costs SCRIPT NAME";

impl Fault {
    /// Returns why the program's arguments could not be read: one is not UTF-8, or memory is refused.
    pub fn from_arguments(error: io::Error) -> Fault
        ensures memory { error_kind error ≡ ErrorKind.OutOfMemory → result ≡ fault.Refused NoMemory }
        ensures text { error_kind error ≢ ErrorKind.OutOfMemory → result ≡ fault.NotText }
    {
        match error.kind() {
            ErrorKind::OutOfMemory => Fault::Refused(Refusal::NoMemory),
            _ => Fault::NotText,
        }
    }

    /// Returns why output is lost: memory was refused to a write, or a write failed for another reason.
    pub fn from_output(error: io::Error) -> Fault
        ensures memory { error_kind error ≡ ErrorKind.OutOfMemory → result ≡ fault.Refused NoMemory }
        ensures other { error_kind error ≢ ErrorKind.OutOfMemory → result ≡ fault.OutputLost }
    {
        match error.kind() {
            ErrorKind::OutOfMemory => Fault::Refused(Refusal::NoMemory),
            _ => Fault::OutputLost,
        }
    }

    /// Prints the reason on `err`, for a script of this name, and returns the exit status: 1 for a refusal or lost
    /// output, 2 for the command line or the script. A write that fails is ignored.
    pub fn report<W: Write>(self, script: &str, err: &mut W) -> u8
        ensures { result ≡ exit_status_of_fault self }
    {
        match self {
            Fault::NotText => 2,
            Fault::Usage => {
                let _ = err.writeln(USAGE);
                2
            }
            Fault::Ended(end) => report_end(end, script, err),
            Fault::Refused(refusal) => {
                let _ = err.writeln(format_args!("refused {refusal}"));
                1
            }
            Fault::OutputLost => report_end(End::OutputLost, script, err),
        }
    }
}

impl From<AllocError> for Fault {
    ghost use Rattle.std.specs.Prelude.{◌≡◌};
    ghost use Rattle.tag.specs.declared.refusal.Refusal.TheVariants.{NoMemory};
    ghost use Rattle.trace.specs.declared.fault.Fault.TheVariants.{Refused};

    ghost from_gives = { λ _ fault. fault ≡ Refused NoMemory };

    fn from(_error: AllocError) -> Fault {
        Fault::Refused(Refusal::NoMemory)
    }
}

impl<T: Drop> From<AllocFailed<T>> for Fault {
    ghost use Rattle.std.specs.Prelude.{◌≡◌};
    ghost use Rattle.tag.specs.declared.refusal.Refusal.TheVariants.{NoMemory};
    ghost use Rattle.trace.specs.declared.fault.Fault.TheVariants.{Refused};

    ghost from_gives = { λ _ fault. fault ≡ Refused NoMemory };

    fn from(_error: AllocFailed<T>) -> Fault {
        Fault::Refused(Refusal::NoMemory)
    }
}
