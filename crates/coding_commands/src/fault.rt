//! Why the program ends with a status other than 0.
use std::alloc::{AllocError, AllocFailed};
use std::io;
use std::io::{ErrorKind, Write};
use tag::Refusal;
use thiserror::Error;

/// Why the program ended early. It prints as the text for standard error.
#[derive(Debug, Drop, Error)]
pub enum Fault {
    /// A word of the command line is not UTF-8. The text is empty, and nothing is printed.
    #[error("")]
    NotText,
    /// The words of the command line have the form of no request.
    #[error("usage: cas fragments K N HEX\n       \
        cas decode K LEN POINT:HEX..\n       \
        cas run FILE\n       \
        cas soak CLIENTS CALLS MOVES CHOICES")]
    Usage,
    /// A word is not a number or bytes as its place requires.
    #[error("bad argument")]
    BadArgument,
    /// The request was refused.
    #[error("refused {0}")]
    Refused(Refusal),
    /// A write of output failed for another reason than a lack of memory.
    #[error("cannot write the output")]
    OutputLost,
}

impl Fault {
    ghost use Rattle.std.specs.Prelude.{◌≡◌, ◌≢◌};
    ghost use Rattle.std.specs.IoError.{error_kind};
    ghost use Rattle.tag.specs.declared.refusal.Refusal.TheVariants.{NoMemory};
    ghost use Rattle.coding_commands.specs.Fault.{exit_status_of};
    ghost use Rattle.coding_commands.specs.declared.fault.Fault.TheVariants.{NotText, OutputLost, Refused};

    /// Returns why the program's arguments could not be read: one is not UTF-8, or memory is refused.
    pub fn from_arguments(error: io::Error) -> Fault
        ensures memory { error_kind error ≡ ErrorKind.OutOfMemory → result ≡ Refused NoMemory }
        ensures text { error_kind error ≢ ErrorKind.OutOfMemory → result ≡ NotText }
    {
        match error.kind() {
            ErrorKind::OutOfMemory => Fault::Refused(Refusal::NoMemory),
            _ => Fault::NotText,
        }
    }

    /// Returns why a line of output is lost: memory was refused to its write, or the write failed for another reason.
    pub fn from_output(error: io::Error) -> Fault
        ensures memory { error_kind error ≡ ErrorKind.OutOfMemory → result ≡ Refused NoMemory }
        ensures other { error_kind error ≢ ErrorKind.OutOfMemory → result ≡ OutputLost }
    {
        match error.kind() {
            ErrorKind::OutOfMemory => Fault::from(Refusal::NoMemory),
            _ => Fault::OutputLost,
        }
    }

    /// Returns the exit status: 1 for a refusal or lost output, and 2 for a fault of the command line.
    fn status(&self) -> u8
        ensures { result ≡ exit_status_of self.now }
    {
        match self {
            Fault::NotText | Fault::Usage | Fault::BadArgument => 2,
            Fault::Refused(_) | Fault::OutputLost => 1,
        }
    }

    /// Prints the text on `err`, if there is one, and returns the exit status. A write that fails is ignored.
    pub fn report<W: Write>(&self, err: &mut W) -> u8
        ensures { result ≡ exit_status_of self.now }
    {
        if !matches!(self, Fault::NotText) {
            let _ = err.writeln(self);
        }
        self.status()
    }
}

impl From<Refusal> for Fault {
    ghost use Rattle.std.specs.Prelude.{◌≡◌};
    ghost use Rattle.coding_commands.specs.declared.fault.Fault.TheVariants.{Refused};

    ghost from_gives = { λ refusal fault. fault ≡ Refused refusal };

    fn from(refusal: Refusal) -> Fault {
        Fault::Refused(refusal)
    }
}

impl From<AllocError> for Fault {
    ghost use Rattle.std.specs.Prelude.{◌≡◌};
    ghost use Rattle.tag.specs.declared.refusal.Refusal.TheVariants.{NoMemory};
    ghost use Rattle.coding_commands.specs.declared.fault.Fault.TheVariants.{Refused};

    ghost from_gives = { λ _ fault. fault ≡ Refused NoMemory };

    fn from(_error: AllocError) -> Fault {
        Fault::Refused(Refusal::NoMemory)
    }
}

impl<T: Drop> From<AllocFailed<T>> for Fault {
    ghost use Rattle.std.specs.Prelude.{◌≡◌};
    ghost use Rattle.tag.specs.declared.refusal.Refusal.TheVariants.{NoMemory};
    ghost use Rattle.coding_commands.specs.declared.fault.Fault.TheVariants.{Refused};

    ghost from_gives = { λ _ fault. fault ≡ Refused NoMemory };

    fn from(_error: AllocFailed<T>) -> Fault {
        Fault::Refused(Refusal::NoMemory)
    }
}
