//! Why the program ends with a status other than 0.
ghost use Rattle.std.specs.Prelude.{◌≡◌, ◌≢◌};
ghost use Rattle.std.specs.IoError.{error_kind};
ghost use Rattle.casd.specs.Fault.{IsWordsFault, exit_status_of};
ghost use Rattle.casd.specs.declared.fault.Fault.TheVariants.{NotText, NoMemory};

use cluster_file::FileError;
use node_effects::NodeError;
use node_store::{ServeError, StoreError};
use std::io;
use std::io::{ErrorKind, Write};
use thiserror::Error;

/// Why the program ended early. It prints as the text for standard error.
#[derive(Debug, Drop, Error)]
pub enum Fault {
    /// A word of the command line is not UTF-8.
    #[error("an argument is no text")]
    NotText,
    /// The words of the command line have the form of no request.
    #[error("usage: casd FILE NODE FOLDER")]
    Usage,
    /// The word for the node's number writes no number from 0 to 255.
    #[error("NODE is no number from 0 to 255")]
    BadNode,
    /// The cluster file cannot be read.
    #[error("cannot read the cluster file: {0}")]
    Unread(io::Error),
    /// The cluster file has a fault, or there is no memory to read it.
    #[error("the cluster file, {0}")]
    BadFile(FileError),
    /// The cluster file names no node of this number.
    #[error("the cluster file has no node {0}")]
    NoNode(u8),
    /// `/dev/null`, which takes the place of closed standard streams, cannot be opened.
    #[error("cannot open /dev/null: {0}")]
    NoNull(io::Error),
    /// The folder does not exist.
    #[error("FOLDER is not there")]
    NoFolder,
    /// Another process has the folder locked.
    #[error("another process runs in FOLDER")]
    InUse,
    /// The folder cannot be locked.
    #[error("cannot lock FOLDER: {0}")]
    Unlocked(io::Error),
    /// The log cannot be opened, read or cut.
    #[error("cannot open the log: {0}")]
    Unopened(io::Error),
    /// The log has the form that `casd` wrote before. It was not changed.
    #[error("the log has an older form; deploy/convert-log FOLDER writes it in today's form")]
    OldForm,
    /// The log is damaged, or is not this node's. It was not changed.
    #[error("{0}")]
    BadLog(StoreError),
    /// The node cannot start.
    #[error("{0}")]
    Stopped(NodeError),
    /// At its start, the node's log cannot be synced, or the entries of the start cannot be written to it.
    #[error("cannot write the log: {0}")]
    LogLost(io::Error),
    /// The log was written anew, and the new one cannot be put in the place of the old one.
    #[error("cannot exchange the log: {0}")]
    NotExchanged(io::Error),
    /// The node's loop ended early.
    #[error("{0}")]
    Ended(ServeError),
    /// A text for standard output cannot be written.
    #[error("cannot write the output: {0}")]
    OutputLost(io::Error),
    /// Memory is refused.
    #[error("out of memory")]
    NoMemory,
}

impl Fault {
    /// Returns why the program's arguments could not be read: one is not UTF-8, or memory is refused.
    pub fn from_arguments(error: io::Error) -> Fault
        ensures memory { error_kind error ≡ ErrorKind.OutOfMemory → result ≡ NoMemory }
        ensures text { error_kind error ≢ ErrorKind.OutOfMemory → result ≡ NotText }
        ensures fault { IsWordsFault result }
    {
        match error.kind() {
            ErrorKind::OutOfMemory => Fault::NoMemory,
            _ => Fault::NotText,
        }
    }

    /// Returns the exit status: 2 for wrong arguments or a bad cluster file, 3 if the log could not be written, synced
    /// or exchanged, and 1 for anything else.
    fn status(&self) -> u8
        ensures { result ≡ exit_status_of self.now }
    {
        match self {
            Fault::NotText
            | Fault::Usage
            | Fault::BadNode
            | Fault::Unread(_)
            | Fault::BadFile(FileError::Fault(_))
            | Fault::NoNode(_) => 2,
            Fault::LogLost(_) | Fault::NotExchanged(_) | Fault::Ended(ServeError::LogLost(_)) => 3,
            _ => 1,
        }
    }

    /// Prints the text on `err`, and returns the exit status. A write that fails is ignored.
    pub fn report<W: Write>(&self, err: &mut W) -> u8
        ensures { result ≡ exit_status_of self.now }
    {
        let _ = writeln!(err, "casd: {self}");
        self.status()
    }
}
