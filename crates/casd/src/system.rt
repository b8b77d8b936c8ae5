//! The words and the files that the operating system gives.
//!
//! Each function makes the calls of the runtime for which it stands, and decides nothing.
ghost use Rattle.std.specs.Prelude.{IsTrue, None, true};
ghost use Rattle.std.specs.Io.KnownBytes.{Keeps};

use crate::fault::Fault;
use crate::files::GivenFiles;
use crate::folder::NodeFolder;
use crate::given_words::GivenWords;
use crate::lock::LockFile;
use node_store::Log;
use std::env::Env;
use std::rt::Files;
use std::{env, fs, io};

/// The files of a runtime. Nothing is known of their bytes.
pub struct SystemFiles<'a, R: Files> {
    rt: &'a R,
}

impl<'a, R: Files> Drop for SystemFiles<'a, R> {
    fn drop(self) {
        let Self { rt: _ } = self;
    }
}

impl<'a, R: Files> SystemFiles<'a, R> {
    /// The files of this runtime.
    pub fn new(rt: &'a R) -> SystemFiles<'a, R> {
        SystemFiles { rt }
    }
}

impl<'a, R: Files + AllocGlobal> GivenFiles for SystemFiles<'a, R>
where
    R::File: LockFile,
{
    type Folder = NodeFolder<'a, R>;

    fn read_bytes(&self, name: &str) -> io::Result<Vec<u8>> {
        fs::read(self.rt, name)
    }

    fn lock(&self, folder: &str) -> Result<NodeFolder<'a, R>, Fault> {
        NodeFolder::open(self.rt, folder)
    }

    fn close_log<L: Log + Drop>(&mut self, _folder: &str, log: L)
        ensures kept { Keeps None (L.kept log) }
        ensures failure { IsTrue (L.failed log) → IsTrue true }
    {
        let _ = log;
    }
}

/// The words with which a runtime was called. Nothing is known of them.
pub struct SystemWords<'a, R: Env> {
    rt: &'a R,
}

impl<'a, R: Env> Drop for SystemWords<'a, R> {
    fn drop(self) {
        let Self { rt: _ } = self;
    }
}

impl<'a, R: Env> SystemWords<'a, R> {
    /// The words with which this runtime was called.
    pub fn new(rt: &'a R) -> SystemWords<'a, R> {
        SystemWords { rt }
    }
}

impl<'a, R: Env + AllocGlobal> GivenWords for SystemWords<'a, R> {
    fn all_words(&self) -> Result<Vec<String>, Fault> {
        let words = match env::args(self.rt) {
            Ok(words) => words,
            Err(error) => return Err(Fault::from_arguments(error)),
        };
        match words.collect(self.rt.alloc()) {
            Ok(all) => Ok(all),
            Err(_) => Err(Fault::NoMemory),
        }
    }
}
