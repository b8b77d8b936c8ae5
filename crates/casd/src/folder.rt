//! The folder of a node and its files, on the disk.
//!
//! Each function of `DiskFile` and `DiskFolder` makes the calls of the system for which it stands, and decides nothing.
ghost use Rattle.std.specs.Prelude.{◌≡◌, ◌≢◌, IfErr};
ghost use Rattle.std.specs.IoError.{error_kind};
ghost use Rattle.casd.specs.Fault.{IsOpenFault, IsReadFault};
ghost use Rattle.casd.specs.declared.fault.Fault.TheVariants.{NoMemory, Unopened};

use crate::fault::Fault;
use crate::lock::{LockFile, lock_folder};
use frames::write_bytes;
use node_store::{DiskFile, DiskFolder};
use std::fs::{OpenFile, OpenOptions};
use std::io::{ErrorKind, Seek, SeekFrom, Write};
use std::os::unix::fs::OpenOptionsExt;
use std::rt::Files;
use std::{fs, io};

// Who may read and write a file that is made: its owner alone.
const OWNER_ALONE: u32 = 0o600;

/// The folder of a node, which is locked, with the names of the files `log` and `log.new` in it.
pub struct NodeFolder<'a, R: Files> {
    files: &'a R,
    folder: R::File,
    log: String,
    second: String,
}

impl<'a, R: Files> Drop for NodeFolder<'a, R> {
    fn drop(self) {
        let Self {
            files: _,
            folder: _,
            log: _,
            second: _,
        } = self;
    }
}

/// A file in that folder.
#[derive(Drop)]
pub struct NodeFile<F> {
    file: F,
}

impl<'a, R: Files + AllocGlobal> NodeFolder<'a, R> {
    /// Locks a folder. Fails with `InUse` if another process has the lock. Then nothing is changed.
    pub fn open(files: &'a R, folder: &str) -> Result<NodeFolder<'a, R>, Fault>
    where
        R::File: LockFile,
        ensures { IfErr result IsOpenFault }
    {
        let locked = match lock_folder(files, folder) {
            Ok(locked) => locked,
            Err(fault) => return Err(fault),
        };
        match names_in(files, folder) {
            Ok((log, second)) => Ok(NodeFolder {
                files,
                folder: locked,
                log,
                second,
            }),
            Err(error) => Err(unopened(error)),
        }
    }
}

/// Why the log cannot be opened or read: memory is refused, or the system fails so.
pub fn unopened(error: io::Error) -> Fault
    ensures memory { error_kind error ≡ ErrorKind.OutOfMemory → result ≡ NoMemory }
    ensures other { error_kind error ≢ ErrorKind.OutOfMemory → result ≡ Unopened error }
    ensures opens { IsOpenFault result }
    ensures reads { IsReadFault result }
{
    match error.kind() {
        ErrorKind::OutOfMemory => Fault::NoMemory,
        _ => Fault::Unopened(error),
    }
}

// The names of the files `log` and `log.new` in a folder.
fn names_in<R: AllocGlobal>(rt: &R, folder: &str) -> io::Result<(String, String)> {
    let alloc = rt.alloc();
    let log = format!(in alloc; "{folder}/log")?;
    let second = format!(in alloc; "{folder}/log.new")?;
    Ok((log, second))
}

// How the log is opened: each byte that is written goes to its end.
fn of_log() -> OpenOptions {
    let mut options = OpenOptions::new();
    options
        .read(true)
        .append(true)
        .create(true)
        .mode(OWNER_ALONE);
    options
}

// How the second log is made: in place of a file that is there.
fn of_second() -> OpenOptions {
    let mut options = OpenOptions::new();
    options
        .write(true)
        .create(true)
        .truncate(true)
        .mode(OWNER_ALONE);
    options
}

impl<F: Write + Seek + OpenFile> DiskFile for NodeFile<F> {
    fn append(&mut self, bytes: &[u8]) -> io::Result<()> {
        write_bytes(&mut self.file, bytes)
    }

    fn sync_data(&mut self) -> io::Result<()> {
        self.file.flush()?;
        self.file.sync_data()
    }

    fn length(&self) -> io::Result<u64> {
        let found = self.file.metadata()?;
        Ok(found.len())
    }

    fn cut(&mut self, count: u64) -> io::Result<()> {
        self.file.set_len(count)?;
        self.file.seek(SeekFrom::End(0))?;
        Ok(())
    }
}

impl<'a, R: Files> DiskFolder for NodeFolder<'a, R> {
    type File = NodeFile<R::File>;

    type Reader = R::File;

    fn open_log(&mut self) -> io::Result<NodeFile<R::File>> {
        let file = of_log().open(self.files, self.log.as_str())?;
        Ok(NodeFile { file })
    }

    fn read_log(&self, _log: &NodeFile<R::File>) -> io::Result<R::File> {
        fs::open(self.files, self.log.as_str())
    }

    fn make_second(&mut self, _log: &NodeFile<R::File>) -> io::Result<NodeFile<R::File>> {
        let file = of_second().open(self.files, self.second.as_str())?;
        Ok(NodeFile { file })
    }

    fn remove_second(&mut self) -> io::Result<()> {
        fs::remove_file(self.files, self.second.as_str())
    }

    fn rename_second(
        &mut self,
        _log: &NodeFile<R::File>,
        _second: &NodeFile<R::File>,
    ) -> io::Result<()> {
        fs::rename(self.files, self.second.as_str(), self.log.as_str())
    }

    fn sync_folder(&mut self) -> io::Result<()> {
        self.folder.sync_all()
    }
}
