//! The lock on a node's folder.
ghost use Rattle.std.specs.Prelude.{◌≡◌, ◌≢◌, IfErr};
ghost use Rattle.std.specs.IoError.{error_kind};
ghost use Rattle.casd.specs.Fault.{IsLockFault};
ghost use Rattle.casd.specs.declared.fault.Fault.TheVariants.{InUse, NoFolder, Unlocked};

use crate::fault::Fault;
use std::fs::{File, TryLockError};
use std::io::ErrorKind;
use std::rt::Files;
use std::{fs, io};

/// A file that can be locked. At most one process at a time has the lock. The system takes it back when the process
/// ends, however it ends.
pub trait LockFile {
    /// Takes the lock, or fails with `WouldBlock` if another process has it.
    fn lock_now(&self) -> io::Result<()>;
}

impl LockFile for File {
    fn lock_now(&self) -> io::Result<()> {
        match self.try_lock() {
            Ok(()) => Ok(()),
            Err(TryLockError::WouldBlock) => Err(io::Error::from(ErrorKind::WouldBlock)),
            Err(TryLockError::Error(error)) => Err(error),
        }
    }
}

/// Opens a folder and locks it, for as long as the result is kept. Fails with `InUse` if another process has the lock.
pub fn lock_folder<R: Files>(files: &R, folder: &str) -> Result<R::File, Fault>
where
    R::File: LockFile,
    ensures { IfErr result IsLockFault }
{
    let opened = match fs::open(files, folder) {
        Ok(opened) => opened,
        Err(error) => return Err(unopened(error)),
    };
    match opened.lock_now() {
        Ok(()) => Ok(opened),
        Err(error) => Err(unlocked(error)),
    }
}

// Why the folder cannot be opened.
fn unopened(error: io::Error) -> Fault
    ensures missing { error_kind error ≡ ErrorKind.NotFound → result ≡ NoFolder }
    ensures other { error_kind error ≢ ErrorKind.NotFound → result ≡ Unlocked error }
    ensures fault { IsLockFault result }
{
    match error.kind() {
        ErrorKind::NotFound => Fault::NoFolder,
        _ => Fault::Unlocked(error),
    }
}

// Why the folder cannot be locked.
fn unlocked(error: io::Error) -> Fault
    ensures taken { error_kind error ≡ ErrorKind.WouldBlock → result ≡ InUse }
    ensures other { error_kind error ≢ ErrorKind.WouldBlock → result ≡ Unlocked error }
    ensures fault { IsLockFault result }
{
    match error.kind() {
        ErrorKind::WouldBlock => Fault::InUse,
        _ => Fault::Unlocked(error),
    }
}
