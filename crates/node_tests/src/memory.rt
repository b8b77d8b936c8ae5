//! A folder in memory, of which all ghosts are known. Its proofs show that all that is assumed of a folder of the disk
//! can be true of one.
ghost use Rattle.std.specs.Prelude.{◌≡◌, IfOk};

use node_store::{DiskFile, DiskFolder};
use std::alloc::Global;
use std::collections::VecDeque;
use std::io;
use std::io::ErrorKind;

/// A file in memory.
#[derive(Drop)]
pub(crate) struct MemoryFile {
    alloc: Global,
    /// What a reader gets while the machine runs.
    pub(crate) bytes: Vec<u8>,
    /// What is there after the machine stops.
    pub(crate) kept: Vec<u8>,
    /// Whether each sync succeeded. After one that failed, later ones succeed and keep nothing more.
    pub(crate) is_sound: bool,
    /// Whether an append or a sync failed.
    pub(crate) has_failed: bool,
}

/// A folder in memory, which has the bytes of the file `log` before that is opened.
#[derive(Drop)]
pub(crate) struct MemoryFolder {
    alloc: Global,
    found: Vec<u8>,
    // What a start finds in place of what the open file keeps.
    other: Option<Vec<u8>>,
    // Whether a rename stays after the machine stops, though the folder was not synced.
    keeps_renames: bool,
    // Whether a rename failed.
    has_failed: bool,
}

impl MemoryFolder {
    /// Makes a folder in which the file `log` has these bytes.
    pub(crate) fn new(alloc: Global, found: Vec<u8>, keeps_renames: bool) -> MemoryFolder {
        MemoryFolder {
            alloc,
            found,
            other: None,
            keeps_renames,
            has_failed: false,
        }
    }
}

fn copy_of(alloc: Global, bytes: &[u8]) -> io::Result<Vec<u8>>
    ensures { IfOk result (λ copy. copy.items ≡ bytes.now) }
{
    let mut copy = Vec::new(alloc);
    copy.extend_from_slice(bytes)?;
    Ok(copy)
}

impl DiskFile for MemoryFile {
    ghost use Rattle.std.specs.Prelude.{Some};

    ghost written = { λ file. Some file.bytes.items };

    ghost kept = { λ file. Some file.kept.items };

    ghost sound = { λ file. file.is_sound };

    ghost failed = { λ file. file.has_failed };

    fn append(&mut self, bytes: &[u8]) -> io::Result<()> {
        match self.bytes.extend_from_slice(bytes) {
            Ok(()) => Ok(()),
            Err(_) => {
                self.has_failed = true;
                Err(io::Error::from(ErrorKind::OutOfMemory))
            }
        }
    }

    fn sync_data(&mut self) -> io::Result<()> {
        if !self.is_sound {
            return Ok(());
        }
        match copy_of(self.alloc, &self.bytes) {
            Ok(copy) => {
                self.kept = copy;
                Ok(())
            }
            Err(error) => {
                self.is_sound = false;
                self.has_failed = true;
                Err(error)
            }
        }
    }

    fn length(&self) -> io::Result<u64> {
        Ok(self.bytes.len() as u64)
    }

    fn cut(&mut self, count: u64) -> io::Result<()> {
        self.bytes.truncate(count as usize);
        self.kept.truncate(count as usize);
        Ok(())
    }
}

impl DiskFolder for MemoryFolder {
    ghost use Rattle.std.specs.Prelude.{Some};
    ghost use Rattle.node_tests.specs.Memory.{other_of};

    type File = MemoryFile;

    type Reader = VecDeque<u8>;

    ghost found = { λ folder. Some folder.found.items };

    ghost other = { λ folder. other_of folder.other };

    ghost failed = { λ folder. folder.has_failed };

    fn open_log(&mut self) -> io::Result<MemoryFile> {
        Ok(MemoryFile {
            alloc: self.alloc,
            bytes: copy_of(self.alloc, &self.found)?,
            kept: copy_of(self.alloc, &self.found)?,
            is_sound: true,
            has_failed: false,
        })
    }

    fn read_log(&self, log: &MemoryFile) -> io::Result<VecDeque<u8>> {
        let copy = copy_of(self.alloc, &log.bytes)?;
        Ok(VecDeque::from(copy))
    }

    fn make_second(&mut self, _log: &MemoryFile) -> io::Result<MemoryFile> {
        Ok(MemoryFile {
            alloc: self.alloc,
            bytes: Vec::new(self.alloc),
            kept: Vec::new(self.alloc),
            is_sound: true,
            has_failed: false,
        })
    }

    fn remove_second(&mut self) -> io::Result<()> {
        Ok(())
    }

    fn rename_second(&mut self, log: &MemoryFile, _second: &MemoryFile) -> io::Result<()> {
        if self.keeps_renames {
            self.other = None;
            return Ok(());
        }
        if self.other.is_none() {
            match copy_of(self.alloc, &log.kept) {
                Ok(kept) => self.other = Some(kept),
                Err(error) => {
                    self.has_failed = true;
                    return Err(error);
                }
            }
        }
        Ok(())
    }

    fn sync_folder(&mut self) -> io::Result<()> {
        self.other = None;
        Ok(())
    }
}
