//! The log in a folder of the disk.
ghost use Rattle.std.specs.Prelude.{◌≡◌, IfOk, IsTrue};

use crate::disk::{DiskFile, DiskFolder};
use crate::log::Log;
use crate::second::RewritableLog;
use crate::stored::StoredLog;
use std::io;
use std::marker::Model;

/// The log that is the file `log` in a folder. A contract sees the bytes that were written, and those that a start
/// finds after the machine stops.
pub struct FolderLog<D: DiskFolder> {
    folder: D,
    file: D::File,
    // Whether the folder was synced since the file got its name.
    is_placed: bool,
}

impl<D: DiskFolder> Model for FolderLog<D> {
    ghost use Rattle.node_store.specs.Disk.{LogBytes};

    ghost Value = { LogBytes };

    ghost use Rattle.std.specs.Prelude.{◌≡◌, ◌&&◌, ◌||◌, None, IsTrue};
    ghost use Rattle.node_store.specs.Disk.{found_after_stop};

    ghost view = { λ log. record {
      written = D.File.written log.file;
      kept = found_after_stop (D.other log.folder) (D.File.kept log.file);
      sound = D.File.sound log.file && D.sound log.folder;
      failed = D.File.failed log.file || D.failed log.folder;
    } };

    ghost invariant = { λ log. IsTrue log.is_placed → IsTrue (D.sound log.folder) → D.other log.folder ≡ None };
}

impl<D: DiskFolder + Drop> Drop for FolderLog<D> {
    fn drop(self) {
        let Self {
            folder: _,
            file: _,
            is_placed: _,
        } = self;
    }
}

/// The file `log.new`, which is written from its start on.
#[derive(Drop)]
pub struct SecondLog<F> {
    second: F,
}

impl<D: DiskFolder + Drop> FolderLog<D> {
    /// Opens the file `log` in a folder, or makes it, if there is none. No call of this log has failed yet, if none of
    /// the folder has.
    pub fn open(folder: D) -> io::Result<FolderLog<D>>
        ensures written { IfOk result (λ log. log.written ≡ D.found folder) }
        ensures sound { IfOk result (λ log. log.sound ≡ D.sound folder) }
        ensures unfailed { IfOk result (λ log. IsTrue log.failed → IsTrue (D.failed folder)) }
    {
        let mut folder = folder;
        let file = folder.open_log()?;
        Ok(FolderLog {
            folder,
            file,
            is_placed: false,
        })
    }
}

impl<D: DiskFolder> Log for FolderLog<D> {
    ghost written = { λ log. log.written };

    ghost kept = { λ log. log.kept };

    ghost sound = { λ log. log.sound };

    ghost failed = { λ log. log.failed };

    fn append(&mut self, bytes: &[u8]) -> io::Result<()> {
        self.file.append(bytes)
    }

    // Until the folder is synced, the name `log` may lead to another file after the machine stops.
    fn sync(&mut self) -> io::Result<()> {
        self.file.sync_data()?;
        if !self.is_placed {
            self.folder.sync_folder()?;
            self.is_placed = true;
        }
        Ok(())
    }
}

impl<F: DiskFile> Log for SecondLog<F> {
    ghost written = { λ log. F.written log.second };

    ghost kept = { λ log. F.kept log.second };

    ghost sound = { λ log. F.sound log.second };

    ghost failed = { λ log. F.failed log.second };

    fn append(&mut self, bytes: &[u8]) -> io::Result<()> {
        self.second.append(bytes)
    }

    fn sync(&mut self) -> io::Result<()> {
        self.second.sync_data()
    }
}

impl<D: DiskFolder> RewritableLog for FolderLog<D> {
    type Second = SecondLog<D::File>;

    fn begin_second(&mut self) -> io::Result<SecondLog<D::File>> {
        let second = self.folder.make_second(&self.file)?;
        Ok(SecondLog { second })
    }

    fn remove_second(&mut self) -> io::Result<()> {
        self.folder.remove_second()
    }

    fn put_second(&mut self, second: SecondLog<D::File>) -> io::Result<()> {
        let SecondLog { second: file } = second;
        self.is_placed = false;
        self.folder.rename_second(&self.file, &file)?;
        self.file = file;
        self.folder.sync_folder()?;
        self.is_placed = true;
        Ok(())
    }
}

impl<D: DiskFolder> StoredLog for FolderLog<D> {
    type Reader = D::Reader;

    fn read(&self) -> io::Result<D::Reader> {
        self.folder.read_log(&self.file)
    }

    fn cut(&mut self, count: u64) -> io::Result<u64> {
        let length = self.file.length()?;
        if length <= count {
            return Ok(0);
        }
        self.file.cut(count)?;
        Ok(length - count)
    }
}
