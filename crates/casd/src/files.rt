//! The files that the program is given: the cluster file, and the log in its folder.
ghost use Rattle.std.specs.Prelude.{◌≡◌, IsTrue, IfErr, IfOk};
ghost use Rattle.cluster_file.specs.File.{IsLawfulFile};
ghost use Rattle.casd.specs.Fault.{IsOpenFault};
ghost use Rattle.casd.specs.Files.{HasReadFile};

use crate::fault::Fault;
use crate::folder::unopened;
use cluster_file::{ClusterFile, read_cluster_file};
use node_store::{DiskFolder, FolderLog, Log};
use std::alloc::Global;
use std::io;

/// The files and folders that the program is given names of.
pub trait GivenFiles {
    ghost use Rattle.std.specs.Prelude.{◌≡◌, ℕ, List, Bool, true, Option, None, Some, IsTrue, IfErr, IfOk};
    ghost use Rattle.std.specs.Io.KnownBytes.{Keeps};

    // The bytes of the file of a name, where they are known.
    ghost given: { Self → (name : List ℕ) → Option (List ℕ) } = { λ _ name. None };

    // The bytes of the file `log` in a folder, where they are known. If there is no such file, these are none.
    ghost found: { Self → (folder : List ℕ) → Option (List ℕ) } = { λ _ folder. None };

    // The bytes that the log of a folder keeps after the machine stops, where they are known: those that it kept when
    // it was closed.
    ghost kept: { Self → (folder : List ℕ) → Option (List ℕ) } = { λ _ folder. None };

    // Whether a call of the log of a folder failed. Files that say nothing of this may always have failed.
    ghost failed: { Self → (folder : List ℕ) → Bool } = { λ _ folder. true };

    /// A folder that is locked.
    type Folder: DiskFolder + Drop;

    /// Reads all bytes of the file of this name.
    fn read_bytes(&self, name: &str) -> io::Result<Vec<u8>>
        ensures { IfOk result (λ bytes. Keeps (given self.now name.now) (Some bytes.items)) };

    /// Locks a folder. Fails with `InUse` if another process has the lock. Then nothing is changed.
    fn lock(&self, folder: &str) -> Result<Self::Folder, Fault>
        ensures found { IfOk result (λ taken. Self.Folder.found taken ≡ found self.now folder.now) }
        ensures sound { IfOk result (λ taken. IsTrue (Self.Folder.sound taken)) }
        ensures fault { IfErr result IsOpenFault };

    /// Closes the log of a folder, and unlocks the folder. What this log keeps then, the folder keeps. If a call of
    /// this log failed, one of the folder's log did.
    fn close_log<L: Log + Drop>(&mut self, folder: &str, log: L)
        ensures kept { Keeps (kept self.new folder.now) (L.kept log) }
        ensures failure { IsTrue (L.failed log) → IsTrue (failed self.new folder.now) };
}

/// Reads the cluster file of this name. Fails with `NoNode` if it has no node of this number.
pub fn read_file<G: GivenFiles>(
    alloc: Global,
    files: &G,
    name: &str,
    number: u8,
) -> Result<ClusterFile, Fault>
    ensures { HasReadFile (G.given files.now name.now) number result }
{
    let text = match files.read_bytes(name) {
        Ok(text) => text,
        Err(error) => return Err(Fault::Unread(error)),
    };
    let file = match read_cluster_file(alloc, &text) {
        Ok(file) => file,
        Err(error) => return Err(Fault::BadFile(error)),
    };
    know_lawful(&file);
    if file.has_node(number) {
        Ok(file)
    } else {
        Err(Fault::NoNode(number))
    }
}

// Does nothing. Each cluster file is lawful, and its contract says so.
fn know_lawful(file: &ClusterFile)
    ensures { IsLawfulFile file.now }
{
    let _ = file.nodes();
}

/// Locks the folder and opens the log in it. Fails with `InUse` if another process has the folder locked. Then nothing
/// is changed.
pub fn open_log<G: GivenFiles>(files: &G, folder: &str) -> Result<FolderLog<G::Folder>, Fault>
    ensures found { IfOk result (λ log. log.written ≡ G.found files.now folder.now) }
    ensures sound { IfOk result (λ log. IsTrue log.sound) }
    ensures fault { IfErr result IsOpenFault }
{
    let taken = match files.lock(folder) {
        Ok(taken) => taken,
        Err(fault) => return Err(fault),
    };
    match FolderLog::open(taken) {
        Ok(log) => Ok(log),
        Err(error) => Err(unopened(error)),
    }
}
