//! What a node needs of the files of the operating system.
//!
//! Each function here stands for one call of the system, or two that belong together. What its contract says is
//! assumed of the system: a body that is proved shows only that it fits the ghosts that the implementation gives.
use std::io;
use std::io::Read;

/// A file that is written at its end.
pub trait DiskFile {
    ghost use Rattle.std.specs.Prelude.{◌≡◌, ℕ, List, Bool, true, Option, None, IfSome, IsTrue, OnOk};
    ghost use Rattle.std.specs.Prelude.{IfOk, length};
    ghost use Rattle.std.specs.Io.KnownBytes.{Keeps};
    ghost use Rattle.frames.specs.Writing.{Writes};
    ghost use Rattle.node_store.specs.Logs.{Grows, IsKeptBehind, TellsFailure};
    ghost use Rattle.node_store.specs.Disk.{IsCutTo, LeavesFront, LosesEnd};

    // The bytes that a reader of the file gets while the machine runs, where they are known.
    ghost written: { Self → Option (List ℕ) } = { λ _. None };

    // The bytes that the file has after the machine stops, where they are known, but for zeros that may stand behind
    // them.
    ghost kept: { Self → Option (List ℕ) } = { λ _. None };

    // Whether each `sync_data` succeeded. After one that failed, a later one may succeed although bytes are missing,
    // and the file may then keep bytes that were written later than these.
    ghost sound: { Self → Bool } = { λ _. true };

    // Whether an `append` or a `sync_data` failed. A file that says nothing of this may always have failed.
    ghost failed: { Self → Bool } = { λ _. true };

    /// Writes bytes at the end. Where it fails, a front of them was written.
    fn append(&mut self, bytes: &[u8]) -> io::Result<()>
        ensures written { Writes (written self.old) (written self.new) result bytes.now }
        ensures kept { Grows (kept self.old) (kept self.new) }
        ensures within { IsTrue (sound self.old) → Grows (kept self.old) (written self.old)
            → Grows (kept self.new) (written self.new) }
        ensures sound { sound self.new ≡ sound self.old }
        ensures failure { TellsFailure (failed self.old) (failed self.new) result };

    /// Makes the file keep what was written, if no earlier call failed. Behind that it may still keep bytes that were
    /// cut off: where it fails, some or all of these. What it kept before, it keeps in any case.
    fn sync_data(&mut self) -> io::Result<()>
        ensures written { Keeps (written self.old) (written self.new) }
        ensures kept { Grows (kept self.old) (written self.old) → Grows (kept self.old) (kept self.new) }
        ensures within { IsTrue (sound self.old) → Grows (kept self.old) (written self.old)
            → Grows (kept self.new) (written self.new) }
        ensures cut { IsKeptBehind (written self.old) (kept self.old) → Grows (written self.old) (kept self.new)
            × Grows (kept self.new) (kept self.old) }
        ensures all { IsTrue (sound self.old) → OnOk result (kept self.new ≡ written self.new) }
        ensures sound { OnOk result (sound self.new ≡ sound self.old) }
        ensures failure { TellsFailure (failed self.old) (failed self.new) result };

    /// How many bytes the file has.
    fn length(&self) -> io::Result<u64>
        ensures { IfOk result (λ count. IfSome (written self.now) (λ bytes. count ≡ length bytes)) };

    /// Cuts the file behind so many bytes, where the next byte is then written. Of what was written, and of what the
    /// file keeps, the bytes behind these may be gone, also where this fails.
    fn cut(&mut self, count: u64) -> io::Result<()>
        ensures written { OnOk result (IsCutTo count (written self.old) (written self.new)) }
        ensures left { LeavesFront count (written self.old) (written self.new) }
        ensures kept { LosesEnd count (kept self.old) (kept self.new) }
        ensures sound { sound self.new ≡ sound self.old }
        ensures failure { failed self.new ≡ failed self.old };
}

/// The folder of a node, in which only this program makes and renames files: the file `log`, and the file `log.new`,
/// which takes its place when the log is written anew. Some functions are given the open files of these names, which
/// their contracts need and the system does not.
pub trait DiskFolder {
    ghost use Rattle.std.specs.Prelude.{◌≡◌, ◌⊎◌, [], ℕ, List, Bool, true, Option, None, Some, IsTrue};
    ghost use Rattle.std.specs.Prelude.{OnOk, OnErr, IfOk};
    ghost use Rattle.std.specs.Io.KnownBytes.{Keeps};
    ghost use Rattle.node_store.specs.Disk.{MayLeadTo, found_after_stop};
    ghost use Rattle.node_store.specs.Logs.{TellsFailure};
    ghost use Rattle.node_store.specs.Rewriting.{IsBeside};

    /// A file in the folder.
    type File: DiskFile + Drop;

    /// A reader of the file `log`.
    type Reader: Read + Drop;

    // The bytes of the file `log`, where they are known. If there is no such file, these are none.
    ghost found: { Self → Option (List ℕ) } = { λ _. None };

    // What a start finds under the name `log` after the machine stops: what the file keeps that the program has open
    // (None), or other bytes, where they are known. The name may still lead elsewhere, until the folder is synced.
    ghost other: { Self → Option (Option (List ℕ)) } = { λ _. None };

    // Whether each `sync_folder` succeeded. After one that failed, a later one may succeed although a name still leads
    // elsewhere.
    ghost sound: { Self → Bool } = { λ _. true };

    // Whether a `rename_second` or a `sync_folder` failed. A folder that says nothing of this may always have failed.
    ghost failed: { Self → Bool } = { λ _. true };

    /// Opens the file `log`, or makes it, if there is none.
    fn open_log(&mut self) -> io::Result<Self::File>
        ensures written { IfOk result (λ log. Self.File.written log ≡ found self.old) }
        ensures fresh { IfOk result (λ log. IsTrue (Self.File.sound log)) }
        ensures unfailed { IfOk result (λ log. IsTrue (Self.File.failed log) → IsTrue (failed self.old)) }
        ensures sound { sound self.new ≡ sound self.old }
        ensures failure { failed self.new ≡ failed self.old };

    /// Opens the file `log`, which the program has open, once more, to read it from its start.
    fn read_log(&self, log: &Self::File) -> io::Result<Self::Reader>
        ensures { IfOk result (λ reader. Keeps (Self.File.written log.now) (Self.Reader.remaining reader)) };

    /// Makes the file `log.new`, which is empty. If there is one already, its bytes are gone.
    fn make_second(&mut self, log: &Self::File) -> io::Result<Self::File>
        ensures other { other self.new ≡ other self.old }
        ensures empty { IfOk result (λ second. IsBeside (Self.File.written log.now) (Self.File.written second) []) }
        ensures fresh { IfOk result (λ second. IsTrue (Self.File.sound second)) }
        ensures unfailed { IfOk result (λ second. IsTrue (Self.File.failed second) → IsTrue (failed self.old)) }
        ensures sound { sound self.new ≡ sound self.old }
        ensures failure { failed self.new ≡ failed self.old };

    /// Removes the file `log.new`. Fails with `NotFound` if there is none.
    fn remove_second(&mut self) -> io::Result<()>
        ensures other { other self.new ≡ other self.old }
        ensures sound { sound self.new ≡ sound self.old }
        ensures failure { failed self.new ≡ failed self.old };

    /// Gives the file `log.new` the name `log`. The name may lead to the old file after the machine stops. Where this
    /// fails, the name leads to the old file, and may lead to the new one after the machine stops.
    fn rename_second(&mut self, log: &Self::File, second: &Self::File) -> io::Result<()>
        ensures renamed { OnOk result
            (MayLeadTo (other self.new) (found_after_stop (other self.old) (Self.File.kept log.now))) }
        ensures failed { OnErr result
            ((other self.new ≡ other self.old) ⊎ (other self.new ≡ Some (Self.File.kept second.now))) }
        ensures sound { sound self.new ≡ sound self.old }
        ensures failure { TellsFailure (failed self.old) (failed self.new) result };

    /// Makes the folder keep to which files its names lead, if no earlier call failed.
    fn sync_folder(&mut self) -> io::Result<()>
        ensures synced { IsTrue (sound self.old) → OnOk result (other self.new ≡ None) }
        ensures failed { (other self.new ≡ other self.old) ⊎ (other self.new ≡ None) }
        ensures sound { OnOk result (sound self.new ≡ sound self.old) }
        ensures failure { TellsFailure (failed self.old) (failed self.new) result };
}
