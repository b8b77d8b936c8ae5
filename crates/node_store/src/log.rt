//! A log that keeps what was synced.
use std::io;

/// A log: bytes can be appended to it, and bytes that are synced are still there after the computer stops.
pub trait Log {
    ghost use Rattle.std.specs.Prelude.{◌≡◌, ℕ, List, Bool, true, Option, None, IsTrue, OnOk};
    ghost use Rattle.std.specs.Io.KnownBytes.{Keeps};
    ghost use Rattle.frames.specs.Writing.{Writes};
    ghost use Rattle.node_store.specs.Logs.{Grows, IsKeptBehind, TellsFailure};

    // The bytes that were appended, where they are known.
    ghost written: { Self → Option (List ℕ) } = { λ _. None };

    // The bytes that are there after the machine stops, where they are known, but for zeros that may stand behind
    // them.
    ghost kept: { Self → Option (List ℕ) } = { λ _. None };

    // Whether each sync succeeded. After one that failed, a later one may succeed although bytes are missing.
    ghost sound: { Self → Bool } = { λ _. true };

    // Whether a call failed that writes the log: an append, a sync or an exchange. A log that says nothing of this may
    // always have failed.
    ghost failed: { Self → Bool } = { λ _. true };

    /// Appends bytes. Some of them may be kept at once. Where it fails, a front of them was appended.
    fn append(&mut self, bytes: &[u8]) -> io::Result<()>
        ensures written { Writes (written self.old) (written self.new) result bytes.now }
        ensures kept { Grows (kept self.old) (kept self.new) }
        ensures within { IsTrue (sound self.old) → Grows (kept self.old) (written self.old)
            → Grows (kept self.new) (written self.new) }
        ensures sound { sound self.new ≡ sound self.old }
        ensures failure { TellsFailure (failed self.old) (failed self.new) result };

    /// Makes the log keep all bytes that were appended, if no earlier sync failed. Behind them it may still keep bytes
    /// that were cut off: some or all of these are kept, where it fails.
    ///
    /// After a sync that failed, the log may have lost bytes for good, and a later sync may succeed all the same. So
    /// nothing is promised of what a sync keeps behind one that failed.
    fn sync(&mut self) -> io::Result<()>
        ensures written { Keeps (written self.old) (written self.new) }
        ensures kept { IsTrue (sound self.old) → Grows (kept self.old) (written self.old)
            → Grows (kept self.old) (kept self.new) }
        ensures within { IsTrue (sound self.old) → Grows (kept self.old) (written self.old)
            → Grows (kept self.new) (written self.new) }
        ensures cut { IsTrue (sound self.old) → IsKeptBehind (written self.old) (kept self.old)
            → Grows (written self.old) (kept self.new) × Grows (kept self.new) (kept self.old) }
        ensures all { IsTrue (sound self.old) → OnOk result (kept self.new ≡ written self.new) }
        ensures sound { OnOk result (sound self.new ≡ sound self.old) }
        ensures failure { TellsFailure (failed self.old) (failed self.new) result };
}
