//! A log that is read and cut at a node's start.
use crate::second::RewritableLog;
use std::io;
use std::io::Read;

/// A log that can be read from its start, and cut.
pub trait StoredLog: RewritableLog {
    ghost use Rattle.std.specs.Prelude.{◌≡◌, ◌-◌, IfSome, OnOk, IfOk, length};
    ghost use Rattle.std.specs.Io.KnownBytes.{Keeps};
    ghost use Rattle.node_store.specs.Disk.{IsFrontOf, LosesEnd};

    /// A reader of the log.
    type Reader: Read + Drop;

    /// Returns a reader of the log's bytes.
    fn read(&self) -> io::Result<Self::Reader>
        ensures { IfOk result (λ reader. Keeps (Self.written self.now) (Self.Reader.remaining reader)) };

    /// Cuts the log behind so many bytes, and returns how many it cut off. Of what was written, and of what the log
    /// keeps, the bytes behind these may be gone, also where this fails.
    fn cut(&mut self, count: u64) -> io::Result<u64>
        ensures written { OnOk result (IsFrontOf count (Self.written self.old) (Self.written self.new)) }
        ensures left { LosesEnd count (Self.written self.old) (Self.written self.new) }
        ensures kept { LosesEnd count (Self.kept self.old) (Self.kept self.new) }
        ensures lost { IfOk result (λ lost. IfSome (Self.written self.old) (λ bytes. lost ≡ length bytes - count)) }
        ensures sound { Self.sound self.new ≡ Self.sound self.old }
        ensures failure { Self.failed self.new ≡ Self.failed self.old };
}
