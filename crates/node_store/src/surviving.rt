//! A log of a machine that goes on when a program ends.
//!
//! What a log keeps (`Log.kept`) is what a start finds after the machine stops. If only the program ends, or is killed,
//! and the machine goes on, a start finds all bytes that were written (`Log.written`), synced or not.
//!
//! So what code over any log promises of what its log keeps, it also promises of what was written: read its contract
//! over a `SurvivingLog` of its log. The code cannot tell this one from the log in it, and makes the same calls. Of a
//! program that is killed, read it over a `StoppingLog` of a `SurvivingLog`.
ghost use Rattle.std.specs.Prelude.{◌≡◌, IsTrue, OnOk};
ghost use Rattle.std.specs.Io.KnownBytes.{Keeps};
ghost use Rattle.node_store.specs.Logs.{TellsFailure};

use crate::log::Log;
use crate::second::RewritableLog;
use crate::stored::StoredLog;
use std::io;

/// A log of a machine that goes on: all that was written counts as kept. Each call is passed on, and has the result of
/// the log in it. The second log stays as it is: nothing of it counts before it is put in the place of the log, and
/// then it is synced.
#[derive(Drop)]
pub struct SurvivingLog<L> {
    /// The log to which calls are passed on.
    pub log: L,
}

impl<L: Log> Log for SurvivingLog<L> {
    ghost written = { λ it. L.written it.log };

    ghost kept = { λ it. L.written it.log };

    ghost sound = { λ it. L.sound it.log };

    ghost failed = { λ it. L.failed it.log };

    fn append(&mut self, bytes: &[u8]) -> io::Result<()> {
        self.log.append(bytes)
    }

    // The log is synced, though nothing that counts as kept depends on it.
    fn sync(&mut self) -> io::Result<()>
        ensures written { Keeps (L.written self.old.log) (L.written self.new.log) }
        ensures synced { IsTrue (L.sound self.old.log) → OnOk result (L.kept self.new.log ≡ L.written self.new.log) }
        ensures sound { OnOk result (L.sound self.new.log ≡ L.sound self.old.log) }
        ensures failure { TellsFailure (L.failed self.old.log) (L.failed self.new.log) result }
    {
        self.log.sync()
    }
}

impl<L: RewritableLog> RewritableLog for SurvivingLog<L> {
    type Second = L::Second;

    fn begin_second(&mut self) -> io::Result<L::Second> {
        self.log.begin_second()
    }

    fn remove_second(&mut self) -> io::Result<()> {
        self.log.remove_second()
    }

    fn put_second(&mut self, second: L::Second) -> io::Result<()> {
        self.log.put_second(second)
    }
}

impl<L: StoredLog> StoredLog for SurvivingLog<L> {
    type Reader = L::Reader;

    fn read(&self) -> io::Result<L::Reader> {
        self.log.read()
    }

    fn cut(&mut self, count: u64) -> io::Result<u64> {
        self.log.cut(count)
    }
}
