//! A log and a writer that stop after so many calls, as those of a program that is killed.
//!
//! What code over them leaves is what it leaves if it is killed: until the first call that is not carried out, it
//! cannot tell them from the log and the writer in them, and from then on, nothing changes any more. A kill within a
//! call is a failure of the inner log or writer, which may have done a part of it.
//!
//! The two do not count together. So there is a pair of numbers for each moment of the one sequence of calls to both.
ghost use Rattle.std.specs.Prelude.{◌≡◌, ◌-◌, ◌<◌, ◌↔◌, [], true, IfOk, IfSome, IsTrue, OnOk};
ghost use Rattle.std.specs.Prelude.{length};
ghost use Rattle.std.specs.Io.{WritesAtMost};
ghost use Rattle.std.specs.Io.KnownBytes.{Keeps, WriteAppends};
ghost use Rattle.frames.specs.Writing.{Writes};
ghost use Rattle.node_store.specs.Disk.{IsFrontOf, LosesEnd};
ghost use Rattle.node_store.specs.Logs.{Grows, IsKeptBehind, TellsExchange, TellsFailure};
ghost use Rattle.node_store.specs.Rewriting.{Becomes, IsBeside, KeepsOrBecomes};
ghost use Rattle.node_store.specs.Stopping.{FailsIfNoneLeft};

use crate::log::Log;
use crate::second::RewritableLog;
use crate::stored::StoredLog;
use std::io;
use std::io::{ErrorKind, Write};

/// A log that passes on so many calls. From then on, each call fails and changes nothing, but that it can still be
/// read. Calls to its second log go on, which change nothing that counts before it is put in the place of the log.
#[derive(Drop)]
pub struct StoppingLog<L> {
    /// The log to which calls are passed on.
    pub log: L,
    /// How many more calls are passed on.
    pub left: u64,
}

/// A writer that passes on so many calls. From then on, each call fails and changes nothing.
#[derive(Drop)]
pub struct StoppingWriter<W> {
    /// The writer to which calls are passed on.
    pub writer: W,
    /// How many more calls are passed on.
    pub left: u64,
}

// Whether one more call is passed on.
fn goes_on(left: &mut u64) -> bool
    ensures passes { IsTrue result ↔ (0 < left.old) }
    ensures counts { left.new ≡ left.old - 1 }
{
    if *left == 0 {
        return false;
    }
    *left -= 1;
    true
}

// Why a call fails that is not passed on.
fn stopped() -> io::Error {
    io::Error::from(ErrorKind::BrokenPipe)
}

impl<L: Log> Log for StoppingLog<L> {
    ghost written = { λ it. L.written it.log };

    ghost kept = { λ it. L.kept it.log };

    ghost sound = { λ it. L.sound it.log };

    // A call that is not passed on fails without a call of the log in it, so this one may always have failed.
    ghost failed = { λ _. true };

    fn append(&mut self, bytes: &[u8]) -> io::Result<()>
        ensures written { Writes (L.written self.old.log) (L.written self.new.log) result bytes.now }
        ensures kept { Grows (L.kept self.old.log) (L.kept self.new.log) }
        ensures within { IsTrue (L.sound self.old.log) → Grows (L.kept self.old.log) (L.written self.old.log)
            → Grows (L.kept self.new.log) (L.written self.new.log) }
        ensures sound { L.sound self.new.log ≡ L.sound self.old.log }
        ensures failure { TellsFailure true true result }
        ensures stopped { FailsIfNoneLeft self.old.left self.old self.new result }
        ensures counts { self.new.left ≡ self.old.left - 1 }
    {
        if !goes_on(&mut self.left) {
            return Err(stopped());
        }
        self.log.append(bytes)
    }

    fn sync(&mut self) -> io::Result<()>
        ensures written { Keeps (L.written self.old.log) (L.written self.new.log) }
        ensures kept { IsTrue (L.sound self.old.log) → Grows (L.kept self.old.log) (L.written self.old.log)
            → Grows (L.kept self.old.log) (L.kept self.new.log) }
        ensures within { IsTrue (L.sound self.old.log) → Grows (L.kept self.old.log) (L.written self.old.log)
            → Grows (L.kept self.new.log) (L.written self.new.log) }
        ensures cut { IsTrue (L.sound self.old.log) → IsKeptBehind (L.written self.old.log) (L.kept self.old.log)
            → Grows (L.written self.old.log) (L.kept self.new.log) × Grows (L.kept self.new.log) (L.kept self.old.log) }
        ensures all { IsTrue (L.sound self.old.log) → OnOk result (L.kept self.new.log ≡ L.written self.new.log) }
        ensures sound { OnOk result (L.sound self.new.log ≡ L.sound self.old.log) }
        ensures failure { TellsFailure true true result }
        ensures stopped { FailsIfNoneLeft self.old.left self.old self.new result }
        ensures counts { self.new.left ≡ self.old.left - 1 }
    {
        if !goes_on(&mut self.left) {
            return Err(stopped());
        }
        self.log.sync()
    }
}

impl<L: RewritableLog> RewritableLog for StoppingLog<L> {
    type Second = L::Second;

    fn begin_second(&mut self) -> io::Result<L::Second>
        ensures written { L.written self.new.log ≡ L.written self.old.log }
        ensures kept { L.kept self.new.log ≡ L.kept self.old.log }
        ensures empty { IfOk result (λ second.
            IsBeside (L.written self.old.log) (L.Second.written second) []) }
        ensures fresh { IfOk result (λ second. IsTrue (L.Second.sound second)) }
        ensures unfailed { IfOk result (λ second. IsTrue (L.Second.failed second) → IsTrue true) }
        ensures sound { L.sound self.new.log ≡ L.sound self.old.log }
        ensures stopped { FailsIfNoneLeft self.old.left self.old self.new result }
        ensures counts { self.new.left ≡ self.old.left - 1 }
    {
        if !goes_on(&mut self.left) {
            return Err(stopped());
        }
        self.log.begin_second()
    }

    fn remove_second(&mut self) -> io::Result<()>
        ensures written { L.written self.new.log ≡ L.written self.old.log }
        ensures kept { L.kept self.new.log ≡ L.kept self.old.log }
        ensures sound { L.sound self.new.log ≡ L.sound self.old.log }
        ensures stopped { FailsIfNoneLeft self.old.left self.old self.new result }
        ensures counts { self.new.left ≡ self.old.left - 1 }
    {
        if !goes_on(&mut self.left) {
            return Err(stopped());
        }
        self.log.remove_second()
    }

    fn put_second(&mut self, second: L::Second) -> io::Result<()>
        requires { L.Second.kept second ≡ L.Second.written second }
        ensures written { OnOk result (Becomes (L.written self.old.log) (L.written self.new.log)
            (L.Second.written second)) }
        ensures either { KeepsOrBecomes (L.written self.old.log) (L.written self.new.log) (L.Second.written second) }
        ensures kept { KeepsOrBecomes (L.kept self.old.log) (L.kept self.new.log) (L.Second.kept second) }
        ensures all { IsTrue (L.sound self.old.log) → OnOk result (L.kept self.new.log ≡ L.written self.new.log) }
        ensures sound { IsTrue (L.sound self.old.log) → IsTrue (L.Second.sound second)
            → OnOk result (IsTrue (L.sound self.new.log)) }
        ensures failure { TellsExchange true true result }
        ensures stopped { FailsIfNoneLeft self.old.left self.old self.new result }
        ensures counts { self.new.left ≡ self.old.left - 1 }
    {
        if !goes_on(&mut self.left) {
            return Err(stopped());
        }
        self.log.put_second(second)
    }
}

impl<L: StoredLog> StoredLog for StoppingLog<L> {
    type Reader = L::Reader;

    fn read(&self) -> io::Result<L::Reader> {
        self.log.read()
    }

    fn cut(&mut self, count: u64) -> io::Result<u64>
        ensures written { OnOk result (IsFrontOf count (L.written self.old.log) (L.written self.new.log)) }
        ensures left { LosesEnd count (L.written self.old.log) (L.written self.new.log) }
        ensures kept { LosesEnd count (L.kept self.old.log) (L.kept self.new.log) }
        ensures lost { IfOk result (λ lost.
            IfSome (L.written self.old.log) (λ bytes. lost ≡ length bytes - count)) }
        ensures sound { L.sound self.new.log ≡ L.sound self.old.log }
        ensures stopped { FailsIfNoneLeft self.old.left self.old self.new result }
        ensures counts { self.new.left ≡ self.old.left - 1 }
    {
        if !goes_on(&mut self.left) {
            return Err(stopped());
        }
        self.log.cut(count)
    }
}

impl<W: Write> Write for StoppingWriter<W> {
    ghost contents = { λ it. W.contents it.writer };

    fn write(&mut self, buf: &[u8]) -> io::Result<usize>
        ensures bound { WritesAtMost result buf.now }
        ensures bytes { WriteAppends (W.contents self.old.writer) (W.contents self.new.writer) result buf.now }
        ensures stopped { FailsIfNoneLeft self.old.left self.old self.new result }
        ensures counts { self.new.left ≡ self.old.left - 1 }
    {
        if !goes_on(&mut self.left) {
            return Err(stopped());
        }
        self.writer.write(buf)
    }

    fn flush(&mut self) -> io::Result<()>
        ensures bytes { Keeps (W.contents self.old.writer) (W.contents self.new.writer) }
        ensures stopped { FailsIfNoneLeft self.old.left self.old self.new result }
        ensures counts { self.new.left ≡ self.old.left - 1 }
    {
        if !goes_on(&mut self.left) {
            return Err(stopped());
        }
        self.writer.flush()
    }
}
