//! A log that can be written anew.
use crate::log::Log;
use std::io;

/// A log beside which a second one can be written, which then takes its place.
pub trait RewritableLog: Log {
    ghost use Rattle.std.specs.Prelude.{◌≡◌, ◌||◌, [], IsTrue, OnOk, IfOk};
    ghost use Rattle.node_store.specs.Logs.{TellsExchange};
    ghost use Rattle.node_store.specs.Rewriting.{IsBeside, Becomes, KeepsOrBecomes};

    /// The second log.
    type Second: Log + Drop;

    /// Begins a second log, which is empty. If there is one already, its bytes are gone.
    fn begin_second(&mut self) -> io::Result<Self::Second>
        ensures written { Self.written self.new ≡ Self.written self.old }
        ensures kept { Self.kept self.new ≡ Self.kept self.old }
        ensures empty { IfOk result (λ second. IsBeside (Self.written self.old) (Self.Second.written second) []) }
        ensures fresh { IfOk result (λ second. IsTrue (Self.Second.sound second)) }
        ensures unfailed { IfOk result
            (λ second. IsTrue (Self.Second.failed second) → IsTrue (Self.failed self.old)) }
        ensures sound { Self.sound self.new ≡ Self.sound self.old }
        ensures failure { Self.failed self.new ≡ Self.failed self.old };

    /// Removes the second log. May fail with `NotFound` if there is none.
    fn remove_second(&mut self) -> io::Result<()>
        ensures written { Self.written self.new ≡ Self.written self.old }
        ensures kept { Self.kept self.new ≡ Self.kept self.old }
        ensures sound { Self.sound self.new ≡ Self.sound self.old }
        ensures failure { Self.failed self.new ≡ Self.failed self.old };

    /// Puts the second log in the place of this one, for good. Where this fails, this log is either of the two, and
    /// the machine may stop and then have either of them.
    fn put_second(&mut self, second: Self::Second) -> io::Result<()>
        requires { Self.Second.kept second ≡ Self.Second.written second }
        ensures written { OnOk result (Becomes (Self.written self.old) (Self.written self.new)
            (Self.Second.written second)) }
        ensures either { KeepsOrBecomes (Self.written self.old) (Self.written self.new)
            (Self.Second.written second) }
        ensures kept { KeepsOrBecomes (Self.kept self.old) (Self.kept self.new) (Self.Second.kept second) }
        ensures all { IsTrue (Self.sound self.old) → OnOk result (Self.kept self.new ≡ Self.written self.new) }
        ensures sound { IsTrue (Self.sound self.old) → IsTrue (Self.Second.sound second)
            → OnOk result (IsTrue (Self.sound self.new)) }
        ensures failure { TellsExchange (Self.failed self.old || Self.Second.failed second) (Self.failed self.new)
            result };
}
