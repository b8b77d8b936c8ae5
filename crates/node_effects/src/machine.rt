use crate::effects::Effects;
use crate::error::{NodeError, RecoveryError};
use crate::report::Report;
use frames::Frame;
use node_log::Entry;

/// A deterministic machine that handles frames and has a log, such as a node.
pub trait Machine {
    ghost use Rattle.std.specs.Prelude.{ℕ, List, Option, OnOk, IfErr, IfOk};
    ghost use Rattle.node_effects.specs.declared.effects.Effects.{Effects as Wanted};
    ghost use Rattle.node_effects.specs.declared.error.NodeError.{NodeError as Failure};
    ghost use Rattle.node_effects.specs.declared.report.Report.{Report as Told};

    // What the machine is after an entry of its log was carried out again.
    ghost carries_out: { Self → List (List ℕ) → Self → Type 0 };

    // What the machine wants done after a frame, and what it is then.
    ghost handles: { Self → List (List ℕ) → Wanted → Self → Type 0 };

    // What a frame may make the machine fail with.
    ghost fails: { Self → List (List ℕ) → Failure → Type 0 };

    // What the machine is after it was told how long the log is, and told what an operator should know.
    ghost notes: { Self → ℕ → Self → Type 0 };

    // What the machine then tells an operator.
    ghost tells: { Self → Option Told → Type 0 };

    /// Carries out the next entry of the log again.
    fn recover(&mut self, entry: Entry) -> Result<(), RecoveryError>
        ensures { OnOk result (carries_out self.old entry self.new) };

    /// Handles a frame that has come.
    fn handle(&mut self, frame: Frame) -> Result<Effects, NodeError>
        ensures handled { IfOk result (λ effects. handles self.old frame effects self.new) }
        ensures refused { IfErr result (fails self.old frame) };

    /// Notes how many bytes the log has. Returns the oldest thing that an operator should know and was not told yet, if
    /// there is one.
    fn begin_round(&mut self, log_bytes: u64) -> Option<Report>
        ensures noted { notes self.old log_bytes self.new }
        ensures told { tells self.old result };
}
