//! What the steps of a core come to.
ghost use Rattle.node_core.specs.Laws.{CutOffRoundsStopEarly, CutOffStartsAreStopped, ExchangedLogsAreRenewals};
ghost use Rattle.node_core.specs.Laws.{FailedRoundsStopEarly, OpenedCoresHaveStarted, RoundsAreServed};

use node_store::steps_keep_order;

/// A law: if a core is opened, and what its program has to do with the log is done, that is a start of a process.
pub fn opened_cores_have_started()
    ensures { OpenedCoresHaveStarted }
{}

/// A law: if that is cut off anywhere, it is a start of a process that fails.
pub fn cut_off_starts_are_stopped()
    ensures { CutOffStartsAreStopped }
{}

/// A law: if a core handles frames, and the steps are carried out, that is a round of a process.
pub fn rounds_are_served()
    ensures { RoundsAreServed }
{
    steps_keep_order();
}

/// A law: if the steps are cut off anywhere, that is a round of a process that stops early.
pub fn cut_off_rounds_stop_early()
    ensures { CutOffRoundsStopEarly }
{
    steps_keep_order();
}

/// A law: so is a call that fails, for which nothing is done.
pub fn failed_rounds_stop_early()
    ensures { FailedRoundsStopEarly }
{}

/// A law: if a log is written anew and put in the place of the old one, or is not, that is what a process does between
/// two rounds.
pub fn exchanged_logs_are_renewals()
    ensures { ExchangedLogsAreRenewals }
{}
