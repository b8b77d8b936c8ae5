//! What each run of the processes of a cluster promises.
ghost use Rattle.processes.specs.Answers.{ClientsGetTheirAnswers};
ghost use Rattle.processes.specs.Interleaved.{SessionsAreEvents, StoppedSessionsAreEvents};
ghost use Rattle.processes.specs.Interleaved.{UnexchangedSessionsAreEvents};
ghost use Rattle.processes.specs.Laws.{ClientsSeeAtomicHistories, ProcessesAreAtomic};
ghost use Rattle.processes.specs.Laws.{ProcessesHaveClusters, ProcessesKeepValues};
ghost use Rattle.processes.specs.Loops.{RoundsAreEvents, StopsAreEvents};
ghost use Rattle.processes.specs.OpenMoves.{LeftLogsHaveDistinctMoves, LogsHaveDistinctMoves};
ghost use Rattle.processes.specs.OpenMoves.{StartsHaveTheOpenMoves};
ghost use Rattle.processes.specs.Programs.{RewritesAreEvents, StartsAreEvents};
ghost use Rattle.processes.specs.StoppedStarts.{StoppedStartsAreEvents};

use node_store::left_logs_are_read;

/// A law: beside the processes of a cluster goes a cluster of nodes as `refinement` defines it, whatever the processes
/// do and wherever they stop.
pub fn processes_have_clusters()
    ensures { ProcessesHaveClusters }
{
    left_logs_are_read();
}

/// A law: for each name there is an atomic history, which has each answer that a client of the processes was told.
pub fn processes_are_atomic()
    ensures { ProcessesAreAtomic }
{
    left_logs_are_read();
}

/// A law: for each name there is an atomic history of what the clients of the processes saw.
pub fn clients_see_atomic_histories()
    ensures { ClientsSeeAtomicHistories }
{
    left_logs_are_read();
}

/// A law: each answer that is written to a client is one to the client's own command, and says what this history says.
pub fn clients_get_their_answers()
    ensures { ClientsGetTheirAnswers }
{
    left_logs_are_read();
}

/// A law: each frame that a process wrote carries a letter of that cluster, so each piece in it is its member's
/// fragment of its tag's value.
pub fn processes_keep_values()
    ensures { ProcessesKeepValues }
{
    left_logs_are_read();
}

/// A law: at each moment, no two moves in the log of a process have the same id.
pub fn logs_have_distinct_moves()
    ensures { LogsHaveDistinctMoves }
{
    left_logs_are_read();
}

/// A law: nor do two moves in what a stop leaves of the log.
pub fn left_logs_have_distinct_moves()
    ensures { LeftLogsHaveDistinctMoves }
{
    left_logs_are_read();
}

/// A law: whenever a process starts, the desk of its node has exactly the moves that are open at the node's objects,
/// and no other call. So open moves go on after each start.
pub fn starts_have_the_open_moves()
    ensures { StartsHaveTheOpenMoves }
{
    left_logs_are_read();
}

/// A law: a round of the loop `serve_frames` is a list of events of the program's process.
pub fn rounds_are_events()
    ensures { RoundsAreEvents }
{}

/// A law: so is a round in which the loop stops early, and what its log then keeps is what a stop may leave.
pub fn stops_are_events()
    ensures { StopsAreEvents }
{}

/// A law: what the contracts say of the functions that start the program is a list of events of its process.
pub fn starts_are_events()
    ensures { StartsAreEvents }
{
    left_logs_are_read();
}

/// A law: so is a start that fails, however far it has come, and what the log then keeps is what a stop may leave.
pub fn stopped_starts_are_events()
    ensures { StoppedStartsAreEvents }
{
    left_logs_are_read();
}

/// A law: so is a rewriting of its log.
pub fn rewrites_are_events()
    ensures { RewritesAreEvents }
{}

/// A law: what a program does until its input ends, in rounds with rewritings between them, is a list of events of its
/// process, whatever other processes do between the rounds.
pub fn sessions_are_events()
    ensures { SessionsAreEvents }
{}

/// A law: so is what it does until its loop stops early.
pub fn stopped_sessions_are_events()
    ensures { StoppedSessionsAreEvents }
{}

/// A law: so is what it does until it cannot exchange its log.
pub fn unexchanged_sessions_are_events()
    ensures { UnexchangedSessionsAreEvents }
{}
