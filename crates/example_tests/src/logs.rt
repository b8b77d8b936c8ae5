//! The log of a node that stops, proved as a theorem.
ghost use Rattle.std.specs.Prelude.{◌≡◌};
ghost use Rattle.network.specs.Events.{world_after};
ghost use Rattle.network.specs.Premises.{MayHappenInTurn};
ghost use Rattle.node_store.specs.Laws.{IsLeft};
ghost use Rattle.example_tests.specs.RecordExamples.{whole};
ghost use Rattle.example_tests.specs.Scripts.{start};
ghost use Rattle.example_tests.specs.StoppedSync.{OnlySyncedAreRead, StartedNodeHasWrite, SyncedAreRead};
ghost use Rattle.example_tests.specs.StoppedSync.{stop_after_write, stop_after_write_entries, stopped_disk};
ghost use Rattle.example_tests.specs.StoppedSync.{stopped_log};

use node_log::entries_are_read_back;
use node_messages::messages_are_read_back;
use node_store::{left_logs_are_read, logs_are_read_once};
use node_strings::strings_are_read_back;

/// Example: node 0 stops while its log is synced. The first four entries are synced: those of its start, and of the two
/// requests of an answered write by which its bank changed. Of the fifth, about another object, the head and two bytes
/// are on the disk, and zeros behind them. Exactly the first four entries are read. In the run, node 0 starts again
/// with what it kept of the object of the write, and a read from it and from a node that the write did not reach
/// returns the value. Each node that starts from what such a stop leaves, as `processes` defines it, has kept just
/// that.
pub fn a_stop_within_a_sync()
    ensures left { IsLeft stopped_log 4 stopped_disk }
    ensures found { SyncedAreRead }
    ensures only { OnlySyncedAreRead }
    ensures may { MayHappenInTurn whole stop_after_write start }
    ensures gives { (world_after whole stop_after_write start).history ≡ stop_after_write_entries }
    ensures started { StartedNodeHasWrite }
{
    entries_are_read_back();
    logs_are_read_once();
    left_logs_are_read();
    messages_are_read_back();
    strings_are_read_back();
}
