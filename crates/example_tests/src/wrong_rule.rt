//! A wrong rule, and premises left out, each with a run that shows what it breaks, proved as theorems.
ghost use Rattle.std.specs.Prelude.{◌≡◌};
ghost use Rattle.atomicity.specs.Atomic.{IsAtomic};
ghost use Rattle.network.specs.Events.{world_after};
ghost use Rattle.example_tests.specs.Forgetting.{MayRunForgetting, empty_read, forgetful, forgetful_entries};
ghost use Rattle.example_tests.specs.Forgetting.{write_to_two};
ghost use Rattle.example_tests.specs.LostEntry.{RestLacksFinalize, entry_lost};
ghost use Rattle.network.specs.Premises.{MayHappenInTurn};
ghost use Rattle.example_tests.specs.Inventing.{MayRunInventing, inventing, inventing_entries};
ghost use Rattle.example_tests.specs.RecordExamples.{whole};
ghost use Rattle.example_tests.specs.Scripts.{start};
ghost use Rattle.example_tests.specs.TwoFiles.{apart, missed, missed_entries};
ghost use Rattle.example_tests.specs.TwoProcesses.{MayRunWithTwins, twin_after, twin_run, twin_start};

use node_messages::messages_are_read_back;
use node_strings::strings_are_read_back;

/// Example: if a node may forget what its banks kept when it stops and starts again, there is a run whose history is
/// not atomic. The nodes 0 and 1 keep a write that is answered, node 1 forgets it, and a read from the nodes 1 and 2
/// returns the empty value. Left out is the premise that what a node has synced to its log is still there after a
/// restart.
pub fn forgetting_loses_a_write()
    ensures may { MayRunForgetting whole forgetful start }
    ensures gives { (world_after whole forgetful start).history ≡ forgetful_entries }
    ensures not_atomic { ¬ (IsAtomic (world_after whole forgetful start).history) }
{}

/// Example: if the log of a node may forget its last synced entry, there is a run whose history is not atomic, although
/// all other events meet all premises. The nodes 0 and 1 keep a write that is answered. The last entry of node 1
/// records that it finalized the tag of the write. Each new node that carries out only the entries before it is as node
/// 1 starts again in this run. Then a read from the nodes 1 and 2 returns the empty value. Left out is the same premise
/// as in `forgetting_loses_a_write`.
pub fn a_lost_entry_loses_a_write()
    ensures before { MayHappenInTurn whole write_to_two start }
    ensures lost { RestLacksFinalize }
    ensures behind { MayHappenInTurn whole empty_read entry_lost }
    ensures gives { (world_after whole empty_read entry_lost).history ≡ forgetful_entries }
    ensures not_atomic { ¬ (IsAtomic (world_after whole empty_read entry_lost).history) }
{
    messages_are_read_back();
    strings_are_read_back();
}

/// Example: if two processes may run under one number, each with a log of its own, there is a run whose history is not
/// atomic, although each event meets all other premises. Node 0 and the first process of node 1 keep a write that is
/// answered, and a read from the second process of node 1, which began with an empty log, and from node 2 returns the
/// empty value. The events are those of `forgetting_loses_a_write`, but for the restart. Left out is the premise that
/// only one process at a time uses a node's number, always with the same log.
pub fn two_processes_lose_a_write()
    ensures may { MayRunWithTwins whole twin_run twin_start }
    ensures gives { (twin_after whole twin_run twin_start).world.history ≡ forgetful_entries }
    ensures not_atomic { ¬ (IsAtomic (twin_after whole twin_run twin_start).world.history) }
{}

/// Example: if nodes may run with two cluster files, there is a run whose history is not atomic, although each event
/// meets all other premises. By the file of node 3 the object begins at node 0 alone. Its write is answered by node 0,
/// and a read from the nodes 1 and 2 returns the empty value. Left out is the premise that all nodes have the same
/// cluster file.
pub fn two_files_lose_a_write()
    ensures may { MayHappenInTurn whole missed apart }
    ensures gives { (world_after whole missed apart).history ≡ missed_entries }
    ensures not_atomic { ¬ (IsAtomic (world_after whole missed apart).history) }
{}

/// Example: if the network may invent messages, there is a run whose history is not atomic. The nodes 0 and 1 keep a
/// write that is answered, and a read takes replies in their name that say otherwise. Left out is the premise that the
/// network makes up no message.
pub fn inventing_loses_a_write()
    ensures may { MayRunInventing whole inventing start }
    ensures gives { (world_after whole inventing start).history ≡ inventing_entries }
    ensures not_atomic { ¬ (IsAtomic (world_after whole inventing start).history) }
{}
