//! What clients of processes read after a write was answered, proved as theorems of every run of them.
ghost use Rattle.example_tests.specs.ReadsOfProcesses.{AnsweredWritesAreRead, OnlyWriteIsRead};

use processes::clients_see_atomic_histories;

/// A law: whatever the processes of a cluster do and wherever they stop, a read that began after a write was answered
/// returns the value of the write, or that of another write, which was not answered before this one began.
pub fn answered_writes_are_read()
    ensures { AnsweredWritesAreRead }
{
    clients_see_atomic_histories();
}

/// Example: clients of a cluster see that a write begins and is answered, and then that a read begins and is answered,
/// and nothing else. The read returned the value of the write, whichever nodes the two were sent to, and wherever
/// processes stopped and started again meanwhile.
pub fn the_only_write_is_read()
    ensures { OnlyWriteIsRead }
{
    clients_see_atomic_histories();
}
