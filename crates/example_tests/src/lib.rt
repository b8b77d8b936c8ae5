//! Worked examples, proved as theorems: runs of the record with all their steps, runs of separate nodes with all their
//! events, and runs of nodes that act by what each of them keeps itself.
#![tactic(auto)]

pub use early::a_quorum_is_not_enough;
pub use logs::a_stop_within_a_sync;
pub use nodes::{
    a_crash_before_the_reply, a_move_while_a_write_is_under_way, a_reply_taken_twice,
    a_write_and_a_read_at_nodes,
};
pub use reads::{answered_writes_are_read, the_only_write_is_read};
pub use records::{
    a_read_from_the_base, a_read_that_begins_anew, a_stale_read_is_not_atomic,
    a_write_a_move_and_a_read, a_write_and_a_read, the_bound_is_met_exactly,
};
pub use refined::{a_read_of_a_new_object, a_write_and_a_restart};
pub use wrong_rule::{
    a_lost_entry_loses_a_write, forgetting_loses_a_write, inventing_loses_a_write,
    two_files_lose_a_write, two_processes_lose_a_write,
};

mod early;
mod logs;
mod nodes;
mod reads;
mod records;
mod refined;
mod wrong_rule;
