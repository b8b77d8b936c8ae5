//! A node of a cluster: what it does with each frame that comes to it, which entries its log gets, and which frames it
//! sends.
#![tactic(auto)]

pub use laws::{
    anew_gives_copies, desks_have_the_open_moves, ended_answers_fit, handled_frames_keep_own,
    handled_frames_keep_own_calls, handled_frames_use_ids, ids_are_left, new_nodes_have_own,
    nodes_run_out_of_ids, others_are_told_once, own_calls_are_distinct, ready_nodes_hear_quorums,
    recovered_entries_keep_own, started_desks_have_the_open_moves, started_nodes_keep_own,
};
pub use node::Node;

mod drops;
mod laws;
mod node;
mod peers;
mod reception;
mod silences;
