//! The locked sections: what a thread does while it holds a store's lock. Each is lent the cluster with its book, and
//! its contract says which steps it made. They are written and proved in the crate `locked_steps`. `open_in` and
//! `close_in` need no lock: no other thread has the store yet, or has it any more.

pub use locked_steps::{
    HandedIn, Parts, admin_in, begin_in, begin_move_in, close_in, disturb_in, has_move_in,
    move_round_in, move_step_in, open_in, retire_in, round_in, step_in, stir_in,
};
