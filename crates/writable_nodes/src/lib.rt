//! With what a node fails because something that it has to write does not fit.
#![tactic(auto)]

pub use laws::{
    desks_stay_fit, fit_nodes_can_do_what_comes, fit_nodes_can_go_on, fit_nodes_stop_at_answers,
    read_commands_are_fit, starts_are_fit,
};

mod laws;
