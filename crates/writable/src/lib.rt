//! That a node never fails because something that it has to write does not fit.
#![tactic(auto)]

pub use laws::{
    fit_keepers_can_begin, fit_keepers_can_deliver, fit_keepers_can_resend, fit_keepers_can_rewrite,
};
pub use starting::{new_keepers_are_fit, read_records_are_fit, recovered_objects_are_fit};
pub use staying::{
    asked_keepers_are_fit, begun_keepers_are_fit, delivered_keepers_are_fit,
    given_up_keepers_are_fit,
};

mod laws;
mod starting;
mod staying;
