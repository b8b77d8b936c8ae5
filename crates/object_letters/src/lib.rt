//! The letters that lead a node's new object to one that it keeps, and the requests that lead a newly opened bank to a
//! given bank.
//!
//! A node that writes its log anew writes down these letters, and the requests in them, in the place of all that the
//! object and its banks have ever served.
#![tactic(auto)]

pub use bank_laws::{newly_opened_is_reached, requests_lead_there, serving_reaches};
pub use laws::{
    heard_is_blank, letters_lead_back, letters_tell_start, new_is_blank, new_is_rebuildable,
    stays_rebuildable,
};
pub use leading::can_be_led_to;
pub use letters::letters_of;
pub use raising::raising_letter;
pub use requests::requests_of;

mod bank_laws;
mod laws;
mod leading;
mod letters;
mod raising;
mod requests;
