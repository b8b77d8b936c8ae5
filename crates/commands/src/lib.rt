//! The command line of the program `cas`: which request its words spell.
#![tactic(auto)]

pub use arguments::parse_request;
pub use request::Request;

mod arguments;
mod request;
