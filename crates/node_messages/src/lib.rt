//! Messages between nodes, to frames and back.
#![tactic(auto)]

pub use error::{Fault, MessageError};
pub use laws::{messages_are_read_back, short_pieces_have_frames};
pub use limits::{MOST_TAG_NUMBER, has_low_tags};
pub use message::NodeMessage;
pub use places::FORM;
pub use reading::read_message;
pub use writing::frame_of;

mod answers;
mod besides;
mod bodies;
mod checks;
mod codes;
mod error;
mod fields;
mod head;
mod laws;
mod layouts;
mod limits;
mod message;
mod places;
mod reading;
mod said;
mod said_besides;
mod writing;
