//! What happened to an object, for other programs: its history as the EDN maps of Jepsen and Knossos and as lines of
//! JSON, and a picture as SVG.
//!
//! A picture shows the object's calls with their phases, its servers, and the messages between them. Time goes in steps
//! from left to right.
#![tactic(auto)]

pub use edn_lines::EdnLines;
pub use event::{Event, Process, Stage, events};
pub use json_lines::JsonLines;
pub use lane::Lane;
pub use loss::Loss;
pub use object_view::ObjectView;
pub use picture::Picture;
pub use plan::Plan;

mod call_lanes;
mod clients;
mod drops;
mod edn_lines;
mod event;
mod frame;
mod json_lines;
mod lane;
mod legend;
mod loss;
mod messages;
mod object_view;
mod omitted;
mod phases;
mod picture;
mod place;
mod plan;
mod px;
mod retired;
mod server_lanes;
mod tag_marks;
mod text;
mod value;
