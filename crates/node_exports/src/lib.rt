//! A node as a library for programs in C. A call answers 0, or the number of a refusal. It does no input and no output:
//! it says which tasks the program has to carry out.
#![tactic(auto)]

pub use handling::casnode_handle;
pub use lives::{casnode_close, casnode_open};
pub use log::{casnode_keep_log, casnode_log_length, casnode_rewrite, casnode_should_rewrite};
pub use tasks::{casnode_bytes, casnode_task};
pub use text::casnode_text;

mod answer;
mod handling;
mod lives;
mod log;
mod tasks;
mod text;
