//! All objects of a store by name, the layouts that they may have, and the servers. Each step changes one object or the
//! cluster itself, and raises one counter by one.
#![tactic(auto)]

pub use cluster::{Accounts, Cluster, LayoutId};
pub use mail::Took;
pub use record::{Entry, Want};
pub use register::Receipt;
pub use tag::CallId;

mod cluster;
mod loads;
mod servers;
