/// The id of a call. In a cluster of one process it is the number of the call in its object, from 1. In a cluster of
/// nodes, the node that makes the call gives it an id of 64 bits.
pub type CallId = u64;
