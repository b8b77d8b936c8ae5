use cluster_file::DIGEST_LENGTH;
use letter::NamedLetter;

/// A message from one node to another: a letter about one object, whose name has at most `LONGEST_NAME` bytes, and what
/// the sender's cluster file is. The step number in a reply is that of the node that answers.
#[derive(Debug, Drop)]
pub struct NodeMessage {
    /// The digest of the cluster file that the sender uses.
    pub digest: [u8; DIGEST_LENGTH],
    /// The letter, with the name of its object.
    pub named: NamedLetter,
}
