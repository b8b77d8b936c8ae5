//! What an operator should know.
ghost use Rattle.std.specs.Prelude.{Some};
ghost use Rattle.node_effects.specs.Report.{report_text};

use cluster_file::DIGEST_LENGTH;
use std::fmt;
use words::Hexadecimal;

/// Something that an operator should know: a node has another cluster file than this node, so that neither takes the
/// other's messages.
#[derive(Clone, Copy, Debug, PartialEq, Eq)]
pub struct Report {
    /// The number that the other node has.
    pub node: u8,
    /// The digest of the other node's cluster file.
    pub digest: [u8; DIGEST_LENGTH],
    /// The digest of this node's cluster file.
    pub own: [u8; DIGEST_LENGTH],
}

/// The text for standard error, without the end of a line.
impl fmt::Display for Report {
    ghost output = { λ report. Some (report_text report) };

    fn fmt<W: fmt::Write>(&self, f: &mut fmt::Formatter<W>) -> fmt::Result {
        write!(
            f,
            "node {} has another cluster file: the digest of that file is {}, \
            and that of this node's file is {}; its messages are dropped",
            self.node,
            Hexadecimal(&self.digest),
            Hexadecimal(&self.own)
        )
    }
}
