//! The lines of `INFO`.
ghost use Rattle.std.specs.Prelude.{◌≡◌, Some};
ghost use Rattle.node.specs.Info.{cluster_lines, count_lines, drop_lines, kept_lines, lost_lines, name_lines};
ghost use Rattle.node.specs.Info.{other_lines, silence_word, size_lines, state_word};

use crate::drops::Drops;
use node_clients::Counts;
use std::fmt;
use words::Hexadecimal;

/// The lines on the whole cluster: whether it can serve, how many nodes it has and how many are heard, and what is
/// open.
#[derive(Clone, Copy)]
pub(super) struct ClusterLines {
    pub is_ready: bool,
    pub nodes: usize,
    pub heard: usize,
    pub calls: usize,
    pub moves: usize,
}

impl fmt::Display for ClusterLines {
    ghost output = { λ it. Some (cluster_lines it.is_ready it.nodes it.heard it.calls it.moves) };

    fn fmt<W: fmt::Write>(&self, f: &mut fmt::Formatter<W>) -> fmt::Result {
        write!(
            f,
            "# Cluster\r\ncluster_enabled:0\r\ncluster_state:{}\r\ncluster_known_nodes:{}\r\n\
            cluster_nodes_heard:{}\r\ncluster_calls_open:{}\r\ncluster_moves_open:{}\r\n",
            state_word(self.is_ready),
            self.nodes,
            self.heard,
            self.calls,
            self.moves
        )
    }
}

// How Redis says whether a cluster can serve.
fn state_word(is_ready: bool) -> &'static str
    ensures { result.now ≡ state_word is_ready }
{
    if is_ready { "ok" } else { "fail" }
}

/// The lines of the section on the cluster with how many banks the node keeps, and how many tags these know.
#[derive(Clone, Copy)]
pub(super) struct KeptLines {
    pub banks: u64,
    pub tags: u64,
}

impl fmt::Display for KeptLines {
    ghost output = { λ it. Some (kept_lines it.banks it.tags) };

    fn fmt<W: fmt::Write>(&self, f: &mut fmt::Formatter<W>) -> fmt::Result {
        write!(
            f,
            "cluster_open_banks:{}\r\ncluster_tags:{}\r\n",
            self.banks, self.tags
        )
    }
}

/// The lines of that section with what was given up and dropped.
#[derive(Clone, Copy)]
pub(super) struct LostLines {
    pub counts: Counts,
    pub dropped: u64,
    pub foreign: u64,
}

impl fmt::Display for LostLines {
    ghost output = { λ it. Some (lost_lines it.counts it.dropped it.foreign) };

    fn fmt<W: fmt::Write>(&self, f: &mut fmt::Formatter<W>) -> fmt::Result {
        write!(
            f,
            "cluster_calls_given_up:{}\r\ncluster_frames_dropped:{}\r\ncluster_frames_of_other_clusters:{}\r\n",
            self.counts.given_up, self.dropped, self.foreign
        )
    }
}

/// The lines of that section with the frames that were dropped for each other cause.
#[derive(Clone, Copy)]
pub(super) struct DropLines {
    pub drops: Drops,
}

impl fmt::Display for DropLines {
    ghost output = { λ it. Some (drop_lines it.drops) };

    fn fmt<W: fmt::Write>(&self, f: &mut fmt::Formatter<W>) -> fmt::Result {
        write!(
            f,
            "cluster_frames_malformed:{}\r\ncluster_frames_unreadable:{}\r\ncluster_frames_not_admitted:{}\r\n\
            cluster_frames_not_heeded:{}\r\n",
            self.drops.malformed,
            self.drops.unreadable,
            self.drops.not_admitted,
            self.drops.not_heeded
        )
    }
}

/// The ticks since a node was named: a number, or `never`.
#[derive(Clone, Copy)]
pub(super) struct SilenceWord {
    pub ticks: Option<u32>,
}

impl fmt::Display for SilenceWord {
    ghost output = { λ it. Some (silence_word it.ticks) };

    fn fmt<W: fmt::Write>(&self, f: &mut fmt::Formatter<W>) -> fmt::Result {
        match self.ticks {
            Some(ticks) => write!(f, "{ticks}"),
            None => f.write_str("never"),
        }
    }
}

/// The head of the section of the node's own lines, and the lines that name the program, the node, the node that moves
/// objects, the cluster and the epoch.
#[derive(Clone, Copy)]
pub(super) struct NameLines<'a> {
    pub node: u8,
    pub mover: u8,
    pub digest: &'a [u8],
    pub epoch: u32,
}

impl fmt::Display for NameLines<'_> {
    ghost output = { λ it. Some (name_lines it.node it.mover it.digest.now it.epoch) };

    fn fmt<W: fmt::Write>(&self, f: &mut fmt::Formatter<W>) -> fmt::Result {
        write!(
            f,
            "# Node\r\nprogram:casd\r\nnode:{}\r\nmover:{}\r\ncluster:{}\r\nepoch:{}\r\n",
            self.node,
            self.mover,
            Hexadecimal(self.digest),
            self.epoch
        )
    }
}

/// The lines with the numbers of objects, bytes, closed banks, connections and open calls.
#[derive(Clone, Copy)]
pub(super) struct SizeLines {
    pub objects: usize,
    pub bytes: u64,
    pub closed: u64,
    pub clients: usize,
    pub calls: usize,
}

impl fmt::Display for SizeLines {
    ghost output = { λ it. Some (size_lines it.objects it.bytes it.closed it.clients it.calls) };

    fn fmt<W: fmt::Write>(&self, f: &mut fmt::Formatter<W>) -> fmt::Result {
        write!(
            f,
            "objects:{}\r\nbytes_stored:{}\r\nclosed_banks:{}\r\nclients:{}\r\ncalls_open:{}\r\n",
            self.objects, self.bytes, self.closed, self.clients, self.calls
        )
    }
}

/// The lines with how many commands were answered, calls were given up, and frames were dropped.
#[derive(Clone, Copy)]
pub(super) struct CountLines {
    pub counts: Counts,
    pub dropped: u64,
}

impl fmt::Display for CountLines {
    ghost output = { λ it. Some (count_lines it.counts it.dropped) };

    fn fmt<W: fmt::Write>(&self, f: &mut fmt::Formatter<W>) -> fmt::Result {
        write!(
            f,
            "commands_answered:{}\r\ncalls_given_up:{}\r\nframes_dropped:{}\r\n",
            self.counts.answered, self.counts.given_up, self.dropped
        )
    }
}

/// The lines with the messages of nodes with another cluster file, the requests that were declined, and the log.
#[derive(Clone, Copy)]
pub(super) struct OtherLines {
    pub foreign: u64,
    pub declined: u64,
    pub log_bytes: u64,
}

impl fmt::Display for OtherLines {
    ghost output = { λ it. Some (other_lines it.foreign it.declined it.log_bytes) };

    fn fmt<W: fmt::Write>(&self, f: &mut fmt::Formatter<W>) -> fmt::Result {
        write!(
            f,
            "frames_of_other_clusters:{}\r\nfetches_declined:{}\r\nbytes_of_the_log:{}\r\n",
            self.foreign, self.declined, self.log_bytes
        )
    }
}
