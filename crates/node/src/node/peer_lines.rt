//! The section of `INFO` on the cluster.
ghost use Rattle.std.specs.Prelude.{◌≡◌, ◌≤◌, ◌+◌, ◌++◌, OnOk, length};
ghost use Rattle.std.specs.List.{count_by};
ghost use Rattle.indexmap.specs.IndexMap.{index_map_len, values};
ghost use Rattle.node.specs.Info.{about_cluster, about_nodes, cluster_section, count_heard, heard_line, heard_lines};
ghost use Rattle.node.specs.Info.{is_move_open, section_if, silence_line, silence_line_of, silence_lines};
ghost use Rattle.node.specs.Ready.{is_ready};

use super::Node;
use super::sections::{ClusterLines, DropLines, KeptLines, LostLines, SilenceWord};
use crate::peers::Peers;
use cluster_file::ClusterFile;
use indexmap::IndexMap;
use node_clients::OpenCall;
use std::alloc::{AllocError, Global};
use tag::CallId;

impl Node {
    /// Appends the section on the cluster, if it is asked for.
    pub(super) fn push_cluster_section(
        &self,
        asked: bool,
        text: &mut Vec<u8>,
    ) -> Result<(), AllocError>
        ensures { OnOk result (text.new.items ≡ text.old.items ++ section_if asked
            (cluster_section self.now.keeper self.now.peers (index_map_len self.now.desk.calls)
            (count_by is_move_open (values self.now.desk.calls)) self.now.desk.counts)) }
    {
        if asked {
            self.push_cluster_texts(text)
        } else {
            Ok(())
        }
    }

    // Appends the section on the cluster.
    fn push_cluster_texts(&self, text: &mut Vec<u8>) -> Result<(), AllocError>
        ensures { OnOk result (text.new.items ≡ text.old.items
            ++ cluster_section self.now.keeper self.now.peers (index_map_len self.now.desk.calls)
            (count_by is_move_open (values self.now.desk.calls)) self.now.desk.counts) }
    {
        self.push_cluster_lines(text)?;
        self.push_nodes(self.keeper.file.nodes(), text)?;
        self.push_nodes(self.keeper.file.later(), text)?;
        text.extend_from_slice(b"\r\n")
    }

    // Appends what the section tells of all nodes together, and of open calls.
    fn push_cluster_lines(&self, text: &mut Vec<u8>) -> Result<(), AllocError>
        ensures { OnOk result (text.new.items ≡ text.old.items
            ++ about_cluster self.now.keeper self.now.peers (index_map_len self.now.desk.calls)
            (count_by is_move_open (values self.now.desk.calls)) self.now.desk.counts) }
    {
        let cluster = self.cluster_lines();
        let kept = KeptLines {
            banks: self.keeper.objects.open_banks(),
            tags: self.keeper.objects.known_tags(),
        };
        let lost = LostLines {
            counts: self.desk.counts,
            dropped: self.peers.frames_dropped(),
            foreign: self.peers.foreign,
        };
        let drops = DropLines {
            drops: self.peers.drops,
        };
        let lines = format!(in self.alloc; "{cluster}{kept}{lost}{drops}")?;
        text.extend_from_slice(lines.as_bytes())?;
        Ok(())
    }

    // What the section on the cluster tells of all nodes, and of open calls.
    fn cluster_lines(&self) -> ClusterLines
        ensures ready { result.is_ready ≡ is_ready self.now.keeper.file.fixed
            (count_heard self.now.keeper self.now.peers self.now.keeper.file.fixed.nodes) }
        ensures nodes { result.nodes
            ≡ length self.now.keeper.file.fixed.nodes + length self.now.keeper.file.later }
        ensures heard { result.heard ≡ count_heard self.now.keeper self.now.peers self.now.keeper.file.fixed.nodes
            + count_heard self.now.keeper self.now.peers self.now.keeper.file.later }
        ensures calls { result.calls ≡ index_map_len self.now.desk.calls }
        ensures moves { result.moves ≡ count_by is_move_open (values self.now.desk.calls) }
    {
        let nodes = self.keeper.file.nodes();
        let later = self.keeper.file.later();
        let heard = self.peers.count_heard(self.keeper.number(), nodes);
        ClusterLines {
            is_ready: is_ready(&self.keeper.file, heard),
            nodes: nodes.len() + later.len(),
            heard: heard + self.peers.count_heard(self.keeper.number(), later),
            calls: self.desk.calls.len(),
            moves: count_moves(&self.desk.calls),
        }
    }

    // Appends what the section tells of these nodes one by one.
    fn push_nodes(&self, nodes: &[u8], text: &mut Vec<u8>) -> Result<(), AllocError>
        ensures { OnOk result (text.new.items ≡ text.old.items
            ++ about_nodes self.now.keeper self.now.peers nodes.now) }
    {
        self.push_heard(nodes, text)?;
        self.push_silences(nodes, text)
    }

    // Appends for each of these nodes the line that says whether this node hears it.
    fn push_heard(&self, nodes: &[u8], text: &mut Vec<u8>) -> Result<(), AllocError>
        ensures { OnOk result (text.new.items ≡ text.old.items
            ++ heard_lines self.now.keeper.ids.node self.now.peers.heard nodes.now) }
    {
        push_heard(self.alloc, text, &self.peers, self.keeper.number(), nodes)
    }

    // Appends for each of these nodes, but not for this node itself, the line with the ticks since it was named.
    fn push_silences(&self, nodes: &[u8], text: &mut Vec<u8>) -> Result<(), AllocError>
        ensures { OnOk result (text.new.items ≡ text.old.items
            ++ silence_lines self.now.keeper.ids.node self.now.peers.silences nodes.now) }
    {
        push_silences(self.alloc, text, &self.peers, self.keeper.number(), nodes)
    }
}

// Whether each layout that a name has before any move has a quorum that is heard, if so many of the nodes are heard
// among which placement chooses.
fn is_ready(file: &ClusterFile, heard: usize) -> bool
    requires { heard ≤ length file.now.fixed.nodes }
    ensures { result ≡ is_ready file.now.fixed heard }
{
    let n = usize::from(file.n());
    let quorum = (n + usize::from(file.k()) + 1) / 2;
    file.nodes().len() + quorum <= heard + n
}

// How many of these calls are moves.
fn count_moves(calls: &IndexMap<CallId, OpenCall>) -> usize
    ensures { result ≡ count_by is_move_open (values calls.now) }
{
    calls.values().filter(|call| call.is_move).count()
}

// Appends for each of these nodes the line that says whether the node of this number hears it.
fn push_heard(
    alloc: Global,
    text: &mut Vec<u8>,
    peers: &Peers,
    number: u8,
    nodes: &[u8],
) -> Result<(), AllocError>
    ensures { OnOk result (text.new.items ≡ text.old.items ++ heard_lines number peers.now.heard nodes.now) }
{
    for i in 0..nodes.len() {
        push_heard_line(alloc, text, peers.hears(number, nodes[i]), nodes[i])?;
    }
    Ok(())
}

// Appends the line that says whether a node is heard.
fn push_heard_line(
    alloc: Global,
    text: &mut Vec<u8>,
    is_heard: bool,
    node: u8,
) -> Result<(), AllocError>
    ensures { OnOk result (text.new.items ≡ text.old.items ++ heard_line is_heard node) }
{
    let heard = if is_heard { 1u8 } else { 0 };
    let line = format!(in alloc; "cluster_node_{node}_heard:{heard}\r\n")?;
    text.extend_from_slice(line.as_bytes())
}

// Appends for each of these nodes, but not for that of this number, the line with the ticks since it was named.
fn push_silences(
    alloc: Global,
    text: &mut Vec<u8>,
    peers: &Peers,
    number: u8,
    nodes: &[u8],
) -> Result<(), AllocError>
    ensures { OnOk result (text.new.items ≡ text.old.items ++ silence_lines number peers.now.silences nodes.now) }
{
    for i in 0..nodes.len() {
        push_silence(alloc, text, peers, number, nodes[i])?;
    }
    Ok(())
}

// Appends the line with the ticks since a node was named, unless it is that of this number.
fn push_silence(
    alloc: Global,
    text: &mut Vec<u8>,
    peers: &Peers,
    number: u8,
    node: u8,
) -> Result<(), AllocError>
    ensures { OnOk result (text.new.items ≡ text.old.items ++ silence_line_of number peers.now.silences node) }
{
    if node == number {
        return Ok(());
    }
    push_silence_line(alloc, text, peers.silence(node), node)
}

// Appends the line with the ticks since a node was named.
fn push_silence_line(
    alloc: Global,
    text: &mut Vec<u8>,
    silence: Option<u32>,
    node: u8,
) -> Result<(), AllocError>
    ensures { OnOk result (text.new.items ≡ text.old.items ++ silence_line silence node) }
{
    let word = SilenceWord { ticks: silence };
    let line = format!(in alloc; "cluster_node_{node}_ticks_since_heard:{word}\r\n")?;
    text.extend_from_slice(line.as_bytes())
}
