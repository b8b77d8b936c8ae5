//! What a node tells about itself.
ghost use Rattle.std.specs.Prelude.{◌≡◌, ◌++◌, IfErr, IfOk, OnOk, length};
ghost use Rattle.std.specs.List.{count_by, flat_map};
ghost use Rattle.indexmap.specs.IndexMap.{index_map_len, values};
ghost use Rattle.node_effects.specs.declared.error.NodeError.TheVariants.{NoMemory};
ghost use Rattle.node_keeper.specs.Written.{written_names};
ghost use Rattle.node.specs.Info.{about_node, clients_section, file_lines, info_lines, is_move_open};
ghost use Rattle.node.specs.Info.{keyspace_section, memory_section, node_section, redis_sections, section_if};
ghost use Rattle.node.specs.Info.{stored_bytes};
ghost use Rattle.node.specs.Shown.{node_word};

use super::Node;
use super::layouts::push_node;
use super::redis::{
    push_clients, push_memory, push_names, push_persistence, push_replication, push_server,
    push_stats,
};
use super::sections::{CountLines, NameLines, OtherLines, SizeLines};
use bytes::Bytes;
use client_commands::Sections;
use cluster_file::ClusterFile;
use node_effects::NodeError;
use std::alloc::{AllocError, Global};

impl Node {
    /// Returns the text of `INFO` for these sections, each with lines of a key and a value.
    pub(super) fn info(&self, asked: Sections) -> Result<Bytes, NodeError>
        ensures text { IfOk result (λ text. text ≡ info_lines asked self.now.keeper self.now.peers
            (index_map_len self.now.desk.clients.by_number) (index_map_len self.now.desk.calls)
            (count_by is_move_open (values self.now.desk.calls)) self.now.desk.counts) }
        ensures refused { IfErr result (λ e. e ≡ NoMemory) }
    {
        let mut text = Vec::new(self.alloc);
        self.push_redis(asked, &mut text)?;
        self.push_cluster_section(asked.cluster, &mut text)?;
        self.push_keyspace(asked.keyspace, &mut text)?;
        self.push_own(asked.node, &mut text)?;
        Ok(Bytes::from_vec(text)?)
    }

    // Appends those sections that Redis has on a single server, as far as they are asked for.
    fn push_redis(&self, asked: Sections, text: &mut Vec<u8>) -> Result<(), AllocError>
        ensures { OnOk result (text.new.items ≡ text.old.items ++ redis_sections asked
            (index_map_len self.now.desk.clients.by_number) (stored_bytes self.now.keeper)
            self.now.desk.counts) }
    {
        push_server(asked.server, text)?;
        self.push_clients(asked.clients, text)?;
        self.push_memory(asked.memory, text)?;
        push_persistence(
            self.alloc,
            asked.persistence,
            self.desk.counts.log_bytes,
            text,
        )?;
        push_stats(self.alloc, asked.stats, self.desk.counts.answered, text)?;
        push_replication(asked.replication, text)
    }

    // Appends the section on the connections, if it is asked for.
    fn push_clients(&self, asked: bool, text: &mut Vec<u8>) -> Result<(), AllocError>
        ensures { OnOk result (text.new.items ≡ text.old.items ++ section_if asked
            (clients_section (index_map_len self.now.desk.clients.by_number))) }
    {
        push_clients(self.alloc, asked, self.desk.clients.count(), text)
    }

    // Appends the section on the memory, if it is asked for.
    fn push_memory(&self, asked: bool, text: &mut Vec<u8>) -> Result<(), AllocError>
        ensures { OnOk result (text.new.items ≡ text.old.items
            ++ section_if asked (memory_section (stored_bytes self.now.keeper))) }
    {
        if !asked {
            return Ok(());
        }
        push_memory(self.alloc, self.keeper.objects.bytes_stored(), text)
    }

    // Appends the section on the database, if it is asked for.
    fn push_keyspace(&self, asked: bool, text: &mut Vec<u8>) -> Result<(), AllocError>
        ensures { OnOk result (text.new.items ≡ text.old.items
            ++ section_if asked (keyspace_section (length (written_names self.now.keeper.objects)))) }
    {
        if !asked {
            return Ok(());
        }
        push_names(self.alloc, self.keeper.objects.count_written(), text)
    }

    // Appends the section with the node's own lines, if it is asked for.
    fn push_own(&self, asked: bool, text: &mut Vec<u8>) -> Result<(), AllocError>
        ensures { OnOk result (text.new.items ≡ text.old.items ++ section_if asked
            (node_section self.now.keeper self.now.peers (index_map_len self.now.desk.clients.by_number)
            (index_map_len self.now.desk.calls) self.now.desk.counts)) }
    {
        if !asked {
            return Ok(());
        }
        self.push_own_lines(text)?;
        push_file(self.alloc, text, &self.keeper.file)
    }

    // Appends the node's own lines up to those with the nodes of the cluster file.
    fn push_own_lines(&self, text: &mut Vec<u8>) -> Result<(), AllocError>
        ensures { OnOk result (text.new.items ≡ text.old.items
            ++ about_node self.now.keeper self.now.peers (index_map_len self.now.desk.clients.by_number)
            (index_map_len self.now.desk.calls) self.now.desk.counts) }
    {
        let name = NameLines {
            node: self.keeper.number(),
            mover: self.keeper.file.mover(),
            digest: &self.keeper.digest,
            epoch: self.keeper.ids.epoch(),
        };
        let sizes = SizeLines {
            objects: self.keeper.objects.count(),
            bytes: self.keeper.objects.bytes_stored(),
            closed: self.keeper.objects.closed_banks(),
            clients: self.desk.clients.count(),
            calls: self.desk.calls.len(),
        };
        let counts = CountLines {
            counts: self.desk.counts,
            dropped: self.peers.frames_dropped(),
        };
        let others = OtherLines {
            foreign: self.peers.foreign,
            declined: self.peers.declined,
            log_bytes: self.desk.counts.log_bytes,
        };
        let own = format!(in self.alloc; "{name}{sizes}{counts}{others}")?;
        text.extend_from_slice(own.as_bytes())?;
        Ok(())
    }
}

// Appends the lines with the nodes of the cluster file, and an empty line.
fn push_file(alloc: Global, text: &mut Vec<u8>, file: &ClusterFile) -> Result<(), AllocError>
    ensures { OnOk result (text.new.items ≡ text.old.items
        ++ file_lines file.now.fixed.nodes file.now.later) }
{
    text.extend_from_slice(b"nodes:")?;
    push_numbers(alloc, text, file.nodes())?;
    text.extend_from_slice(b"\r\nlater:")?;
    push_numbers(alloc, text, file.later())?;
    text.extend_from_slice(b"\r\n\r\n")
}

// Appends the numbers of these nodes, each behind a space.
fn push_numbers(alloc: Global, text: &mut Vec<u8>, nodes: &[u8]) -> Result<(), AllocError>
    ensures { OnOk result (text.new.items ≡ text.old.items ++ flat_map node_word nodes.now) }
{
    for i in 0..nodes.len() {
        push_node(alloc, text, nodes[i])?;
    }
    Ok(())
}
