//! The sections of `INFO` that Redis has on a single server, each of which ends with an empty line.
ghost use Rattle.std.specs.Prelude.{◌≡◌, ◌++◌, OnOk};
ghost use Rattle.node.specs.Info.{clients_section, keyspace_section, memory_section, persistence_section};
ghost use Rattle.node.specs.Info.{replication_section, section_if, server_section, stats_section};

use std::alloc::{AllocError, Global};

/// Appends the section on the program, if it is asked for.
pub(super) fn push_server(asked: bool, text: &mut Vec<u8>) -> Result<(), AllocError>
    ensures { OnOk result (text.new.items ≡ text.old.items ++ section_if asked server_section) }
{
    if !asked {
        return Ok(());
    }
    text.extend_from_slice(b"# Server\r\nredis_version:1.0.0\r\nredis_mode:standalone\r\n\r\n")
}

/// Appends the section on so many connections, if it is asked for.
pub(super) fn push_clients(
    alloc: Global,
    asked: bool,
    clients: usize,
    text: &mut Vec<u8>,
) -> Result<(), AllocError>
    ensures { OnOk result (text.new.items ≡ text.old.items ++ section_if asked (clients_section clients)) }
{
    if !asked {
        return Ok(());
    }
    let lines = format!(in alloc; "# Clients\r\nconnected_clients:{clients}\r\n\r\n")?;
    text.extend_from_slice(lines.as_bytes())
}

/// Appends the section on so many bytes of fragments.
pub(super) fn push_memory(alloc: Global, bytes: u64, text: &mut Vec<u8>) -> Result<(), AllocError>
    ensures { OnOk result (text.new.items ≡ text.old.items ++ memory_section bytes) }
{
    let lines = format!(in alloc; "# Memory\r\nused_memory_dataset:{bytes}\r\n\r\n")?;
    text.extend_from_slice(lines.as_bytes())
}

/// Appends the section on a log of so many bytes, if it is asked for.
pub(super) fn push_persistence(
    alloc: Global,
    asked: bool,
    log_bytes: u64,
    text: &mut Vec<u8>,
) -> Result<(), AllocError>
    ensures { OnOk result (text.new.items ≡ text.old.items ++ section_if asked (persistence_section log_bytes)) }
{
    if !asked {
        return Ok(());
    }
    let lines = format!(in alloc;
        "# Persistence\r\nloading:0\r\naof_enabled:1\r\naof_current_size:{log_bytes}\r\n\r\n"
    )?;
    text.extend_from_slice(lines.as_bytes())
}

/// Appends the section on so many commands that were answered, if it is asked for.
pub(super) fn push_stats(
    alloc: Global,
    asked: bool,
    answered: u64,
    text: &mut Vec<u8>,
) -> Result<(), AllocError>
    ensures { OnOk result (text.new.items ≡ text.old.items ++ section_if asked (stats_section answered)) }
{
    if !asked {
        return Ok(());
    }
    let lines = format!(in alloc; "# Stats\r\ntotal_commands_processed:{answered}\r\n\r\n")?;
    text.extend_from_slice(lines.as_bytes())
}

/// Appends the section by which Redis clients know that they can write, if it is asked for.
pub(super) fn push_replication(asked: bool, text: &mut Vec<u8>) -> Result<(), AllocError>
    ensures { OnOk result (text.new.items ≡ text.old.items ++ section_if asked replication_section) }
{
    if !asked {
        return Ok(());
    }
    text.extend_from_slice(b"# Replication\r\nrole:master\r\nconnected_slaves:0\r\n\r\n")
}

/// Appends the section on the only database, which has so many names.
pub(super) fn push_names(alloc: Global, names: u64, text: &mut Vec<u8>) -> Result<(), AllocError>
    ensures { OnOk result (text.new.items ≡ text.old.items ++ keyspace_section names) }
{
    let lines = format!(in alloc; "# Keyspace\r\ndb0:keys={names},expires=0,avg_ttl=0\r\n\r\n")?;
    text.extend_from_slice(lines.as_bytes())
}
