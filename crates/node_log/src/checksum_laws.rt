//! What the check notices.
ghost use Rattle.node_log.specs.Crc32c.{ChangesAreNoticed};

/// A law: bytes of which one is another have another CRC-32C.
pub fn changed_bytes_are_noticed()
    ensures { ChangesAreNoticed }
{}
