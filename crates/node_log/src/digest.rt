//! The digest of bytes.
ghost use Rattle.std.specs.Prelude.{◌≡◌};
ghost use Rattle.node_log.specs.Entry.{digest_of};

use crate::checksum;

/// The CRC-32C of bytes, high byte first.
pub(crate) fn digest_of(bytes: &[u8]) -> [u8; 4]
    ensures { result ≡ digest_of bytes.now }
{
    checksum(bytes).to_be_bytes()
}
