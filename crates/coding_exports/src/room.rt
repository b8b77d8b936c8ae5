ghost use Rattle.std.specs.Prelude.{◌≡◌};
ghost use Rattle.coding_exports.specs.Answer.{written};

/// Writes the bytes to `room` if it has their length.
pub(crate) fn write(bytes: &[u8], room: &mut [u8])
    ensures { room.new ≡ written bytes.now room.old }
{
    if room.len() == bytes.len() {
        room.copy_from_slice(bytes);
    }
}
