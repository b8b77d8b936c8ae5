//! What a head says of a frame, taken from the frame's strings as they lie.
ghost use Rattle.std.specs.Prelude.{◌≡◌, length};
ghost use Rattle.std.specs.Fmt.{decimal};
ghost use Rattle.std.specs.List.{flat_map};
ghost use Rattle.frames.specs.Frame.{frame_bytes, header, line_end, string_bytes};
ghost use Rattle.node_log.specs.Crc32c.{all_bits};
ghost use Rattle.node_log.specs.Entry.{described};
ghost use Rattle.node_log.specs.Tally.{Takes, digest_at};

use crate::head::{SAYS_LENGTH, described};
use crate::states::after_bytes;
use bytes::Bytes;
use frames::Frame;
use itoa::Buffer;

/// What a head says of a frame. No byte of the frame is copied for it, but for its numbers.
pub(crate) fn says_of(frame: &Frame) -> [u8; SAYS_LENGTH]
    ensures { result ≡ described (frame_bytes frame.now) }
{
    let strings = frame.strings();
    let mut tally = Tally::new();
    tally.take_header(b'*', strings.len());
    tally.take_strings(strings);
    described(tally.count, tally.digest())
}

/// Bytes that were taken, one after another: how many, modulo 2^64, and the state of the checksum behind them.
#[derive(Clone, Copy)]
pub(crate) struct Tally {
    /// How many bytes.
    pub count: u64,
    /// The state of the CRC-32C.
    pub state: u32,
}

impl Tally {
    fn new() -> Tally
        ensures count { result.count ≡ 0 }
        ensures state { result.state ≡ all_bits }
    {
        Tally {
            count: 0,
            state: u32::MAX,
        }
    }

    fn take_strings(&mut self, strings: &[Bytes])
        ensures { Takes self.old self.new (flat_map string_bytes strings.now) }
    {
        for string in strings {
            self.take_string(string);
        }
    }

    fn take_string(&mut self, string: &[u8])
        ensures { Takes self.old self.new (string_bytes string.now) }
    {
        self.take_header(b'$', string.len());
        self.take(string);
        self.take_line_end();
    }

    fn take_header(&mut self, mark: u8, number: usize)
        ensures { Takes self.old self.new (header mark number) }
    {
        self.take(&[mark]);
        self.take_number(number);
        self.take_line_end();
    }

    fn take_number(&mut self, number: usize)
        ensures { Takes self.old self.new (decimal number) }
    {
        let mut buffer = Buffer::new();
        self.take(buffer.format(number).as_bytes());
    }

    fn take_line_end(&mut self)
        ensures { Takes self.old self.new line_end }
    {
        self.take(b"\r\n");
    }

    fn take(&mut self, bytes: &[u8])
        ensures { Takes self.old self.new bytes.now }
    {
        self.count = self.count.wrapping_add(bytes.len() as u64);
        self.state = after_bytes(self.state, bytes);
    }

    // The digest of the bytes, high byte first.
    fn digest(self) -> [u8; 4]
        ensures { result ≡ digest_at self.state }
    {
        (self.state ^ u32::MAX).to_be_bytes()
    }
}
