//! Bytes that are given, as a reader.
ghost use Rattle.std.specs.Prelude.{◌≡◌};

use std::io;
use std::io::Read;

/// A reader of bytes that lie in memory.
#[derive(Drop)]
pub struct GivenBytes<'a> {
    rest: &'a [u8],
}

impl<'a> GivenBytes<'a> {
    /// A reader of these bytes.
    pub fn new(bytes: &'a [u8]) -> GivenBytes<'a>
        ensures { result.rest.now ≡ bytes.now }
    {
        GivenBytes { rest: bytes }
    }

    /// The bytes that were not read yet.
    pub fn rest(&self) -> &'a [u8]
        ensures { result.now ≡ self.now.rest.now }
    {
        self.rest
    }
}

impl<'a> Read for GivenBytes<'a> {
    ghost use Rattle.std.specs.Prelude.{Some};

    ghost remaining = { λ given. Some given.rest.now };

    fn read(&mut self, buf: &mut [u8]) -> io::Result<usize> {
        let count = buf.len().min(self.rest.len());
        let (front, back) = self.rest.split_at(count);
        buf[..count].copy_from_slice(front);
        self.rest = back;
        Ok(count)
    }
}
