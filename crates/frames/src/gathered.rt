//! Bytes that wait to be written.
ghost use Rattle.std.specs.Prelude.{◌≡◌, ◌==◌, ◌+◌, ◌++◌, [], OnOk, IfOk, length};
ghost use Rattle.std.specs.List.{concat};

use crate::limits::SHARED_FROM;
use crate::output::write_bytes;
use bytes::Bytes;
use std::alloc::{AllocFailed, Global};
use std::io::{ErrorKind, Write};
use std::marker::Model;
use std::{io, mem};

/// Bytes that wait to be written, in parts. A long string is a part that is shared with whoever else has the string, so
/// it is not copied before it is written. The bytes between such strings are parts of their own.
///
/// It is a writer too, which copies what is written to it behind the bytes that it has.
#[derive(Drop)]
pub struct Gathered {
    alloc: Global,
    parts: Vec<Bytes>,
    // The bytes behind the parts.
    last: Vec<u8>,
    // How many bytes there are in all.
    len: usize,
}

impl Model for Gathered {
    ghost use Rattle.std.specs.Prelude.{◌≡◌, ◌++◌, ℕ, List, length};
    ghost use Rattle.std.specs.List.{concat};

    ghost Value = { List ℕ };

    ghost view = { λ gathered. concat gathered.parts.items ++ gathered.last.items };

    ghost invariant = { λ gathered. gathered.len ≡ length (concat gathered.parts.items ++ gathered.last.items) };
}

impl Gathered {
    /// No bytes.
    pub fn new(alloc: Global) -> Gathered
        ensures { result ≡ [] }
    {
        Gathered {
            alloc,
            parts: Vec::new(alloc),
            last: Vec::new(alloc),
            len: 0,
        }
    }

    /// How many bytes there are.
    pub fn len(&self) -> usize
        ensures { result ≡ length self.now }
    {
        self.len
    }

    /// Returns whether there are no bytes.
    pub fn is_empty(&self) -> bool
        ensures { result ≡ (length self.now == 0) }
    {
        self.len == 0
    }

    /// Drops all bytes. It keeps the memory of those behind the last part for others.
    pub fn clear(&mut self)
        ensures { self.new ≡ [] }
    {
        self.parts.clear();
        self.last.clear();
        self.len = 0;
    }

    /// The bytes are those of these parts, one after another, and those behind them.
    pub fn parts(&self) -> (&[Bytes], &[u8])
        ensures { self.now ≡ concat result.0.now ++ result.1.now }
    {
        (self.parts.as_slice(), self.last.as_slice())
    }

    /// Adds the bytes of a string. A string of `SHARED_FROM` bytes or more is shared, and a shorter one is copied.
    /// Fails only if memory is refused, or if there were more than 2^64 - 1 bytes.
    pub fn push_string(&mut self, string: &Bytes) -> io::Result<()>
        ensures { OnOk result (self.new ≡ self.old ++ string.now) }
    {
        if string.len() < SHARED_FROM {
            write_bytes(self, string)
        } else {
            self.share(string)
        }
    }

    fn share(&mut self, string: &Bytes) -> io::Result<()>
        ensures { OnOk result (self.new ≡ self.old ++ string.now) }
    {
        let len = self.len_with(string.len())?;
        let string = string.clone()?;
        close(self.alloc, &mut self.parts, &mut self.last)?;
        self.parts.push(string)?;
        self.len = len;
        Ok(())
    }

    // How many bytes there are with so many more.
    fn len_with(&self, more: usize) -> io::Result<usize>
        ensures { IfOk result (λ len. len ≡ length self.now + more) }
    {
        match self.len.checked_add(more) {
            Some(len) => Ok(len),
            None => Err(io::Error::from(ErrorKind::OutOfMemory)),
        }
    }
}

// Makes the bytes behind the parts the last part. If memory is refused for that, all stays as it is.
fn close(alloc: Global, parts: &mut Vec<Bytes>, last: &mut Vec<u8>) -> io::Result<()>
    ensures same { concat parts.new.items ++ last.new.items ≡ concat parts.old.items ++ last.old.items }
    ensures empty { OnOk result (last.new.items ≡ []) }
{
    if last.is_empty() {
        return Ok(());
    }
    parts.reserve(1)?;
    match Bytes::from_vec(mem::replace(last, Vec::new(alloc))) {
        Ok(part) => {
            parts.push_reserved(part);
            Ok(())
        }
        Err(AllocFailed { value }) => {
            *last = value;
            Err(io::Error::from(ErrorKind::OutOfMemory))
        }
    }
}

impl Write for Gathered {
    ghost use Rattle.std.specs.Prelude.{Some};

    ghost contents = { λ gathered. Some gathered };

    fn write(&mut self, buf: &[u8]) -> io::Result<usize> {
        let len = self.len_with(buf.len())?;
        self.last.extend_from_slice(buf)?;
        self.len = len;
        Ok(buf.len())
    }

    fn flush(&mut self) -> io::Result<()> {
        Ok(())
    }
}
