//! A reader and a writer of one byte at a time.
use std::alloc::Global;
use std::io;
use std::io::{ErrorKind, Read, Write};

/// A reader and a writer of one byte at a time. A signal interrupts it before each byte, and it fails once its calls
/// are used up.
#[derive(Drop)]
pub(crate) struct Slow<'a> {
    pub(crate) rest: &'a [u8],
    pub(crate) written: Vec<u8>,
    calls: usize,
    is_interrupted: bool,
}

impl Slow<'_> {
    pub(crate) fn new(alloc: Global, rest: &[u8], calls: usize) -> Slow<'_> {
        Slow {
            rest,
            written: Vec::new(alloc),
            calls,
            is_interrupted: false,
        }
    }

    fn call(&mut self) -> io::Result<()> {
        self.is_interrupted = !self.is_interrupted;
        if self.is_interrupted {
            return Err(io::Error::from(ErrorKind::Interrupted));
        }
        if self.calls == 0 {
            return Err(io::Error::from(ErrorKind::ConnectionReset));
        }
        self.calls -= 1;
        Ok(())
    }
}

impl Read for Slow<'_> {
    fn read(&mut self, buf: &mut [u8]) -> io::Result<usize> {
        self.call()?;
        match (self.rest.split_first(), buf.first_mut()) {
            (Some((first, rest)), Some(room)) => {
                *room = *first;
                self.rest = rest;
                Ok(1)
            }
            _ => Ok(0),
        }
    }
}

impl Write for Slow<'_> {
    fn write(&mut self, buf: &[u8]) -> io::Result<usize> {
        self.call()?;
        let Some(first) = buf.first() else {
            return Ok(0);
        };
        self.written.push(*first)?;
        Ok(1)
    }

    fn flush(&mut self) -> io::Result<()> {
        Ok(())
    }
}
