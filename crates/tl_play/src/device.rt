//! A reader and a writer of one byte a call, which fail if they are set to.

use std::alloc::Global;
use std::io::{self, Read, Write};

/// Gives one byte a call, and then an error if it is set to fail.
#[derive(Drop)]
pub struct Slow<'a> {
    rest: &'a [u8],
    fails: bool,
}

impl<'a> Slow<'a> {
    /// A reader of these bytes.
    pub fn new(rest: &'a [u8], fails: bool) -> Self {
        Slow { rest, fails }
    }
}

impl Read for Slow<'_> {
    fn read(&mut self, buf: &mut [u8]) -> io::Result<usize> {
        match self.rest {
            [first, rest @ ..] if !buf.is_empty() => {
                buf[0] = *first;
                self.rest = rest;
                Ok(1)
            }
            _ if self.fails => Err(io::Error::from(io::ErrorKind::Other)),
            _ => Ok(0),
        }
    }
}

/// Takes one byte a call while there is room, and then none, or fails.
#[derive(Drop)]
pub struct Narrow {
    /// The bytes that were taken.
    pub taken: Vec<u8>,
    room: usize,
    fails: bool,
}

impl Narrow {
    /// A writer that has taken nothing.
    pub fn new(alloc: Global, room: usize, fails: bool) -> Self {
        Narrow {
            taken: Vec::new(alloc),
            room,
            fails,
        }
    }
}

impl Write for Narrow {
    fn write(&mut self, buf: &[u8]) -> io::Result<usize> {
        match buf.first() {
            Some(byte) if self.taken.len() < self.room => match self.taken.push(*byte) {
                Ok(()) => Ok(1),
                Err(_) => Err(io::Error::from(io::ErrorKind::OutOfMemory)),
            },
            _ if self.fails => Err(io::Error::from(io::ErrorKind::Other)),
            _ => Ok(0),
        }
    }

    fn flush(&mut self) -> io::Result<()> {
        Ok(())
    }
}
