//! A reader in memory.

use crate::calls::{AtEnd, Calls};
use std::io;
use std::io::{ErrorKind, Read};

/// A reader that gives a few bytes a call. A call of it that fails tells a fault.
#[derive(Drop)]
pub struct Source<'a> {
    /// What it has still to give.
    pub bytes: &'a [u8],
    /// How many bytes a call gives at most.
    pub most: usize,
    pub calls: Calls,
    /// What it does once it has given all.
    pub at_end: AtEnd,
}

impl<'a> Source<'a> {
    /// One that gives all its bytes, as many at a time as are asked for, and then none.
    pub fn whole(bytes: &'a [u8]) -> Source<'a> {
        Source::in_pieces(bytes, usize::MAX)
    }

    /// One that gives all its bytes, so many at a time, and then none.
    pub fn in_pieces(bytes: &'a [u8], most: usize) -> Source<'a> {
        Source {
            bytes,
            most,
            calls: Calls::all_pass(),
            at_end: AtEnd::NoBytes,
        }
    }
}

impl<'a> Read for Source<'a> {
    fn read(&mut self, buf: &mut [u8]) -> io::Result<usize> {
        if !self.calls.passes() {
            return Err(io::Error::from(ErrorKind::ConnectionReset));
        }
        let count = self.most.min(self.bytes.len()).min(buf.len());
        if count == 0 {
            self.at_end.tell(ErrorKind::ConnectionReset)?;
            return Ok(0);
        }
        let (given, rest) = self.bytes.split_at(count);
        buf[..count].copy_from_slice(given);
        self.bytes = rest;
        Ok(count)
    }
}
