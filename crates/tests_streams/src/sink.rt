//! A writer in memory.

use crate::calls::{AtEnd, Calls};
use std::io;
use std::io::{ErrorKind, Write};

/// A writer that takes a few bytes a call, and lets go what it took where it is flushed. A call is a write or a flush.
#[derive(Drop)]
pub struct Sink {
    /// What it took.
    pub bytes: Vec<u8>,
    /// How many bytes a call takes at most, and how many it has still room for.
    pub most: usize,
    pub room: usize,
    pub calls: Calls,
    /// What it does in a write that fails, and once it has no room. A flush that fails tells a fault.
    pub at_end: AtEnd,
    /// Whether each flush fails.
    pub flush_fails: bool,
    /// How many bytes of what it took it let go.
    sent: usize,
}

impl Sink {
    /// One that takes all that is written, and puts it after these bytes.
    pub fn whole(bytes: Vec<u8>) -> Sink {
        Sink::in_pieces(bytes, usize::MAX)
    }

    /// One that takes all that is written, so many bytes at a time, and puts it after these.
    pub fn in_pieces(bytes: Vec<u8>, most: usize) -> Sink {
        Sink {
            bytes,
            most,
            room: usize::MAX,
            calls: Calls::all_pass(),
            at_end: AtEnd::Fails,
            flush_fails: false,
            sent: 0,
        }
    }

    /// What it let go.
    pub fn sent(&self) -> &[u8] {
        let bytes = self.bytes.as_slice();
        let (sent, _) = bytes.split_at(self.sent.min(bytes.len()));
        sent
    }
}

impl Write for Sink {
    fn write(&mut self, buf: &[u8]) -> io::Result<usize> {
        let count = self.most.min(self.room).min(buf.len());
        if !self.calls.passes() || count == 0 {
            self.at_end.tell(ErrorKind::BrokenPipe)?;
            return Ok(0);
        }
        self.bytes.extend_from_slice(&buf[..count])?;
        self.room -= count;
        Ok(count)
    }

    fn flush(&mut self) -> io::Result<()> {
        if !self.calls.passes() || self.flush_fails {
            return Err(io::Error::from(ErrorKind::BrokenPipe));
        }
        self.sent = self.bytes.len();
        Ok(())
    }
}
