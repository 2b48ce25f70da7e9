//! A writer whose bytes go out as records.

ghost use Rattle.std.specs.Prelude.{◌≡◌, ◌<◌, IfOk, IfSome, OnOk, length, Some};
ghost use Rattle.std.specs.Io.KnownBytes.{Keeps};
ghost use Rattle.desk_records.specs.Streams.{sealed_bytes, IsRun, IsRun-prop};

use crate::record::{RECORD_BYTES, ROOM_BYTES, seal};
use desk_key::HmacKey;
use desk_output::write_all;
use std::alloc::{AllocError, Global};
use std::io;
use std::io::{ErrorKind, Write};
use std::snapshot::Snapshot;

/// A writer that seals what is written into records, one for each write, of 65,536 bytes at most. A contract sees what
/// was sealed: what right records carry after the bytes that the inner writer held at first.
pub struct Sealed<W: Write> {
    inner: W,
    key: HmacKey,
    /// The count of the next record. None once a record was not written whole, and once there are no more counts.
    count: Option<u64>,
    room: Vec<u8>,
    /// The inner writer as it was at first.
    first: Snapshot<W>,
    ghost run: { IsRun key.block.value (W.contents first.value) (W.contents inner) count } by { IsRun-prop
        key.block.value (W.contents first.value) (W.contents inner) count },
}

// Written out, so that callers need not prove each part's drop.
impl<W: Write + Drop> Drop for Sealed<W> {
    fn drop(self) {
        let Sealed {
            inner: _,
            key: _,
            count: _,
            room: _,
            first: _,
        } = self;
    }
}

impl<W: Write> Sealed<W> {
    ghost use Rattle.std.specs.Prelude.{[], option_map};

    /// Seals what goes to a writer, from count 0. Where memory is refused the writer is let go.
    pub fn new(alloc: Global, inner: W, key: HmacKey) -> Result<Sealed<W>, AllocError>
    where
        W: Drop,
        ensures key { IfOk result (λ s. s.key.block.value ≡ key.block.value) }
        ensures inner { IfOk result (λ s. s.inner ≡ inner) }
        // Nothing was sealed yet, where it is known.
        ensures empty { IfOk result (λ s.
            sealed_bytes s.key.block.value (W.contents s.first.value) (W.contents s.inner)
            ≡ option_map (λ _. []) (W.contents inner)) }
    {
        let room = Vec::with_capacity(alloc, ROOM_BYTES)?;
        Ok(Sealed {
            first: Snapshot::of(&inner),
            inner,
            key,
            count: Some(0),
            room,
        })
    }
}

/// The fault of a writer that can seal no more.
fn no_more_records() -> io::Error {
    io::Error::from(ErrorKind::BrokenPipe)
}

impl<W: Write> Write for Sealed<W> {
    ghost use Rattle.desk_records.specs.Streams.{sealed_bytes};

    ghost contents = { λ s. sealed_bytes s.key.block.value (W.contents s.first.value) (W.contents s.inner) };

    /// Takes 65,536 bytes at most, and writes them as one record. Where that is not written whole, this write and all
    /// after it fail; where memory is refused nothing is written.
    fn write(&mut self, buf: &[u8]) -> io::Result<usize> {
        if buf.is_empty() {
            return Ok(0);
        }
        let Some(count) = self.count else {
            return Err(no_more_records());
        };
        let taken = buf.len().min(RECORD_BYTES);
        seal(&self.key, count, &buf[..taken], &mut self.room)?;
        match write_all(&mut self.inner, self.room.as_slice()) {
            Ok(()) => {
                self.count = count.checked_add(1);
                Ok(taken)
            }
            Err(_) => {
                self.count = None;
                Err(no_more_records())
            }
        }
    }

    fn flush(&mut self) -> io::Result<()> {
        self.inner.flush()
    }
}
