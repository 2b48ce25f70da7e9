//! Reads from any reader.

ghost use Rattle.std.specs.Prelude.{◌≡◌, ◌≤◌, ◌<◌, ◌+◌, length, take, Err, OnOk, IfOk, IfErr, OnErr};
ghost use Rattle.std.specs.Io.KnownBytes.{Consumes, IsAtEnd, Keeps};
ghost use Rattle.desk_types.specs.declared.refusal.Refusal.TheVariants as refusals;

use desk_types::Refusal;
use desk_types::limits::STREAM_READS;
use std::io::Read;
use std::marker::Model;

/// The room for one read of a stream, in bytes.
pub const READ_BYTES: usize = 4_096;

/// How often a stream was read. A contract sees the number.
#[derive(Drop)]
pub struct ReadCount {
    reads: u32,
}

impl Model for ReadCount {
    ghost use Rattle.std.specs.Prelude.{ℕ};

    ghost Value = { ℕ };

    ghost view = { λ c. c.reads };
}

impl ReadCount {
    /// The count of a stream that was not read yet.
    pub fn new() -> ReadCount
        ensures { result ≡ 0 }
    {
        ReadCount { reads: 0 }
    }

    /// Reads the stream once, and tells how many bytes it gave: none at its end alone. A read that fails is
    /// `ReadFault`, and so is one read more than a stream may have, which is not made.
    pub fn read_piece<R: Read>(&mut self, source: &mut R, room: &mut [u8]) -> Result<usize, Refusal>
        requires room { 0 < length room.old }
        // The bytes stand first in the room.
        ensures bytes { IfOk result (λ count.
            Consumes (R.remaining source.old) (R.remaining source.new) (take count room.new)) }
        ensures within { IfOk result (λ count. count ≤ length room.new) }
        ensures end { IfOk result (λ count. count ≡ 0 → IsAtEnd (R.remaining source.new)) }
        ensures same_room { length room.new ≡ length room.old }
        ensures preserved { OnErr result (Keeps (R.remaining source.old) (R.remaining source.new)) }
        ensures fault { IfErr result (λ r. r ≡ refusals.ReadFault) }
        ensures counted { self.old < STREAM_READS → self.new ≡ self.old + 1 }
        // A stream is read so often at most.
        ensures most { OnOk result (self.old < STREAM_READS) }
        ensures limit { self.old ≡ STREAM_READS → self.new ≡ self.old }
    {
        if self.reads >= STREAM_READS {
            return Err(Refusal::ReadFault);
        }
        self.reads += 1;
        match source.read(room) {
            Ok(count) => Ok(count),
            Err(_) => Err(Refusal::ReadFault),
        }
    }
}
