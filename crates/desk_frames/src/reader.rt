//! A reader of frames.

ghost use Rattle.std.specs.Prelude.{◌≡◌, ◌≢◌, ◌<◌, ◌+◌, ◌↔◌, [], Err, IsTrue, IfOk, IfErr, OnOk};
ghost use Rattle.std.specs.Io.KnownBytes.{Keeps};
ghost use Rattle.desk_types.specs.declared.limits.TheConstants.{STREAM_READS};
ghost use Rattle.desk_types.specs.declared.refusal.Refusal.TheVariants as refusals;
ghost use Rattle.desk_frames.specs.Stream.{Open, Fed, viewed};
ghost use Rattle.desk_frames.specs.Reading.{FedPiece, IsRead, end_answer, listed};

use crate::cutter::FrameCutter;
use desk_codec::FrameFault;
use desk_output::{READ_BYTES, ReadCount};
use desk_types::{Packet, Refusal, WantOfMemory};
use std::alloc::Global;
use std::io::Read;
use std::marker::Model;

/// A reader of frames on a stream. A contract sees where it stands, the piece that it has to feed again, and how often
/// it has read its source.
pub struct FrameReader {
    cutter: FrameCutter,
    room: Vec<u8>,
    waiting: usize,
    reads: ReadCount,
}

// Written out, so that callers need not prove each part's drop.
impl Drop for FrameReader {
    fn drop(self) {
        let FrameReader {
            cutter: _,
            room: _,
            waiting: _,
            reads: _,
        } = self;
    }
}

impl Model for FrameReader {
    ghost use Rattle.std.specs.Prelude.{◌≤◌, ◌<◌, length, take};
    ghost use Rattle.desk_frames.specs.Reading.{ReaderState};

    ghost Value = { ReaderState };

    ghost view = { λ r. record { standing = r.cutter; waiting = take r.waiting r.room.items; reads = r.reads } };

    ghost invariant = { λ r. (r.waiting ≤ length r.room.items) × (0 < length r.room.items) };
}

impl FrameReader {
    /// A reader at the beginning of a stream. Memory alone is refused.
    pub fn new(alloc: Global) -> Result<FrameReader, WantOfMemory>
        ensures { IfOk result (λ r. r ≡ record { standing = Open []; waiting = []; reads = 0 }) }
    {
        Ok(FrameReader {
            cutter: FrameCutter::new(alloc)?,
            room: vec![in alloc; 0; READ_BYTES]?,
            waiting: 0,
            reads: ReadCount::new(),
        })
    }

    /// Takes the next piece of the stream, and gives the packets that are whole now. Refused are bytes that no frame
    /// begins with, by `FrameFault` from then on, and want of memory, by `WantOfMemory`, after which the piece can be
    /// fed again.
    pub fn feed(&mut self, piece: &[u8]) -> Result<Vec<Packet>, FrameFault>
        ensures fed { Fed self.old.standing piece.now (viewed (λ v. v.items) result) self.new.standing }
        ensures waiting { self.new.waiting ≡ self.old.waiting }
        ensures reads { self.new.reads ≡ self.old.reads }
    {
        self.cutter.feed(piece)
    }

    /// Whether a piece waits to be fed again.
    pub(crate) fn has_piece(&self) -> bool
        ensures { IsTrue result ↔ (self.now.waiting ≢ []) }
    {
        self.waiting > 0
    }

    /// Feeds the piece that waits, and keeps it where memory is refused.
    pub(crate) fn feed_waiting(&mut self) -> Result<Option<Vec<Packet>>, Refusal>
        ensures fed { FedPiece self.old self.old.waiting (listed (λ v. v.items) result) self.new }
        ensures reads { self.new.reads ≡ self.old.reads }
    {
        match self.cutter.feed(&self.room[..self.waiting]) {
            Ok(packets) => {
                self.waiting = 0;
                Ok(Some(packets))
            }
            Err(fault) => {
                if !fault.refusal.is_want_of_memory() {
                    self.waiting = 0;
                }
                Err(fault.refusal)
            }
        }
    }

    /// Reads a source once, and keeps what it gave as the piece that waits. It is false at the end of the stream.
    pub(crate) fn read_piece<R: Read>(&mut self, source: &mut R) -> Result<bool, Refusal>
        requires nothing { self.old.waiting ≡ [] }
        ensures standing { self.new.standing ≡ self.old.standing }
        ensures ok { IfOk result (λ more.
            IsRead (R.remaining source.old) (R.remaining source.new) self.new.waiting more) }
        ensures err { IfErr result (λ refusal. (refusal ≡ refusals.ReadFault) × (self.new.waiting ≡ [])
            × Keeps (R.remaining source.old) (R.remaining source.new)) }
        ensures counted { self.old.reads < STREAM_READS → self.new.reads ≡ self.old.reads + 1 }
        ensures most { OnOk result (self.old.reads < STREAM_READS) }
        ensures limit { self.old.reads ≡ STREAM_READS →
            (result ≡ Err refusals.ReadFault) × (self.new ≡ self.old) }
    {
        match self.reads.read_piece(source, self.room.as_mut_slice()) {
            Ok(count) => {
                self.waiting = count;
                Ok(count > 0)
            }
            Err(refusal) => Err(refusal),
        }
    }

    /// The answer at the end of the stream.
    pub(crate) fn end(&self) -> Result<Option<Vec<Packet>>, Refusal>
        ensures { listed (λ v. v.items) result ≡ end_answer self.now.standing }
    {
        self.cutter.end()
    }
}
