//! Streams that are read in pieces and written in texts. Where one counts its calls that fail, a contract sees the
//! count, and so can say which call a fault is of.

ghost use Rattle.std.specs.Prelude.{◌≡◌, ◌≤◌, ◌<◌, ◌+◌, ◌%◌, ◌^◌, length, take, OnOk, OnErr, IfOk, IfErr, MatchResult};
ghost use Rattle.std.specs.Io.KnownBytes.{Appends, Consumes, IsAtEnd, Keeps};
ghost use Rattle.desk_types.specs.declared.limits.TheConstants.{STREAM_READS};
ghost use Rattle.desk_types.specs.declared.refusal.Refusal.TheVariants as refusals;
ghost use Rattle.desk_output.specs.Prefixes.{AppendsPrefix};
ghost use Rattle.desk_output.specs.Printing.{parts_text};
ghost use Rattle.desk_lines.specs.FailedCalls.{count_after_failure};

use desk_output::{LinePart, ReadCount, flush, write_parts, write_text};
use desk_types::Refusal;
use std::io::{Read, Write};

/// What is read in pieces: any reader, or one whose reads that fail are counted.
pub trait ReadPieces {
    ghost use Rattle.std.specs.Prelude.{ℕ, List, Option};

    /// The bytes that reads will give from here on, where they are known.
    ghost remaining: { Self → Option (List ℕ) };

    /// How many reads failed, where they are counted.
    ghost failed: { Self → Option ℕ };

    /// Reads once, and tells how many bytes that gave: none at the end alone. A read that fails is `ReadFault`, and so
    /// is one read more than a stream may have, which is not made.
    fn read_piece(&mut self, reads: &mut ReadCount, room: &mut [u8]) -> Result<usize, Refusal>
        requires room { 0 < length room.old }
        // The bytes stand first in the room.
        ensures bytes { IfOk result (λ count.
            Consumes (remaining self.old) (remaining self.new) (take count room.new)) }
        ensures within { IfOk result (λ count. count ≤ length room.new) }
        ensures end { IfOk result (λ count. count ≡ 0 → IsAtEnd (remaining self.new)) }
        ensures same_room { length room.new ≡ length room.old }
        ensures preserved { OnErr result (Keeps (remaining self.old) (remaining self.new)) }
        ensures fault { IfErr result (λ r. r ≡ refusals.ReadFault) }
        ensures counted { reads.old < STREAM_READS → reads.new ≡ reads.old + 1 }
        // A stream is read so often at most.
        ensures most { OnOk result (reads.old < STREAM_READS) }
        // It counts as failed exactly where it is reported as `ReadFault`.
        ensures failed { MatchResult result (λ _. failed self.new ≡ failed self.old)
            (λ _. failed self.new ≡ count_after_failure (failed self.old)) };
}

/// What texts are written to: any writer, or one whose writes that fail are counted.
pub trait WriteTexts {
    ghost use Rattle.std.specs.Prelude.{ℕ, List, Option};

    /// The bytes that the writer holds, where they are known.
    ghost contents: { Self → Option (List ℕ) };

    /// How many texts were not written whole, and how many flushes failed, where they are counted.
    ghost failed: { Self → Option ℕ };

    /// Writes the whole of a text. Where a write fails, or takes no byte, that is `WriteFault`, and a prefix of the
    /// text is written.
    fn write_text(&mut self, text: &[u8]) -> Result<(), Refusal>
        ensures ok { OnOk result (Appends (contents self.old) (contents self.new) text.now) }
        ensures err { OnErr result (AppendsPrefix (contents self.old) (contents self.new) text.now) }
        ensures fault { IfErr result (λ r. r ≡ refusals.WriteFault) }
        ensures failed { MatchResult result (λ _. failed self.new ≡ failed self.old)
            (λ _. failed self.new ≡ count_after_failure (failed self.old)) };

    /// Writes parts of lines, one after the other, as far as they can be written.
    fn write_parts(&mut self, parts: &[LinePart<'_>]) -> Result<(), Refusal>
        ensures ok { OnOk result (Appends (contents self.old) (contents self.new) (parts_text parts.now)) }
        ensures printed { AppendsPrefix (contents self.old) (contents self.new) (parts_text parts.now) }
        ensures failed { MatchResult result (λ _. failed self.new ≡ failed self.old)
            (λ _. failed self.new ≡ count_after_failure (failed self.old)) };

    /// Sends on what the writer holds back. Where that fails, that is `WriteFault`.
    fn flush(&mut self) -> Result<(), Refusal>
        ensures bytes { Keeps (contents self.old) (contents self.new) }
        ensures fault { IfErr result (λ r. r ≡ refusals.WriteFault) }
        ensures failed { MatchResult result (λ _. failed self.new ≡ failed self.old)
            (λ _. failed self.new ≡ count_after_failure (failed self.old)) };
}

impl<R: Read> ReadPieces for R {
    ghost use Rattle.std.specs.Prelude.{None};

    ghost remaining = { λ r. R.remaining r };

    ghost failed = { λ _. None };

    fn read_piece(&mut self, reads: &mut ReadCount, room: &mut [u8]) -> Result<usize, Refusal> {
        reads.read_piece(self, room)
    }
}

impl<W: Write> WriteTexts for W {
    ghost use Rattle.std.specs.Prelude.{None};

    ghost contents = { λ w. W.contents w };

    ghost failed = { λ _. None };

    fn write_text(&mut self, text: &[u8]) -> Result<(), Refusal> {
        write_text(self, text)
    }

    fn write_parts(&mut self, parts: &[LinePart<'_>]) -> Result<(), Refusal> {
        write_parts(self, parts)
    }

    fn flush(&mut self) -> Result<(), Refusal> {
        flush(self)
    }
}

/// A reader whose reads that fail are counted.
#[derive(Drop)]
pub struct WatchedReader<R: Read> {
    inner: R,
    /// How many failed; the count begins again after its greatest value.
    failed: u64,
}

impl<R: Read> WatchedReader<R> {
    /// A reader of which no read has failed.
    pub fn new(inner: R) -> WatchedReader<R>
        ensures inner { result.inner ≡ inner }
        ensures failed { result.failed ≡ 0 }
    {
        WatchedReader { inner, failed: 0 }
    }

    /// The reader.
    pub fn inner(&self) -> &R
        ensures { result.now ≡ self.now.inner }
    {
        &self.inner
    }
}

impl<R: Read> ReadPieces for WatchedReader<R> {
    ghost use Rattle.std.specs.Prelude.{Some};

    ghost remaining = { λ w. R.remaining w.inner };

    ghost failed = { λ w. Some w.failed };

    fn read_piece(&mut self, reads: &mut ReadCount, room: &mut [u8]) -> Result<usize, Refusal> {
        let piece = reads.read_piece(&mut self.inner, room);
        if piece.is_err() {
            self.failed = self.failed.wrapping_add(1);
        }
        piece
    }
}

/// A writer whose writes that fail are counted.
#[derive(Drop)]
pub struct WatchedWriter<W: Write> {
    inner: W,
    /// How many texts were not written whole, and how many flushes failed; the count begins again after its greatest
    /// value.
    failed: u64,
}

impl<W: Write> WatchedWriter<W> {
    /// A writer of which no write has failed.
    pub fn new(inner: W) -> WatchedWriter<W>
        ensures inner { result.inner ≡ inner }
        ensures failed { result.failed ≡ 0 }
    {
        WatchedWriter { inner, failed: 0 }
    }

    /// Counts a call that failed.
    fn count(&mut self, written: &Result<(), Refusal>)
        ensures inner { self.new.inner ≡ self.old.inner }
        ensures failed { MatchResult written.now (λ _. self.new.failed ≡ self.old.failed)
            (λ _. self.new.failed ≡ (self.old.failed + 1) % 2 ^ 64) }
    {
        if written.is_err() {
            self.failed = self.failed.wrapping_add(1);
        }
    }
}

impl<W: Write> WriteTexts for WatchedWriter<W> {
    ghost use Rattle.std.specs.Prelude.{Some};

    ghost contents = { λ w. W.contents w.inner };

    ghost failed = { λ w. Some w.failed };

    fn write_text(&mut self, text: &[u8]) -> Result<(), Refusal> {
        let written = write_text(&mut self.inner, text);
        self.count(&written);
        written
    }

    fn write_parts(&mut self, parts: &[LinePart<'_>]) -> Result<(), Refusal> {
        let written = write_parts(&mut self.inner, parts);
        self.count(&written);
        written
    }

    fn flush(&mut self) -> Result<(), Refusal> {
        let sent = flush(&mut self.inner);
        self.count(&sent);
        sent
    }
}
