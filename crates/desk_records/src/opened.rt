//! A reader of what records carry.

ghost use Rattle.std.specs.Prelude.{◌≡◌, ◌≤◌, ◌<◌, ◌+◌, [], true, false, length, take, slice_range, vec_len};
ghost use Rattle.std.specs.Prelude.{IfOk, IfSome, IsNone, OnOk, OnErr};
ghost use Rattle.std.specs.Io.KnownBytes.{Keeps, Consumes, IsAtEnd, prepend_known};
ghost use Rattle.desk_records.specs.declared.record.TheConstants.{ROOM_BYTES};
ghost use Rattle.desk_records.specs.Streams.{opened_bytes, IsHeldRecord};

use crate::record::{
    LENGTH_BYTES, OTHER_BYTES, RECORD_BYTES, ROOM_BYTES, is_right, payload_length,
};
use desk_key::HmacKey;
use std::alloc::{AllocError, Global};
use std::io;
use std::io::{ErrorKind, Read};

/// A reader that gives what records carry, each once its tag is seen to be right. A contract sees what it will give:
/// what the longest run of right records carries. At the first record that is not right, or not whole, each read fails.
pub struct Opened<R: Read> {
    inner: R,
    key: HmacKey,
    /// The count of the next record.
    count: u64,
    room: Vec<u8>,
    /// How many bytes of the next record stand first in the room: none but where it is no right one.
    held: usize,
    /// Where in the room that stands which the last record carries and which was not given yet.
    from: usize,
    until: usize,
    ghost room_is: { vec_len room ≡ ROOM_BYTES },
    ghost held_within: { held ≤ ROOM_BYTES },
    ghost from_within: { from ≤ until },
    ghost until_within: { until ≤ ROOM_BYTES },
}

// Written out, so that callers need not prove each part's drop.
impl<R: Read + Drop> Drop for Opened<R> {
    fn drop(self) {
        let Opened {
            inner: _,
            key: _,
            count: _,
            room: _,
            held: _,
            from: _,
            until: _,
        } = self;
    }
}

/// The fault of bytes that are no right record.
fn no_record() -> io::Error {
    io::Error::from(ErrorKind::InvalidData)
}

/// Reads bytes after the first of a room, until it holds so many. It tells how many it holds then, and whether these
/// are all; they are not where the reader is at its end.
fn collect<R: Read>(
    inner: &mut R,
    room: &mut [u8],
    first: usize,
    wanted: usize,
) -> (usize, io::Result<bool>)
    requires first { first ≤ wanted }
    requires wanted { wanted ≤ length room.old }
    ensures preserved { Keeps (prepend_known (take first room.old) (R.remaining inner.old))
        (prepend_known (take result.0 room.new) (R.remaining inner.new)) }
    ensures room { length room.new ≡ length room.old }
    ensures within { result.0 ≤ wanted }
    ensures whole { IfOk result.1 (λ all. all ≡ true → result.0 ≡ wanted) }
    ensures end { IfOk result.1 (λ all. all ≡ false → IsAtEnd (R.remaining inner.new)) }
    ensures front { take first room.new ≡ take first room.old }
{
    let mut held = first;
    while held < wanted {
        match inner.read(&mut room[held..wanted]) {
            Ok(0) => return (held, Ok(false)),
            Ok(count) => held += count,
            Err(error) => return (held, Err(error)),
        }
    }
    (held, Ok(true))
}

impl<R: Read> Opened<R> {
    /// Opens the records that a reader gives, from count 0. Where memory is refused the reader is let go.
    pub fn new(alloc: Global, inner: R, key: HmacKey) -> Result<Opened<R>, AllocError>
    where
        R: Drop,
        // It gives what right records carry of all that comes.
        ensures bytes { IfOk result (λ o.
            opened_bytes o.key.block.value o.count (slice_range o.room.items o.from o.until)
            (take o.held o.room.items) (R.remaining o.inner)
            ≡ opened_bytes key.block.value 0 [] [] (R.remaining inner)) }
    {
        let room = vec![in alloc; 0; ROOM_BYTES]?;
        Ok(Opened {
            inner,
            key,
            count: 0,
            room,
            held: 0,
            from: 0,
            until: 0,
        })
    }

    /// Reads on until the room holds so many bytes of the next record, or tells that the reader is at its end.
    fn hold(&mut self, wanted: usize) -> io::Result<bool>
        requires held { self.old.held ≤ wanted }
        requires wanted { wanted ≤ ROOM_BYTES }
        requires given { self.old.from ≡ self.old.until }
        ensures preserved { Keeps (prepend_known (take self.old.held self.old.room.items) (R.remaining self.old.inner))
            (prepend_known (take self.new.held self.new.room.items) (R.remaining self.new.inner)) }
        ensures key { self.new.key ≡ self.old.key }
        ensures count { self.new.count ≡ self.old.count }
        ensures given { self.new.from ≡ self.new.until }
        ensures front { take self.old.held self.new.room.items ≡ take self.old.held self.old.room.items }
        ensures within { self.new.held ≤ wanted }
        ensures whole { IfOk result (λ all. all ≡ true → self.new.held ≡ wanted) }
        ensures end { IfOk result (λ all. all ≡ false → IsAtEnd (R.remaining self.new.inner)) }
    {
        let (held, outcome) = collect(&mut self.inner, self.room.as_mut_slice(), self.held, wanted);
        self.held = held;
        outcome
    }

    /// Reads the next record, as far as it comes, and tells how many bytes it carries. It is none at the end of the
    /// reader.
    fn hold_record(&mut self) -> io::Result<Option<usize>>
        requires held { self.old.held ≡ 0 }
        requires given { self.old.from ≡ self.old.until }
        ensures preserved { Keeps (prepend_known (take self.old.held self.old.room.items) (R.remaining self.old.inner))
            (prepend_known (take self.new.held self.new.room.items) (R.remaining self.new.inner)) }
        ensures key { self.new.key ≡ self.old.key }
        ensures count { self.new.count ≡ self.old.count }
        ensures given { self.new.from ≡ self.new.until }
        ensures record { IfOk result (λ found.
            IfSome found (λ carried. IsHeldRecord carried self.new.held self.new.room.items)) }
        ensures end { IfOk result (λ found.
            IsNone found → (self.new.held ≡ 0) × IsAtEnd (R.remaining self.new.inner)) }
    {
        if !self.hold(LENGTH_BYTES)? {
            return if self.held == 0 {
                Ok(None)
            } else {
                Err(no_record())
            };
        }
        let carried = payload_length(self.room.as_slice());
        if carried == 0 || carried > RECORD_BYTES {
            return Err(no_record());
        }
        if !self.hold(carried + OTHER_BYTES)? {
            return Err(no_record());
        }
        Ok(Some(carried))
    }

    /// Takes the record that the room holds, where it is the right one.
    fn take_record(&mut self, carried: usize) -> io::Result<()>
        requires held { IsHeldRecord carried self.old.held self.old.room.items }
        requires given { self.old.from ≡ self.old.until }
        ensures ok { OnOk result (
            opened_bytes self.old.key.block.value self.old.count [] (take self.old.held self.old.room.items)
            (R.remaining self.old.inner)
            ≡ opened_bytes self.new.key.block.value self.new.count
            (slice_range self.new.room.items self.new.from self.new.until) (take self.new.held self.new.room.items)
            (R.remaining self.new.inner)) }
        ensures some { OnOk result (self.new.from < self.new.until) }
        ensures preserved { OnErr result ((self.new.inner ≡ self.old.inner) × (self.new.room ≡ self.old.room)) }
        ensures same { OnErr result ((self.new.count ≡ self.old.count) × (self.new.held ≡ self.old.held)) }
        ensures left { OnErr result (self.new.from ≡ self.new.until) }
        ensures key { self.new.key ≡ self.old.key }
    {
        let Some(next) = self.count.checked_add(1) else {
            return Err(no_record());
        };
        let record = &self.room.as_slice()[..self.held];
        if !is_right(&self.key, self.count, record) {
            return Err(no_record());
        }
        self.count = next;
        self.held = 0;
        self.from = LENGTH_BYTES;
        self.until = LENGTH_BYTES + carried;
        Ok(())
    }

    /// Opens the next record. It is false at the end of the reader.
    fn open_next(&mut self) -> io::Result<bool>
        requires { self.old.from ≡ self.old.until }
        ensures preserved { Keeps
            (opened_bytes self.old.key.block.value self.old.count
            (slice_range self.old.room.items self.old.from self.old.until) (take self.old.held self.old.room.items)
            (R.remaining self.old.inner))
            (opened_bytes self.new.key.block.value self.new.count
            (slice_range self.new.room.items self.new.from self.new.until) (take self.new.held self.new.room.items)
            (R.remaining self.new.inner)) }
        ensures some { IfOk result (λ more. more ≡ true → self.new.from < self.new.until) }
        ensures end { IfOk result (λ more. more ≡ false → IsAtEnd
            (opened_bytes self.new.key.block.value self.new.count
            (slice_range self.new.room.items self.new.from self.new.until) (take self.new.held self.new.room.items)
            (R.remaining self.new.inner))) }
    {
        if self.held > 0 {
            return Err(no_record());
        }
        match self.hold_record()? {
            None => Ok(false),
            Some(carried) => {
                self.take_record(carried)?;
                Ok(true)
            }
        }
    }

    /// Gives what the last record carries, as much as there is room for.
    fn give(&mut self, buf: &mut [u8]) -> usize
        requires left { self.old.from < self.old.until }
        requires room { 0 < length buf.old }
        ensures bytes { Consumes
            (opened_bytes self.old.key.block.value self.old.count
            (slice_range self.old.room.items self.old.from self.old.until) (take self.old.held self.old.room.items)
            (R.remaining self.old.inner))
            (opened_bytes self.new.key.block.value self.new.count
            (slice_range self.new.room.items self.new.from self.new.until) (take self.new.held self.new.room.items)
            (R.remaining self.new.inner)) (take result buf.new) }
        ensures within { result ≤ length buf.new }
        ensures some { 0 < result }
    {
        let count = buf.len().min(self.until - self.from);
        buf[..count].copy_from_slice(&self.room.as_slice()[self.from..self.from + count]);
        self.from += count;
        count
    }
}

impl<R: Read> Read for Opened<R> {
    ghost use Rattle.std.specs.Prelude.{slice_range, take};
    ghost use Rattle.desk_records.specs.Streams.{opened_bytes};

    ghost remaining = { λ o. opened_bytes o.key.block.value o.count (slice_range o.room.items o.from o.until)
        (take o.held o.room.items) (R.remaining o.inner) };

    /// Gives bytes of one record. At a record that is not right, or not whole, this read and all after it fail.
    fn read(&mut self, buf: &mut [u8]) -> io::Result<usize> {
        if buf.is_empty() {
            return Ok(0);
        }
        if self.from == self.until && !self.open_next()? {
            return Ok(0);
        }
        Ok(self.give(buf))
    }
}
