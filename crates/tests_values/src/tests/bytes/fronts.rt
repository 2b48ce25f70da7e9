//! What bytes that are still coming begin with.

use super::{ENTRY, PREPARE, piece};
use desk_codec::{Lack, front_entry, front_start};
use std::alloc::Global;
use std::test::Fail;

/// More bytes are needed.
const NEEDS: usize = 0;

/// Nothing begins so.
const NONE: usize = 1_000;

/// Memory was refused.
const REFUSED: usize = 1_001;

/// A row: bytes, and what is answered of each front of them, by its length: `NEEDS` up to the last length, and then the
/// count that was found, or `NONE`.
type Front = (&'static [u8], usize, usize);

/// The starts of packets, each after the length of a frame.
const STARTS: &[Front] = &[
    // a Prepare, after the length of its frame
    (PREPARE, 27, 27),
    // a third version, and kinds that none has
    (b"\0\0\0\0\x03", 1, NONE),
    (b"\0\0\0\0\x01\x00", 2, NONE),
    (b"\0\0\0\0\x02\x09", 2, NONE),
    // a view past the last one
    (b"\0\0\0\0\x01\x04\0\xff\0\0\0\0\0\0\0", 11, NONE),
    // a Prepare of place 0
    (
        b"\0\0\0\0\x01\x01\0\0\0\0\0\0\0\0\0\0\0\0\0\0\0\0\0",
        19,
        NONE,
    ),
];

/// Entries.
const ENTRIES: &[Front] = &[
    (ENTRY, 44, 44),
    // a client of number 0, and an empty body
    (b"\0\0\0\0\0\0\0\0\0\0\0\0\0\0\0\x01\0\x01", 18, NONE),
    (b"\0\0\0\0\0\0\0\x07\0\0\0\0\0\0\0\x01\0\0", 18, NONE),
    // a body of one byte, which is none
    (b"\0\0\0\0\0\0\0\x07\0\0\0\0\0\0\0\x01\0\x01\x01", 19, NONE),
];

fn lack(lack: Lack) -> usize {
    match lack {
        Lack::Needs => NEEDS,
        Lack::NoSpelling => NONE,
    }
}

/// What is answered of what stands before a packet's entries.
fn start_of(bytes: &[u8]) -> usize {
    match front_start(bytes) {
        Ok((_, count)) => count,
        Err(fault) => lack(fault),
    }
}

/// What is answered of an entry in version 1.
fn entry_of(alloc: Global, bytes: &[u8]) -> usize {
    match front_entry(alloc, 1, bytes) {
        Ok(Ok((entry, count))) => {
            drop(entry);
            count
        }
        Ok(Err(fault)) => lack(fault),
        Err(_) => REFUSED,
    }
}

/// The first row of starts of which a front is answered otherwise.
fn first_other_start() -> Option<usize> {
    for (index, row) in STARTS.iter().enumerate() {
        let bytes = piece(row.0, 4, row.0.len());
        for count in 0..row.1 {
            if start_of(piece(bytes, 0, count)) != NEEDS {
                return Some(index);
            }
        }
        if start_of(piece(bytes, 0, row.1)) != row.2 {
            return Some(index);
        }
    }
    None
}

/// The first row of entries of which a front is answered otherwise.
fn first_other_entry(alloc: Global) -> Option<usize> {
    for (index, row) in ENTRIES.iter().enumerate() {
        for count in 0..row.1 {
            if entry_of(alloc, piece(row.0, 0, count)) != NEEDS {
                return Some(index);
            }
        }
        if entry_of(alloc, piece(row.0, 0, row.1)) != row.2 {
            return Some(index);
        }
    }
    None
}

#[test]
fn tells_a_front_with_the_byte_that_decides(rt: HostRuntime) -> Result<(), Fail> {
    assert!(rt; first_other_start().is_none());
    assert!(rt; first_other_entry(rt.alloc()).is_none());
    Ok(())
}
