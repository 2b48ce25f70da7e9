//! Sources that give little at a time, and that fail or end in mid-stream.

use super::{ENTRY, PREPARE, PREPARE_OK, START_VIEW_CHANGE, joined, piece};
use desk_frames::{FrameReader, read_packets};
use std::alloc::Global;
use tests_streams::{AtEnd, Source};

/// Reads a source to its end: how many packets it gave, and the number of the refusal, or 0.
fn read_all(alloc: Global, source: &mut Source<'_>) -> (usize, u8) {
    let Ok(mut reader) = FrameReader::new(alloc) else {
        return (0, 40);
    };
    let mut count: usize = 0;
    for _ in 0..1_000 {
        match read_packets(source, &mut reader) {
            Ok(Some(packets)) => count = count.saturating_add(packets.len()),
            Ok(None) => return (count, 0),
            Err(refusal) => return (count, refusal.number()),
        }
    }
    (count, 255)
}

/// Bytes, how many of them a source has, what it does at its end, and what comes of it.
type Row = (&'static [&'static [u8]], usize, AtEnd, (usize, u8));

const THREE: &[&[u8]] = &[PREPARE_OK, START_VIEW_CHANGE, PREPARE, ENTRY];

const TWICE: &[&[u8]] = &[PREPARE_OK, PREPARE_OK];

// All of it, an end inside a frame, and a fault before the end.
const ROWS: &[Row] = &[
    (THREE, 1_000, AtEnd::NoBytes, (3, 0)),
    (THREE, 1_000, AtEnd::Fails, (3, 43)),
    (TWICE, 0, AtEnd::NoBytes, (0, 0)),
    (TWICE, 3, AtEnd::NoBytes, (0, 43)),
    (TWICE, 22, AtEnd::NoBytes, (0, 43)),
    (TWICE, 23, AtEnd::NoBytes, (1, 0)),
    (TWICE, 24, AtEnd::NoBytes, (1, 43)),
    (TWICE, 45, AtEnd::NoBytes, (1, 43)),
    (TWICE, 46, AtEnd::NoBytes, (2, 0)),
    (
        &[PREPARE_OK, b"\0\0\0\x0a\0"],
        1_000,
        AtEnd::NoBytes,
        (1, 42),
    ),
];

/// How many bytes a source gives at a time.
const SIZES: &[usize] = &[1, 2, 7, 22, 23, 100, 1_000];

/// The first number of bytes at a time by which something else comes of a row.
fn first_wrong(alloc: Global, bytes: &[u8], row: &Row) -> Option<usize> {
    for &most in SIZES {
        let mut source = Source::in_pieces(piece(bytes, 0, row.1), most);
        source.at_end = row.2;
        if read_all(alloc, &mut source) != row.3 {
            return Some(most);
        }
    }
    None
}

/// Whether that comes of a row by any number of bytes at a time.
fn comes(alloc: Global, row: &Row) -> bool {
    match joined(alloc, row.0) {
        Ok(bytes) => first_wrong(alloc, bytes.as_slice(), row) == None,
        Err(_) => false,
    }
}

/// How many reads it takes to read three packets that are there at once.
fn reads_of_three(alloc: Global) -> Option<u64> {
    let bytes = joined(alloc, THREE).ok()?;
    let mut source = Source::in_pieces(bytes.as_slice(), 1_000);
    let (count, number) = read_all(alloc, &mut source);
    if count == 3 && number == 0 {
        Some(source.calls.count_made())
    } else {
        None
    }
}

// A read of what is there, and one that finds the end. No contract shows how many bytes a read asks for.
#[test]
fn packets_that_are_there_take_two_reads(rt: HostRuntime) {
    assert!(rt; reads_of_three(rt.alloc()) == Some(2));
}

#[test]
fn a_source_is_read_to_its_end(rt: HostRuntime) {
    for row in ROWS {
        assert!(rt; comes(rt.alloc(), row), "{}", row.1);
    }
}
