//! Records, right ones and others.

use super::{copied, piece, turned};
use desk_key::HmacKey;
use desk_records::{Opened, Sealed};
use std::alloc::{AllocError, Global};
use std::io::{Read, Write};
use std::test::Fail;
use tests_streams::{Calls, Sink, Source};

/// The keys of the two directions.
const TOWARD: u8 = 5;

const BACK: u8 = 6;

/// What records give, and whether they came to their end.
#[derive(Drop)]
pub struct Given {
    pub bytes: Vec<u8>,
    pub is_whole: bool,
}

/// The records of these payloads, the first of count 0, under a key.
pub fn sealed(alloc: Global, key: u8, payloads: &[&[u8]]) -> Result<Vec<u8>, AllocError> {
    let mut sink = Sink::whole(Vec::new(alloc));
    let mut sealed = Sealed::new(alloc, &mut sink, HmacKey::new(&[key; 32]))?;
    for payload in payloads {
        if sealed.write_all(payload).is_err() {
            return Err(AllocError);
        }
    }
    drop(sealed);
    let Sink { bytes, .. } = sink;
    Ok(bytes)
}

/// Reads what records give, so many bytes at a time, to their end or to a fault.
fn read_all(opened: &mut Opened<Source<'_>>, room: &mut [u8], bytes: &mut Vec<u8>) -> bool {
    for _ in 0..100_000 {
        match opened.read(room) {
            Ok(0) => return true,
            Ok(count) => {
                if bytes.extend_from_slice(&room[..count]).is_err() {
                    return false;
                }
            }
            Err(_) => return false,
        }
    }
    false
}

/// What bytes give under a key; the reader brings so many bytes at a time.
pub fn opened(alloc: Global, key: u8, bytes: &[u8], most: usize) -> Result<Given, AllocError> {
    let source = Source::in_pieces(bytes, most);
    let mut opened = Opened::new(alloc, source, HmacKey::new(&[key; 32]))?;
    let mut given = Vec::new(alloc);
    let mut room = [0; 1_000];
    let is_whole = read_all(&mut opened, &mut room, &mut given);
    Ok(Given {
        bytes: given,
        is_whole,
    })
}

/// Whether bytes give just these, and come to their end or do not.
fn gives(alloc: Global, bytes: &[u8], wanted: &[u8], is_whole: bool) -> bool {
    match opened(alloc, TOWARD, bytes, usize::MAX) {
        Ok(given) => given.bytes.as_slice() == wanted && given.is_whole == is_whole,
        Err(_) => false,
    }
}

/// Three payloads, of which each record has 36 bytes more.
const PAYLOADS: &[&[u8]] = &[b"one", b"second", b"3"];

/// Their bytes, and where each record ends.
const ALL: &[u8] = b"onesecond3";

const ENDS: &[usize] = &[39, 81, 118];

/// How many payload bytes records give of which this one is the first that is not right.
fn bytes_before(record: usize) -> usize {
    match record {
        0 => 0,
        1 => 3,
        2 => 9,
        _ => 10,
    }
}

/// The record that has this byte.
fn record_at(place: usize) -> usize {
    ENDS.iter().filter(|end| **end <= place).count()
}

/// How many bytes a reader of records gets at a time.
const PACES: &[usize] = &[1, 2, 35, 36, 40, usize::MAX];

#[test]
fn what_is_sealed_reads_back_so(rt: HostRuntime) -> Result<(), Fail> {
    let bytes = sealed(rt.alloc(), TOWARD, PAYLOADS)?;
    assert!(rt; bytes.len() == 118);
    for most in PACES {
        let given = opened(rt.alloc(), TOWARD, bytes.as_slice(), *most)?;
        assert!(rt; given.is_whole && given.bytes.as_slice() == ALL, "{most}");
    }
    Ok(())
}

/// Lengths of what is written, and how many records it takes.
const LENGTHS: &[(usize, usize)] = &[(0, 0), (1, 1), (65_536, 1), (65_537, 2), (200_000, 4)];

#[test]
fn each_length_reads_back_so(rt: HostRuntime) -> Result<(), Fail> {
    for (length, records) in LENGTHS {
        let text = vec![in rt.alloc(); b'a'; *length]?;
        let bytes = sealed(rt.alloc(), TOWARD, &[text.as_slice()])?;
        assert!(rt; bytes.len() == length + 36 * records, "{length}");
        assert!(rt;
            gives(rt.alloc(), bytes.as_slice(), text.as_slice(), true),
            "{length}"
        );
    }
    Ok(())
}

/// Whether records of which a bit is turned give those before it, and no byte more.
fn stops_at(alloc: Global, bytes: &[u8], place: usize, bit: u32) -> bool {
    match turned(alloc, bytes, place, bit) {
        Ok(other) => {
            let before = piece(ALL, 0, bytes_before(record_at(place)));
            gives(alloc, other.as_slice(), before, false)
        }
        Err(_) => false,
    }
}

#[test]
fn no_bit_of_a_record_may_be_another(rt: HostRuntime) -> Result<(), Fail> {
    let bytes = sealed(rt.alloc(), TOWARD, PAYLOADS)?;
    for place in 0..118 {
        for bit in 0..8 {
            assert!(rt;
                stops_at(rt.alloc(), bytes.as_slice(), place, bit),
                "{place} {bit}"
            );
        }
    }
    Ok(())
}

#[test]
fn a_record_that_is_cut_gives_nothing(rt: HostRuntime) -> Result<(), Fail> {
    let bytes = sealed(rt.alloc(), TOWARD, PAYLOADS)?;
    for length in 0..118 {
        let cut = piece(bytes.as_slice(), 0, length);
        let before = piece(ALL, 0, bytes_before(record_at(length)));
        let is_whole = length == 0 || ENDS.contains(&length);
        assert!(rt; gives(rt.alloc(), cut, before, is_whole), "{length}");
    }
    Ok(())
}

/// Which records come, in which order, and how many of them are given: one that comes twice, one that is left out, and
/// two that are exchanged end it.
const ORDERS: &[(&[usize], usize)] = &[
    (&[0, 1, 2], 3),
    (&[0, 0, 1, 2], 1),
    (&[0, 1, 1, 2], 2),
    (&[0, 2], 1),
    (&[1, 2], 0),
    (&[2], 0),
    (&[1, 0, 2], 0),
    (&[0, 2, 1], 1),
    (&[0, 1, 2, 0], 3),
    (&[0, 1, 2, 2], 3),
];

/// The record of a number among those of the payloads.
fn record_of(bytes: &[u8], number: usize) -> &[u8] {
    match number {
        0 => piece(bytes, 0, 39),
        1 => piece(bytes, 39, 81),
        _ => piece(bytes, 81, 118),
    }
}

/// The records in another order.
fn ordered(alloc: Global, bytes: &[u8], order: &[usize]) -> Result<Vec<u8>, AllocError> {
    let mut other = Vec::new(alloc);
    for number in order {
        other.extend_from_slice(record_of(bytes, *number))?;
    }
    Ok(other)
}

#[test]
fn records_come_once_and_in_order(rt: HostRuntime) -> Result<(), Fail> {
    let bytes = sealed(rt.alloc(), TOWARD, PAYLOADS)?;
    for (index, (order, right)) in ORDERS.iter().enumerate() {
        let other = ordered(rt.alloc(), bytes.as_slice(), order)?;
        let before = piece(ALL, 0, bytes_before(*right));
        let is_whole = order.len() == *right;
        assert!(rt;
            gives(rt.alloc(), other.as_slice(), before, is_whole),
            "{index}"
        );
    }
    Ok(())
}

#[test]
fn records_of_the_other_direction_are_none(rt: HostRuntime) -> Result<(), Fail> {
    let bytes = sealed(rt.alloc(), BACK, PAYLOADS)?;
    assert!(rt; gives(rt.alloc(), bytes.as_slice(), b"", false));
    Ok(())
}

/// Lengths that no record has.
const NO_LENGTHS: &[&[u8]] = &[
    b"\0\0\0\0",
    b"\0\x01\0\x01",
    b"\x01\0\0\x01",
    b"\x7f\xff\xff\xff",
    b"\x80\0\0\0",
    b"\xff\xff\xff\xff",
];

/// A length, and so many bytes after it, all of them 0.
fn place_after_length(alloc: Global, length: &[u8], count: usize) -> Result<Vec<u8>, Fail> {
    let mut bytes = Vec::new(alloc);
    for byte in length.iter() {
        bytes.push(*byte)?;
    }
    for _ in 0..count {
        bytes.push(0)?;
    }
    Ok(bytes)
}

#[test]
fn a_length_that_no_record_has_ends_it(rt: HostRuntime) -> Result<(), Fail> {
    for (index, length) in NO_LENGTHS.iter().enumerate() {
        let bytes = place_after_length(rt.alloc(), length, 70_000)?;
        assert!(rt; gives(rt.alloc(), bytes.as_slice(), b"", false), "{index}");
    }
    Ok(())
}

/// What each of five reads gives, or 255 for a fault.
fn five_reads(opened: &mut Opened<Source<'_>>) -> [u8; 5] {
    let mut reported = [0; 5];
    for read in 0..5 {
        let mut room = [0; 100];
        reported[read] = match opened.read(&mut room) {
            Ok(count) => count as u8,
            Err(_) => 255,
        };
    }
    reported
}

#[test]
fn nothing_is_given_behind_a_wrong_record(rt: HostRuntime) -> Result<(), Fail> {
    let bytes = sealed(rt.alloc(), TOWARD, PAYLOADS)?;
    let other = turned(rt.alloc(), bytes.as_slice(), 45, 0)?;
    let source = Source::whole(other.as_slice());
    let mut opened = Opened::new(rt.alloc(), source, HmacKey::new(&[TOWARD; 32]))?;
    assert!(rt; five_reads(&mut opened) == [3, 255, 255, 255, 255]);
    Ok(())
}

/// Writes three payloads over a writer of which one call fails: which of the writes passed.
fn written(alloc: Global, sink: &mut Sink) -> Result<[bool; 3], AllocError> {
    let mut sealed = Sealed::new(alloc, sink, HmacKey::new(&[TOWARD; 32]))?;
    let mut reported = [false; 3];
    for number in 0..3 {
        reported[number] = sealed.write(PAYLOADS[number]).is_ok();
    }
    Ok(reported)
}

/// Whether a writer that takes ten bytes a call, of which one fails, leaves whole records and a part of one.
fn is_broken_off(alloc: Global, passing: u64) -> Result<bool, AllocError> {
    let mut sink = Sink::in_pieces(Vec::new(alloc), 10);
    sink.calls = Calls::one_fails(passing);
    let reported = written(alloc, &mut sink)?;
    let right = reported.iter().filter(|passed| **passed).count();
    let taken = copied(alloc, sink.bytes.as_slice())?;
    let is_whole = taken.is_empty() || ENDS.contains(&taken.len());
    let before = piece(ALL, 0, bytes_before(right));
    Ok(gives(alloc, taken.as_slice(), before, is_whole) && !reported[2])
}

#[test]
fn nothing_is_sealed_behind_a_part_of_a_record(rt: HostRuntime) -> Result<(), Fail> {
    for passing in 0..13 {
        assert!(rt; is_broken_off(rt.alloc(), passing)?, "{passing}");
    }
    Ok(())
}
