//! Writers that take little at a time, and that fail in mid-stream.

use super::{ENTRY, PREPARE, joined, piece};
use desk_codec::get_packet;
use desk_frames::write_packet;
use desk_types::Packet;
use std::alloc::Global;
use std::test::Fail;
use tests_streams::{AtEnd, Sink};

/// Writes a packet: the number of the refusal, or 0, and how many bytes of its frame were told to be sent.
pub fn sent(alloc: Global, sink: &mut Sink, packet: &Packet, length: usize) -> (u8, usize) {
    match write_packet(alloc, sink, packet) {
        Ok(()) => (0, length),
        Err(fault) => (fault.refusal.number(), fault.sent),
    }
}

/// Writes the packet of a frame: the number of the refusal, or 0, and how many bytes were told to be sent.
fn written(alloc: Global, sink: &mut Sink, frame: &[u8]) -> (u8, usize) {
    match get_packet(alloc, piece(frame, 4, frame.len())) {
        Ok(packet) => {
            let answer = sent(alloc, sink, &packet, frame.len());
            drop(packet);
            answer
        }
        Err(_) => (42, 0),
    }
}

/// How many bytes a writer takes at a time, and what it does at its end.
type Way = (usize, AtEnd);

const WAYS: &[Way] = &[
    (1, AtEnd::Fails),
    (10, AtEnd::NoBytes),
    (1_000, AtEnd::Fails),
];

/// Whether a writer with room for so many bytes of a frame of 75 has taken these, and just so many are told to be sent.
fn is_reported(alloc: Global, frame: &[u8], room: usize, way: Way) -> bool {
    let mut sink = Sink::in_pieces(Vec::new(alloc), way.0);
    sink.room = room;
    sink.at_end = way.1;
    let wanted = if room < 75 { (44, room) } else { (0, 75) };
    let reported = written(alloc, &mut sink, frame);
    let are_taken = sink.bytes.as_slice() == piece(frame, 0, room);
    drop(sink);
    reported == wanted && are_taken
}

/// The first room with which something else is told.
fn first_wrong(alloc: Global, frame: &[u8]) -> Option<usize> {
    for room in 0..76 {
        for &way in WAYS {
            if !is_reported(alloc, frame, room, way) {
                return Some(room);
            }
        }
    }
    None
}

#[test]
fn tells_how_much_of_a_frame_went_out(rt: HostRuntime) -> Result<(), Fail> {
    let frame = joined(rt.alloc(), &[PREPARE, ENTRY])?;
    assert!(rt; first_wrong(rt.alloc(), frame.as_slice()) == None);
    Ok(())
}
