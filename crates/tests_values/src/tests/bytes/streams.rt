//! Streams in pieces.

use super::PREPARE_OK;
use desk_frames::{FrameReader, write_packet};
use desk_types::{Message, Packet};
use std::alloc::Global;
use std::test::Fail;

/// How many packets came, or that the stream is at its end, or the number of the refusal.
#[derive(Clone, Copy, Debug, PartialEq, Eq)]
pub enum Came {
    Packets(usize),
    End,
    Refused(u8),
}

/// Writes the frame of a packet, in a second try where nothing was sent in the first.
fn is_written(alloc: Global, packet: &Packet, out: &mut Vec<u8>) -> bool {
    match write_packet(alloc, out, packet) {
        Ok(()) => true,
        Err(fault) => fault.sent == 0 && write_packet(alloc, out, packet).is_ok(),
    }
}

/// Writes the frames of packets.
pub fn written(alloc: Global, packets: &[Packet], out: &mut Vec<u8>) -> Came {
    for packet in packets {
        if !is_written(alloc, packet, out) {
            return Came::Refused(44);
        }
    }
    Came::Packets(packets.len())
}

/// Feeds a piece, and writes the frames of the packets that came of it.
pub fn fed(alloc: Global, reader: &mut FrameReader, piece: &[u8], out: &mut Vec<u8>) -> Came {
    match reader.feed(piece) {
        Err(fault) => Came::Refused(fault.refusal.number()),
        Ok(packets) => written(alloc, packets.as_slice(), out),
    }
}

/// Whether a piece gives one packet, the PrepareOk of node 1, view 0, place 3.
fn gives_prepare_ok(reader: &mut FrameReader, piece: &[u8]) -> bool {
    match reader.feed(piece) {
        Ok(packets) => match packets.as_slice() {
            [packet] => is_prepare_ok(packet.message()),
            _ => false,
        },
        Err(_) => false,
    }
}

fn is_prepare_ok(message: &Message) -> bool {
    matches!(
        message,
        Message::PrepareOk {
            from: 1,
            view: 0,
            place: 3
        }
    )
}

#[test]
fn gives_the_packet_of_a_frame(rt: HostRuntime) -> Result<(), Fail> {
    let mut reader = FrameReader::new(rt.alloc())?;
    assert!(rt; gives_prepare_ok(&mut reader, PREPARE_OK));
    Ok(())
}

/// What comes of bytes that are fed in one piece, and of nothing that is fed after them.
pub fn comes(alloc: Global, bytes: &[u8]) -> (Came, Came) {
    let Ok(mut reader) = FrameReader::new(alloc) else {
        return (Came::Refused(40), Came::Refused(40));
    };
    let mut out = Vec::new(alloc);
    let first = fed(alloc, &mut reader, bytes, &mut out);
    let then = fed(alloc, &mut reader, &[], &mut out);
    (first, then)
}
