//! Values as bytes, and frames on a stream.

mod drawn;
mod fronts;
mod generated;
mod heap;
mod input;
mod memory;
mod output;
mod pieces;
mod spellings;
mod streams;

use desk_codec::{get_packet, put_packet};
use desk_types::Packet;
use std::alloc::{AllocError, Global};

/// An entry of 44 bytes: client 7 opens, by its number 1, a `fire` at `12 Elm St`, without incident and call.
const ENTRY: &[u8] =
    b"\0\0\0\0\0\0\0\x07\0\0\0\0\0\0\0\x01\0\x1a\x01\0\0\0\0\x69\xa4\x2a\x40\x04fire\x0912 Elm St\0\0";

/// The frame of a PrepareOk of node 1, view 0, place 3.
const PREPARE_OK: &[u8] = b"\0\0\0\x13\x01\x02\x01\0\0\0\0\0\0\0\0\0\0\0\0\0\0\0\x03";

/// The frame of a StartViewChange of node 2, view 1.
const START_VIEW_CHANGE: &[u8] = b"\0\0\0\x0b\x01\x04\x02\0\0\0\0\0\0\0\x01";

/// What a Prepare of the entry begins with: its length, node 0, view 0, place 1, commit 0.
const PREPARE: &[u8] = b"\0\0\0\x47\x01\x01\0\0\0\0\0\0\0\0\0\0\0\0\0\0\0\0\x01\0\0\0\0\0\0\0\0";

/// The parts, one after the other.
fn joined(alloc: Global, parts: &[&[u8]]) -> Result<Vec<u8>, AllocError> {
    let mut bytes = Vec::new(alloc);
    for part in parts {
        bytes.extend_from_slice(part)?;
    }
    Ok(bytes)
}

/// The frame of a packet of fewer than 65,536 bytes.
fn framed(alloc: Global, packet: &[u8]) -> Result<Vec<u8>, AllocError> {
    let high = (packet.len() / 256 % 256) as u8;
    let low = (packet.len() % 256) as u8;
    joined(alloc, &[&[0, 0, high, low], packet])
}

/// Three frames.
fn three_frames(alloc: Global) -> Result<Vec<u8>, AllocError> {
    joined(alloc, &[PREPARE_OK, START_VIEW_CHANGE, PREPARE, ENTRY])
}

/// The bytes from one place to another, as far as they are there.
fn piece(bytes: &[u8], from: usize, to: usize) -> &[u8] {
    let (before, _) = bytes.split_at(to.min(bytes.len()));
    let (_, piece) = before.split_at(from.min(before.len()));
    piece
}

/// Whether a packet is written as these bytes: 0 where it is, 40 where memory was refused, else 255.
fn put_again(alloc: Global, packet: &Packet, bytes: &[u8]) -> u8 {
    let mut again = Vec::new(alloc);
    match put_packet(packet, &mut again) {
        Err(_) => 40,
        Ok(()) => { if again.as_slice() == bytes { 0 } else { 255 } }
    }
}

// Here and elsewhere a packet, an entry or a command is dropped by a call: a proof takes far longer where the end of a
// function drops it.
/// Reads a packet and writes it again: the number of the refusal, or 0 where the same bytes were written.
fn packet_again(alloc: Global, bytes: &[u8]) -> u8 {
    match get_packet(alloc, bytes) {
        Err(fault) => fault.refusal.number(),
        Ok(packet) => {
            let answer = put_again(alloc, &packet, bytes);
            drop(packet);
            answer
        }
    }
}

/// What is asked of each row of a table of bytes.
#[derive(Clone, Copy)]
enum Check {
    /// They are no body, and are refused by `FrameFault`.
    NoBody,
    /// They are a body, or a packet, which is done or undone.
    Body,
    Packet,
    /// They are a packet, and its copy too.
    Copied,
    /// They are a packet, and with any byte changed none, or another.
    Changed,
    /// They are a frame that is given wherever it is cut.
    Cut,
    /// Their frame is given, and nothing with another length.
    Length,
    /// Their frame is given in two pieces, at last where memory is refused.
    Fed,
    /// They are no packet, and are refused at last, their frame too.
    NoPacket,
}

/// Whether it holds of the frame of a packet, as far as memory for that is there.
fn holds_of_frame(alloc: Global, check: Check, packet: &[u8]) -> bool {
    let Ok(mut frame) = framed(alloc, packet) else {
        return true;
    };
    match check {
        Check::Length => generated::is_none_of_another_length(alloc, &mut frame),
        Check::Fed => memory::are_given_in_any_two(alloc, frame.as_slice()),
        _ => memory::is_refused_at_last(alloc, packet, frame.as_slice()),
    }
}

/// Whether it holds of bytes.
fn holds(alloc: Global, check: Check, bytes: &mut Vec<u8>) -> bool {
    match check {
        Check::NoBody => spellings::body_again(alloc, bytes.as_slice()) == 42,
        Check::Body => memory::is_body_done_or_undone(alloc, bytes.as_slice()),
        Check::Packet => memory::is_packet_done_or_undone(alloc, bytes.as_slice()),
        Check::Copied => spellings::copied_again(alloc, bytes.as_slice()) == 0,
        Check::Changed => generated::is_refused_when_changed(alloc, bytes),
        Check::Cut => pieces::is_given_cut_anywhere(alloc, bytes.as_slice()),
        _ => holds_of_frame(alloc, check, bytes.as_slice()),
    }
}

/// The first row, counted from 0, of which it does not hold. Where memory for a row is refused nothing is asked of it.
fn first_row(alloc: Global, rows: &[&[&[u8]]], check: Check) -> Option<usize> {
    for (index, parts) in rows.iter().enumerate() {
        if let Ok(mut bytes) = joined(alloc, parts)
            && !holds(alloc, check, &mut bytes)
        {
            return Some(index);
        }
    }
    None
}
