//! What is left where memory is refused. These tests are for runs in which one allocation fails; in any other run they
//! say no more than the rest.

use super::output::sent;
use super::spellings::{BODIES, OTHER_PACKETS, PACKETS, body_again, reads_first_entry};
use super::streams::{Came, fed, written};
use super::{Check, ENTRY, PREPARE, first_row, joined, packet_again, piece, three_frames};
use desk_codec::{get_body, get_entry, get_packet, put_body, put_entry, put_packet};
use desk_frames::{FrameReader, read_packets};
use desk_types::{Command, Entry, Packet};
use std::alloc::Global;
use tests_streams::{Sink, Source};

/// What stands in an output before something is put after it.
const BEFORE: &[u8] = b"before";

/// Whether the output holds these bytes after what stood in it.
fn is_behind(out: &[u8], bytes: &[u8]) -> bool {
    piece(out, 0, 6) == BEFORE && piece(out, 6, out.len()) == bytes
}

/// A value that has a spelling. What is done with it is generic over it: a proof takes longer where its type is known.
trait Spelled {
    /// Puts its bytes, unless memory is refused: whether it did.
    fn is_put(&self, out: &mut Vec<u8>) -> bool;
}

impl Spelled for Command {
    fn is_put(&self, out: &mut Vec<u8>) -> bool {
        put_body(self, out).is_ok()
    }
}

impl Spelled for Entry {
    fn is_put(&self, out: &mut Vec<u8>) -> bool {
        put_entry(self, out).is_ok()
    }
}

impl Spelled for Packet {
    fn is_put(&self, out: &mut Vec<u8>) -> bool {
        put_packet(self, out).is_ok()
    }
}

/// Whether a value is put; or memory is refused, the output is as it was, and the value is put when asked again.
fn is_put_at_last<T: Spelled + Drop>(alloc: Global, value: T, bytes: &[u8]) -> bool {
    let Ok(mut out) = joined(alloc, &[BEFORE]) else {
        return true;
    };
    let is_put = value.is_put(&mut out)
        || (is_behind(out.as_slice(), &[]) && value.is_put(&mut out));
    is_put && is_behind(out.as_slice(), bytes)
}

/// Whether a body is read and put so; or memory is refused, by `WantOfMemory`, and it is read when asked again.
pub fn is_body_done_or_undone(alloc: Global, body: &[u8]) -> bool {
    match get_body(alloc, body) {
        Ok(command) => is_put_at_last(alloc, command, body),
        Err(fault) => fault.refusal.number() == 40 && body_again(alloc, body) == 0,
    }
}

#[test]
fn a_body_is_done_or_undone(rt: HostRuntime) {
    assert!(rt; first_row(rt.alloc(), BODIES, Check::Body) == None);
}

/// As `is_body_done_or_undone`, of the first entry.
fn is_entry_done_or_undone(alloc: Global) -> bool {
    match get_entry(alloc, ENTRY) {
        Ok((entry, _)) => is_put_at_last(alloc, entry, ENTRY),
        Err(fault) => fault.refusal.number() == 40 && reads_first_entry(alloc, ENTRY),
    }
}

#[test]
fn an_entry_is_done_or_undone(rt: HostRuntime) {
    assert!(rt; is_entry_done_or_undone(rt.alloc()));
}

/// As `is_body_done_or_undone`.
pub fn is_packet_done_or_undone(alloc: Global, bytes: &[u8]) -> bool {
    match get_packet(alloc, bytes) {
        Ok(packet) => is_put_at_last(alloc, packet, bytes),
        Err(fault) => fault.refusal.number() == 40 && packet_again(alloc, bytes) == 0,
    }
}

#[test]
fn a_packet_is_done_or_undone(rt: HostRuntime) {
    assert!(rt; first_row(rt.alloc(), PACKETS, Check::Packet) == None);
}

/// Whether bytes that are no packet are refused by `FrameFault`, when asked again where memory is refused.
fn is_no_packet_at_last(alloc: Global, bytes: &[u8]) -> bool {
    match packet_again(alloc, bytes) {
        40 => packet_again(alloc, bytes) == 42,
        number => number == 42,
    }
}

/// Feeds a piece. Where memory is refused the stream is as it was: nothing comes of it by itself, and the same piece is
/// fed again.
fn fed_at_last(alloc: Global, reader: &mut FrameReader, piece: &[u8], out: &mut Vec<u8>) -> Came {
    match fed(alloc, reader, piece, out) {
        Came::Refused(40) => match fed(alloc, reader, &[], out) {
            Came::Packets(0) => fed(alloc, reader, piece, out),
            _ => Came::Refused(255),
        },
        came => came,
    }
}

/// Whether bytes that are fed in two pieces give at last the packets whose frames they are.
fn are_given_at_last(alloc: Global, bytes: &[u8], cut: usize) -> bool {
    let Ok(mut reader) = FrameReader::new(alloc) else {
        return true;
    };
    let mut out = Vec::new(alloc);
    for part in [piece(bytes, 0, cut), piece(bytes, cut, bytes.len())] {
        fed_at_last(alloc, &mut reader, part, &mut out);
    }
    out.as_slice() == bytes
}

#[test]
fn a_piece_is_fed_or_changes_nothing(rt: HostRuntime) {
    if let Ok(bytes) = three_frames(rt.alloc()) {
        for cut in [0, 3, 10, 23, 41, 113] {
            assert!(rt;
                are_given_at_last(rt.alloc(), bytes.as_slice(), cut),
                "{cut}"
            );
        }
    }
}

/// The same of a frame, for some cuts of it.
pub fn are_given_in_any_two(alloc: Global, frame: &[u8]) -> bool {
    for cut in [0, 5, frame.len() / 2, frame.len().saturating_sub(1)] {
        if !are_given_at_last(alloc, frame, cut) {
            return false;
        }
    }
    true
}

#[test]
fn a_frame_of_each_kind_is_fed_or_changes_nothing(rt: HostRuntime) {
    assert!(rt; first_row(rt.alloc(), PACKETS, Check::Fed) == None);
}

/// Whether these come at last of bytes that are fed in one piece, and of nothing after that.
fn come_at_last(alloc: Global, bytes: &[u8], wanted: (Came, Came)) -> bool {
    let Ok(mut reader) = FrameReader::new(alloc) else {
        return true;
    };
    let mut out = Vec::new(alloc);
    let first = fed_at_last(alloc, &mut reader, bytes, &mut out);
    let then = fed_at_last(alloc, &mut reader, &[], &mut out);
    (first, then) == wanted
}

const REFUSED: (Came, Came) = (Came::Refused(42), Came::Refused(42));

/// Whether bytes that are no packet are refused at last, and their frame too.
pub fn is_refused_at_last(alloc: Global, packet: &[u8], frame: &[u8]) -> bool {
    is_no_packet_at_last(alloc, packet) && come_at_last(alloc, frame, REFUSED)
}

#[test]
fn what_is_no_packet_is_refused_at_last(rt: HostRuntime) {
    assert!(rt; first_row(rt.alloc(), OTHER_PACKETS, Check::NoPacket) == None);
}

#[test]
fn a_fault_is_told_at_last(rt: HostRuntime) {
    let alloc = rt.alloc();
    let wanted = (Came::Packets(3), Came::Refused(42));
    if let Ok(mut bytes) = three_frames(alloc)
        && bytes.extend_from_slice(b"\0\0\0\x0a").is_ok()
    {
        assert!(rt; come_at_last(alloc, bytes.as_slice(), wanted));
    }
}

/// Whether a packet is written to a writer that has room; or memory is refused, nothing is sent, and it is written when
/// asked again.
fn is_sent_or_not_begun(alloc: Global, sink: &mut Sink, packet: &Packet) -> bool {
    match sent(alloc, sink, packet, 75) {
        (40, 0) => sink.bytes.is_empty() && sent(alloc, sink, packet, 75) == (0, 75),
        answer => answer == (0, 75),
    }
}

/// The same of the packet of a frame, as far as memory for it is there.
fn is_frame_sent_or_not_begun(alloc: Global, frame: &[u8], bytes: Vec<u8>) -> bool {
    let mut sink = Sink::in_pieces(bytes, 10);
    sink.room = 75;
    match get_packet(alloc, piece(frame, 4, 75)) {
        Ok(packet) => {
            let is_done = is_sent_or_not_begun(alloc, &mut sink, &packet);
            drop(packet);
            is_done && sink.bytes.as_slice() == frame
        }
        Err(_) => true,
    }
}

#[test]
fn a_packet_is_written_or_not_begun(rt: HostRuntime) {
    let alloc = rt.alloc();
    if let Ok(frame) = joined(alloc, &[PREPARE, ENTRY])
        && let Ok(room) = Vec::with_capacity(alloc, 75)
    {
        assert!(rt; is_frame_sent_or_not_begun(alloc, frame.as_slice(), room));
    }
}

/// Reads a source once, and writes the frames of the packets that came.
fn read_once(
    alloc: Global,
    source: &mut Source<'_>,
    reader: &mut FrameReader,
    out: &mut Vec<u8>,
) -> Came {
    match read_packets(source, reader) {
        Ok(Some(packets)) => written(alloc, packets.as_slice(), out),
        Ok(None) => Came::End,
        Err(refusal) => Came::Refused(refusal.number()),
    }
}

/// The same; and once more where memory is refused, by which nothing more of the source is taken.
fn read_at_last(
    alloc: Global,
    source: &mut Source<'_>,
    reader: &mut FrameReader,
    out: &mut Vec<u8>,
) -> Came {
    let first = read_once(alloc, source, reader, out);
    if first != Came::Refused(40) {
        return first;
    }
    let left = source.bytes.len();
    let then = read_once(alloc, source, reader, out);
    if source.bytes.len() == left {
        then
    } else {
        Came::Refused(255)
    }
}

/// Whether a source is read to its end, and gives at last the packets whose frames its bytes are.
fn is_read_at_last(alloc: Global, bytes: &[u8], most: usize) -> bool {
    let Ok(mut reader) = FrameReader::new(alloc) else {
        return true;
    };
    let mut source = Source::in_pieces(bytes, most);
    let mut out = Vec::new(alloc);
    for _ in 0..1_000 {
        match read_at_last(alloc, &mut source, &mut reader, &mut out) {
            Came::Packets(_) => {}
            came => return came == Came::End && out.as_slice() == bytes,
        }
    }
    false
}

#[test]
fn a_source_is_read_to_its_end_at_last(rt: HostRuntime) {
    if let Ok(bytes) = three_frames(rt.alloc()) {
        for most in [1, 10, 1_000] {
            assert!(rt;
                is_read_at_last(rt.alloc(), bytes.as_slice(), most),
                "{most}"
            );
        }
    }
}
