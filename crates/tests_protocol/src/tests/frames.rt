//! The frames of what nodes send in five runs of a group: a commit, a view change, a backup that catches up, so that
//! every kind of packet is among them, a node that starts again between two views, and two views of five nodes. No
//! front of a frame gives a packet or a fault, and a byte too many is one.

use super::{domain, entry};
use desk_frames::{FrameReader, write_packet};
use desk_types::Packet;
use desk_world::{EventOutput, WorldEvent, run};
use std::alloc::Global;

/// What happens in a group.
#[derive(Clone, Copy)]
enum Happens {
    /// A request comes to a node, of a client, by its number.
    Request(u64, u64, u64),
    Deliver(u64),
    Suspect(u64),
    Restart(u64),
}

/// The numbers that begin packets, of their kind and of the node that sends them, and how many begin so in a row.
type Heads = (u8, u8, u8);

/// How many nodes a group has, what happens, and the packets that are then sent, in their order.
type Run = (u8, &'static [Happens], &'static [Heads]);

const COMMIT: Run = (
    3,
    &[
        Happens::Request(0, 7, 1),
        Happens::Deliver(2),
        Happens::Deliver(3),
        Happens::Deliver(4),
        Happens::Deliver(4),
    ],
    &[(2, 0, 1), (1, 0, 2), (2, 1, 1), (2, 2, 1), (3, 0, 2)],
);

const VIEW_CHANGE: Run = (
    3,
    &[
        Happens::Request(0, 7, 1),
        Happens::Deliver(2),
        Happens::Deliver(4),
        Happens::Suspect(2),
        Happens::Deliver(8),
        Happens::Deliver(10),
        Happens::Deliver(12),
    ],
    &[
        (2, 0, 1),
        (1, 0, 2),
        (2, 1, 1),
        (3, 0, 2),
        (4, 2, 2),
        (4, 1, 2),
        (5, 1, 1),
        (5, 2, 1),
        (2, 1, 1),
        (6, 1, 2),
    ],
);

const CATCH_UP: Run = (
    3,
    &[
        Happens::Request(0, 7, 1),
        Happens::Request(0, 7, 2),
        Happens::Deliver(5),
        Happens::Deliver(7),
        Happens::Deliver(8),
        Happens::Deliver(9),
    ],
    &[
        (2, 0, 1),
        (1, 0, 2),
        (2, 0, 1),
        (1, 0, 2),
        (7, 1, 1),
        (8, 0, 1),
        (2, 1, 1),
        (3, 0, 2),
    ],
);

/// A view change, and another in which a node starts again: 28 packets, as in `examples/world-restart.out`.
const RESTART: Run = (
    3,
    &[
        Happens::Request(0, 7, 1),
        Happens::Deliver(3),
        Happens::Deliver(4),
        Happens::Suspect(1),
        Happens::Deliver(7),
        Happens::Deliver(9),
        Happens::Deliver(11),
        Happens::Request(1, 8, 1),
        Happens::Deliver(18),
        Happens::Restart(2),
        Happens::Suspect(0),
        Happens::Deliver(21),
        Happens::Deliver(22),
        Happens::Deliver(25),
    ],
    &[
        (2, 0, 1),
        (1, 0, 2),
        (2, 2, 1),
        (3, 0, 2),
        (4, 1, 2),
        (4, 0, 2),
        (5, 0, 1),
        (5, 1, 1),
        (2, 1, 1),
        (6, 1, 2),
        (2, 1, 1),
        (1, 1, 2),
        (7, 2, 1),
        (4, 0, 2),
        (4, 2, 2),
        (5, 2, 1),
        (5, 0, 1),
        (2, 2, 1),
        (6, 2, 2),
    ],
);

/// Two views of five nodes: 62 packets, as in `tests/world/later-view-wins.out`.
const LATER_VIEW: Run = (
    5,
    &[
        Happens::Request(0, 7, 1),
        Happens::Request(0, 7, 2),
        Happens::Request(0, 7, 3),
        Happens::Suspect(1),
        Happens::Deliver(17),
        Happens::Deliver(18),
        Happens::Deliver(21),
        Happens::Deliver(25),
        Happens::Deliver(22),
        Happens::Deliver(26),
        Happens::Deliver(29),
        Happens::Deliver(30),
        Happens::Deliver(33),
        Happens::Request(1, 8, 1),
        Happens::Deliver(39),
        Happens::Suspect(2),
        Happens::Deliver(43),
        Happens::Deliver(46),
        Happens::Deliver(48),
        Happens::Deliver(53),
        Happens::Deliver(51),
        Happens::Deliver(50),
        Happens::Deliver(56),
        Happens::Deliver(57),
    ],
    &[
        (2, 0, 1),
        (1, 0, 4),
        (2, 0, 1),
        (1, 0, 4),
        (2, 0, 1),
        (1, 0, 4),
        (4, 1, 4),
        (4, 2, 4),
        (4, 3, 4),
        (5, 1, 1),
        (5, 3, 1),
        (5, 2, 1),
        (2, 1, 1),
        (6, 1, 4),
        (2, 2, 1),
        (2, 1, 1),
        (1, 1, 4),
        (2, 2, 1),
        (4, 2, 4),
        (4, 0, 4),
        (4, 4, 4),
        (5, 2, 1),
        (5, 0, 1),
        (5, 4, 1),
        (2, 2, 1),
        (6, 2, 4),
    ],
);

fn events_of(alloc: Global, happens: &[Happens]) -> Option<Vec<WorldEvent>> {
    let mut events = Vec::new(alloc);
    for &happens in happens {
        let event = match happens {
            Happens::Request(node, client, number) => {
                WorldEvent::Request(node, entry(alloc, client, number)?)
            }
            Happens::Deliver(packet) => WorldEvent::Deliver(packet),
            Happens::Suspect(node) => WorldEvent::Suspect(node),
            Happens::Restart(node) => WorldEvent::Restart(node),
        };
        events.push(event).ok()?;
    }
    Some(events)
}

/// Puts the frames of packets after others.
fn put_frames(alloc: Global, packets: &[(u8, Packet)], frames: &mut Vec<Vec<u8>>) -> Option<()> {
    for sent in packets {
        let mut frame = Vec::new(alloc);
        write_packet(alloc, &mut frame, &sent.1).ok()?;
        frames.push(frame).ok()?;
    }
    Some(())
}

fn frames_of(alloc: Global, outputs: &[EventOutput]) -> Option<Vec<Vec<u8>>> {
    let mut frames = Vec::new(alloc);
    for output in outputs {
        put_frames(alloc, output.packets.as_slice(), &mut frames)?;
    }
    Some(frames)
}

/// The frames of all packets that are sent in a run of so many nodes.
fn frames_sent(alloc: Global, n: u8, happens: &[Happens]) -> Option<Vec<Vec<u8>>> {
    if n % 2 != 1 || n < 3 {
        return None;
    }
    let events = events_of(alloc, happens)?;
    let report = run(alloc, n, domain(alloc)?, events.as_slice()).ok()?;
    let frames = frames_of(alloc, report.events.as_slice());
    drop(report);
    frames
}

/// How many packets a piece gives, or 100 more than the number of its refusal.
fn given(reader: &mut FrameReader, piece: &[u8]) -> usize {
    match reader.feed(piece) {
        Ok(packets) => packets.len(),
        Err(fault) => 100 + fault.refusal.number() as usize,
    }
}

/// What a new stream gives for a piece, and then for another.
fn given_in_two(alloc: Global, first: &[u8], second: &[u8]) -> (usize, usize) {
    let Ok(mut reader) = FrameReader::new(alloc) else {
        return (140, 140);
    };
    let before = given(&mut reader, first);
    (before, given(&mut reader, second))
}

/// The first length at which the front of a frame gives something, or after which the rest does not give one packet.
fn wrong_front(alloc: Global, frame: &[u8]) -> Option<usize> {
    for length in 0..frame.len() {
        let (front, rest) = frame.split_at(length);
        if given_in_two(alloc, front, rest) != (0, 1) {
            return Some(length);
        }
    }
    None
}

/// A frame of fewer than 65,536 bytes with a byte after it that its length counts.
fn longer(alloc: Global, frame: &[u8], byte: u8) -> Option<Vec<u8>> {
    let (_, packet) = frame.split_at(frame.len().min(4));
    let length = packet.len().saturating_add(1);
    let mut bytes = Vec::new(alloc);
    bytes
        .extend_from_slice(&[0, 0, (length / 256 % 256) as u8, (length % 256) as u8])
        .ok()?;
    bytes.extend_from_slice(packet).ok()?;
    bytes.push(byte).ok()?;
    Some(bytes)
}

/// Whether a frame that is longer by any byte is a fault, then and later.
fn is_fault_when_longer(alloc: Global, frame: &[u8]) -> Option<bool> {
    for byte in 0..=255 {
        let bytes = longer(alloc, frame, byte)?;
        if given_in_two(alloc, bytes.as_slice(), &[]) != (142, 142) {
            return Some(false);
        }
    }
    Some(true)
}

/// Whether a frame's packet begins so, each front of it gives nothing, and it is a fault with a byte more.
fn is_as_it_should(alloc: Global, frame: &[u8], heads: Heads) -> bool {
    frame.get(5) == Some(&heads.0)
        && frame.get(6) == Some(&heads.1)
        && wrong_front(alloc, frame) == None
        && is_fault_when_longer(alloc, frame) == Some(true)
}

/// The first of some frames, counted from 1, that is not as it should be; the number after the last, where there are
/// fewer or more.
fn first_wrong_of(alloc: Global, frames: &[Vec<u8>], all: &[Heads]) -> Option<usize> {
    let mut number = 0usize;
    for heads in all {
        for _ in 0..heads.2 {
            let frame = frames.get(number);
            number = number.wrapping_add(1);
            let is_well = match frame {
                Some(frame) => is_as_it_should(alloc, frame.as_slice(), *heads),
                None => false,
            };
            if !is_well {
                return Some(number);
            }
        }
    }
    if frames.len() == number {
        None
    } else {
        Some(number.wrapping_add(1))
    }
}

/// The same of the frames of a run; 0 where it can't be made.
fn first_wrong(alloc: Global, run: &Run) -> Option<usize> {
    match frames_sent(alloc, run.0, run.1) {
        Some(frames) => first_wrong_of(alloc, frames.as_slice(), run.2),
        None => Some(0),
    }
}

/// The runs.
const RUNS: &[&Run] = &[&COMMIT, &VIEW_CHANGE, &CATCH_UP, &RESTART, &LATER_VIEW];

#[test]
fn fronts_of_frames_give_nothing(rt: HostRuntime) {
    for (index, run) in RUNS.iter().enumerate() {
        assert!(rt; first_wrong(rt.alloc(), run) == None, "{index}");
    }
}
