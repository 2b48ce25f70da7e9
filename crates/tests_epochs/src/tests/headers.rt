//! Headers of connections between nodes: streams that are read, and what connections carry.

use desk_mailbox::{Item, Sender, Taker, open_mailbox};
use desk_peers::{Connect, EpochPlaces, PacketWatch, PeerLink, take_packets};
use desk_types::limits::LOG_ENTRIES;
use desk_types::{EpochPacket, Message, Packet, Purpose};
use std::alloc::Global;
use std::sync::Wait;
use tests_streams::{Sink, Source};

/// The frame of a GetState of node 1 in view 0 after place 5.
const FRAME: &[u8] = b"\0\0\0\x13\x01\x07\x01\0\0\0\0\0\0\0\0\0\0\0\0\0\0\0\x05";
/// Headers of steps of epoch 1, of asks of epoch 3, and of tells of epoch 2.
const STEP_1: &[u8] = b"\xff\xff\xff\x03\0\0\0\0\0\0\0\0\x01";

const ASK_3: &[u8] = b"\xff\xff\xff\x03\x01\0\0\0\0\0\0\0\x03";

const TELL_2: &[u8] = b"\xff\xff\xff\x03\x02\0\0\0\0\0\0\0\x02";
/// No headers: one of a fourth purpose, and that of the first epoch's steps.
const NO_PURPOSE: &[u8] = b"\xff\xff\xff\x03\x03\0\0\0\0\0\0\0\x01";

const STEP_0: &[u8] = b"\xff\xff\xff\x03\0\0\0\0\0\0\0\0\0";
/// Headers where epochs have 16 places: of steps of epochs 0 and 1, of asks of epoch 3, and of tells of epoch 2.
const STEP_0_OF_16: &[u8] = b"\xff\xfe\0\x10\0\0\0\0\0\0\0\0\0";

const STEP_1_OF_16: &[u8] = b"\xff\xfe\0\x10\0\0\0\0\0\0\0\0\x01";

const ASK_3_OF_16: &[u8] = b"\xff\xfe\0\x10\x01\0\0\0\0\0\0\0\x03";

const TELL_2_OF_16: &[u8] = b"\xff\xfe\0\x10\x02\0\0\0\0\0\0\0\x02";
/// Where they have 65,535.
const STEP_0_OF_65535: &[u8] = b"\xff\xfe\xff\xff\0\0\0\0\0\0\0\0\0";

/// The packets that a mailbox has room for.
const ROOM: usize = 4;

/// How many packets were put, the epoch and the purpose of the last, and the number of the refusal, or 0.
type Told = (usize, u64, Purpose, u8);

/// Sees no packets.
struct Unwatched;

impl PacketWatch for Unwatched {
    fn see(&self, _packet: &EpochPacket) {}
}

/// Epochs of so many places, or of all where these are more.
fn epochs_of(places: u64) -> EpochPlaces {
    let places = if places < LOG_ENTRIES {
        places
    } else {
        LOG_ENTRIES
    };
    EpochPlaces { places }
}

/// Reads a stream that gives so many bytes at a time, and gives the number of the refusal, or 0.
fn read_stream<R: Wait>(
    rt: &R,
    alloc: Global,
    places: u64,
    sender: Sender<Item>,
    bytes: &[u8],
    most: usize,
) -> (Sender<Item>, u8) {
    let mut source = Source::in_pieces(bytes, most);
    let (sender, outcome) = take_packets(
        rt,
        &Unwatched,
        alloc,
        epochs_of(places),
        Some(1),
        &mut source,
        sender,
    );
    match outcome {
        Ok(()) => (sender, 0),
        Err(refusal) => (sender, refusal.number()),
    }
}

/// What a mailbox holds after a refusal of this number.
fn held<R: Wait>(rt: &R, taker: Taker<Item>, refusal: u8) -> Told {
    let mut taker = taker;
    let mut last = (0, 0, Purpose::Step, refusal);
    for count in 1..=ROOM {
        let (back, taken) = taker.try_take(rt);
        taker = back;
        let Some(sent) = taken else {
            return last;
        };
        if let Item::Packet(packet) = &sent.item {
            last = (count, packet.epoch, packet.purpose, refusal);
        }
        drop(sent);
    }
    last
}

/// What comes of streams that give so many bytes at a time, one after the other, where those before the last are read
/// to their ends.
fn told<R: Wait>(
    rt: &R,
    alloc: Global,
    places: u64,
    streams: &[&[u8]],
    most: usize,
) -> Option<Told> {
    let (taker, mut senders) = open_mailbox::<Item>(alloc, ROOM, 1).ok()?;
    let mut sender = senders.pop()?;
    let mut refusal = 0;
    for bytes in streams {
        let (back, number) = read_stream(rt, alloc, places, sender, bytes, most);
        sender = back;
        refusal = number;
    }
    drop(sender);
    Some(held(rt, taker, refusal))
}

fn joined(alloc: Global, parts: &[&[u8]]) -> Option<Vec<u8>> {
    let mut bytes = Vec::new(alloc);
    for part in parts {
        bytes.extend_from_slice(part).ok()?;
    }
    Some(bytes)
}

/// The places of an epoch, a stream, and what comes of it.
type Row = (u64, &'static [&'static [u8]], Told);

const STREAMS: &[Row] = &[
    (LOG_ENTRIES, &[], (0, 0, Purpose::Step, 0)),
    (LOG_ENTRIES, &[FRAME, FRAME], (2, 0, Purpose::Step, 0)),
    (
        LOG_ENTRIES,
        &[STEP_1, FRAME, FRAME],
        (2, 1, Purpose::Step, 0),
    ),
    (LOG_ENTRIES, &[ASK_3, FRAME], (1, 3, Purpose::Ask, 0)),
    (LOG_ENTRIES, &[ASK_3], (0, 0, Purpose::Step, 0)),
    // A GetState is no tell.
    (LOG_ENTRIES, &[TELL_2, FRAME], (0, 0, Purpose::Step, 0)),
    (LOG_ENTRIES, &[NO_PURPOSE, FRAME], (0, 0, Purpose::Step, 42)),
    (LOG_ENTRIES, &[STEP_0, FRAME], (0, 0, Purpose::Step, 42)),
    // A header stands at the beginning alone.
    (
        LOG_ENTRIES,
        &[ASK_3, ASK_3, FRAME],
        (0, 0, Purpose::Step, 42),
    ),
    (
        LOG_ENTRIES,
        &[FRAME, ASK_3, FRAME],
        (1, 0, Purpose::Step, 42),
    ),
    (
        LOG_ENTRIES,
        &[ASK_3, FRAME, STEP_1],
        (1, 3, Purpose::Ask, 42),
    ),
];

/// Whether a row comes true of streams that give 1 to 5 bytes at a time, or all.
fn is_told<R: Wait>(rt: &R, alloc: Global, row: &Row) -> bool {
    let Some(bytes) = joined(alloc, row.1) else {
        return false;
    };
    for most in [1, 2, 3, 4, 5, 100] {
        if told(rt, alloc, row.0, &[bytes.as_slice()], most) != Some(row.2) {
            return false;
        }
    }
    true
}

/// The first row, counted from 1, that does not come true.
fn first_other_stream<R: Wait>(rt: &R, alloc: Global, rows: &[Row]) -> Option<usize> {
    for (index, row) in rows.iter().enumerate() {
        if !is_told(rt, alloc, row) {
            return Some(index + 1);
        }
    }
    None
}

#[test]
fn a_stream_is_of_its_header(rt: HostRuntime) {
    let alloc = rt.alloc();
    assert!(rt; first_other_stream(&rt, alloc, STREAMS) == None);
}

const OTHER_PLACES: &[Row] = &[
    (16, &[], (0, 0, Purpose::Step, 0)),
    (16, &[STEP_0_OF_16, FRAME, FRAME], (2, 0, Purpose::Step, 0)),
    (16, &[ASK_3_OF_16, FRAME], (1, 3, Purpose::Ask, 0)),
    (65_535, &[STEP_0_OF_65535, FRAME], (1, 0, Purpose::Step, 0)),
    // Each connection has a header,
    (16, &[FRAME], (0, 0, Purpose::Step, 42)),
    (65_535, &[FRAME], (0, 0, Purpose::Step, 42)),
    // which is of the same places.
    (16, &[STEP_0, FRAME], (0, 0, Purpose::Step, 42)),
    (16, &[STEP_1, FRAME], (0, 0, Purpose::Step, 42)),
    (17, &[STEP_0_OF_16, FRAME], (0, 0, Purpose::Step, 42)),
    (16, &[STEP_0_OF_65535, FRAME], (0, 0, Purpose::Step, 42)),
    (
        LOG_ENTRIES,
        &[STEP_0_OF_16, FRAME],
        (0, 0, Purpose::Step, 42),
    ),
    (
        LOG_ENTRIES,
        &[ASK_3_OF_16, FRAME],
        (0, 0, Purpose::Step, 42),
    ),
    (
        LOG_ENTRIES,
        &[STEP_0_OF_65535, FRAME],
        (0, 0, Purpose::Step, 42),
    ),
];

#[test]
fn a_stream_of_other_places_is_refused(rt: HostRuntime) {
    let alloc = rt.alloc();
    assert!(rt; first_other_stream(&rt, alloc, OTHER_PLACES) == None);
}

/// What comes of a header and a frame that end after so many bytes.
fn cut(count: usize) -> Told {
    match count {
        0 | 13 => (0, 0, Purpose::Step, 0),
        36 => (1, 3, Purpose::Ask, 0),
        _ => (0, 0, Purpose::Step, 43),
    }
}

/// The first count of bytes after which a header and a frame end, and something else comes of it.
fn first_other_cut<R: Wait>(rt: &R, alloc: Global) -> Option<usize> {
    let Some(bytes) = joined(alloc, &[ASK_3, FRAME]) else {
        return Some(0);
    };
    for count in 0..=bytes.len() {
        let (front, _) = bytes.as_slice().split_at(count);
        if told(rt, alloc, LOG_ENTRIES, &[front], 100) != Some(cut(count)) {
            return Some(count);
        }
    }
    None
}

#[test]
fn a_stream_ends_between_its_parts(rt: HostRuntime) {
    let alloc = rt.alloc();
    assert!(rt; first_other_cut(&rt, alloc) == None);
}

#[test]
fn a_header_holds_for_its_connection_alone(rt: HostRuntime) {
    let alloc = rt.alloc();
    assert!(rt;
        told(&rt, alloc, LOG_ENTRIES, &[STEP_1, FRAME], 100) == Some((1, 0, Purpose::Step, 0))
    );
    assert!(rt;
        told(&rt, alloc, LOG_ENTRIES, &[FRAME, ASK_3, FRAME], 100) == Some((2, 0, Purpose::Step, 0))
    );
}

/// Connections to a node, which are in memory.
#[derive(Drop)]
struct Connections {
    alloc: Global,
    closed: Vec<Sink>,
}

impl Connect for Connections {
    type Connection = Sink;

    fn connect(&mut self) -> Option<Sink> {
        Some(Sink::whole(Vec::new(self.alloc)))
    }

    fn keeps(&mut self) -> bool {
        true
    }

    fn close(&mut self, connection: Sink) {
        if let Err(failed) = self.closed.push(connection) {
            drop(failed);
        }
    }
}

fn get_state(epoch: u64, purpose: Purpose) -> Option<EpochPacket> {
    let message = Message::GetState {
        from: 1,
        view: 0,
        base: 5,
    };
    if !message.is_in_range() {
        drop(message);
        return None;
    }
    Some(EpochPacket {
        epoch,
        purpose,
        packet: Packet::new(message),
    })
}

/// Packets that are sent one after the other, and what each connection carried.
const SENT: &[(u64, Purpose)] = &[
    (0, Purpose::Step),
    (0, Purpose::Step),
    (3, Purpose::Ask),
    (3, Purpose::Ask),
    (2, Purpose::Tell),
    (1, Purpose::Step),
    (0, Purpose::Step),
];

const CARRIED: &[&[&[u8]]] = &[
    &[FRAME, FRAME],
    &[ASK_3, FRAME, FRAME],
    &[TELL_2, FRAME],
    &[STEP_1, FRAME],
    &[FRAME],
];

const CARRIED_OF_16: &[&[&[u8]]] = &[
    &[STEP_0_OF_16, FRAME, FRAME],
    &[ASK_3_OF_16, FRAME, FRAME],
    &[TELL_2_OF_16, FRAME],
    &[STEP_1_OF_16, FRAME],
    &[STEP_0_OF_16, FRAME],
];

fn sent_packets(alloc: Global) -> Option<Vec<EpochPacket>> {
    let mut packets = Vec::new(alloc);
    for row in SENT {
        packets.push(get_state(row.0, row.1)?).ok()?;
    }
    Some(packets)
}

/// The connections over which the packets went.
fn carried(alloc: Global, places: u64) -> Option<Vec<Sink>> {
    let packets = sent_packets(alloc)?;
    let mut link = PeerLink::new(Connections {
        alloc,
        closed: Vec::new(alloc),
    });
    for packet in packets.as_slice() {
        let (next, _) = link.send(alloc, epochs_of(places), packet);
        link = next;
    }
    let Connections { alloc: _, closed } = link.close();
    Some(closed)
}

/// The first connection, counted from 1, that carried something else.
fn first_other_connection(alloc: Global, places: u64, rows: &[&[&[u8]]]) -> Option<usize> {
    let Some(sinks) = carried(alloc, places) else {
        return Some(0);
    };
    for (index, parts) in rows.iter().enumerate() {
        match (sinks.get(index), joined(alloc, parts)) {
            (Some(sink), Some(bytes)) => {
                if sink.sent() != bytes.as_slice() {
                    return Some(index + 1);
                }
            }
            _ => return Some(index + 1),
        }
    }
    None
}

#[test]
fn a_connection_carries_packets_of_one_header(rt: HostRuntime) {
    let alloc = rt.alloc();
    assert!(rt; first_other_connection(alloc, LOG_ENTRIES, CARRIED) == None);
    assert!(rt; first_other_connection(alloc, 16, CARRIED_OF_16) == None);
}
