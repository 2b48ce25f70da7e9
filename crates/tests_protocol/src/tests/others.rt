//! Packets of view changes and of state transfer.

use super::put_request;
use desk_codec::get_packet;
use desk_types::Packet;
use desk_types::limits::{LAST_VIEW, LOG_ENTRIES};
use std::alloc::{AllocError, Global};

/// The most entries of a log.
pub const MOST: u32 = LOG_ENTRIES as u32;

/// Packets, by the numbers in them. The first is the sender.
#[derive(Clone, Copy)]
pub enum Other {
    /// Its view and place. The entry is a request of client 7, and the commit is 0.
    Prepare(u8, u8, u8),
    /// Its view and place.
    PrepareOk(u8, u8, u8),
    /// Its view and commit.
    Commit(u8, u8, u32),
    /// Its view.
    StartViewChange(u8, u8),
    /// Its view, log and commit. The node was normal in view 0 last.
    DoViewChange(u8, u8, Requests, u8),
    /// An offer of no entry for the last view that there is. The node was normal in view 0 last.
    OfferOfLastView(u8),
    /// Its view, log and commit.
    StartView(u8, u8, Requests, u8),
    /// Its view and base.
    GetState(u8, u8, u8),
    /// Its view, base, entries and commit.
    NewState(u8, u8, u8, Requests, u8),
}

/// Requests of a client, numbered from 1: those after so many, and how many they are.
#[derive(Clone, Copy)]
pub struct Requests(pub u64, pub u8, pub u8);

/// What a packet's bytes are made of.
#[derive(Clone, Copy)]
pub struct Parts {
    pub kind: u8,
    pub from: u8,
    /// The numbers after the kind and the sender, of which `count` are told.
    pub numbers: [u64; 3],
    pub count: usize,
    /// The entries after the numbers.
    pub requests: Requests,
}

const NO_REQUESTS: Requests = Requests(7, 0, 0);

/// The parts of a packet without entries.
pub fn short(kind: u8, from: u8, view: u64, number: u64) -> Parts {
    Parts {
        kind,
        from,
        numbers: [view, number, 0],
        count: if kind == 4 { 1 } else { 2 },
        requests: NO_REQUESTS,
    }
}

/// The parts of a packet with entries.
pub fn long(kind: u8, from: u8, numbers: [u64; 3], requests: Requests) -> Parts {
    Parts {
        kind,
        from,
        numbers,
        count: if kind == 6 { 2 } else { 3 },
        requests,
    }
}

fn parts_of(other: Other) -> Parts {
    match other {
        Other::Prepare(from, view, place) => {
            let before = place.saturating_sub(1);
            let numbers = [view as u64, place.max(1) as u64, 0];
            long(1, from, numbers, Requests(7, before, 1))
        }
        Other::PrepareOk(from, view, place) => short(2, from, view as u64, place as u64),
        Other::Commit(from, view, commit) => short(3, from, view as u64, commit as u64),
        Other::StartViewChange(from, view) => short(4, from, view as u64, 0),
        Other::DoViewChange(from, view, log, commit) => {
            long(5, from, [view as u64, 0, commit as u64], log)
        }
        Other::OfferOfLastView(from) => long(5, from, [LAST_VIEW, 0, 0], NO_REQUESTS),
        Other::StartView(from, view, log, commit) => {
            long(6, from, [view as u64, commit as u64, 0], log)
        }
        Other::GetState(from, view, base) => short(7, from, view as u64, base as u64),
        Other::NewState(from, view, base, log, commit) => {
            long(8, from, [view as u64, base as u64, commit as u64], log)
        }
    }
}

/// Puts numbers after other bytes, eight bytes each.
pub fn put_numbers(bytes: &mut Vec<u8>, numbers: &[u64]) -> Result<(), AllocError> {
    for number in numbers {
        bytes.extend_from_slice(&number.to_be_bytes())?;
    }
    Ok(())
}

/// Puts requests after other bytes, and before them, where they are a log, how many they are.
fn put_requests(bytes: &mut Vec<u8>, kind: u8, requests: Requests) -> Result<(), AllocError> {
    let Requests(client, after, count) = requests;
    if kind == 5 || kind == 6 || kind == 8 {
        bytes.extend_from_slice(&[0, 0, 0, count])?;
    }
    for k in 0..count {
        put_request(bytes, (client, after as u64 + k as u64 + 1))?;
    }
    Ok(())
}

/// Puts the packet of these parts, in version 1, after other bytes.
fn put_parts(bytes: &mut Vec<u8>, parts: &Parts) -> Result<(), AllocError> {
    bytes.extend_from_slice(&[1, parts.kind, parts.from])?;
    put_numbers(bytes, &parts.numbers[..parts.count.min(3)])?;
    put_requests(bytes, parts.kind, parts.requests)
}

/// The packet that bytes in version 1 spell, or that they spell in version 2.
pub fn packet_in(alloc: Global, bytes: &mut Vec<u8>) -> Option<Packet> {
    if let Ok(packet) = get_packet(alloc, bytes.as_slice()) {
        return Some(packet);
    }
    if let Some(version) = bytes.get_mut(0) {
        *version = 2;
    }
    get_packet(alloc, bytes.as_slice()).ok()
}

/// The packet of parts, where memory for it is there.
pub fn packet_of(alloc: Global, parts: &Parts) -> Option<Packet> {
    let mut bytes = Vec::new(alloc);
    put_parts(&mut bytes, parts).ok()?;
    packet_in(alloc, &mut bytes)
}

/// The packet, where memory for it is there.
pub fn other_packet(alloc: Global, other: Other) -> Option<Packet> {
    packet_of(alloc, &parts_of(other))
}
