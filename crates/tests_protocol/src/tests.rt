//! Worked examples, and texts worked out by hand from the protocol's rules.

mod copies;
mod frames;
mod full_log;
mod lies;
mod log;
mod long_runs;
mod lying_peers;
mod memory;
mod others;
mod random;
mod saved;
mod steps;
mod texts;
mod view_changes;
mod worlds;

use desk_codec::get_entry;
use desk_log::Log;
use desk_types::{Command, Domain, Entry, WantOfMemory};
use std::alloc::{AllocError, Global};

// 2026-03-01T12:00:00Z
const NOON: i64 = 1_772_366_400;

/// A client, and the number of its request.
type Request = (u64, u64);

fn domain(alloc: Global) -> Option<Domain> {
    Domain::new(alloc, "desk.example").ok()
}

/// What stands after the client and the number of a request to open an incident for a fire at 12 Elm St.
const OPEN: &[u8] = b"\0\x1a\x01\0\0\0\0\x69\xa4\x2a\x40\x04fire\x0912 Elm St\0\0";

/// Puts the bytes of a client's request to open an incident after others.
fn put_request(bytes: &mut Vec<u8>, request: Request) -> Result<(), AllocError> {
    bytes.extend_from_slice(&request.0.to_be_bytes())?;
    bytes.extend_from_slice(&request.1.to_be_bytes())?;
    bytes.extend_from_slice(OPEN)
}

/// A client's request to open an incident.
fn entry(alloc: Global, client: u64, number: u64) -> Option<Entry> {
    let mut bytes = Vec::new(alloc);
    put_request(&mut bytes, (client, number)).ok()?;
    match get_entry(alloc, bytes.as_slice()) {
        Ok((entry, _)) => Some(entry),
        Err(_) => None,
    }
}

/// Requests to open incidents, in their order.
fn entries_of(alloc: Global, requests: &[Request]) -> Result<Vec<Entry>, WantOfMemory> {
    let mut entries = Vec::new(alloc);
    for request in requests {
        let entry = entry(alloc, request.0, request.1).ok_or(WantOfMemory)?;
        entries.push(entry)?;
    }
    Ok(entries)
}

/// Whether an entry is a client's request of a number to open an incident.
fn is_request(entry: &Entry, request: Request) -> bool {
    let is_open = match &entry.command {
        Command::Open {
            at,
            kind,
            site,
            incident: None,
            call: None,
        } => *at == NOON && kind.as_str() == "fire" && site.as_str() == "12 Elm St",
        _ => false,
    };
    is_open && entry.client.get() == request.0 && entry.number.get() == request.1
}

/// Whether the entries are these requests.
fn are_requests(entries: &[Entry], requests: &[Request]) -> bool {
    entries.len() == requests.len()
        && entries
            .iter()
            .zip(requests)
            .all(|(entry, request)| is_request(entry, *request))
}

/// The place that a request is given, or 100,000 more than the number of its refusal; 0 where memory for it is refused.
fn place_given(alloc: Global, log: &mut Log, request: Request) -> u64 {
    let Some(entry) = entry(alloc, request.0, request.1) else {
        return 0;
    };
    match log.append(entry) {
        Ok(place) => place,
        Err(refusal) => 100_000 + refusal.number() as u64,
    }
}

fn log_of(alloc: Global, requests: &[Request]) -> Option<Log> {
    let mut log = Log::new(alloc);
    for request in requests {
        let place = place_given(alloc, &mut log, *request);
        if place == 0 || place > 100_000 {
            return None;
        }
    }
    Some(log)
}

/// Whether a log holds these requests.
fn holds(log: &Log, requests: &[Request]) -> bool {
    log.len() == requests.len() as u64 && are_requests(log.entries(), requests)
}
